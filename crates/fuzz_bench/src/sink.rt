//! A sink that keeps what it takes.
use frames::Frame;
use links::Sink;

/// Takes at most `most` frames, and refuses all others.
#[derive(Drop)]
pub(crate) struct Kept {
    pub(crate) frames: Vec<Frame>,
    pub(crate) most: usize,
    pub(crate) refusals: u64,
}

impl Sink<Frame> for Kept {
    ghost taken = { λ kept. kept.frames.items };

    ghost refusals = { λ kept. kept.refusals };

    fn frame(&mut self, frame: Frame) -> bool {
        if self.frames.len() < self.most && self.frames.push(frame).is_ok() {
            return true;
        }
        self.refusals = self.refusals.saturating_add(1);
        false
    }
}
