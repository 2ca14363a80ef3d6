//! The frames of one read, on their way to a node.
ghost use Rattle.std.specs.Prelude.{◌≡◌, []};

use frames::Frame;
use links::Sink;
use std::alloc::Allocator;

/// The frames that a read completed, until the node takes them one by one.
///
/// A sink must say at once whether it took a frame, but a step may be refused or have to wait for its turn. So a reader
/// gathers the frames of a read first. One hold of the node's lock takes them all: otherwise the lock would go from
/// thread to thread with each.
#[derive(Drop)]
pub(crate) struct Basket<A: Allocator> {
    frames: Vec<Frame<A>, A>,
    /// The number of frames that there was no memory for. It stays at the greatest u64.
    refusals: u64,
}

impl<A: Allocator> Basket<A> {
    /// A basket without frames.
    pub(crate) fn new(alloc: A) -> Basket<A>
        ensures { result.frames.items ≡ [] }
    {
        Basket {
            frames: Vec::new(alloc),
            refusals: 0,
        }
    }

    /// The frames, in the order in which they came.
    pub(crate) fn into_frames(self) -> Vec<Frame<A>, A>
        ensures { result.items ≡ self.frames.items }
    {
        let Basket {
            frames,
            refusals: _,
        } = self;
        frames
    }
}

impl<A: Allocator> Sink<Frame<A>> for Basket<A> {
    ghost taken = { λ b. b.frames.items };

    ghost refusals = { λ b. b.refusals };

    fn frame(&mut self, frame: Frame<A>) -> bool {
        if self.frames.push(frame).is_err() {
            self.refusals = self.refusals.saturating_add(1);
            return false;
        }
        true
    }
}
