//! What a run may take in one round.
use frames::Frame;
use protocol::{Core, Stimulus, StimulusOf};
use run_check::RunCheck;
use std::alloc::Global;

/// How many stimuli that are no arrivals a run takes in one round, so that what it sends does not pile up while others
/// lag behind.
const OTHERS: u32 = 16;

/// Above how many frames in flight a run takes no stimuli but arrivals, as long as any run takes some.
const MOST_FLYING: usize = 65_536;

/// What a run may take in one round.
#[derive(Clone, Copy)]
pub(crate) struct Share {
    /// How many stimuli that are no arrivals it may still take.
    others: u32,
    /// Whether it may take them above `MOST_FLYING` too.
    is_free: bool,
}

impl Share {
    /// Makes the share of a round. It is free in the round after one in which no run went on.
    pub(crate) fn new(is_free: bool) -> Share {
        Share {
            others: OTHERS,
            is_free,
        }
    }

    /// Whether the run may take the stimulus now. An arrival may be taken once its frame was sent. Counts what is no
    /// arrival.
    pub(crate) fn lets<C: Core<Global, Note = Frame>>(
        &mut self,
        check: &RunCheck<C>,
        stimulus: &Stimulus<Frame>,
    ) -> bool {
        if let StimulusOf::Arrive { .. } = stimulus {
            return check.is_sent(stimulus);
        }
        if self.others == 0 || (!self.is_free && check.flying() > MOST_FLYING) {
            return false;
        }
        self.others -= 1;
        true
    }
}
