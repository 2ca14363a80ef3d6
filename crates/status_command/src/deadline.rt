//! By when an answer must be whole.
use crate::error::AskError;
use std::time::{Clock, Duration, Instant};

/// By when an answer must be whole.
#[derive(Clone, Copy)]
pub(crate) struct Deadline {
    begun: Instant,
    timeout: Duration,
}

impl Deadline {
    /// The end of this time from now on.
    pub(crate) fn after<R: Clock>(rt: &R, timeout: Duration) -> Result<Deadline, AskError> {
        match Instant::now(rt) {
            Ok(begun) => Ok(Deadline { begun, timeout }),
            Err(error) => Err(AskError::Clock(error)),
        }
    }

    /// How long it is until then, which is not nothing.
    pub(crate) fn left<R: Clock>(&self, rt: &R) -> Result<Duration, AskError> {
        match self.begun.elapsed(rt) {
            Ok(elapsed) if elapsed < self.timeout => Ok(self.timeout.saturating_sub(elapsed)),
            Ok(_) => Err(AskError::TimedOut),
            Err(error) => Err(AskError::Clock(error)),
        }
    }
}
