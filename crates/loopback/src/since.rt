//! The time since a run began.
use std::time::{Clock, Duration, Instant};

/// The time since a run began. It is 0 if the clock can't be read.
pub(crate) fn since<R: Clock>(rt: &R, start: &Option<Instant>) -> Duration {
    match start {
        Some(start) => start.elapsed(rt).unwrap_or(Duration::ZERO),
        None => Duration::ZERO,
    }
}
