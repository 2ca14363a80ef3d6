//! How long something takes.
use anyhow::Result;
use std::time::{Clock, Instant};

/// How many nanoseconds have passed since `start`.
pub(crate) fn nanos_since<R: Clock>(rt: &R, start: Instant) -> Result<u64> {
    Ok(u64::try_from(start.elapsed(rt)?.as_nanos()).unwrap_or(u64::MAX))
}

/// How many microseconds have passed since `start`.
pub(crate) fn micros_since<R: Clock>(rt: &R, start: Instant) -> Result<u64> {
    Ok(nanos_since(rt, start)? / 1_000)
}

/// The rate per second of `count` in `micros` microseconds.
pub(crate) fn in_a_second(count: u64, micros: u64) -> u64 {
    count.saturating_mul(1_000_000) / micros.max(1)
}
