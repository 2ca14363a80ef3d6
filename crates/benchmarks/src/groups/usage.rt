//! What this process has used so far, as the system says.
use anyhow::{Result, bail};
use std::fs;
use std::rt::Files;

/// The length of the steps in which the system counts processor time, in milliseconds.
const STEP: u64 = 10;

/// The places of user time and system time among the words of `/proc/self/stat`.
const TIMES: [usize; 2] = [13, 14];

/// What a process has used.
#[derive(Clone, Copy, Debug)]
pub(crate) struct Usage {
    /// The processor time of all threads, including those that have ended, in milliseconds.
    pub(crate) processor: u64,
    /// The memory that it has, in KiB.
    pub(crate) memory: u64,
    /// The most memory that it had, in KiB.
    pub(crate) peak: u64,
    pub(crate) threads: u64,
}

/// Reads the word at this place as a number.
fn number_at(text: &str, place: usize) -> Result<u64> {
    match text.split_whitespace().nth(place) {
        Some(word) => Ok(word.parse()?),
        None => bail!("/proc/self has too few words"),
    }
}

/// Reads the number that follows this name at the start of a line.
fn number_of(text: &str, name: &str) -> Result<u64> {
    for line in text.lines() {
        if let Some(rest) = line.strip_prefix(name) {
            return number_at(rest, 0);
        }
    }
    bail!("/proc/self/status lacks {name}")
}

/// The processor time of the whole process, in milliseconds.
fn processor(stat: &str) -> Result<u64> {
    let mut steps: u64 = 0;
    for place in TIMES {
        steps = steps.saturating_add(number_at(stat, place)?);
    }
    Ok(steps.saturating_mul(STEP))
}

/// What this process has used so far.
pub(crate) fn read_usage<R: AllocGlobal + Files>(rt: &R) -> Result<Usage> {
    let stat = fs::read_to_string(rt, "/proc/self/stat")?;
    let status = fs::read_to_string(rt, "/proc/self/status")?;
    Ok(Usage {
        processor: processor(stat.as_str())?,
        memory: number_of(status.as_str(), "VmRSS:")?,
        peak: number_of(status.as_str(), "VmHWM:")?,
        threads: number_of(status.as_str(), "Threads:")?,
    })
}
