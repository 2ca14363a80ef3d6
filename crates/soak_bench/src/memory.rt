//! The memory that this process has.
use anyhow::{Context, Result};
use std::fs;
use std::rt::Files;

/// The memory that this process has, in KiB, as the system says.
pub(crate) fn resident<R: AllocGlobal + Files>(rt: &R) -> Result<u64> {
    let status = fs::read_to_string(rt, "/proc/self/status")?;
    for line in status.as_str().lines() {
        if let Some(rest) = line.strip_prefix("VmRSS:") {
            let word = rest.split_whitespace().next().context("no number")?;
            return Ok(word.parse()?);
        }
    }
    Ok(0)
}
