//! The memory that this process has.
use std::alloc::Global;
use std::fs;
use std::fs::File;
use std::io::Read;
use std::rt::Files;

/// Where Linux tells of a process itself.
const STATUS: &str = "/proc/self/status";

/// How many bytes of that are read at most: it has some 1,500.
const MOST: u64 = 16_384;

/// The number of KiB behind `VmRSS:` in what the system tells, if it stands there.
fn kib_in(text: &str) -> Option<u64> {
    for line in text.lines() {
        if let Some(rest) = line.strip_prefix("VmRSS:") {
            return rest.split_whitespace().next()?.parse().ok();
        }
    }
    None
}

/// What the system tells of this process. It is empty where it tells nothing.
fn told<R: Files<File = File>>(rt: &R, alloc: Global) -> Vec<u8> {
    let mut text = Vec::new(alloc);
    if let Ok(file) = fs::open(rt, STATUS) {
        let _ = file.take(MOST).read_to_end(&mut text);
    }
    text
}

/// How many bytes of memory this process has, if the system tells.
pub(crate) fn resident_bytes<R: Files<File = File>>(rt: &R, alloc: Global) -> Option<u64> {
    let text = told(rt, alloc);
    let kib = kib_in(str::from_utf8(text.as_slice()).ok()?)?;
    Some(kib.saturating_mul(1_024))
}
