//! Reads of a scenario, each of which fails in turn: nothing is played, and the error is that the scenario cannot be
//! read.
use crate::tests::hello::{hello, is_told};
use bytes::Bytes;
use links::{MeteredRead, TapeReader, TapeWriter};
use simulation::{Form, play_input};
use std::alloc::{AllocError, Global};
use std::test::Fail;
use test_support::sweep;

/// How many bytes the first reads give. Together these are the whole scenario.
const PIECES: [usize; 4] = [1, 50, 100, 61];

/// What is reported for a scenario that cannot be read.
const UNREADABLE: &[u8] = b"plumtree: cannot read scenario\n";

/// Whether the scenario is played, or is refused if a read failed.
fn is_right(is_failed: bool, status: u8, printed: &[u8], told: &[u8]) -> bool {
    if is_failed {
        status == 2 && printed.is_empty() && told == UNREADABLE
    } else {
        status == 0 && is_told(printed) && told.is_empty()
    }
}

/// Plays what a reader gives. Returns whether a read failed, or `None` if the answer is wrong.
fn play(
    alloc: Global,
    reader: &mut TapeReader,
    out: &mut TapeWriter,
    faults: &mut TapeWriter,
) -> Option<bool> {
    let status = play_input(alloc, Form::Lines, false, reader, out, faults);
    let is_failed = reader.failures() > 0;
    is_right(is_failed, status, out.as_slice(), faults.as_slice()).then_some(is_failed)
}

/// Calls `play` with a reader that fails at call number `n`, counted from 1.
fn play_failing(alloc: Global, n: u64) -> Result<Option<bool>, AllocError> {
    let bytes = Bytes::copy_from_slice(alloc, hello())?;
    let pieces = Vec::from_slice(alloc, &PIECES)?;
    let mut reader = TapeReader::new(bytes, pieces, Some(n.saturating_sub(1) as usize));
    let mut out = TapeWriter::new(alloc, usize::MAX, None);
    let mut faults = TapeWriter::new(alloc, usize::MAX, None);
    Ok(play(alloc, &mut reader, &mut out, &mut faults))
}

#[test]
fn each_read(rt: HostRuntime) -> Result<(), Fail> {
    let failed = sweep(|n| play_failing(rt.alloc(), n))?;
    let count = failed.unwrap_or(0);
    // The read after the last byte may fail too.
    assert!(rt; count >= 5, "{count} reads");
    Ok(())
}
