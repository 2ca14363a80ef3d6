//! Writes, each of which fails in turn: nothing is written after the failed one, and the status is 1.
use crate::tests::hello::{hello, is_front, is_told};
use links::{MeteredWrite, TapeWriter};
use simulation::{Form, play_input};
use std::alloc::{AllocError, Global};
use std::test::Fail;
use test_support::sweep;

/// How many bytes each write takes at most.
const MOST: usize = 10;

/// Whether what is printed is whole, or is cut off if a write failed. Either way nothing is reported.
fn is_right(is_failed: bool, status: u8, printed: &[u8], told: &[u8]) -> bool {
    let is_printed = if is_failed {
        status == 1 && is_front(printed)
    } else {
        status == 0 && is_told(printed)
    };
    is_printed && told.is_empty()
}

/// Plays the scenario. Returns whether a write of what is printed failed, or `None` if the answer is wrong.
fn play(alloc: Global, out: &mut TapeWriter, faults: &mut TapeWriter) -> Option<bool> {
    let mut text = hello();
    let status = play_input(alloc, Form::Lines, false, &mut text, out, faults);
    let is_failed = out.failures() > 0;
    is_right(is_failed, status, out.as_slice(), faults.as_slice()).then_some(is_failed)
}

/// Calls `play` with an output that fails at call number `n`, counted from 1.
fn play_failing(alloc: Global, n: u64) -> Option<bool> {
    let mut out = TapeWriter::new(alloc, MOST, Some(n.saturating_sub(1) as usize));
    let mut faults = TapeWriter::new(alloc, usize::MAX, None);
    play(alloc, &mut out, &mut faults)
}

#[test]
fn each_write(rt: HostRuntime) -> Result<(), Fail> {
    let failed = sweep(|n| Ok::<_, AllocError>(play_failing(rt.alloc(), n)))?;
    let count = failed.unwrap_or(0);
    // Two lines of 31 bytes, and the 44 bytes of a tree.
    assert!(rt; count == 13, "{count} writes");
    Ok(())
}

/// A text that is not a scenario.
const REFUSED: &[u8] = b"seed = -1";

/// What is reported for it.
const FAULT: &[u8] = b"plumtree: scenario: top: seed\n";

/// Whether what is reported for such a text is whole, or is cut off if a write failed, and nothing is printed.
fn is_refused(is_failed: bool, status: u8, printed: &[u8], told: &[u8]) -> bool {
    let is_told = if is_failed {
        status == 1 && told.len() < FAULT.len() && FAULT.get(..told.len()) == Some(told)
    } else {
        status == 2 && told == FAULT
    };
    is_told && printed.is_empty()
}

/// Plays such a text. Returns whether a write of what is reported failed, or `None` if the answer is wrong.
fn refuse(alloc: Global, out: &mut TapeWriter, faults: &mut TapeWriter) -> Option<bool> {
    let mut text = REFUSED;
    let status = play_input(alloc, Form::Lines, false, &mut text, out, faults);
    let is_failed = faults.failures() > 0;
    is_refused(is_failed, status, out.as_slice(), faults.as_slice()).then_some(is_failed)
}

/// Calls `refuse` with a writer of reports that fails at call number `n`, counted from 1.
fn refuse_failing(alloc: Global, n: u64) -> Option<bool> {
    let mut out = TapeWriter::new(alloc, usize::MAX, None);
    let mut faults = TapeWriter::new(alloc, MOST, Some(n.saturating_sub(1) as usize));
    refuse(alloc, &mut out, &mut faults)
}

#[test]
fn each_write_of_a_fault(rt: HostRuntime) -> Result<(), Fail> {
    let failed = sweep(|n| Ok::<_, AllocError>(refuse_failing(rt.alloc(), n)))?;
    let count = failed.unwrap_or(0);
    assert!(rt; count >= 3, "{count} writes");
    Ok(())
}
