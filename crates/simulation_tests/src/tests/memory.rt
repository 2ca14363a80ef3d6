//! A scenario that is played and printed, or traced, with each allocation refused in turn: either it fails as out of
//! memory, or nothing is missing.
use crate::tests::hello::{hello, is_told, is_traced};
use links::TapeWriter;
use refusing_allocator::RefusingAllocator;
use scenario::{Scenario, ScenarioError, read_document};
use simulation::{SimulationError, conclude, play_and_print, play_and_trace};
use std::alloc::{Allocator, Global};
use std::test::Fail;
use test_support::{lend, stop_refusing, sweep};

/// What is reported if memory runs out.
const SHORT: &[u8] = b"plumtree: out of memory\n";

/// How a scenario ended.
#[derive(Clone, Copy, PartialEq, Eq)]
enum End {
    /// All of it was played and printed.
    Whole,
    /// Memory ran out.
    Short,
    /// Anything else.
    Wrong,
}

/// The form in which a scenario is written.
#[derive(Clone, Copy, PartialEq, Eq)]
enum Written {
    /// As lines.
    Printed,
    /// As a trace.
    Traced,
}

/// Whether this is everything that is written for the scenario in this form.
fn is_whole(form: Written, written: &[u8]) -> bool {
    match form {
        Written::Printed => is_told(written),
        Written::Traced => is_traced(written),
    }
}

/// Returns how a scenario ended, given its status, what was written for it and what was reported.
fn end_of(form: Written, status: u8, written: &[u8], told: &[u8]) -> End {
    if status == 0 && is_whole(form, written) && told.is_empty() {
        End::Whole
    } else if status == 1 && told == SHORT {
        End::Short
    } else {
        End::Wrong
    }
}

/// Plays a scenario and writes it in this form.
fn play_as<A: Allocator + Copy>(
    form: Written,
    alloc: A,
    scenario: &Scenario,
    out: &mut TapeWriter,
) -> Result<(), SimulationError> {
    match form {
        Written::Printed => play_and_print::<A, TapeWriter>(alloc, scenario, false, out),
        Written::Traced => play_and_trace::<A, TapeWriter>(alloc, scenario, hello(), false, out),
    }
}

/// Plays a scenario while allocation number `n` is refused. Returns how it ended, and whether there was such an
/// allocation.
fn play_refused<A: Allocator + Copy>(
    heap: &RefusingAllocator,
    form: Written,
    alloc: A,
    scenario: &Scenario,
    out: &mut TapeWriter,
    faults: &mut TapeWriter,
    n: u64,
) -> (End, bool) {
    heap.refuse(n);
    let ended = play_as(form, alloc, scenario, out);
    let is_spent = stop_refusing(heap);
    let status = conclude(ended, faults);
    let end = end_of(form, status, out.as_slice(), faults.as_slice());
    (end, is_spent)
}

/// Calls `play_refused` with fresh writers.
fn play<A: Allocator + Copy>(
    heap: &RefusingAllocator,
    form: Written,
    alloc: A,
    writers: Global,
    scenario: &Scenario,
    n: u64,
) -> (End, bool) {
    let mut out = TapeWriter::new(writers, usize::MAX, None);
    let mut faults = TapeWriter::new(writers, usize::MAX, None);
    play_refused(heap, form, alloc, scenario, &mut out, &mut faults, n)
}

/// Calls `play`, and counts the scenario in `short` if memory ran out. Returns whether there was such an allocation, or
/// `None` if the answer is wrong. An allocation that only asks for more room than is needed may be refused without
/// harm.
fn count_short<A: Allocator + Copy>(
    heap: &RefusingAllocator,
    form: Written,
    alloc: A,
    writers: Global,
    scenario: &Scenario,
    short: &mut u64,
    n: u64,
) -> Option<bool> {
    let (end, is_spent) = play(heap, form, alloc, writers, scenario, n);
    let is_short = end == End::Short;
    *short = short.saturating_add(is_short as u64);
    let is_right = end == End::Whole || (is_short && is_spent);
    is_right.then_some(is_spent)
}

/// Refuses each allocation of a scenario in turn. Returns how often memory ran out, or 0 if an answer is wrong.
fn sweep_scenario<A: Allocator + Copy>(
    heap: &RefusingAllocator,
    form: Written,
    alloc: A,
    writers: Global,
    scenario: &Scenario,
) -> Result<u64, ScenarioError> {
    let mut short = 0u64;
    let count = sweep(|n| {
        Ok::<_, ScenarioError>(count_short(heap, form, alloc, writers, scenario, &mut short, n))
    })?;
    Ok(if count.is_some() { short } else { 0 })
}

/// Reads the scenario.
fn read(alloc: Global) -> Result<Scenario, ScenarioError> {
    let document = read_document(alloc, hello())?;
    Scenario::from_document(alloc, &document)
}

/// Returns how often memory ran out for the scenario in this form, or 0 if an answer is wrong.
fn shortages(alloc: Global, form: Written) -> Result<u64, ScenarioError> {
    let heap = RefusingAllocator::new(alloc);
    lend(read(alloc)?, |scenario| {
        sweep_scenario(&heap, form, &heap, alloc, scenario)
    })
}

#[test]
fn each_allocation(rt: HostRuntime) -> Result<(), Fail> {
    let short = shortages(rt.alloc(), Written::Printed)?;
    assert!(rt; short > 30, "memory was short {short} times");
    Ok(())
}

#[test]
fn each_allocation_of_a_trace(rt: HostRuntime) -> Result<(), Fail> {
    let short = shortages(rt.alloc(), Written::Traced)?;
    assert!(rt; short > 60, "memory was short {short} times");
    Ok(())
}
