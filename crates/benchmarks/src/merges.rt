//! Merges of the traces of a group of Plumtree nodes: how many events the merge of a small group has, and how long it
//! takes to project and to merge the traces for a given number of nodes, of steps of each, and of packets in flight
//! meanwhile, and for packets that arrive oldest first, newest first or at random.
mod plan;
mod play;

use crate::clock::micros_since;
use crate::merges::plan::{Place, Plan};
use crate::merges::play::played;
use crate::names::origin_of;
use crate::plumtree::MeasuredGroup;
use anyhow::Result;
use frames::Frame;
use node_names::Limits;
use protocol::Trace;
use std::alloc::Global;
use std::io::Print;
use std::time::{Clock, Instant};
use trace_merge::merge;
use world::World;

/// The plan of what is merged when nothing is measured.
const SMALL: Plan = Plan {
    nodes: 8,
    steps: 4,
    place: Place::Oldest,
    waiting: 0,
};

/// Appends the trace of the node at this place of a group.
fn push_trace<C: MeasuredGroup>(
    alloc: Global,
    group: &World<C>,
    place: usize,
    traces: &mut Vec<Trace<Frame>>,
) -> Result<()> {
    traces.push(C::trace(alloc, group, origin_of(place)?)?)?;
    Ok(())
}

/// The traces of a group.
fn traces_of<C: MeasuredGroup>(
    alloc: Global,
    group: &World<C>,
    nodes: usize,
) -> Result<Vec<Trace<Frame>>> {
    let mut traces = Vec::new(alloc);
    for place in 0..nodes {
        push_trace(alloc, group, place, &mut traces)?;
    }
    Ok(traces)
}

/// How many steps traces have in all.
fn count_steps(traces: &[Trace<Frame>]) -> usize {
    let mut steps = 0usize;
    for trace in traces {
        steps = steps.saturating_add(trace.len());
    }
    steps
}

/// How many events the merge of traces has.
fn count_events(alloc: Global, traces: &[Trace<Frame>]) -> Result<usize> {
    Ok(merge(alloc, Limits::STANDARD, traces)?.len())
}

/// Prints how many events the merge of these traces has.
fn tell_of(rt: &impl Print, alloc: Global, traces: &[Trace<Frame>]) -> Result<()> {
    let count = traces.len();
    let steps = count_steps(traces);
    let events = count_events(alloc, traces)?;
    println!(rt; "traces      steps     events")?;
    println!(rt; "{count:6} {steps:10} {events:10}")?;
    Ok(())
}

/// Prints how long the merge of `count` traces took.
fn tell_time(
    rt: &impl Print,
    count: usize,
    steps: usize,
    events: usize,
    micros: u64,
) -> Result<()> {
    let millis = micros / 1_000;
    let nanos = micros.saturating_mul(1_000) / (steps as u64).max(1);
    println!(rt; "traces      steps     events         ms   ns / step")?;
    println!(rt; "{count:6} {steps:10} {events:10} {millis:10} {nanos:11}")?;
    Ok(())
}

/// Prints how long the merge of these traces takes.
fn measure_of<R: Print + Clock>(rt: &R, alloc: Global, traces: &[Trace<Frame>]) -> Result<()> {
    let steps = count_steps(traces);
    let start = Instant::now(rt)?;
    let events = count_events(alloc, traces)?;
    let micros = micros_since(rt, start)?;
    tell_time(rt, traces.len(), steps, events, micros)
}

/// Prints how long it takes to project the traces of this group, and returns them.
fn measure_traces<R: Print + Clock, C: MeasuredGroup>(
    rt: &R,
    alloc: Global,
    group: &World<C>,
    nodes: usize,
) -> Result<Vec<Trace<Frame>>> {
    let start = Instant::now(rt)?;
    let traces = traces_of(alloc, group, nodes)?;
    let micros = micros_since(rt, start)? / (nodes as u64).max(1);
    println!(rt;
        "{} events, each trace in {micros} microseconds",
        group.log().len()
    )?;
    Ok(traces)
}

/// Prints how many events the merge of a small group's traces has.
pub(crate) fn tell<R: Print, C: MeasuredGroup>(rt: &R, alloc: Global) -> Result<()> {
    let group = played::<C>(alloc, &SMALL)?;
    let traces = traces_of(alloc, &group, SMALL.nodes)?;
    tell_of(rt, alloc, traces.as_slice())
}

/// Prints how long it takes to project and to merge the traces of a group. The arguments give the plan.
pub(crate) fn measure<R: Print + Clock, C: MeasuredGroup>(
    rt: &R,
    alloc: Global,
    words: &[String],
) -> Result<()> {
    let plan = Plan::parse(words)?;
    let group = played::<C>(alloc, &plan)?;
    let traces = measure_traces(rt, alloc, &group, plan.nodes)?;
    drop(group);
    measure_of(rt, alloc, traces.as_slice())
}
