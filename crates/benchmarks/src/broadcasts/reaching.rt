//! How long it takes to find who is in reach, in a ring of nodes with two peers each: no overlay has longer ways.
use crate::clock::nanos_since;
use crate::names::name_of;
use crate::simulated::started;
use anyhow::Result;
use at_rest::reach;
use node_names::{Limits, NodeName};
use protocol::Core;
use std::alloc::Global;
use std::io::Print;
use std::time::{Clock, Instant};
use world::World;

/// How often it is found.
const TIMES: usize = 100;

/// Finds it so often, and returns how many names were found in all.
fn find<C: Core<Global>>(alloc: Global, group: &World<C>, name: NodeName) -> Result<usize> {
    let mut found = 0usize;
    for _ in 0..TIMES {
        let names = reach(alloc, group, name)?;
        found = found.saturating_add(names.len());
    }
    Ok(found)
}

/// Prints how long it takes in this group.
fn measure_in<R: Print + Clock, C: Core<Global>>(
    rt: &R,
    alloc: Global,
    group: &World<C>,
) -> Result<()> {
    let start = Instant::now(rt)?;
    let found = find(alloc, group, name_of(0)?)? as u64;
    let nanos = nanos_since(rt, start)?;
    let (nodes, each) = (found / TIMES as u64, nanos / found.max(1));
    println!(rt; "{nodes:5} nodes in reach, {each} nanoseconds each")?;
    Ok(())
}

/// Prints how long it takes in a ring of so many nodes, at most 1,000.
pub(crate) fn measure<R: Print + Clock, C: Core<Global>>(
    rt: &R,
    alloc: Global,
    nodes: usize,
) -> Result<()> {
    let steps = [1, nodes.saturating_sub(1)];
    let group = started::<C>(alloc, Limits::STANDARD, nodes, &steps)?;
    measure_in(rt, alloc, &group)
}
