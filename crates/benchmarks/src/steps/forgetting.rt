//! What it costs a cell to compare its links with its history, and to forget what it handed out.
use crate::clock::nanos_since;
use crate::plumtree::MeasuredNode;
use crate::steps::cell_steps::{fill, open_links, take_all, taken};
use crate::steps::messages::{Taken, arrivals};
use anyhow::Result;
use frames::Frame;
use node_threads::{NodeCell, NodeCore, Outlet};
use protocol::Stimulus;
use std::alloc::Global;
use std::time::{Clock, Instant};

/// Times how a cell compares what came out of its links.
fn time_comparison<R: Clock, C: NodeCore<Global> + Drop>(
    rt: &R,
    cell: &NodeCell<C>,
    outlets: &mut Vec<Outlet>,
) -> Result<u64> {
    let start = Instant::now(rt)?;
    for outlet in outlets.iter_mut() {
        cell.compare(outlet);
    }
    nanos_since(rt, start)
}

/// Lets a cell take stimuli, and times how it compares what came out of its links after them.
fn compare_after<R: Clock, C: NodeCore<Global> + Drop>(
    rt: &R,
    alloc: Global,
    cell: &mut NodeCell<C>,
    stimuli: Vec<Stimulus<Frame>>,
) -> Result<Taken> {
    let came = stimuli.len() as u64;
    let mut outlets = Vec::new(alloc);
    open_links(cell, &mut outlets)?;
    take_all(cell, &mut outlets, stimuli)?;
    let sent = taken(outlets.as_slice());
    let nanos = time_comparison(rt, cell, &mut outlets)?;
    Ok(Taken { came, sent, nanos })
}

/// Times how a cell compares what came out of its links after `count` messages came.
pub(crate) fn compare<R: Clock, C: MeasuredNode>(
    rt: &R,
    alloc: Global,
    count: u64,
) -> Result<Taken> {
    let stimuli = arrivals(alloc, count)?;
    let mut cell = C::start_cell(alloc)?;
    compare_after(rt, alloc, &mut cell, stimuli)
}

/// Times how a cell forgets its steps, which nobody else has.
fn time_forgetting<R: Clock, C: NodeCore<Global> + Drop>(
    rt: &R,
    cell: &mut NodeCell<C>,
) -> Result<Taken> {
    cell.seal_off()?;
    let start = Instant::now(rt)?;
    let forgotten = cell.forget_sealed();
    let nanos = nanos_since(rt, start)?;
    Ok(Taken {
        came: forgotten as u64,
        sent: 0,
        nanos,
    })
}

/// Times how a cell forgets its steps after `count` messages came.
pub(crate) fn forget<R: Clock, C: MeasuredNode>(
    rt: &R,
    alloc: Global,
    count: u64,
) -> Result<Taken> {
    let stimuli = arrivals(alloc, count)?;
    let mut cell = C::start_cell(alloc)?;
    cell.forget_from_now();
    fill(alloc, &mut cell, stimuli)?;
    time_forgetting(rt, &mut cell)
}
