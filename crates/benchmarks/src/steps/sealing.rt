//! The history of a running node, handed out in one part.
use crate::clock::nanos_since;
use crate::plumtree::MeasuredNode;
use crate::steps::cell_steps::fill;
use crate::steps::messages::{Taken, arrivals};
use anyhow::Result;
use frames::Frame;
use node_threads::{NodeCell, NodeCore};
use protocol::Stimulus;
use std::alloc::Global;
use std::time::{Clock, Instant};

/// Times how long a cell takes to hand out all steps since the last part.
fn time_part<R: Clock, C: NodeCore<Global> + Drop>(
    rt: &R,
    cell: &mut NodeCell<C>,
) -> Result<Taken> {
    let start = Instant::now(rt)?;
    let sealed = cell.seal()?;
    let nanos = nanos_since(rt, start)?;
    Ok(Taken {
        came: sealed.segment.steps.len() as u64,
        sent: 0,
        nanos,
    })
}

/// Times how long a cell takes to hand out its steps after these stimuli. If `is_again` is set, all of them were handed
/// out before, and otherwise none.
fn time_seal<R: Clock, C: NodeCore<Global> + Drop>(
    rt: &R,
    alloc: Global,
    cell: &mut NodeCell<C>,
    stimuli: Vec<Stimulus<Frame>>,
    is_again: bool,
) -> Result<Taken> {
    fill(alloc, cell, stimuli)?;
    let whole = time_part(rt, cell)?;
    if is_again {
        time_part(rt, cell)
    } else {
        Ok(whole)
    }
}

/// Times how long a cell takes to hand out its steps after `count` messages came. If `is_again` is set, all of them
/// were handed out before, and otherwise none.
pub(crate) fn seal<R: Clock, C: MeasuredNode>(
    rt: &R,
    alloc: Global,
    count: u64,
    is_again: bool,
) -> Result<Taken> {
    let stimuli = arrivals(alloc, count)?;
    let mut cell = C::start_cell(alloc)?;
    time_seal(rt, alloc, &mut cell, stimuli, is_again)
}
