//! Steps of a running node's cell.
use crate::clock::nanos_since;
use crate::names::{name_of, origin_named};
use crate::plumtree::MeasuredNode;
use crate::steps::messages::{PEERS, Taken, arrivals};
use anyhow::Result;
use frames::Frame;
use node_names::NodeName;
use node_threads::{NodeCell, NodeCore, Outlet};
use protocol::Stimulus;
use std::alloc::Global;
use std::time::{Clock, Instant};
use std::vec::IntoIter;

/// How many frames a link has room for.
const RING: usize = 1 << 10;

/// How many steps are timed together: at most as many as a link has room for.
const BATCH: usize = 1_000;

/// Opens a link to this name.
fn open_link<C: NodeCore<Global> + Drop>(
    cell: &mut NodeCell<C>,
    outlets: &mut Vec<Outlet>,
    name: NodeName,
) -> Result<()> {
    outlets.push(cell.open_link(name, RING)?)?;
    Ok(())
}

/// Opens a link to each peer.
pub(crate) fn open_links<C: NodeCore<Global> + Drop>(
    cell: &mut NodeCell<C>,
    outlets: &mut Vec<Outlet>,
) -> Result<()> {
    for peer in PEERS {
        open_link(cell, outlets, origin_named(peer)?.name)?;
    }
    Ok(())
}

/// Opens `count` links to other names, which send nothing and get nothing.
fn open_idle<C: NodeCore<Global> + Drop>(
    cell: &mut NodeCell<C>,
    outlets: &mut Vec<Outlet>,
    count: usize,
) -> Result<()> {
    for number in 0..count {
        open_link(cell, outlets, name_of(number)?)?;
    }
    Ok(())
}

/// Takes all frames out of a link.
fn empty(outlet: &mut Outlet) -> Result<()> {
    for _ in 0..RING {
        if outlet.pop()?.is_none() {
            break;
        }
    }
    Ok(())
}

/// Takes all frames out of the links.
fn empty_all(outlets: &mut Vec<Outlet>) -> Result<()> {
    for outlet in outlets.iter_mut() {
        empty(outlet)?;
    }
    Ok(())
}

/// How many frames were taken out of the links.
pub(crate) fn taken(outlets: &[Outlet]) -> u64 {
    let mut taken: u64 = 0;
    for outlet in outlets {
        taken = taken.saturating_add(outlet.taken());
    }
    taken
}

/// Lets a cell take a stimulus.
fn take<C: NodeCore<Global> + Drop>(
    cell: &mut NodeCell<C>,
    stimulus: Stimulus<Frame>,
) -> Result<()> {
    cell.apply(stimulus)?;
    Ok(())
}

/// Lets a cell take stimuli, and empties the links after each.
pub(crate) fn take_all<C: NodeCore<Global> + Drop>(
    cell: &mut NodeCell<C>,
    outlets: &mut Vec<Outlet>,
    stimuli: Vec<Stimulus<Frame>>,
) -> Result<()> {
    for stimulus in stimuli {
        take(cell, stimulus)?;
        empty_all(outlets)?;
    }
    Ok(())
}

/// Opens the links of a cell, and lets it take stimuli.
pub(crate) fn fill<C: NodeCore<Global> + Drop>(
    alloc: Global,
    cell: &mut NodeCell<C>,
    stimuli: Vec<Stimulus<Frame>>,
) -> Result<()> {
    let mut outlets = Vec::new(alloc);
    open_links(cell, &mut outlets)?;
    take_all(cell, &mut outlets, stimuli)
}

/// Lets a cell take the next stimuli, at most `BATCH` of them.
fn take_batch<C: NodeCore<Global> + Drop>(
    cell: &mut NodeCell<C>,
    stimuli: &mut IntoIter<Stimulus<Frame>>,
) -> Result<()> {
    for _ in 0..BATCH {
        match stimuli.next() {
            Some(stimulus) => take(cell, stimulus)?,
            None => break,
        }
    }
    Ok(())
}

/// Lets a cell take the next stimuli, and returns how many nanoseconds that took.
fn time_batch<R: Clock, C: NodeCore<Global> + Drop>(
    rt: &R,
    cell: &mut NodeCell<C>,
    stimuli: &mut IntoIter<Stimulus<Frame>>,
) -> Result<u64> {
    let start = Instant::now(rt)?;
    take_batch(cell, stimuli)?;
    nanos_since(rt, start)
}

/// Times how a cell takes stimuli. The links are emptied in between, which is not timed.
fn time_steps<R: Clock, C: NodeCore<Global> + Drop>(
    rt: &R,
    cell: &mut NodeCell<C>,
    outlets: &mut Vec<Outlet>,
    stimuli: Vec<Stimulus<Frame>>,
) -> Result<Taken> {
    let came = stimuli.len();
    let mut left = stimuli.into_iter();
    let mut nanos: u64 = 0;
    for _ in 0..=came / BATCH {
        nanos = nanos.saturating_add(time_batch(rt, cell, &mut left)?);
        empty_all(outlets)?;
    }
    Ok(Taken {
        came: came as u64,
        sent: taken(outlets.as_slice()),
        nanos,
    })
}

/// Opens the links of a cell, `idle` of them besides those to its peers, and times how it takes stimuli.
fn time_linked<R: Clock, C: NodeCore<Global> + Drop>(
    rt: &R,
    alloc: Global,
    cell: &mut NodeCell<C>,
    stimuli: Vec<Stimulus<Frame>>,
    idle: usize,
) -> Result<Taken> {
    let mut outlets = Vec::new(alloc);
    open_links(cell, &mut outlets)?;
    open_idle(cell, &mut outlets, idle)?;
    time_steps(rt, cell, &mut outlets, stimuli)
}

/// Lets a cell with links to four peers, and `idle` others, take `count` messages of one of the peers.
pub(crate) fn step_cell<R: Clock, C: MeasuredNode>(
    rt: &R,
    alloc: Global,
    count: u64,
    idle: usize,
) -> Result<Taken> {
    let stimuli = arrivals(alloc, count)?;
    let mut cell = C::start_cell(alloc)?;
    time_linked(rt, alloc, &mut cell, stimuli, idle)
}
