//! How fast a group is brought to rest, compared with only letting packets arrive.
use crate::broadcasts::group_of;
use crate::broadcasts::play::{broadcast, broadcast_lost};
use crate::clock::micros_since;
use crate::names::{LENGTH, payload};
use crate::plumtree::MeasuredGroup;
use anyhow::Result;
use bytes::Bytes;
use node_names::Limits;
use protocol::Core;
use std::alloc::Global;
use std::io::Print;
use std::time::{Clock, Instant};
use world::{EventOf, NodeState, World};

/// More broadcasts than it takes to queue the announcements that are asked for.
const MANY: usize = 100_000;

/// How many broadcasts are lost on their way.
const LOST: usize = 50;

/// How many announcements a node has queued.
fn queued_at<C: Core<Global>>(node: &NodeState<C>) -> usize {
    match &node.core {
        Some(core) => core.queued().len(),
        None => 0,
    }
}

/// How many announcements all nodes have queued.
pub(crate) fn queued<C: Core<Global>>(group: &World<C>) -> usize {
    let mut count = 0usize;
    for node in group.nodes() {
        count = count.saturating_add(queued_at(node));
    }
    count
}

/// Broadcasts until `count` announcements are queued. All packets of a broadcast arrive before the next one.
fn fill<C: Core<Global>>(group: &mut World<C>, payload: &Bytes, count: usize) -> Result<()> {
    for place in 0..MANY {
        if queued(group) >= count {
            break;
        }
        broadcast(group, place, payload)?;
    }
    Ok(())
}

/// Prints how many events were played, and how long that took.
fn tell(rt: &impl Print, what: &str, events: usize, micros: u64) -> Result<()> {
    let millis = micros / 1_000;
    let speed = (events as u64).saturating_mul(1_000) / millis.max(1);
    println!(rt; "{what}: {events} events in {millis} ms, {speed} a second")?;
    Ok(())
}

/// Queues `count` announcements, and prints how long that takes.
fn measure_filling<R: Print + Clock, C: Core<Global>>(
    rt: &R,
    group: &mut World<C>,
    payload: &Bytes,
    count: usize,
) -> Result<()> {
    let start = Instant::now(rt)?;
    let before = group.log().len();
    fill(group, payload, count)?;
    let micros = micros_since(rt, start)?;
    println!(rt; "{} announcements are queued", queued(group))?;
    let events = group.log().len().saturating_sub(before);
    tell(rt, "broadcasts and arrivals", events, micros)
}

/// Brings the group to rest, and prints how long that takes.
fn measure_rest<R: Print + Clock, C: MeasuredGroup>(
    rt: &R,
    alloc: Global,
    what: &str,
    group: &mut World<C>,
) -> Result<()> {
    let start = Instant::now(rt)?;
    let events = C::settle(alloc, group)?;
    tell(rt, what, events as usize, micros_since(rt, start)?)
}

/// Returns how many timers fired since the log had length `before`.
fn fired<C: Core<Global>>(group: &World<C>, before: usize) -> usize {
    let mut count = 0usize;
    for entry in group.log().iter().skip(before) {
        if let EventOf::Fire { .. } = &entry.event {
            count = count.saturating_add(1);
        }
    }
    count
}

/// Loses broadcasts on their way.
fn lose<C: Core<Global>>(group: &mut World<C>, payload: &Bytes) -> Result<()> {
    for place in 0..LOST {
        broadcast_lost(group, place, payload)?;
    }
    Ok(())
}

/// Measures both kinds of settling: with announcements that are queued, and with broadcasts that were lost on their
/// way, where nodes ask for what was announced to them.
fn measure_in<R: Print + Clock, C: MeasuredGroup>(
    rt: &R,
    alloc: Global,
    group: &mut World<C>,
    payload: &Bytes,
    count: usize,
) -> Result<()> {
    measure_filling(rt, group, payload, count)?;
    measure_rest(rt, alloc, "settling", group)?;
    lose(group, payload)?;
    let before = group.log().len();
    measure_rest(rt, alloc, "settling with requests", group)?;
    println!(rt; "{} timers fired", fired(group, before))?;
    Ok(())
}

/// Measures both kinds of settling in a fresh group.
pub(crate) fn measure<R: Print + Clock, C: MeasuredGroup>(
    rt: &R,
    alloc: Global,
    count: usize,
) -> Result<()> {
    let payload = payload(alloc, LENGTH)?;
    let mut group = group_of::<C>(alloc, Limits::STANDARD)?;
    measure_in(rt, alloc, &mut group, &payload, count)
}
