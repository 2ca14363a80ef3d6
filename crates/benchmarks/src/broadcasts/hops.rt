//! How far messages go, and how many packets they take, when nodes swap branches for shorter ones.
use crate::broadcasts::{NODES, group_of};
use crate::names::{LENGTH, name_of, payload};
use crate::simulated::{arrive, play, say};
use anyhow::Result;
use bytes::Bytes;
use node_names::Limits;
use protocol::Core;
use std::alloc::Global;
use std::io::Print;
use world::{EventOf, World, WorldError};

/// More units of time than a broadcast takes.
const MANY: usize = 1_000;

/// How many broadcasts a sender makes.
const BROADCASTS: usize = 64;

/// What some broadcasts took.
#[derive(Clone, Copy)]
struct Taken {
    /// The sum of the links on the longest path of each broadcast.
    links: usize,
    /// The links on the longest path of all broadcasts.
    longest: usize,
    packets: usize,
}

impl Taken {
    const NOTHING: Taken = Taken {
        links: 0,
        longest: 0,
        packets: 0,
    };

    /// Adds a broadcast whose longest path has so many links.
    fn add(&mut self, links: usize) {
        self.links = self.links.saturating_add(links);
        self.longest = self.longest.max(links);
    }
}

/// Lets all packets arrive that are in flight, the oldest first. Returns how many messages are delivered.
fn arrive_all<C: Core<Global>>(group: &mut World<C>) -> Result<usize, WorldError> {
    let mut delivered = 0usize;
    for _ in 0..group.flight().len() {
        delivered = delivered.saturating_add(arrive(group, 0)?);
    }
    Ok(delivered)
}

/// Has all nodes send their queued announcements.
fn flush_all<C: Core<Global>>(group: &mut World<C>) -> Result<()> {
    for place in 0..NODES {
        let name = name_of(place)?;
        play(group, EventOf::Flush { name })?;
    }
    Ok(())
}

/// Lets units of time pass until nothing is in flight. In each, all packets arrive that are in flight, and each node
/// sends its queued announcements. Returns the number of units after which the last node has the message.
fn pass_all<C: Core<Global>>(group: &mut World<C>) -> Result<usize> {
    let mut last = 0;
    for unit in 1..MANY {
        flush_all(group)?;
        if group.flight().is_empty() {
            break;
        }
        if arrive_all(group)? > 0 {
            last = unit;
        }
    }
    Ok(last)
}

/// Broadcasts at the node at this place. Returns the number of units of time after which the last node has the message.
fn broadcast<C: Core<Global>>(
    group: &mut World<C>,
    place: usize,
    payload: &Bytes,
) -> Result<usize> {
    say(group, place % NODES, payload)?;
    pass_all(group)
}

/// Makes broadcasts, each `step` places further than the one before.
fn broadcast_all<C: Core<Global>>(
    group: &mut World<C>,
    place: usize,
    step: usize,
    payload: &Bytes,
) -> Result<Taken> {
    let sent = group.sent().len();
    let mut taken = Taken::NOTHING;
    for number in 0..BROADCASTS {
        let at = number.saturating_mul(step).saturating_add(place);
        taken.add(broadcast(group, at, payload)?);
    }
    taken.packets = group.sent().len().saturating_sub(sent);
    Ok(taken)
}

/// Prints what the broadcasts took.
fn tell(rt: &impl Print, senders: &str, taken: &Taken) -> Result<()> {
    let links = taken.links.saturating_mul(10) / BROADCASTS;
    let packets = taken.packets / BROADCASTS;
    println!(rt;
        "{senders}: {}.{} links on average, {} at most, {packets} packets",
        links / 10,
        links % 10,
        taken.longest
    )?;
    Ok(())
}

/// Has a node make the tree, then another make broadcasts, and then all nodes in turn.
fn measure_in<R: Print, C: Core<Global>>(
    rt: &R,
    group: &mut World<C>,
    payload: &Bytes,
) -> Result<()> {
    broadcast(group, 0, payload)?;
    let first = broadcast_all(group, 4, 0, payload)?;
    tell(rt, "one sender", &first)?;
    let all = broadcast_all(group, 0, 1, payload)?;
    tell(rt, "each in turn", &all)
}

/// Measures broadcasts in a group with this threshold.
pub(crate) fn measure<R: Print, C: Core<Global>>(
    rt: &R,
    alloc: Global,
    threshold: u32,
) -> Result<()> {
    let mut group = group_of::<C>(alloc, Limits::STANDARD.tuned(threshold))?;
    measure_in(rt, &mut group, &payload(alloc, LENGTH)?)
}
