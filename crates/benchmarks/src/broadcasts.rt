//! Broadcasts in a group of 64 Plumtree nodes: how many packets each of the first few takes, how long a given number of
//! them takes, how far messages go when branches are swapped, how long it takes to bring the group to rest, and to find
//! who is in reach, and the tree of a message.
pub(crate) mod hops;
mod play;
pub(crate) mod reaching;
pub(crate) mod settling;
pub(crate) mod trees;

use crate::broadcasts::play::broadcast;
use crate::clock::micros_since;
use crate::names::{LENGTH, payload};
use crate::ring::five_steps;
use crate::simulated::started;
use anyhow::Result;
use bytes::Bytes;
use node_names::Limits;
use protocol::Core;
use std::alloc::Global;
use std::io::Print;
use std::time::{Clock, Instant};
use world::World;

/// How many nodes there are, in a ring.
const NODES: usize = 64;

/// How many broadcasts are printed: the first makes the tree, and the others go along it.
const TOLD: usize = 4;

/// Makes a group with all nodes started within these limits. Each has five peers.
fn group_of<C: Core<Global>>(alloc: Global, limits: Limits) -> Result<World<C>> {
    started(alloc, limits, NODES, &five_steps(NODES))
}

fn tell_row(rt: &impl Print, number: usize, packets: usize) -> Result<()> {
    println!(rt; "{number:9} {packets:10}")?;
    Ok(())
}

/// Prints how many packets each of the first broadcasts takes in this group.
fn tell_of<R: Print, C: Core<Global>>(rt: &R, group: &mut World<C>, payload: &Bytes) -> Result<()> {
    println!(rt; "broadcast    packets")?;
    for place in 0..TOLD {
        let packets = broadcast(group, place, payload)?;
        tell_row(rt, place.saturating_add(1), packets)?;
    }
    Ok(())
}

fn broadcast_all<C: Core<Global>>(
    group: &mut World<C>,
    payload: &Bytes,
    count: usize,
) -> Result<()> {
    for place in 0..count {
        broadcast(group, place, payload)?;
    }
    Ok(())
}

/// Prints how long `count` broadcasts took.
fn tell_time(
    rt: &impl Print,
    count: usize,
    events: usize,
    packets: usize,
    micros: u64,
) -> Result<()> {
    let millis = micros / 1_000;
    let speed = (events as u64).saturating_mul(1_000) / millis.max(1);
    println!(rt; "broadcasts     events    packets         ms  events / s")?;
    println!(rt; "{count:10} {events:10} {packets:10} {millis:10} {speed:11}")?;
    Ok(())
}

/// Prints how long `count` broadcasts take in this group.
fn measure_in<R: Print + Clock, C: Core<Global>>(
    rt: &R,
    group: &mut World<C>,
    payload: &Bytes,
    count: usize,
) -> Result<()> {
    let start = Instant::now(rt)?;
    broadcast_all(group, payload, count)?;
    let micros = micros_since(rt, start)?;
    let events = group.log().len();
    let packets = group.sent().len();
    tell_time(rt, count, events, packets, micros)
}

/// Prints how many packets each of the first broadcasts takes, and the size of the first one's tree.
pub(crate) fn tell<R: Print, C: Core<Global>>(rt: &R, alloc: Global) -> Result<()> {
    let mut group = group_of::<C>(alloc, Limits::STANDARD)?;
    tell_of(rt, &mut group, &payload(alloc, LENGTH)?)?;
    trees::tell(rt, alloc, &group)
}

/// Prints how long `count` broadcasts take.
pub(crate) fn measure<R: Print + Clock, C: Core<Global>>(
    rt: &R,
    alloc: Global,
    count: usize,
) -> Result<()> {
    let mut group = group_of::<C>(alloc, Limits::STANDARD)?;
    measure_in(rt, &mut group, &payload(alloc, LENGTH)?, count)
}
