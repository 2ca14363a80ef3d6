//! What it costs to find the tree of one message, and whether the group is at rest for it.
use crate::broadcasts::settling::queued;
use crate::broadcasts::{broadcast_all, group_of};
use crate::clock::micros_since;
use crate::names::{LENGTH, origin_of, payload};
use anyhow::Result;
use at_rest::{is_at_rest, tree};
use node_names::{Limits, MsgId};
use protocol::Core;
use std::alloc::Global;
use std::io::Print;
use std::time::{Clock, Instant};
use world::World;

/// How often each is found.
const TIMES: u64 = 10;

/// The id of a message of the first node.
fn id_of(seq: u64) -> Result<MsgId> {
    Ok(MsgId {
        origin: origin_of(0)?,
        seq,
    })
}

/// Finds the tree of the first message so often. Returns how many branches were found in all.
fn find<C: Core<Global>>(alloc: Global, group: &World<C>) -> Result<usize> {
    let id = id_of(1)?;
    let mut found = 0usize;
    for _ in 0..TIMES {
        found = found.saturating_add(tree(alloc, group, &id)?.len());
    }
    Ok(found)
}

/// Looks so often whether the group is at rest for a message that nobody broadcast, for which all is looked at. Returns
/// how often it was.
fn look<C: Core<Global>>(group: &World<C>) -> Result<u64> {
    let id = id_of(u64::MAX)?;
    let mut resting: u64 = 0;
    for _ in 0..TIMES {
        resting = resting.saturating_add(is_at_rest(group, &id) as u64);
    }
    Ok(resting)
}

/// Prints how long both take in this group.
fn measure_in<R: Print + Clock, C: Core<Global>>(
    rt: &R,
    alloc: Global,
    group: &World<C>,
) -> Result<()> {
    let start = Instant::now(rt)?;
    let branches = find(alloc, group)? as u64 / TIMES;
    let trees = micros_since(rt, start)? / TIMES;
    let start = Instant::now(rt)?;
    let resting = look(group)?;
    let rest = micros_since(rt, start)? / TIMES;
    println!(rt;
        "{} events, {} announcements wait",
        group.log().len(),
        queued(group)
    )?;
    println!(rt; "a tree of {branches} branches in {trees} microseconds")?;
    println!(rt; "{resting} times at rest, each in {rest} microseconds")?;
    Ok(())
}

/// Prints how many branches the tree of the first message has.
pub(crate) fn tell<R: Print, C: Core<Global>>(
    rt: &R,
    alloc: Global,
    group: &World<C>,
) -> Result<()> {
    let branches = tree(alloc, group, &id_of(1)?)?.len();
    println!(rt; "a tree of {branches} branches")?;
    Ok(())
}

/// Prints how long both take after `count` broadcasts.
pub(crate) fn measure<R: Print + Clock, C: Core<Global>>(
    rt: &R,
    alloc: Global,
    count: usize,
) -> Result<()> {
    let mut group = group_of::<C>(alloc, Limits::STANDARD)?;
    broadcast_all(&mut group, &payload(alloc, LENGTH)?, count)?;
    measure_in(rt, alloc, &group)
}
