//! Broadcasts, each until none of its packets is in flight.
use crate::broadcasts::NODES;
use crate::simulated::{arrive, play, say};
use anyhow::Result;
use bytes::Bytes;
use protocol::Core;
use std::alloc::Global;
use world::{EventOf, World, WorldError};

/// More packets than a broadcast leaves in flight.
const MANY: usize = 10_000;

/// Lets the oldest packet arrive until none is in flight.
fn arrive_all<C: Core<Global>>(group: &mut World<C>) -> Result<(), WorldError> {
    for _ in 0..MANY {
        if group.flight().is_empty() {
            break;
        }
        arrive(group, 0)?;
    }
    Ok(())
}

/// Broadcasts a message at the node at this place, and returns how many packets that took.
pub(crate) fn broadcast<C: Core<Global>>(
    group: &mut World<C>,
    place: usize,
    payload: &Bytes,
) -> Result<usize> {
    let sent = group.sent().len();
    say(group, place % NODES, payload)?;
    arrive_all(group)?;
    Ok(group.sent().len().saturating_sub(sent))
}

/// Loses the oldest packet until none is in flight.
fn lose_all<C: Core<Global>>(group: &mut World<C>) -> Result<(), WorldError> {
    for _ in 0..MANY {
        if group.flight().is_empty() {
            break;
        }
        play(group, EventOf::Lose { place: 0 })?;
    }
    Ok(())
}

/// Broadcasts a message at the node at this place, and loses its packets, so that only announcements tell of it.
pub(crate) fn broadcast_lost<C: Core<Global>>(
    group: &mut World<C>,
    place: usize,
    payload: &Bytes,
) -> Result<()> {
    say(group, place % NODES, payload)?;
    Ok(lose_all(group)?)
}
