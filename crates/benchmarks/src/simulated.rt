//! Simulated groups, and the events that are played in them. The core is a type parameter: the prover takes several
//! times as long over a function that names a group of Plumtree nodes.
use crate::names::name_of;
use crate::ring::peers_of;
use anyhow::Result;
use bytes::Bytes;
use node_names::{Dice, Incarnation, Limits, Listed};
use protocol::Core;
use std::alloc::Global;
use world::{Event, EventOf, World, WorldError};

/// Plays an event, and returns how many messages were delivered.
pub(crate) fn play<C: Core<Global>>(
    group: &mut World<C>,
    event: Event,
) -> Result<usize, WorldError> {
    Ok(group.apply(event)?.len())
}

/// Lets the packet at this place in flight arrive, and returns how many messages were delivered.
pub(crate) fn arrive<C: Core<Global>>(
    group: &mut World<C>,
    place: usize,
) -> Result<usize, WorldError> {
    let dice = Dice::ZEROS;
    play(group, EventOf::Arrive { place, dice })
}

/// Has the node at this place broadcast a message.
pub(crate) fn say<C: Core<Global>>(
    group: &mut World<C>,
    place: usize,
    payload: &Bytes,
) -> Result<()> {
    let name = name_of(place)?;
    let payload = payload.clone()?;
    play(group, EventOf::Broadcast { name, payload })?;
    Ok(())
}

/// The start of the node at this place of a ring.
fn start_of(alloc: Global, nodes: usize, place: usize, steps: &[usize]) -> Result<Event> {
    Ok(EventOf::Start {
        name: name_of(place)?,
        incarnation: Incarnation(1),
        peers: Listed::from_vec(peers_of(alloc, nodes, place, steps)?),
        contact: None,
    })
}

/// Starts the nodes of a ring.
fn start_all<C: Core<Global>>(
    alloc: Global,
    group: &mut World<C>,
    nodes: usize,
    steps: &[usize],
) -> Result<()> {
    for place in 0..nodes {
        play(group, start_of(alloc, nodes, place, steps)?)?;
    }
    Ok(())
}

/// Makes a group of started nodes in a ring, whose peers are so many steps further.
pub(crate) fn started<C: Core<Global>>(
    alloc: Global,
    limits: Limits,
    nodes: usize,
    steps: &[usize],
) -> Result<World<C>> {
    let mut group = World::new(alloc, limits);
    start_all(alloc, &mut group, nodes, steps)?;
    Ok(group)
}
