//! Broadcasts in a group, each by the next node, and the arrivals of their packets.
use crate::merges::plan::{Place, Plan};
use crate::names::{LENGTH, payload};
use crate::simulated::{arrive, say, started};
use anyhow::Result;
use bytes::Bytes;
use node_names::Limits;
use protocol::Core;
use rand_core::{Rng, SeedableRng};
use rand_pcg::Lcg128Xsl64;
use std::alloc::Global;
use world::{World, WorldError};

/// More packets than arrive after a broadcast, and more broadcasts than any plan has.
const MANY: usize = 1_000_000_000;

/// The place in flight of the packet that arrives next.
fn place_in(flight: &[usize], rng: &mut Lcg128Xsl64, place: Place) -> usize {
    let count = flight.len();
    match place {
        Place::Oldest => 0,
        Place::Newest => count.saturating_sub(1),
        Place::Random => {
            let drawn = rng.next_u64() as usize;
            drawn.checked_rem(count).unwrap_or(0)
        }
    }
}

/// Lets packets arrive until at most `waiting` are in flight.
fn arrive_down_to<C: Core<Global>>(
    group: &mut World<C>,
    rng: &mut Lcg128Xsl64,
    place: Place,
    waiting: usize,
) -> Result<(), WorldError> {
    for _ in 0..MANY {
        if group.flight().len() <= waiting {
            break;
        }
        let place = place_in(group.flight(), rng, place);
        arrive(group, place)?;
    }
    Ok(())
}

/// Broadcasts by one node after another until the nodes have made enough steps.
fn broadcast_all<C: Core<Global>>(
    group: &mut World<C>,
    rng: &mut Lcg128Xsl64,
    payload: &Bytes,
    plan: &Plan,
) -> Result<()> {
    let enough = plan.nodes.saturating_mul(plan.steps.saturating_add(1));
    for number in 1..MANY {
        if group.log().len().saturating_add(group.flight().len()) >= enough {
            break;
        }
        say(group, number.checked_rem(plan.nodes).unwrap_or(0), payload)?;
        arrive_down_to(group, rng, plan.place, plan.waiting)?;
    }
    Ok(())
}

/// Makes the tree by a first broadcast, and then broadcasts until the nodes have made enough steps.
fn play<C: Core<Global>>(
    group: &mut World<C>,
    rng: &mut Lcg128Xsl64,
    payload: &Bytes,
    plan: &Plan,
) -> Result<()> {
    say(group, 0, payload)?;
    arrive_down_to(group, rng, Place::Oldest, 0)?;
    broadcast_all(group, rng, payload, plan)?;
    Ok(arrive_down_to(group, rng, plan.place, 0)?)
}

/// Plays a group according to the plan. The peers of a node are its neighbours in the ring, and the one that is
/// farthest.
pub(crate) fn played<C: Core<Global>>(alloc: Global, plan: &Plan) -> Result<World<C>> {
    let steps = [1, plan.nodes.saturating_sub(1), plan.nodes / 2];
    let mut group = started(alloc, Limits::STANDARD, plan.nodes, &steps)?;
    let mut rng = Lcg128Xsl64::seed_from_u64(1);
    play(&mut group, &mut rng, &payload(alloc, LENGTH)?, plan)?;
    Ok(group)
}
