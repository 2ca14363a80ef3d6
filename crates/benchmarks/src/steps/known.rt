//! Known ids alone.
use crate::clock::nanos_since;
use crate::names::origin_of;
use crate::steps::messages::{ORIGINS, Taken};
use anyhow::Result;
use known_messages::KnownIds;
use node_names::{MsgId, Origin};
use std::alloc::{AllocError, Global};
use std::time::{Clock, Instant};

/// Makes an id known.
fn know(ids: &mut KnownIds, id: &MsgId) -> Result<(), AllocError> {
    ids.make_room(id)?;
    ids.insert(id);
    Ok(())
}

/// Makes each origin's message of this number known.
fn know_round(ids: &mut KnownIds, origins: &[Origin], seq: u64) -> Result<(), AllocError> {
    for origin in origins {
        let origin = *origin;
        know(ids, &MsgId { origin, seq })?;
    }
    Ok(())
}

/// Makes the messages of `rounds` numbers known, except for those whose number `gap` divides.
fn know_rounds(
    ids: &mut KnownIds,
    origins: &[Origin],
    rounds: u64,
    gap: u64,
) -> Result<(), AllocError> {
    for round in 0..rounds {
        let seq = round.saturating_add(1);
        if gap == 0 || seq % gap != 0 {
            know_round(ids, origins, seq)?;
        }
    }
    Ok(())
}

/// The origins.
fn origins(alloc: Global) -> Result<Vec<Origin>> {
    let mut origins = Vec::new(alloc);
    for number in 0..ORIGINS {
        origins.push(origin_of(number)?)?;
    }
    Ok(origins)
}

/// Makes `count` messages known, of 64 origins in turn, except for those whose number `gap` divides.
pub(crate) fn know_all<R: Clock>(rt: &R, alloc: Global, count: u64, gap: u64) -> Result<Taken> {
    let origins = origins(alloc)?;
    let mut ids = KnownIds::new(alloc);
    let rounds = count / ORIGINS as u64;
    let left_out = if gap == 0 { 0 } else { rounds / gap };
    let start = Instant::now(rt)?;
    know_rounds(&mut ids, origins.as_slice(), rounds, gap)?;
    let nanos = nanos_since(rt, start)?;
    Ok(Taken {
        came: rounds
            .saturating_sub(left_out)
            .saturating_mul(ORIGINS as u64),
        sent: 0,
        nanos,
    })
}
