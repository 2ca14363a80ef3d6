//! What a node's peers send.
use crate::names::{LENGTH, origin_named, payload};
use anyhow::Result;
use bytes::Bytes;
use frames::{Body, Frame};
use node_names::{Dice, MsgId, Origin};
use protocol::{Stimulus, StimulusOf};
use std::alloc::Global;

/// The names of the node's peers.
pub(crate) const PEERS: [&str; 4] = ["p", "q", "r", "s"];

/// How many nodes broadcast the messages that a node has seen.
pub(crate) const ORIGINS: usize = 64;

/// How many messages came in, how many frames went out, and how long that took.
#[derive(Clone, Copy)]
pub(crate) struct Taken {
    pub(crate) came: u64,
    pub(crate) sent: u64,
    pub(crate) nanos: u64,
}

/// The arrival of a frame from its sender.
pub(crate) fn arrival(note: Frame) -> Stimulus<Frame> {
    StimulusOf::Arrive {
        sender: note.sender(),
        note,
        dice: Dice::ZEROS,
    }
}

/// The arrival of a peer's first frame, which asks to be taken into the active view.
fn request(peer: Origin) -> Result<Stimulus<Frame>> {
    Ok(arrival(Frame::new(peer, 1, Body::Neighbor { high: true })?))
}

/// The arrival of the message of this number from its origin, or from a node that passes it on.
pub(crate) fn message(
    sender: Origin,
    origin: Origin,
    seq: u64,
    payload: &Bytes,
) -> Result<Stimulus<Frame>> {
    let body = Body::Gossip {
        id: MsgId { origin, seq },
        round: 0,
        payload: payload.clone()?,
    };
    Ok(arrival(Frame::new(sender, seq.saturating_add(1), body)?))
}

/// Appends the requests of all peers.
pub(crate) fn push_requests(stimuli: &mut Vec<Stimulus<Frame>>) -> Result<()> {
    for peer in PEERS {
        stimuli.push(request(origin_named(peer)?)?)?;
    }
    Ok(())
}

/// Appends `count` messages of the first peer.
pub(crate) fn push_messages(
    stimuli: &mut Vec<Stimulus<Frame>>,
    payload: &Bytes,
    count: u64,
) -> Result<()> {
    let peer = origin_named("p")?;
    for k in 0..count {
        stimuli.push(message(peer, peer, k.saturating_add(1), payload)?)?;
    }
    Ok(())
}

/// The requests of all peers, and then `count` messages of the first.
pub(crate) fn arrivals(alloc: Global, count: u64) -> Result<Vec<Stimulus<Frame>>> {
    let mut stimuli = Vec::new(alloc);
    push_requests(&mut stimuli)?;
    push_messages(&mut stimuli, &payload(alloc, LENGTH)?, count)?;
    Ok(stimuli)
}
