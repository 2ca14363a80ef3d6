//! The frames that a node's peers send.
use crate::names::origin_named;
use crate::plumtree::ME;
use anyhow::Result;
use bytes::Bytes;
use frames::{Body, Frame, encode};
use node_names::{MsgId, Origin};
use std::alloc::{AllocError, Global};

/// The names of the node's peers.
pub(crate) const PEERS: [&str; 4] = ["p", "q", "r", "s"];

/// How many frames went in and out, and how long that took.
#[derive(Clone, Copy)]
pub(crate) struct Sent {
    pub(crate) frames_in: u64,
    pub(crate) frames_out: u64,
    pub(crate) micros: u64,
}

/// The first frame of a peer: it asks to be taken into the active view.
pub(crate) fn request(peer: Origin) -> Result<Frame> {
    Ok(Frame::new(peer, 1, Body::Neighbor { high: true })?)
}

/// The message of this number as its origin sends it.
pub(crate) fn message(origin: Origin, seq: u64, payload: &Bytes) -> Result<Frame> {
    let body = Body::Gossip {
        id: MsgId { origin, seq },
        round: 0,
        payload: payload.clone()?,
    };
    Ok(Frame::new(origin, seq.saturating_add(1), body)?)
}

/// How many bytes a frame takes.
fn size(alloc: Global, frame: &Frame) -> Result<u64, AllocError> {
    Ok(encode(alloc, frame)?.len() as u64)
}

/// How many bytes the node writes once it has taken the requests, broadcast `held` messages and passed on `passed`
/// others.
pub(crate) fn bytes_out(alloc: Global, payload: &Bytes, held: u64, passed: u64) -> Result<u64> {
    let me = origin_named(ME)?;
    let reply = Frame::new(me, 1, Body::NeighborReply { accepted: true })?;
    let replies = size(alloc, &reply)?.saturating_mul(4);
    let gossip = size(alloc, &message(me, 1, payload)?)?;
    let gossips = held
        .saturating_mul(4)
        .saturating_add(passed.saturating_mul(3));
    Ok(replies.saturating_add(gossip.saturating_mul(gossips)))
}
