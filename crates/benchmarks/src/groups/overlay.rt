//! A connected overlay in which each node has at most five peers.
use crate::names::{origin_of, payload};
use crate::ring::{five_steps, peers_of};
use anyhow::Result;
use bytes::Bytes;
use loopback::Member;
use std::alloc::{AllocError, Global};

/// By what the nodes of a group are run.
#[derive(Clone, Copy)]
pub(crate) enum Host {
    /// By threads, several for each node.
    Threads,
    /// By one event loop. The nodes keep no history.
    Loop,
}

/// A group, and what its first node broadcasts.
#[derive(Clone, Copy)]
pub(crate) struct Group {
    pub(crate) host: Host,
    pub(crate) nodes: usize,
    pub(crate) messages: usize,
    /// The bytes of each message.
    pub(crate) bytes: usize,
    /// The number of ticks after which the nodes are stopped.
    pub(crate) ticks: u32,
    /// How many messages each node keeps, or 0 for all.
    pub(crate) keep: u32,
    /// How many messages it broadcasts in a tick, or 0 for as many as it can.
    pub(crate) pace: usize,
}

/// Makes `count` messages of `bytes` bytes.
fn texts(alloc: Global, count: usize, bytes: usize) -> Result<Vec<Bytes>, AllocError> {
    let payload = payload(alloc, bytes)?;
    let mut texts = Vec::new(alloc);
    for _ in 0..count {
        texts.push(payload.clone()?)?;
    }
    Ok(texts)
}

/// The node at this place, with this port.
fn member(alloc: Global, group: &Group, place: usize, port: u16) -> Result<Member> {
    let count = if place == 0 { group.messages } else { 0 };
    Ok(Member {
        me: origin_of(place)?,
        port,
        peers: peers_of(alloc, group.nodes, place, &five_steps(group.nodes))?,
        contact: None,
        texts: texts(alloc, count, group.bytes)?,
    })
}

/// The nodes of a group, with ports from this one on.
pub(crate) fn members(alloc: Global, group: &Group, first_port: u16) -> Result<Vec<Member>> {
    let mut members = Vec::new(alloc);
    for place in 0..group.nodes {
        let port = u16::try_from(place).unwrap_or(u16::MAX);
        let port = first_port.saturating_add(port);
        members.push(member(alloc, group, place, port)?)?;
    }
    Ok(members)
}
