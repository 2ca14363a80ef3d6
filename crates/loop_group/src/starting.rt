//! The start of a group's nodes.
use crate::fault::{listening, short};
use crate::group_node::GroupNode;
use crate::places::Places;
use crate::seat::Seat;
use event_loop::EventLoop;
use loopback::{Given, Member, RunError, Shortage, Speech, address, check_port, may_start};
use node_names::Limits;
use std::alloc::{AllocError, Global};
use std::net::Net;
use std::time::Instant;
use wire_node::WireError;

/// Starts the node of a member.
fn start_node<N: GroupNode>(alloc: Global, limits: Limits, member: &Member) -> Result<N, RunError> {
    let node = member.me.name;
    let peers = member.peers.as_slice();
    if !may_start(&limits, &node, peers, &member.contact) {
        return Err(RunError::BadPeers { node });
    }
    match N::start(alloc, member.me, limits, peers, member.contact) {
        Ok(started) => Ok(started),
        Err(WireError::BadPeers) => Err(RunError::BadPeers { node }),
        Err(_) => Err(short(node, Shortage::Memory)),
    }
}

/// Starts the node of a member, and has the loop take connections for it.
fn add_node<R: Net, N: GroupNode>(
    rt: &R,
    alloc: Global,
    limits: Limits,
    group: &mut EventLoop<N, Places>,
    member: &Member,
) -> Result<(), RunError> {
    let node = start_node(alloc, limits, member)?;
    match group.add(rt, address(member.port), node) {
        Ok(_) => Ok(()),
        Err(error) => Err(listening(member.me.name, &error)),
    }
}

/// Starts the nodes of the members, in order, and has the loop take connections for them.
pub(crate) fn add_nodes<R: Net, N: GroupNode>(
    rt: &R,
    alloc: Global,
    limits: Limits,
    group: &mut EventLoop<N, Places>,
    members: &[Member],
) -> Result<(), RunError> {
    for member in members {
        check_port(members, member)?;
        add_node(rt, alloc, limits, group, member)?;
    }
    Ok(())
}

/// What the node of a member is to broadcast, and room for what it delivers.
fn seat_of(alloc: Global, start: Option<Instant>, member: Member) -> Result<Seat, AllocError> {
    let Member {
        me,
        peers,
        contact,
        texts,
        ..
    } = member;
    Ok(Seat {
        me,
        peers,
        contact,
        speech: Speech::new(alloc, start, texts)?,
        given: Given::new(alloc),
        round: 0,
    })
}

/// What the nodes of the members are to broadcast, in the order of the members.
pub(crate) fn seats_of(
    alloc: Global,
    start: Option<Instant>,
    members: Vec<Member>,
) -> Result<Vec<Seat>, AllocError> {
    let mut seats = Vec::new(alloc);
    for member in members {
        seats.push(seat_of(alloc, start, member)?)?;
    }
    Ok(seats)
}
