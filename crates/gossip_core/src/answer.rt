//! What one call of a node's gossip will yield.
use bytes::Bytes;
use frames::Body;
use node_names::{Listed, MsgId, NodeName};
use peer_sets::Member;
use std::alloc::Global;

/// A message that goes on, to all eager members but one and to the application. Generic in the types of the members and
/// of the payload.
#[derive(Drop)]
pub struct SpreadOf<M, P> {
    /// The members, of which the eager ones get the message.
    pub members: M,
    /// The member that does not get it, since it sent it.
    pub left_out: Option<NodeName>,
    /// The message's id.
    pub id: MsgId,
    /// The round of the packets that carry it.
    pub round: u32,
    /// The message's payload.
    pub payload: P,
}

/// A message that goes on, with its payload and the members borrowed.
pub type Spread<'a, A = Global> = SpreadOf<&'a [Member], &'a Bytes<A>>;

/// What one call will send and deliver. Generic in the types of a packet's body, of a list of packets and of a message
/// that goes on.
#[derive(Drop)]
pub enum AnswerOf<B, L, S> {
    /// Nothing is sent or delivered.
    Nothing,
    /// One packet is sent.
    Packet {
        /// Its receiver.
        to: NodeName,
        /// What it says.
        body: B,
    },
    /// These packets are sent, in order.
    Packets {
        /// The packets, each with its receiver's name.
        sends: L,
    },
    /// A message goes on, and these packets are sent behind it.
    Message {
        /// The message, and to whom it goes.
        spread: S,
        /// The packets, each with its receiver's name.
        others: L,
    },
}

/// What one call will send and deliver. A message that goes on is borrowed, so only packets behind it and announcements
/// take memory.
pub type Answer<'a, A = Global> = AnswerOf<Body<A>, Listed<(NodeName, Body<A>), A>, Spread<'a, A>>;
