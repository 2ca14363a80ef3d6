//! The calls of a node's gossip, as values.
use bytes::Bytes;
use node_names::{MsgId, NodeName};
use std::alloc::Global;

/// A call of a node's gossip, generic in the types of its payload and of its list of announcements.
#[derive(Drop)]
pub enum CallOf<P, E> {
    /// The broadcast of the application's next message.
    Broadcast {
        /// The message's payload.
        payload: P,
    },
    /// The arrival of a packet that carries a message.
    OnGossip {
        /// The sender of the packet.
        sender: NodeName,
        /// The id of the message that it carries.
        id: MsgId,
        /// The round of the packet.
        round: u32,
        /// The message's payload.
        payload: P,
    },
    /// The arrival of a packet that announces messages.
    OnIHave {
        /// The sender of the packet.
        sender: NodeName,
        /// The announced ids and their rounds.
        entries: E,
    },
    /// The firing of the timer of an id.
    Fire {
        /// The timer's id.
        id: MsgId,
    },
    /// The arrival of a packet that asks for a message.
    OnGraft {
        /// The sender of the packet.
        sender: NodeName,
        /// The id of the message that it asks for.
        id: MsgId,
        /// The round of the packet.
        round: u32,
    },
    /// The arrival of a packet that asks for messages in place of announcements, and for no particular message.
    OnGraftPeer {
        /// The sender of the packet.
        sender: NodeName,
    },
    /// The arrival of a packet that asks for announcements in place of messages.
    OnPrune {
        /// The sender of the packet.
        sender: NodeName,
    },
    /// The request to announce everything in the queue.
    Flush,
    /// The news that a link came up.
    Up {
        /// The peer that it leads to.
        peer: NodeName,
    },
    /// The news that a link went down.
    Down {
        /// The peer that it led to.
        peer: NodeName,
    },
}

/// A call that borrows its payload and its announcements.
pub type Call<'a, A = Global> = CallOf<&'a Bytes<A>, &'a [(MsgId, u32)]>;
