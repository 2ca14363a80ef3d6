//! The rows of Plumtree's table, as values.
use crate::answer::Answer;
use bytes::Bytes;
use node_names::{Listed, MsgId, NodeName};
use std::alloc::{Allocator, Global};

/// The row of Plumtree's table that a call was found to be, with what its change needs. Generic in the types of its
/// payload and of its list of announcements.
#[derive(Drop)]
pub enum RowOf<P, E> {
    /// The node's next message is known, held and queued.
    Broadcast {
        /// The message's payload.
        payload: P,
    },
    /// The first copy of a message is known, held and queued, and its sender becomes eager.
    FirstCopy {
        /// The sender of the copy.
        sender: NodeName,
        /// The message's id.
        id: MsgId,
        /// The round of the packet that carried it.
        round: u32,
        /// The message's payload.
        payload: P,
        /// The nearer announcer, if there is one, which takes the sender's place in the tree.
        announcer: Option<NodeName>,
    },
    /// A member announced messages that the node lacks.
    Announced {
        /// The member.
        sender: NodeName,
        /// Their ids and rounds.
        news: E,
    },
    /// A timer that is armed fired: the first announcement of its id is used up, or the timer if there is none.
    Fired {
        /// The timer's id.
        id: MsgId,
        /// The peer that announced it first, which becomes eager.
        asked: Option<NodeName>,
    },
    /// A peer becomes eager.
    Eager {
        /// The peer.
        peer: NodeName,
    },
    /// A peer becomes lazy.
    Lazy {
        /// The peer.
        peer: NodeName,
    },
    /// Everything in the queue was announced.
    Flushed,
    /// A link came up.
    Up {
        /// The peer that it leads to.
        peer: NodeName,
    },
    /// A link went down.
    Down {
        /// The peer that it led to.
        peer: NodeName,
    },
    /// Nothing changes.
    Nothing,
}

/// A row that owns its payload and its announcements.
pub type Row<A = Global> = RowOf<Bytes<A>, Listed<(MsgId, u32), A>>;

/// A call that was decided, and not yet made.
#[derive(Drop)]
pub struct Decided<'a, A: Allocator = Global> {
    /// The row that the call is, for `Gossip::take`.
    pub row: Row<A>,
    /// What the call will send and deliver.
    pub answer: Answer<'a, A>,
}
