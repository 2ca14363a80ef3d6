//! The events that can happen to a group of nodes.
use crate::kept_dice::KeptDice;
use bytes::Bytes;
use node_names::{Dice, Incarnation, Listed, MsgId, NodeName};
use std::alloc::Global;

/// An event of a group whose payloads and lists are allocated by `A`.
pub type Event<A = Global> = EventOf<Bytes<A>, Listed<NodeName, A>>;

/// An event as the log keeps it: dice that are all 0 take no memory.
pub type KeptEvent<A = Global> = EventOf<Bytes<A>, Listed<NodeName, A>, KeptDice<A>>;

/// An event, by its kind. `P` is a payload, `L` a list of names and `D` the dice.
#[derive(Drop)]
pub enum EventOf<P, L, D = Dice> {
    /// A node starts under a fresh incarnation, with `peers` as its active view. If a node runs under that name, it is
    /// replaced.
    Start {
        name: NodeName,
        incarnation: Incarnation,
        peers: L,
        contact: Option<NodeName>,
    },
    /// A running node broadcasts a message.
    Broadcast {
        name: NodeName,
        payload: P,
    },
    /// The packet at `place` in the flight, counted from 0, reaches the node that runs under its receiver's name.
    Arrive {
        place: usize,
        dice: D,
    },
    /// The packet at `place` in the flight is lost.
    Lose {
        place: usize,
    },
    /// The packet of this number, which is its index among all packets ever sent, is put into flight once more.
    Again {
        number: usize,
    },
    /// A node's timer for a message id fires.
    Fire {
        name: NodeName,
        id: MsgId,
    },
    /// A node sends all announcements that it has queued.
    Flush {
        name: NodeName,
    },
    /// A node's link to a peer failed.
    Down {
        name: NodeName,
        peer: NodeName,
        dice: D,
    },
    /// A node's membership tick.
    Shuffle {
        name: NodeName,
        dice: D,
    },
    /// A running node is told to join by `contact`, as at a start.
    Join {
        name: NodeName,
        contact: NodeName,
    },
    /// A node stops, and its state is gone.
    Stop {
        name: NodeName,
    },
}
