//! The events that a node's membership handles.
use node_names::NodeName;

/// An event that borrows its names.
pub type Event<'a> = EventOf<&'a [NodeName]>;

/// An event of the membership protocol. `L` is the type of its lists of names.
///
/// The variants from `Join` to `ShuffleReply` are HyParView messages that came from a sender.
#[derive(Drop)]
pub enum EventOf<L> {
    /// The request that this node join the group through a contact.
    Joins {
        contact: NodeName,
    },
    /// A JOIN: the sender joins the group through this node.
    Join {
        sender: NodeName,
    },
    /// A FORWARDJOIN: the name of a node that joins, on a random walk with `ttl` steps left.
    ForwardJoin {
        sender: NodeName,
        new: NodeName,
        ttl: u8,
    },
    /// A NEIGHBOR: the request of the sender to be added to the active view, which cannot be refused if its priority is
    /// high.
    Neighbor {
        sender: NodeName,
        high: bool,
    },
    /// A NEIGHBORREPLY: the sender's answer to such a request.
    Reply {
        sender: NodeName,
        accepted: bool,
    },
    /// A DISCONNECT: the sender has removed this node from its active view.
    Disconnect {
        sender: NodeName,
    },
    /// A SHUFFLE: names that `origin` knows, on a random walk with `ttl` steps left.
    Shuffle {
        sender: NodeName,
        origin: NodeName,
        ttl: u8,
        names: L,
    },
    /// A SHUFFLEREPLY: the names that answer a shuffle of this node.
    ShuffleReply {
        sender: NodeName,
        names: L,
    },
    /// The failure of the link to a peer.
    Down {
        peer: NodeName,
    },
    /// The membership tick.
    Tick,
}
