//! A node of a group that one event loop runs.
use bytes::Bytes;
use event_loop::LoopNode;
use frames::Frame;
use node_names::{Limits, MsgId, NodeName, Origin};
use protocol::{Delivery, Trace};
use std::alloc::{AllocError, Global};
use wire_node::WireError;

/// A node of a group that one event loop runs: a `WireNode`, which records its steps or not. Each call does what the
/// one of the same name of a `WireNode` does.
///
/// The group is generic in it, since each function that owns a node takes the prover a minute if its type is named.
pub trait GroupNode: LoopNode<Global> {
    /// Starts a node with these peers as its active view, and a contact, to whom it sends JOIN.
    fn start(
        alloc: Global,
        me: Origin,
        limits: Limits,
        peers: &[NodeName],
        contact: Option<NodeName>,
    ) -> Result<Self, WireError>;

    /// How many ticks were made.
    fn ticks(&self) -> u64;

    /// Broadcasts a message, and returns its id.
    fn broadcast(&mut self, payload: Bytes) -> Result<MsgId, WireError>;

    /// Returns the deliveries that were not taken yet, in order. This call takes them.
    fn take_deliveries(&mut self) -> Vec<Delivery>;

    /// Ends the node, and returns its history, if it recorded one: it started as this run, with these peers and this
    /// contact.
    fn into_history(
        self,
        me: Origin,
        peers: Vec<NodeName>,
        contact: Option<NodeName>,
    ) -> Result<Option<Trace<Frame>>, AllocError>;
}
