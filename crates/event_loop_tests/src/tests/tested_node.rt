//! Nodes that tests start.
use event_loop::LoopNode;
use loop_ports::PortNode;
use node_names::{Incarnation, Limits, NodeName, Origin};
use std::alloc::Global;
use wire_node::{Unrecorded, WireError, WireLimits, WireNode};

/// A node that a test starts.
///
/// The tests are generic in it: a function that owns a node takes the prover a minute if its type is named.
pub(crate) trait TestedNode: LoopNode<Global> + PortNode<Global> {
    /// Starts this run of a node with these peers, for each of whom this number of bytes may wait.
    fn begin(
        alloc: Global,
        name: NodeName,
        run: u64,
        peers: &[NodeName],
        waiting: usize,
    ) -> Result<Self, WireError>;
}

impl TestedNode for WireNode {
    fn begin(
        alloc: Global,
        name: NodeName,
        run: u64,
        peers: &[NodeName],
        waiting: usize,
    ) -> Result<WireNode, WireError> {
        let me = Origin {
            name,
            incarnation: Incarnation(run),
        };
        let core = Limits::STANDARD;
        let limits = WireLimits { core, waiting };
        WireNode::start(alloc, me, limits, peers, None, Unrecorded)
    }
}
