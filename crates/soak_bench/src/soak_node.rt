//! The nodes that run.
use event_loop::LoopNode;
use loop_ports::PortNode;
use node_names::{Incarnation, Limits, NodeName, Origin};
use std::alloc::Global;
use wire_node::{Unrecorded, WireError, WireLimits, WireNode};

/// How many messages a node keeps for those who ask for them.
const KEEP: u32 = 1_000;

/// A node that runs. All else is generic in it: a function that owns a node takes the prover a minute if its type is
/// named.
pub(crate) trait SoakNode: LoopNode<Global> + PortNode<Global> {
    /// Starts the first run of a node with these peers.
    fn begin(alloc: Global, name: NodeName, peers: &[NodeName]) -> Result<Self, WireError>;

    /// How many ticks were made.
    fn ticks(&self) -> u64;
}

impl SoakNode for WireNode {
    fn begin(alloc: Global, name: NodeName, peers: &[NodeName]) -> Result<WireNode, WireError> {
        let me = Origin {
            name,
            incarnation: Incarnation(1),
        };
        let limits = WireLimits::new(Limits::STANDARD.keeping(KEEP));
        WireNode::start(alloc, me, limits, peers, None, Unrecorded)
    }

    fn ticks(&self) -> u64 {
        self.ticks()
    }
}
