//! A packet on its way between two nodes.
use node_names::{NodeName, Origin};

/// A packet that one run of a node sent to a name. The node that runs under that name when the packet arrives gets it.
#[derive(Drop)]
pub struct Packet<N> {
    /// The run of the node that sent it.
    pub sender: Origin,
    /// The name that it goes to.
    pub to: NodeName,
    /// The content that was sent.
    pub note: N,
}
