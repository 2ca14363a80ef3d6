//! Nodes whose allocations may be refused.
use node_names::{Incarnation, Limits, NodeName, Origin};
use std::alloc::Allocator;
use wire_node::{Unrecorded, WireError, WireLimits, WireNode};

/// A node whose allocations may be refused.
///
/// The tests are generic in it: a function that owns a node takes the prover a minute if its type is named. It has no
/// trait above it, since the impl would get no proof where the allocator is a parameter.
pub(crate) trait RefusedNode<A: Allocator + Copy>: Drop + Sized {
    /// Starts the first run of a node with this peer.
    fn begin(alloc: A, name: NodeName, peer: NodeName) -> Result<Self, WireError>;
}

impl<A: Allocator + Copy> RefusedNode<A> for WireNode<A> {
    fn begin(alloc: A, name: NodeName, peer: NodeName) -> Result<WireNode<A>, WireError> {
        let me = Origin {
            name,
            incarnation: Incarnation(1),
        };
        let limits = WireLimits::new(Limits::STANDARD);
        WireNode::start(alloc, me, limits, &[peer], None, Unrecorded)
    }
}
