//! Where nodes take connections.
use node_names::NodeName;
use std::net::SocketAddr;

/// Tells where nodes take connections.
pub trait Resolve {
    /// Returns where the node of this name takes connections, for each connection that is to be made. A name without an
    /// address counts as that of a node that cannot be reached.
    fn resolve(&mut self, name: &NodeName) -> Option<SocketAddr>;

    /// Whether the address is being looked up of a name of which `resolve` knows none; the lookup may begin with this
    /// call. Until it has ended, what waits for the name goes on to wait.
    fn is_awaited(&mut self, _name: &NodeName) -> bool {
        false
    }
}
