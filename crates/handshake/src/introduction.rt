//! What a node says of a node that it names on a connection.

use crate::address::Address;
use node_names::NodeName;

/// A node's name, and where it takes connections.
#[derive(Clone, Copy, Debug, PartialEq, Eq)]
pub struct Introduction {
    /// The name of the node.
    pub name: NodeName,
    /// Where it takes connections.
    pub at: Address,
}
