//! What a node says first on a connection.

use crate::address::Address;
use node_names::NodeName;

/// What the node that dials says first.
#[derive(Clone, Copy, Debug, PartialEq, Eq)]
pub struct Hello {
    /// The label of the cluster, which follows the rules of names.
    pub label: NodeName,
    /// The name of the node that is meant: the one that the dialled address was told of.
    pub to: NodeName,
    /// The name of the node that dials.
    pub name: NodeName,
    /// Where the node that dials listens.
    pub at: Address,
}
