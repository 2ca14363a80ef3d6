//! A node as the group knows it.
use node_names::{Incarnation, NodeName};

/// A node that was started at least once, and now runs or is stopped.
#[derive(Drop)]
pub struct NodeState<C> {
    /// Its name.
    pub name: NodeName,
    /// The incarnation of its last start, which is the greatest of all.
    pub highest: Incarnation,
    /// Its core, while it runs.
    pub core: Option<C>,
}
