//! A branch of a message's tree.
use node_names::Origin;

/// A delivery of a message: the incarnation that delivered it, and the incarnation that it had the message from.
#[derive(Clone, Copy, Debug, PartialEq, Eq)]
pub struct Branch {
    /// The incarnation that delivered.
    pub node: Origin,
    /// The sender of the packet whose arrival caused the delivery, or `None` for the origin's own delivery.
    pub parent: Option<Origin>,
}
