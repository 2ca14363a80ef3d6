//! What a node leaves that was stopped.
use frames::Frame;
use protocol::Trace;

/// What a node leaves that was stopped.
#[derive(Drop)]
pub(crate) struct Past {
    /// How many steps the node has forgotten. `None`: it kept its history.
    pub(crate) since: Option<usize>,
    /// All that it did, but for the steps that it has forgotten, which were its first.
    pub(crate) trace: Trace<Frame>,
}
