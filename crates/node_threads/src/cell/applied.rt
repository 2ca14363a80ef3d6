//! What a step of a running node tells the caller.
use node_names::{Listed, MsgId, NodeName};
use std::alloc::{Allocator, Global};

/// A step that was made.
#[derive(Drop)]
pub struct Applied<A: Allocator = Global> {
    /// The id of the message, if the step was a broadcast.
    pub id: Option<MsgId>,
    /// The place of the step in the trace, from 0.
    pub place: usize,
    /// The names of the links whose rings had no room for all frames of the step. These links are closed, and the
    /// frames that did not fit are only in the trace.
    pub full: Listed<NodeName, A>,
    /// The receivers of the step's frames that had no open link, each once. From `apply_with_downs` and
    /// `apply_drawing`, only those of them that got no link.
    pub unlinked: Listed<NodeName, A>,
}
