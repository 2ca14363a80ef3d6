//! From the records of running nodes to one run of a group.
//!
//! A record is replayed on a core like that of its node, and what the core sends and delivers makes the node's trace.
//! The traces of several nodes are merged as those of nodes that kept them.
#![tactic(auto)]

mod entries;
mod error;
mod group;
mod replayed;
mod steps;

pub use error::{GroupError, ReplayError};
pub use group::RecordedGroup;
pub use replayed::{Replayed, replay};
