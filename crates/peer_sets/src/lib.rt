//! The peers that a node spreads messages to, each eager or lazy, and the queue of announcements for them.
#![tactic(auto)]

mod members;
mod peer_sets;
mod queue;

pub use members::{Member, PeerKind};
pub use peer_sets::PeerSets;
pub use queue::{Announcement, Batch};
