//! A node of bytes that finds the others of its cluster by itself: over each link it says first who it is and where it
//! takes connections, and of whom its frames speak it tells the address, as far as it knows that. Now and then it says
//! again who it is, so that a neighbour that hears nothing knows that it is gone.
//!
//! It reads no socket and no clock. An event loop runs it, and the core never sees what it adds (docs/cluster.md).
#![tactic(auto)]

mod address_book;
mod cluster_node;
mod holding;
mod identity;
mod introducing;
mod loop_node;
mod namesake;
mod notice;
mod port_node;
mod pulse;
mod receiving;
mod step_log;
mod stepped_node;

pub use address_book::{AddressBook, MAX_ADDRESSES};
pub use cluster_node::ClusterNode;
pub use identity::Identity;
pub use notice::{Notice, Notices};
pub use step_log::Counts;
pub use stepped_node::SteppedNode;
