//! Inspects a group: which nodes can be reached from a node, whether the group is at rest for a message, and along
//! which tree the message spread. Also brings a group to rest.
#![tactic(auto)]

mod branch;
mod calm;
mod error;
mod forest;
mod left;
mod links;
mod next;
mod reaching;
mod rest;
mod settling;
mod trees;
mod unrest;

pub use branch::Branch;
pub use calm::is_calm;
pub use error::SettleError;
pub use forest::Forest;
pub use links::is_symmetric;
pub use reaching::reach;
pub use rest::{is_at_rest, is_carried, is_silent};
pub use settling::settle;
pub use trees::tree;
pub use unrest::Unrest;
