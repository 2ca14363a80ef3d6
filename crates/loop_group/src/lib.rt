//! Groups of nodes that run on one thread, by one event loop, and write to each other over TCP connections on
//! localhost.
#![tactic(auto)]

mod fault;
mod group;
mod group_node;
mod group_program;
mod places;
mod recorded;
mod seat;
mod starting;
mod unrecorded;

pub use group::run;
pub use group_node::GroupNode;
pub use recorded::run_recorded;
pub use unrecorded::run_unrecorded;
