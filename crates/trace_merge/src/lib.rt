//! From the traces of running nodes to one run of a group, and back.
#![tactic(auto)]

mod arriving;
mod doubled;
mod fault;
mod frame_index;
mod group_run;
mod merging;
mod outputs;
mod playing;
mod projection;
mod readiness;
mod repeating;
mod sameness;
mod starting;
mod stepping;
mod stuck;
mod unfinished;
mod visits;

pub use fault::{MergeFault, ProjectFault};
pub use group_run::merge;
pub use projection::project;
