//! The texts of a trace: each step of a simulated run, the end of the run, and a summary of what it cost.
#![tactic(auto)]

mod collected;
mod counts;
mod depths;
mod events;
mod messages;
mod names;
mod nodes;
mod packets;
mod parts;
mod steps;
mod summary;
mod touched;
mod under_way;

pub use messages::push_messages;
pub use names::{push_id, push_origin};
pub use nodes::push_nodes;
pub use steps::push_step;
pub use summary::push_summary;
pub use touched::Touched;
