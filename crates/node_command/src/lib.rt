//! `plumtree node`: one node of a cluster, as a process (docs/cluster.md).
//!
//! An event loop runs the node on the thread that calls `run_node`. One thread reads standard input, a second prints
//! what is delivered, and a third looks hosts up; they share rings of a fixed size with the loop, and no lock.
#![tactic(auto)]

mod agent;
mod deliveries;
mod error;
mod folder;
mod hosts;
mod incarnation;
mod input;
mod line;
mod line_reader;
mod log;
mod lookup;
mod member;
mod memory;
mod page_server;
mod recorded_node;
mod recorder;
mod recording;
mod running;
mod status;
mod system;

pub use error::NodeError;
pub use running::run_node;
pub use system::System;
