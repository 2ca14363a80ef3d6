//! Nodes that run on one thread, without a lock: an event loop that takes and makes TCP connections for nodes of bytes.
//!
//! A program starts a `WireNode` or several, adds them to an `EventLoop` that was given what tells the addresses of
//! names, and runs it with a `Program`, which is called for each node that took something. A node that lost all its
//! neighbours joins again by the contacts that it was given.
#![tactic(auto)]

mod accepting;
mod answering;
mod buffer;
mod connection;
mod dialling;
mod error;
mod event_loop;
mod frame_place;
mod hosted_node;
mod link;
mod link_error;
mod listener;
mod loop_node;
mod pace;
mod program;
mod reading;
mod ready_table;
mod resolve;
mod running;
mod sending;
mod serving;
mod source;
mod taking;
mod ticking;
mod wire;

pub use dialling::LINKS;
pub use error::LoopError;
pub use event_loop::EventLoop;
pub use link_error::LinkError;
pub use listener::CONNECTIONS;
pub use loop_node::LoopNode;
pub use program::{Next, Program, Situation};
pub use resolve::Resolve;
