//! The layer of a node of bytes.
#![tactic(auto)]

mod node_calls;
mod receiving;
mod texts;
mod wire_layer;

pub use wire_layer::WireLayer;
