//! The layers of groups of nodes.
#![tactic(auto)]

mod alone;
mod cores;
pub mod events;
mod group_layer;
mod readers;
mod rest;
pub mod texts;

pub use group_layer::{FloodLayer, GroupLayer, PlumLayer};
