//! The layer of traces that are merged into one run of the group.
#![tactic(auto)]

mod changes;
mod merge_layer;
mod texts;

pub use merge_layer::MergeLayer;
