//! The layer of the cell of a node that threads share.
#![tactic(auto)]

mod cell_layer;
mod texts;

pub use cell_layer::CellLayer;
