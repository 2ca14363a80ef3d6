//! The flooding core: each new message goes to every peer but the one that it came from.
#![tactic(auto)]

mod flood_core;
mod flood_note;

pub use flood_core::FloodCore;
pub use flood_note::FloodNote;
