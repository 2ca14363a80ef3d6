//! Checks, step by step, that what nodes took is one run of a group, and keeps none of the past.
//!
//! A check has the nodes of the group, as their cores are now, and of the frames that they sent those that have not
//! arrived. What it accepts is a run (docs/definitions.md): each core took what it was given, and each frame that
//! arrived had been sent so, to that node, and had not arrived before. What was lost stays in flight.
#![tactic(auto)]

mod error;
mod flying;
mod frame_id;
mod nodes;
mod run_check;

pub use error::CheckError;
pub use run_check::RunCheck;
