//! Plays scenarios in a simulated group, and prints, draws or traces the outcome. This is a library, so that tests can
//! play scenarios by readers and writers of their own.
#![tactic(auto)]

mod code;
mod error;
mod form;
mod graph;
mod outcome;
mod output;
mod play;
mod program;
mod ranks;
mod reading;
mod rolls;
mod strict;
mod tracing;
mod trees;

pub use code::{Code, SettleCode};
pub use error::SimulationError;
pub use form::Form;
pub use graph::write_graph;
pub use outcome::{draw, play_and_print, play_and_trace, shown, simulate, trace};
pub use output::{OutputError, deliveries, sort, write_lines};
pub use play::{Idle, MAX_ARRIVALS, PlayError};
pub use program::{conclude, play_input, play_read, report, report_unread, status_after};
pub use reading::read_events;
pub use strict::{report_unknown, report_value};
pub use tracing::{Stop, write_trace};
pub use trees::{broadcasts, write_trees};
