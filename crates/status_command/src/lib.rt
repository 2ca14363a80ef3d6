//! `plumtree status`: asks nodes of a cluster for their status over HTTP, says who does not see whom, and draws the
//! group (docs/cluster.md).
#![tactic(auto)]

mod answer;
mod asking;
mod deadline;
mod drawing;
mod error;
mod finding;
mod group;
mod options;
mod parts;
mod report;
mod response;
mod running;
mod subcommand;

pub use answer::Answer;
pub use asking::ask;
pub use drawing::Drawing;
pub use error::{AskError, WordError};
pub use finding::Finding;
pub use group::Group;
pub use options::{StatusOptions, read};
pub use running::run_status;
pub use subcommand::command;
