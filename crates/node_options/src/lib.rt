//! What a node in a cluster is told by its words and its configuration file.
#![tactic(auto)]

mod addresses;
mod config;
mod domain;
mod error;
mod format;
mod given;
mod level;
mod limits;
mod lines;
mod names;
mod options;
mod peer;
mod reading;
mod recording;
mod rows;
mod settings;
mod subcommand;

pub use error::{ConfigLine, OptionError, Place, Wanted};
pub use format::Format;
pub use level::Level;
pub use options::NodeOptions;
pub use peer::Peer;
pub use reading::read;
pub use recording::{RecordFailure, RecordSync};
pub use subcommand::{command, config_path};
