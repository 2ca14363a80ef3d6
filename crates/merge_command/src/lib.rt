//! Reads the records of nodes from folders, and replays them or follows their runs (docs/cluster.md).
#![tactic(auto)]

mod cut;
mod error;
mod fault_place;
mod folder;
mod following;
mod halt;
mod order;
mod reading;
mod record_file;
mod record_files;
mod record_stream;
mod roster;
mod run;
mod share;
mod sink;
mod source;

pub use error::RecordsError;
pub use fault_place::{FaultPlace, place_of};
pub use following::follow_records;
pub use reading::read_group;
pub use sink::{DeliverySink, SinkError};
