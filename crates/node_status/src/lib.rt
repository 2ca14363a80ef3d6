//! The status pages of a node of a cluster: what a node says of itself, as JSON, as metrics, as a drawing and as a
//! page, and the HTTP side of serving these.
//!
//! It reads no socket and no clock. An event loop moves the bytes of the connections, and makes a `Status` when one was
//! asked for.
#![tactic(auto)]

mod answering;
mod dot;
mod error;
mod json;
mod member;
mod members;
mod metrics;
mod own_host;
mod page;
mod pages;
mod reading;
mod status;
mod verdict;
mod visitor;

pub use dot::write_dot;
pub use error::StatusError;
pub use json::write_json;
pub use member::Member;
pub use metrics::write_metrics;
pub use page::PAGE;
pub use pages::Pages;
pub use reading::read_json;
pub use status::{Counts, Kept, Neighbor, Status};
