//! A node of bytes: what came over its connections goes in, and what is to go out waits by the name that it goes to.
//! It reads no clock, socket or random source, and starts no thread.
#![tactic(auto)]

mod asking;
mod calls;
mod connections;
mod copying;
mod downs;
mod drafts;
mod engine;
mod error;
mod handing;
mod heads;
mod idle;
mod laws;
mod limits;
mod node;
mod opening;
mod outgoing;
mod outputs;
mod receiving;
mod recorded;
mod step;
mod ticking;

pub use connections::{ConnectionId, ReceiveError};
pub use error::WireError;
pub use laws::noted_steps_lead_on;
pub use limits::{MAX_WAITING, WireLimits};
pub use node::WireNode;
pub use node_core::{News, Parting};
pub use receiving::DiceSource;
pub use recorded::Recorded;
pub use step::{Record, Unrecorded};
