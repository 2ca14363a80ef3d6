//! Which messages a node knows, and of which it holds the payloads.
//!
//! Known ids are kept as one span of sequence numbers for each origin: numbers known without a gap take no memory of
//! their own. Payloads are held in order of delivery: all of them, or a limited number of the latest.
#![tactic(auto)]

mod known_ids;
mod message_store;
mod past;

pub use known_ids::KnownIds;
pub use message_store::MessageStore;
