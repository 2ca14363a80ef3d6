//! Plumtree's part of a node: how it spreads, announces, asks for and repairs messages.
#![tactic(auto)]

mod announcements;
mod answer;
mod call;
mod effects;
mod fault;
mod gossip;
mod row;
mod store;
mod table;

pub use answer::{Answer, AnswerOf, Spread, SpreadOf};
pub use call::{Call, CallOf};
pub use effects::Effects;
pub use fault::GossipFault;
pub use gossip::Gossip;
pub use row::{Decided, Row, RowOf};
