//! The layers of peer sets, missing messages, known ids and the gossip of one node.
#![tactic(auto)]

mod distinct;
mod gossip_calls;
mod gossip_layer;
mod gossip_texts;
mod known_layer;
mod missing_layer;
mod peers_layer;

pub use gossip_layer::GossipLayer;
pub use known_layer::KnownLayer;
pub use missing_layer::MissingLayer;
pub use peers_layer::PeersLayer;
