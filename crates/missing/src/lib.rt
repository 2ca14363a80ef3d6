//! The announced messages that a node lacks: who announced each, and the timers after which the node asks for them.
#![tactic(auto)]

mod missing;
mod timers;
mod wants;

pub use missing::Missing;
pub use wants::Want;
