//! The names and ids of nodes and messages, the limits of a node, and the dice of one step.
#![tactic(auto)]

mod dice;
mod ids;
mod limits;
mod listed;
mod name;
mod names;

pub use dice::Dice;
pub use ids::{Incarnation, MsgId, Origin};
pub use limits::{Limits, LimitsFault};
pub use listed::Listed;
pub use name::{NameFault, NodeName};
pub use names::{NameSet, has_name, is_left_out, set_of};
