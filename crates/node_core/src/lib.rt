//! One node: HyParView's membership and Plumtree's gossip, joined into one core; what it tells of its neighbours, and
//! how it finds others once it has none.
#![tactic(auto)]

mod dispatch;
mod laws;
mod names;
mod news;
mod output;
mod parts;
mod plum_core;
mod prepared_step;
mod rejoining;
mod telling;
mod timers;

pub use laws::{core_is_lawful, packets_fit_frames};
pub use news::{Farewell, News, Parting, changes_of, farewell_of};
pub use plum_core::PlumCore;
pub use prepared_step::PreparedStep;
pub use rejoining::{FIRST, LONGEST, Rejoining};
pub use telling::{Change, Telling};
pub use timers::{armed_at, armed_ids};
