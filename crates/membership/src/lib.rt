//! The membership protocol HyParView: which nodes a node keeps links to, and which it can turn to when links fail.
#![tactic(auto)]

mod draft;
mod event;
mod laws;
mod membership;
mod moves;
mod pick;
mod rows;

pub use event::{Event, EventOf};
pub use laws::{
    every_row_is_lawful, messages_are_about_membership, messages_fit_frames, one_request_stands,
    walks_are_bounded,
};
pub use membership::Membership;
pub use moves::Moves;
