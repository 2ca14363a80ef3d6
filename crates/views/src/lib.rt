//! The two bounded views that a node has of its group: the active view, to whose names it keeps links, and the passive
//! view, from which it replaces failed active names.
#![tactic(auto)]

mod name_set;
mod sample;
mod sets;
mod views;

pub use views::Views;
