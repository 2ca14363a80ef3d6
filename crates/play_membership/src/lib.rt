//! The layers of names, of the two views and of the membership.
#![tactic(auto)]

mod membership_calls;
mod membership_layer;
mod membership_texts;
mod name_layer;
mod name_lists;
mod name_orders;
mod starting;
mod views_layer;

pub use membership_layer::MembershipLayer;
pub use name_layer::NameLayer;
pub use views_layer::ViewsLayer;
