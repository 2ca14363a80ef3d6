//! Helpers that several test crates share.
#![tactic(auto)]

mod frame_texts;
mod ids;
mod lending;
mod letters;
mod refusals;

pub use frame_texts::push_frame;
pub use ids::{first_run, message};
pub use lending::lend;
pub use letters::push_letters;
pub use refusals::{refusal_of, retry, stop_refusing, sweep};
