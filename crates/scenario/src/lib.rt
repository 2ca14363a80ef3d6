//! Scenarios, read from TOML: of a group that is simulated, what happens in it, and of a group that runs, its nodes.
#![tactic(auto)]

mod action;
mod error;
mod group;
mod group_node;
mod limits;
mod position;
mod read;
mod scenario;
mod section;
mod strict;
mod unfit;

pub use action::Action;
pub use error::{Key, Place, ScenarioError};
pub use group::{GroupScenario, read_group_scenario};
pub use group_node::GroupNode;
pub use position::event_line;
pub use read::{MAX_SCENARIO_BYTES, read_document, read_text};
pub use scenario::{MAX_EVENTS, Scenario, read_scenario};
pub use section::Section;
pub use strict::{BadValue, UnknownKey, bad_value, events_of, first_unknown};
pub use unfit::{Purpose, Unfit, unfit_for};
