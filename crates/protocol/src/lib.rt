//! The protocol of one node as a pure state machine: stimuli go in, packets and deliveries come out, under nine laws.
#![tactic(auto)]

mod delivery;
mod names;
mod out;
mod protocol;
mod segment;
mod step_list;
mod stimulus;
mod trace;
mod wire;

pub use delivery::{Delivery, copy_deliveries};
pub use names::are_peers;
pub use out::Out;
pub use protocol::{Core, CoreError, Prepared};
pub use segment::Segment;
pub use stimulus::{Stimulus, StimulusOf, StimulusRef};
pub use trace::{Step, Trace};
pub use wire::Wire;

/// The maximum length of a payload, in bytes.
pub const MAX_PAYLOAD: usize = 32_768;
