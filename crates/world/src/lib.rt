//! A group of nodes as one pure state machine: events go in, packets and deliveries come out.
#![tactic(auto)]

mod apply;
mod commit;
mod entry;
mod error;
mod event;
mod flight;
mod given;
mod kept_dice;
mod lookup;
mod node_state;
mod packet;
mod plan;
mod planning;
mod world;

pub use entry::Entry;
pub use error::WorldError;
pub use event::{Event, EventOf, KeptEvent};
pub use flood::{FloodCore, FloodNote};
pub use given::{Given, RunFault};
pub use kept_dice::KeptDice;
pub use node_state::NodeState;
pub use packet::Packet;
pub use protocol::{
    Core, CoreError, Delivery, MAX_PAYLOAD, Out, Prepared, Segment, Step, Stimulus, StimulusOf,
    StimulusRef, Trace, Wire, are_peers, copy_deliveries,
};
pub use world::World;
