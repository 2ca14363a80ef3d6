//! A running node: one core under a lock, between the links that bring frames and those that take them away.
#![tactic(auto)]

mod cell;
mod cores;
mod error;
mod host;

pub use cell::NodeCell;
pub use cell::applied::Applied;
pub use cell::learning::Learnt;
pub use cell::outlet::Outlet;
pub use cell::receipt::{Call, Receipt};
pub use cell::report::LinkReport;
pub use cell::sealing::Sealed;
pub use cores::NodeCore;
pub use error::HostError;
pub use host::Host;
pub use host::closed::{CloseError, Closed};
pub use host::gate::{Gate, OpenGate};
pub use host::handing::{Handed, hand_out};
pub use host::port::Port;
pub use host::reading::read_link;
pub use host::ticking::{Ticker, tick};
pub use host::worker::Worker;
pub use host::writing::{Dialler, write_link};
