//! Groups of nodes that run in this process and write to each other over TCP connections on localhost.
#![tactic(auto)]

mod acceptor;
mod arrivals;
mod closing;
mod common;
mod engine;
mod error;
mod group;
mod host_start;
mod inbox;
mod last_use;
mod link_table;
mod link_writer;
mod list;
mod machine;
mod member;
mod node;
mod node_address;
mod pace;
mod past;
mod ports;
mod running;
mod shortage;
mod shortages;
mod since;
mod speech;
mod starting;
mod stop_error;
mod stopping;
mod ticks;
mod watch;

pub use closing::RunReport;
pub use error::RunError;
pub use group::{Plan, TICK, quiet_ticks, run};
pub use inbox::Given;
pub use machine::Machine;
pub use member::{Member, may_start};
pub use shortage::Shortage;
pub use speech::{Speech, Stamp};
pub use starting::{address, check_port};
pub use watch::{Unwatched, Watch};
