//! The ends of an event loop's nodes for other threads: messages to broadcast go in, and deliveries and news come out,
//! by rings of a fixed size, and no call waits.
#![tactic(auto)]

mod error;
mod lane;
mod outbox;
mod port;
mod port_node;
mod ports;
mod receiver;
mod sender;
mod wire;

pub use error::{PortError, PortFault};
pub use port::Port;
pub use port_node::PortNode;
pub use ports::Ports;
pub use receiver::PortReceiver;
pub use sender::PortSender;
