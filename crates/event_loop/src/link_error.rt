//! Why a name cannot be reached.
use std::io;
use thiserror::Error;

/// Why a name cannot be reached.
#[derive(Clone, Copy, Debug, Error)]
pub enum LinkError {
    /// Neither the node nor the loop's resolver knows where it takes connections.
    #[error("its address is unknown")]
    NoAddress,
    /// The node has `LINKS` links, and each is of use.
    #[error("there are too many links")]
    TooMany,
    /// The system refused to dial it, or the link broke.
    #[error("{0}")]
    System(io::Error),
    /// It closed the link.
    #[error("it closed the connection")]
    Closed,
    /// It took nothing of what waits for it for longer than may be (`EventLoop::set_patience`).
    #[error("it takes nothing")]
    Stalled,
}
