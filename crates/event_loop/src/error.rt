//! Why an event loop gave up.
use std::alloc::{AllocError, AllocFailed};
use std::io;
use thiserror::Error;
use wire_node::WireError;

/// Why a call of an event loop gave up. What the call had not done yet is done by the next one: no bytes that came and
/// no readiness is lost.
#[derive(Clone, Copy, Debug, Error)]
pub enum LoopError {
    /// An allocation was refused.
    #[error("out of memory")]
    OutOfMemory,
    /// The node refused a step, for another reason than memory.
    #[error("{0}")]
    Refused(WireError),
    /// The system refused a call that concerns no single peer.
    #[error("{0}")]
    System(io::Error),
    /// The tick takes no time, so that the loop would run without a pause.
    #[error("the tick takes no time")]
    ZeroTick,
}

impl From<AllocError> for LoopError {
    fn from(_error: AllocError) -> LoopError {
        LoopError::OutOfMemory
    }
}

impl<T: Drop> From<AllocFailed<T>> for LoopError {
    fn from(_error: AllocFailed<T>) -> LoopError {
        LoopError::OutOfMemory
    }
}

impl From<WireError> for LoopError {
    fn from(error: WireError) -> LoopError {
        match error {
            WireError::OutOfMemory => LoopError::OutOfMemory,
            _ => LoopError::Refused(error),
        }
    }
}

impl From<io::Error> for LoopError {
    fn from(error: io::Error) -> LoopError {
        match error.kind() {
            io::ErrorKind::OutOfMemory => LoopError::OutOfMemory,
            _ => LoopError::System(error),
        }
    }
}
