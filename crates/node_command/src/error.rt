//! Why a node ended.
use event_loop::LoopError;
use std::alloc::{AllocError, AllocFailed};
use std::io;
use std::net::SocketAddr;
use thiserror::Error;
use wire_node::WireError;

/// Why a node ended, or did not start.
#[derive(Debug, Drop, Error)]
pub enum NodeError {
    /// Memory was refused at the start.
    #[error("out of memory")]
    OutOfMemory,
    /// No connection can be taken at the address.
    #[error("cannot listen at {at}: {error}")]
    Listen { at: SocketAddr, error: io::Error },
    /// The last incarnation cannot be read, or the next cannot be kept.
    #[error("cannot keep the incarnation in {folder}: {error}")]
    State { folder: String, error: io::Error },
    /// What is kept is no incarnation.
    #[error("{folder}/incarnation is no number")]
    BadState { folder: String },
    /// There is no incarnation above the last one.
    #[error("all incarnations are used up")]
    Spent,
    /// Its record cannot be begun in the folder.
    #[error("cannot write the record in {folder}: {error}")]
    RecordFolder { folder: String, error: io::Error },
    /// What it takes cannot be recorded.
    #[error("cannot write the record: {0}")]
    Record(io::Error),
    /// The system refused its clock or a thread.
    #[error("{0}")]
    System(io::Error),
    /// The event loop gave up.
    #[error("{0}")]
    Loop(LoopError),
    /// What is delivered cannot be printed any more.
    #[error("cannot write to standard output")]
    Output,
}

impl From<AllocError> for NodeError {
    fn from(_error: AllocError) -> NodeError {
        NodeError::OutOfMemory
    }
}

impl<T: Drop> From<AllocFailed<T>> for NodeError {
    fn from(_error: AllocFailed<T>) -> NodeError {
        NodeError::OutOfMemory
    }
}

impl From<io::Error> for NodeError {
    fn from(error: io::Error) -> NodeError {
        NodeError::System(error)
    }
}

impl From<LoopError> for NodeError {
    fn from(error: LoopError) -> NodeError {
        NodeError::Loop(error)
    }
}

impl From<WireError> for NodeError {
    fn from(error: WireError) -> NodeError {
        NodeError::Loop(LoopError::from(error))
    }
}
