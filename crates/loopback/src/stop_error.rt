//! Why a node that was stopped is not as it should be.
use crate::shortage::Shortage;
use std::alloc::AllocError;
use thiserror::Error;

/// Why what a node leaves that was stopped is not as it should be.
#[derive(Clone, Copy, Debug, PartialEq, Eq, Error)]
pub(crate) enum StopError {
    /// Stopping the node had a shortage.
    #[error("{0}")]
    Short(Shortage),
    /// The messages that were broadcast through the node's port are not those of its history.
    #[error("the broadcasts are not as in the history")]
    Unlike,
    /// What came out of a link is not what the node sent.
    #[error("what came out of a link is not what was sent")]
    Torn,
    /// A thread of the node did not come back.
    #[error("a worker is missing")]
    WorkerMissing,
}

impl From<AllocError> for StopError {
    fn from(_error: AllocError) -> StopError {
        StopError::Short(Shortage::Memory)
    }
}
