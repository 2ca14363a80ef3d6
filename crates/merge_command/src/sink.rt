//! Where deliveries go.
use protocol::Delivery;
use std::alloc::{AllocError, AllocFailed};
use thiserror::Error;

/// Why a sink does not take deliveries.
#[derive(Clone, Copy, Debug, PartialEq, Eq, Error)]
pub enum SinkError {
    /// They cannot be written.
    #[error("the deliveries cannot be written")]
    Unwritten,
    /// An allocation was refused.
    #[error("out of memory")]
    OutOfMemory,
}

impl From<AllocError> for SinkError {
    fn from(_error: AllocError) -> SinkError {
        SinkError::OutOfMemory
    }
}

impl<T: Drop> From<AllocFailed<T>> for SinkError {
    fn from(_error: AllocFailed<T>) -> SinkError {
        SinkError::OutOfMemory
    }
}

/// Takes what the runs of a group deliver.
pub trait DeliverySink {
    /// Takes what one run delivered by one stimulus, in its order. After an error it is given nothing more.
    fn deliver(&mut self, given: &[Delivery]) -> Result<(), SinkError>;
}
