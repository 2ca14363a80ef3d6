//! Why records are not read.
use crate::sink::SinkError;
use record_merge::{GroupError, ReplayError};
use std::alloc::{AllocError, AllocFailed};
use std::io;
use thiserror::Error;

/// Why the records of folders are not read.
#[derive(Debug, Drop, Error)]
pub enum RecordsError {
    /// The folder, or a file in it, cannot be read.
    #[error("{path}: {error}")]
    Unread { path: String, error: io::Error },
    /// No file of the folder is one of a record, by its name.
    #[error("{folder}: it has no file NAME.INCARNATION.NUMBER.record")]
    NoRecord { folder: String },
    /// The record whose files begin with this path is none, or none of a node.
    #[error("{path}: {error}")]
    Replay { path: String, error: ReplayError },
    /// The records are not of one cluster.
    #[error("{0}")]
    Group(GroupError),
    /// What the records deliver cannot be written.
    #[error("the deliveries cannot be written")]
    Unwritten,
    /// There was no memory left for them.
    #[error("out of memory")]
    OutOfMemory,
}

impl From<AllocError> for RecordsError {
    fn from(_error: AllocError) -> RecordsError {
        RecordsError::OutOfMemory
    }
}

impl<T: Drop> From<AllocFailed<T>> for RecordsError {
    fn from(_error: AllocFailed<T>) -> RecordsError {
        RecordsError::OutOfMemory
    }
}

impl From<GroupError> for RecordsError {
    fn from(error: GroupError) -> RecordsError {
        match error {
            GroupError::OutOfMemory => RecordsError::OutOfMemory,
            error => RecordsError::Group(error),
        }
    }
}

impl From<SinkError> for RecordsError {
    fn from(error: SinkError) -> RecordsError {
        match error {
            SinkError::Unwritten => RecordsError::Unwritten,
            SinkError::OutOfMemory => RecordsError::OutOfMemory,
        }
    }
}
