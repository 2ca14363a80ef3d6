//! Why nothing is asked, and why a node gives no status.
use http1::ReadError;
use node_status::StatusError;
use std::alloc::{AllocError, AllocFailed};
use std::io;
use std::net::SocketAddr;
use thiserror::Error;

/// Why nothing is asked. Displays what the user is told.
#[derive(Debug, Drop, Error)]
pub enum WordError {
    /// A word is no address. Holds the word.
    #[error("\"{0}\" is no ADDRESS:PORT")]
    NotAddress(String),
    /// Two words are this address.
    #[error("{0} is given twice")]
    AskedTwice(SocketAddr),
    /// The time-out is not a number of seconds that is allowed. Holds the word.
    #[error("--timeout: \"{0}\" is no number from 1 to 3600")]
    NotSeconds(String),
    /// There was no memory left to read them.
    #[error("out of memory")]
    OutOfMemory,
}

impl From<AllocError> for WordError {
    fn from(_error: AllocError) -> WordError {
        WordError::OutOfMemory
    }
}

impl<T: Drop> From<AllocFailed<T>> for WordError {
    fn from(_error: AllocFailed<T>) -> WordError {
        WordError::OutOfMemory
    }
}

/// Why a node gives no status. Displays what the user is told.
#[derive(Debug, Drop, Error)]
pub enum AskError {
    /// No connection can be made.
    #[error("cannot connect: {0}")]
    Connect(io::Error),
    /// The connection failed.
    #[error("cannot read or write: {0}")]
    Transfer(io::Error),
    /// The system refused its clock.
    #[error("cannot read the clock: {0}")]
    Clock(io::Error),
    /// The answer was not whole in time.
    #[error("timed out")]
    TimedOut,
    /// What came is no response of HTTP, or is cut short.
    #[error("no HTTP response: {0}")]
    NotHttp(ReadError),
    /// The response has another status than 200.
    #[error("answers with HTTP status {0}")]
    Refused(u16),
    /// The response is not a status of a node.
    #[error("no status of a node: {0}")]
    NotStatus(StatusError),
    /// The response has more than 1 MiB.
    #[error("the response is longer than 1 MiB")]
    TooLong,
    /// There was no memory left to ask.
    #[error("out of memory")]
    OutOfMemory,
}

impl From<AllocError> for AskError {
    fn from(_error: AllocError) -> AskError {
        AskError::OutOfMemory
    }
}

impl<T: Drop> From<AllocFailed<T>> for AskError {
    fn from(_error: AllocFailed<T>) -> AskError {
        AskError::OutOfMemory
    }
}

impl From<ReadError> for AskError {
    fn from(error: ReadError) -> AskError {
        AskError::NotHttp(error)
    }
}

impl From<StatusError> for AskError {
    fn from(error: StatusError) -> AskError {
        match error {
            StatusError::OutOfMemory => AskError::OutOfMemory,
            error => AskError::NotStatus(error),
        }
    }
}

impl AskError {
    /// The error of a connection on which reading or writing failed.
    pub(crate) fn of_transfer(error: io::Error) -> AskError {
        match error.kind() {
            io::ErrorKind::WouldBlock | io::ErrorKind::TimedOut => AskError::TimedOut,
            _ => AskError::Transfer(error),
        }
    }

    /// The error of a connection that was not made.
    pub(crate) fn of_connect(error: io::Error) -> AskError {
        match error.kind() {
            io::ErrorKind::TimedOut => AskError::TimedOut,
            _ => AskError::Connect(error),
        }
    }
}
