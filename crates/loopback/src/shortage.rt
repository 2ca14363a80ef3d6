//! What a node may have too little of.
use std::alloc::{AllocError, AllocFailed};
use std::io;
use thiserror::Error;

/// The system's error number for too many open descriptors of a process.
const PROCESS_IS_FULL: i32 = 24;

/// The system's error number for too many open descriptors of all processes together.
const SYSTEM_IS_FULL: i32 = 23;

/// What a node has too little of.
#[derive(Clone, Copy, Debug, PartialEq, Eq, Error)]
pub enum Shortage {
    /// A thread can't be made.
    #[error("no thread can be made")]
    Threads,
    /// A connection can't be taken or made, or an address can't be listened at, since that takes a descriptor.
    #[error("too few descriptors")]
    Descriptors,
    /// An allocation is refused.
    #[error("out of memory")]
    Memory,
}

impl From<AllocError> for Shortage {
    fn from(_error: AllocError) -> Shortage {
        Shortage::Memory
    }
}

impl<T: Drop> From<AllocFailed<T>> for Shortage {
    fn from(_error: AllocFailed<T>) -> Shortage {
        Shortage::Memory
    }
}

impl Shortage {
    /// The shortage that made a call fail, if that is why it failed.
    pub fn of(error: &io::Error) -> Option<Shortage> {
        let number = error.raw_os_error().unwrap_or(0);
        if number == PROCESS_IS_FULL || number == SYSTEM_IS_FULL {
            return Some(Shortage::Descriptors);
        }
        if error.kind() == io::ErrorKind::OutOfMemory {
            return Some(Shortage::Memory);
        }
        None
    }
}
