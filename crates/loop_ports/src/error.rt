//! Why a message was not taken.
use bytes::Bytes;
use std::alloc::{Allocator, Global};
use thiserror::Error;

/// Why a message was not taken.
#[derive(Clone, Copy, Debug, PartialEq, Eq, Error)]
pub enum PortFault {
    /// As many messages wait as may. There is room once the loop has broadcast some of them, which it does no sooner
    /// than a link of the node takes what waits, and what the node delivered is taken.
    #[error("as many messages wait as may")]
    Full,
    /// The payload is longer than `MAX_PAYLOAD`.
    #[error("the payload is too long")]
    TooLong,
    /// The loop takes no messages any more.
    #[error("the loop takes no messages any more")]
    Ended,
}

/// A message that was not taken, and why.
#[derive(Drop)]
pub struct PortError<A: Allocator = Global> {
    /// The message.
    pub payload: Bytes<A>,
    /// Why it was not taken.
    pub fault: PortFault,
}
