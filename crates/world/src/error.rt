//! The reasons for which a group refuses an event.
use node_names::Incarnation;
use protocol::CoreError;
use std::alloc::AllocError;
use std::error::Error;
use std::fmt;

/// The reason why an event was refused. The group is then unchanged.
#[derive(Clone, Copy, Debug, PartialEq, Eq)]
pub enum WorldError {
    /// No node of that name was ever started.
    UnknownNode,
    /// The node of that name is stopped.
    NotRunning,
    /// The name was started before, under an incarnation that the new one does not exceed.
    StaleIncarnation { highest: Incarnation },
    /// The peers are too many, name a node twice or name the node itself, or the contact is the node itself.
    BadPeers,
    /// No packet is at that place in the flight, or none was sent under that number.
    NoPacket,
    /// The payload has more than 32,768 bytes.
    PayloadTooLong,
    /// The step needs a number for a message or for a packet, and this incarnation has used up those numbers.
    SeqSpent,
    /// An allocation was refused.
    OutOfMemory,
}

impl fmt::Display for WorldError {
    ghost use Rattle.std.specs.Prelude.{Some};
    ghost use Rattle.world.specs.ErrorText.{world_error_text};

    ghost output = { λ e. Some (world_error_text e) };

    fn fmt<W: fmt::Write>(&self, f: &mut fmt::Formatter<W>) -> fmt::Result {
        match self {
            WorldError::UnknownNode => write!(f, "no node of this name was started"),
            WorldError::NotRunning => write!(f, "the node is stopped"),
            WorldError::StaleIncarnation { highest } => {
                write!(f, "the node ran under incarnation {highest} already")
            }
            WorldError::BadPeers => write!(f, "the peers or the contact do not fit the node"),
            WorldError::NoPacket => write!(f, "there is no such packet"),
            WorldError::PayloadTooLong => write!(f, "the payload is too long"),
            WorldError::SeqSpent => write!(f, "the numbers of this incarnation are used up"),
            WorldError::OutOfMemory => write!(f, "out of memory"),
        }
    }
}

impl Error for WorldError {}

impl From<AllocError> for WorldError {
    ghost use Rattle.std.specs.Prelude.{◌≡◌};
    ghost use Rattle.world.specs.declared.error.WorldError.TheVariants.{OutOfMemory};

    ghost from_gives = { λ _ e. e ≡ OutOfMemory };

    fn from(_e: AllocError) -> WorldError {
        WorldError::OutOfMemory
    }
}

impl From<CoreError> for WorldError {
    ghost use Rattle.world.specs.Refusals.{IsRefusalOf};

    ghost from_gives = { IsRefusalOf };

    fn from(e: CoreError) -> WorldError {
        match e {
            CoreError::PayloadTooLong => WorldError::PayloadTooLong,
            CoreError::SeqSpent => WorldError::SeqSpent,
            CoreError::OutOfMemory => WorldError::OutOfMemory,
        }
    }
}
