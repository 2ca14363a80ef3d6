//! The reasons why a broadcast is refused.
use protocol::CoreError;
use std::alloc::AllocError;
use std::error::Error;
use std::fmt;

/// The reason why a broadcast was refused. A refused broadcast changes nothing.
#[derive(Clone, Copy, Debug, PartialEq, Eq)]
pub enum GossipFault {
    /// The payload has more than 32,768 bytes.
    PayloadTooLong,
    /// The numbers of this run's messages are used up.
    SeqSpent,
    /// An allocation was refused.
    OutOfMemory,
}

impl fmt::Display for GossipFault {
    ghost use Rattle.std.specs.Prelude.{Some};
    ghost use Rattle.gossip_core.specs.Fault.{fault_text};

    ghost output = { λ fault. Some (fault_text fault) };

    fn fmt<W: fmt::Write>(&self, f: &mut fmt::Formatter<W>) -> fmt::Result {
        match self {
            GossipFault::PayloadTooLong => write!(f, "the payload is too long"),
            GossipFault::SeqSpent => write!(f, "the numbers of this incarnation are used up"),
            GossipFault::OutOfMemory => write!(f, "out of memory"),
        }
    }
}

impl Error for GossipFault {}

impl From<AllocError> for GossipFault {
    ghost use Rattle.std.specs.Prelude.{◌≡◌};
    ghost use Rattle.gossip_core.specs.declared.fault.GossipFault.TheVariants.{OutOfMemory};

    ghost from_gives = { λ _ fault. fault ≡ OutOfMemory };

    fn from(_e: AllocError) -> GossipFault {
        GossipFault::OutOfMemory
    }
}

impl From<GossipFault> for CoreError {
    ghost use Rattle.std.specs.Prelude.{◌≡◌};
    ghost use Rattle.gossip_core.specs.Fault.{core_error};

    ghost from_gives = { λ fault error. error ≡ core_error fault };

    fn from(fault: GossipFault) -> CoreError {
        match fault {
            GossipFault::PayloadTooLong => CoreError::PayloadTooLong,
            GossipFault::SeqSpent => CoreError::SeqSpent,
            GossipFault::OutOfMemory => CoreError::OutOfMemory,
        }
    }
}
