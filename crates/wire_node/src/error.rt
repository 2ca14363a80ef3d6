//! Why a node of bytes refuses a call.
ghost use Rattle.std.specs.Prelude.{◌≡◌};
ghost use Rattle.wire_node.specs.Refusing.{fault_of, refusal_of};

use frames::FrameFault;
use protocol::CoreError;
use std::alloc::AllocError;
use thiserror::Error;

/// Why a call was refused.
#[derive(Clone, Copy, Debug, PartialEq, Eq, Error)]
pub enum WireError {
    /// The core refused the step.
    #[error("{0}")]
    Refused(CoreError),
    /// What came over the connection is no frame. Nothing more can be taken from it: close it.
    #[error("{0}")]
    Frame(FrameFault),
    /// There is no such connection, or no more can be numbered.
    #[error("there is no such connection")]
    NoConnection,
    /// The peers do not fit the active view, name a node twice or the node itself, or the contact is the node itself.
    #[error("the peers do not fit together")]
    BadPeers,
    /// An allocation was refused.
    #[error("out of memory")]
    OutOfMemory,
}

impl WireError {
    /// The refusal of a step.
    pub(crate) fn of_core(error: CoreError) -> WireError
        ensures { result ≡ refusal_of error }
    {
        match error {
            CoreError::OutOfMemory => WireError::OutOfMemory,
            CoreError::PayloadTooLong | CoreError::SeqSpent => WireError::Refused(error),
        }
    }

    /// The refusal of bytes that are no frame.
    pub(crate) fn of_frame(fault: FrameFault) -> WireError
        ensures { result ≡ fault_of fault }
    {
        match fault {
            FrameFault::OutOfMemory => WireError::OutOfMemory,
            _ => WireError::Frame(fault),
        }
    }
}

impl From<AllocError> for WireError {
    ghost use Rattle.std.specs.Prelude.{◌≡◌};
    ghost use Rattle.wire_node.specs.declared.error.WireError.TheVariants.{OutOfMemory};

    ghost from_gives = { λ _ e. e ≡ OutOfMemory };

    fn from(_error: AllocError) -> WireError {
        WireError::OutOfMemory
    }
}

impl From<CoreError> for WireError {
    ghost use Rattle.std.specs.Prelude.{◌≡◌};
    ghost use Rattle.wire_node.specs.Refusing.{refusal_of};

    ghost from_gives = { λ error e. e ≡ refusal_of error };

    fn from(error: CoreError) -> WireError {
        WireError::of_core(error)
    }
}
