//! Why a check refuses what a node took.
use node_names::{Incarnation, Origin};
use protocol::CoreError;
use std::alloc::{AllocError, AllocFailed};
use thiserror::Error;

/// The reason why a check refuses a start or a stimulus. What it accepted before stays accepted.
#[derive(Clone, Copy, Debug, PartialEq, Eq, Error)]
pub enum CheckError {
    /// A run of this name was started under an incarnation that is as great, which is here.
    #[error("its name was started under the incarnation {}", .0.0)]
    Stale(Incarnation),
    /// The peers and the contact are none that a node may start with.
    #[error("a node does not start with these peers")]
    BadPeers,
    /// This run is not the last of its name that was started.
    #[error("it does not run")]
    NotRunning,
    /// The frame was not sent yet, or has arrived.
    #[error("frame {number} of {sender} was not sent, or arrived before")]
    Unsent { sender: Origin, number: u64 },
    /// The frame was sent otherwise, or to another node.
    #[error("frame {number} of {sender} was sent otherwise, or to another node")]
    Unlike { sender: Origin, number: u64 },
    /// The core refuses the stimulus.
    #[error("{0}")]
    Refused(CoreError),
    /// An allocation was refused.
    #[error("out of memory")]
    OutOfMemory,
}

impl From<AllocError> for CheckError {
    ghost use Rattle.std.specs.Prelude.{◌≡◌};
    ghost use Rattle.run_check.specs.declared.error.CheckError.TheVariants.{OutOfMemory};

    ghost from_gives = { λ _ e. e ≡ OutOfMemory };

    fn from(_error: AllocError) -> CheckError {
        CheckError::OutOfMemory
    }
}

impl<T: Drop> From<AllocFailed<T>> for CheckError {
    ghost use Rattle.std.specs.Prelude.{◌≡◌};
    ghost use Rattle.run_check.specs.declared.error.CheckError.TheVariants.{OutOfMemory};

    ghost from_gives = { λ _ e. e ≡ OutOfMemory };

    fn from(_error: AllocFailed<T>) -> CheckError {
        CheckError::OutOfMemory
    }
}
