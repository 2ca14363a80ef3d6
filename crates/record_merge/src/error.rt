//! Why a record is not replayed, and why runs make no group.
use node_names::Origin;
use protocol::CoreError;
use std::alloc::AllocError;
use step_records::RecordError;
use thiserror::Error;

/// The reason why a record is not replayed.
#[derive(Clone, Copy, Debug, PartialEq, Eq, Error)]
pub enum ReplayError {
    /// No file has a whole head.
    #[error("the record has no head")]
    NoHead,
    /// The file, counted from 0, does not go on with the record.
    #[error("file {file}: {error}")]
    Record { file: usize, error: RecordError },
    /// The core refuses the stimulus of this entry, counted from 0: the record is none of such a core.
    #[error("entry {entry}: {error}")]
    Refused { entry: u64, error: CoreError },
    /// An allocation was refused.
    #[error("out of memory")]
    OutOfMemory,
}

impl From<AllocError> for ReplayError {
    fn from(_error: AllocError) -> ReplayError {
        ReplayError::OutOfMemory
    }
}

/// The reason why a run is not added to a group.
#[derive(Clone, Copy, Debug, PartialEq, Eq, Error)]
pub enum GroupError {
    /// The two runs have different limits.
    #[error("{first} and {other} have different limits")]
    OtherLimits { first: Origin, other: Origin },
    /// The two runs are of different clusters.
    #[error("{first} and {other} are of different clusters")]
    OtherCluster { first: Origin, other: Origin },
    /// An allocation was refused.
    #[error("out of memory")]
    OutOfMemory,
}

impl From<AllocError> for GroupError {
    ghost use Rattle.std.specs.Prelude.{◌≡◌};
    ghost use Rattle.record_merge.specs.declared.error.GroupError.TheVariants.{OutOfMemory};

    ghost from_gives = { λ _ e. e ≡ OutOfMemory };

    fn from(_error: AllocError) -> GroupError {
        GroupError::OutOfMemory
    }
}
