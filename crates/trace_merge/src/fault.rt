//! The errors of projecting and merging traces.
use node_names::Origin;
use std::alloc::AllocError;
use thiserror::Error;

/// Why a run of a node has no trace in a group.
#[derive(Clone, Copy, Debug, PartialEq, Eq, Error)]
pub enum ProjectFault {
    /// The run was never started.
    #[error("no such run was started")]
    UnknownOrigin,
    /// An allocation failed.
    #[error("out of memory")]
    OutOfMemory,
}

impl From<AllocError> for ProjectFault {
    ghost use Rattle.std.specs.Prelude.{◌≡◌};
    ghost use Rattle.trace_merge.specs.declared.fault.ProjectFault.TheVariants.{OutOfMemory};

    ghost from_gives = { λ _ e. e ≡ OutOfMemory };

    fn from(_error: AllocError) -> ProjectFault {
        ProjectFault::OutOfMemory
    }
}

/// Why traces cannot be merged into one run of a group. A place is a step's index in its trace, counted from 0; it is
/// also 0 for the start.
#[derive(Clone, Copy, Debug, PartialEq, Eq, Error)]
pub enum MergeFault {
    /// Two of the traces are of this run of a node.
    #[error("M4 {origin}")]
    Doubled { origin: Origin },
    /// No trace can be played any further, and this is the first one that is not finished: it waits for a frame that no
    /// trace sends, or for an earlier run of its name to finish.
    #[error("M1 {origin} {place}")]
    Stuck { origin: Origin, place: usize },
    /// The step is the arrival of a frame whose sender sent it with other contents or to another name.
    #[error("M2 {origin} {place}")]
    Unlike { origin: Origin, place: usize },
    /// No node would make this start or this step.
    #[error("M3 {origin} {place}")]
    NotARun { origin: Origin, place: usize },
    /// An allocation failed.
    #[error("out of memory")]
    OutOfMemory,
}

impl From<AllocError> for MergeFault {
    ghost use Rattle.std.specs.Prelude.{◌≡◌};
    ghost use Rattle.trace_merge.specs.declared.fault.MergeFault.TheVariants.{OutOfMemory};

    ghost from_gives = { λ _ e. e ≡ OutOfMemory };

    fn from(_error: AllocError) -> MergeFault {
        MergeFault::OutOfMemory
    }
}
