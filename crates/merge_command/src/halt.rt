//! Why records are not followed any further.
use crate::error::RecordsError;
use crate::sink::SinkError;
use node_names::Origin;
use run_check::CheckError;
use std::alloc::AllocFailed;
use trace_merge::MergeFault;

/// Why records are not followed any further.
#[derive(Debug, Drop)]
pub(crate) enum Halt {
    /// They are not those of one run.
    Unmerged(MergeFault),
    /// They cannot be read, or what they deliver is not taken.
    Failed(RecordsError),
}

impl From<MergeFault> for Halt {
    fn from(fault: MergeFault) -> Halt {
        Halt::Unmerged(fault)
    }
}

impl From<RecordsError> for Halt {
    fn from(error: RecordsError) -> Halt {
        Halt::Failed(error)
    }
}

impl From<SinkError> for Halt {
    fn from(error: SinkError) -> Halt {
        Halt::Failed(RecordsError::from(error))
    }
}

impl<T: Drop> From<AllocFailed<T>> for Halt {
    fn from(_error: AllocFailed<T>) -> Halt {
        Halt::Failed(RecordsError::OutOfMemory)
    }
}

/// What it says of the records that the check refuses the start of this run, or its stimulus at this place.
pub(crate) fn halt_of(origin: Origin, place: usize, error: CheckError) -> Halt {
    match error {
        CheckError::OutOfMemory => Halt::Failed(RecordsError::OutOfMemory),
        CheckError::Unsent { .. } => Halt::Unmerged(MergeFault::Stuck { origin, place }),
        CheckError::Unlike { .. } => Halt::Unmerged(MergeFault::Unlike { origin, place }),
        _ => Halt::Unmerged(MergeFault::NotARun { origin, place }),
    }
}
