//! Why a group cannot settle.
use std::alloc::AllocError;
use std::error::Error;
use std::fmt;

/// Why a group was not brought to rest.
#[derive(Clone, Copy, Debug, PartialEq, Eq)]
pub enum SettleError {
    /// The group is not calm. No event was played.
    NotCalm,
    /// A node has no number left for its next packet. The group stays as the events that were played left it.
    SeqSpent,
    /// An allocation failed. The group stays as the events that were played left it.
    OutOfMemory,
}

impl fmt::Display for SettleError {
    ghost use Rattle.std.specs.Prelude.{Some};
    ghost use Rattle.at_rest.specs.SettleErrorText.{settle_error_text};

    ghost output = { λ e. Some (settle_error_text e) };

    fn fmt<W: fmt::Write>(&self, f: &mut fmt::Formatter<W>) -> fmt::Result {
        match self {
            SettleError::NotCalm => write!(f, "the group is not calm"),
            SettleError::SeqSpent => write!(f, "the numbers of a node are used up"),
            SettleError::OutOfMemory => write!(f, "out of memory"),
        }
    }
}

impl Error for SettleError {}

impl From<AllocError> for SettleError {
    ghost use Rattle.std.specs.Prelude.{◌≡◌};
    ghost use Rattle.at_rest.specs.declared.error.SettleError.TheVariants.{OutOfMemory};

    ghost from_gives = { λ _ e. e ≡ OutOfMemory };

    fn from(_e: AllocError) -> SettleError {
        SettleError::OutOfMemory
    }
}
