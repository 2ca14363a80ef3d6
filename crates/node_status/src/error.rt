//! Why a text is not a status.
use crate::member::Member;
use std::alloc::{AllocError, AllocFailed};
use thiserror::Error;

/// Why a text is not a status.
#[derive(Debug, Drop, Error)]
pub enum StatusError {
    /// The text is not JSON. Holds what is wrong, and where.
    #[error("not JSON: {0}")]
    NotJson(serde_json::Error),
    /// The text is JSON, and no object.
    #[error("the JSON is not an object")]
    NotObject,
    #[error("{0} is missing")]
    Missing(Member),
    #[error("{0} is of the wrong kind")]
    WrongKind(Member),
    /// The member is of the right kind, and its value is none that a node has.
    #[error("{0} has a value that is not allowed")]
    NotAllowed(Member),
    #[error("out of memory")]
    OutOfMemory,
}

impl From<AllocError> for StatusError {
    ghost use Rattle.std.specs.Prelude.{◌≡◌};
    ghost use Rattle.node_status.specs.declared.error.StatusError.TheVariants.{OutOfMemory};

    ghost from_gives = { λ _ error. error ≡ OutOfMemory };

    fn from(_error: AllocError) -> StatusError {
        StatusError::OutOfMemory
    }
}

impl<T: Drop> From<AllocFailed<T>> for StatusError {
    ghost use Rattle.std.specs.Prelude.{◌≡◌};
    ghost use Rattle.node_status.specs.declared.error.StatusError.TheVariants.{OutOfMemory};

    ghost from_gives = { λ _ error. error ≡ OutOfMemory };

    fn from(_error: AllocFailed<T>) -> StatusError {
        StatusError::OutOfMemory
    }
}
