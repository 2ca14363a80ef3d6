//! Why a running node refuses a call.
use protocol::CoreError;
use std::alloc::AllocError;
use thiserror::Error;

/// Why a call of a node was refused. The node is then as it was.
#[derive(Clone, Copy, Debug, PartialEq, Eq, Error)]
pub enum HostError {
    /// The node was stopped.
    #[error("the node is closed")]
    Closed,
    /// The trace has as many steps as it may have.
    #[error("the trace is full")]
    TraceFull,
    /// The core refused the step.
    #[error("{0}")]
    Refused(CoreError),
    /// The gate did not let the worker pass within `ASKINGS` attempts.
    #[error("the gate is shut")]
    GateShut,
    /// An allocation is refused.
    #[error("out of memory")]
    OutOfMemory,
}

impl From<AllocError> for HostError {
    ghost use Rattle.std.specs.Prelude.{◌≡◌};
    ghost use Rattle.node_threads.specs.declared.error.HostError.TheVariants.{OutOfMemory};

    ghost from_gives = { λ _ e. e ≡ OutOfMemory };

    fn from(_error: AllocError) -> HostError {
        HostError::OutOfMemory
    }
}
