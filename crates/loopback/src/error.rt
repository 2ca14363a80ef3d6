//! Why a group did not run to its end.
use crate::shortage::Shortage;
use crate::stop_error::StopError;
use node_names::NodeName;
use node_threads::HostError;
use std::alloc::{AllocError, AllocFailed};
use thiserror::Error;

/// Why a group did not run, or why what its nodes leave is not as it should be.
#[derive(Clone, Copy, Debug, PartialEq, Eq, Error)]
pub enum RunError {
    /// The node's port can't be listened on: another program has it.
    #[error("node {node}: cannot listen: the port is in use")]
    CannotListen { node: NodeName },
    /// The node's port is also that of an earlier node.
    #[error("node {node}: cannot listen: node {other} has the port")]
    SamePort { node: NodeName, other: NodeName },
    /// The node can't start with its peers and its contact.
    #[error("node {node}: it can't start with these peers and this contact")]
    BadPeers { node: NodeName },
    /// The node had a shortage, which ended the run.
    #[error("node {node}: {of}")]
    Short { node: NodeName, of: Shortage },
    /// The node refused a broadcast.
    #[error("node {node}: {why}")]
    Refused { node: NodeName, why: HostError },
    /// The receipts that the node's port got for its broadcasts are not those of its history.
    #[error("node {node}: the receipts of its broadcasts are not as in its history")]
    Unlike { node: NodeName },
    /// A worker of the node did not come back.
    #[error("node {node}: a worker is missing")]
    WorkerMissing { node: NodeName },
    /// What came out of one of the node's links is not what the node sent.
    #[error("node {node}: what came out of a link is not what was sent")]
    Torn { node: NodeName },
    /// The node has forgotten a part of its history.
    #[error("node {node}: it has forgotten a part of its history")]
    Forgotten { node: NodeName },
    /// An allocation is refused that belongs to no single node.
    #[error("out of memory")]
    OutOfMemory,
}

impl RunError {
    /// The error of a node that had a shortage.
    pub(crate) fn short(node: NodeName, of: Shortage) -> RunError {
        RunError::Short { node, of }
    }

    /// The error of a node that was closed.
    pub(crate) fn closing(node: NodeName, error: StopError) -> RunError {
        match error {
            StopError::Short(of) => RunError::Short { node, of },
            StopError::Unlike => RunError::Unlike { node },
            StopError::Torn => RunError::Torn { node },
            StopError::WorkerMissing => RunError::WorkerMissing { node },
        }
    }
}

impl From<AllocError> for RunError {
    fn from(_error: AllocError) -> RunError {
        RunError::OutOfMemory
    }
}

impl<T: Drop> From<AllocFailed<T>> for RunError {
    fn from(_error: AllocFailed<T>) -> RunError {
        RunError::OutOfMemory
    }
}
