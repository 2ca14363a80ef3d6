//! What the faults of an event loop and its nodes mean for a group.
use event_loop::LoopError;
use loopback::{RunError, Shortage};
use node_names::NodeName;
use node_threads::HostError;
use std::io;
use wire_node::WireError;

/// Why a broadcast was refused, in the words of a node in threads.
pub(crate) fn refusal(error: WireError) -> HostError {
    match error {
        WireError::Refused(why) => HostError::Refused(why),
        WireError::OutOfMemory => HostError::OutOfMemory,
        WireError::Frame(_) | WireError::NoConnection | WireError::BadPeers => HostError::Closed,
    }
}

/// Why the loop cannot take connections for this node.
pub(crate) fn listening(node: NodeName, error: &LoopError) -> RunError {
    match error {
        LoopError::OutOfMemory => short(node, Shortage::Memory),
        LoopError::System(why) => unlistened(node, why),
        LoopError::Refused(_) | LoopError::ZeroTick => RunError::CannotListen { node },
    }
}

/// Why the system refuses to listen for this node.
fn unlistened(node: NodeName, why: &io::Error) -> RunError {
    match Shortage::of(why) {
        Some(of) => short(node, of),
        None => RunError::CannotListen { node },
    }
}

/// Why the loop of a group gave up. The error does not say which node it was for, so it names the first.
pub(crate) fn running(first: NodeName, error: &LoopError) -> RunError {
    match error {
        LoopError::OutOfMemory => RunError::OutOfMemory,
        LoopError::Refused(why) => RunError::Refused {
            node: first,
            why: refusal(*why),
        },
        LoopError::System(_) | LoopError::ZeroTick => short(first, Shortage::Descriptors),
    }
}

/// The error of a node that had a shortage.
pub(crate) fn short(node: NodeName, of: Shortage) -> RunError {
    RunError::Short { node, of }
}
