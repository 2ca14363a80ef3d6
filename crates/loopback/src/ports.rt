//! Broadcasting through the port of a node.
ghost use Rattle.std.specs.Prelude.{IfErr};
ghost use Rattle.node_threads.specs.Refusal.{RefusesPayload};

use bytes::Bytes;
use node_names::MsgId;
use node_threads::{HostError, NodeCore, Port};
use std::alloc::Global;
use std::sync::Wait;

/// Broadcasts a payload through the first of a node's ports, and returns the id of its message. A node without ports
/// refuses it as one that is closed.
pub(crate) fn broadcast<R: Wait, C: NodeCore<Global> + Drop>(
    rt: &R,
    ports: &mut [Port<C>],
    payload: Bytes,
) -> Result<MsgId, HostError>
    ensures { IfErr result (RefusesPayload payload) }
{
    let Some(port) = ports.first_mut() else {
        return Err(HostError::Closed);
    };
    match port.broadcast(rt, payload) {
        Ok(receipt) => Ok(receipt.id),
        Err(error) => Err(error),
    }
}
