//! Origins and messages of a node's first incarnation.
ghost use Rattle.std.specs.Prelude.{◌≡◌};

use node_names::{Incarnation, MsgId, NodeName, Origin};

/// Returns the origin of a name's first incarnation.
pub fn first_run(name: NodeName) -> Origin
    ensures name { result.name ≡ name }
    ensures incarnation { result.incarnation.0 ≡ 1 }
{
    Origin {
        name,
        incarnation: Incarnation(1),
    }
}

/// Returns the id of message number `seq` of a name's first incarnation.
pub fn message(name: NodeName, seq: u64) -> MsgId
    ensures name { result.origin.name ≡ name }
    ensures incarnation { result.origin.incarnation.0 ≡ 1 }
    ensures seq { result.seq ≡ seq }
{
    MsgId {
        origin: first_run(name),
        seq,
    }
}
