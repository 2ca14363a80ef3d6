//! The messages that a node knows, and those that it holds in order of delivery.
ghost use Rattle.std.specs.Prelude.{◌≡◌, ◌++◌, ◌∷◌, [], None, false, OnOk, OnErr};
ghost use Rattle.std.specs.FinSet as set;
ghost use Rattle.std.specs.Map.{lookup};
ghost use Rattle.known_messages.specs.Known.{ids};
ghost use Rattle.known_messages.specs.Held.{kept_last};
ghost use Rattle.node_names.specs.Same.{same_id};
ghost use Rattle.peer_sets.specs.Members.{lazy_but};
ghost use Rattle.peer_sets.specs.Queue.{has_entry_of, with_entries};

use bytes::Bytes;
use known_messages::{KnownIds, MessageStore};
use node_names::{MsgId, NodeName};
use peer_sets::PeerSets;
use std::alloc::{AllocError, Allocator};

/// Adds a message that is not held to the known and the held messages, and queues it for all lazy members except
/// `left_out`. Afterwards only the last `keep` messages are held, or all if `keep` is 0. All memory is reserved first.
pub(crate) fn keep<A: Allocator + Copy>(
    known: &mut KnownIds<A>,
    held: &mut MessageStore<A>,
    peers: &mut PeerSets<A>,
    left_out: &Option<NodeName>,
    id: &MsgId,
    round: u32,
    payload: Bytes<A>,
    keep: u32,
) -> Result<(), AllocError>
    requires absent { lookup (same_id id.now) held.old.messages ≡ None }
    requires unqueued { has_entry_of id.now peers.old.queued ≡ false }
    ensures known { OnOk result (ids known.new ≡ set.insert (ids known.old) id.now) }
    ensures held { OnOk result (held.new.messages ≡ kept_last keep (held.old.messages ++ (id.now, payload) ∷ [])) }
    ensures peers { OnOk result (peers.new ≡ record peers.old {
      queued = with_entries (lazy_but left_out.now peers.old.members) id.now round peers.old.queued;
    }) }
    ensures err { OnErr result
        ((ids known.new ≡ ids known.old) × (held.new.messages ≡ held.old.messages) × (peers.new ≡ peers.old)) }
{
    held.make_room()?;
    known.make_room(id)?;
    peers.queue_lazy(left_out, id, round)?;
    held.push(id, payload, keep);
    known.insert(id);
    Ok(())
}
