//! The queue of announcements, oldest first.
ghost use Rattle.std.specs.Prelude.{◌≡◌, ◌+◌, ◌++◌, ◌<◌, ◌≤◌, false, map, length};
ghost use Rattle.std.specs.Prelude.{vec_len, vec_capacity, OnOk, OnErr, IfOk};
ghost use Rattle.std.specs.List.{list_any, position_or_len};
ghost use Rattle.indexmap.specs.IndexSet.{insert_key};
ghost use Rattle.node_names.specs.Same.{same_name, is_left_out};
ghost use Rattle.peer_sets.specs.Members.{lazy_but};
ghost use Rattle.peer_sets.specs.Queue.{place_of, same_place, has_entry_of, with_entry, with_entries, without_entries};
ghost use Rattle.peer_sets.specs.Queue.{without_all_entries, with_more, with_empty, with_batch, batches};

use crate::members::Member;
use indexmap::IndexSet;
use node_names::{Listed, MsgId, NameSet, NodeName, is_left_out};
use std::alloc::{AllocError, Allocator, Global};

/// An announcement that waits to be sent: the receiver, the message id and the round.
pub type Announcement = (NodeName, MsgId, u32);

/// The announcements that wait for one peer: the peer, and the ids and rounds, oldest first.
pub type Batch<A = Global> = (NodeName, Listed<(MsgId, u32), A>);

/// Returns whether an announcement of `id` waits for `peer`.
fn is_queued(queued: &[Announcement], peer: &NodeName, id: &MsgId) -> bool
    ensures { result ≡ list_any (λ entry. same_place (peer.now, id.now) (place_of entry)) queued.now }
{
    queued
        .iter()
        .any(|entry| *peer == entry.0 && *id == entry.1)
}

/// Appends `entry`, unless an announcement of the same id waits for the same peer.
pub(crate) fn queue<A: Allocator>(
    queued: &mut Vec<Announcement, A>,
    entry: &Announcement,
) -> Result<(), AllocError>
    ensures ok { OnOk result (queued.new.items ≡ with_entry entry.now.0 entry.now.1 entry.now.2 queued.old.items) }
    ensures err { OnErr result (queued.new.items ≡ queued.old.items) }
{
    if is_queued(queued, &entry.0, &entry.1) {
        return Ok(());
    }
    queued.push(*entry)?;
    Ok(())
}

/// Appends an announcement of `id` for each lazy member except `left_out`, without allocating.
fn push_lazy<A: Allocator>(
    queued: &mut Vec<Announcement, A>,
    members: &[Member],
    left_out: &Option<NodeName>,
    id: &MsgId,
    round: u32,
)
    requires { vec_len queued.old + length members.now ≤ vec_capacity queued.old }
    ensures { queued.new.items
        ≡ queued.old.items ++ map (λ peer. (peer, id.now, round)) (lazy_but left_out.now members.now) }
{
    for member in members {
        if !member.1.is_eager() && !is_left_out(left_out, &member.0) {
            queued.push((member.0, *id, round)).unwrap();
        }
    }
}

/// Appends an announcement of `id` for each lazy member except `left_out`. No announcement of `id` may be waiting.
pub(crate) fn queue_lazy<A: Allocator>(
    queued: &mut Vec<Announcement, A>,
    members: &[Member],
    left_out: &Option<NodeName>,
    id: &MsgId,
    round: u32,
) -> Result<(), AllocError>
    requires { has_entry_of id.now queued.old.items ≡ false }
    ensures ok { OnOk result
        (queued.new.items ≡ with_entries (lazy_but left_out.now members.now) id.now round queued.old.items) }
    ensures err { OnErr result (queued.new.items ≡ queued.old.items) }
{
    queued.reserve(members.len())?;
    push_lazy(queued, members, left_out, id, round);
    Ok(())
}

/// Removes the announcements for `peer`.
pub(crate) fn remove<A: Allocator>(queued: &mut Vec<Announcement, A>, peer: &NodeName)
    ensures { queued.new.items ≡ without_entries peer.now queued.old.items }
{
    queued.retain(|entry| *peer != entry.0);
}

/// Returns whether `name` is one of the `names`.
fn is_one_of(names: &[NodeName], name: &NodeName) -> bool
    ensures { result ≡ list_any (λ other. same_name other name.now) names.now }
{
    names.iter().any(|other| *other == *name)
}

/// Removes the announcements for all of the `peers`, in one pass over the queue.
pub(crate) fn remove_all<A: Allocator>(queued: &mut Vec<Announcement, A>, peers: &[NodeName])
    ensures { queued.new.items ≡ without_all_entries peers.now queued.old.items }
{
    if peers.is_empty() {
        return;
    }
    queued.retain(|entry| !is_one_of(peers, &entry.0));
}

/// Appends `entry` to the batch at index `place`.
fn put_in_slice<A: Allocator>(
    batches: &mut [Batch<A>],
    place: usize,
    entry: (MsgId, u32),
) -> Result<(), AllocError>
    requires { place < length batches.old }
    ensures { OnOk result (batches.new ≡ with_more place entry batches.old) }
{
    let batch = &mut batches[place];
    batch.1.push(entry)?;
    Ok(())
}

/// Appends `entry` to the batch at index `place`.
fn put_in<A: Allocator>(
    batches: &mut Vec<Batch<A>, A>,
    place: usize,
    entry: (MsgId, u32),
) -> Result<(), AllocError>
    requires { place < length batches.old.items }
    ensures { OnOk result (batches.new.items ≡ with_more place entry batches.old.items) }
{
    put_in_slice(batches, place, entry)?;
    Ok(())
}

/// Returns the index of the batch for `peer`. A new receiver gets an empty batch, which is appended.
fn batch_of<A: Allocator + Copy>(
    receivers: &mut NameSet<A>,
    batches: &mut Vec<Batch<A>, A>,
    peer: &NodeName,
) -> Result<usize, AllocError>
    requires { map (λ batch. batch.0) batches.old.items ≡ receivers.old.keys }
    ensures place { IfOk result (λ place. place ≡ position_or_len (same_name peer.now) receivers.old.keys) }
    ensures batches { OnOk result (batches.new.items ≡ with_empty peer.now batches.old.items) }
    ensures receivers { OnOk result (receivers.new.keys ≡ insert_key same_name receivers.old.keys peer.now) }
{
    let (place, is_new) = receivers.insert_full(*peer)?;
    if !is_new {
        return Ok(place);
    }
    let empty = Listed::new(*batches.allocator());
    batches.push((*peer, empty))?;
    Ok(place)
}

/// Appends `entry` to the batch of its receiver. The batch of a new receiver goes last.
fn put_batch<A: Allocator + Copy>(
    receivers: &mut NameSet<A>,
    batches: &mut Vec<Batch<A>, A>,
    entry: &Announcement,
) -> Result<(), AllocError>
    requires { map (λ batch. batch.0) batches.old.items ≡ receivers.old.keys }
    ensures put { OnOk result (batches.new.items ≡ with_batch entry.now batches.old.items) }
    ensures matched { OnOk result (map (λ batch. batch.0) batches.new.items ≡ receivers.new.keys) }
{
    let place = batch_of(receivers, batches, &entry.0)?;
    put_in(batches, place, (entry.1, entry.2))?;
    Ok(())
}

/// Groups the queue into one batch per receiver, ordered by the receivers' first announcements.
pub(crate) fn batches<A: Allocator + Copy>(
    alloc: A,
    queued: &[Announcement],
) -> Result<Listed<Batch<A>, A>, AllocError>
    ensures { IfOk result (λ all. all ≡ batches queued.now) }
{
    let mut receivers: NameSet<A> = IndexSet::new(alloc);
    let mut all = Vec::new(alloc);
    for entry in queued {
        put_batch(&mut receivers, &mut all, entry)?;
    }
    Ok(Listed::from_vec(all))
}
