//! The announcements of messages that a node lacks, in the order in which they came.
ghost use Rattle.std.specs.Prelude.{◌≡◌, ◌+◌, ◌<◌, ◌≤◌, true, map, vec_len, vec_capacity, IfOk, OnOk};
ghost use Rattle.std.specs.List.{IsDistinct};
ghost use Rattle.indexmap.specs.IndexMap.{spare};
ghost use Rattle.node_names.specs.Same.{same_id, same_name};
ghost use Rattle.node_names.specs.Slots.{somes};
ghost use Rattle.missing.specs.Slots.{AreArmed, ArePlaced, AreBy, IsKept, earlier, is_of, place};
ghost use Rattle.missing.specs.Wants.{place_of, same_place, with_slot, with_want, first_want, without_first};
ghost use Rattle.missing.specs.Wants.{without_id, without_peer, without_peers, without_place, without_slot};

use indexmap::IndexMap;
use node_names::{MsgId, NameSet, NodeName};
use std::alloc::{AllocError, Allocator};
use std::hash::{BuildHasherDefault, FoldHasher};

/// An announcement of a message that the node lacks: the message id, the announcing peer and the round.
pub type Want = (MsgId, NodeName, u32);

/// Where the announcement of an id by a peer stands.
pub(crate) type Places<A> = IndexMap<(MsgId, NodeName), usize, BuildHasherDefault<FoldHasher>, A>;

/// Announcements, at most one for each id and peer.
#[derive(Drop)]
pub(crate) struct Wants<A: Allocator> {
    /// The announcements, oldest first, and `None` where one was taken out.
    pub(crate) slots: Vec<Option<Want>, A>,
    /// Where each announcement stands.
    pub(crate) places: Places<A>,
    /// Those who made them, and maybe others.
    pub(crate) peers: NameSet<A>,
}

/// Appends `entry`, without allocating, unless its peer has announced its id already.
pub(crate) fn put<A: Allocator + Copy>(
    slots: &mut Vec<Option<Want>, A>,
    places: &mut Places<A>,
    entry: &Want,
)
    requires room { vec_len slots.old < vec_capacity slots.old }
    requires spare { 0 < spare places.old }
    requires placed { ArePlaced slots.old.items places.old }
    ensures wants { somes slots.new.items ≡ with_want entry.now.0 entry.now.1 entry.now.2 (somes slots.old.items) }
    ensures placed { ArePlaced slots.new.items places.new }
    ensures len { vec_len slots.new ≤ vec_len slots.old + 1 }
    ensures capacity { vec_capacity slots.old ≤ vec_capacity slots.new }
    ensures left { spare places.old ≤ spare places.new + 1 }
{
    let place = (entry.0, entry.1);
    if places.contains_key(&place) {
        return;
    }
    places.insert(place, slots.len()).unwrap();
    slots.push(Some(*entry)).unwrap();
}

/// Appends the announcement in the slot, if there is one, unless its peer has announced its id already.
fn put_slot<A: Allocator + Copy>(
    slots: &mut Vec<Option<Want>, A>,
    places: &mut Places<A>,
    slot: &Option<Want>,
) -> Result<(), AllocError>
    requires placed { ArePlaced slots.old.items places.old }
    ensures wants { OnOk result (somes slots.new.items ≡ with_slot slot.now (somes slots.old.items)) }
    ensures placed { OnOk result (ArePlaced slots.new.items places.new) }
{
    if let Some(entry) = slot {
        slots.reserve(1)?;
        places.reserve(1)?;
        put(slots, places, entry);
    }
    Ok(())
}

/// Returns a copy without the empty slots.
pub(crate) fn copy<A: Allocator + Copy>(wants: &Wants<A>) -> Result<Wants<A>, AllocError>
    requires kept { IsKept wants.now.slots.items wants.now.places wants.now.peers.keys }
    requires once { IsDistinct same_place (map place_of (somes wants.now.slots.items)) }
    ensures wants { IfOk result (λ copy. somes copy.slots.items ≡ somes wants.now.slots.items) }
    ensures kept { IfOk result (λ copy. IsKept copy.slots.items copy.places copy.peers.keys) }
{
    let alloc = *wants.slots.allocator();
    let mut slots = Vec::new(alloc);
    let mut places = IndexMap::new(alloc);
    for slot in wants.slots.as_slice() {
        put_slot(&mut slots, &mut places, slot)?;
    }
    let peers = wants.peers.clone()?;
    Ok(Wants {
        slots,
        places,
        peers,
    })
}

/// Returns the lower place.
fn earlier(a: Option<usize>, b: Option<usize>) -> Option<usize>
    ensures { result ≡ earlier a b }
{
    match (a, b) {
        (Some(m), Some(n)) => Some(if m < n { m } else { n }),
        (Some(m), None) => Some(m),
        (None, b) => b,
    }
}

/// Returns where the first announcement of `id` stands. Looks at one place for each peer.
fn first_place<A: Allocator>(wants: &Wants<A>, id: &MsgId) -> Option<usize>
    requires kept { IsKept wants.now.slots.items wants.now.places wants.now.peers.keys }
    ensures { result ≡ place (is_of id.now) wants.now.slots.items }
{
    let mut first = None;
    for peer in wants.peers.as_slice() {
        first = earlier(first, wants.places.get(&(*id, *peer)).copied());
    }
    first
}

/// Returns the peer and the round of the first announcement of `id`.
pub(crate) fn first<A: Allocator>(wants: &Wants<A>, id: &MsgId) -> Option<(NodeName, u32)>
    requires kept { IsKept wants.now.slots.items wants.now.places wants.now.peers.keys }
    ensures { result ≡ first_want id.now (somes wants.now.slots.items) }
{
    let entry = wants.slots[first_place(wants, id)?]?;
    Some((entry.1, entry.2))
}

/// Removes the first announcement of `id` and returns its peer and round. The order of the others stays.
pub(crate) fn take_first<A: Allocator>(wants: &mut Wants<A>, id: &MsgId) -> Option<(NodeName, u32)>
    requires kept { IsKept wants.old.slots.items wants.old.places wants.old.peers.keys }
    requires once { IsDistinct same_place (map place_of (somes wants.old.slots.items)) }
    ensures taken { result ≡ first_want id.now (somes wants.old.slots.items) }
    ensures left { somes wants.new.slots.items ≡ without_first id.now (somes wants.old.slots.items) }
    ensures kept { IsKept wants.new.slots.items wants.new.places wants.new.peers.keys }
{
    let first = first(wants, id)?;
    remove(&mut wants.slots, &mut wants.places, id, &first.0);
    Some(first)
}

/// Removes the announcement of `id` by `peer`, if there is one.
fn remove<A: Allocator>(
    slots: &mut Vec<Option<Want>, A>,
    places: &mut Places<A>,
    id: &MsgId,
    peer: &NodeName,
)
    requires placed { ArePlaced slots.old.items places.old }
    requires once { IsDistinct same_place (map place_of (somes slots.old.items)) }
    ensures left { somes slots.new.items ≡ without_place (id.now, peer.now) (somes slots.old.items) }
    ensures placed { ArePlaced slots.new.items places.new }
{
    if let Some(at) = places.swap_remove(&(*id, *peer)) {
        slots[at] = None;
    }
}

/// Removes the announcements of `id` by these peers.
fn remove_by<A: Allocator>(
    slots: &mut Vec<Option<Want>, A>,
    places: &mut Places<A>,
    id: &MsgId,
    peers: &[NodeName],
)
    requires placed { ArePlaced slots.old.items places.old }
    requires once { IsDistinct same_place (map place_of (somes slots.old.items)) }
    requires by { AreBy peers.now (somes slots.old.items) }
    ensures left { somes slots.new.items ≡ without_id id.now (somes slots.old.items) }
    ensures placed { ArePlaced slots.new.items places.new }
{
    for peer in peers {
        remove(slots, places, id, peer);
    }
}

/// Removes the announcement of the id in the slot by `peer`, if there is one.
fn remove_slot<A: Allocator>(
    slots: &mut Vec<Option<Want>, A>,
    places: &mut Places<A>,
    slot: &Option<MsgId>,
    peer: &NodeName,
)
    requires placed { ArePlaced slots.old.items places.old }
    requires once { IsDistinct same_place (map place_of (somes slots.old.items)) }
    ensures left { somes slots.new.items ≡ without_slot slot.now peer.now (somes slots.old.items) }
    ensures placed { ArePlaced slots.new.items places.new }
{
    if let Some(id) = slot {
        remove(slots, places, id, peer);
    }
}

/// Removes the announcements by `peer`, which are all of these ids. Looks at one place for each of them.
fn remove_of<A: Allocator>(
    slots: &mut Vec<Option<Want>, A>,
    places: &mut Places<A>,
    ids: &[Option<MsgId>],
    peer: &NodeName,
)
    requires placed { ArePlaced slots.old.items places.old }
    requires once { IsDistinct same_place (map place_of (somes slots.old.items)) }
    requires armed { AreArmed (somes ids.now) (somes slots.old.items) }
    ensures left { somes slots.new.items ≡ without_peer peer.now (somes slots.old.items) }
    ensures placed { ArePlaced slots.new.items places.new }
{
    for slot in ids {
        remove_slot(slots, places, slot, peer);
    }
}

/// Removes the announcements of `id`.
pub(crate) fn remove_id<A: Allocator>(wants: &mut Wants<A>, id: &MsgId)
    requires kept { IsKept wants.old.slots.items wants.old.places wants.old.peers.keys }
    requires once { IsDistinct same_place (map place_of (somes wants.old.slots.items)) }
    ensures left { somes wants.new.slots.items ≡ without_id id.now (somes wants.old.slots.items) }
    ensures kept { IsKept wants.new.slots.items wants.new.places wants.new.peers.keys }
{
    remove_by(
        &mut wants.slots,
        &mut wants.places,
        id,
        wants.peers.as_slice(),
    );
}

/// Removes the announcements by `peer`, which are all of these ids.
pub(crate) fn remove_peer<A: Allocator>(
    wants: &mut Wants<A>,
    ids: &[Option<MsgId>],
    peer: &NodeName,
)
    requires kept { IsKept wants.old.slots.items wants.old.places wants.old.peers.keys }
    requires once { IsDistinct same_place (map place_of (somes wants.old.slots.items)) }
    requires armed { AreArmed (somes ids.now) (somes wants.old.slots.items) }
    ensures left { somes wants.new.slots.items ≡ without_peer peer.now (somes wants.old.slots.items) }
    ensures kept { IsKept wants.new.slots.items wants.new.places wants.new.peers.keys }
{
    remove_of(&mut wants.slots, &mut wants.places, ids, peer);
    wants.peers.swap_remove(peer);
}

/// Removes the announcements by all of the `peers`, which are all of these ids.
pub(crate) fn remove_peers<A: Allocator>(
    wants: &mut Wants<A>,
    ids: &[Option<MsgId>],
    peers: &[NodeName],
)
    requires kept { IsKept wants.old.slots.items wants.old.places wants.old.peers.keys }
    requires once { IsDistinct same_place (map place_of (somes wants.old.slots.items)) }
    requires armed { AreArmed (somes ids.now) (somes wants.old.slots.items) }
    ensures left { somes wants.new.slots.items ≡ without_peers peers.now (somes wants.old.slots.items) }
    ensures kept { IsKept wants.new.slots.items wants.new.places wants.new.peers.keys }
{
    for peer in peers {
        remove_peer(wants, ids, peer);
    }
}
