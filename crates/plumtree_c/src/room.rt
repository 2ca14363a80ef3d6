//! Rooms of the caller for bytes and names, and lists whose first items are taken.
ghost use Rattle.std.specs.Prelude.{◌≡◌, ◌+◌, ◌≤◌, [], IfNone, IfOk, IfSome, MatchBool, OnErr, drop, length, map, take};
ghost use Rattle.node_names.specs.Slots.{somes};
ghost use Rattle.plumtree_c.specs.Plain.{id_of, name_of};
ghost use Rattle.plumtree_c.specs.State.{Gives};
ghost use Rattle.plumtree_c.specs.Wire.{Brings, Tells};

use crate::plain::{Id, Name, PlainNews};
use crate::refusal::Refusal;
use node_names::{Listed, NodeName};
use peer_sets::{Member, PeerKind};
use protocol::Delivery;
use std::mem;
use wire_node::News;

/// Puts the bytes at the front of the room, or answers `false` if they are too many.
pub(crate) fn put(room: &mut [u8], bytes: &[u8]) -> bool
    ensures bytes { MatchBool result (take (length bytes.now) room.new ≡ bytes.now) (room.new ≡ room.old) }
    ensures length { length room.new ≡ length room.old }
{
    if room.len() < bytes.len() {
        return false;
    }
    room[..bytes.len()].copy_from_slice(bytes);
    true
}

/// Puts as many of the names at the front of the room as it has places for.
pub(crate) fn put_names(room: &mut [Name], names: &[NodeName])
    ensures length { length room.new ≡ length room.old }
    ensures names { length names.now ≤ length room.old → map name_of (take (length names.now) room.new) ≡ names.now }
{
    let places = room.len().min(names.len());
    for i in 0..places {
        room[i] = Name::of(&names[i]);
    }
}

/// Drops the first `given` items, those that were taken, unless they are fewer than the others. Returns how many of
/// them are still there.
pub(crate) fn forget<T: Drop>(items: &mut Listed<T>, given: usize) -> usize
    requires { given ≤ length items.old }
    ensures left { drop result items.new ≡ drop given items.old }
    ensures few { result + result ≤ length items.new }
{
    if given < items.len() - given {
        return given;
    }
    let alloc = *items.allocator();
    let mut rest = mem::replace(items, Listed::new(alloc)).into_vec();
    rest.drain(..given);
    *items = Listed::from_vec(rest);
    0
}

/// The number of entries of a list. `None` stands where one was taken out.
pub(crate) fn number_of<T>(entries: &[Option<T>]) -> usize
    ensures { result ≡ length (somes entries.now) }
{
    entries.iter().flatten().count()
}

/// Takes the first delivery that was not given yet: returns the message's id, and puts its payload at the front of the
/// room. `given` of them were. `count` is then the number of bytes, also where the room is too small.
pub(crate) fn give(
    deliveries: &mut Listed<Delivery>,
    given: &mut usize,
    room: &mut [u8],
    count: &mut usize,
) -> Result<Option<Id>, Refusal>
    requires { given.old + given.old ≤ length deliveries.old }
    ensures some { IfOk result (λ id. IfSome id (λ id.
        Gives (drop given.old deliveries.old) (id_of id) (take count.new room.new) (drop given.new deliveries.new))) }
    ensures none { IfOk result (λ id. IfNone id ((deliveries.new ≡ deliveries.old) × (given.new ≡ given.old))) }
    ensures empty { IfOk result (λ id. IfNone id (drop given.old deliveries.old ≡ [])) }
    ensures err { OnErr result ((deliveries.new ≡ deliveries.old) × (given.new ≡ given.old)) }
    ensures few { given.new + given.new ≤ length deliveries.new }
{
    let Some(delivery) = deliveries.as_slice().get(*given) else {
        return Ok(None);
    };
    let id = Id::of(&delivery.id);
    *count = delivery.payload.len();
    if !put(room, delivery.payload.as_slice()) {
        return Err(Refusal::RoomTooSmall);
    }
    *given = forget(deliveries, *given + 1);
    Ok(Some(id))
}

/// Takes the first name that was not told yet. `told` of them were.
pub(crate) fn tell(names: &mut Listed<NodeName>, told: &mut usize) -> Option<Name>
    requires { told.old + told.old ≤ length names.old }
    ensures some { IfSome result (λ name. Tells (drop told.old names.old) (name_of name) (drop told.new names.new)) }
    ensures none { IfNone result ((names.new ≡ names.old) × (told.new ≡ told.old)) }
    ensures empty { IfNone result (drop told.old names.old ≡ []) }
    ensures few { told.new + told.new ≤ length names.new }
{
    let Some(first) = names.as_slice().get(*told) else {
        return None;
    };
    let name = Name::of(first);
    *told = forget(names, *told + 1);
    Some(name)
}

/// Takes the first news that were not told yet. `heard` of them were.
pub(crate) fn bring(news: &mut Listed<News>, heard: &mut usize) -> Option<PlainNews>
    requires { heard.old + heard.old ≤ length news.old }
    ensures some { IfSome result (λ its. Brings (drop heard.old news.old) its (drop heard.new news.new)) }
    ensures none { IfNone result ((news.new ≡ news.old) × (heard.new ≡ heard.old)) }
    ensures empty { IfNone result (drop heard.old news.old ≡ []) }
    ensures few { heard.new + heard.new ≤ length news.new }
{
    let Some(first) = news.as_slice().get(*heard) else {
        return None;
    };
    let its = PlainNews::of(first);
    *heard = forget(news, *heard + 1);
    Some(its)
}

/// Puts the names of as many members of this kind at the front of the room as it has places for. Returns the number of
/// all of them.
pub(crate) fn put_members(room: &mut [Name], members: &[Member], kind: PeerKind) -> usize {
    let mut found: usize = 0;
    for (name, its) in members {
        if *its == kind {
            if let Some(place) = room.get_mut(found) {
                *place = Name::of(name);
            }
            found = found.wrapping_add(1);
        }
    }
    found
}
