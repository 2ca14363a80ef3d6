//! The calls that read a node, and change nothing in it.
ghost use Rattle.std.specs.Prelude.{◌≡◌, true, false, None, Some, map, slice_get, take};
ghost use Rattle.node_core.specs.Plum.{plum_state};
ghost use Rattle.plumtree_c.specs.Answers.{IsDone, IsNone};
ghost use Rattle.plumtree_c.specs.Plain.{id_of, name_of, origin_of};
ghost use Rattle.plumtree_c.specs.Slots.{Has, HasCore};
ghost use Rattle.plumtree_c.specs.State.{AreCounts};

use crate::lodger::Lodger;
use crate::node::Node;
use crate::plain::{Counts, Id, Name};
use crate::refusal::{DONE, NONE, Refusal, words_of};
use crate::room::{put, put_members, put_names};
use crate::slot::Slot;
use crate::wire::Wire;
use node_core::armed_at;
use node_names::MsgId;
use peer_sets::PeerKind;
use protocol::Core;
use std::alloc::Global;

/// The answer of a call that has put `length` names into a room.
fn fits(room: &[Name], length: usize) -> i32 {
    if length > room.len() {
        return Refusal::RoomTooSmall.code();
    }
    DONE
}

/// `plumtree_active`, where the slot has a node of this type.
fn active_of<T: Lodger>(
    slot: &mut Slot,
    alloc: Global,
    room: &mut [Name],
    length: &mut usize,
) -> i32
    ensures kept { slot.new.held.value ≡ slot.old.held.value }
    ensures done { IsDone result
        → HasCore slot.old.held.value (λ core. map name_of (take length.new room.new) ≡ (plum_state core).active) }
{
    *length = 0;
    let node = match slot.take::<T>(alloc) {
        Ok(node) => node,
        Err(refusal) => return refusal.code(),
    };
    let names = node.core().active().as_slice();
    *length = names.len();
    put_names(room, names);
    slot.put_back(node);
    if *length > room.len() {
        return Refusal::RoomTooSmall.code();
    }
    DONE
}

/// Puts the names of the active view into the room, in the order in which they came. `length` is their number, also
/// where the room is too small for them (-6), and gets the first of them.
#[unsafe(no_mangle)]
pub extern "C" fn plumtree_active(
    slot: &mut Slot,
    alloc: Global,
    room: &mut [Name],
    length: &mut usize,
) -> i32
    ensures kept { slot.new.held.value ≡ slot.old.held.value }
    ensures done { IsDone result
        → HasCore slot.old.held.value (λ core. map name_of (take length.new room.new) ≡ (plum_state core).active) }
{
    if slot.has_bytes() {
        return active_of::<Wire>(slot, alloc, room, length);
    }
    active_of::<Node>(slot, alloc, room, length)
}

/// `plumtree_passive`, where the slot has a node of this type.
fn passive_of<T: Lodger>(
    slot: &mut Slot,
    alloc: Global,
    room: &mut [Name],
    length: &mut usize,
) -> i32
    ensures kept { slot.new.held.value ≡ slot.old.held.value }
    ensures done { IsDone result
        → HasCore slot.old.held.value (λ core. map name_of (take length.new room.new) ≡ (plum_state core).passive) }
{
    *length = 0;
    let node = match slot.take::<T>(alloc) {
        Ok(node) => node,
        Err(refusal) => return refusal.code(),
    };
    let names = node.core().passive().as_slice();
    *length = names.len();
    put_names(room, names);
    slot.put_back(node);
    if *length > room.len() {
        return Refusal::RoomTooSmall.code();
    }
    DONE
}

/// Puts the names of the passive view into the room, as `plumtree_active` does.
#[unsafe(no_mangle)]
pub extern "C" fn plumtree_passive(
    slot: &mut Slot,
    alloc: Global,
    room: &mut [Name],
    length: &mut usize,
) -> i32
    ensures kept { slot.new.held.value ≡ slot.old.held.value }
    ensures done { IsDone result
        → HasCore slot.old.held.value (λ core. map name_of (take length.new room.new) ≡ (plum_state core).passive) }
{
    if slot.has_bytes() {
        return passive_of::<Wire>(slot, alloc, room, length);
    }
    passive_of::<Node>(slot, alloc, room, length)
}

/// Puts the names of the peers of this kind into the room, where the slot has a node of this type.
fn peers_of<T: Lodger>(
    slot: &mut Slot,
    alloc: Global,
    kind: PeerKind,
    room: &mut [Name],
    length: &mut usize,
) -> i32
    ensures { slot.new.held.value ≡ slot.old.held.value }
{
    *length = 0;
    let node = match slot.take::<T>(alloc) {
        Ok(node) => node,
        Err(refusal) => return refusal.code(),
    };
    *length = put_members(room, node.core().peers().members(), kind);
    slot.put_back(node);
    fits(room, *length)
}

/// Puts the names of the eager peers into the room, as `plumtree_active` does.
#[unsafe(no_mangle)]
pub extern "C" fn plumtree_eager(
    slot: &mut Slot,
    alloc: Global,
    room: &mut [Name],
    length: &mut usize,
) -> i32
    ensures { slot.new.held.value ≡ slot.old.held.value }
{
    if slot.has_bytes() {
        return peers_of::<Wire>(slot, alloc, PeerKind::Eager, room, length);
    }
    peers_of::<Node>(slot, alloc, PeerKind::Eager, room, length)
}

/// Puts the names of the lazy peers into the room, as `plumtree_active` does.
#[unsafe(no_mangle)]
pub extern "C" fn plumtree_lazy(
    slot: &mut Slot,
    alloc: Global,
    room: &mut [Name],
    length: &mut usize,
) -> i32
    ensures { slot.new.held.value ≡ slot.old.held.value }
{
    if slot.has_bytes() {
        return peers_of::<Wire>(slot, alloc, PeerKind::Lazy, room, length);
    }
    peers_of::<Node>(slot, alloc, PeerKind::Lazy, room, length)
}

/// `plumtree_me`, where the slot has a node of this type.
fn me_of<T: Lodger>(slot: &mut Slot, alloc: Global, name: &mut Name, incarnation: &mut u64) -> i32
    ensures kept { slot.new.held.value ≡ slot.old.held.value }
    ensures done { IsDone result
        → HasCore slot.old.held.value (λ core. origin_of (name_of name.new) incarnation.new ≡ (plum_state core).me) }
{
    let node = match slot.take::<T>(alloc) {
        Ok(node) => node,
        Err(refusal) => return refusal.code(),
    };
    let me = node.core().me();
    slot.put_back(node);
    *name = Name::of(&me.name);
    *incarnation = me.incarnation.0;
    DONE
}

/// Reads the node's own name and incarnation.
#[unsafe(no_mangle)]
pub extern "C" fn plumtree_me(
    slot: &mut Slot,
    alloc: Global,
    name: &mut Name,
    incarnation: &mut u64,
) -> i32
    ensures kept { slot.new.held.value ≡ slot.old.held.value }
    ensures done { IsDone result
        → HasCore slot.old.held.value (λ core. origin_of (name_of name.new) incarnation.new ≡ (plum_state core).me) }
{
    if slot.has_bytes() {
        return me_of::<Wire>(slot, alloc, name, incarnation);
    }
    me_of::<Node>(slot, alloc, name, incarnation)
}

/// Counts what the node has.
#[unsafe(no_mangle)]
pub extern "C" fn plumtree_counts_of(slot: &mut Slot, alloc: Global, counts: &mut Counts) -> i32
    ensures kept { slot.new.held.value ≡ slot.old.held.value }
    ensures done { IsDone result → Has slot.old.held.value (AreCounts counts.new) }
{
    let node = match slot.take::<Node>(alloc) {
        Ok(node) => node,
        Err(refusal) => return refusal.code(),
    };
    *counts = node.counts();
    slot.put_back(node);
    DONE
}

/// Whether the node has delivered the message, where the slot has a node of this type.
fn knows_of<T: Lodger>(slot: &mut Slot, alloc: Global, id: &MsgId) -> i32
    ensures kept { slot.new.held.value ≡ slot.old.held.value }
    ensures done { IsDone result → HasCore slot.old.held.value (λ core. (plum_state core).has id.now ≡ true) }
    ensures none { IsNone result → HasCore slot.old.held.value (λ core. (plum_state core).has id.now ≡ false) }
{
    let node = match slot.take::<T>(alloc) {
        Ok(node) => node,
        Err(refusal) => return refusal.code(),
    };
    let knows = node.core().has(id);
    slot.put_back(node);
    if !knows {
        return NONE;
    }
    DONE
}

/// Whether the node has delivered the message. 0: it has not.
#[unsafe(no_mangle)]
pub extern "C" fn plumtree_knows(slot: &mut Slot, alloc: Global, id: &Id) -> i32
    ensures kept { slot.new.held.value ≡ slot.old.held.value }
    ensures done { IsDone result → HasCore slot.old.held.value (λ core. (plum_state core).has (id_of id.now) ≡ true) }
    ensures none { IsNone result → HasCore slot.old.held.value (λ core. (plum_state core).has (id_of id.now) ≡ false) }
{
    let id = match id.read() {
        Ok(id) => id,
        Err(refusal) => return refusal.code(),
    };
    if slot.has_bytes() {
        return knows_of::<Wire>(slot, alloc, &id);
    }
    knows_of::<Node>(slot, alloc, &id)
}

/// `plumtree_timer`, where the slot has a node of this type.
fn timer_of<T: Lodger>(slot: &mut Slot, alloc: Global, place: usize, id: &mut Id) -> i32
    ensures kept { slot.new.held.value ≡ slot.old.held.value }
    ensures done { IsDone result
        → HasCore slot.old.held.value (λ core. slice_get core.gossip.missing.timers place ≡ Some (id_of id.new)) }
    ensures none { IsNone result
        → HasCore slot.old.held.value (λ core. slice_get core.gossip.missing.timers place ≡ None) }
{
    let node = match slot.take::<T>(alloc) {
        Ok(node) => node,
        Err(refusal) => return refusal.code(),
    };
    let timer = armed_at(node.core().timers(), place);
    slot.put_back(node);
    match timer {
        Some(its) => {
            *id = Id::of(&its);
            DONE
        }
        None => NONE,
    }
}

/// Reads the id whose timer has this place, from 0 on in the order in which the timers were armed. 0: there are fewer.
#[unsafe(no_mangle)]
pub extern "C" fn plumtree_timer(slot: &mut Slot, alloc: Global, place: usize, id: &mut Id) -> i32
    ensures kept { slot.new.held.value ≡ slot.old.held.value }
    ensures done { IsDone result
        → HasCore slot.old.held.value (λ core. slice_get core.gossip.missing.timers place ≡ Some (id_of id.new)) }
    ensures none { IsNone result
        → HasCore slot.old.held.value (λ core. slice_get core.gossip.missing.timers place ≡ None) }
{
    if slot.has_bytes() {
        return timer_of::<Wire>(slot, alloc, place, id);
    }
    timer_of::<Node>(slot, alloc, place, id)
}

/// Makes a name of its bytes. -9: they are not one.
#[unsafe(no_mangle)]
pub extern "C" fn plumtree_name_of(bytes: &[u8], name: &mut Name) -> i32 {
    match node_names::NodeName::parse(bytes) {
        Ok(read) => {
            *name = Name::of(&read);
            DONE
        }
        Err(_) => Refusal::BadName.code(),
    }
}

/// Puts what an answer means in words at the front of the room, with a zero after it where there is room. `length` is
/// the number of its bytes, also where the room is too small for them (-6). 0: no call answers this.
#[unsafe(no_mangle)]
pub extern "C" fn plumtree_words(code: i32, room: &mut [u8], length: &mut usize) -> i32 {
    let words = words_of(code).as_bytes();
    *length = words.len();
    if words.is_empty() {
        return NONE;
    }
    if !put(room, words) {
        return Refusal::RoomTooSmall.code();
    }
    if let Some(end) = room.get_mut(words.len()) {
        *end = 0;
    }
    DONE
}

/// The version of this interface, which grows with each change of it.
#[unsafe(no_mangle)]
pub extern "C" fn plumtree_version() -> u32 {
    2
}
