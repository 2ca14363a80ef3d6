//! The calls that take what a node of bytes gives: bytes by the name that they go to, deliveries, and lost names.
ghost use Rattle.std.specs.Prelude.{◌≡◌, ◌⊎◌, [], length, map, take};
ghost use Rattle.plumtree_c.specs.Answers.{IsDone, IsNone};
ghost use Rattle.plumtree_c.specs.Plain.{id_of, name_of};
ghost use Rattle.plumtree_c.specs.Slots.{BothBytes, HasBytes};
ghost use Rattle.plumtree_c.specs.Wire.{bytes_for, AreWireCounts, Delivers, Does, HasNoDelivery, HasNoLost, Loses};
ghost use Rattle.plumtree_c.specs.Wire.{Offers, Stays, Went};
ghost use Rattle.wire_node.specs.Waiting.{receivers_of};

use crate::piece::Piece;
use crate::plain::{Id, Name, WireCounts};
use crate::refusal::{DONE, NONE, Refusal};
use crate::room::put_names;
use crate::slot::Slot;
use crate::wire::Wire;
use node_names::NodeName;
use std::alloc::Global;

/// Puts the names for whom bytes wait into the room, each once. `length` is their number, also where the room is too
/// small for them (-6), and gets the first of them.
#[unsafe(no_mangle)]
pub extern "C" fn plumtree_wire_receivers(
    slot: &mut Slot,
    alloc: Global,
    room: &mut [Name],
    length: &mut usize,
) -> i32
    ensures kept { slot.new.held.value ≡ slot.old.held.value }
    ensures done { IsDone result
        → HasBytes slot.old.held.value
        (λ wire. map name_of (take length.new room.new) ≡ receivers_of wire.node.engine.machine.waiting) }
{
    *length = 0;
    let wire = match slot.take::<Wire>(alloc) {
        Ok(wire) => wire,
        Err(refusal) => return refusal.code(),
    };
    let answer = wire.receivers();
    slot.put_back(wire);
    let names = match answer {
        Ok(names) => names,
        Err(refusal) => return refusal.code(),
    };
    *length = names.len();
    put_names(room, names.as_slice());
    if *length > room.len() {
        return Refusal::RoomTooSmall.code();
    }
    DONE
}

/// Counts the bytes that wait for the name.
///
/// `count` is their number, and is unchanged where this is not answered with 1. Who broadcasts only while little waits
/// for the fullest name is held up by a slow peer, where its link would fail at the limit.
#[unsafe(no_mangle)]
pub extern "C" fn plumtree_wire_waiting(
    slot: &mut Slot,
    alloc: Global,
    name: &[u8],
    count: &mut usize,
) -> i32
    ensures kept { slot.new.held.value ≡ slot.old.held.value }
    ensures done { IsDone result → HasBytes slot.old.held.value (λ wire. count.new ≡ length (bytes_for wire name.now)) }
{
    let name = match NodeName::parse(name) {
        Ok(name) => name,
        Err(_) => return Refusal::BadName.code(),
    };
    let wire = match slot.take::<Wire>(alloc) {
        Ok(wire) => wire,
        Err(refusal) => return refusal.code(),
    };
    *count = wire.waiting(&name);
    slot.put_back(wire);
    DONE
}

/// Lends the first of the bytes that wait for the name, in four pieces, some of which may be empty: they stay where
/// they are until the next call that changes the node. 0: none wait. What of them went out is told by
/// `plumtree_wire_transmitted`.
#[unsafe(no_mangle)]
pub extern "C" fn plumtree_wire_transmit(
    slot: &mut Slot,
    alloc: Global,
    name: &[u8],
    pieces: &mut [Piece; 4],
) -> i32
    ensures kept { slot.new.held.value ≡ slot.old.held.value }
    ensures done { IsDone result → HasBytes slot.old.held.value (Offers name.now pieces.new) }
    ensures none { IsNone result → HasBytes slot.old.held.value (λ wire. bytes_for wire name.now ≡ []) }
{
    let name = match NodeName::parse(name) {
        Ok(name) => name,
        Err(_) => return Refusal::BadName.code(),
    };
    let wire = match slot.take::<Wire>(alloc) {
        Ok(wire) => wire,
        Err(refusal) => return refusal.code(),
    };
    let waits = wire.transmit(&name, pieces);
    slot.put_back(wire);
    if !waits {
        return NONE;
    }
    DONE
}

/// Takes the first `count` of the bytes that wait for the name: they went out. Where fewer wait, takes all.
#[unsafe(no_mangle)]
pub extern "C" fn plumtree_wire_transmitted(
    slot: &mut Slot,
    alloc: Global,
    name: &[u8],
    count: usize,
) -> i32
    ensures done { IsDone result → BothBytes slot.old.held.value slot.new.held.value (Does (Went name.now count)) }
    ensures kept { (IsDone result → ⊥) → slot.new.held.value ≡ slot.old.held.value }
{
    let name = match NodeName::parse(name) {
        Ok(name) => name,
        Err(_) => return Refusal::BadName.code(),
    };
    let mut wire = match slot.take::<Wire>(alloc) {
        Ok(wire) => wire,
        Err(refusal) => return refusal.code(),
    };
    wire.transmitted(&name, count);
    slot.put(wire);
    DONE
}

/// Takes the first delivery that waits: `id` is the message's, and its payload is at the front of the room. 0: none
/// waits.
///
/// `length` is the number of bytes of the payload, also where the room is too small for it (-6); else 0.
#[unsafe(no_mangle)]
pub extern "C" fn plumtree_wire_next_delivery(
    slot: &mut Slot,
    alloc: Global,
    id: &mut Id,
    room: &mut [u8],
    length: &mut usize,
) -> i32
    ensures done { IsDone result
        → BothBytes slot.old.held.value slot.new.held.value (Delivers (id_of id.new) (take length.new room.new)) }
    ensures none { IsNone result → BothBytes slot.old.held.value slot.new.held.value HasNoDelivery }
    ensures stays { (IsDone result → ⊥)
        → BothBytes slot.old.held.value slot.new.held.value Stays ⊎ (slot.new.held.value ≡ slot.old.held.value) }
{
    *length = 0;
    let mut wire = match slot.take::<Wire>(alloc) {
        Ok(wire) => wire,
        Err(refusal) => return refusal.code(),
    };
    let answer = wire.next_delivery(room, length);
    slot.put(wire);
    let found = match answer {
        Ok(found) => found,
        Err(refusal) => return refusal.code(),
    };
    match found {
        Some(its) => {
            *id = its;
            DONE
        }
        None => NONE,
    }
}

/// Takes the first lost name that waits: bytes for it were dropped, so a connection to it has to be closed before
/// anything more is sent there. 0: none waits.
#[unsafe(no_mangle)]
pub extern "C" fn plumtree_wire_next_lost(slot: &mut Slot, alloc: Global, name: &mut Name) -> i32
    ensures done { IsDone result → BothBytes slot.old.held.value slot.new.held.value (Loses (name_of name.new)) }
    ensures none { IsNone result → BothBytes slot.old.held.value slot.new.held.value HasNoLost }
    ensures stays { (IsDone result → ⊥)
        → BothBytes slot.old.held.value slot.new.held.value Stays ⊎ (slot.new.held.value ≡ slot.old.held.value) }
{
    let mut wire = match slot.take::<Wire>(alloc) {
        Ok(wire) => wire,
        Err(refusal) => return refusal.code(),
    };
    let found = wire.next_lost();
    slot.put(wire);
    match found {
        Some(its) => {
            *name = its;
            DONE
        }
        None => NONE,
    }
}

/// Counts what the node has.
#[unsafe(no_mangle)]
pub extern "C" fn plumtree_wire_counts_of(
    slot: &mut Slot,
    alloc: Global,
    counts: &mut WireCounts,
) -> i32
    ensures kept { slot.new.held.value ≡ slot.old.held.value }
    ensures done { IsDone result → HasBytes slot.old.held.value (AreWireCounts counts.new) }
{
    let wire = match slot.take::<Wire>(alloc) {
        Ok(wire) => wire,
        Err(refusal) => return refusal.code(),
    };
    *counts = wire.counts();
    slot.put_back(wire);
    DONE
}
