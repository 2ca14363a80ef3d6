//! The calls that take what a node sends and delivers.
ghost use Rattle.std.specs.Prelude.{◌≡◌, [], take};
ghost use Rattle.plumtree_c.specs.Answers.{IsDone, IsNone};
ghost use Rattle.plumtree_c.specs.Plain.{id_of, name_of};
ghost use Rattle.plumtree_c.specs.Slots.{Both, Has};
ghost use Rattle.plumtree_c.specs.State.{Given, Sent};

use crate::node::Node;
use crate::plain::{Id, Name};
use crate::refusal::{DONE, NONE};
use crate::slot::Slot;
use std::alloc::Global;

/// Takes the first frame that waits: `to` is its receiver, and its bytes are at the front of the room. 0: none waits.
///
/// `length` is the number of bytes of the frame, also where the room is too small for it (-6); else 0.
#[unsafe(no_mangle)]
pub extern "C" fn plumtree_next_send(
    slot: &mut Slot,
    alloc: Global,
    to: &mut Name,
    room: &mut [u8],
    length: &mut usize,
) -> i32
    ensures done { IsDone result
        → Both slot.old.held.value slot.new.held.value
        (λ old new. Sent old (name_of to.new) (take length.new room.new) new) }
    ensures none { IsNone result → Has slot.old.held.value (λ node. node.out.sends ≡ []) }
    ensures kept { (IsDone result → ⊥) → slot.new.held.value ≡ slot.old.held.value }
{
    *length = 0;
    let mut node = match slot.take::<Node>(alloc) {
        Ok(node) => node,
        Err(refusal) => return refusal.code(),
    };
    let answer = node.next_send(room, length);
    slot.put(node);
    let found = match answer {
        Ok(found) => found,
        Err(refusal) => return refusal.code(),
    };
    let Some(name) = found else {
        return NONE;
    };
    *to = name;
    DONE
}

/// Takes the first delivery that waits: `id` is the message's, and its payload is at the front of the room. 0: none
/// waits.
///
/// `length` is the number of bytes of the payload, also where the room is too small for it (-6); else 0.
#[unsafe(no_mangle)]
pub extern "C" fn plumtree_next_delivery(
    slot: &mut Slot,
    alloc: Global,
    id: &mut Id,
    room: &mut [u8],
    length: &mut usize,
) -> i32
    ensures done { IsDone result
        → Both slot.old.held.value slot.new.held.value
        (λ old new. Given old (id_of id.new) (take length.new room.new) new) }
    ensures none { IsNone result → Has slot.old.held.value (λ node. node.out.deliveries ≡ []) }
    ensures kept { (IsDone result → ⊥) → slot.new.held.value ≡ slot.old.held.value }
{
    *length = 0;
    let mut node = match slot.take::<Node>(alloc) {
        Ok(node) => node,
        Err(refusal) => return refusal.code(),
    };
    let answer = node.next_delivery(room, length);
    slot.put(node);
    let found = match answer {
        Ok(found) => found,
        Err(refusal) => return refusal.code(),
    };
    let Some(its) = found else {
        return NONE;
    };
    *id = its;
    DONE
}
