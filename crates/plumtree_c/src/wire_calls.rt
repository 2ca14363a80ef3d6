//! The calls that make a node of bytes step, but for those of its connections.
ghost use Rattle.std.specs.Prelude.{◌≡◌, ◌⊎◌};
ghost use Rattle.plumtree_c.specs.Answers.{IsDone};
ghost use Rattle.plumtree_c.specs.Plain.{dice_of};
ghost use Rattle.plumtree_c.specs.Slots.{BothBytes};
ghost use Rattle.plumtree_c.specs.Wire.{Does, Joins, Leaves, Sends, TicksInPart};
ghost use Rattle.wire_node.specs.Node.{Ticks};

use crate::refusal::{DONE, Refusal};
use crate::slot::Slot;
use crate::wire::Wire;
use node_names::{Dice, NodeName};
use std::alloc::Global;

/// Broadcasts a message, and delivers it to its own caller too. `number` is then the message's number among those of
/// this run, from 1 on; else it is unchanged.
#[unsafe(no_mangle)]
pub extern "C" fn plumtree_wire_broadcast(
    slot: &mut Slot,
    alloc: Global,
    payload: &[u8],
    number: &mut u64,
) -> i32
    ensures done { IsDone result
        → BothBytes slot.old.held.value slot.new.held.value (Does (Sends payload.now number.new)) }
    ensures kept { (IsDone result → ⊥) → slot.new.held.value ≡ slot.old.held.value }
    ensures number { (IsDone result → ⊥) → number.new ≡ number.old }
{
    let mut wire = match slot.take::<Wire>(alloc) {
        Ok(wire) => wire,
        Err(refusal) => return refusal.code(),
    };
    let answer = wire.broadcast(alloc, payload);
    slot.put(wire);
    match answer {
        Ok(its) => {
            *number = its;
            DONE
        }
        Err(refusal) => refusal.code(),
    }
}

/// Tells the node that the name cannot be reached: what waits for it is dropped.
#[unsafe(no_mangle)]
pub extern "C" fn plumtree_wire_unreachable(
    slot: &mut Slot,
    alloc: Global,
    name: &[u8],
    dice: &[u64; 16],
) -> i32
    ensures done { IsDone result
        → BothBytes slot.old.held.value slot.new.held.value (Does (Leaves name.now (dice_of dice.now))) }
    ensures kept { (IsDone result → ⊥) → slot.new.held.value ≡ slot.old.held.value }
{
    let name = match NodeName::parse(name) {
        Ok(name) => name,
        Err(_) => return Refusal::BadName.code(),
    };
    let mut wire = match slot.take::<Wire>(alloc) {
        Ok(wire) => wire,
        Err(refusal) => return refusal.code(),
    };
    let answer = wire.unreachable(name, &Dice(*dice));
    slot.put(wire);
    match answer {
        Ok(()) => DONE,
        Err(refusal) => refusal.code(),
    }
}

/// Has the node join by the contact, as at its start: JOIN waits to go there, unless the contact is the node itself or
/// active.
#[unsafe(no_mangle)]
pub extern "C" fn plumtree_wire_join(
    slot: &mut Slot,
    alloc: Global,
    contact: &[u8],
    dice: &[u64; 16],
) -> i32
    ensures done { IsDone result
        → BothBytes slot.old.held.value slot.new.held.value (Does (Joins contact.now (dice_of dice.now))) }
    ensures kept { (IsDone result → ⊥) → slot.new.held.value ≡ slot.old.held.value }
{
    let contact = match NodeName::parse(contact) {
        Ok(contact) => contact,
        Err(_) => return Refusal::BadName.code(),
    };
    let mut wire = match slot.take::<Wire>(alloc) {
        Ok(wire) => wire,
        Err(refusal) => return refusal.code(),
    };
    let answer = wire.join(contact, &Dice(*dice));
    slot.put(wire);
    match answer {
        Ok(()) => DONE,
        Err(refusal) => refusal.code(),
    }
}

/// Makes a tick: flushes, at every fifth tick since the start asks for each message that was announced before the fifth
/// tick before and did not come, for 128 at once at most and for others as these come, and at every tenth shuffles.
///
/// If a step is refused, those before it are made, and the tick does not count: call again.
#[unsafe(no_mangle)]
pub extern "C" fn plumtree_wire_tick(slot: &mut Slot, alloc: Global, dice: &[u64; 16]) -> i32
    ensures done { IsDone result
        → BothBytes slot.old.held.value slot.new.held.value (Does (λ old new. Ticks old (dice_of dice.now) new)) }
    ensures over { (IsDone result → ⊥)
        → BothBytes slot.old.held.value slot.new.held.value (Does (TicksInPart (dice_of dice.now)))
        ⊎ (slot.new.held.value ≡ slot.old.held.value) }
{
    let mut wire = match slot.take::<Wire>(alloc) {
        Ok(wire) => wire,
        Err(refusal) => return refusal.code(),
    };
    let answer = wire.tick(&Dice(*dice));
    slot.put(wire);
    match answer {
        Ok(()) => DONE,
        Err(refusal) => refusal.code(),
    }
}
