//! The calls about connections over which bytes come to a node of bytes.
ghost use Rattle.std.specs.Prelude.{◌≡◌, ◌⊎◌};
ghost use Rattle.plumtree_c.specs.Answers.{IsDone};
ghost use Rattle.plumtree_c.specs.Plain.{dice_of};
ghost use Rattle.plumtree_c.specs.Slots.{BothBytes};
ghost use Rattle.plumtree_c.specs.Wire.{Accepts, Does, HearsAll, HearsSome};
ghost use Rattle.wire_node.specs.Node.{Closes};

use crate::refusal::DONE;
use crate::slot::Slot;
use crate::wire::Wire;
use node_names::Dice;
use std::alloc::Global;

/// Accepts a connection. `number` is then the connection's, which no other of the node ever has; else it is unchanged.
#[unsafe(no_mangle)]
pub extern "C" fn plumtree_wire_accept(slot: &mut Slot, alloc: Global, number: &mut u64) -> i32
    ensures done { IsDone result → BothBytes slot.old.held.value slot.new.held.value (Does (Accepts number.new)) }
    ensures kept { (IsDone result → ⊥) → slot.new.held.value ≡ slot.old.held.value }
    ensures number { (IsDone result → ⊥) → number.new ≡ number.old }
{
    let mut wire = match slot.take::<Wire>(alloc) {
        Ok(wire) => wire,
        Err(refusal) => return refusal.code(),
    };
    let answer = wire.accept();
    slot.put(wire);
    match answer {
        Ok(its) => {
            *number = its;
            DONE
        }
        Err(refusal) => refusal.code(),
    }
}

/// Takes all the bytes that came over a connection: each whole frame makes a step, and what is no whole frame is kept.
///
/// Where that is refused, the connection has ended, as `plumtree_wire_ended` ends it, unless the step of that was
/// refused too. -19: there is no such connection, and nothing has changed.
#[unsafe(no_mangle)]
pub extern "C" fn plumtree_wire_receive(
    slot: &mut Slot,
    alloc: Global,
    number: u64,
    bytes: &[u8],
    dice: &[u64; 16],
) -> i32
    ensures done { IsDone result
        → BothBytes slot.old.held.value slot.new.held.value (Does (HearsAll number bytes.now (dice_of dice.now))) }
    ensures over { (IsDone result → ⊥)
        → BothBytes slot.old.held.value slot.new.held.value (Does (HearsSome number bytes.now (dice_of dice.now)))
        ⊎ (slot.new.held.value ≡ slot.old.held.value) }
{
    let mut wire = match slot.take::<Wire>(alloc) {
        Ok(wire) => wire,
        Err(refusal) => return refusal.code(),
    };
    let answer = wire.receive(number, bytes, &Dice(*dice));
    slot.put(wire);
    match answer {
        Ok(()) => DONE,
        Err(refusal) => refusal.code(),
    }
}

/// Ends a connection, with what came over it and is no whole frame. Its peer goes down, unless it is down already or
/// has another connection. -19: there is no such connection.
#[unsafe(no_mangle)]
pub extern "C" fn plumtree_wire_ended(
    slot: &mut Slot,
    alloc: Global,
    number: u64,
    dice: &[u64; 16],
) -> i32
    ensures done { IsDone result
        → BothBytes slot.old.held.value slot.new.held.value
        (Does (λ old new. Closes old number (dice_of dice.now) new)) }
    ensures kept { (IsDone result → ⊥) → slot.new.held.value ≡ slot.old.held.value }
{
    let mut wire = match slot.take::<Wire>(alloc) {
        Ok(wire) => wire,
        Err(refusal) => return refusal.code(),
    };
    let answer = wire.ended(number, &Dice(*dice));
    slot.put(wire);
    match answer {
        Ok(()) => DONE,
        Err(refusal) => refusal.code(),
    }
}
