//! The calls that make a node step.
ghost use Rattle.std.specs.Prelude.{◌≡◌, ◌⊎◌, false, None, slice_get};
ghost use Rattle.node_names.specs.Same.{has_id};
ghost use Rattle.protocol.specs.declared.stimulus.StimulusOf.TheVariants as stimulus;
ghost use Rattle.plumtree_c.specs.Answers.{IsDone, IsNone};
ghost use Rattle.plumtree_c.specs.Plain.{dice_of, id_of};
ghost use Rattle.plumtree_c.specs.Slots.{Both, Has};
ghost use Rattle.plumtree_c.specs.State.{Broadcasts, FiresAt, Hears, IsCutShort, Steps, Ticks};
ghost use Rattle.wire_node.specs.Receiving.{IsPartial};

use crate::node::Node;
use crate::plain::Id;
use crate::refusal::{DONE, NONE, Refusal};
use crate::slot::Slot;
use node_names::{Dice, NodeName};
use std::alloc::Global;

/// Broadcasts a message, and delivers it to its own caller too. `number` is then the message's number among those of
/// this run, from 1 on; else it is unchanged.
///
/// Refused, in this order: -1, -4, -7, -5 for the copy of the payload, -8, -5.
#[unsafe(no_mangle)]
pub extern "C" fn plumtree_broadcast(
    slot: &mut Slot,
    alloc: Global,
    payload: &[u8],
    number: &mut u64,
) -> i32
    ensures done { IsDone result
        → Both slot.old.held.value slot.new.held.value (λ old new. Broadcasts old payload.now number.new new) }
    ensures kept { (IsDone result → ⊥) → slot.new.held.value ≡ slot.old.held.value }
    ensures number { (IsDone result → ⊥) → number.new ≡ number.old }
{
    let mut node = match slot.take::<Node>(alloc) {
        Ok(node) => node,
        Err(refusal) => return refusal.code(),
    };
    let answer = node.broadcast(payload);
    slot.put(node);
    match answer {
        Ok(its) => {
            *number = its;
            DONE
        }
        Err(refusal) => refusal.code(),
    }
}

/// Takes the frame at the front of the bytes, if it is whole. `taken` is then the number of its bytes, and else 0.
#[unsafe(no_mangle)]
pub extern "C" fn plumtree_receive(
    slot: &mut Slot,
    alloc: Global,
    bytes: &[u8],
    dice: &[u64; 16],
    taken: &mut usize,
) -> i32
    ensures done { IsDone result
        → Both slot.old.held.value slot.new.held.value
        (λ old new. Hears old bytes.now taken.new (dice_of dice.now) new) }
    ensures kept { (IsDone result → ⊥) → slot.new.held.value ≡ slot.old.held.value }
    ensures none_taken { (IsDone result → ⊥) → taken.new ≡ 0 }
    ensures none { IsNone result → IsPartial bytes.now }
{
    *taken = 0;
    let mut node = match slot.take::<Node>(alloc) {
        Ok(node) => node,
        Err(refusal) => return refusal.code(),
    };
    let answer = node.receive(bytes, &Dice(*dice));
    slot.put(node);
    let found = match answer {
        Ok(found) => found,
        Err(refusal) => return refusal.code(),
    };
    let Some(length) = found else {
        return NONE;
    };
    *taken = length;
    DONE
}

/// Sends all queued announcements.
#[unsafe(no_mangle)]
pub extern "C" fn plumtree_flush(slot: &mut Slot, alloc: Global) -> i32
    ensures done { IsDone result
        → Both slot.old.held.value slot.new.held.value (λ old new. Steps old stimulus.Flush new) }
    ensures kept { (IsDone result → ⊥) → slot.new.held.value ≡ slot.old.held.value }
{
    let mut node = match slot.take::<Node>(alloc) {
        Ok(node) => node,
        Err(refusal) => return refusal.code(),
    };
    let answer = node.flush();
    slot.put(node);
    match answer {
        Ok(()) => DONE,
        Err(refusal) => refusal.code(),
    }
}

/// Lets the timer of the id fire. 0: it is not armed.
#[unsafe(no_mangle)]
pub extern "C" fn plumtree_fire(slot: &mut Slot, alloc: Global, id: &Id) -> i32
    ensures done { IsDone result
        → Both slot.old.held.value slot.new.held.value (λ old new. Steps old (stimulus.Fire (id_of id.now)) new) }
    ensures none { IsNone result
        → Has slot.old.held.value (λ node. has_id node.core.gossip.missing.timers (id_of id.now) ≡ false) }
    ensures kept { (IsDone result → ⊥) → slot.new.held.value ≡ slot.old.held.value }
{
    let id = match id.read() {
        Ok(id) => id,
        Err(refusal) => return refusal.code(),
    };
    let mut node = match slot.take::<Node>(alloc) {
        Ok(node) => node,
        Err(refusal) => return refusal.code(),
    };
    if !node.is_armed(&id) {
        slot.put_back(node);
        return NONE;
    }
    let answer = node.fire(id);
    slot.put(node);
    match answer {
        Ok(()) => DONE,
        Err(refusal) => refusal.code(),
    }
}

/// Lets the timer at this place fire, from 0 on in the order in which the timers were armed. 0: there are fewer.
#[unsafe(no_mangle)]
pub extern "C" fn plumtree_fire_at(slot: &mut Slot, alloc: Global, place: usize) -> i32
    ensures done { IsDone result → Both slot.old.held.value slot.new.held.value (FiresAt place) }
    ensures none { IsNone result
        → Has slot.old.held.value (λ node. slice_get node.core.gossip.missing.timers place ≡ None) }
    ensures kept { (IsDone result → ⊥) → slot.new.held.value ≡ slot.old.held.value }
{
    let mut node = match slot.take::<Node>(alloc) {
        Ok(node) => node,
        Err(refusal) => return refusal.code(),
    };
    let Some(id) = node.timer(place) else {
        slot.put_back(node);
        return NONE;
    };
    let answer = node.fire(id);
    slot.put(node);
    match answer {
        Ok(()) => DONE,
        Err(refusal) => refusal.code(),
    }
}

/// Shuffles the passive view.
#[unsafe(no_mangle)]
pub extern "C" fn plumtree_shuffle(slot: &mut Slot, alloc: Global, dice: &[u64; 16]) -> i32
    ensures done { IsDone result
        → Both slot.old.held.value slot.new.held.value
        (λ old new. Steps old (stimulus.Shuffle (dice_of dice.now)) new) }
    ensures kept { (IsDone result → ⊥) → slot.new.held.value ≡ slot.old.held.value }
{
    let mut node = match slot.take::<Node>(alloc) {
        Ok(node) => node,
        Err(refusal) => return refusal.code(),
    };
    let answer = node.shuffle(&Dice(*dice));
    slot.put(node);
    match answer {
        Ok(()) => DONE,
        Err(refusal) => refusal.code(),
    }
}

/// Makes a tick: flushes, lets each timer fire that is armed, and at every tenth tick since the start shuffles.
///
/// If a step is refused, those before it are made, and the tick does not count: call again.
#[unsafe(no_mangle)]
pub extern "C" fn plumtree_tick(slot: &mut Slot, alloc: Global, dice: &[u64; 16]) -> i32
    ensures done { IsDone result
        → Both slot.old.held.value slot.new.held.value (λ old new. Ticks old (dice_of dice.now) new) }
    ensures over { (IsDone result → ⊥)
        → Both slot.old.held.value slot.new.held.value IsCutShort ⊎ (slot.new.held.value ≡ slot.old.held.value) }
{
    let mut node = match slot.take::<Node>(alloc) {
        Ok(node) => node,
        Err(refusal) => return refusal.code(),
    };
    let answer = node.tick(&Dice(*dice));
    slot.put(node);
    match answer {
        Ok(()) => DONE,
        Err(refusal) => refusal.code(),
    }
}

/// Tells the node that its link to the peer failed.
#[unsafe(no_mangle)]
pub extern "C" fn plumtree_link_down(
    slot: &mut Slot,
    alloc: Global,
    peer: &[u8],
    dice: &[u64; 16],
) -> i32
    ensures done { IsDone result
        → Both slot.old.held.value slot.new.held.value
        (λ old new. Steps old (stimulus.Down peer.now (dice_of dice.now)) new) }
    ensures kept { (IsDone result → ⊥) → slot.new.held.value ≡ slot.old.held.value }
{
    let peer = match NodeName::parse(peer) {
        Ok(peer) => peer,
        Err(_) => return Refusal::BadName.code(),
    };
    let mut node = match slot.take::<Node>(alloc) {
        Ok(node) => node,
        Err(refusal) => return refusal.code(),
    };
    let answer = node.link_down(peer, &Dice(*dice));
    slot.put(node);
    match answer {
        Ok(()) => DONE,
        Err(refusal) => refusal.code(),
    }
}

/// Has the node join by the contact, as at its start: JOIN goes there, unless the contact is the node itself or active.
#[unsafe(no_mangle)]
pub extern "C" fn plumtree_join(slot: &mut Slot, alloc: Global, contact: &[u8]) -> i32
    ensures done { IsDone result
        → Both slot.old.held.value slot.new.held.value (λ old new. Steps old (stimulus.Join contact.now) new) }
    ensures kept { (IsDone result → ⊥) → slot.new.held.value ≡ slot.old.held.value }
{
    let contact = match NodeName::parse(contact) {
        Ok(contact) => contact,
        Err(_) => return Refusal::BadName.code(),
    };
    let mut node = match slot.take::<Node>(alloc) {
        Ok(node) => node,
        Err(refusal) => return refusal.code(),
    };
    let answer = node.join(contact);
    slot.put(node);
    match answer {
        Ok(()) => DONE,
        Err(refusal) => refusal.code(),
    }
}
