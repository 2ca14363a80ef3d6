//! The ids whose timers are armed, in order of arming.
ghost use Rattle.std.specs.Prelude.{◌≡◌, ◌+◌, ◌<◌, ◌≤◌, [], not, is_some, length, vec_len, vec_capacity, IfOk, OnOk};
ghost use Rattle.std.specs.List.{IsDistinct};
ghost use Rattle.indexmap.specs.IndexMap.{spare};
ghost use Rattle.node_names.specs.Same.{same_id, has_id};
ghost use Rattle.node_names.specs.Slots.{somes};
ghost use Rattle.missing.specs.Slots.{AreGone, AreTimed};
ghost use Rattle.missing.specs.Timers.{with_timer, with_slot, without_timer};

use indexmap::IndexMap;
use node_names::MsgId;
use std::alloc::{AllocError, Allocator};
use std::hash::{BuildHasherDefault, FoldHasher};

/// The ids whose timers are armed, each with its place.
#[derive(Drop)]
pub(crate) struct Timers<A: Allocator> {
    /// The ids in order of arming, and `None` where one was disarmed.
    pub(crate) slots: Vec<Option<MsgId>, A>,
    /// Where each armed id stands.
    pub(crate) places: IndexMap<MsgId, usize, BuildHasherDefault<FoldHasher>, A>,
    /// How many slots at the front are known to be empty.
    pub(crate) gone: usize,
}

impl<A: Allocator + Copy> Timers<A> {
    /// Creates a value with no armed timers. Does not allocate.
    pub(crate) fn new(alloc: A) -> Self
        ensures timers { somes result.slots.items ≡ [] }
        ensures timed { AreTimed result.slots.items result.places result.gone }
    {
        Timers {
            slots: Vec::new(alloc),
            places: IndexMap::new(alloc),
            gone: 0,
        }
    }
}

/// Returns whether the timer of `id` is armed.
pub(crate) fn is_armed<A: Allocator>(timers: &Timers<A>, id: &MsgId) -> bool
    requires { AreTimed timers.now.slots.items timers.now.places timers.now.gone }
    ensures { result ≡ has_id (somes timers.now.slots.items) id.now }
{
    timers.places.contains_key(id)
}

/// Arms the timer of `id`, without allocating. Returns whether it was newly armed.
pub(crate) fn arm<A: Allocator + Copy>(timers: &mut Timers<A>, id: &MsgId) -> bool
    requires room { vec_len timers.old.slots < vec_capacity timers.old.slots }
    requires spare { 0 < spare timers.old.places }
    requires timed { AreTimed timers.old.slots.items timers.old.places timers.old.gone }
    ensures new { result ≡ not (has_id (somes timers.old.slots.items) id.now) }
    ensures timers { somes timers.new.slots.items ≡ with_timer id.now (somes timers.old.slots.items) }
    ensures timed { AreTimed timers.new.slots.items timers.new.places timers.new.gone }
    ensures len { vec_len timers.new.slots ≤ vec_len timers.old.slots + 1 }
    ensures capacity { vec_capacity timers.old.slots ≤ vec_capacity timers.new.slots }
    ensures left { spare timers.old.places ≤ spare timers.new.places + 1 }
{
    if timers.places.contains_key(id) {
        return false;
    }
    timers.places.insert(*id, timers.slots.len()).unwrap();
    timers.slots.push(Some(*id)).unwrap();
    true
}

/// Arms the timer of the id in the slot, if there is one.
fn arm_slot<A: Allocator + Copy>(
    timers: &mut Timers<A>,
    slot: &Option<MsgId>,
) -> Result<(), AllocError>
    requires timed { AreTimed timers.old.slots.items timers.old.places timers.old.gone }
    ensures timers { OnOk result (somes timers.new.slots.items ≡ with_slot slot.now (somes timers.old.slots.items)) }
    ensures timed { OnOk result (AreTimed timers.new.slots.items timers.new.places timers.new.gone) }
{
    if let Some(id) = slot {
        timers.slots.reserve(1)?;
        timers.places.reserve(1)?;
        arm(timers, id);
    }
    Ok(())
}

/// Returns a copy without the empty slots.
pub(crate) fn copy<A: Allocator + Copy>(timers: &Timers<A>) -> Result<Timers<A>, AllocError>
    requires distinct { IsDistinct same_id (somes timers.now.slots.items) }
    ensures timers { IfOk result (λ copy. somes copy.slots.items ≡ somes timers.now.slots.items) }
    ensures timed { IfOk result (λ copy. AreTimed copy.slots.items copy.places copy.gone) }
{
    let mut copy = Timers::new(*timers.slots.allocator());
    for slot in timers.slots.as_slice() {
        arm_slot(&mut copy, slot)?;
    }
    Ok(copy)
}

/// Returns the first place from `from` on whose slot is not empty, or else how many slots there are.
fn front(slots: &[Option<MsgId>], from: usize) -> usize
    requires { AreGone from slots.now }
    ensures { AreGone result slots.now }
{
    let mut at = from;
    while at < slots.len() && slots[at].is_none() {
        at += 1;
    }
    at
}

/// Returns the slots behind so many empty ones.
fn behind(slots: &[Option<MsgId>], gone: usize) -> &[Option<MsgId>]
    requires within { gone ≤ length slots.now }
    requires gone { AreGone gone slots.now }
    ensures { somes result.now ≡ somes slots.now }
{
    &slots[gone..]
}

/// Returns the slots without those at the front that are known to be empty.
pub(crate) fn slots<A: Allocator>(timers: &Timers<A>) -> &[Option<MsgId>]
    requires { AreGone timers.now.gone timers.now.slots.items }
    ensures { somes result.now ≡ somes timers.now.slots.items }
{
    behind(&timers.slots, timers.gone)
}

/// Drops the timer of `id`, if it is armed. The order of the other timers stays.
pub(crate) fn disarm<A: Allocator>(timers: &mut Timers<A>, id: &MsgId)
    requires timed { AreTimed timers.old.slots.items timers.old.places timers.old.gone }
    requires distinct { IsDistinct same_id (somes timers.old.slots.items) }
    ensures timers { somes timers.new.slots.items ≡ without_timer id.now (somes timers.old.slots.items) }
    ensures timed { AreTimed timers.new.slots.items timers.new.places timers.new.gone }
{
    if let Some(at) = timers.places.swap_remove(id) {
        timers.slots[at] = None;
        timers.gone = front(&timers.slots, timers.gone);
    }
}
