//! The messages that were announced to a node and that it lacks.
ghost use Rattle.std.specs.Prelude.{◌≡◌, ◌+◌, ◌<◌, ◌≤◌, [], not, true, is_some, length, map};
ghost use Rattle.std.specs.Prelude.{vec_len, vec_capacity, if◌then◌else◌, IfOk, OnOk, OnErr};
ghost use Rattle.indexmap.specs.IndexMap.{spare};
ghost use Rattle.node_names.specs.Same.{has_id, has_name};
ghost use Rattle.node_names.specs.Slots.{somes};
ghost use Rattle.missing.specs.Missing.{IsSound, announced, announced_all, taken_first, got, without, without_all};
ghost use Rattle.missing.specs.Slots.{AreTimed, IsKept};
ghost use Rattle.missing.specs.Wants.{with_want, with_wants, first_want, without_first, without_id};
ghost use Rattle.missing.specs.Timers.{with_timer, with_timers, without_timer};

use crate::timers::{self, Timers};
use crate::wants::{self, Want, Wants};
use indexmap::{IndexMap, IndexSet};
use node_names::{MsgId, NodeName};
use std::alloc::{AllocError, Allocator, Global};
use std::marker::Model;

/// The announcements of messages that a node lacks, and the timers after which it asks for them.
///
/// Announcements keep the order in which they came, and timers the order in which they were armed. The timer of each
/// announced id is armed; a timer may outlive the announcements of its id.
///
/// Timers and announcements are looked up by hash. A call about an id looks at one place for each peer that has
/// announced something, and one about a peer at one for each armed id; no call looks at all announcements. What is
/// taken out leaves an empty slot behind, and the next announcement drops them where they outnumber what is left.
#[derive(Drop)]
pub struct Missing<A: Allocator = Global> {
    wants: Wants<A>,
    timers: Timers<A>,
}

impl<A: Allocator> Model for Missing<A> {
    ghost use Rattle.node_names.specs.Slots.{somes};
    ghost use Rattle.missing.specs.Missing.{Missing, IsSound};
    ghost use Rattle.missing.specs.Slots.{AreTimed, IsKept};

    ghost Value = { Missing };

    ghost view = { λ m. record { wants = somes m.wants.slots.items; timers = somes m.timers.slots.items } };

    ghost invariant = { λ m. IsSound (record { wants = somes m.wants.slots.items; timers = somes m.timers.slots.items })
        × IsKept m.wants.slots.items m.wants.places m.wants.peers.keys
        × AreTimed m.timers.slots.items m.timers.places m.timers.gone };
}

/// Whether most slots are empty, and enough of them to be worth a copy.
fn is_sparse<T>(slots: &[Option<T>], left: usize) -> bool {
    slots.len() > 64 && slots.len() / 2 > left
}

/// Appends an announcement, unless its peer has announced its id already, and arms the timer of its id. Does not
/// allocate. Returns whether the timer was newly armed.
fn put<A: Allocator + Copy>(wants: &mut Wants<A>, timers: &mut Timers<A>, entry: &Want) -> bool
    requires room { vec_len wants.old.slots < vec_capacity wants.old.slots }
    requires places { 0 < spare wants.old.places }
    requires timer_room { vec_len timers.old.slots < vec_capacity timers.old.slots }
    requires timer { 0 < spare timers.old.places }
    requires known { has_name wants.old.peers.keys entry.now.1 ≡ true }
    requires kept { IsKept wants.old.slots.items wants.old.places wants.old.peers.keys }
    requires timed { AreTimed timers.old.slots.items timers.old.places timers.old.gone }
    ensures new { result ≡ not (has_id (somes timers.old.slots.items) entry.now.0) }
    ensures wants { somes wants.new.slots.items
        ≡ with_want entry.now.0 entry.now.1 entry.now.2 (somes wants.old.slots.items) }
    ensures peers { wants.new.peers.keys ≡ wants.old.peers.keys }
    ensures kept { IsKept wants.new.slots.items wants.new.places wants.new.peers.keys }
    ensures timers { somes timers.new.slots.items ≡ with_timer entry.now.0 (somes timers.old.slots.items) }
    ensures timed { AreTimed timers.new.slots.items timers.new.places timers.new.gone }
    ensures len { vec_len wants.new.slots ≤ vec_len wants.old.slots + 1 }
    ensures capacity { vec_capacity wants.old.slots ≤ vec_capacity wants.new.slots }
    ensures places { spare wants.old.places ≤ spare wants.new.places + 1 }
    ensures timer_len { vec_len timers.new.slots ≤ vec_len timers.old.slots + 1 }
    ensures timer_capacity { vec_capacity timers.old.slots ≤ vec_capacity timers.new.slots }
    ensures spare { spare timers.old.places ≤ spare timers.new.places + 1 }
{
    wants::put(&mut wants.slots, &mut wants.places, entry);
    timers::arm(timers, &entry.0)
}

/// Appends the announcements of `entries` by `peer`, except those that are already there, and arms the timers of their
/// ids. Does not allocate.
fn put_all<A: Allocator + Copy>(
    wants: &mut Wants<A>,
    timers: &mut Timers<A>,
    peer: &NodeName,
    entries: &[(MsgId, u32)],
)
    requires room { vec_len wants.old.slots + length entries.now ≤ vec_capacity wants.old.slots }
    requires places { length entries.now ≤ spare wants.old.places }
    requires timer_room { vec_len timers.old.slots + length entries.now ≤ vec_capacity timers.old.slots }
    requires spare { length entries.now ≤ spare timers.old.places }
    requires known { has_name wants.old.peers.keys peer.now ≡ true }
    requires kept { IsKept wants.old.slots.items wants.old.places wants.old.peers.keys }
    requires timed { AreTimed timers.old.slots.items timers.old.places timers.old.gone }
    ensures wants { somes wants.new.slots.items ≡ with_wants peer.now entries.now (somes wants.old.slots.items) }
    ensures kept { IsKept wants.new.slots.items wants.new.places wants.new.peers.keys }
    ensures timers { somes timers.new.slots.items ≡ with_timers entries.now (somes timers.old.slots.items) }
    ensures timed { AreTimed timers.new.slots.items timers.new.places timers.new.gone }
{
    for entry in entries {
        put(wants, timers, &(entry.0, *peer, entry.1));
    }
}

/// Removes the first announcement of `id` and returns its peer and round. If there is no announcement of `id`, drops
/// its timer and returns `None`.
fn take_first<A: Allocator>(
    wants: &mut Wants<A>,
    timers: &mut Timers<A>,
    id: &MsgId,
) -> Option<(NodeName, u32)>
    requires sound { IsSound (record { wants = somes wants.old.slots.items; timers = somes timers.old.slots.items }) }
    requires kept { IsKept wants.old.slots.items wants.old.places wants.old.peers.keys }
    requires timed { AreTimed timers.old.slots.items timers.old.places timers.old.gone }
    ensures taken { result ≡ first_want id.now (somes wants.old.slots.items) }
    ensures wants { somes wants.new.slots.items ≡ without_first id.now (somes wants.old.slots.items) }
    ensures kept { IsKept wants.new.slots.items wants.new.places wants.new.peers.keys }
    ensures timers { somes timers.new.slots.items
        ≡ (if is_some (first_want id.now (somes wants.old.slots.items))
        then somes timers.old.slots.items
        else without_timer id.now (somes timers.old.slots.items)) }
    ensures timed { AreTimed timers.new.slots.items timers.new.places timers.new.gone }
{
    let first = wants::take_first(wants, id);
    if first.is_none() {
        timers::disarm(timers, id);
    }
    first
}

impl<A: Allocator + Copy> Missing<A> {
    /// Creates a value with no announcements and no armed timers. Does not allocate.
    pub fn new(alloc: A) -> Self
        ensures wants { result.wants ≡ [] }
        ensures timers { result.timers ≡ [] }
    {
        Missing {
            wants: Wants {
                slots: Vec::new(alloc),
                places: IndexMap::new(alloc),
                peers: IndexSet::new(alloc),
            },
            timers: Timers::new(alloc),
        }
    }

    /// Records that `peer` announced `id` at `round`, and arms the timer of `id`. Returns whether the timer was newly
    /// armed.
    ///
    /// A second announcement of the same id by the same peer is not kept, not even its round. If memory is refused,
    /// nothing changes.
    pub fn announce(&mut self, id: &MsgId, peer: &NodeName, round: u32) -> Result<bool, AllocError>
        ensures armed { IfOk result (λ armed. armed ≡ not (has_id self.old.timers id.now)) }
        ensures ok { OnOk result (self.new ≡ announced peer.now id.now round self.old) }
        ensures err { OnErr result (self.new ≡ self.old) }
    {
        self.tidy()?;
        self.wants.slots.reserve(1)?;
        self.wants.places.reserve(1)?;
        self.timers.slots.reserve(1)?;
        self.timers.places.reserve(1)?;
        self.wants.peers.insert(*peer)?;
        let entry = (*id, *peer, round);
        Ok(put(&mut self.wants, &mut self.timers, &entry))
    }

    /// Records each of the `entries`, an id and a round, as announced by `peer`, as `announce` does. If memory is
    /// refused, nothing changes.
    pub fn announce_all(
        &mut self,
        peer: &NodeName,
        entries: &[(MsgId, u32)],
    ) -> Result<(), AllocError>
        ensures ok { OnOk result (self.new ≡ announced_all peer.now entries.now self.old) }
        ensures err { OnErr result (self.new ≡ self.old) }
    {
        // A peer that announces nothing new is not noted either, so this takes no memory.
        if entries.is_empty() {
            return Ok(());
        }
        self.tidy()?;
        self.wants.slots.reserve(entries.len())?;
        self.wants.places.reserve(entries.len())?;
        self.timers.slots.reserve(entries.len())?;
        self.timers.places.reserve(entries.len())?;
        self.wants.peers.insert(*peer)?;
        put_all(&mut self.wants, &mut self.timers, peer, entries);
        Ok(())
    }

    /// Returns a copy of the announcements and timers, without the empty slots.
    pub fn copy(&self) -> Result<Self, AllocError>
        ensures { IfOk result (λ copy. copy ≡ self.now) }
    {
        Ok(Missing {
            wants: wants::copy(&self.wants)?,
            timers: timers::copy(&self.timers)?,
        })
    }

    /// Drops the empty slots, if they are many.
    fn tidy(&mut self) -> Result<(), AllocError>
        ensures { self.new ≡ self.old }
    {
        if is_sparse(&self.wants.slots, self.wants.places.len())
            || is_sparse(&self.timers.slots, self.timers.places.len())
        {
            *self = self.copy()?;
        }
        Ok(())
    }
}

impl<A: Allocator> Missing<A> {
    /// Removes the first announcement of `id` and returns its peer and round. If there is no announcement of `id`,
    /// drops its timer and returns `None`.
    pub fn take_first(&mut self, id: &MsgId) -> Option<(NodeName, u32)>
        ensures taken { result ≡ first_want id.now self.old.wants }
        ensures left { self.new ≡ taken_first id.now self.old }
    {
        take_first(&mut self.wants, &mut self.timers, id)
    }

    /// Removes the announcements and the timer of `id`, whose message has arrived.
    pub fn got(&mut self, id: &MsgId)
        ensures { self.new ≡ got id.now self.old }
    {
        wants::remove_id(&mut self.wants, id);
        timers::disarm(&mut self.timers, id);
    }

    /// Removes the announcements by `peer`, which went down. The timers stay.
    pub fn down(&mut self, peer: &NodeName)
        ensures { self.new ≡ without peer.now self.old }
    {
        wants::remove_peer(&mut self.wants, timers::slots(&self.timers), peer);
    }

    /// Removes the announcements by all of the `peers`, which went down. The timers stay.
    pub fn down_all(&mut self, peers: &[NodeName])
        ensures { self.new ≡ without_all peers.now self.old }
    {
        wants::remove_peers(&mut self.wants, timers::slots(&self.timers), peers);
    }

    /// Returns whether the timer of `id` is armed.
    pub fn armed(&self, id: &MsgId) -> bool
        ensures { result ≡ has_id self.now.timers id.now }
    {
        timers::is_armed(&self.timers, id)
    }

    /// Returns the peer and the round of the first announcement of `id`.
    pub fn first(&self, id: &MsgId) -> Option<(NodeName, u32)>
        ensures { result ≡ first_want id.now self.now.wants }
    {
        wants::first(&self.wants, id)
    }

    /// Returns the announcements, oldest first, and `None` where one was taken out.
    pub fn wants(&self) -> &[Option<Want>]
        ensures wants { somes result.now ≡ self.now.wants }
        ensures sound { IsSound self.now }
    {
        self.wants.slots.as_slice()
    }

    /// Returns the ids whose timers are armed, in order of arming, and `None` where one was disarmed.
    pub fn timers(&self) -> &[Option<MsgId>]
        ensures { somes result.now ≡ self.now.timers }
    {
        timers::slots(&self.timers)
    }
}
