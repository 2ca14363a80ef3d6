//! By whom a node without neighbours joins again, and when.
ghost use Rattle.std.specs.Prelude.{◌≡◌, ◌≤◌, ◌<◌, ◌+◌, ◌*◌, ◌^◌, ◌↔◌, Contains, IfSome, IsSome, IsTrue};
ghost use Rattle.std.specs.Prelude.{IsSomeAnd, None, [], OnErr, OnOk, Some, false, length, slice_get};
ghost use Rattle.node_core.specs.Rejoining.{BeginsPause, IsDue, turn_after};
ghost use Rattle.node_core.specs.declared.rejoining.TheConstants.{FIRST};

use node_names::NodeName;
use rand_core::Rng;
use std::alloc::{AllocError, Allocator};
use std::marker::Model;

/// How many ticks the first pause takes at most.
pub const FIRST: u64 = 4;

/// How many ticks a pause takes at most.
pub const LONGEST: u64 = 256;

/// Draws how many ticks a pause takes that may take `longest`: at least half of them.
fn draw_pause<G: Rng>(longest: u64, generator: &mut G) -> u64
    requires { longest < 2 ^ 63 }
    ensures most { result ≤ longest }
    ensures least { longest ≤ 2 * result + 1 }
{
    let half = longest / 2;
    half + generator.next_u64() % (longest - half + 1)
}

/// The place of the contact whose turn is after this one's.
fn turn_after(count: usize, place: usize) -> usize
    requires { place < count }
    ensures { result ≡ turn_after count place }
{
    if place + 1 < count { place + 1 } else { 0 }
}

/// By whom a node joins again while its active view is empty, and when: by its contacts in turn, with pauses that grow.
///
/// A pause is drawn from half of the longest that it may take up to all of that, which doubles from pause to pause. So
/// nodes that lost the others together do not come back all at once, and a contact that stays away costs little.
#[derive(Drop)]
pub struct Rejoining<A: Allocator> {
    contacts: Vec<NodeName, A>,
    /// The place of the contact whose turn is next.
    next: usize,
    /// The longest that the next pause may take.
    pause: u64,
    /// When the node joins next, if it was alone when that was asked last.
    due: Option<u64>,
}

impl<A: Allocator> Model for Rejoining<A> {
    ghost use Rattle.std.specs.Prelude.{◌≡◌, ◌⊎◌, ◌<◌, ◌≤◌, length};
    ghost use Rattle.node_core.specs.Rejoining.{Rejoining};

    ghost Value = { Rejoining };

    ghost view = { λ r. record { contacts = r.contacts.items; next = r.next; pause = r.pause; due = r.due } };

    // A turn is a contact's, or the first, where there is none.
    ghost invariant = { λ r. (r.pause ≤ 256) × ((r.next ≡ 0) ⊎ (r.next < length r.contacts.items)) };
}

impl<A: Allocator + Copy> Rejoining<A> {
    /// Has no contacts, so that a node that is alone stays so.
    pub fn new(alloc: A) -> Rejoining<A>
        ensures { result ≡ record { contacts = []; next = 0; pause = FIRST; due = None } }
    {
        Rejoining {
            contacts: Vec::new(alloc),
            next: 0,
            pause: FIRST,
            due: None,
        }
    }

    /// Sets the contacts, of which the first is next. If memory is refused, nothing changes.
    pub fn set_contacts(&mut self, contacts: &[NodeName]) -> Result<(), AllocError>
        ensures ok { OnOk result (self.new ≡ record self.old { contacts = contacts.now; next = 0 }) }
        ensures err { OnErr result (self.new ≡ self.old) }
    {
        let contacts = Vec::from_slice(*self.contacts.allocator(), contacts)?;
        self.contacts = contacts;
        self.next = 0;
        Ok(())
    }

    /// By whom the node joins at this tick, if it does: asked at each tick, with whether the node has no neighbour.
    ///
    /// The first time that it is alone it begins a pause, and it begins another each time that it joins.
    pub fn due<G: Rng>(&mut self, now: u64, is_alone: bool, generator: &mut G) -> Option<NodeName>
        ensures when { IsSome result ↔ IsDue now is_alone self.old }
        ensures whom { IfSome result (λ name. slice_get self.old.contacts self.old.next ≡ Some name) }
        ensures turn { IsSome result → self.new.next ≡ turn_after (length self.old.contacts) self.old.next }
        ensures pauses { IsSome result → BeginsPause now self.old self.new }
        ensures first { IsTrue is_alone → ¬ (self.old.contacts ≡ []) → self.old.due ≡ None
            → BeginsPause now self.old self.new }
        ensures waits { IsTrue is_alone → ¬ (self.old.contacts ≡ []) → IsSomeAnd self.old.due (λ at. now < at)
            → self.new ≡ self.old }
        ensures contact { IfSome result (λ name. Contains self.old.contacts name) }
        ensures alone { IsSome result → IsTrue is_alone }
        ensures due { IsSome result → IsSomeAnd self.old.due (λ at. at ≤ now) }
        ensures anew { is_alone ≡ false → (self.new.due ≡ None) × (self.new.pause ≡ FIRST) }
        ensures contacts { self.new.contacts ≡ self.old.contacts }
    {
        if !is_alone || self.contacts.is_empty() {
            self.pause = FIRST;
            self.due = None;
            return None;
        }
        match self.due {
            Some(due) if due > now => None,
            Some(_) => {
                self.begin_pause(now, generator);
                self.next_contact()
            }
            None => {
                self.begin_pause(now, generator);
                None
            }
        }
    }

    /// Begins a pause, and has the next one be longer.
    fn begin_pause<G: Rng>(&mut self, now: u64, generator: &mut G)
        ensures pause { BeginsPause now self.old self.new }
        ensures contacts { self.new.contacts ≡ self.old.contacts }
        ensures next { self.new.next ≡ self.old.next }
    {
        let ticks = draw_pause(self.pause, generator);
        self.due = Some(now.saturating_add(ticks));
        self.pause = self.pause.saturating_mul(2).min(LONGEST);
    }

    /// The contact whose turn it is, if there is one; the turn is the next one's then.
    fn next_contact(&mut self) -> Option<NodeName>
        ensures whom { result ≡ slice_get self.old.contacts self.old.next }
        ensures turn { IsSome result
            → self.new ≡ record self.old { next = turn_after (length self.old.contacts) self.old.next } }
        ensures stays { result ≡ None → self.new ≡ self.old }
    {
        let contact = *self.contacts.get(self.next)?;
        self.next = turn_after(self.contacts.len(), self.next);
        Some(contact)
    }
}
