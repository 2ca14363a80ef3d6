//! The two views as sets, without the invariant that they are sound.
ghost use Rattle.std.specs.Prelude.{◌≡◌, ◌<◌, ◌≤◌, ◌+◌, ◌^◌, OnOk, OnErr, IfOk, IsTrue, find, length, fold};
ghost use Rattle.indexmap.specs.IndexSet.{spare};
ghost use Rattle.node_names.specs.Same.{has_name};
ghost use Rattle.views.specs.Names.{chosen, evicted, word};
ghost use Rattle.views.specs.Sets.{views_of};
ghost use Rattle.views.specs.Views.{ArePeers, add_active, add_passive, clear_place, demote};
ghost use Rattle.views.specs.Views.{drop_active, dropped_for, evicted_for, forget, fresh, has_either};
ghost use Rattle.views.specs.Views.{integrate, integrate_one, is_settled, knows, make_room};

use crate::name_set::{chosen, make_room, put_last, take_chosen};
use indexmap::IndexSet;
use node_names::{Dice, Limits, NameSet, NodeName, set_of};
use std::alloc::{AllocError, Allocator, Global};

/// The two views of the owner.
#[derive(Drop)]
pub(crate) struct Sets<A: Allocator = Global> {
    pub(crate) owner: NodeName,
    pub(crate) limits: Limits,
    pub(crate) active: NameSet<A>,
    pub(crate) passive: NameSet<A>,
}

impl<A: Allocator + Copy> Sets<A> {
    /// Returns a copy of the sets.
    pub(crate) fn copy(&self) -> Result<Sets<A>, AllocError>
        ensures { IfOk result (λ copy. views_of copy ≡ views_of self.now) }
    {
        let alloc = *self.active.allocator();
        Ok(Sets {
            owner: self.owner,
            limits: self.limits,
            active: set_of(alloc, self.active.as_slice())?,
            passive: set_of(alloc, self.passive.as_slice())?,
        })
    }
}

impl<A: Allocator> Sets<A> {
    /// Returns whether `name` is the owner's, active or passive.
    pub(crate) fn knows(&self, name: &NodeName) -> bool
        ensures { result ≡ knows (views_of self.now) name.now }
    {
        *name == self.owner || self.active.contains(name) || self.passive.contains(name)
    }

    /// Returns whether `name` is the owner's or active.
    pub(crate) fn is_settled(&self, name: &NodeName) -> bool
        ensures { result ≡ is_settled (views_of self.now) name.now }
    {
        *name == self.owner || self.active.contains(name)
    }

    /// Reserves the memory for one more name in each view. The views stay the same, even if memory is refused.
    pub(crate) fn reserve(&mut self) -> Result<(), AllocError>
        ensures views { views_of self.new ≡ views_of self.old }
        ensures active { OnOk result (0 < spare self.new.active) }
        ensures passive { OnOk result (0 < spare self.new.passive) }
    {
        self.active.reserve(1)?;
        self.passive.reserve(1)?;
        Ok(())
    }

    /// Adds a name to the passive view, and returns the name that is evicted for it: if the view is full, the one that
    /// word 3 chooses. Does nothing for a name that is the owner's, active or passive.
    pub(crate) fn add_passive(&mut self, name: NodeName, dice: &Dice) -> Option<NodeName>
        requires { 0 < spare self.old.passive }
        ensures views { views_of self.new ≡ add_passive dice.now name (views_of self.old) }
        ensures evicted { result ≡ evicted_for dice.now name (views_of self.old) }
        ensures active { self.new.active ≡ self.old.active }
    {
        if self.knows(&name) {
            return None;
        }
        let evicted = make_room(&mut self.passive, self.limits.passive(), dice.0[3]);
        put_last(&mut self.passive, name);
        evicted
    }

    /// Moves an active name to the passive view. Returns whether `name` was active; if it was not, nothing changes.
    pub(crate) fn demote(&mut self, name: NodeName, dice: &Dice) -> bool
        requires { 0 < spare self.old.passive }
        ensures views { views_of self.new ≡ demote dice.now name (views_of self.old) }
        ensures active { result ≡ has_name self.old.active.keys name }
        ensures room { spare self.old.active ≤ spare self.new.active }
    {
        if !self.active.shift_remove(&name) {
            return false;
        }
        self.add_passive(name, dice);
        true
    }

    /// Demotes and returns the active name that word 0 chooses, or returns `None` if there is no active name.
    pub(crate) fn drop_active(&mut self, dice: &Dice) -> Option<NodeName>
        requires { 0 < spare self.old.passive }
        ensures views { views_of self.new ≡ drop_active dice.now (views_of self.old) }
        ensures name { result ≡ chosen (word dice.now 0) self.old.active.keys }
        ensures room { spare self.old.active ≤ spare self.new.active }
    {
        let name = chosen(&self.active, dice.0[0])?;
        self.demote(name, dice);
        Some(name)
    }

    /// Demotes and returns the active name that word 0 chooses if the active view is full. Otherwise returns `None`.
    fn make_active_room(&mut self, dice: &Dice) -> Option<NodeName>
        requires { 0 < spare self.old.passive }
        ensures views { views_of self.new ≡ make_room dice.now (views_of self.old) }
        ensures name { result ≡ evicted self.old.limits.active (word dice.now 0) self.old.active.keys }
        ensures room { spare self.old.active ≤ spare self.new.active }
    {
        if self.active.len() < usize::from(self.limits.active()) {
            return None;
        }
        self.drop_active(dice)
    }

    /// Adds a name to the active view, and returns the name that is demoted for it: if the view is full, the one that
    /// word 0 chooses. Removes `name` from the passive view. Does nothing for a name that is the owner's or active.
    pub(crate) fn add_active(&mut self, name: NodeName, dice: &Dice) -> Option<NodeName>
        requires active { 0 < spare self.old.active }
        requires passive { 0 < spare self.old.passive }
        ensures views { views_of self.new ≡ add_active dice.now name (views_of self.old) }
        ensures dropped { result ≡ dropped_for dice.now name (views_of self.old) }
    {
        if self.is_settled(&name) {
            return None;
        }
        self.passive.shift_remove(&name);
        let dropped = self.make_active_room(dice);
        put_last(&mut self.active, name);
        dropped
    }

    /// Removes a name from whichever view has it. Returns whether one had it.
    pub(crate) fn forget(&mut self, name: &NodeName) -> bool
        ensures views { views_of self.new ≡ forget name.now (views_of self.old) }
        ensures found { result ≡ has_either (views_of self.old) name.now }
    {
        let was_active = self.active.shift_remove(name);
        let was_passive = self.passive.shift_remove(name);
        was_active || was_passive
    }

    /// Returns the first of the `names` that is passive.
    fn first_passive(&self, names: &[NodeName]) -> Option<NodeName>
        ensures { result ≡ find (has_name self.now.passive.keys) names.now }
    {
        names
            .iter()
            .copied()
            .find(|name| self.passive.contains(name))
    }

    /// Removes one name from the passive view: the first of the `sent` names that is in it, or else the one that the
    /// next of the words 12 to 15 chooses. These words are used in turn, counted by `evictions`.
    fn clear_place(&mut self, sent: &[NodeName], dice: &Dice, evictions: &mut usize)
        requires { evictions.old + 1 < 2 ^ 64 }
        ensures cleared { record { views = views_of self.new; evictions = evictions.new }
            ≡ clear_place sent.now dice.now (record { views = views_of self.old; evictions = evictions.old }) }
        ensures counted { evictions.new ≤ evictions.old + 1 }
        ensures room { spare self.old.passive ≤ spare self.new.passive }
    {
        if let Some(gone) = self.first_passive(sent) {
            self.passive.shift_remove(&gone);
            return;
        }
        take_chosen(&mut self.passive, dice.0[12 + *evictions % 4]);
        *evictions += 1;
    }

    /// Adds a name to the passive view, and clears a place in it first if it is full. Does nothing for a name that is
    /// the owner's, active or passive.
    fn integrate_one(
        &mut self,
        sent: &[NodeName],
        dice: &Dice,
        evictions: &mut usize,
        name: &NodeName,
    )
        requires few { evictions.old + 1 < 2 ^ 64 }
        requires room { 0 < spare self.old.passive }
        ensures integrated { record { views = views_of self.new; evictions = evictions.new }
            ≡ integrate_one sent.now dice.now
            (record { views = views_of self.old; evictions = evictions.old }) name.now }
        ensures counted { evictions.new ≤ evictions.old + 1 }
        ensures room { spare self.old.passive ≤ spare self.new.passive + 1 }
    {
        if self.knows(name) {
            return;
        }
        if self.passive.len() >= usize::from(self.limits.passive()) {
            self.clear_place(sent, dice, evictions);
        }
        put_last(&mut self.passive, *name);
    }

    /// Adds each of the `names` that is neither the owner's nor in a view to the passive view, in order. If it is full,
    /// the `sent` names leave it first.
    pub(crate) fn integrate(&mut self, names: &[NodeName], sent: &[NodeName], dice: &Dice)
        requires { length names.now ≤ spare self.old.passive }
        ensures { views_of self.new ≡ integrate names.now sent.now dice.now (views_of self.old) }
    {
        let mut evictions = 0;
        for name in names {
            self.integrate_one(sent, dice, &mut evictions, name);
        }
    }

    /// Reserves the memory for `additional` more passive names. The views stay the same, even if memory is refused.
    pub(crate) fn reserve_passive(&mut self, additional: usize) -> Result<(), AllocError>
        ensures views { views_of self.new ≡ views_of self.old }
        ensures room { OnOk result (additional ≤ spare self.new.passive) }
    {
        self.passive.reserve(additional)
    }
}
