//! The two views of a node.
ghost use Rattle.std.specs.Prelude.{◌≡◌, ◌≤◌, [], ◌∷◌, OnOk, OnErr, IfOk, length, take};
ghost use Rattle.views.specs.Views.{AreSound, ArePeers, add_active, add_passive, demote, drop_active};
ghost use Rattle.views.specs.Views.{dropped_for, evicted_for, forget, fresh, has_either, integrate};
ghost use Rattle.node_names.specs.Same.{has_name};
ghost use Rattle.views.specs.Names.{chosen, others, sample, word};

use crate::sample::{others, sample};
use crate::sets::Sets;
use indexmap::IndexSet;
use node_names::{Dice, Limits, NameSet, NodeName, set_of};
use std::alloc::{AllocError, Allocator, Global};
use std::marker::Model;

/// The two views that a node, their owner, has of its group.
#[derive(Drop)]
pub struct Views<A: Allocator = Global> {
    sets: Sets<A>,
}

impl<A: Allocator> Model for Views<A> {
    ghost use Rattle.views.specs.Views.{Views as Plain, AreSound};
    ghost use Rattle.views.specs.Sets.{views_of};

    ghost Value = { Plain };

    ghost view = { λ v. views_of v.sets };

    ghost invariant = { λ v. AreSound (views_of v.sets) };
}

impl<A: Allocator + Copy> Views<A> {
    /// Creates the views of `owner` with the `peers` as active names, in order, and no passive names.
    pub fn new(
        alloc: A,
        owner: NodeName,
        limits: Limits,
        peers: &[NodeName],
    ) -> Result<Views<A>, AllocError>
        requires { ArePeers owner limits peers.now }
        ensures { IfOk result (λ views. views ≡ fresh owner limits peers.now) }
    {
        let _places = limits.active();
        let active = set_of(alloc, peers)?;
        let passive = IndexSet::new(alloc);
        Ok(Views {
            sets: Sets {
                owner,
                limits,
                active,
                passive,
            },
        })
    }

    /// Draws `count` active names other than `except` by the first `count` words, without replacement. Draws fewer if
    /// there are not enough.
    pub fn sample_active(
        &self,
        count: usize,
        except: NodeName,
        words: &[u64],
    ) -> Result<Vec<NodeName, A>, AllocError>
        requires { count ≤ length words.now }
        ensures { IfOk result
            (λ drawn. drawn.items ≡ sample (take count words.now) (others (except ∷ []) self.now.active)) }
    {
        let alloc = *self.sets.active.allocator();
        let candidates = others(alloc, &[except], self.sets.active.as_slice())?;
        sample(alloc, candidates, &words[..count])
    }

    /// Draws `count` passive names by the first `count` words, without replacement. Draws fewer if there are not
    /// enough.
    pub fn sample_passive(
        &self,
        count: usize,
        words: &[u64],
    ) -> Result<Vec<NodeName, A>, AllocError>
        requires { count ≤ length words.now }
        ensures { IfOk result (λ drawn. drawn.items ≡ sample (take count words.now) self.now.passive) }
    {
        let alloc = *self.sets.passive.allocator();
        let candidates = Vec::from_slice(alloc, self.sets.passive.as_slice())?;
        sample(alloc, candidates, &words[..count])
    }

    /// Returns a copy of the views.
    pub fn copy(&self) -> Result<Views<A>, AllocError>
        ensures { IfOk result (λ copy. copy ≡ self.now) }
    {
        Ok(Views {
            sets: self.sets.copy()?,
        })
    }
}

impl<A: Allocator> Views<A> {
    /// Returns the name of the node whose views these are.
    pub fn owner(&self) -> NodeName
        ensures value { result ≡ self.now.owner }
        ensures sound { AreSound self.now }
    {
        self.sets.owner
    }

    /// Returns the limits of the node.
    pub fn limits(&self) -> Limits
        ensures value { result ≡ self.now.limits }
        ensures sound { AreSound self.now }
    {
        self.sets.limits
    }

    /// Returns the active names, in the order in which they were added.
    pub fn active(&self) -> &NameSet<A>
        ensures names { result.now.keys ≡ self.now.active }
        ensures sound { AreSound self.now }
    {
        &self.sets.active
    }

    /// Returns the passive names, in the order in which they were added.
    pub fn passive(&self) -> &NameSet<A>
        ensures names { result.now.keys ≡ self.now.passive }
        ensures sound { AreSound self.now }
    {
        &self.sets.passive
    }

    /// Adds a name to the passive view, and returns the name that is evicted for it: if the view is full, the one that
    /// word 3 chooses. Does nothing for a name that is the owner's, active or passive. If memory is refused, nothing
    /// changes.
    pub fn add_passive(
        &mut self,
        name: NodeName,
        dice: &Dice,
    ) -> Result<Option<NodeName>, AllocError>
        ensures ok { OnOk result (self.new ≡ add_passive dice.now name self.old) }
        ensures evicted { IfOk result (λ evicted. evicted ≡ evicted_for dice.now name self.old) }
        ensures err { OnErr result (self.new ≡ self.old) }
    {
        self.sets.reserve()?;
        Ok(self.sets.add_passive(name, dice))
    }

    /// Moves an active name to the passive view, which evicts a name if it is full. Returns whether `name` was active;
    /// if it was not, or if memory is refused, nothing changes.
    pub fn demote(&mut self, name: NodeName, dice: &Dice) -> Result<bool, AllocError>
        ensures ok { OnOk result (self.new ≡ demote dice.now name self.old) }
        ensures found { IfOk result (λ found. found ≡ has_name self.old.active name) }
        ensures err { OnErr result (self.new ≡ self.old) }
    {
        self.sets.reserve()?;
        Ok(self.sets.demote(name, dice))
    }

    /// Demotes and returns the active name that word 0 chooses, or returns `None` if there is no active name. If memory
    /// is refused, nothing changes.
    pub fn drop_active(&mut self, dice: &Dice) -> Result<Option<NodeName>, AllocError>
        ensures ok { OnOk result (self.new ≡ drop_active dice.now self.old) }
        ensures dropped { IfOk result (λ dropped. dropped ≡ chosen (word dice.now 0) self.old.active) }
        ensures err { OnErr result (self.new ≡ self.old) }
    {
        self.sets.reserve()?;
        Ok(self.sets.drop_active(dice))
    }

    /// Adds a name to the active view, and returns the name that is demoted for it: if the view is full, the one that
    /// word 0 chooses. Removes `name` from the passive view. Does nothing for a name that is the owner's or active. If
    /// memory is refused, nothing changes.
    pub fn add_active(
        &mut self,
        name: NodeName,
        dice: &Dice,
    ) -> Result<Option<NodeName>, AllocError>
        ensures ok { OnOk result (self.new ≡ add_active dice.now name self.old) }
        ensures dropped { IfOk result (λ dropped. dropped ≡ dropped_for dice.now name self.old) }
        ensures err { OnErr result (self.new ≡ self.old) }
    {
        self.sets.reserve()?;
        Ok(self.sets.add_active(name, dice))
    }

    /// Removes a name from whichever view has it. Returns whether one had it.
    pub fn forget(&mut self, name: NodeName) -> bool
        ensures views { self.new ≡ forget name self.old }
        ensures found { result ≡ has_either self.old name }
    {
        self.sets.forget(&name)
    }

    /// Adds each of the `names` that is neither the owner's nor in a view to the passive view, in order. If the passive
    /// view is full, the first of the `sent` names that is in it leaves it, or else the one that the next of the words
    /// 12 to 15 chooses. If memory is refused, nothing changes.
    pub fn integrate(
        &mut self,
        names: &[NodeName],
        sent: &[NodeName],
        dice: &Dice,
    ) -> Result<(), AllocError>
        ensures ok { OnOk result (self.new ≡ integrate names.now sent.now dice.now self.old) }
        ensures err { OnErr result (self.new ≡ self.old) }
    {
        self.sets.reserve_passive(names.len())?;
        self.sets.integrate(names, sent, dice);
        Ok(())
    }
}
