//! A node's turn while an event is processed. If memory is refused halfway, the draft is dropped.
ghost use Rattle.std.specs.Prelude.{◌≡◌, ◌+◌, ◌≤◌, [], ◌∷◌, OnOk, length, map, take};
ghost use Rattle.node_names.specs.Same.{has_name};
ghost use Rattle.views.specs.Names.{others};
ghost use Rattle.views.specs.Views.{has_room, is_settled};
ghost use Rattle.membership.specs.Blocks as block;
ghost use Rattle.membership.specs.Draft.{turn_of};

use crate::pick::pick;
use frames::{Body, BodyOf};
use node_names::{Dice, Listed, NodeName};
use std::alloc::{AllocError, Allocator, Global};
use views::Views;

/// The state of a node while it processes an event: its membership so far, and what the event has caused so far.
#[derive(Drop)]
pub(crate) struct Draft<A: Allocator = Global> {
    pub(crate) views: Views<A>,
    pub(crate) asked: Option<NodeName>,
    pub(crate) shuffled: Listed<NodeName, A>,
    pub(crate) sends: Listed<(NodeName, Body<A>), A>,
    pub(crate) downs: Listed<NodeName, A>,
    pub(crate) ups: Listed<NodeName, A>,
}

/// Returns whether `name` is the one that is asked.
pub(crate) fn is_asked(name: &NodeName, asked: &Option<NodeName>) -> bool
    ensures { result ≡ block.is_asked name.now asked.now }
{
    match asked {
        Some(other) => name == other,
        None => false,
    }
}

impl<A: Allocator + Copy> Draft<A> {
    /// Returns whether the active view has room for one more name.
    pub(crate) fn has_room(&self) -> bool
        ensures { result ≡ has_room self.now.views }
    {
        self.views.active().len() < usize::from(self.views.limits().active())
    }

    /// Returns whether `name` is active.
    pub(crate) fn is_active(&self, name: &NodeName) -> bool
        ensures { result ≡ has_name self.now.views.active name.now }
    {
        self.views.active().contains(name)
    }

    /// Returns whether `name` is the owner's or active.
    fn is_settled(&self, name: &NodeName) -> bool
        ensures { result ≡ is_settled self.now.views name.now }
    {
        *name == self.views.owner() || self.is_active(name)
    }

    /// Appends a message to the sends.
    pub(crate) fn send(&mut self, to: NodeName, body: Body<A>) -> Result<(), AllocError>
        ensures { OnOk result (turn_of self.new ≡ block.send to body (turn_of self.old)) }
    {
        self.sends.push((to, body))
    }

    /// Adds a name to the active view and reports it as up. A name that is dropped for it is sent DISCONNECT and
    /// reported as down. Does nothing for a name that is the owner's or active.
    pub(crate) fn admit(&mut self, name: NodeName, dice: &Dice) -> Result<(), AllocError>
        ensures { OnOk result (turn_of self.new ≡ block.admit dice.now name (turn_of self.old)) }
    {
        if self.is_settled(&name) {
            return Ok(());
        }
        if let Some(dropped) = self.views.add_active(name, dice)? {
            self.send(dropped, BodyOf::Disconnect)?;
            self.downs.push(dropped)?;
        }
        self.ups.push(name)
    }

    /// Admits a name to the active view as `admit` does, and sends it NEIGHBOR with high priority.
    pub(crate) fn welcome(&mut self, name: NodeName, dice: &Dice) -> Result<(), AllocError>
        ensures { OnOk result (turn_of self.new ≡ block.welcome dice.now name (turn_of self.old)) }
    {
        self.admit(name, dice)?;
        self.send(name, BodyOf::Neighbor { high: true })
    }

    /// Moves an active name to the passive view and reports it as down. Does nothing for a name that is not active.
    pub(crate) fn step_down(&mut self, name: NodeName, dice: &Dice) -> Result<(), AllocError>
        ensures { OnOk result (turn_of self.new ≡ block.step_down dice.now name (turn_of self.old)) }
    {
        if !self.is_active(&name) {
            return Ok(());
        }
        self.views.demote(name, dice)?;
        self.downs.push(name)
    }

    /// Closes the request to `name`, if one stands.
    pub(crate) fn close_request(&mut self, name: &NodeName)
        ensures { turn_of self.new ≡ block.close_request name.now (turn_of self.old) }
    {
        if is_asked(name, &self.asked) {
            self.asked = None;
        }
    }

    /// Sends NEIGHBOR to the passive name, other than those `excepted`, that word 2 chooses, with high priority if no
    /// name is active. Does nothing if the active view is full, if a request stands, or if there is no such name.
    pub(crate) fn promote(&mut self, excepted: &[NodeName], dice: &Dice) -> Result<(), AllocError>
        ensures { OnOk result (turn_of self.new ≡ block.promote dice.now excepted.now (turn_of self.old)) }
    {
        if !self.has_room() || self.asked.is_some() {
            return Ok(());
        }
        let Some(name) = pick(excepted, self.views.passive().as_slice(), dice.0[2]) else {
            return Ok(());
        };
        self.asked = Some(name);
        let high = self.views.active().is_empty();
        self.send(name, BodyOf::Neighbor { high })
    }
}
