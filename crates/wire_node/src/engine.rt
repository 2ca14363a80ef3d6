//! The core of a node, with what its steps leave to be taken.
ghost use Rattle.std.specs.Prelude.{◌≡◌, List, ◌∷◌, [], ◌++◌, Some, IfErr, IfOk, OnErr, OnOk, length};
ghost use Rattle.node_names.specs.Same.{has_id};
ghost use Rattle.protocol.specs.Delivery.{Delivery as Given};
ghost use Rattle.node_core.specs.Plum.{plum_state};
ghost use Rattle.wire_node.specs.Moving.{Broadcasts, GoesAway, Moves};
ghost use Rattle.wire_node.specs.Node.{is_up};
ghost use Rattle.wire_node.specs.Refusing.{IsRefusal, refusal_of};
ghost use Rattle.wire_node.specs.Waiting.{settled_for};

use crate::downs::{relieve, take_down};
use crate::drafts::Entry;
use crate::idle::waiting_for;
use crate::step::{Record, make_step};
use bytes::Bytes;
use frames::Frame;
use node_core::{PlumCore, Telling, armed_ids};
use node_names::{Dice, Listed, MsgId, NodeName};
use protocol::{Core, CoreError, Delivery, Stimulus, StimulusOf};
use std::alloc::{AllocError, Allocator};
use std::marker::Model;

/// A core, and what its steps leave to be taken: bytes by the name that they go to, deliveries, what is noted, news of
/// the active view, and names that are down. They are one struct, so that the functions above it cost little to prove.
#[derive(Drop)]
pub(crate) struct Engine<A: Allocator, R: Record<A> + Drop> {
    pub(crate) core: PlumCore<A>,
    pub(crate) entries: Vec<Entry<A>, A>,
    pub(crate) pending: Listed<Delivery<A>, A>,
    pub(crate) record: R,
    pub(crate) telling: Telling<A>,
    /// The names for whom bytes were dropped.
    pub(crate) lost: Listed<NodeName, A>,
    /// How many bytes may wait for a name.
    pub(crate) limit: usize,
    /// Whether after the last step a name for whom too much waited could not go down: the step of that was refused.
    pub(crate) is_behind: bool,
    /// How many names it may keep bytes for before it looks for those for whom nothing waits.
    pub(crate) names: usize,
}

impl<A: Allocator, R: Record<A> + Drop> Model for Engine<A, R> {
    ghost use Rattle.wire_node.specs.Acting.{AreSettled, machine};
    ghost use Rattle.wire_node.specs.Moving.{Engine};
    ghost use Rattle.std.specs.FinSet as set;
    ghost use Rattle.std.specs.Coded.{codes};
    ghost use Rattle.node_names.specs.Order.{id_cmp};
    ghost use Rattle.node_names.specs.contracts.ids.MsgId as id;

    ghost Value = { Engine };

    ghost coded = { Prim.hlevel (codes, set.code {R = id_cmp} id.the_row.coded) };

    ghost view = { λ e. record {
      machine = machine e.core e.entries.items e.pending (R.noted e.record) e.telling;
      lost = e.lost;
      limit = e.limit;
      is_behind = e.is_behind;
    } };

    ghost invariant = { λ e. AreSettled e.entries.items };
}

/// The id of the last delivery. A core shows no count, so the id of a broadcast is read off here, before any name goes
/// down.
#[tactic(auto, using(crate::proofs::Lasts::last_of))]
fn last_id<A: Allocator>(pending: &Listed<Delivery<A>, A>) -> Option<MsgId>
    ensures { (before : List Given) (last : Given) → pending.now ≡ before ++ last ∷ [] → result ≡ Some last.id }
{
    match pending.as_slice().last() {
        Some(delivery) => Some(delivery.id),
        None => None,
    }
}

impl<A: Allocator + Copy, R: Record<A> + Drop> Engine<A, R> {
    /// The allocator of all that it keeps.
    pub(crate) fn alloc(&self) -> A {
        *self.entries.allocator()
    }

    /// The core, to be read.
    pub(crate) fn core(&self) -> &PlumCore<A>
        ensures { result.now ≡ self.now.machine.core }
    {
        &self.core
    }

    /// What notes the steps, to be read.
    pub(crate) fn record(&self) -> &R
        ensures { R.noted result.now ≡ self.now.machine.noted }
    {
        &self.record
    }

    /// Whether after the last step a name for whom too much waited could not go down.
    pub(crate) fn is_behind(&self) -> bool
        ensures { result ≡ self.now.is_behind }
    {
        self.is_behind
    }

    /// Whether the timer of the id is armed.
    pub(crate) fn is_armed(&self, id: &MsgId) -> bool
        ensures { result ≡ has_id self.now.machine.core.gossip.missing.timers id.now }
    {
        self.core.is_armed(id)
    }

    /// Whether the message came.
    pub(crate) fn has(&self, id: &MsgId) -> bool
        ensures { result ≡ (plum_state self.now.machine.core).has id.now }
    {
        self.core.has(id)
    }

    /// The ids whose timers are armed.
    pub(crate) fn armed(&self) -> Result<Vec<MsgId, A>, AllocError>
        ensures { IfOk result (λ ids. ids.items ≡ self.now.machine.core.gossip.missing.timers) }
    {
        armed_ids(self.alloc(), self.core.timers())
    }

    /// How many bytes wait for the name.
    pub(crate) fn waiting(&self, name: &NodeName) -> usize
        ensures { result ≡ length (settled_for self.now.machine.waiting name.now) }
    {
        waiting_for(&self.entries, name)
    }

    /// Whether the name is one that may go down: the core keeps a link to it, or bytes wait for it.
    pub(crate) fn is_up(&self, name: &NodeName) -> bool
        ensures { result ≡ is_up self.now name.now }
    {
        self.core.active().contains(name) || waiting_for(&self.entries, name) > 0
    }

    /// Makes a step, and then takes the names down for whom too much waits. If the step is refused, nothing changes.
    /// Names are looked at after each step, so that a call that brings many frames lets no more wait than the limit and
    /// the frames of one step.
    pub(crate) fn step(
        &mut self,
        stimulus: &Stimulus<Frame<A>, A>,
        dice: &Dice,
    ) -> Result<(), CoreError>
        ensures ok { OnOk result (Moves self.old stimulus.now dice.now self.new) }
        ensures err { OnErr result (self.new ≡ self.old) }
        ensures why { IfErr result (λ e. IsRefusal self.old.machine.core stimulus.now (refusal_of e)) }
    {
        make_step(
            &mut self.core,
            &mut self.entries,
            &mut self.pending,
            &mut self.record,
            &mut self.telling,
            stimulus,
        )?;
        let is_behind = relieve(
            &mut self.core,
            &mut self.entries,
            &mut self.pending,
            &mut self.record,
            &mut self.telling,
            &mut self.lost,
            self.limit,
            dice,
        );
        self.is_behind = is_behind;
        Ok(())
    }

    /// Broadcasts a message, takes the names down for whom too much waits then, and returns the message's id. If the
    /// step is refused, nothing changes.
    pub(crate) fn broadcast(&mut self, payload: Bytes<A>) -> Result<MsgId, CoreError>
        ensures ok { IfOk result (λ id. Broadcasts self.old payload id self.new) }
        ensures err { OnErr result (self.new ≡ self.old) }
        ensures why { IfErr result
            (λ e. IsRefusal self.old.machine.core (StimulusOf.Broadcast payload) (refusal_of e)) }
    {
        make_step(
            &mut self.core,
            &mut self.entries,
            &mut self.pending,
            &mut self.record,
            &mut self.telling,
            &StimulusOf::Broadcast(payload),
        )?;
        let Some(id) = last_id(&self.pending) else {
            unreachable!()
        };
        let is_behind = relieve(
            &mut self.core,
            &mut self.entries,
            &mut self.pending,
            &mut self.record,
            &mut self.telling,
            &mut self.lost,
            self.limit,
            &Dice::ZEROS,
        );
        self.is_behind = is_behind;
        Ok(id)
    }

    /// Tells the core that the name is down, and drops what waits for it. If the step is refused, nothing changes.
    pub(crate) fn take_down(&mut self, name: NodeName, dice: &Dice) -> Result<(), CoreError>
        ensures ok { OnOk result (GoesAway self.old name dice.now self.new) }
        ensures err { OnErr result (self.new ≡ self.old) }
        ensures why { IfErr result
            (λ e. IsRefusal self.old.machine.core (StimulusOf.Down name dice.now) (refusal_of e)) }
    {
        take_down(
            &mut self.core,
            &mut self.entries,
            &mut self.pending,
            &mut self.record,
            &mut self.telling,
            &mut self.lost,
            name,
            dice,
        )?;
        Ok(())
    }
}
