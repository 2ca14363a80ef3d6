//! The planning of what an event will do to a group, by its kind.
ghost use Rattle.std.specs.Prelude.{◌≡◌, ◌⊎◌, [], false, Some, None, IfOk, IfErr, OnOk, length};
ghost use Rattle.protocol.specs.IdentityLaw.{IsTooLong};
ghost use Rattle.protocol.specs.Stimulus.{lent};
ghost use Rattle.world.specs.Group.{node_of};
ghost use Rattle.world.specs.Plan.{IsPlan, IsReady, RunsAt, planned, staying, stimulus_by};
ghost use Rattle.world.specs.Refusals.{IsRefusal, absent, refusal, stale};
ghost use Rattle.world.specs.Run.{Acts};

use crate::entry::Entry;
use crate::error::WorldError;
use crate::event::{Event, EventOf};
use crate::lookup::{Running, find_running, node_of, number_at, packet_at};
use crate::node_state::NodeState;
use crate::plan::{Change, Plan, boxed, keep_event, packets_of, prepare_step, start_core};
use crate::world::World;
use bytes::Bytes;
use node_names::{Dice, Incarnation, Listed, MsgId, NodeName, Origin};
use protocol::{Core, MAX_PAYLOAD, StimulusOf, StimulusRef, are_peers};
use std::alloc::{AllocError, Allocator};

impl<C: Core<A>, A: Allocator + Copy> World<C, A> {
    /// Plans an event. The group does not change.
    pub(crate) fn plan(&self, event: &Event<A>) -> Result<Plan<C, A>, WorldError>
        ensures plan { IfOk result (IsPlan C.state C.starts C.steps C.after C.is_turn self.now event.now) }
        ensures refused { IfErr result (IsRefusal C.is_spent self.now.limits self.now.group event.now) }
        ensures accepted { OnOk result (refusal self.now.limits self.now.group event.now ≡ None) }
    {
        match event {
            EventOf::Start {
                name,
                incarnation,
                peers,
                contact,
            } => self.plan_start(name, incarnation, peers, contact, event),
            EventOf::Broadcast { name, payload } => self.plan_broadcast(name, payload, event),
            EventOf::Arrive { place, dice } => self.plan_arrive(*place, dice, event),
            EventOf::Lose { place } => self.plan_lose(*place, event),
            EventOf::Again { number } => self.plan_again(*number, event),
            EventOf::Fire { name, id } => self.plan_fire(name, id, event),
            EventOf::Flush { name } => self.plan_flush(name, event),
            EventOf::Down { name, peer, dice } => self.plan_down(name, peer, dice, event),
            EventOf::Shuffle { name, dice } => self.plan_shuffle(name, dice, event),
            EventOf::Join { name, contact } => self.plan_join(name, contact, event),
            EventOf::Stop { name } => self.plan_stop(name, event),
        }
    }

    /// Rejects an origin whose incarnation does not exceed that of its name's last start.
    fn is_fresh(&self, me: &Origin) -> Result<(), WorldError>
        ensures ok { OnOk result (stale (node_of me.now.name self.now.group.nodes) me.now.incarnation ≡ None) }
        ensures stale { IfErr result
            (λ e. stale (node_of me.now.name self.now.group.nodes) me.now.incarnation ≡ Some e) }
    {
        match node_of(&self.names, &self.nodes, &me.name) {
            Some(node) if node.highest >= me.incarnation => Err(WorldError::StaleIncarnation {
                highest: node.highest,
            }),
            _ => Ok(()),
        }
    }

    /// Returns the node that runs under the name. Fails with `UnknownNode` or `NotRunning` if none does.
    fn find_running(&self, name: &NodeName) -> Result<Running<'_, C>, WorldError>
        ensures found { IfOk result
            (λ found. RunsAt name.now self.now.group.nodes found.at found.node.now found.core.now) }
        ensures absent { IfErr result (λ e. absent (node_of name.now self.now.group.nodes) ≡ Some e) }
    {
        find_running(&self.names, &self.nodes, name)
    }

    /// Plans a step of the core of the running node `found`.
    fn plan_step(
        &self,
        name: &NodeName,
        found: &Running<'_, C>,
        stimulus: &StimulusRef<'_, C::Note, A>,
        event: &Event<A>,
        packet: Option<usize>,
        leaving: Option<usize>,
    ) -> Result<Plan<C, A>, WorldError>
        requires found { RunsAt name.now self.now.group.nodes found.now.at found.now.node.now found.now.core.now }
        requires told { stimulus_by self.now.group.sent event.now packet ≡ Some (lent stimulus.now) }
        requires fits { IsTooLong (lent stimulus.now) → ⊥ }
        ensures event { IfOk result (λ plan. plan.entry.event ≡ event.now) }
        ensures packet { IfOk result (λ plan. plan.entry.packet ≡ packet) }
        ensures first_sent { IfOk result (λ plan. plan.entry.first_sent ≡ length self.now.group.sent) }
        ensures leaving { IfOk result (λ plan. plan.leaving ≡ leaving) }
        ensures acts { IfOk result (λ plan. Acts C.state C.steps self.now.group
            (staying self.now.group.flight leaving)
            name.now
            (lent stimulus.now)
            plan.entry
            (planned C.after self.now.group plan.entry plan.change plan.packets.items plan.leaving plan.again)) }
        ensures ready { IfOk result
            (λ plan. IsReady C.is_turn self.now.group.nodes self.now.group.sent plan.entry plan.change) }
        ensures refused { IfErr result (λ e. (e ≡ WorldError.OutOfMemory)
            ⊎ ((e ≡ WorldError.SeqSpent) × C.is_spent found.now.core.now (lent stimulus.now))) }
    {
        let alloc = self.allocator();
        let sender = Origin {
            name: found.node.name,
            incarnation: found.node.highest,
        };
        let step = prepare_step(alloc, found.core, stimulus)?;
        let packets = packets_of(alloc, &sender, step.sends)?;
        Ok(Plan {
            change: Change::Step {
                at: found.at,
                turn: step.turn,
            },
            packets,
            leaving,
            again: None,
            entry: Entry {
                event: keep_event(self.allocator(), event)?,
                packet,
                first_sent: self.sent().len(),
                moved: step.moved,
                given: Listed::from_vec(step.given),
            },
        })
    }

    /// Plans a start.
    fn plan_start(
        &self,
        name: &NodeName,
        incarnation: &Incarnation,
        peers: &Listed<NodeName, A>,
        contact: &Option<NodeName>,
        event: &Event<A>,
    ) -> Result<Plan<C, A>, WorldError>
        requires { event.now ≡ EventOf.Start name.now incarnation.now peers.now contact.now }
        ensures plan { IfOk result (IsPlan C.state C.starts C.steps C.after C.is_turn self.now event.now) }
        ensures refused { IfErr result (IsRefusal C.is_spent self.now.limits self.now.group event.now) }
        ensures accepted { OnOk result (refusal self.now.limits self.now.group event.now ≡ None) }
    {
        let me = Origin {
            name: *name,
            incarnation: *incarnation,
        };
        let peers = peers.as_slice();
        self.is_fresh(&me)?;
        if !are_peers(&self.limits(), name, peers, contact) {
            return Err(WorldError::BadPeers);
        }
        let alloc = self.allocator();
        let start = start_core::<C, A>(alloc, &me, self.limits(), peers, contact)?;
        let packets = packets_of(alloc, &me, start.sends)?;
        let node = NodeState {
            name: *name,
            highest: *incarnation,
            core: Some(start.core),
        };
        let node = boxed(alloc, node)?;
        Ok(Plan {
            change: Change::Put(node),
            packets,
            leaving: None,
            again: None,
            entry: self.quiet_entry(event, None)?,
        })
    }

    /// Returns the log entry of an event that delivers nothing and changes no active view.
    fn quiet_entry(&self, event: &Event<A>, packet: Option<usize>) -> Result<Entry<A>, AllocError>
        ensures { IfOk result (λ entry. entry ≡ record {
          event = event.now;
          packet = packet;
          first_sent = length self.now.group.sent;
          moved = false;
          given = [];
        }) }
    {
        Ok(Entry {
            event: keep_event(self.allocator(), event)?,
            packet,
            first_sent: self.sent().len(),
            moved: false,
            given: Listed::new(self.allocator()),
        })
    }

    /// Plans a broadcast.
    fn plan_broadcast(
        &self,
        name: &NodeName,
        payload: &Bytes<A>,
        event: &Event<A>,
    ) -> Result<Plan<C, A>, WorldError>
        requires { event.now ≡ EventOf.Broadcast name.now payload.now }
        ensures plan { IfOk result (IsPlan C.state C.starts C.steps C.after C.is_turn self.now event.now) }
        ensures refused { IfErr result (IsRefusal C.is_spent self.now.limits self.now.group event.now) }
        ensures accepted { OnOk result (refusal self.now.limits self.now.group event.now ≡ None) }
    {
        let found = self.find_running(name)?;
        if payload.len() > MAX_PAYLOAD {
            return Err(WorldError::PayloadTooLong);
        }
        let stimulus = StimulusOf::Broadcast(payload);
        let plan = self.plan_step(name, &found, &stimulus, event, None, None)?;
        Ok(plan)
    }

    /// Plans the arrival of a packet.
    fn plan_arrive(
        &self,
        place: usize,
        dice: &Dice,
        event: &Event<A>,
    ) -> Result<Plan<C, A>, WorldError>
        requires { event.now ≡ EventOf.Arrive place dice.now }
        ensures plan { IfOk result (IsPlan C.state C.starts C.steps C.after C.is_turn self.now event.now) }
        ensures refused { IfErr result (IsRefusal C.is_spent self.now.limits self.now.group event.now) }
        ensures accepted { OnOk result (refusal self.now.limits self.now.group event.now ≡ None) }
    {
        let Some((number, packet)) = packet_at(self.flight(), self.sent(), place) else {
            return Err(WorldError::NoPacket);
        };
        let found = self.find_running(&packet.to)?;
        let stimulus = StimulusOf::Arrive {
            sender: packet.sender,
            note: &packet.note,
            dice: *dice,
        };
        let plan = self.plan_step(
            &packet.to,
            &found,
            &stimulus,
            event,
            Some(number),
            Some(place),
        )?;
        Ok(plan)
    }

    /// Plans the loss of a packet.
    fn plan_lose(&self, place: usize, event: &Event<A>) -> Result<Plan<C, A>, WorldError>
        requires { event.now ≡ EventOf.Lose place }
        ensures plan { IfOk result (IsPlan C.state C.starts C.steps C.after C.is_turn self.now event.now) }
        ensures refused { IfErr result (IsRefusal C.is_spent self.now.limits self.now.group event.now) }
        ensures accepted { OnOk result (refusal self.now.limits self.now.group event.now ≡ None) }
    {
        let Some(number) = number_at(self.flight(), place) else {
            return Err(WorldError::NoPacket);
        };
        Ok(Plan {
            change: Change::Nothing,
            packets: Vec::new(self.allocator()),
            leaving: Some(place),
            again: None,
            entry: self.quiet_entry(event, Some(number))?,
        })
    }

    /// Plans to put a packet into flight once more.
    fn plan_again(&self, number: usize, event: &Event<A>) -> Result<Plan<C, A>, WorldError>
        requires { event.now ≡ EventOf.Again number }
        ensures plan { IfOk result (IsPlan C.state C.starts C.steps C.after C.is_turn self.now event.now) }
        ensures refused { IfErr result (IsRefusal C.is_spent self.now.limits self.now.group event.now) }
        ensures accepted { OnOk result (refusal self.now.limits self.now.group event.now ≡ None) }
    {
        if number >= self.sent().len() {
            return Err(WorldError::NoPacket);
        }
        Ok(Plan {
            change: Change::Nothing,
            packets: Vec::new(self.allocator()),
            leaving: None,
            again: Some(number),
            entry: self.quiet_entry(event, Some(number))?,
        })
    }

    /// Plans the firing of a timer.
    fn plan_fire(
        &self,
        name: &NodeName,
        id: &MsgId,
        event: &Event<A>,
    ) -> Result<Plan<C, A>, WorldError>
        requires { event.now ≡ EventOf.Fire name.now id.now }
        ensures plan { IfOk result (IsPlan C.state C.starts C.steps C.after C.is_turn self.now event.now) }
        ensures refused { IfErr result (IsRefusal C.is_spent self.now.limits self.now.group event.now) }
        ensures accepted { OnOk result (refusal self.now.limits self.now.group event.now ≡ None) }
    {
        let found = self.find_running(name)?;
        let stimulus = StimulusOf::Fire(*id);
        let plan = self.plan_step(name, &found, &stimulus, event, None, None)?;
        Ok(plan)
    }

    /// Plans a flush of the queued announcements.
    fn plan_flush(&self, name: &NodeName, event: &Event<A>) -> Result<Plan<C, A>, WorldError>
        requires { event.now ≡ EventOf.Flush name.now }
        ensures plan { IfOk result (IsPlan C.state C.starts C.steps C.after C.is_turn self.now event.now) }
        ensures refused { IfErr result (IsRefusal C.is_spent self.now.limits self.now.group event.now) }
        ensures accepted { OnOk result (refusal self.now.limits self.now.group event.now ≡ None) }
    {
        let found = self.find_running(name)?;
        let stimulus = StimulusOf::Flush;
        let plan = self.plan_step(name, &found, &stimulus, event, None, None)?;
        Ok(plan)
    }

    /// Plans the failure of a link.
    fn plan_down(
        &self,
        name: &NodeName,
        peer: &NodeName,
        dice: &Dice,
        event: &Event<A>,
    ) -> Result<Plan<C, A>, WorldError>
        requires { event.now ≡ EventOf.Down name.now peer.now dice.now }
        ensures plan { IfOk result (IsPlan C.state C.starts C.steps C.after C.is_turn self.now event.now) }
        ensures refused { IfErr result (IsRefusal C.is_spent self.now.limits self.now.group event.now) }
        ensures accepted { OnOk result (refusal self.now.limits self.now.group event.now ≡ None) }
    {
        let found = self.find_running(name)?;
        let stimulus = StimulusOf::Down {
            peer: *peer,
            dice: *dice,
        };
        let plan = self.plan_step(name, &found, &stimulus, event, None, None)?;
        Ok(plan)
    }

    /// Plans a membership tick.
    fn plan_shuffle(
        &self,
        name: &NodeName,
        dice: &Dice,
        event: &Event<A>,
    ) -> Result<Plan<C, A>, WorldError>
        requires { event.now ≡ EventOf.Shuffle name.now dice.now }
        ensures plan { IfOk result (IsPlan C.state C.starts C.steps C.after C.is_turn self.now event.now) }
        ensures refused { IfErr result (IsRefusal C.is_spent self.now.limits self.now.group event.now) }
        ensures accepted { OnOk result (refusal self.now.limits self.now.group event.now ≡ None) }
    {
        let found = self.find_running(name)?;
        let stimulus = StimulusOf::Shuffle(*dice);
        let plan = self.plan_step(name, &found, &stimulus, event, None, None)?;
        Ok(plan)
    }

    /// Plans to join by a contact.
    fn plan_join(
        &self,
        name: &NodeName,
        contact: &NodeName,
        event: &Event<A>,
    ) -> Result<Plan<C, A>, WorldError>
        requires { event.now ≡ EventOf.Join name.now contact.now }
        ensures plan { IfOk result (IsPlan C.state C.starts C.steps C.after C.is_turn self.now event.now) }
        ensures refused { IfErr result (IsRefusal C.is_spent self.now.limits self.now.group event.now) }
        ensures accepted { OnOk result (refusal self.now.limits self.now.group event.now ≡ None) }
    {
        let found = self.find_running(name)?;
        let stimulus = StimulusOf::Join(*contact);
        let plan = self.plan_step(name, &found, &stimulus, event, None, None)?;
        Ok(plan)
    }

    /// Plans a stop.
    fn plan_stop(&self, name: &NodeName, event: &Event<A>) -> Result<Plan<C, A>, WorldError>
        requires { event.now ≡ EventOf.Stop name.now }
        ensures plan { IfOk result (IsPlan C.state C.starts C.steps C.after C.is_turn self.now event.now) }
        ensures refused { IfErr result (IsRefusal C.is_spent self.now.limits self.now.group event.now) }
        ensures accepted { OnOk result (refusal self.now.limits self.now.group event.now ≡ None) }
    {
        let found = self.find_running(name)?;
        let node = NodeState {
            name: found.node.name,
            highest: found.node.highest,
            core: None,
        };
        let node = boxed(self.allocator(), node)?;
        Ok(Plan {
            change: Change::Put(node),
            packets: Vec::new(self.allocator()),
            leaving: None,
            again: None,
            entry: self.quiet_entry(event, None)?,
        })
    }
}
