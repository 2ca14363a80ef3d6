//! A node: its core, and what it sends and delivers, until the caller takes that.
ghost use Rattle.std.specs.Prelude.{◌≡◌, ◌≢◌, ◌+◌, ◌++◌, ◌%◌, ◌^◌, ℕ, List, [], ◌∷◌, length, map};
ghost use Rattle.std.specs.Prelude.{slice_get, take, IfOk, IfSome, IfNone, IsTrue, OnOk, OnErr};
ghost use Rattle.node_core.specs.Plum.{plum_state};
ghost use Rattle.protocol.specs.Delivery.{Delivery};
ghost use Rattle.protocol.specs.Peers.{are_peers};
ghost use Rattle.plumtree_c.specs.Plain.{id_of, name_of};
ghost use Rattle.node_names.specs.Same.{has_id};
ghost use Rattle.plumtree_c.specs.State.{AreCounts, Given, Hears, IsCutShort, Runs, Sent, Starts, Steps, Ticks};
ghost use Rattle.wire_node.specs.Receiving.{IsPartial};
ghost use Rattle.protocol.specs.declared.stimulus.StimulusOf.TheVariants as stimulus;

use crate::plain::{Counts, Id, Name};
use crate::refusal::Refusal;
use crate::room::{forget, give, number_of, put};
use bytes::Bytes;
use frames::{Frame, FrameFault, decode, encode};
use node_core::{PlumCore, armed_at, armed_ids};
use node_names::{Dice, Limits, MsgId, NodeName, Origin};
use protocol::{Core, CoreError, MAX_PAYLOAD, Out, Stimulus, StimulusOf};
use std::alloc::Global;
use std::marker::Model;

/// At every tenth tick the node shuffles its passive view.
const SHUFFLE_EVERY: u64 = 10;

/// A node of a caller that takes what it sends and delivers.
///
/// Contracts see its core, what waits to be taken, and its ticks.
#[derive(Drop)]
pub(crate) struct Node {
    core: PlumCore,
    /// What the core sent and delivered. The first of both were taken.
    out: Out<Frame>,
    /// How many frames at the front of `out` were taken.
    sent: usize,
    /// How many deliveries at the front of `out` were taken.
    given: usize,
    /// How many deliveries were taken since the start.
    taken: u64,
    ticks: u64,
    /// How often the node was lent for a change.
    turn: u64,
}

impl Model for Node {
    ghost use Rattle.std.specs.Prelude.{◌+◌, ◌≤◌, drop, length};
    ghost use Rattle.plumtree_c.specs.State.{NodeState};
    ghost use Rattle.std.specs.FinSet as set;
    ghost use Rattle.std.specs.Coded.{codes};
    ghost use Rattle.node_names.specs.Order.{id_cmp};
    ghost use Rattle.node_names.specs.contracts.ids.MsgId as id;

    ghost Value = { NodeState };

    ghost coded = { Prim.hlevel (codes, set.code {R = id_cmp} id.the_row.coded) };

    ghost view = { λ n. record {
      core = n.core;
      out = record { sends = drop n.sent n.out.sends; deliveries = drop n.given n.out.deliveries };
      ticks = n.ticks;
    } };

    // At most half of each list was taken.
    ghost invariant = { λ n. (n.sent + n.sent ≤ length n.out.sends) × (n.given + n.given ≤ length n.out.deliveries) };
}

impl Node {
    /// Starts a node.
    pub(crate) fn start(
        alloc: Global,
        me: Origin,
        limits: Limits,
        peers: &[NodeName],
        contact: Option<NodeName>,
    ) -> Result<Node, CoreError>
        requires { IsTrue (are_peers limits me.name peers.now contact) }
        ensures { IfOk result (λ node. Starts me limits peers.now contact node) }
    {
        let mut out = Out::new(alloc);
        let core = PlumCore::start(alloc, me, limits, peers, contact, &mut out)?;
        Ok(Node {
            core,
            out,
            sent: 0,
            given: 0,
            taken: 0,
            ticks: 0,
            turn: 0,
        })
    }

    /// Lets the core take one stimulus. If it is refused, nothing changes.
    fn step(&mut self, stimulus: &Stimulus<Frame>) -> Result<(), Refusal>
        ensures ok { OnOk result (Steps self.old stimulus.now self.new) }
        ensures err { OnErr result (self.new ≡ self.old) }
    {
        self.core.step(stimulus, &mut self.out)?;
        Ok(())
    }

    /// Broadcasts a message, and returns its number.
    pub(crate) fn broadcast(&mut self, payload: &[u8]) -> Result<u64, Refusal>
        ensures ok { OnOk result (Steps self.old (stimulus.Broadcast payload.now) self.new) }
        ensures number { IfOk result (λ number. number ≡ self.old.core.gossip.spent + 1) }
        ensures err { OnErr result (self.new ≡ self.old) }
    {
        if payload.len() > MAX_PAYLOAD {
            return Err(Refusal::PayloadTooLong);
        }
        let alloc = *self.out.sends.allocator();
        let payload = Bytes::copy_from_slice(alloc, payload)?;
        self.step(&StimulusOf::Broadcast(payload))?;
        Ok(self.last_number())
    }

    /// The number of the last delivery that waits.
    #[tactic(auto, using(crate::proofs::Lasts::last_of))]
    fn last_number(&self) -> u64
        ensures { (before : List Delivery) (last : Delivery)
            → self.now.out.deliveries ≡ before ++ last ∷ []
            → result ≡ last.id.seq }
    {
        match self.out.deliveries.as_slice()[self.given..].last() {
            Some(delivery) => delivery.id.seq,
            None => 0,
        }
    }

    /// Takes the frame at the front of the bytes, and returns its length, or `None` if it is not whole yet.
    pub(crate) fn receive(&mut self, bytes: &[u8], dice: &Dice) -> Result<Option<usize>, Refusal>
        ensures some { IfOk result (λ taken. IfSome taken (λ taken. Hears self.old bytes.now taken dice.now self.new)) }
        ensures none { IfOk result (λ taken. IfNone taken ((self.new ≡ self.old) × IsPartial bytes.now)) }
        ensures err { OnErr result (self.new ≡ self.old) }
    {
        let alloc = *self.out.sends.allocator();
        let (note, taken) = match decode(alloc, bytes) {
            Ok(decoded) => decoded,
            Err(FrameFault::Short) => return Ok(None),
            Err(fault) => return Err(fault.into()),
        };
        let sender = note.sender();
        self.step(&StimulusOf::Arrive {
            sender,
            note,
            dice: *dice,
        })?;
        Ok(Some(taken))
    }

    /// Sends all queued announcements.
    pub(crate) fn flush(&mut self) -> Result<(), Refusal>
        ensures ok { OnOk result (Steps self.old stimulus.Flush self.new) }
        ensures err { OnErr result (self.new ≡ self.old) }
    {
        self.step(&StimulusOf::Flush)
    }

    /// The id whose timer has this place among those that are armed.
    pub(crate) fn timer(&self, place: usize) -> Option<MsgId>
        ensures { result ≡ slice_get self.now.core.gossip.missing.timers place }
    {
        armed_at(self.core.timers(), place)
    }

    /// Whether the timer of the id is armed.
    pub(crate) fn is_armed(&self, id: &MsgId) -> bool
        ensures { result ≡ has_id self.now.core.gossip.missing.timers id.now }
    {
        self.core.is_armed(id)
    }

    /// Lets the timer of the id fire.
    pub(crate) fn fire(&mut self, id: MsgId) -> Result<(), Refusal>
        ensures ok { OnOk result (Steps self.old (stimulus.Fire id) self.new) }
        ensures err { OnErr result (self.new ≡ self.old) }
    {
        self.step(&StimulusOf::Fire(id))
    }

    /// Shuffles the passive view.
    pub(crate) fn shuffle(&mut self, dice: &Dice) -> Result<(), Refusal>
        ensures ok { OnOk result (Steps self.old (stimulus.Shuffle dice.now) self.new) }
        ensures err { OnErr result (self.new ≡ self.old) }
    {
        self.step(&StimulusOf::Shuffle(*dice))
    }

    /// Tells the node that its link to the peer failed.
    pub(crate) fn link_down(&mut self, peer: NodeName, dice: &Dice) -> Result<(), Refusal>
        ensures ok { OnOk result (Steps self.old (stimulus.Down peer dice.now) self.new) }
        ensures err { OnErr result (self.new ≡ self.old) }
    {
        self.step(&StimulusOf::Down { peer, dice: *dice })
    }

    /// Has the node join by the contact, as at its start.
    pub(crate) fn join(&mut self, contact: NodeName) -> Result<(), Refusal>
        ensures ok { OnOk result (Steps self.old (stimulus.Join contact) self.new) }
        ensures err { OnErr result (self.new ≡ self.old) }
    {
        self.step(&StimulusOf::Join(contact))
    }

    /// Lets the timers of these ids fire. If one is refused, those before have fired.
    fn fire_each(&mut self, ids: &[MsgId]) -> Result<(), Refusal>
        ensures ok { OnOk result (Runs self.old (map stimulus.Fire ids.now) self.new) }
        ensures err { OnErr result ((count : ℕ) × Runs self.old (map stimulus.Fire (take count ids.now)) self.new) }
    {
        for id in ids {
            self.fire(*id)?;
        }
        Ok(())
    }

    /// Lets each timer fire that is armed now. If one is refused, those before have fired.
    fn fire_all(&mut self) -> Result<(), Refusal>
        ensures ok { OnOk result (Runs self.old (map stimulus.Fire self.old.core.gossip.missing.timers) self.new) }
        ensures err { OnErr result ((count : ℕ)
            × Runs self.old (map stimulus.Fire (take count self.old.core.gossip.missing.timers)) self.new) }
    {
        let alloc = *self.out.sends.allocator();
        let ids = armed_ids(alloc, self.core.timers())?;
        self.fire_each(&ids)?;
        Ok(())
    }

    /// How many ticks were made.
    fn ticks(&self) -> u64
        ensures { result ≡ self.now.ticks }
    {
        self.ticks
    }

    /// Sets how many ticks were made.
    fn set_ticks(&mut self, ticks: u64)
        ensures { self.new ≡ record self.old { ticks = ticks } }
    {
        self.ticks = ticks;
    }

    /// Counts a tick, and at every tenth one shuffles.
    fn end_tick(&mut self, dice: &Dice) -> Result<(), Refusal>
        ensures shuffles { OnOk result (self.new.ticks % 10 ≡ 0
            → Steps self.old (stimulus.Shuffle dice.now) (record self.new { ticks = self.old.ticks })) }
        ensures stays { OnOk result (self.new.ticks % 10 ≢ 0 → self.new ≡ record self.old { ticks = self.new.ticks }) }
        ensures counted { OnOk result (self.new.ticks ≡ (self.old.ticks + 1) % 2 ^ 64) }
        ensures err { OnErr result (self.new ≡ self.old) }
    {
        let ticks = self.ticks().wrapping_add(1);
        if ticks % SHUFFLE_EVERY == 0 {
            self.shuffle(dice)?;
        }
        self.set_ticks(ticks);
        Ok(())
    }

    /// Flushes, lets each armed timer fire, and at every tenth tick shuffles. If a step is refused, those before it are
    /// made, and the tick does not count: all or nothing would need a copy of the node for each tick.
    pub(crate) fn tick(&mut self, dice: &Dice) -> Result<(), Refusal>
        ensures ok { OnOk result (Ticks self.old dice.now self.new) }
        ensures err { OnErr result (IsCutShort self.old self.new) }
    {
        self.flush()?;
        self.fire_all()?;
        self.end_tick(dice)?;
        Ok(())
    }

    /// Takes the first frame that waits: returns its receiver, and puts its bytes at the front of the room. `length` is
    /// then the number of bytes, also where the room is too small. A frame is spelled only now, so that a room that is
    /// too small loses nothing.
    pub(crate) fn next_send(
        &mut self,
        room: &mut [u8],
        length: &mut usize,
    ) -> Result<Option<Name>, Refusal>
        ensures some { IfOk result
            (λ to. IfSome to (λ to. Sent self.old (name_of to) (take length.new room.new) self.new)) }
        ensures none { IfOk result (λ to. IfNone to ((self.new ≡ self.old) × (self.old.out.sends ≡ []))) }
        ensures err { OnErr result (self.new ≡ self.old) }
    {
        let alloc = *self.out.sends.allocator();
        let Some((to, frame)) = self.out.sends.as_slice().get(self.sent) else {
            return Ok(None);
        };
        let to = Name::of(to);
        let bytes = encode(alloc, frame)?;
        *length = bytes.len();
        if !put(room, bytes.as_slice()) {
            return Err(Refusal::RoomTooSmall);
        }
        self.sent = forget(&mut self.out.sends, self.sent + 1);
        Ok(Some(to))
    }

    /// Takes the first delivery that waits: returns the message's id, and puts its payload at the front of the room.
    /// `length` is then the number of bytes, also where the room is too small.
    pub(crate) fn next_delivery(
        &mut self,
        room: &mut [u8],
        length: &mut usize,
    ) -> Result<Option<Id>, Refusal>
        ensures some { IfOk result
            (λ id. IfSome id (λ id. Given self.old (id_of id) (take length.new room.new) self.new)) }
        ensures none { IfOk result (λ id. IfNone id ((self.new ≡ self.old) × (self.old.out.deliveries ≡ []))) }
        ensures err { OnErr result (self.new ≡ self.old) }
    {
        let Some(id) = give(&mut self.out.deliveries, &mut self.given, room, length)? else {
            return Ok(None);
        };
        self.taken = self.taken.wrapping_add(1);
        Ok(Some(id))
    }

    /// How much the node has.
    pub(crate) fn counts(&self) -> Counts
        ensures { AreCounts result self.now }
    {
        let deliveries = (self.out.deliveries.len() - self.given) as u64;
        Counts {
            known: self.taken.wrapping_add(deliveries),
            held: self.core.held().len() as u64,
            missing: number_of(self.core.timers()) as u64,
            wants: number_of(self.core.wants()) as u64,
            queued: self.core.queued().len() as u64,
            sends: (self.out.sends.len() - self.sent) as u64,
            deliveries,
        }
    }

    /// The core, to be read.
    pub(crate) fn core(&self) -> &PlumCore
        ensures { result.now ≡ self.now.core }
    {
        &self.core
    }

    /// How often the node was lent for a change.
    pub(crate) fn turn(&self) -> u64 {
        self.turn
    }

    /// Counts one more time that the node was lent for a change, and returns the count.
    pub(crate) fn next_turn(&mut self) -> u64
        ensures { self.new ≡ self.old }
    {
        self.turn = self.turn.wrapping_add(1);
        self.turn
    }
}
