//! The flooding core: each new message goes to every peer but the one that it came from.
ghost use Rattle.std.specs.Prelude.{◌≡◌, ◌↔◌, ◌<◌, ◌≤◌, ◌+◌, ◌++◌, [], ◌∷◌, ℕ, List, Option, None};
ghost use Rattle.std.specs.Prelude.{false, IsTrue, IfOk, IfErr, OnOk, OnErr, IsErrOf, length, map};
ghost use Rattle.std.specs.Map.{lookup};
ghost use Rattle.indexmap.specs.IndexMap.{spare};
ghost use Rattle.node_names.specs.Same.{same_id};
ghost use Rattle.protocol.specs.Output.{Stepped};
ghost use Rattle.flood.specs.FloodCore.{FloodSteps, flood_after, is_news, note_to, others, with_news};

use crate::flood_note::FloodNote;
use bytes::Bytes;
use indexmap::{IndexMap, IndexSet};
use node_names::{Limits, MsgId, NameSet, NodeName, Origin, has_name, is_left_out, set_of};
use protocol::{Core, CoreError, Delivery, MAX_PAYLOAD, Out, Prepared, StimulusOf, StimulusRef};
use std::alloc::{AllocError, Allocator, Global};
use std::hash::{BuildHasherDefault, FoldHasher};
use std::marker::Model;

/// Messages with their payloads, in the order in which they came.
type Held<A> = IndexMap<MsgId, Bytes<A>, BuildHasherDefault<FoldHasher>, A>;

/// A core that delivers and holds each new message, and sends it to every peer but the one that it came from.
///
/// A message of its own incarnation has no effect when it arrives, even if the core does not hold it. Only failed links
/// change its peers; contacts, firing timers, flushes and membership ticks have no effect.
#[derive(Drop)]
pub struct FloodCore<A: Allocator = Global> {
    me: Origin,
    peers: NameSet<A>,
    passive: NameSet<A>,
    held: Held<A>,
    count: u64,
}

impl<A: Allocator> Model for FloodCore<A> {
    ghost use Rattle.std.specs.Prelude.{◌≡◌, []};
    ghost use Rattle.flood.specs.FloodCore.{Flooding, HoldsCounted};

    ghost Value = { Flooding };

    ghost view = { λ core.
        record { me = core.me; peers = core.peers.keys; held = core.held.entries; count = core.count } };

    ghost invariant = { λ core. (core.passive.keys ≡ []) × HoldsCounted core.me core.held.entries core.count };
}

/// Appends the packet that carries the message to `peer`.
fn push_note<A: Allocator + Copy>(
    notes: &mut Vec<(NodeName, FloodNote<A>), A>,
    peer: &NodeName,
    id: &MsgId,
    payload: &Bytes<A>,
) -> Result<(), AllocError>
    ensures { OnOk result (notes.new.items ≡ notes.old.items ++ note_to id.now payload.now peer.now ∷ []) }
{
    let note = FloodNote {
        id: *id,
        payload: payload.clone()?,
    };
    notes.push((*peer, note))?;
    Ok(())
}

/// Returns the packets that carry the message, one to each of `peers` but `except`.
fn notes_for<A: Allocator + Copy>(
    alloc: A,
    peers: &[NodeName],
    except: &Option<NodeName>,
    id: &MsgId,
    payload: &Bytes<A>,
) -> Result<Vec<(NodeName, FloodNote<A>), A>, AllocError>
    ensures { IfOk result (λ notes. notes.items ≡ map (note_to id.now payload.now) (others except.now peers.now)) }
{
    let mut notes = Vec::new(alloc);
    for peer in peers {
        if !is_left_out(except, peer) {
            push_note(&mut notes, peer, id, payload)?;
        }
    }
    Ok(notes)
}

/// Appends a message that is not held yet, for which room is reserved.
fn put_new<A: Allocator + Copy>(held: &mut Held<A>, id: &MsgId, payload: Bytes<A>)
    requires room { 0 < spare held.old }
    requires absent { lookup (same_id id.now) held.old.entries ≡ None }
    ensures { held.new.entries ≡ held.old.entries ++ (id.now, payload) ∷ [] }
{
    let _ = held.insert(*id, payload).unwrap();
}

/// Appends the delivery of a message to `out`, and the packets that carry it to all `peers` but `except`. If an
/// allocation is refused, nothing changes.
fn spread<A: Allocator + Copy>(
    me: &Origin,
    peers: &[NodeName],
    id: &MsgId,
    payload: &Bytes<A>,
    except: &Option<NodeName>,
    out: &mut Out<FloodNote<A>, A>,
) -> Result<(), AllocError>
    ensures sends { OnOk result
        (out.new.sends ≡ out.old.sends ++ map (note_to id.now payload.now) (others except.now peers.now)) }
    ensures deliveries { OnOk result
        (out.new.deliveries ≡ out.old.deliveries ++ record { node = me.now; id = id.now; payload = payload.now } ∷ []) }
    ensures err { OnErr result (out.new ≡ out.old) }
{
    let alloc = *out.sends.allocator();
    let notes = notes_for(alloc, peers, except, id, payload)?;
    let delivery = Delivery {
        node: *me,
        id: *id,
        payload: payload.clone()?,
    };
    out.extend(notes, delivery)
}

/// Holds a message that is not held yet. If an allocation is refused, nothing changes.
fn hold<A: Allocator + Copy>(
    held: &mut Held<A>,
    id: &MsgId,
    payload: &Bytes<A>,
) -> Result<(), AllocError>
    requires { lookup (same_id id.now) held.old.entries ≡ None }
    ensures ok { OnOk result (held.new.entries ≡ held.old.entries ++ (id.now, payload.now) ∷ []) }
    ensures err { OnErr result (held.new.entries ≡ held.old.entries) }
{
    let kept = payload.clone()?;
    held.reserve(1)?;
    put_new(held, id, kept);
    Ok(())
}

/// Returns a prepared step that does not change the peers.
const fn still() -> Prepared<()>
    ensures { result.moved ≡ false }
{
    Prepared {
        turn: (),
        moved: false,
    }
}

impl<A: Allocator + Copy> FloodCore<A> {
    /// Returns whether the message is new: not held, and of another origin than this core.
    fn is_news(&self, id: &MsgId) -> bool
        ensures { result ≡ is_news self.now id.now }
    {
        !self.held.contains_key(id) && id.origin != self.me
    }

    /// Prepares a broadcast of the core's own next message.
    fn prepare_broadcast(
        &self,
        payload: &Bytes<A>,
        out: &mut Out<FloodNote<A>, A>,
    ) -> Result<Prepared<()>, CoreError>
        ensures stepped { OnOk result (Stepped FloodSteps self.now (StimulusOf.Broadcast payload.now) out.old
            (flood_after self.now (StimulusOf.Broadcast payload.now)) out.new) }
        ensures counted { OnOk result (self.now.count < u64.MAX) }
        ensures still { IfOk result (λ prepared. prepared.moved ≡ false) }
        ensures too_long { IsErrOf result CoreError.PayloadTooLong ↔ (MAX_PAYLOAD < length payload.now) }
        ensures spent { IsErrOf result CoreError.SeqSpent
            ↔ ((length payload.now ≤ MAX_PAYLOAD) × (self.now.count ≡ u64.MAX)) }
        ensures err { OnErr result (out.new ≡ out.old) }
    {
        if payload.len() > MAX_PAYLOAD {
            return Err(CoreError::PayloadTooLong);
        }
        let Some(seq) = self.count.checked_add(1) else {
            return Err(CoreError::SeqSpent);
        };
        let id = MsgId {
            origin: self.me,
            seq,
        };
        spread(&self.me, self.peers.as_slice(), &id, payload, &None, out)?;
        Ok(still())
    }

    /// Prepares the arrival of a packet, which has an effect only if its message is new.
    fn prepare_arrival(
        &self,
        sender: &Origin,
        note: &FloodNote<A>,
        out: &mut Out<FloodNote<A>, A>,
    ) -> Result<Prepared<()>, CoreError>
        ensures stepped { (dice : _)
            → OnOk result (Stepped FloodSteps self.now (StimulusOf.Arrive sender.now note.now dice) out.old
            (flood_after self.now (StimulusOf.Arrive sender.now note.now dice)) out.new) }
        ensures still { IfOk result (λ prepared. prepared.moved ≡ false) }
        ensures refused { IfErr result (λ e. e ≡ CoreError.OutOfMemory) }
        ensures err { OnErr result (out.new ≡ out.old) }
    {
        if !self.is_news(&note.id) {
            return Ok(still());
        }
        let except = Some(sender.name);
        let peers = self.peers.as_slice();
        spread(&self.me, peers, &note.id, &note.payload, &except, out)?;
        Ok(still())
    }

    /// Holds the core's own next message.
    fn advance_broadcast(&mut self, payload: &Bytes<A>) -> Result<(), AllocError>
        requires { self.old.count < u64.MAX }
        ensures ok { OnOk result (self.new ≡ flood_after self.old (StimulusOf.Broadcast payload.now)) }
        ensures err { OnErr result (self.new ≡ self.old) }
    {
        let seq = self.count + 1;
        let id = MsgId {
            origin: self.me,
            seq,
        };
        hold(&mut self.held, &id, payload)?;
        self.count = seq;
        Ok(())
    }

    /// Holds a packet's message, if it is new.
    fn advance_arrival(&mut self, note: &FloodNote<A>) -> Result<(), AllocError>
        ensures ok { OnOk result (self.new ≡ with_news self.old note.now) }
        ensures err { OnErr result (self.new ≡ self.old) }
    {
        if !self.is_news(&note.id) {
            return Ok(());
        }
        hold(&mut self.held, &note.id, &note.payload)?;
        Ok(())
    }
}

impl<A: Allocator + Copy> Core<A> for FloodCore<A> {
    ghost use Rattle.flood.specs.FloodCore.{flood_after, flood_state, FloodStarts, FloodSteps};
    ghost use Rattle.flood.specs.FloodCore.{FloodIsSpent, IsFloodTurn, IsSoundFlooding};
    ghost use Rattle.flood.specs.impl_proofs.FloodDelivers.{flood_delivers_one};
    ghost use Rattle.flood.specs.impl_proofs.FloodLaws.{flood_lawful};

    type Note = FloodNote<A>;

    type Turn = ();

    ghost state = { flood_state };

    ghost is_sound = { IsSoundFlooding };

    ghost starts = { FloodStarts };

    ghost steps = { FloodSteps };

    ghost is_spent = { FloodIsSpent };

    ghost after = { flood_after };

    ghost is_turn = { IsFloodTurn };

    ghost lawful = { flood_lawful };

    ghost delivers_one = { flood_delivers_one };

    fn start(
        alloc: A,
        me: Origin,
        limits: Limits,
        peers: &[NodeName],
        contact: Option<NodeName>,
        out: &mut Out<FloodNote<A>, A>,
    ) -> Result<FloodCore<A>, CoreError> {
        Ok(FloodCore {
            me,
            peers: set_of(alloc, peers)?,
            passive: IndexSet::new(alloc),
            held: IndexMap::new(alloc),
            count: 0,
        })
    }

    fn prepare(
        &self,
        stimulus: &StimulusRef<'_, FloodNote<A>, A>,
        out: &mut Out<FloodNote<A>, A>,
    ) -> Result<Prepared<()>, CoreError> {
        match stimulus {
            StimulusOf::Broadcast(payload) => self.prepare_broadcast(payload, out),
            StimulusOf::Arrive { sender, note, .. } => self.prepare_arrival(sender, note, out),
            StimulusOf::Down { peer, .. } => Ok(Prepared {
                turn: (),
                moved: has_name(self.peers.as_slice(), peer),
            }),
            StimulusOf::Fire(_)
            | StimulusOf::Flush
            | StimulusOf::Shuffle(_)
            | StimulusOf::Join(_) => Ok(still()),
        }
    }

    fn advance(
        &mut self,
        stimulus: &StimulusRef<'_, FloodNote<A>, A>,
        _turn: (),
    ) -> Result<(), AllocError> {
        match stimulus {
            StimulusOf::Broadcast(payload) => self.advance_broadcast(payload),
            StimulusOf::Arrive { note, .. } => self.advance_arrival(note),
            StimulusOf::Down { peer, .. } => {
                self.peers.shift_remove(peer);
                Ok(())
            }
            StimulusOf::Fire(_)
            | StimulusOf::Flush
            | StimulusOf::Shuffle(_)
            | StimulusOf::Join(_) => Ok(()),
        }
    }

    fn copy(&self) -> Result<FloodCore<A>, AllocError> {
        let alloc = *self.peers.allocator();
        Ok(FloodCore {
            me: self.me,
            peers: set_of(alloc, self.peers.as_slice())?,
            passive: IndexSet::new(alloc),
            held: self.held.clone()?,
            count: self.count,
        })
    }

    fn me(&self) -> Origin {
        self.me
    }

    fn has(&self, id: &MsgId) -> bool {
        self.held.contains_key(id)
    }

    fn payload(&self, id: &MsgId) -> Option<&Bytes<A>> {
        self.held.get(id)
    }

    fn held(&self) -> &[MsgId] {
        self.held.keys().as_slice()
    }

    fn active(&self) -> &NameSet<A> {
        &self.peers
    }

    fn passive(&self) -> &NameSet<A> {
        &self.passive
    }

    fn queued(&self) -> &[(NodeName, MsgId, u32)] {
        &[]
    }

    fn wants(&self) -> &[Option<(MsgId, NodeName, u32)>] {
        &[]
    }

    fn timers(&self) -> &[Option<MsgId>] {
        &[]
    }

    fn is_armed(&self, _id: &MsgId) -> bool {
        false
    }
}
