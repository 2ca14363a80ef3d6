//! The gossip of one node.
ghost use Rattle.std.specs.Prelude.{◌≡◌, ◌≢◌, ◌↔◌, false, ◌+◌, ◌<◌, ◌≤◌, []};
ghost use Rattle.std.specs.Prelude.{length, filter, IfOk, OnOk, OnErr, IsErrOf};
ghost use Rattle.std.specs.FinSet as set;
ghost use Rattle.std.specs.List.{IsDistinct};
ghost use Rattle.std.specs.Map.{keys_of, lookup};
ghost use Rattle.std.specs.Option.{option_copied};
ghost use Rattle.node_names.specs.Same.{same_id, same_name};
ghost use Rattle.known_messages.specs.Known.{IsSpan};
ghost use Rattle.peer_sets.specs.Members.{all_eager};
ghost use Rattle.gossip_core.specs.Answers.{effects_of};
ghost use Rattle.gossip_core.specs.Refusals.{CanTake, IsTooLong, IsSpent};
ghost use Rattle.gossip_core.specs.Rows.{CanChange, Leads, changed};
ghost use Rattle.gossip_core.specs.State.{GossipState, IsSound};
ghost use Rattle.gossip_core.specs.Table.{lent, Does, outcome, is_news, next_id, swapped};
ghost use Rattle.gossip_core.specs.Table.{first_copy, shortcut, with_peer, after_downs, after_ups};
ghost use Rattle.gossip_core.specs.declared.call.CallOf.TheVariants.{Broadcast, OnGossip, OnIHave, Fire, OnGraft};
ghost use Rattle.gossip_core.specs.declared.call.CallOf.TheVariants.{OnGraftPeer, OnPrune, Flush, Up, Down};
ghost use Rattle.gossip_core.specs.declared.row.RowOf.TheVariants as row;

use crate::call::{Call, CallOf};
use crate::effects::Effects;
use crate::fault::GossipFault;
use crate::row::{Decided, Row, RowOf};
use crate::store;
use crate::table::{announced, decide};
use bytes::Bytes;
use known_messages::{KnownIds, MessageStore};
use missing::Missing;
use node_names::{MsgId, NodeName, Origin};
use peer_sets::{PeerKind, PeerSets};
use protocol::MAX_PAYLOAD;
use std::alloc::{AllocError, Allocator, Global};
use std::marker::Model;

/// The gossip of one run of one node: which messages it has, to whom it sends them, and how it repairs what it lacks.
///
/// A call has two halves: `answer` decides which row of the table it is, with what it will send and deliver, and `take`
/// makes that row's change. A caller that makes room for the answer in between has nothing left that can fail after
/// `take`. The other calls do both halves at once. Looking up a held message takes constant time; a copy takes time
/// proportional to the number of messages held. The memory for the known messages grows with their origins and with the
/// gaps in their numbers, not with the numbers known; the memory for the held messages grows with `keep`, or with all
/// messages if that is 0.
#[derive(Drop)]
pub struct Gossip<A: Allocator = Global> {
    me: Origin,
    threshold: u32,
    keep: u32,
    spent: u64,
    peers: PeerSets<A>,
    missing: Missing<A>,
    known: KnownIds<A>,
    held: MessageStore<A>,
}

impl<A: Allocator> Model for Gossip<A> {
    ghost use Rattle.std.specs.FinSet as set;
    ghost use Rattle.gossip_core.specs.State.{GossipState};
    ghost use Rattle.gossip_core.specs.Store.{AreCounted, AreKnown};
    ghost use Rattle.known_messages.specs.Known.{ids};

    ghost Value = { GossipState };

    ghost use Rattle.std.specs.Coded.{codes};
    ghost use Rattle.node_names.specs.Order.{id_cmp};
    ghost use Rattle.node_names.specs.contracts.ids.MsgId as id;

    ghost coded = { Prim.hlevel (codes, set.code {R = id_cmp} id.the_row.coded) };

    ghost view = { λ g. record {
      me = g.me;
      threshold = g.threshold;
      keep = g.keep;
      spent = g.spent;
      peers = g.peers;
      missing = g.missing;
      known = ids g.known;
      held = g.held.messages;
    } };

    ghost invariant = { λ g.
        AreCounted g.me (ids g.known) g.spent × AreKnown (ids g.known) g.held.messages g.peers.queued };
}

impl<A: Allocator + Copy> Gossip<A> {
    /// Creates a node that has these peers, all eager, and has broadcast `seq_spent` messages. It knows no messages,
    /// never swaps branches, and holds all messages that it delivers. The peers must be distinct.
    pub fn new(alloc: A, me: Origin, peers: &[NodeName], seq_spent: u64) -> Result<Self, AllocError>
        requires { IsDistinct same_name peers.now }
        ensures { IfOk result (λ gossip. gossip ≡ record {
          me = me;
          threshold = 0;
          keep = 0;
          spent = seq_spent;
          peers = record { members = all_eager peers.now; queued = [] };
          missing = record { wants = []; timers = [] };
          known = set.empty;
          held = [];
        }) }
    {
        Gossip::new_tuned(alloc, me, peers, seq_spent, 0, 0)
    }

    /// Creates the same node with a threshold and a bound on its store. When the first copy of a message comes from a
    /// member, and another peer announced the message first over a path that is shorter by `threshold` links or more,
    /// the announcer takes the sender's place as an eager peer. A threshold of 0 disables this. Of the messages that it
    /// delivered the node holds the last `keep`, or all if `keep` is 0; it still knows the others, but has no payload
    /// for peers that ask.
    pub fn new_tuned(
        alloc: A,
        me: Origin,
        peers: &[NodeName],
        seq_spent: u64,
        threshold: u32,
        keep: u32,
    ) -> Result<Self, AllocError>
        requires { IsDistinct same_name peers.now }
        ensures { IfOk result (λ gossip. gossip ≡ record {
          me = me;
          threshold = threshold;
          keep = keep;
          spent = seq_spent;
          peers = record { members = all_eager peers.now; queued = [] };
          missing = record { wants = []; timers = [] };
          known = set.empty;
          held = [];
        }) }
    {
        Ok(Gossip {
            me,
            threshold,
            keep,
            spent: seq_spent,
            peers: PeerSets::new(alloc, peers)?,
            missing: Missing::new(alloc),
            known: KnownIds::new(alloc),
            held: MessageStore::new(alloc),
        })
    }

    /// Decides the call: which row of the table it is, and what it will send and deliver. Changes nothing. Errors are
    /// tested in the order of `GossipFault`.
    pub fn answer<'a>(&'a self, call: &'a Call<'_, A>) -> Result<Decided<'a, A>, GossipFault>
        ensures row { IfOk result (λ decided. Leads self.now (outcome self.now (lent call.now)).state decided.row) }
        ensures ok { IfOk result (λ decided. effects_of decided.answer ≡ record {
          sends = (outcome self.now (lent call.now)).sends;
          delivered = (outcome self.now (lent call.now)).delivered;
        }) }
        ensures taken { OnOk result (CanTake self.now (lent call.now)) }
        ensures too_long { IsErrOf result GossipFault.PayloadTooLong ↔ IsTooLong (lent call.now) }
        ensures spent { IsErrOf result GossipFault.SeqSpent ↔ IsSpent self.now (lent call.now) }
    {
        self.validate(call)?;
        decide(*self.held.allocator(), self, call)
    }

    /// Rejects a call that may not be made.
    fn validate(&self, call: &Call<'_, A>) -> Result<(), GossipFault>
        ensures taken { OnOk result (CanTake self.now (lent call.now)) }
        ensures too_long { IsErrOf result GossipFault.PayloadTooLong ↔ IsTooLong (lent call.now) }
        ensures spent { IsErrOf result GossipFault.SeqSpent ↔ IsSpent self.now (lent call.now) }
        ensures memory { IsErrOf result GossipFault.OutOfMemory → ⊥ }
    {
        match call {
            CallOf::Broadcast { payload } => self.validate_broadcast(payload),
            CallOf::OnGossip { .. }
            | CallOf::OnIHave { .. }
            | CallOf::Fire { .. }
            | CallOf::OnGraft { .. }
            | CallOf::OnGraftPeer { .. }
            | CallOf::OnPrune { .. }
            | CallOf::Flush
            | CallOf::Up { .. }
            | CallOf::Down { .. } => Ok(()),
        }
    }

    /// Rejects a message that may not be broadcast.
    fn validate_broadcast(&self, payload: &Bytes<A>) -> Result<(), GossipFault>
        ensures taken { OnOk result (CanTake self.now (Broadcast payload.now)) }
        ensures too_long { IsErrOf result GossipFault.PayloadTooLong ↔ IsTooLong (Broadcast payload.now) }
        ensures spent { IsErrOf result GossipFault.SeqSpent ↔ IsSpent self.now (Broadcast payload.now) }
        ensures memory { IsErrOf result GossipFault.OutOfMemory → ⊥ }
    {
        if payload.len() > MAX_PAYLOAD {
            return Err(GossipFault::PayloadTooLong);
        }
        if self.spent == u64::MAX {
            return Err(GossipFault::SeqSpent);
        }
        Ok(())
    }

    /// Makes the change of a row that `answer` decided, or leaves the state unchanged if an allocation fails.
    pub fn take(&mut self, row: Row<A>) -> Result<(), AllocError>
        requires { CanChange self.old row }
        ensures ok { OnOk result (self.new ≡ changed row self.old) }
        ensures err { OnErr result (self.new ≡ self.old) }
    {
        match row {
            RowOf::Broadcast { payload } => self.take_broadcast(payload),
            RowOf::FirstCopy {
                sender,
                id,
                round,
                payload,
                announcer,
            } => self.take_first_copy(&sender, &id, round, payload, &announcer),
            RowOf::Announced { sender, news } => self
                .missing
                .announce_all(&sender, news.as_slice()),
            RowOf::Fired { id, asked } => {
                self.take_fired(&id, &asked);
                Ok(())
            }
            RowOf::Eager { peer } => {
                self.peers.make_eager(&peer);
                Ok(())
            }
            RowOf::Lazy { peer } => {
                self.peers.make_lazy(&peer);
                Ok(())
            }
            RowOf::Flushed => {
                self.peers.clear_queue();
                Ok(())
            }
            RowOf::Up { peer } => self.up(&peer),
            RowOf::Down { peer } => {
                self.down(&peer);
                Ok(())
            }
            RowOf::Nothing => Ok(()),
        }
    }

    /// Holds and queues the node's next message.
    fn take_broadcast(&mut self, payload: Bytes<A>) -> Result<(), AllocError>
        requires { CanTake self.old (Broadcast payload) }
        ensures ok { OnOk result (self.new ≡ (outcome self.old (Broadcast payload)).state) }
        ensures err { OnErr result (self.new ≡ self.old) }
    {
        let seq = self.spent + 1;
        let id = MsgId {
            origin: self.me,
            seq,
        };
        store::keep(
            &mut self.known,
            &mut self.held,
            &mut self.peers,
            &None,
            &id,
            0,
            payload,
            self.keep,
        )?;
        self.spent = seq;
        Ok(())
    }

    /// Returns the peer that takes the sender's place in the tree, if any, when the sender delivers the first copy of
    /// this message at this round.
    pub(crate) fn shortcut(&self, sender: &NodeName, id: &MsgId, round: u32) -> Option<NodeName>
        ensures { result ≡ shortcut self.now sender.now id.now round }
    {
        if self.threshold == 0 || !self.peers.is_member(sender) {
            return None;
        }
        let (announcer, announced) = self.missing.first(id)?;
        let is_shorter = u64::from(announced) + u64::from(self.threshold) <= u64::from(round);
        if announcer != *sender && is_shorter {
            Some(announcer)
        } else {
            None
        }
    }

    /// Gives the sender's place in the tree to the announcer.
    fn swap(&mut self, sender: &NodeName, announcer: &NodeName)
        ensures { self.new ≡ with_peer sender.now PeerKind.Lazy (with_peer announcer.now PeerKind.Eager self.old) }
    {
        self.peers.make_eager(announcer);
        self.peers.make_lazy(sender);
    }

    /// Handles the first copy of a message of another origin, and the swap with a nearer announcer, if there is one.
    fn take_first_copy(
        &mut self,
        sender: &NodeName,
        id: &MsgId,
        round: u32,
        payload: Bytes<A>,
        announcer: &Option<NodeName>,
    ) -> Result<(), AllocError>
        requires unknown { set.contains self.old.known id.now ≡ false }
        requires foreign { id.now.origin ≢ self.old.me }
        ensures ok { OnOk result (self.new ≡ (swapped sender.now announcer.now
            (first_copy sender.now id.now round payload self.old)).state) }
        ensures err { OnErr result (self.new ≡ self.old) }
    {
        self.keep_first_copy(sender, id, round, payload)?;
        if let Some(announcer) = announcer {
            self.swap(sender, announcer);
        }
        Ok(())
    }

    /// Holds and queues the first copy of a message of another origin.
    fn keep_first_copy(
        &mut self,
        sender: &NodeName,
        id: &MsgId,
        round: u32,
        payload: Bytes<A>,
    ) -> Result<(), AllocError>
        requires unknown { set.contains self.old.known id.now ≡ false }
        requires foreign { id.now.origin ≢ self.old.me }
        ensures ok { OnOk result (self.new ≡ (first_copy sender.now id.now round payload self.old).state) }
        ensures err { OnErr result (self.new ≡ self.old) }
    {
        store::keep(
            &mut self.known,
            &mut self.held,
            &mut self.peers,
            &Some(*sender),
            id,
            round.saturating_add(1),
            payload,
            self.keep,
        )?;
        self.missing.got(id);
        self.peers.make_eager(sender);
        Ok(())
    }

    /// Uses up the first announcement of `id`, or its timer if there is none, and makes the peer that is asked eager.
    fn take_fired(&mut self, id: &MsgId, asked: &Option<NodeName>)
        ensures { self.new ≡ changed (row.Fired id.now asked.now) self.old }
    {
        self.missing.take_first(id);
        if let Some(peer) = asked {
            self.peers.make_eager(peer);
        }
    }

    /// Decides the call: which row of the table it is, and its packets and its delivery.
    fn foresee(&self, call: &Call<'_, A>) -> Result<(Row<A>, Effects<A>), AllocError>
        requires { CanTake self.now (lent call.now) }
        ensures row { IfOk result (λ p. Leads self.now (outcome self.now (lent call.now)).state p.0) }
        ensures effects { IfOk result (λ p. p.1 ≡ record {
          sends = (outcome self.now (lent call.now)).sends;
          delivered = (outcome self.now (lent call.now)).delivered;
        }) }
    {
        let alloc = *self.held.allocator();
        let Ok(Decided { row, answer }) = decide(alloc, self, call) else {
            return Err(AllocError);
        };
        let effects = Effects::of(alloc, answer)?;
        Ok((row, effects))
    }

    /// Makes the call, and appends what it sends and delivers.
    fn make(&mut self, call: &Call<'_, A>, out: &mut Effects<A>) -> Result<(), AllocError>
        requires { CanTake self.old (lent call.now) }
        ensures ok { OnOk result (Does (lent call.now) self.old out.old self.new out.new) }
        ensures err { OnErr result ((self.new ≡ self.old) × (out.new ≡ out.old)) }
    {
        let (row, given) = self.foresee(call)?;
        let Effects { sends, delivered } = given;
        let kept = out.sends.len();
        out.send_all(sends)?;
        match self.take(row) {
            Ok(()) => {
                out.deliver(delivered);
                Ok(())
            }
            Err(e) => {
                out.keep_first(kept);
                Err(e)
            }
        }
    }

    /// Broadcasts the application's next message. Errors are tested in the order of `GossipFault`.
    pub fn broadcast(
        &mut self,
        payload: &Bytes<A>,
        out: &mut Effects<A>,
    ) -> Result<MsgId, GossipFault>
        ensures id { IfOk result (λ id. id ≡ next_id self.old) }
        ensures ok { OnOk result (Does (Broadcast payload.now) self.old out.old self.new out.new) }
        ensures too_long { IsErrOf result GossipFault.PayloadTooLong ↔ (MAX_PAYLOAD < length payload.now) }
        ensures spent { IsErrOf result GossipFault.SeqSpent
            ↔ ((length payload.now ≤ MAX_PAYLOAD) × (self.old.spent ≡ u64.MAX)) }
        ensures err { OnErr result ((self.new ≡ self.old) × (out.new ≡ out.old)) }
    {
        self.validate_broadcast(payload)?;
        let id = MsgId {
            origin: self.me,
            seq: self.spent + 1,
        };
        self.make(&CallOf::Broadcast { payload }, out)?;
        Ok(id)
    }

    /// Handles a packet that carries a message.
    pub fn on_gossip(
        &mut self,
        sender: &NodeName,
        id: &MsgId,
        round: u32,
        payload: &Bytes<A>,
        out: &mut Effects<A>,
    ) -> Result<(), AllocError>
        ensures ok { OnOk result
            (Does (OnGossip sender.now id.now round payload.now) self.old out.old self.new out.new) }
        ensures err { OnErr result ((self.new ≡ self.old) × (out.new ≡ out.old)) }
    {
        let call = CallOf::OnGossip {
            sender: *sender,
            id: *id,
            round,
            payload,
        };
        self.make(&call, out)
    }

    /// Returns the announcements of messages that the node lacks and did not broadcast itself.
    pub(crate) fn news(&self, entries: &[(MsgId, u32)]) -> Result<Vec<(MsgId, u32), A>, AllocError>
        ensures { IfOk result (λ news. news.items ≡ filter (λ entry. is_news self.now entry.0) entries.now) }
    {
        let mut news = Vec::new(*self.held.allocator());
        for entry in entries {
            if !self.knows(&entry.0) && entry.0.origin != self.me {
                news.push(*entry)?;
            }
        }
        Ok(news)
    }

    /// Handles a packet that announces messages. Announcements of a sender that is not a member are ignored.
    pub fn on_ihave(
        &mut self,
        sender: &NodeName,
        entries: &[(MsgId, u32)],
    ) -> Result<(), AllocError>
        ensures ok { OnOk result (self.new ≡ (outcome self.old (OnIHave sender.now entries.now)).state) }
        ensures err { OnErr result (self.new ≡ self.old) }
    {
        let row = announced(self, sender, entries)?;
        self.take(row)
    }

    /// Fires the timer of `id`: the peer that announced `id` first, if there is one, is asked for the message.
    pub fn fire(&mut self, id: &MsgId, out: &mut Effects<A>) -> Result<(), AllocError>
        ensures ok { OnOk result (Does (Fire id.now) self.old out.old self.new out.new) }
        ensures err { OnErr result ((self.new ≡ self.old) × (out.new ≡ out.old)) }
    {
        self.make(&CallOf::Fire { id: *id }, out)
    }

    /// Handles a packet that asks for a message.
    pub fn on_graft(
        &mut self,
        sender: &NodeName,
        id: &MsgId,
        round: u32,
        out: &mut Effects<A>,
    ) -> Result<(), AllocError>
        ensures ok { OnOk result (Does (OnGraft sender.now id.now round) self.old out.old self.new out.new) }
        ensures err { OnErr result ((self.new ≡ self.old) × (out.new ≡ out.old)) }
    {
        let call = CallOf::OnGraft {
            sender: *sender,
            id: *id,
            round,
        };
        self.make(&call, out)
    }

    /// Announces everything in the queue.
    pub fn flush(&mut self, out: &mut Effects<A>) -> Result<(), AllocError>
        ensures ok { OnOk result (Does Flush self.old out.old self.new out.new) }
        ensures err { OnErr result ((self.new ≡ self.old) × (out.new ≡ out.old)) }
    {
        self.make(&CallOf::Flush, out)
    }

    /// Handles a link that came up.
    pub fn up(&mut self, peer: &NodeName) -> Result<(), AllocError>
        ensures ok { OnOk result (self.new ≡ (outcome self.old (Up peer.now)).state) }
        ensures err { OnErr result (self.new ≡ self.old) }
    {
        self.peers.up(peer)
    }

    /// Handles a packet that asks for messages in place of announcements, and for no particular message.
    pub fn on_graft_peer(&mut self, sender: &NodeName)
        ensures { self.new ≡ (outcome self.old (OnGraftPeer sender.now)).state }
    {
        self.peers.make_eager(sender);
    }

    /// Handles a packet that asks for announcements in place of messages.
    pub fn on_prune(&mut self, sender: &NodeName)
        ensures { self.new ≡ (outcome self.old (OnPrune sender.now)).state }
    {
        self.peers.make_lazy(sender);
    }

    /// Handles a link that went down.
    pub fn down(&mut self, peer: &NodeName)
        ensures { self.new ≡ (outcome self.old (Down peer.now)).state }
    {
        self.peers.down(peer);
        self.missing.down(peer);
    }

    /// Handles links that went down, and then links that came up. If an allocation fails, nothing is changed.
    pub fn relink(&mut self, downs: &[NodeName], ups: &[NodeName]) -> Result<(), AllocError>
        ensures ok { OnOk result (self.new ≡ after_ups ups.now (after_downs downs.now self.old)) }
        ensures err { OnErr result (self.new ≡ self.old) }
    {
        self.peers.relink(downs, ups)?;
        self.missing.down_all(downs);
        Ok(())
    }

    /// Copies the whole gossip.
    pub fn copy(&self) -> Result<Self, AllocError>
        ensures { IfOk result (λ copy. copy ≡ self.now) }
    {
        Ok(Gossip {
            me: self.me,
            threshold: self.threshold,
            keep: self.keep,
            spent: self.spent,
            peers: self.peers.copy()?,
            missing: self.missing.copy()?,
            known: self.known.copy()?,
            held: self.held.copy()?,
        })
    }
}

impl<A: Allocator> Gossip<A> {
    /// Returns whether the message `id` was delivered here.
    pub fn knows(&self, id: &MsgId) -> bool
        ensures { result ≡ set.contains self.now.known id.now }
    {
        self.known.contains(id)
    }

    /// Returns the highest number up to which all messages of `origin` from 1 are known, and how many numbers are known
    /// past it. Both are 0 for an origin of which nothing is known.
    pub fn span(&self, origin: &Origin) -> (u64, usize)
        ensures span { IsSpan self.now.known origin.now result.0 result.1 }
        ensures last { result.0 ≡ u64.MAX → result.1 ≡ 0 }
    {
        self.known.span(origin)
    }

    /// Returns the payload of the message `id`, or `None` if it is not held.
    pub fn payload(&self, id: &MsgId) -> Option<&Bytes<A>>
        ensures { option_copied result ≡ lookup (same_id id.now) self.now.held }
    {
        self.held.payload(id)
    }

    /// Returns the ids of the held messages, in order of delivery.
    pub fn held(&self) -> &[MsgId]
        ensures { result.now ≡ keys_of self.now.held }
    {
        self.held.ids()
    }

    /// Returns the node and the run that this gossip belongs to.
    pub fn me(&self) -> Origin
        ensures { result ≡ self.now.me }
    {
        self.me
    }

    /// Returns how many messages the node has broadcast, including the count that it was created with.
    pub fn spent(&self) -> u64
        ensures { result ≡ self.now.spent }
    {
        self.spent
    }

    /// Returns the eager and lazy peers with the queued announcements.
    pub fn peers(&self) -> &PeerSets<A>
        ensures peers { result.now ≡ self.now.peers }
        ensures sound { IsSound self.now }
    {
        &self.peers
    }

    /// Returns the announcements and timers of the messages that the node lacks.
    pub fn missing(&self) -> &Missing<A>
        ensures { result.now ≡ self.now.missing }
    {
        &self.missing
    }
}
