//! A node of bytes, with what it gave and its caller has not got yet.
ghost use Rattle.std.specs.Prelude.{◌≡◌, ◌⊎◌, ◌<◌, ◌++◌, [], length, map, take, IfErr, IfNone, IfOk, IfSome};
ghost use Rattle.std.specs.Prelude.{MatchBool, OnErr, OnOk};
ghost use Rattle.plumtree_c.specs.Plain.{id_of, name_of};
ghost use Rattle.plumtree_c.specs.Wire.{bytes_for, Accepts, AreWireCounts, Delivers, Does};
ghost use Rattle.plumtree_c.specs.Wire.{HasNoDelivery, HasNoLost, HasNoNews};
ghost use Rattle.plumtree_c.specs.Wire.{HearsAll, HearsSome, Informs, Joins, Leaves};
ghost use Rattle.plumtree_c.specs.Wire.{Loses, Offers, Sends, Stays, TellsNews, TicksInPart, Went, WireStarts};
ghost use Rattle.wire_node.specs.Node.{Closes, Ticks};
ghost use Rattle.wire_node.specs.Waiting.{receivers_of};

use crate::piece::Piece;
use crate::plain::{Id, Name, PlainNews, WireCounts};
use crate::refusal::Refusal;
use crate::room::{bring, give, number_of, tell};
use crate::stirred::Stirred;
use bytes::Bytes;
use node_core::PlumCore;
use node_names::{Dice, Listed, NodeName, Origin};
use protocol::{Core, Delivery, MAX_PAYLOAD};
use std::alloc::Global;
use std::marker::Model;
use wire_node::{ConnectionId, News, Unrecorded, WireError, WireLimits, WireNode};

/// A node of bytes, with what it gave and its caller has not got yet.
#[derive(Drop)]
pub(crate) struct Wire {
    node: WireNode,
    /// Deliveries that were taken from the node. The first of them went to the caller.
    deliveries: Listed<Delivery>,
    /// How many of these went to the caller.
    given: usize,
    /// Lost names that were taken from the node. The first of them went to the caller.
    lost: Listed<NodeName>,
    /// How many of these went to the caller.
    told: usize,
    /// News that were taken from the node. The first of them went to the caller.
    news: Listed<News>,
    /// How many of these went to the caller.
    heard: usize,
    /// How often the node was lent for a change.
    turn: u64,
}

impl Model for Wire {
    ghost use Rattle.std.specs.Prelude.{◌+◌, ◌≤◌, drop, length};
    ghost use Rattle.plumtree_c.specs.Wire.{WireState};
    ghost use Rattle.std.specs.FinSet as set;
    ghost use Rattle.std.specs.Coded.{codes};
    ghost use Rattle.node_names.specs.Order.{id_cmp};
    ghost use Rattle.node_names.specs.contracts.ids.MsgId as id;

    ghost Value = { WireState };

    ghost coded = { Prim.hlevel (codes, set.code {R = id_cmp} id.the_row.coded) };

    ghost view = { λ w. record {
      node = w.node;
      deliveries = drop w.given w.deliveries;
      lost = drop w.told w.lost;
      news = drop w.heard w.news;
    } };

    // At most half of each list went to the caller.
    ghost invariant = { λ w. (w.given + w.given ≤ length w.deliveries)
        × (w.told + w.told ≤ length w.lost)
        × (w.heard + w.heard ≤ length w.news) };
}

/// Ends the connection, unless the step of that is refused. Returns whether it has ended.
fn close(node: &mut WireNode, number: u64, dice: &Dice) -> bool
    ensures { (node.new ≡ node.old) ⊎ Closes node.old number dice.now node.new }
{
    node.ended(ConnectionId(number), dice).is_ok()
}

/// Takes all the bytes that came over the connection. Where that is refused, the connection ends.
fn receive_all(node: &mut WireNode, number: u64, bytes: &[u8], dice: &Dice) -> Result<(), Refusal>
    ensures ok { OnOk result (HearsAll number bytes.now dice.now node.old node.new) }
    ensures err { OnErr result (HearsSome number bytes.now dice.now node.old node.new ⊎ (node.new ≡ node.old)) }
{
    let mut source = Stirred::new(dice);
    match node.receive(ConnectionId(number), bytes, &mut source) {
        Ok(()) => Ok(()),
        Err(failed) => match failed.error {
            WireError::NoConnection => Err(Refusal::NoConnection),
            error => {
                close(node, number, dice);
                Err(error.into())
            }
        },
    }
}

impl Wire {
    /// Starts a node of bytes.
    pub(crate) fn start(
        alloc: Global,
        me: Origin,
        limits: WireLimits,
        peers: &[NodeName],
        contact: Option<NodeName>,
    ) -> Result<Wire, Refusal>
        ensures { IfOk result (λ wire. WireStarts me limits.core limits.waiting peers.now contact wire) }
    {
        let node = WireNode::start(alloc, me, limits, peers, contact, Unrecorded)?;
        Ok(Wire {
            node,
            deliveries: Listed::new(alloc),
            given: 0,
            lost: Listed::new(alloc),
            told: 0,
            news: Listed::new(alloc),
            heard: 0,
            turn: 0,
        })
    }

    /// Broadcasts a message, and returns its number.
    pub(crate) fn broadcast(&mut self, alloc: Global, payload: &[u8]) -> Result<u64, Refusal>
        ensures ok { IfOk result (λ number. Does (Sends payload.now number) self.old self.new) }
        ensures err { OnErr result (self.new ≡ self.old) }
    {
        if payload.len() > MAX_PAYLOAD {
            return Err(Refusal::PayloadTooLong);
        }
        let payload = Bytes::copy_from_slice(alloc, payload)?;
        let id = self.node.broadcast(payload)?;
        Ok(id.seq)
    }

    /// Accepts a connection, and returns its number.
    pub(crate) fn accept(&mut self) -> Result<u64, Refusal>
        ensures ok { IfOk result (λ number. Does (Accepts number) self.old self.new) }
        ensures err { OnErr result (self.new ≡ self.old) }
    {
        let id = self.node.accept()?;
        Ok(id.0)
    }

    /// Takes all the bytes that came over the connection. Where that is refused, the connection ends.
    pub(crate) fn receive(&mut self, number: u64, bytes: &[u8], dice: &Dice) -> Result<(), Refusal>
        ensures ok { OnOk result (Does (HearsAll number bytes.now dice.now) self.old self.new) }
        ensures err { OnErr result
            (Does (HearsSome number bytes.now dice.now) self.old self.new ⊎ (self.new ≡ self.old)) }
    {
        receive_all(&mut self.node, number, bytes, dice)
    }

    /// Ends a connection.
    pub(crate) fn ended(&mut self, number: u64, dice: &Dice) -> Result<(), Refusal>
        ensures ok { OnOk result (Does (λ old new. Closes old number dice.now new) self.old self.new) }
        ensures err { OnErr result (self.new ≡ self.old) }
    {
        self.node.ended(ConnectionId(number), dice)?;
        Ok(())
    }

    /// Tells the node that the name cannot be reached.
    pub(crate) fn unreachable(&mut self, name: NodeName, dice: &Dice) -> Result<(), Refusal>
        ensures ok { OnOk result (Does (Leaves name dice.now) self.old self.new) }
        ensures err { OnErr result (self.new ≡ self.old) }
    {
        self.node.unreachable(name, dice)?;
        Ok(())
    }

    /// Has the node join by the contact, as at its start.
    pub(crate) fn join(&mut self, contact: NodeName, dice: &Dice) -> Result<(), Refusal>
        ensures ok { OnOk result (Does (Joins contact dice.now) self.old self.new) }
        ensures err { OnErr result (self.new ≡ self.old) }
    {
        self.node.join(contact, dice)?;
        Ok(())
    }

    /// Makes a tick. If a step is refused, those before it are made, and the tick does not count.
    pub(crate) fn tick(&mut self, dice: &Dice) -> Result<(), Refusal>
        ensures ok { OnOk result (Does (λ old new. Ticks old dice.now new) self.old self.new) }
        ensures err { OnErr result (Does (TicksInPart dice.now) self.old self.new) }
    {
        self.node.tick(dice)?;
        Ok(())
    }

    /// The names for whom bytes wait.
    pub(crate) fn receivers(&self) -> Result<Vec<NodeName>, Refusal>
        ensures { IfOk result (λ names. names.items ≡ receivers_of self.now.node.engine.machine.waiting) }
    {
        Ok(self.node.receivers()?)
    }

    /// How many bytes wait for the name.
    pub(crate) fn waiting(&self, name: &NodeName) -> usize
        ensures { result ≡ length (bytes_for self.now name.now) }
    {
        self.node.waiting(name)
    }

    /// Lends the first of the bytes that wait for the name. Returns whether any do.
    pub(crate) fn transmit(&self, name: &NodeName, pieces: &mut [Piece; 4]) -> bool
        ensures offers { Offers name.now pieces.new self.now }
        ensures waits { MatchBool result (0 < length (bytes_for self.now name.now)) (bytes_for self.now name.now ≡ []) }
    {
        let [a, b, c, d] = self.node.transmit(name);
        *pieces = [Piece::of(a), Piece::of(b), Piece::of(c), Piece::of(d)];
        !(a.is_empty() && b.is_empty() && c.is_empty() && d.is_empty())
    }

    /// Takes the first of the bytes that wait for the name: they went out.
    pub(crate) fn transmitted(&mut self, name: &NodeName, count: usize)
        ensures { Does (Went name.now count) self.old self.new }
    {
        self.node.transmitted(name, count);
    }

    /// Takes what the node delivered, if the caller has got all that was taken before.
    fn refill_deliveries(&mut self)
        ensures same { Stays self.old self.new }
        ensures all { self.new.deliveries ≡ [] → self.new.node.engine.machine.pending ≡ [] }
    {
        if !self.deliveries.is_empty() {
            return;
        }
        self.deliveries = Listed::from_vec(self.node.take_deliveries());
        self.given = 0;
    }

    /// Takes the first delivery that waits and was taken from the node, as `next_delivery` does.
    fn give_first(&mut self, room: &mut [u8], length: &mut usize) -> Result<Option<Id>, Refusal>
        ensures some { IfOk result
            (λ id. IfSome id (λ id. Delivers (id_of id) (take length.new room.new) self.old self.new)) }
        ensures none { IfOk result (λ id. IfNone id (self.new ≡ self.old)) }
        ensures empty { IfOk result (λ id. IfNone id (self.old.deliveries ≡ [])) }
        ensures err { OnErr result (self.new ≡ self.old) }
    {
        give(&mut self.deliveries, &mut self.given, room, length)
    }

    /// Takes the first delivery that waits: returns the message's id, and puts its payload at the front of the room.
    /// `length` is then the number of bytes, also where the room is too small.
    pub(crate) fn next_delivery(
        &mut self,
        room: &mut [u8],
        length: &mut usize,
    ) -> Result<Option<Id>, Refusal>
        ensures some { IfOk result
            (λ id. IfSome id (λ id. Delivers (id_of id) (take length.new room.new) self.old self.new)) }
        ensures none { IfOk result (λ id. IfNone id (HasNoDelivery self.old self.new)) }
        ensures err { OnErr result (Stays self.old self.new) }
    {
        self.refill_deliveries();
        self.give_first(room, length)
    }

    /// Takes the lost names of the node, if the caller has got all that were taken before.
    fn refill_lost(&mut self)
        ensures same { Stays self.old self.new }
        ensures all { self.new.lost ≡ [] → self.new.node.engine.lost ≡ [] }
    {
        if !self.lost.is_empty() {
            return;
        }
        self.lost = Listed::from_vec(self.node.take_lost());
        self.told = 0;
    }

    /// Takes the first lost name that waits and was taken from the node.
    fn tell_first(&mut self) -> Option<Name>
        ensures some { IfSome result (λ name. Loses (name_of name) self.old self.new) }
        ensures none { IfNone result (self.new ≡ self.old) }
        ensures empty { IfNone result (self.old.lost ≡ []) }
    {
        tell(&mut self.lost, &mut self.told)
    }

    /// Takes the first lost name that waits.
    pub(crate) fn next_lost(&mut self) -> Option<Name>
        ensures some { IfSome result (λ name. Loses (name_of name) self.old self.new) }
        ensures none { IfNone result (HasNoLost self.old self.new) }
    {
        self.refill_lost();
        self.tell_first()
    }

    /// Has the node tell news of its next steps, or not.
    pub(crate) fn tell_news(&mut self, tells: bool)
        ensures { Does (TellsNews tells) self.old self.new }
    {
        self.node.tell_news(tells);
    }

    /// Takes the news of the node, if the caller has got all that were taken before.
    fn refill_news(&mut self) -> Result<(), Refusal>
        ensures ok { OnOk result (Stays self.old self.new) }
        ensures all { OnOk result (self.new.news ≡ [] → self.new.node.engine.machine.news ≡ []) }
        ensures err { OnErr result (self.new ≡ self.old) }
    {
        if !self.news.is_empty() {
            return Ok(());
        }
        self.news = Listed::from_vec(self.node.take_news()?);
        self.heard = 0;
        Ok(())
    }

    /// Takes the first news that wait and were taken from the node.
    fn bring_first(&mut self) -> Option<PlainNews>
        ensures some { IfSome result (λ its. Informs its self.old self.new) }
        ensures none { IfNone result (self.new ≡ self.old) }
        ensures empty { IfNone result (self.old.news ≡ []) }
    {
        bring(&mut self.news, &mut self.heard)
    }

    /// Takes the first news that wait.
    pub(crate) fn next_news(&mut self) -> Result<Option<PlainNews>, Refusal>
        ensures some { IfOk result (λ found. IfSome found (λ its. Informs its self.old self.new)) }
        ensures none { IfOk result (λ found. IfNone found (HasNoNews self.old self.new)) }
        ensures err { OnErr result (self.new ≡ self.old) }
    {
        self.refill_news()?;
        Ok(self.bring_first())
    }

    /// How much the node has.
    pub(crate) fn counts(&self) -> WireCounts
        ensures { AreWireCounts result self.now }
    {
        let core = self.node.core();
        WireCounts {
            held: core.held().len() as u64,
            missing: number_of(core.timers()) as u64,
            wants: number_of(core.wants()) as u64,
            queued: core.queued().len() as u64,
            ticks: self.node.ticks(),
        }
    }

    /// How often the node was lent for a change.
    pub(crate) fn turn(&self) -> u64 {
        self.turn
    }

    /// Counts one more time that the node was lent for a change, and returns the count.
    pub(crate) fn next_turn(&mut self) -> u64
        ensures { self.new ≡ self.old }
    {
        self.turn = self.turn.wrapping_add(1);
        self.turn
    }

    /// The core, to be read.
    pub(crate) fn core(&self) -> &PlumCore
        ensures { result.now ≡ self.now.node.engine.machine.core }
    {
        self.node.core()
    }
}
