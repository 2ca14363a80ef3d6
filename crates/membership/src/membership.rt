//! A node's part in the membership protocol.
ghost use Rattle.std.specs.Prelude.{◌≡◌, [], IfOk, OnOk, OnErr, None};
ghost use Rattle.views.specs.Views.{ArePeers, fresh};
ghost use Rattle.membership.specs.Membership.{Ends, ended, moves_of, still};
ghost use Rattle.membership.specs.Draft.{turn_of};
ghost use Rattle.membership.specs.Event.{lent};
ghost use Rattle.membership.specs.declared.event.EventOf.TheVariants as Event;
ghost use Rattle.membership.specs.Table.{table};

use crate::draft::Draft;
use crate::event::{Event, EventOf};
use crate::moves::Moves;
use node_names::{Dice, Limits, Listed, NodeName};
use std::alloc::{AllocError, Allocator, Global};
use std::marker::Model;
use views::Views;

/// The part of a node that keeps its views, and answers the messages of the membership protocol.
#[derive(Drop)]
pub struct Membership<A: Allocator = Global> {
    views: Views<A>,
    asked: Option<NodeName>,
    shuffled: Listed<NodeName, A>,
}

impl<A: Allocator> Model for Membership<A> {
    ghost use Rattle.membership.specs.Membership.{Membership as Plain};

    ghost Value = { Plain };

    ghost view = { λ m. record { views = m.views; asked = m.asked; shuffled = m.shuffled } };
}

impl<A: Allocator> Membership<A> {
    /// Returns the two views.
    pub fn views(&self) -> &Views<A>
        ensures { result.now ≡ self.now.views }
    {
        &self.views
    }

    /// Returns the name that was asked to become a neighbour and has not answered, if there is one.
    pub fn asked(&self) -> Option<NodeName>
        ensures { result ≡ self.now.asked }
    {
        self.asked
    }
}

impl<A: Allocator + Copy> Membership<A> {
    /// Creates the membership of `owner` with the `peers` as its active names. No passive name is known, and no request
    /// stands.
    pub fn new(
        alloc: A,
        owner: NodeName,
        limits: Limits,
        peers: &[NodeName],
    ) -> Result<Membership<A>, AllocError>
        requires { ArePeers owner limits peers.now }
        ensures { IfOk result (λ m. m ≡ record { views = fresh owner limits peers.now; asked = None; shuffled = [] }) }
    {
        let views = Views::new(alloc, owner, limits, peers)?;
        Ok(Membership {
            views,
            asked: None,
            shuffled: Listed::new(alloc),
        })
    }

    /// Returns a copy of the membership.
    pub fn copy(&self) -> Result<Membership<A>, AllocError>
        ensures { IfOk result (λ copy. copy ≡ self.now) }
    {
        let views = self.views.copy()?;
        let remembered = self.shuffled.copy()?;
        Ok(Membership {
            views,
            asked: self.asked,
            shuffled: remembered,
        })
    }

    /// Returns a draft of a turn that has sent and reported nothing yet.
    fn draft(&self) -> Result<Draft<A>, AllocError>
        ensures { IfOk result (λ draft. turn_of draft ≡ still self.now) }
    {
        let alloc = *self.shuffled.allocator();
        let views = self.views.copy()?;
        let shuffled = self.shuffled.copy()?;
        Ok(Draft {
            views,
            asked: self.asked,
            shuffled,
            sends: Listed::new(alloc),
            downs: Listed::new(alloc),
            ups: Listed::new(alloc),
        })
    }

    /// Returns the membership after the event, and the moves that the event causes. This membership stays as it is: a
    /// caller that goes through with the event replaces it by the new one, which does not allocate.
    pub fn prepare(
        &self,
        event: &Event<'_>,
        dice: &Dice,
    ) -> Result<(Membership<A>, Moves<A>), AllocError>
        ensures next { IfOk result (λ p. p.0 ≡ ended (table (lent event.now) dice.now (still self.now))) }
        ensures moves { IfOk result (λ p. p.1 ≡ moves_of (table (lent event.now) dice.now (still self.now))) }
    {
        let mut draft = self.draft()?;
        draft.take(event, dice)?;
        let Draft {
            views,
            asked,
            shuffled,
            sends,
            downs,
            ups,
        } = draft;
        let next = Membership {
            views,
            asked,
            shuffled,
        };
        Ok((next, Moves { sends, downs, ups }))
    }

    /// Handles the event, and appends the moves that it causes to `moves`. If memory is refused, neither the membership
    /// nor `moves` changes. The same holds of all methods below that handle an event.
    fn take(
        &mut self,
        event: &Event<'_>,
        dice: &Dice,
        moves: &mut Moves<A>,
    ) -> Result<(), AllocError>
        ensures ok { OnOk result
            (Ends (table (lent event.now) dice.now (still self.old)) moves.old self.new moves.new) }
        ensures err { OnErr result ((self.new ≡ self.old) × (moves.new ≡ moves.old)) }
    {
        let (next, made) = self.prepare(event, dice)?;
        moves.append(made)?;
        *self = next;
        Ok(())
    }

    /// Joins the group through `contact`, to which it sends JOIN.
    pub fn join(&mut self, contact: NodeName, moves: &mut Moves<A>) -> Result<(), AllocError>
        ensures ok { (dice : _)
            → OnOk result (Ends (table (Event.Joins contact) dice (still self.old)) moves.old self.new moves.new) }
        ensures err { OnErr result ((self.new ≡ self.old) × (moves.new ≡ moves.old)) }
    {
        self.take(&EventOf::Joins { contact }, &Dice([0; 16]), moves)
    }

    /// Handles a JOIN: `sender` joins the group through this node.
    pub fn on_join(
        &mut self,
        sender: NodeName,
        dice: &Dice,
        moves: &mut Moves<A>,
    ) -> Result<(), AllocError>
        ensures ok { OnOk result
            (Ends (table (Event.Join sender) dice.now (still self.old)) moves.old self.new moves.new) }
        ensures err { OnErr result ((self.new ≡ self.old) × (moves.new ≡ moves.old)) }
    {
        self.take(&EventOf::Join { sender }, dice, moves)
    }

    /// Handles a FORWARDJOIN: the name `new` of a node that joins, on a random walk with `ttl` steps left.
    pub fn on_forward_join(
        &mut self,
        sender: NodeName,
        new: NodeName,
        ttl: u8,
        dice: &Dice,
        moves: &mut Moves<A>,
    ) -> Result<(), AllocError>
        ensures ok { OnOk result
            (Ends (table (Event.ForwardJoin sender new ttl) dice.now (still self.old)) moves.old self.new moves.new) }
        ensures err { OnErr result ((self.new ≡ self.old) × (moves.new ≡ moves.old)) }
    {
        self.take(&EventOf::ForwardJoin { sender, new, ttl }, dice, moves)
    }

    /// Handles a NEIGHBOR: the request of `sender` to become a neighbour, of high or low priority.
    pub fn on_neighbor(
        &mut self,
        sender: NodeName,
        high: bool,
        dice: &Dice,
        moves: &mut Moves<A>,
    ) -> Result<(), AllocError>
        ensures ok { OnOk result
            (Ends (table (Event.Neighbor sender high) dice.now (still self.old)) moves.old self.new moves.new) }
        ensures err { OnErr result ((self.new ≡ self.old) × (moves.new ≡ moves.old)) }
    {
        self.take(&EventOf::Neighbor { sender, high }, dice, moves)
    }

    /// Handles a NEIGHBORREPLY: the answer of `sender` to such a request.
    pub fn on_reply(
        &mut self,
        sender: NodeName,
        accepted: bool,
        dice: &Dice,
        moves: &mut Moves<A>,
    ) -> Result<(), AllocError>
        ensures ok { OnOk result
            (Ends (table (Event.Reply sender accepted) dice.now (still self.old)) moves.old self.new moves.new) }
        ensures err { OnErr result ((self.new ≡ self.old) × (moves.new ≡ moves.old)) }
    {
        self.take(&EventOf::Reply { sender, accepted }, dice, moves)
    }

    /// Handles a DISCONNECT: `sender` has removed this node from its active view.
    pub fn on_disconnect(
        &mut self,
        sender: NodeName,
        dice: &Dice,
        moves: &mut Moves<A>,
    ) -> Result<(), AllocError>
        ensures ok { OnOk result
            (Ends (table (Event.Disconnect sender) dice.now (still self.old)) moves.old self.new moves.new) }
        ensures err { OnErr result ((self.new ≡ self.old) × (moves.new ≡ moves.old)) }
    {
        self.take(&EventOf::Disconnect { sender }, dice, moves)
    }

    /// Handles a SHUFFLE: `names` that `origin` knows, on a random walk with `ttl` steps left.
    pub fn on_shuffle(
        &mut self,
        sender: NodeName,
        origin: NodeName,
        ttl: u8,
        names: &[NodeName],
        dice: &Dice,
        moves: &mut Moves<A>,
    ) -> Result<(), AllocError>
        ensures ok { OnOk result (Ends (table (Event.Shuffle sender origin ttl names.now) dice.now (still self.old))
            moves.old self.new moves.new) }
        ensures err { OnErr result ((self.new ≡ self.old) × (moves.new ≡ moves.old)) }
    {
        self.take(
            &EventOf::Shuffle {
                sender,
                origin,
                ttl,
                names,
            },
            dice,
            moves,
        )
    }

    /// Handles a SHUFFLEREPLY: the `names` that answer a shuffle of this node.
    pub fn on_shuffle_reply(
        &mut self,
        sender: NodeName,
        names: &[NodeName],
        dice: &Dice,
        moves: &mut Moves<A>,
    ) -> Result<(), AllocError>
        ensures ok { OnOk result (Ends
            (table (Event.ShuffleReply sender names.now) dice.now (still self.old)) moves.old self.new moves.new) }
        ensures err { OnErr result ((self.new ≡ self.old) × (moves.new ≡ moves.old)) }
    {
        self.take(&EventOf::ShuffleReply { sender, names }, dice, moves)
    }

    /// Handles the failure of the link to `peer`.
    pub fn on_down(
        &mut self,
        peer: NodeName,
        dice: &Dice,
        moves: &mut Moves<A>,
    ) -> Result<(), AllocError>
        ensures ok { OnOk result
            (Ends (table (Event.Down peer) dice.now (still self.old)) moves.old self.new moves.new) }
        ensures err { OnErr result ((self.new ≡ self.old) × (moves.new ≡ moves.old)) }
    {
        self.take(&EventOf::Down { peer }, dice, moves)
    }

    /// Handles the membership tick: starts a shuffle, and asks for a new neighbour if the active view has room.
    pub fn tick(&mut self, dice: &Dice, moves: &mut Moves<A>) -> Result<(), AllocError>
        ensures ok { OnOk result (Ends (table (Event.Tick) dice.now (still self.old)) moves.old self.new moves.new) }
        ensures err { OnErr result ((self.new ≡ self.old) × (moves.new ≡ moves.old)) }
    {
        self.take(&EventOf::Tick, dice, moves)
    }
}
