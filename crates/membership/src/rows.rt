//! The rows of the table: how each event changes a draft.
ghost use Rattle.std.specs.Prelude.{◌≡◌, ◌+◌, ◌≤◌, [], ◌∷◌, ◌++◌, OnOk, IfOk, length, take};
ghost use Rattle.frames.specs.declared.body.BodyOf.TheVariants as body;
ghost use Rattle.views.specs.Names.{others, sample};
ghost use Rattle.membership.specs.Blocks as block;
ghost use Rattle.membership.specs.Table as row;
ghost use Rattle.membership.specs.Draft.{turn_of};
ghost use Rattle.membership.specs.Event.{lent};

use crate::draft::{Draft, is_asked};
use crate::event::{Event, EventOf};
use crate::pick::{choose, pick};
use frames::BodyOf;
use node_names::{Dice, Listed, NodeName};
use std::alloc::{AllocError, Allocator};

/// The number of words, and so of names, that an answer to a shuffle uses at most.
const ANSWER_WORDS: usize = 8;

/// Returns a list of the `owner`'s name, the `active` names and the `passive` names, in this order.
fn joined<A: Allocator + Copy>(
    alloc: A,
    owner: NodeName,
    active: &[NodeName],
    passive: &[NodeName],
) -> Result<Listed<NodeName, A>, AllocError>
    ensures { IfOk result (λ names. names ≡ owner ∷ (active.now ++ passive.now)) }
{
    let mut names = Listed::new(alloc);
    names.push(owner)?;
    names.append(Vec::from_slice(alloc, active)?)?;
    names.append(Vec::from_slice(alloc, passive)?)?;
    Ok(names)
}

impl<A: Allocator + Copy> Draft<A> {
    /// Handles the event as its row of the table says.
    pub(crate) fn take(&mut self, event: &Event<'_>, dice: &Dice) -> Result<(), AllocError>
        ensures { OnOk result (turn_of self.new ≡ row.table (lent event.now) dice.now (turn_of self.old)) }
    {
        match event {
            EventOf::Joins { contact } => self.send(*contact, BodyOf::Join),
            EventOf::Join { sender } => self.on_join(*sender, dice),
            EventOf::ForwardJoin { sender, new, ttl } => {
                self.on_forward_join(*sender, *new, *ttl, dice)
            }
            EventOf::Neighbor { sender, high } => self.on_neighbor(*sender, *high, dice),
            EventOf::Reply { sender, accepted } => self.on_reply(*sender, *accepted, dice),
            EventOf::Disconnect { sender } => self.on_disconnect(*sender, dice),
            EventOf::Shuffle {
                sender,
                origin,
                ttl,
                names,
            } => self.on_shuffle(*sender, *origin, *ttl, names, dice),
            EventOf::ShuffleReply { names, .. } => self.on_shuffle_reply(names, dice),
            EventOf::Down { peer } => self.on_down(*peer, dice),
            EventOf::Tick => self.on_tick(dice),
        }
    }

    /// Sends `new` on a walk with `ttl` steps to each of the `receivers` other than `new` itself.
    fn send_walks(
        &mut self,
        new: NodeName,
        ttl: u8,
        receivers: &[NodeName],
    ) -> Result<(), AllocError>
        ensures { OnOk result (turn_of self.new
            ≡ block.send_all (body.ForwardJoin new ttl) (others (new ∷ []) receivers.now) (turn_of self.old)) }
    {
        for receiver in receivers {
            if *receiver != new {
                self.send(*receiver, BodyOf::ForwardJoin { new, ttl })?;
            }
        }
        Ok(())
    }

    /// Handles a JOIN: welcomes the sender, and sends its name on a walk to each other active name.
    fn on_join(&mut self, sender: NodeName, dice: &Dice) -> Result<(), AllocError>
        ensures { OnOk result (turn_of self.new ≡ row.on_join dice.now sender (turn_of self.old)) }
    {
        let ttl = self.views.limits().arwl();
        self.welcome(sender, dice)?;
        let active = self.active_names()?;
        self.send_walks(sender, ttl, active.as_slice())
    }

    /// Returns a copy of the active names.
    fn active_names(&self) -> Result<Vec<NodeName, A>, AllocError>
        ensures { IfOk result (λ names. names.items ≡ self.now.views.active) }
    {
        let active = self.views.active();
        Vec::from_slice(*active.allocator(), active.as_slice())
    }

    /// Handles a FORWARDJOIN: welcomes the new name at its walk's end or with at most one active name, and otherwise
    /// sends it on. Does nothing if the new name is the owner's.
    fn on_forward_join(
        &mut self,
        sender: NodeName,
        new: NodeName,
        ttl: u8,
        dice: &Dice,
    ) -> Result<(), AllocError>
        ensures { OnOk result (turn_of self.new ≡ row.on_forward_join dice.now sender new ttl (turn_of self.old)) }
    {
        if new == self.views.owner() {
            return Ok(());
        }
        if ttl == 0 || self.views.active().len() <= 1 {
            return self.welcome(new, dice);
        }
        if ttl == self.views.limits().prwl() {
            self.views.add_passive(new, dice)?;
        }
        self.walk_on(sender, new, ttl - 1, dice)
    }

    /// Sends `new` on, with `ttl` steps left, to the active name other than `sender` and `new` that word 1 chooses.
    /// Welcomes `new` if there is no such name.
    fn walk_on(
        &mut self,
        sender: NodeName,
        new: NodeName,
        ttl: u8,
        dice: &Dice,
    ) -> Result<(), AllocError>
        ensures { OnOk result (turn_of self.new ≡ row.walk_on dice.now sender new ttl (turn_of self.old)) }
    {
        let active = self.views.active().as_slice();
        let Some(next) = pick(&[sender, new], active, dice.0[1]) else {
            return self.welcome(new, dice);
        };
        self.send(next, BodyOf::ForwardJoin { new, ttl })
    }

    /// Handles a NEIGHBOR: answers whether the sender is accepted, and admits it if it is.
    fn on_neighbor(&mut self, sender: NodeName, high: bool, dice: &Dice) -> Result<(), AllocError>
        ensures { OnOk result (turn_of self.new ≡ row.on_neighbor dice.now sender high (turn_of self.old)) }
    {
        let accepted = high || self.is_active(&sender) || self.has_room();
        if accepted {
            self.admit(sender, dice)?;
        }
        self.send(sender, BodyOf::NeighborReply { accepted })
    }

    /// Handles a NEIGHBORREPLY: closes a request to the sender. If it accepted and is not active, it is admitted if
    /// there is room, and otherwise sent DISCONNECT. If it refused and is active, it is demoted.
    fn on_reply(&mut self, sender: NodeName, accepted: bool, dice: &Dice) -> Result<(), AllocError>
        ensures { OnOk result (turn_of self.new ≡ row.on_reply dice.now sender accepted (turn_of self.old)) }
    {
        self.close_request(&sender);
        if !accepted {
            return self.step_down(sender, dice);
        }
        if self.is_active(&sender) {
            return Ok(());
        }
        if self.has_room() {
            return self.admit(sender, dice);
        }
        self.send(sender, BodyOf::Disconnect)
    }

    /// Handles a DISCONNECT: demotes the sender, and asks another name in its place. Does nothing if the sender is not
    /// active.
    fn on_disconnect(&mut self, sender: NodeName, dice: &Dice) -> Result<(), AllocError>
        ensures { OnOk result (turn_of self.new ≡ row.on_disconnect dice.now sender (turn_of self.old)) }
    {
        if !self.is_active(&sender) {
            return Ok(());
        }
        self.step_down(sender, dice)?;
        self.promote(&[sender], dice)
    }

    /// Handles the failure of the link to `peer`: forgets an active or asked name, and asks another in its place. Does
    /// nothing for any other name.
    fn on_down(&mut self, peer: NodeName, dice: &Dice) -> Result<(), AllocError>
        ensures { OnOk result (turn_of self.new ≡ row.on_down dice.now peer (turn_of self.old)) }
    {
        if self.is_active(&peer) {
            self.downs.push(peer)?;
        } else if !is_asked(&peer, &self.asked) {
            return Ok(());
        }
        self.views.forget(peer);
        self.close_request(&peer);
        self.promote(&[], dice)
    }

    /// Draws the active names for a shuffle with `target`.
    fn shuffled_active(&self, target: NodeName, dice: &Dice) -> Result<Vec<NodeName, A>, AllocError>
        ensures { IfOk result (λ names. names.items ≡ block.shuffled_active dice.now target self.now.views) }
    {
        let limits = self.views.limits();
        let words = &dice.0[4..];
        self.views
            .sample_active(usize::from(limits.ka()), target, words)
    }

    /// Draws the passive names for a shuffle.
    fn shuffled_passive(&self, dice: &Dice) -> Result<Vec<NodeName, A>, AllocError>
        ensures { IfOk result (λ names. names.items ≡ block.shuffled_passive dice.now self.now.views) }
    {
        let limits = self.views.limits();
        let ka = usize::from(limits.ka());
        let kp = usize::from(limits.kp());
        self.views.sample_passive(kp, &dice.0[4 + ka..])
    }

    /// Sends a SHUFFLE to `target`, and remembers its passive names.
    fn shuffle_with(&mut self, target: NodeName, dice: &Dice) -> Result<(), AllocError>
        ensures { OnOk result (turn_of self.new ≡ block.shuffle_with dice.now target (turn_of self.old)) }
    {
        let origin = self.views.owner();
        let ttl = self.views.limits().arwl();
        let active = self.shuffled_active(target, dice)?;
        let passive = self.shuffled_passive(dice)?;
        let alloc = *active.allocator();
        let names = joined(alloc, origin, active.as_slice(), passive.as_slice())?;
        self.shuffled = Listed::from_vec(passive);
        self.send(target, BodyOf::Shuffle { origin, ttl, names })
    }

    /// Handles the tick: starts a shuffle. Then, if the active view has room, forgets a standing request and asks anew.
    fn on_tick(&mut self, dice: &Dice) -> Result<(), AllocError>
        ensures { OnOk result (turn_of self.new ≡ row.on_tick dice.now (turn_of self.old)) }
    {
        self.start_shuffle(dice)?;
        if !self.has_room() {
            return Ok(());
        }
        self.asked = None;
        self.promote(&[], dice)
    }

    /// Starts a shuffle with the active name that word 1 chooses. Does nothing if there is no active name.
    fn start_shuffle(&mut self, dice: &Dice) -> Result<(), AllocError>
        ensures { OnOk result (turn_of self.new ≡ row.start_shuffle dice.now (turn_of self.old)) }
    {
        let Some(target) = choose(self.views.active().as_slice(), dice.0[1]) else {
            return Ok(());
        };
        self.shuffle_with(target, dice)
    }

    /// Sends `origin` an answer to its shuffle, and integrates the `names` of the shuffle.
    fn accept_shuffle(
        &mut self,
        origin: NodeName,
        names: &[NodeName],
        dice: &Dice,
    ) -> Result<(), AllocError>
        ensures { OnOk result (turn_of self.new ≡ block.accept_shuffle dice.now origin names.now (turn_of self.old)) }
    {
        let words = &dice.0[4..4 + ANSWER_WORDS];
        let count = names.len().min(ANSWER_WORDS);
        let answer = Listed::from_vec(self.views.sample_passive(count, words)?);
        self.views.integrate(names, answer.as_slice(), dice)?;
        self.send(origin, BodyOf::ShuffleReply { names: answer })
    }

    /// Handles a SHUFFLE: passes it on with one step less, or accepts it if no step is left, at most one name is
    /// active, or there is no active name to pass it on to. Does nothing for a shuffle of the owner.
    fn on_shuffle(
        &mut self,
        sender: NodeName,
        origin: NodeName,
        ttl: u8,
        names: &[NodeName],
        dice: &Dice,
    ) -> Result<(), AllocError>
        ensures { OnOk result
            (turn_of self.new ≡ row.on_shuffle dice.now sender origin ttl names.now (turn_of self.old)) }
    {
        if origin == self.views.owner() {
            return Ok(());
        }
        let ttl = ttl.saturating_sub(1);
        if ttl == 0 || self.views.active().len() <= 1 {
            return self.accept_shuffle(origin, names, dice);
        }
        let active = self.views.active();
        let Some(next) = pick(&[sender, origin], active.as_slice(), dice.0[1]) else {
            return self.accept_shuffle(origin, names, dice);
        };
        let passed = Vec::from_slice(*active.allocator(), names)?;
        let names = Listed::from_vec(passed);
        self.send(next, BodyOf::Shuffle { origin, ttl, names })
    }

    /// Handles a SHUFFLEREPLY: integrates its names, for which the remembered names leave first, and then remembers
    /// none.
    fn on_shuffle_reply(&mut self, names: &[NodeName], dice: &Dice) -> Result<(), AllocError>
        ensures { OnOk result (turn_of self.new ≡ row.on_shuffle_reply dice.now names.now (turn_of self.old)) }
    {
        self.views.integrate(names, self.shuffled.as_slice(), dice)?;
        self.shuffled.truncate(0);
        Ok(())
    }
}
