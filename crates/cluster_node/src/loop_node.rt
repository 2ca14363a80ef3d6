//! A node in a cluster, as an event loop runs it.
ghost use Rattle.std.specs.Prelude.{◌≡◌, ◌<◌, [], length, true};
ghost use Rattle.bytes.specs.Unread.{concat_slices};

use crate::cluster_node::ClusterNode;
use crate::notice::Notice;
use crate::stepped_node::SteppedNode;
use event_loop::{LinkError, LoopNode};
use node_names::{Dice, NodeName};
use rand_core::Rng;
use std::alloc::{AllocError, Allocator};
use std::net::SocketAddr;
use wire_node::{ConnectionId, ReceiveError, WireError};

/// No bytes.
const NOTHING: &[u8] = &[];

impl<N: SteppedNode<A>, A: Allocator + Copy> ClusterNode<N, A> {
    /// Whether a node is known at the end of a connection, and in the active view.
    fn is_neighbor(&self, name: &Option<NodeName>) -> bool {
        match name {
            Some(name) => self.node.is_peer(name),
            None => false,
        }
    }

    /// The node at the other end of a connection, once it said its hello.
    fn name_at(&self, id: ConnectionId) -> Option<NodeName> {
        match self.arrivals.get(&id.0) {
            Some(incoming) => incoming.arrival.dialler(),
            None => None,
        }
    }

    /// Whether one of the contacts is in the active view.
    fn has_contact(&self) -> bool {
        self.contacts.iter().any(|name| self.node.is_peer(name))
    }
}

impl<N: SteppedNode<A>, A: Allocator + Copy> LoopNode<A> for ClusterNode<N, A> {
    fn accept(&mut self) -> Result<ConnectionId, WireError> {
        self.arrivals.reserve(1)?;
        let id = self.node.accept()?;
        self.keep(id)?;
        Ok(id)
    }

    fn receive<G: Rng>(
        &mut self,
        id: ConnectionId,
        bytes: &[u8],
        generator: &mut G,
    ) -> Result<(), ReceiveError> {
        self.take_all(id, bytes, generator)
    }

    fn ended(&mut self, id: ConnectionId, dice: &Dice) -> Result<(), WireError> {
        let name = self.name_at(id);
        let was_peer = self.is_neighbor(&name);
        self.node.ended(id, dice)?;
        self.is_apart = self.is_apart || was_peer && !self.is_neighbor(&name);
        self.arrivals.swap_remove(&id.0);
        self.introduce();
        Ok(())
    }

    fn unreachable(&mut self, name: NodeName, dice: &Dice) -> Result<(), WireError> {
        if self.is_own(&name) {
            // (the node itself has no links to its own name)
            return Ok(());
        }
        let was_peer = self.node.is_peer(&name);
        self.node.unreachable(name, dice)?;
        self.is_apart = self.is_apart || was_peer;
        self.introduce();
        Ok(())
    }

    fn join(&mut self, contact: NodeName, dice: &Dice) -> Result<(), WireError> {
        self.node.join(contact, dice)?;
        self.introduce();
        self.notices.push(Notice::Joining { contact });
        Ok(())
    }

    fn tick(&mut self, dice: &Dice) -> Result<(), WireError> {
        let ticked = self.node.tick(dice);
        self.introduce();
        self.is_apart = self.is_apart && !self.has_contact();
        self.beat();
        ticked
    }

    fn ask_on<G: Rng>(&mut self, generator: &mut G) -> Result<(), WireError> {
        let asked = self.node.ask_on(generator);
        self.introduce();
        asked
    }

    fn receivers(&self) -> Result<Vec<NodeName, A>, AllocError> {
        if self.holds_back() {
            return Ok(Vec::new(self.alloc));
        }
        let mut names = self.node.receivers()?;
        if self.is_namesake_due() {
            names.push(self.identity.name)?;
        }
        for (name, link) in &self.links {
            if link.waiting() > 0 && self.node.waiting(name) == 0 {
                names.push(*name)?;
            }
        }
        Ok(names)
    }

    fn waiting(&self, name: &NodeName) -> usize {
        let records = match self.links.get(name) {
            Some(link) => link.waiting(),
            None => 0,
        };
        self.node.waiting(name).saturating_add(records)
    }

    /// Lends the first of what waits for the name. What is lent follows from steps alone that were taken for the record
    /// before, also where a step is made between the names of one round: it is written there before any other node sees
    /// what it sent. `waiting` counts what is held back, since a link for which nothing waits may be closed.
    fn transmit(&self, name: &NodeName) -> [&[u8]; 4]
        ensures recorded { 0 < length self.now.log.kept.items → concat_slices result ≡ [] }
        ensures silent { self.now.is_silent ≡ true → concat_slices result ≡ [] }
    {
        if self.holds_back() {
            return [NOTHING, NOTHING, NOTHING, NOTHING];
        }
        let frames = self.node.transmit(name);
        match self.links.get(name) {
            Some(link) => link.front(frames),
            None => frames,
        }
    }

    fn transmitted(&mut self, name: &NodeName, count: usize) {
        let of_frames = match self.links.get_mut(name) {
            Some(link) => link.sent(self.node.transmit(name), count),
            None => count,
        };
        self.node.transmitted(name, of_frames);
    }

    fn take_lost(&mut self) -> Vec<NodeName, A> {
        self.node.take_lost()
    }

    fn is_peer(&self, name: &NodeName) -> bool {
        self.node.is_peer(name)
    }

    fn is_alone(&self) -> bool {
        self.node.is_alone() || self.is_apart
    }

    fn hears_pulses(&self) -> bool {
        true
    }

    fn came(&mut self, id: ConnectionId, from: SocketAddr) {
        if let Some(incoming) = self.arrivals.get_mut(&id.0) {
            incoming.from = Some(from);
        }
    }

    fn address_of(&self, name: &NodeName) -> Option<SocketAddr> {
        if self.is_own(name) {
            return self.namesake;
        }
        self.book.address_of(name)
    }

    fn opens(&mut self, name: NodeName) -> Result<(), AllocError> {
        self.begin(name)?;
        if let Some(link) = self.links.get_mut(&name) {
            link.open();
        }
        Ok(())
    }

    fn closed(&mut self, name: &NodeName) {
        self.drop_link(name);
    }

    fn failed(&mut self, name: NodeName, error: LinkError) {
        self.drop_link(&name);
        if self.is_own(&name) {
            // The other node ends the link once it has the hello.
            return;
        }
        self.doubt(&name);
        self.notices.push(Notice::Unreachable { name, error });
    }
}
