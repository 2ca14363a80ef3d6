//! Letting time pass.
use crate::error::LoopError;
use crate::event_loop::EventLoop;
use crate::link_error::LinkError;
use crate::loop_node::LoopNode;
use crate::resolve::Resolve;
use node_names::Dice;
use std::alloc::Allocator;

impl<N: LoopNode<A>, S: Resolve + Drop, A: Allocator + Copy> EventLoop<N, S, A> {
    /// Makes a tick of each node, and looks for connections and links that kept a node waiting too long
    /// (`set_patience`). A node whose active view is empty joins by one of its contacts, where one is due
    /// (`set_contacts`). If a tick is refused, the next call goes on with the node that refused it.
    pub fn tick(&mut self) -> Result<(), LoopError> {
        for place in self.ticking..self.nodes.places() {
            self.ticking = place;
            self.tick_node(place)?;
        }
        self.ticking = 0;
        self.now = self.now.saturating_add(1);
        for place in 0..self.connections.places() {
            self.end_stalled(place);
        }
        for place in 0..self.links.capacity() {
            self.close_idle(place);
        }
        Ok(())
    }

    /// Makes a tick of the node at this place, before which it may join again, and has connections be taken where the
    /// system refused one.
    fn tick_node(&mut self, place: usize) -> Result<(), LoopError> {
        let Some(hosted) = self.nodes.get_mut(place) else {
            return Ok(());
        };
        hosted.rejoin(self.now, &mut self.generator)?;
        let dice = Dice::draw(&mut self.generator);
        hosted.node.tick(&dice)?;
        self.nodes.queue(place);
        self.listeners.queue(place);
        Ok(())
    }

    /// Ends the connection at this place if it owes bytes for too long. Where some may wait, it is read first.
    fn end_stalled(&mut self, place: usize) {
        if self.connections.is_queued(place) {
            return;
        }
        let Some(connection) = self.connections.get_mut(place) else {
            return;
        };
        let hears_pulses = match self.nodes.get(connection.owner()) {
            Some(hosted) => hosted.node.hears_pulses(),
            None => false,
        };
        if connection.is_stalled(self.now, self.patience, hears_pulses) {
            connection.end();
            self.connections.queue(place);
        }
    }

    /// If the link at this place took no bytes for too long, ends it if it does not take what waits for its name, and
    /// else closes it if it leads to no neighbour.
    fn close_idle(&mut self, place: usize) {
        let Some(link) = self.links.get_mut(place) else {
            return;
        };
        if !link.is_idle(self.now, self.patience) {
            return;
        }
        let (owner, name) = (link.owner(), link.name());
        let Some(hosted) = self.nodes.get_mut(owner) else {
            return;
        };
        if hosted.node.waiting(&name) > 0 {
            if link.is_blocked() {
                link.end(LinkError::Stalled);
                hosted.may_have_ended = true;
            }
        } else if !hosted.node.is_peer(&name) {
            self.close_link(owner, &name);
        }
    }
}
