//! Answering over the connections that came in.
use crate::event_loop::EventLoop;
use crate::loop_node::LoopNode;
use crate::resolve::Resolve;
use std::alloc::Allocator;

/// How many writes a turn makes to each connection at most.
const WRITES: usize = 16;

impl<N: LoopNode<A>, S: Resolve + Drop, A: Allocator + Copy> EventLoop<N, S, A> {
    /// Whether the node at this place answers over the connections that came in.
    pub(crate) fn answers(&self, place: usize) -> bool {
        match self.nodes.get(place) {
            Some(hosted) => hosted.node.answers(),
            None => false,
        }
    }

    /// Writes what the node at this place answers, as far as its connections take it, and has those be closed that are
    /// of no more use.
    pub(crate) fn answer_all(&mut self, owner: usize) {
        if !self.answers(owner) {
            return;
        }
        for place in 0..self.connections.places() {
            if self.answer_at(place, owner) {
                self.connections.queue(place);
            }
        }
    }

    /// Writes what waits to go back over the connection at this place, if it is one of this node. Returns whether it is
    /// to be looked at again.
    fn answer_at(&mut self, place: usize, owner: usize) -> bool {
        let Some(connection) = self.connections.get_mut(place) else {
            return false;
        };
        if connection.owner() != owner {
            return false;
        }
        let Some(hosted) = self.nodes.get_mut(owner) else {
            return false;
        };
        for _ in 0..WRITES {
            if !connection.write(&mut hosted.node, self.now) {
                return connection.is_over();
            }
        }
        true
    }
}
