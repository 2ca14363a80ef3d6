//! Serving the nodes that took something.
use crate::error::LoopError;
use crate::event_loop::EventLoop;
use crate::loop_node::LoopNode;
use crate::program::{Next, Program, Silence};
use crate::resolve::Resolve;
use std::alloc::Allocator;
use std::net::Net;

impl<N: LoopNode<A>, S: Resolve + Drop, A: Allocator + Copy> EventLoop<N, S, A> {
    /// Sends what waits in the nodes that took something, as far as the links take it. Links are dialled where there is
    /// none. Before that the links are closed whose names went down, so that nothing follows bytes that were dropped.
    ///
    /// Where more is left than a turn sends, the next `take` waits for nothing.
    pub fn send<R: Net>(&mut self, rt: &R) -> Result<(), LoopError> {
        self.serve(rt, &mut Silence)?;
        Ok(())
    }

    /// Calls the program for each node that is queued, and sends what waits there. Returns whether the program goes on.
    pub(crate) fn serve<R, P>(&mut self, rt: &R, program: &mut P) -> Result<bool, LoopError>
    where
        R: Net,
        P: Program<N>,
    {
        let mut goes_on = true;
        for _ in 0..self.nodes.queued() {
            let Some(place) = self.nodes.take_first() else {
                return Ok(goes_on);
            };
            if let Err(error) = self.ask_on(place) {
                self.nodes.queue(place);
                return Err(error);
            }
            let next = if goes_on {
                self.call(place, program)
            } else {
                Next::Wait
            };
            goes_on = goes_on && next != Next::End;
            let was_full = self.is_full(place);
            let sent = self.send_of(rt, place);
            let has_drained = was_full && !self.is_full(place);
            if next == Next::Again || has_drained || !matches!(sent, Ok(false)) {
                self.nodes.queue(place);
            }
            sent?;
        }
        Ok(goes_on)
    }

    /// Has the node at this place ask for more of what it lacks, as far as what it asked for came.
    fn ask_on(&mut self, place: usize) -> Result<(), LoopError> {
        if let Some(hosted) = self.nodes.get_mut(place) {
            hosted.node.ask_on(&mut self.generator)?;
        }
        Ok(())
    }

    /// Whether so much waits in the node at this place that its program should not broadcast.
    fn is_full(&self, place: usize) -> bool {
        match self.nodes.get(place) {
            Some(hosted) => !hosted.situation(place).may_broadcast(),
            None => false,
        }
    }

    /// Calls the program for the node at this place.
    fn call<P: Program<N>>(&mut self, place: usize, program: &mut P) -> Next {
        let Some(hosted) = self.nodes.get_mut(place) else {
            return Next::Wait;
        };
        let next = program.turn(hosted.situation(place), &mut hosted.node);
        let was_held = hosted.is_held;
        hosted.is_held = next == Next::Hold;
        if was_held && next != Next::Hold {
            self.release(place);
        }
        next
    }

    /// Has the connections of the node at this place be read that were held.
    fn release(&mut self, owner: usize) {
        for place in 0..self.connections.places() {
            if self.release_at(place, owner) {
                self.connections.queue(place);
            }
        }
    }

    /// Notes that the connection at this place is held no more, if it is one of this node. Returns whether it was held.
    fn release_at(&mut self, place: usize, owner: usize) -> bool {
        match self.connections.get_mut(place) {
            Some(connection) => connection.owner() == owner && connection.release(),
            None => false,
        }
    }
}
