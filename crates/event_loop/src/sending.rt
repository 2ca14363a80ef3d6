//! Sending what waits.
use crate::dialling::Reached;
use crate::error::LoopError;
use crate::event_loop::EventLoop;
use crate::link::Link;
use crate::link_error::LinkError;
use crate::loop_node::LoopNode;
use crate::resolve::Resolve;
use node_names::{Dice, NodeName};
use std::alloc::Allocator;
use std::net::Net;

/// How many writes a turn makes to each link at most.
const WRITES: usize = 16;

/// Writes to the link what waits for its name. Returns whether the next turn may go on.
fn write_some<N: LoopNode<A>, A: Allocator + Copy>(
    link: &mut Link,
    node: &mut N,
    now: u64,
) -> bool {
    for _ in 0..WRITES {
        if !link.write(node, now) {
            return false;
        }
    }
    true
}

impl<N: LoopNode<A>, S: Resolve + Drop, A: Allocator + Copy> EventLoop<N, S, A> {
    /// Sends what waits in the node at this place, and what it answers. Returns whether more may wait that can be sent.
    pub(crate) fn send_of<R: Net>(&mut self, rt: &R, place: usize) -> Result<bool, LoopError> {
        self.answer_all(place);
        self.end_links(place)?;
        self.close_lost(place);
        let names = match self.nodes.get(place) {
            Some(hosted) => hosted.node.receivers()?,
            None => return Ok(false),
        };
        let mut waiting = 0;
        let mut is_behind = false;
        for name in names {
            is_behind = self.send_to(rt, place, name)? || is_behind;
            waiting = waiting.max(self.waiting_at(place, &name));
        }
        if let Some(hosted) = self.nodes.get_mut(place) {
            hosted.waiting = waiting;
        }
        Ok(is_behind)
    }

    /// How many bytes wait for the name in the node at this place.
    fn waiting_at(&self, place: usize, name: &NodeName) -> usize {
        match self.nodes.get(place) {
            Some(hosted) => hosted.node.waiting(name),
            None => 0,
        }
    }

    /// Tells the node at this place of its links that are over, and closes them.
    fn end_links(&mut self, place: usize) -> Result<(), LoopError> {
        for _ in 0..self.links.len() {
            let Some((name, error)) = self.ended_link(place) else {
                return Ok(());
            };
            self.give_up(place, name, error)?;
            self.close_link(place, &name);
        }
        Ok(())
    }

    /// The name of a link that is over of the node at this place, and why that is so.
    fn ended_link(&mut self, place: usize) -> Option<(NodeName, LinkError)> {
        let hosted = self.nodes.get_mut(place)?;
        if !hosted.may_have_ended {
            return None;
        }
        let ended = hosted.ended_link(&self.links);
        hosted.may_have_ended = ended.is_some();
        ended
    }

    /// Tells the node at this place that the name cannot be reached, and why.
    fn give_up(&mut self, place: usize, name: NodeName, error: LinkError) -> Result<(), LoopError> {
        if let Some(hosted) = self.nodes.get_mut(place) {
            let dice = Dice::draw(&mut self.generator);
            hosted.node.unreachable(name, &dice)?;
            hosted.node.failed(name, error);
        }
        Ok(())
    }

    /// Closes the link to the name of the node at this place.
    pub(crate) fn close_link(&mut self, place: usize, name: &NodeName) {
        if let Some(hosted) = self.nodes.get_mut(place) {
            hosted.node.closed(name);
            if let Some(link) = hosted.forget(name) {
                self.links.try_remove(link);
            }
        }
    }

    /// Closes the links of the node at this place to the names for whom bytes were dropped.
    fn close_lost(&mut self, place: usize) {
        let lost = match self.nodes.get_mut(place) {
            Some(hosted) => hosted.node.take_lost(),
            None => return,
        };
        for name in lost {
            self.close_link(place, &name);
        }
    }

    /// Sends what waits for the name. If it cannot be dialled, the node is told so; if its address is looked up, that
    /// is waited for. Returns whether the next turn may go on.
    fn send_to<R: Net>(&mut self, rt: &R, place: usize, name: NodeName) -> Result<bool, LoopError> {
        match self.reach(rt, place, name)? {
            Reached::Link(link) => Ok(self.write_to(place, link)),
            Reached::Awaited => Ok(false),
            Reached::Unreachable(error) => {
                self.give_up(place, name, error)?;
                Ok(true)
            }
        }
    }

    /// Writes to the link what waits for its name in the node at this place. Returns whether the next turn may go on.
    fn write_to(&mut self, place: usize, link_place: usize) -> bool {
        let Some(link) = self.links.get_mut(link_place) else {
            return false;
        };
        let Some(hosted) = self.nodes.get_mut(place) else {
            return false;
        };
        let is_behind = write_some(link, &mut hosted.node, self.now);
        if link.is_over() {
            hosted.may_have_ended = true;
        }
        is_behind || link.is_over()
    }
}
