//! Taking what comes.
use crate::connection::Connection;
use crate::error::LoopError;
use crate::event_loop::EventLoop;
use crate::hosted_node::HostedNode;
use crate::link::Link;
use crate::listener::Listener;
use crate::loop_node::LoopNode;
use crate::ready_table::ReadyTable;
use crate::resolve::Resolve;
use crate::source::Source;
use mio::Events;
use mio::event::Event;
use slab::Slab;
use std::alloc::Allocator;
use std::time::Duration;

/// Notes what the poll tells of the link at this place, and queues its node.
fn note_link<N: Drop, A: Allocator + Copy>(
    links: &mut Slab<Link, A>,
    nodes: &mut ReadyTable<HostedNode<N, A>, A>,
    place: usize,
    event: &Event,
) {
    let Some(link) = links.get_mut(place) else {
        return;
    };
    link.note(event);
    nodes.queue(link.owner());
    if link.is_over() {
        if let Some(hosted) = nodes.get_mut(link.owner()) {
            hosted.may_have_ended = true;
        }
    }
}

/// Queues what became ready. There it stays until it was found not to be ready any more.
fn note_all<N: Drop, A: Allocator + Copy>(
    events: &Events<A>,
    listeners: &mut ReadyTable<Listener, A>,
    connections: &mut ReadyTable<Connection, A>,
    links: &mut Slab<Link, A>,
    nodes: &mut ReadyTable<HostedNode<N, A>, A>,
) {
    for event in events {
        match Source::of(event.token()) {
            Source::Listener(place) => listeners.queue(place),
            Source::Connection(place) => connections.queue(place),
            Source::Link(place) => note_link(links, nodes, place, event),
            Source::Waker(place) => nodes.queue(place),
        }
    }
}

impl<N: LoopNode<A>, S: Resolve + Drop, A: Allocator + Copy> EventLoop<N, S, A> {
    /// Waits until something is ready, but no longer than `most`, and takes what came: connections, and the frames of
    /// those that are open, each by one step of its node. Where more is left than a turn takes, the next call waits for
    /// nothing.
    ///
    /// If a step of a node is refused, the bytes that it did not take are kept, and the next call begins with them.
    pub fn take(&mut self, most: Duration) -> Result<(), LoopError> {
        let wait = if self.is_behind() {
            Duration::ZERO
        } else {
            most
        };
        self.wait(wait)?;
        self.give()?;
        self.read_all()?;
        self.accept_all()
    }

    /// Waits until something is ready, but no longer than `most`, and notes it.
    pub(crate) fn wait(&mut self, most: Duration) -> Result<(), LoopError> {
        self.poll.poll(&mut self.events, Some(most))?;
        note_all(
            &self.events,
            &mut self.listeners,
            &mut self.connections,
            &mut self.links,
            &mut self.nodes,
        );
        Ok(())
    }
}
