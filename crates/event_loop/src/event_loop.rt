//! An event loop, and its nodes.
use crate::buffer::Buffer;
use crate::connection::Connection;
use crate::error::LoopError;
use crate::hosted_node::HostedNode;
use crate::link::Link;
use crate::listener::Listener;
use crate::loop_node::LoopNode;
use crate::ready_table::ReadyTable;
use crate::resolve::Resolve;
use crate::source::Source;
use mio::net::TcpListener;
use mio::{Events, Interest, Poll, Waker};
use node_names::NodeName;
use rand_core::SeedableRng;
use rand_pcg::Lcg128Xsl64;
use slab::Slab;
use std::alloc::{AllocError, Allocator, Global};
use std::io;
use std::net::{Net, SocketAddr};

/// How many events one poll gives at most. More come with the next.
const EVENTS: usize = 1_024;

/// For how many ticks a peer may keep a node waiting, unless another number is set.
const PATIENCE: u64 = 64;

/// Nodes with their connections and links, and what tells when these are ready.
///
/// A turn serves the nodes that took something (`send`), takes what came (`take`), and lets time pass (`tick`); `run`
/// makes turns. The three calls never wait, but `take` as long as it is told to. Of each connection and to each link a
/// turn takes and sends a bounded number of bytes, so that none keeps the others waiting; and it looks only at what is
/// ready.
#[derive(Drop)]
pub struct EventLoop<N, S, A: Allocator + Copy = Global> {
    pub(crate) poll: Poll,
    pub(crate) events: Events<A>,
    pub(crate) alloc: A,
    /// Those are queued that took something, or have more to send.
    pub(crate) nodes: ReadyTable<HostedNode<N, A>, A>,
    /// Each has the place of its node. Those are queued where a connection may wait.
    pub(crate) listeners: ReadyTable<Listener, A>,
    /// Those are queued where bytes may wait, or that are over.
    pub(crate) connections: ReadyTable<Connection, A>,
    pub(crate) links: Slab<Link, A>,
    pub(crate) resolver: S,
    pub(crate) generator: Lcg128Xsl64,
    pub(crate) buffer: Buffer<A>,
    /// How many ticks were made.
    pub(crate) now: u64,
    /// The place of the node that ticks next, where a tick was refused.
    pub(crate) ticking: usize,
    pub(crate) patience: u64,
}

impl<N: LoopNode<A>, S: Resolve + Drop, A: Allocator + Copy> EventLoop<N, S, A> {
    /// Makes a loop without nodes. The dice of the nodes' steps are drawn from a generator with this seed.
    pub fn new<R: Net>(
        rt: &R,
        alloc: A,
        resolver: S,
        seed: u64,
    ) -> Result<EventLoop<N, S, A>, LoopError> {
        Ok(EventLoop {
            poll: Poll::new(rt)?,
            events: Events::with_capacity(alloc, EVENTS)?,
            alloc,
            nodes: ReadyTable::new(alloc),
            listeners: ReadyTable::new(alloc),
            connections: ReadyTable::new(alloc),
            links: Slab::new(alloc),
            resolver,
            generator: Lcg128Xsl64::seed_from_u64(seed),
            buffer: Buffer::new(alloc)?,
            now: 0,
            ticking: 0,
            patience: PATIENCE,
        })
    }

    /// Sets for how many ticks a peer may keep a node waiting: 64, if nothing is set. A connection over which nothing
    /// came for longer since it was made, or not the rest of a frame, or nothing for twice as long where the node hears
    /// pulses, is closed; a link that took nothing for longer of what waits for
    /// its name counts as ended, and one that was not used for longer and leads to no neighbour is closed. The less,
    /// the sooner is a node that asked to become a neighbour told that it cannot be answered.
    pub fn set_patience(&mut self, ticks: u64) {
        self.patience = ticks;
    }

    /// Sets by whom the node at this place joins again: none, if nothing is set. While its active view is empty, it
    /// joins at ticks by one of these after the other, whose addresses the resolver tells. The first pause takes 2 to 4
    /// ticks; each is drawn at random, and they grow up to 256 ticks. Once the node had a neighbour, they begin anew.
    pub fn set_contacts(&mut self, place: usize, contacts: &[NodeName]) -> Result<(), LoopError> {
        match self.nodes.get_mut(place) {
            Some(hosted) => Ok(hosted.rejoining.set_contacts(contacts)?),
            None => Err(LoopError::System(io::Error::from(io::ErrorKind::NotFound))),
        }
    }

    /// Adds a node that takes connections at this address, and returns its place: 0, 1, 2 and so on. With port 0, the
    /// system chooses a free port, and `address` tells it. If the call is refused, the node is dropped.
    pub fn add<R: Net>(&mut self, rt: &R, listen: SocketAddr, node: N) -> Result<usize, LoopError> {
        self.nodes.reserve()?;
        self.listeners.reserve()?;
        let Some(token) = Source::Listener(self.nodes.next_place()).token() else {
            return Err(LoopError::OutOfMemory);
        };
        let mut socket = TcpListener::bind(rt, listen)?;
        self.poll
            .registry()
            .register(&mut socket, token, Interest::READABLE)?;
        self.listeners.insert(Listener::new(socket))?;
        Ok(self.nodes.insert(HostedNode::new(self.alloc, node))?)
    }

    /// How many nodes there are.
    pub fn len(&self) -> usize {
        self.nodes.len()
    }

    /// Where the node at this place takes connections.
    pub fn address(&self, place: usize) -> Result<SocketAddr, LoopError> {
        match self.listeners.get(place) {
            Some(listener) => Ok(listener.address()?),
            None => Err(LoopError::System(io::Error::from(io::ErrorKind::NotFound))),
        }
    }

    /// The node at this place, to be read.
    pub fn node(&self, place: usize) -> Option<&N> {
        match self.nodes.get(place) {
            Some(hosted) => Some(&hosted.node),
            None => None,
        }
    }

    /// The node at this place. What a call has it send goes out at the next `send`.
    pub fn node_mut(&mut self, place: usize) -> Option<&mut N> {
        self.nodes.queue(place);
        match self.nodes.get_mut(place) {
            Some(hosted) => Some(&mut hosted.node),
            None => None,
        }
    }

    /// Makes what other threads wake the loop by: once for one wake or several, the program is called for the node at
    /// this place. A wake is lost if the waker is dropped before the loop has seen it.
    pub fn waker(&self, place: usize) -> Result<Waker, LoopError> {
        match Source::Waker(place).token() {
            Some(token) => Ok(Waker::new(self.poll.registry(), token)?),
            None => Err(LoopError::OutOfMemory),
        }
    }

    /// What tells the addresses of names, to be told more.
    pub fn resolver_mut(&mut self) -> &mut S {
        &mut self.resolver
    }

    /// Closes all connections, and gives the nodes back, in the order in which they were added.
    pub fn into_nodes(self) -> Result<Vec<N, A>, AllocError> {
        let EventLoop {
            alloc,
            mut nodes,
            ..
        } = self;
        let mut given = Vec::new(alloc);
        for place in 0..nodes.places() {
            if let Some(hosted) = nodes.take(place) {
                given.push(hosted.into_node())?;
            }
        }
        Ok(given)
    }

    /// Whether there is something to do that waits for no change.
    pub(crate) fn is_behind(&self) -> bool {
        self.nodes.queued() > 0
            || self.listeners.queued() > 0
            || self.connections.queued() > 0
            || !self.buffer.rest().is_empty()
    }
}
