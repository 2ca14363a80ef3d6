//! A loop of nodes, and how a test lets them speak and hear.
use crate::tests::book::{Book, any_port, name, names};
use crate::tests::tested_node::TestedNode;
use anyhow::Result;
use bytes::Bytes;
use event_loop::EventLoop;
use std::alloc::{AllocError, Global};
use std::net::{Net, SocketAddr};
use std::time::Duration;
use wire_node::MAX_WAITING;

/// A loop of nodes, and how many messages each has delivered.
#[derive(Drop)]
pub(crate) struct Stage<N: TestedNode> {
    pub(crate) event_loop: EventLoop<N, Book>,
    alloc: Global,
    /// By the places of the nodes.
    heard: Vec<usize>,
}

/// Makes a payload of so many zeros.
pub(crate) fn zeros(alloc: Global, len: usize) -> Result<Bytes, AllocError> {
    let zeros = vec![in alloc; 0; len]?;
    Bytes::copy_from_slice(alloc, zeros.as_slice())
}

impl<N: TestedNode> Stage<N> {
    /// Makes a loop without nodes.
    pub(crate) fn new<R: Net + AllocGlobal>(rt: &R) -> Result<Stage<N>> {
        let alloc = rt.alloc();
        Ok(Stage {
            event_loop: EventLoop::new(rt, alloc, Book::new(alloc), 1)?,
            alloc,
            heard: Vec::new(alloc),
        })
    }

    /// Adds a node with these peers, whose names blanks separate. So many bytes may wait for each of them.
    pub(crate) fn add<R: Net>(
        &mut self,
        rt: &R,
        me: &str,
        peers: &str,
        waiting: usize,
    ) -> Result<()> {
        let peers = names(self.alloc, peers)?;
        let node = N::begin(self.alloc, name(me)?, 1, peers.as_slice(), waiting)?;
        let place = self.host(rt, any_port()?, node)?;
        let at = self.event_loop.address(place)?;
        self.meet(me, at)
    }

    /// Adds this run of a node at this address, that joins by these contacts, whose names blanks separate.
    pub(crate) fn join<R: Net>(
        &mut self,
        rt: &R,
        me: &str,
        run: u64,
        at: SocketAddr,
        contacts: &str,
    ) -> Result<()> {
        let contacts = names(self.alloc, contacts)?;
        let node = N::begin(self.alloc, name(me)?, run, &[], MAX_WAITING)?;
        let place = self.host(rt, at, node)?;
        self.event_loop.set_contacts(place, contacts.as_slice())?;
        Ok(())
    }

    /// Adds a node, and returns its place.
    fn host<R: Net>(&mut self, rt: &R, at: SocketAddr, node: N) -> Result<usize> {
        self.heard.reserve(1)?;
        let place = self.event_loop.add(rt, at, node)?;
        self.heard.push(0)?;
        Ok(place)
    }

    /// Tells the nodes where another takes connections.
    pub(crate) fn meet(&mut self, name: &str, at: SocketAddr) -> Result<()> {
        self.event_loop.resolver_mut().note(name, at)
    }

    /// Has the node at this place broadcast a message of so many zeros.
    pub(crate) fn say(&mut self, place: usize, len: usize) -> Result<()> {
        let payload = zeros(self.alloc, len)?;
        if let Some(node) = self.event_loop.node_mut(place) {
            node.broadcast(&payload)?;
        }
        Ok(())
    }

    /// Makes a turn, which waits a millisecond at most, and takes what was delivered.
    pub(crate) fn turn<R: Net>(&mut self, rt: &R) -> Result<()> {
        self.event_loop.send(rt)?;
        self.event_loop.take(Duration::from_millis(1))?;
        self.listen();
        Ok(())
    }

    /// Makes so many turns.
    pub(crate) fn turns<R: Net>(&mut self, rt: &R, count: usize) -> Result<()> {
        for _ in 0..count {
            self.turn(rt)?;
        }
        Ok(())
    }

    /// Takes what was delivered.
    fn listen(&mut self) {
        for place in 0..self.heard.len() {
            self.listen_at(place);
        }
    }

    /// Takes what the node at this place delivered.
    fn listen_at(&mut self, place: usize) {
        let Some(node) = self.event_loop.node_mut(place) else {
            return;
        };
        let count = node.take_deliveries().len();
        if let Some(heard) = self.heard.get_mut(place) {
            *heard = heard.saturating_add(count);
        }
    }

    /// How many messages the node at this place has delivered.
    pub(crate) fn heard(&self, place: usize) -> usize {
        self.heard.get(place).copied().unwrap_or(0)
    }

    /// Whether each node has delivered a message.
    pub(crate) fn has_heard(&self) -> bool {
        self.heard.iter().all(|heard| *heard > 0)
    }

    /// Counts anew what is delivered.
    pub(crate) fn forget(&mut self) {
        for heard in &mut self.heard {
            *heard = 0;
        }
    }

    /// Whether no node is alone.
    pub(crate) fn is_joined(&self) -> bool {
        (0..self.heard.len()).all(|place| self.has_neighbour(place))
    }

    /// Whether the node at this place has a neighbour.
    fn has_neighbour(&self, place: usize) -> bool {
        match self.event_loop.node(place) {
            Some(node) => !node.is_alone(),
            None => false,
        }
    }

    /// Whether the node at this place has this peer.
    pub(crate) fn has_peer(&self, place: usize, text: &str) -> Result<bool> {
        let name = name(text)?;
        Ok(match self.event_loop.node(place) {
            Some(node) => node.is_peer(&name),
            None => false,
        })
    }

    /// Whether bytes wait for the name in the node at this place.
    pub(crate) fn has_mail(&self, place: usize, text: &str) -> Result<bool> {
        let name = name(text)?;
        let Some(node) = self.event_loop.node(place) else {
            return Ok(false);
        };
        let [first, second, ..] = node.transmit(&name);
        Ok(!first.is_empty() || !second.is_empty())
    }
}
