//! A node in a cluster.
use crate::address_book::AddressBook;
use crate::identity::Identity;
use crate::notice::{Notice, Notices};
use crate::pulse::PulseClock;
use crate::receiving::Incoming;
use crate::step_log::StepLog;
use handshake::{Address, Outbound};
use indexmap::IndexMap;
use node_names::NodeName;
use std::alloc::{Allocator, Global};
use std::hash::{BuildHasherDefault, FoldHasher};
use std::net::SocketAddr;

/// A node of bytes, with what it adds to its frames, and the addresses of other nodes that it was told.
#[derive(Drop)]
pub struct ClusterNode<N, A: Allocator + Copy = Global> {
    pub(crate) alloc: A,
    pub(crate) node: N,
    /// What it says of itself over each link.
    pub(crate) identity: Identity,
    pub(crate) book: AddressBook<A>,
    /// The names whose addresses the program was given. Where such a node cannot be reached at the address that it told
    /// itself, that is forgotten, so that the resolver is asked.
    pub(crate) given: Vec<NodeName, A>,
    /// By whom it joins.
    pub(crate) contacts: Vec<NodeName, A>,
    /// Whether it may be apart from the rest of its group: it has heard of no contact since it started, or since it
    /// lost a neighbour.
    pub(crate) is_apart: bool,
    /// Where another node of this node's name takes connections, while that is to be told so.
    pub(crate) namesake: Option<SocketAddr>,
    pub(crate) pulses: PulseClock,
    /// Whether nothing is to be sent any more.
    pub(crate) is_silent: bool,
    /// The connections that came in, by their numbers.
    pub(crate) arrivals: IndexMap<u64, Incoming, BuildHasherDefault<FoldHasher>, A>,
    /// The links, and those that are to be dialled, by the names that they lead to.
    pub(crate) links: IndexMap<NodeName, Outbound<A>, BuildHasherDefault<FoldHasher>, A>,
    pub(crate) notices: Notices<A>,
    pub(crate) log: StepLog<A>,
}

impl<N: Drop, A: Allocator + Copy> ClusterNode<N, A> {
    /// Makes a node that says this of itself, and joins by these contacts, which its loop knows too. The loop's
    /// resolver knows the addresses of the names that are given.
    pub fn new(
        alloc: A,
        node: N,
        identity: Identity,
        given: Vec<NodeName, A>,
        contacts: Vec<NodeName, A>,
    ) -> ClusterNode<N, A> {
        ClusterNode {
            alloc,
            node,
            identity,
            book: AddressBook::new(alloc),
            given,
            contacts,
            is_apart: true,
            namesake: None,
            pulses: PulseClock::new(),
            is_silent: false,
            arrivals: IndexMap::new(alloc),
            links: IndexMap::new(alloc),
            notices: Notices::new(alloc),
            log: StepLog::new(alloc),
        }
    }

    /// What it says of itself over each link.
    pub fn identity(&self) -> &Identity {
        &self.identity
    }

    /// How many connections came in that are open.
    pub fn connections(&self) -> usize {
        self.arrivals.len()
    }

    /// How many links there are, with those that are to be dialled.
    pub fn links(&self) -> usize {
        self.links.len()
    }

    /// The node of bytes, to be read.
    pub fn node(&self) -> &N {
        &self.node
    }

    /// Takes what it tells of its links and connections since the last call, and how much of that was dropped, since
    /// too much was to be kept.
    pub fn take_notices(&mut self) -> (Vec<Notice, A>, usize) {
        self.notices.take()
    }

    /// Sets what it tells others as its address, over links that are dialled from now on.
    pub fn advertise(&mut self, at: SocketAddr) {
        self.identity.at = Address::from(at);
    }

    /// Notes that a name cannot be reached where it was to take connections.
    pub(crate) fn doubt(&mut self, name: &NodeName) {
        if self.given.contains(name) {
            self.book.forget(name);
        } else {
            self.book.doubt(name);
        }
    }
}
