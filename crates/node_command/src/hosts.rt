//! Where the nodes take connections that the program was told of.
use crate::lookup::{Finding, Lookup, Question};
use event_loop::Resolve;
use indexmap::IndexMap;
use node_names::NodeName;
use node_options::Peer;
use std::alloc::{AllocError, Global};
use std::hash::{BuildHasherDefault, FoldHasher};
use std::net::{IpAddr, SocketAddr};

/// What is known of a host that was to be looked up.
#[derive(Clone, Copy)]
enum Search {
    /// It is being looked up.
    Awaited,
    /// It was found, for the next connection.
    Found(SocketAddr),
    /// It was not found, which was not told yet.
    Failed,
}

/// Where the nodes take connections that the program was told of. A host is looked up for each connection that is made
/// to it; an address is taken as it stands.
#[derive(Drop)]
pub(crate) struct Hosts {
    peers: Vec<Peer>,
    domain: Option<String>,
    port: u16,
    searches: IndexMap<NodeName, Search, BuildHasherDefault<FoldHasher>, Global>,
    lookup: Lookup,
}

/// A host's address, if it is written as one.
fn literal(host: &str, port: u16) -> Option<SocketAddr> {
    let ip: IpAddr = host.parse().ok()?;
    Some(SocketAddr::new(ip, port))
}

impl Hosts {
    /// Takes what the program was told of peers and of its domain.
    pub(crate) fn new(
        alloc: Global,
        peers: Vec<Peer>,
        domain: Option<String>,
        port: u16,
        lookup: Lookup,
    ) -> Hosts {
        Hosts {
            peers,
            domain,
            port,
            searches: IndexMap::new(alloc),
            lookup,
        }
    }

    /// The peers that the program was told of.
    pub(crate) fn peers(&self) -> &[Peer] {
        &self.peers
    }

    /// The peer of this name that the program was told of.
    fn peer(&self, name: &NodeName) -> Option<&Peer> {
        self.peers.iter().find(|peer| peer.name == *name)
    }

    /// The host of the name, and its port.
    fn host_of(&self, name: &NodeName) -> Result<Option<(String, u16)>, AllocError> {
        if let Some(peer) = self.peer(name) {
            return Ok(Some((peer.host.clone()?, peer.port)));
        }
        match &self.domain {
            Some(domain) => Ok(Some((
                format!(in *self.peers.allocator(); "{name}.{domain}")?,
                self.port,
            ))),
            None => Ok(None),
        }
    }

    /// Takes what was found.
    fn take_findings(&mut self) {
        for _ in 0..self.searches.len() {
            let Some(Finding { name, at }) = self.lookup.next() else {
                return;
            };
            if let Some(search) = self.searches.get_mut(&name) {
                *search = match at {
                    Some(at) => Search::Found(at),
                    None => Search::Failed,
                };
            }
        }
    }

    /// Has the host of the name be looked up. Returns whether that goes on.
    fn begin(&mut self, name: NodeName) -> Result<bool, AllocError> {
        let Some((host, port)) = self.host_of(&name)? else {
            return Ok(false);
        };
        self.searches.reserve(1)?;
        if !self.lookup.ask(Question { name, host, port }) {
            return Ok(false);
        }
        self.searches.insert(name, Search::Awaited)?;
        Ok(true)
    }
}

impl Resolve for Hosts {
    fn resolve(&mut self, name: &NodeName) -> Option<SocketAddr> {
        if let Some(peer) = self.peer(name) {
            if let Some(at) = literal(peer.host.as_str(), peer.port) {
                return Some(at);
            }
        }
        self.take_findings();
        match self.searches.get(name).copied() {
            Some(Search::Found(at)) => {
                self.searches.swap_remove(name);
                Some(at)
            }
            _ => None,
        }
    }

    fn is_awaited(&mut self, name: &NodeName) -> bool {
        match self.searches.get(name).copied() {
            Some(Search::Awaited) => true,
            Some(_) => {
                self.searches.swap_remove(name);
                false
            }
            None => self.begin(*name).unwrap_or(false),
        }
    }
}
