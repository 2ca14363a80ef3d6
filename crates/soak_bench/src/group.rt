//! The nodes of the group, and where they take connections.
use crate::soak_node::SoakNode;
use anyhow::Result;
use event_loop::{EventLoop, Resolve};
use node_names::{NameFault, NodeName};
use std::alloc::{AllocError, Global};
use std::net::{Net, SocketAddr};

/// How many nodes there are.
pub(crate) const NODES: usize = 16;

/// How many places further the peers are with which a node starts.
const STEPS: [usize; 4] = [1, 2, NODES - 2, NODES - 1];

/// Where names are reached.
#[derive(Drop)]
pub(crate) struct Book {
    places: Vec<(NodeName, SocketAddr)>,
}

impl Book {
    /// Makes an empty book.
    pub(crate) fn new(alloc: Global) -> Book {
        Book {
            places: Vec::new(alloc),
        }
    }

    /// Writes down where the name is reached.
    pub(crate) fn note(&mut self, name: NodeName, at: SocketAddr) -> Result<(), AllocError> {
        self.places.push((name, at))?;
        Ok(())
    }
}

impl Resolve for Book {
    fn resolve(&mut self, name: &NodeName) -> Option<SocketAddr> {
        self.places
            .iter()
            .find(|place| place.0 == *name)
            .map(|place| place.1)
    }
}

/// Any free port of this machine.
pub(crate) fn any_port() -> Result<SocketAddr> {
    Ok("127.0.0.1:0".parse()?)
}

/// The name of the node at this place.
fn name_of(place: usize) -> Result<NodeName, NameFault> {
    NodeName::parse(&[b'n', b'a' + (place % NODES) as u8])
}

/// The names of the nodes, in order.
pub(crate) fn names_of(alloc: Global) -> Result<Vec<NodeName>> {
    let mut names = Vec::new(alloc);
    for place in 0..NODES {
        names.push(name_of(place)?)?;
    }
    Ok(names)
}

/// The peers with which the node at this place starts.
fn peers_of(alloc: Global, place: usize) -> Result<Vec<NodeName>> {
    let mut peers = Vec::new(alloc);
    for step in STEPS {
        peers.push(name_of(place.wrapping_add(step))?)?;
    }
    Ok(peers)
}

/// Adds the node at this place.
fn add<R: Net, N: SoakNode>(
    rt: &R,
    alloc: Global,
    group: &mut EventLoop<N, Book>,
    place: usize,
    name: NodeName,
) -> Result<()> {
    let peers = peers_of(alloc, place)?;
    let node = N::begin(alloc, name, peers.as_slice())?;
    group.add(rt, any_port()?, node)?;
    let at = group.address(place)?;
    group.resolver_mut().note(name, at)?;
    Ok(())
}

/// Adds the nodes of these names, in order.
pub(crate) fn add_all<R: Net, N: SoakNode>(
    rt: &R,
    alloc: Global,
    group: &mut EventLoop<N, Book>,
    names: &[NodeName],
) -> Result<()> {
    for (place, name) in names.iter().enumerate() {
        add(rt, alloc, group, place, *name)?;
    }
    Ok(())
}
