//! A node in an event loop.
use crate::link::Link;
use crate::link_error::LinkError;
use crate::loop_node::LoopNode;
use crate::program::Situation;
use indexmap::IndexMap;
use node_core::Rejoining;
use node_names::{Dice, NodeName};
use rand_core::Rng;
use slab::Slab;
use std::alloc::{AllocError, Allocator};
use std::hash::{BuildHasherDefault, FoldHasher};
use wire_node::WireError;

/// A node, the links that it dialled, and by whom it joins again.
#[derive(Drop)]
pub(crate) struct HostedNode<N, A: Allocator + Copy> {
    pub(crate) node: N,
    /// The places of the links, by the names that they lead to.
    links: IndexMap<NodeName, usize, BuildHasherDefault<FoldHasher>, A>,
    /// Whether one of them may be over that the node was not told of.
    pub(crate) may_have_ended: bool,
    /// How many bytes waited for the name for whom most did, when it was tried to send them.
    pub(crate) waiting: usize,
    /// Whether the program holds what comes.
    pub(crate) is_held: bool,
    pub(crate) rejoining: Rejoining<A>,
}

impl<N: Drop, A: Allocator + Copy> HostedNode<N, A> {
    /// Makes a node without links.
    pub(crate) fn new(alloc: A, node: N) -> HostedNode<N, A> {
        HostedNode {
            node,
            links: IndexMap::new(alloc),
            may_have_ended: false,
            waiting: 0,
            is_held: false,
            rejoining: Rejoining::new(alloc),
        }
    }

    /// How the node stands, which is at this place.
    pub(crate) fn situation(&self, place: usize) -> Situation {
        Situation {
            place,
            waiting: self.waiting,
        }
    }

    /// The node alone.
    pub(crate) fn into_node(self) -> N {
        let HostedNode { node, .. } = self;
        node
    }

    /// The place of the link to the name, if there is one.
    pub(crate) fn link_to(&self, name: &NodeName) -> Option<usize> {
        self.links.get(name).copied()
    }

    /// How many links there are.
    pub(crate) fn link_count(&self) -> usize {
        self.links.len()
    }

    /// Makes room for a link.
    pub(crate) fn reserve(&mut self) -> Result<(), AllocError> {
        self.links.reserve(1)
    }

    /// Notes the place of the link to the name.
    pub(crate) fn note(&mut self, name: NodeName, place: usize) -> Result<(), AllocError> {
        self.links.insert(name, place)?;
        Ok(())
    }

    /// Forgets the link to the name. Returns its place, if there was one.
    pub(crate) fn forget(&mut self, name: &NodeName) -> Option<usize> {
        self.links.swap_remove(name)
    }

    /// The name of a link that is over, and why that is so.
    pub(crate) fn ended_link(&self, links: &Slab<Link, A>) -> Option<(NodeName, LinkError)> {
        for (name, place) in &self.links {
            if let Some(error) = links.get(*place).and_then(Link::error) {
                return Some((*name, error));
            }
        }
        None
    }
}

impl<N: LoopNode<A>, A: Allocator + Copy> HostedNode<N, A> {
    /// The name of a link that is of no use now: it leads to no neighbour, and nothing waits for it.
    pub(crate) fn unused_name(&self) -> Option<NodeName> {
        for (name, _) in &self.links {
            if !self.node.is_peer(name) && self.node.waiting(name) == 0 {
                return Some(*name);
            }
        }
        None
    }

    /// Has the node join by a contact, if it is alone and one is due.
    pub(crate) fn rejoin<G: Rng>(&mut self, now: u64, generator: &mut G) -> Result<(), WireError> {
        let is_alone = self.node.is_alone();
        if let Some(contact) = self.rejoining.due(now, is_alone, generator) {
            let dice = Dice::draw(generator);
            self.node.join(contact, &dice)?;
        }
        Ok(())
    }
}
