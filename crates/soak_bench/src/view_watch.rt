//! Who is whose peer.
use crate::bits::bit;
use crate::group::NODES;
use event_loop::LoopNode;
use node_names::NodeName;
use std::alloc::{AllocError, Global};

/// Which nodes the active view of each node has, as it was at the node's last tick.
#[derive(Drop)]
pub(crate) struct Views {
    /// By the places of the nodes: a bit for each peer.
    peers: Vec<u64>,
    /// The last tick at which a view had changed.
    moved: u64,
}

/// The nodes in the active view of a node.
fn peers_of<N: LoopNode<Global>>(names: &[NodeName], node: &N) -> u64 {
    let mut peers = 0;
    for (place, name) in names.iter().enumerate() {
        if node.is_peer(name) {
            peers |= bit(place);
        }
    }
    peers
}

impl Views {
    /// No node has a peer.
    pub(crate) fn new(alloc: Global) -> Result<Views, AllocError> {
        Ok(Views {
            peers: Vec::from_elem(alloc, 0, NODES)?,
            moved: 0,
        })
    }

    /// Notes the active view that the node at this place has at a tick.
    pub(crate) fn note<N: LoopNode<Global>>(
        &mut self,
        names: &[NodeName],
        place: usize,
        node: &N,
        now: u64,
    ) {
        let peers = peers_of(names, node);
        if let Some(known) = self.peers.get_mut(place) {
            if *known != peers {
                *known = peers;
                self.moved = now;
            }
        }
    }

    /// The last tick at which a view had changed.
    pub(crate) fn moved(&self) -> u64 {
        self.moved
    }

    /// Whether the node has the peer.
    fn has(&self, node: usize, peer: usize) -> bool {
        match self.peers.get(node) {
            Some(peers) => *peers & bit(peer) != 0,
            None => false,
        }
    }

    /// Whether one of these nodes has this one as a peer, and it has that one.
    fn touches(&self, reached: u64, node: usize) -> bool {
        for other in 0..NODES {
            if reached & bit(other) != 0 && self.has(other, node) && self.has(node, other) {
                return true;
            }
        }
        false
    }

    /// These nodes and their peers.
    fn widen(&self, reached: u64) -> u64 {
        let mut wider = reached;
        for node in 0..NODES {
            if self.touches(reached, node) {
                wider |= bit(node);
            }
        }
        wider
    }

    /// The nodes in reach of the one at this place, a bit for each.
    pub(crate) fn reach(&self, place: usize) -> u64 {
        let mut reached = bit(place);
        for _ in 0..NODES {
            reached = self.widen(reached);
        }
        reached
    }
}
