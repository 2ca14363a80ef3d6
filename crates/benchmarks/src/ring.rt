//! Connected overlays: nodes in a ring, each of which has peers at the same distances.
use crate::names::name_of;
use anyhow::Result;
use node_names::NodeName;
use std::alloc::Global;

/// How far away a node's five peers are round the ring: its neighbours, two that are further, and the one that is
/// farthest, if two nodes are farthest from each other.
pub(crate) fn five_steps(nodes: usize) -> [usize; 5] {
    let chord = (nodes / 8).max(2);
    let farthest = if nodes % 2 == 0 { nodes / 2 } else { 1 };
    let back = nodes.saturating_sub(1);
    let far_back = nodes.saturating_sub(chord);
    [1, back, chord, far_back, farthest]
}

/// Appends the name of the node that is `step` places further round the ring, unless it is there or is the node's own.
fn push_peer(peers: &mut Vec<NodeName>, nodes: usize, place: usize, step: usize) -> Result<()> {
    let peer = place.saturating_add(step).checked_rem(nodes).unwrap_or(0);
    let name = name_of(peer)?;
    if peer != place && !peers.contains(&name) {
        peers.push(name)?;
    }
    Ok(())
}

/// The peers of the node at this place: those that are so many steps further.
pub(crate) fn peers_of(
    alloc: Global,
    nodes: usize,
    place: usize,
    steps: &[usize],
) -> Result<Vec<NodeName>> {
    let mut peers = Vec::new(alloc);
    for step in steps {
        push_peer(&mut peers, nodes, place, *step)?;
    }
    Ok(peers)
}
