//! One node of a scenario of a group that is to run.
use crate::error::{Key, ScenarioError};
use crate::section::Section;
use bytes::Bytes;
use node_names::{Incarnation, Limits, NodeName, Origin};
use protocol::are_peers;
use std::alloc::Global;

/// The least port that a node may have: those below are reserved for the system.
const LEAST_PORT: u64 = 1_024;

/// The greatest port that there is.
const GREATEST_PORT: u64 = 65_535;

/// A node of a group that is to run.
#[derive(Drop)]
pub struct GroupNode {
    pub me: Origin,
    /// The port of 127.0.0.1 where it takes connections.
    pub port: u16,
    /// Its first active view.
    pub peers: Vec<NodeName>,
    /// The node that it asks to be taken into the group, if any.
    pub contact: Option<NodeName>,
    /// What it broadcasts, in order.
    pub texts: Vec<Bytes>,
}

impl GroupNode {
    /// Reads the table of one node of a group with these names. No two nodes may have the same name.
    pub fn from_section(
        alloc: Global,
        limits: &Limits,
        names: &[NodeName],
        earlier: &[GroupNode],
        section: &Section<'_>,
    ) -> Result<GroupNode, ScenarioError> {
        let name = name(earlier, section)?;
        let port = port(section)?;
        let incarnation = section.optional_number(Key::Incarnation, u64::MAX)?;
        let peers = peers(alloc, limits, &name, names, section)?;
        let contact = contact(&name, names, section)?;
        let texts = section.texts(alloc, Key::Say)?;
        Ok(GroupNode {
            me: Origin {
                name,
                incarnation: Incarnation(incarnation.unwrap_or(1)),
            },
            port,
            peers,
            contact,
            texts,
        })
    }
}

/// Reads a node's name, which no earlier node may have.
fn name(earlier: &[GroupNode], section: &Section<'_>) -> Result<NodeName, ScenarioError> {
    let name = section.name(Key::Name)?;
    if earlier.iter().any(|node| node.me.name == name) {
        return Err(section.refused(Key::Name));
    }
    Ok(name)
}

/// The port where a node takes connections.
fn port(section: &Section<'_>) -> Result<u16, ScenarioError> {
    let port = section.optional_number_between(Key::Port, LEAST_PORT, GREATEST_PORT)?;
    match port.and_then(|port| u16::try_from(port).ok()) {
        Some(port) => Ok(port),
        None => Err(section.refused(Key::Port)),
    }
}

/// A node's first active view: distinct other nodes, at most as many as it has room for.
fn peers(
    alloc: Global,
    limits: &Limits,
    me: &NodeName,
    names: &[NodeName],
    section: &Section<'_>,
) -> Result<Vec<NodeName>, ScenarioError> {
    let peers = section.names(alloc, Key::Peers)?.into_vec();
    let are_known = peers.iter().all(|peer| names.contains(peer));
    if !are_known || !are_peers(limits, me, peers.as_slice(), &None) {
        return Err(section.refused(Key::Peers));
    }
    Ok(peers)
}

/// The other node that a node asks to be taken into the group, if it has one.
fn contact(
    me: &NodeName,
    names: &[NodeName],
    section: &Section<'_>,
) -> Result<Option<NodeName>, ScenarioError> {
    let contact = section.optional_name(Key::Contact)?;
    match contact {
        Some(contact) if contact == *me || !names.contains(&contact) => {
            Err(section.refused(Key::Contact))
        }
        contact => Ok(contact),
    }
}
