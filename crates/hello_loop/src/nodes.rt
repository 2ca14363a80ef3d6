//! The nodes of a group.
use anyhow::{Context, Result};
use event_loop::Resolve;
use node_names::NodeName;
use std::alloc::Global;
use std::net::SocketAddr;

/// A node, and where it takes connections.
#[derive(Clone, Copy)]
struct Place {
    name: NodeName,
    at: SocketAddr,
}

/// The nodes of a group.
#[derive(Drop)]
pub struct Nodes {
    places: Vec<Place>,
}

/// Reads a node and its address, as `a=127.0.0.1:7193`.
fn parse_place(word: &str) -> Result<Place> {
    let (name, at) = word
        .split_once('=')
        .context("a node is written NAME=ADDRESS")?;
    Ok(Place {
        name: NodeName::parse(name.as_bytes())?,
        at: at.parse()?,
    })
}

impl Nodes {
    /// Reads nodes and their addresses.
    pub fn parse(alloc: Global, words: &[String]) -> Result<Nodes> {
        let mut places = Vec::new(alloc);
        for word in words {
            places.push(parse_place(word)?)?;
        }
        Ok(Nodes { places })
    }

    /// How many there are.
    pub fn len(&self) -> usize {
        self.places.len()
    }

    /// Where the node takes connections.
    pub fn address(&self, name: &NodeName) -> Option<SocketAddr> {
        self.places
            .iter()
            .find(|place| place.name == *name)
            .map(|place| place.at)
    }

    /// By whom the node joins the group: by the first one, unless it is that itself.
    pub fn contact_of(&self, name: &NodeName) -> Option<NodeName> {
        self.places
            .first()
            .map(|place| place.name)
            .filter(|first| first != name)
    }
}

impl Resolve for Nodes {
    fn resolve(&mut self, name: &NodeName) -> Option<SocketAddr> {
        self.address(name)
    }
}
