//! Where nodes take connections, as their names are read from texts.
use anyhow::Result;
use event_loop::Resolve;
use node_names::NodeName;
use std::alloc::Global;
use std::net::SocketAddr;

/// Where nodes take connections.
#[derive(Drop)]
pub(crate) struct Book {
    places: Vec<(NodeName, SocketAddr)>,
}

/// Reads a name.
pub(crate) fn name(text: &str) -> Result<NodeName> {
    Ok(NodeName::parse(text.as_bytes())?)
}

/// Reads names that blanks separate.
pub(crate) fn names(alloc: Global, text: &str) -> Result<Vec<NodeName>> {
    let mut names = Vec::new(alloc);
    for word in text.split_whitespace() {
        names.push(name(word)?)?;
    }
    Ok(names)
}

/// Any free port of this machine.
pub(crate) fn any_port() -> Result<SocketAddr> {
    Ok("127.0.0.1:0".parse()?)
}

impl Book {
    /// Makes an empty book.
    pub(crate) fn new(alloc: Global) -> Book {
        Book {
            places: Vec::new(alloc),
        }
    }

    /// Writes down where the node of this name takes connections.
    pub(crate) fn note(&mut self, text: &str, at: SocketAddr) -> Result<()> {
        self.places.push((name(text)?, at))?;
        Ok(())
    }
}

impl Resolve for Book {
    fn resolve(&mut self, name: &NodeName) -> Option<SocketAddr> {
        self.places
            .iter()
            .find(|place| place.0 == *name)
            .map(|place| place.1)
    }
}
