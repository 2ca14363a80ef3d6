//! Where the members of a group take connections.
use event_loop::Resolve;
use indexmap::IndexMap;
use loopback::{Member, address};
use node_names::NodeName;
use std::alloc::{AllocError, Global};
use std::hash::{BuildHasherDefault, FoldHasher};
use std::net::SocketAddr;

/// The ports of 127.0.0.1 where the members take connections, by their names.
#[derive(Drop)]
pub(crate) struct Places {
    ports: IndexMap<NodeName, u16, BuildHasherDefault<FoldHasher>, Global>,
}

impl Places {
    /// Notes the ports of the members.
    pub(crate) fn new(alloc: Global, members: &[Member]) -> Result<Places, AllocError> {
        let mut ports = IndexMap::new(alloc);
        for member in members {
            ports.insert(member.me.name, member.port)?;
        }
        Ok(Places { ports })
    }
}

impl Resolve for Places {
    fn resolve(&mut self, name: &NodeName) -> Option<SocketAddr> {
        match self.ports.get(name) {
            Some(port) => Some(address(*port)),
            None => None,
        }
    }
}
