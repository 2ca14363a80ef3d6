//! What a node says of itself.
use node_names::NodeName;
use std::net::SocketAddr;

/// What a node says of itself.
#[derive(Debug, Drop)]
pub struct Status {
    pub name: NodeName,
    pub incarnation: u64,
    /// The label of the cluster that it is of.
    pub cluster: NodeName,
    /// Where it takes connections.
    pub listen: SocketAddr,
    /// What it tells others as its address.
    pub advertise: SocketAddr,
    /// The active view.
    pub active: Vec<Neighbor>,
    /// The passive view.
    pub passive: Vec<NodeName>,
    pub counts: Counts,
    pub kept: Kept,
    /// How many connections are open that others made.
    pub connections: usize,
    /// How many links it dialled.
    pub links: usize,
    /// How many bytes of memory its process has, if its system tells.
    pub memory_bytes: Option<u64>,
}

/// A neighbour of a node.
#[derive(Clone, Copy, Debug, PartialEq, Eq)]
pub struct Neighbor {
    pub name: NodeName,
    /// Whether messages are sent to it, and not only announced.
    pub is_eager: bool,
    /// How many bytes wait to be sent to it.
    pub waiting: usize,
    /// Where it takes connections, as far as that is known.
    pub at: Option<SocketAddr>,
}

/// What a node has done since it started.
#[derive(Clone, Copy, Debug, PartialEq, Eq)]
pub struct Counts {
    pub uptime_ms: u64,
    pub ticks: u64,
    pub steps: u64,
    /// How many messages were broadcast here.
    pub broadcast: u64,
    /// How many messages were delivered here.
    pub delivered: u64,
}

/// What a node keeps of messages.
#[derive(Clone, Copy, Debug, PartialEq, Eq)]
pub struct Kept {
    /// How many payloads are held for nodes that ask for them.
    pub payloads: usize,
    /// How many messages were announced and have not come.
    pub wanted: usize,
    /// How many announcements are queued to lazy neighbours.
    pub announcements: usize,
}
