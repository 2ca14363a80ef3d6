//! What a node tells of its links and connections.
use event_loop::LinkError;
use handshake::HandshakeError;
use node_names::NodeName;
use std::alloc::Allocator;
use std::net::SocketAddr;
use std::{fmt, mem};

/// How many notices are kept at most. Those that come when so many wait are counted and dropped.
const MAX_NOTICES: usize = 256;

/// What a node tells of its links and connections.
#[derive(Clone, Copy, Debug)]
pub enum Notice {
    /// It asks this contact to be taken into the group.
    Joining {
        contact: NodeName,
    },
    /// This name cannot be reached.
    Unreachable {
        name: NodeName,
        error: LinkError,
    },
    /// A node of this name opened a connection, and takes connections at this address.
    Heard {
        name: NodeName,
        at: SocketAddr,
    },
    /// A connection is closed, over which came what no node of this cluster sends.
    Refused {
        from: Option<SocketAddr>,
        error: HandshakeError,
    },
    /// A connection is closed, whose node is of another cluster.
    OtherCluster {
        from: Option<SocketAddr>,
        name: NodeName,
        label: NodeName,
    },
    /// A connection is closed whose node means another node: it was told a wrong address, or an old one.
    Misdirected {
        from: Option<SocketAddr>,
        name: NodeName,
        to: NodeName,
    },
    /// A neighbour of this name takes connections at another address than a node of its name that connected.
    Twice {
        name: NodeName,
        at: SocketAddr,
        other: SocketAddr,
    },
    /// Another node has the name of this one.
    SameName {
        at: SocketAddr,
    },
}

/// Writes where a connection comes from, as far as that is known.
fn write_origin<W: fmt::Write>(
    from: &Option<SocketAddr>,
    f: &mut fmt::Formatter<W>,
) -> fmt::Result {
    match from {
        Some(from) => write!(f, "{from}"),
        None => f.write_str("unknown address"),
    }
}

impl fmt::Display for Notice {
    fn fmt<W: fmt::Write>(&self, f: &mut fmt::Formatter<W>) -> fmt::Result {
        match self {
            Notice::Joining { contact } => write!(f, "asks {contact} to join the group"),
            Notice::Unreachable { name, error } => write!(f, "cannot reach {name}: {error}"),
            Notice::Heard { name, at } => write!(f, "{name} connected, and listens at {at}"),
            Notice::Refused { from, error } => {
                f.write_str("refused a connection from ")?;
                write_origin(from, f)?;
                write!(f, ": {error}")
            }
            Notice::OtherCluster { from, name, label } => {
                f.write_str("refused a connection from ")?;
                write_origin(from, f)?;
                write!(f, ": {name} is of the cluster {label}")
            }
            Notice::Misdirected { from, name, to } => {
                f.write_str("refused a connection from ")?;
                write_origin(from, f)?;
                write!(f, ": {name} wants to reach {to}")
            }
            Notice::Twice { name, at, other } => {
                write!(f, "there may be two nodes {name}: at {other} and at {at}")
            }
            Notice::SameName { at } => write!(f, "the node at {at} has this node's name"),
        }
    }
}

/// Notices that were not taken yet.
#[derive(Drop)]
pub struct Notices<A: Allocator + Copy> {
    waiting: Vec<Notice, A>,
    /// How many were dropped since these were taken last.
    dropped: usize,
}

impl<A: Allocator + Copy> Notices<A> {
    /// None.
    pub(crate) fn new(alloc: A) -> Notices<A> {
        Notices {
            waiting: Vec::new(alloc),
            dropped: 0,
        }
    }

    /// Keeps a notice. Where too many wait, or memory is refused, it is counted instead.
    pub(crate) fn push(&mut self, notice: Notice) {
        if self.waiting.len() >= MAX_NOTICES || self.waiting.push(notice).is_err() {
            self.dropped = self.dropped.saturating_add(1);
        }
    }

    /// Takes the notices, with the number of those that were dropped.
    pub(crate) fn take(&mut self) -> (Vec<Notice, A>, usize) {
        let alloc = *self.waiting.allocator();
        let taken = mem::replace(&mut self.waiting, Vec::new(alloc));
        (taken, mem::replace(&mut self.dropped, 0))
    }
}
