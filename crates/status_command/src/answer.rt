//! A node that was asked, and its answer.
ghost use Rattle.std.specs.Prelude.{◌≡◌};

use node_names::NodeName;
use node_status::{Neighbor, Status};
use std::fmt;
use std::net::SocketAddr;

/// A node that was asked, and its answer.
#[derive(Debug, Drop)]
pub struct Answer {
    /// Where it was asked.
    pub at: SocketAddr,
    /// What it said of itself.
    pub status: Status,
}

impl Answer {
    ghost use Rattle.status_command.specs.Sights.{sees};

    /// The entry of this name in the node's active view, if there is one.
    pub(crate) fn neighbor(&self, name: &NodeName) -> Option<&Neighbor> {
        self.status
            .active
            .iter()
            .find(|neighbor| neighbor.name == *name)
    }

    /// Whether the node has this name in its active view.
    pub(crate) fn sees(&self, name: &NodeName) -> bool
        ensures { result ≡ sees self.now name.now }
    {
        self.status
            .active
            .iter()
            .any(|neighbor| neighbor.name == *name)
    }
}

/// How many neighbours a node has.
#[derive(Clone, Copy)]
struct Neighbors(usize);

impl fmt::Display for Neighbors {
    fn fmt<W: fmt::Write>(&self, f: &mut fmt::Formatter<W>) -> fmt::Result {
        match self.0 {
            1 => f.write_str("1 neighbour"),
            count => write!(f, "{count} neighbours"),
        }
    }
}

impl fmt::Display for Answer {
    fn fmt<W: fmt::Write>(&self, f: &mut fmt::Formatter<W>) -> fmt::Result {
        let Status {
            name,
            incarnation,
            active,
            passive,
            counts,
            ..
        } = &self.status;
        let eager = active.iter().filter(|neighbor| neighbor.is_eager).count();
        let neighbors = Neighbors(active.len());
        write!(
            f,
            "{name}/{incarnation} {}: {neighbors} ({eager} eager), ",
            self.at
        )?;
        write!(
            f,
            "{} known, up {} s, ",
            passive.len(),
            counts.uptime_ms / 1_000
        )?;
        write!(
            f,
            "broadcast {}, delivered {}",
            counts.broadcast, counts.delivered
        )
    }
}
