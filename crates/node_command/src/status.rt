//! What a node says of itself.
use cluster_node::{ClusterNode, SteppedNode};
use event_loop::LoopNode;
use node_core::PlumCore;
use node_names::NodeName;
use node_status::{Counts, Kept, Neighbor, Status};
use protocol::Core;
use std::alloc::{AllocError, Global};
use std::net::SocketAddr;

/// What a node says of itself: what does not change, and how it was at its last tick. The server of pages is a member
/// of the same loop, which never waits for another, and to look at the node for each request would let whoever asks
/// slow it down.
#[derive(Drop)]
pub(crate) struct StatusKeeper {
    alloc: Global,
    incarnation: u64,
    listen: SocketAddr,
    /// The clock's microseconds when it started.
    started: u64,
    /// How it was when it was looked at last.
    latest: Option<Status>,
}

/// The names that it knows besides its neighbours.
fn others_of(alloc: Global, core: &PlumCore) -> Result<Vec<NodeName>, AllocError> {
    let mut names = Vec::with_capacity(alloc, core.passive().len())?;
    for name in core.passive() {
        names.push(*name)?;
    }
    Ok(names)
}

/// Its neighbours.
fn neighbors_of<N: SteppedNode<Global>>(
    alloc: Global,
    node: &ClusterNode<N>,
) -> Result<Vec<Neighbor>, AllocError> {
    let core = node.node().core();
    let mut active = Vec::with_capacity(alloc, core.active().len())?;
    for name in core.active() {
        active.push(Neighbor {
            name: *name,
            is_eager: core.peers().is_eager(name),
            waiting: node.waiting(name),
            at: node.address_of(name),
        })?;
    }
    Ok(active)
}

/// What it keeps of messages.
fn kept_of(core: &PlumCore) -> Kept {
    Kept {
        payloads: core.held().len(),
        wanted: core.wants().iter().filter(|want| want.is_some()).count(),
        announcements: core.queued().len(),
    }
}

impl StatusKeeper {
    /// Begins with a node that started at this time, and listens here.
    pub(crate) fn new(
        alloc: Global,
        incarnation: u64,
        listen: SocketAddr,
        started: u64,
    ) -> StatusKeeper {
        StatusKeeper {
            alloc,
            incarnation,
            listen,
            started,
            latest: None,
        }
    }

    /// Where it takes memory.
    pub(crate) fn alloc(&self) -> Global {
        self.alloc
    }

    /// How the node was when it was looked at last.
    pub(crate) fn latest(&self) -> Option<&Status> {
        self.latest.as_ref()
    }

    /// Whether the node made a tick since it was looked at last.
    pub(crate) fn is_old(&self, ticks: u64) -> bool {
        match &self.latest {
            Some(status) => status.counts.ticks != ticks,
            None => true,
        }
    }

    /// Looks at the node at this time, when its process has so much memory. Where memory is refused, what was seen last
    /// stays.
    pub(crate) fn look<N: SteppedNode<Global>>(
        &mut self,
        node: &ClusterNode<N>,
        now: u64,
        memory_bytes: Option<u64>,
    ) {
        if let Ok(status) = self.status_of(node, now, memory_bytes) {
            self.latest = Some(status);
        }
    }

    /// What the node says of itself at this time, when its process has so much memory.
    fn status_of<N: SteppedNode<Global>>(
        &self,
        node: &ClusterNode<N>,
        now: u64,
        memory_bytes: Option<u64>,
    ) -> Result<Status, AllocError> {
        let own = node.identity();
        let core = node.node().core();
        Ok(Status {
            name: own.name,
            incarnation: self.incarnation,
            cluster: own.label,
            listen: self.listen,
            advertise: SocketAddr::from(own.at),
            active: neighbors_of(self.alloc, node)?,
            passive: others_of(self.alloc, core)?,
            counts: self.counts_of(node, now),
            kept: kept_of(core),
            connections: node.connections(),
            links: node.links(),
            memory_bytes,
        })
    }

    /// How much the node did.
    fn counts_of<N: SteppedNode<Global>>(&self, node: &ClusterNode<N>, now: u64) -> Counts {
        let counts = node.counts();
        Counts {
            uptime_ms: now.saturating_sub(self.started) / 1_000,
            ticks: node.node().ticks(),
            steps: counts.steps,
            broadcast: counts.broadcast,
            delivered: counts.delivered,
        }
    }
}
