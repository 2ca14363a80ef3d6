//! The links of a node to the others.
use crate::common::Common;
use crate::last_use::LastUse;
use crate::link_writer::LinkDialler;
use crate::list::keep;
use crate::machine::Machine;
use crate::running::Running;
use crate::shortage::Shortage;
use crate::shortages::Shortages;
use node_names::NodeName;
use node_threads::{Host, NodeCore, Outlet};
use std::alloc::{AllocError, Global};
use std::mem;
use std::net::SocketAddr;
use std::sync::{Arc, Wait};

/// A link that has a writer.
#[derive(Drop)]
struct WrittenLink {
    peer: NodeName,
    used: Arc<LastUse, Global>,
    /// The tick in which it began or was last checked for being idle.
    looked_at: u64,
}

impl WrittenLink {
    /// Whether it was neither used nor checked in the last `ticks` ticks.
    fn is_due(&self, now: u64, ticks: u64) -> bool {
        self.used.is_over(ticks) && self.looked_at.saturating_add(ticks) < now
    }
}

/// Has the writer of a link end, unless the name is in the node's active view.
fn retire_stranger<R: Wait, C: NodeCore<Global> + Drop>(rt: &R, host: &Host<C>, peer: &NodeName) {
    if !host.is_neighbour(rt, peer) {
        host.retire(rt, peer);
    }
}

/// The links of a node to the others.
#[derive(Drop)]
pub(crate) struct LinkTable {
    /// The outlets whose links have no writer.
    unwritten: Vec<Outlet>,
    written: Vec<WrittenLink>,
}

/// Gives up the link of an outlet. If memory is refused, the outlet is kept.
fn give_up<R: Wait, C: NodeCore<Global> + Drop>(
    rt: &R,
    host: &mut Host<C>,
    unwritten: &mut Vec<Outlet>,
    outlet: Outlet,
) -> Result<(), AllocError> {
    match host.give_up(rt, outlet) {
        Some(outlet) => keep(unwritten, outlet),
        None => Ok(()),
    }
}

impl LinkTable {
    /// Makes the table of the links of these outlets, none of which has a writer.
    pub(crate) fn new(alloc: Global, outlets: Vec<Outlet>) -> LinkTable {
        LinkTable {
            unwritten: outlets,
            written: Vec::new(alloc),
        }
    }

    /// Takes the outlets of writers that have ended.
    pub(crate) fn take_back(&mut self, outlets: Vec<Outlet>) -> Result<(), AllocError> {
        for outlet in outlets {
            let peer = outlet.peer();
            self.written.retain(|link| link.peer != peer);
            keep(&mut self.unwritten, outlet)?;
        }
        Ok(())
    }

    /// Starts a writer for each link that has a frame and no writer, and returns whether there is such a link. The
    /// writers note their shortages.
    pub(crate) fn write_all<R, C>(
        &mut self,
        common: &Common<R>,
        running: &mut Running<C>,
        shortages: &Arc<Shortages, Global>,
    ) -> Result<bool, Shortage>
    where
        R: Machine,
        C: NodeCore<Global> + Drop + Send + 'static,
    {
        if !self.unwritten.iter_mut().any(|outlet| outlet.has_next()) {
            return Ok(false);
        }
        for outlet in mem::replace(&mut self.unwritten, Vec::new(common.alloc)) {
            self.look_at(common, running, shortages, outlet)?;
        }
        Ok(true)
    }

    /// Starts the writer of a link if it has a frame. A link to a name without an address is given up.
    fn look_at<R, C>(
        &mut self,
        common: &Common<R>,
        running: &mut Running<C>,
        shortages: &Arc<Shortages, Global>,
        mut outlet: Outlet,
    ) -> Result<(), Shortage>
    where
        R: Machine,
        C: NodeCore<Global> + Drop + Send + 'static,
    {
        if !outlet.has_next() {
            return Ok(keep(&mut self.unwritten, outlet)?);
        }
        let peer = outlet.peer();
        match common.address_of(&peer) {
            Some(at) => {
                let dialler = self.connect(common, shortages, peer, at)?;
                running.write(common.rt, outlet, dialler)
            }
            None => {
                let given = give_up(&common.rt, &mut running.host, &mut self.unwritten, outlet);
                Ok(given?)
            }
        }
    }

    /// Makes the dialler of a link that gets a writer.
    fn connect<R: Machine>(
        &mut self,
        common: &Common<R>,
        shortages: &Arc<Shortages, Global>,
        peer: NodeName,
        at: SocketAddr,
    ) -> Result<LinkDialler<R>, AllocError> {
        let ticking = Arc::try_clone(&common.ticking)?;
        let looked_at = ticking.now();
        let used = Arc::new(common.alloc, LastUse::new(ticking))?;
        let dialler = LinkDialler {
            rt: common.rt,
            alloc: common.alloc,
            at,
            used: Arc::try_clone(&used)?,
            shortages: Arc::try_clone(shortages)?,
        };
        let link = WrittenLink {
            peer,
            used,
            looked_at,
        };
        keep(&mut self.written, link)?;
        Ok(dialler)
    }

    /// How many links have a writer.
    pub(crate) fn written(&self) -> usize {
        self.written.len()
    }

    /// Ends the writers of links that were not used in the last `ticks` ticks and that go to names outside the node's
    /// active view. Since looking at the view takes the node's lock, each link is checked only once in as many ticks.
    ///
    /// Answers to shuffles go to any origin, so connections would become more with each. A link to a neighbour stays,
    /// since its end tells that the link is down.
    pub(crate) fn retire_idle<R: Wait, C: NodeCore<Global> + Drop>(
        &mut self,
        rt: &R,
        host: &Host<C>,
        now: u64,
        ticks: u64,
    ) {
        for link in self.written.iter_mut() {
            if link.is_due(now, ticks) {
                link.looked_at = now;
                retire_stranger(rt, host, &link.peer);
            }
        }
    }

    /// The outlets of the links that have no writer.
    pub(crate) fn into_unwritten(self) -> Vec<Outlet> {
        let LinkTable { unwritten, .. } = self;
        unwritten
    }
}
