//! A running node: how it starts and how it stops. This folder has all that has threads or a lock, or waits.
ghost use Rattle.std.specs.Prelude.{◌≡◌, [], ◌∷◌, ◌++◌, None, IfOk, IfErr, OnOk, map, replicate};
ghost use Rattle.node_threads.specs.Opening.{IsFresh};
ghost use Rattle.node_threads.specs.Outlet.{fresh_outlet};

mod basket;
pub(crate) mod closed;
mod closing;
pub(crate) mod comparing;
pub(crate) mod gate;
pub(crate) mod handing;
mod joining;
mod lasting;
pub(crate) mod port;
pub(crate) mod reading;
mod shared;
mod staying;
mod stepper;
pub(crate) mod ticking;
mod wakeups;
pub(crate) mod worker;
mod writer_place;
pub(crate) mod writing;

use crate::cell::NodeCell;
use crate::cell::outlet::Outlet;
use crate::cell::sealing::Sealed;
use crate::cores::NodeCore;
use crate::error::HostError;
use crate::host::gate::Gate;
use crate::host::port::Port;
use crate::host::shared::Shared;
use crate::host::stepper::Stepper;
use crate::host::worker::{Outlets, Worker};
use frames::Frame;
use node_names::NodeName;
use protocol::Out;
use std::alloc::{AllocError, Allocator, Global};
use std::marker::Model;
use std::sync::{Arc, Wait};

/// A running node. Its ports belong to the application, and its workers move frames and deliveries.
///
/// Dropping it does not stop anything; `close` does.
#[derive(Drop)]
pub struct Host<C: NodeCore<A> + Drop, A: Allocator = Global> {
    pub(crate) shared: Arc<Shared<C, A>, A>,
    /// How many ports were made.
    pub(crate) ports: usize,
    /// The outlets of the workers that were joined, kept for the close.
    pub(crate) left: Vec<Outlets<A>, A>,
}

impl<C: NodeCore<A> + Drop, A: Allocator> Model for Host<C, A> {
    ghost use Rattle.std.specs.Prelude.{ℕ};

    ghost Value = { ℕ };

    ghost view = { λ h. h.ports };
}

/// Makes `count` ports of one node.
fn new_ports<C: NodeCore<A> + Drop, A: Allocator + Copy>(
    alloc: A,
    shared: &Arc<Shared<C, A>, A>,
    count: usize,
) -> Result<Vec<Port<C, A>, A>, AllocError>
    ensures { IfOk result (λ ports. ports.items ≡ replicate count []) }
{
    let mut ports = Vec::new(alloc);
    for _ in 0..count {
        ports.push(Port::new(alloc, Arc::try_clone(shared)?))?;
    }
    Ok(ports)
}

/// Appends an outlet.
fn keep<A: Allocator>(outlets: &mut Vec<Outlet<A>, A>, outlet: Outlet<A>) -> Result<(), AllocError>
    ensures { OnOk result (outlets.new.items ≡ outlets.old.items ++ outlet ∷ []) }
{
    outlets.push(outlet)?;
    Ok(())
}

/// Opens a link to each of the names, in order, with rings for `ring` frames.
fn open_links<C: NodeCore<A> + Drop, A: Allocator + Copy>(
    alloc: A,
    cell: &mut NodeCell<C, A>,
    names: &[NodeName],
    ring: usize,
) -> Result<Vec<Outlet<A>, A>, HostError>
    requires { (cell.old.since ≡ None) × (cell.old.trace.steps ≡ []) }
    ensures outlets { IfOk result (λ outlets. outlets.items ≡ map fresh_outlet names.now) }
    ensures err { IfErr result (λ e. e ≡ HostError.OutOfMemory) }
{
    let mut outlets = Vec::new(alloc);
    for name in names {
        let outlet = cell.open_link(*name, ring)?;
        keep(&mut outlets, outlet)?;
    }
    Ok(outlets)
}

/// Puts the cell under a lock that several threads can share.
fn share<C: NodeCore<A> + Drop, A: Allocator + Copy>(
    alloc: A,
    cell: NodeCell<C, A>,
    names: &[NodeName],
    ring: usize,
) -> Result<Arc<Shared<C, A>, A>, AllocError> {
    Ok(Arc::new(alloc, Shared::new(alloc, cell, names, ring)?)?)
}

impl<C: NodeCore<A> + Drop, A: Allocator + Copy> Host<C, A> {
    /// Runs a node that has just started, and opens a link to each of the names before any step. `opening` is the
    /// output of its start. Returns the host, its ports, and the outlets of the links in the order of the names.
    ///
    /// `ring` is the number of frames that the ring of each link has room for, and the trace may have at most
    /// `trace_limit` steps. The names should be distinct and other than the node's own: of two links to one name only
    /// the last is open, and a node sends nothing to itself. A link whose ring has no room for what the start sent is
    /// closed. The only error is `OutOfMemory`.
    pub fn start(
        alloc: A,
        core: C,
        opening: Out<Frame<A>, A>,
        names: &[NodeName],
        ports: usize,
        ring: usize,
        trace_limit: usize,
    ) -> Result<(Host<C, A>, Vec<Port<C, A>, A>, Vec<Outlet<A>, A>), HostError>
        requires { IsFresh C.starts core opening }
        ensures host { IfOk result (λ started. started.0 ≡ ports) }
        ensures ports { IfOk result (λ started. started.1.items ≡ replicate ports []) }
        ensures outlets { IfOk result (λ started. started.2.items ≡ map fresh_outlet names.now) }
        ensures err { IfErr result (λ e. e ≡ HostError.OutOfMemory) }
    {
        let mut cell = NodeCell::new(alloc, core, opening, trace_limit)?;
        let outlets = open_links(alloc, &mut cell, names, ring)?;
        let shared = share(alloc, cell, names, ring)?;
        let given = new_ports(alloc, &shared, ports)?;
        let left = Vec::new(alloc);
        Ok((
            Host {
                shared,
                ports,
                left,
            },
            given,
            outlets,
        ))
    }

    /// Stops the node: from now on no step is made. Its workers then end.
    pub fn stop<R: Wait>(&self, rt: &R) {
        self.shared.stop(rt);
    }

    /// Hands out the steps since the last call, as `NodeCell::seal` does. This works after the stop too. The node makes
    /// no step meanwhile.
    pub fn seal<R: Wait>(&self, rt: &R) -> Result<Sealed<C, A>, HostError> {
        self.shared.seal(rt)
    }

    /// Whether one of its workers was refused memory, so that it ended early or gave a link up.
    pub fn lacks_memory(&self) -> bool {
        self.shared.lacks_memory()
    }

    /// Whether the name is in the core's active view now.
    pub fn is_neighbour<R: Wait>(&self, rt: &R, name: &NodeName) -> bool {
        self.shared.is_neighbour(rt, name)
    }

    /// Tells the worker that writes the link to this name to end once its outlet has no frame. Its connection is then
    /// dropped, and `join_ended` hands its outlet back.
    /// If memory is refused for this, nothing happens.
    pub fn retire<R: Wait>(&self, rt: &R, peer: &NodeName) {
        self.shared.retire(rt, peer);
    }

    /// Gives the worker with this number access to the node's steps.
    pub(crate) fn stepper<G: Gate + Drop>(
        &self,
        gate: G,
        number: usize,
    ) -> Result<Stepper<C, A, G>, HostError> {
        if self.shared.is_stopped() {
            return Err(HostError::Closed);
        }
        let shared = Arc::try_clone(&self.shared)?;
        Ok(Stepper::new(shared, gate, number))
    }

    /// Counts a worker that was started, which must come back when the node is closed, and returns it.
    pub(crate) fn employ(&self, worker: Worker<A>) -> Worker<A>
        ensures { result ≡ worker }
    {
        self.shared.count_worker();
        worker
    }
}
