//! What the benchmarks need of Plumtree's core.
use crate::names::origin_named;
use anyhow::Result;
use at_rest::settle;
use frames::Frame;
use node_core::PlumCore;
use node_names::{Limits, NodeName, Origin};
use node_threads::{Host, NodeCell, NodeCore, Outlet, Port};
use protocol::{Core, Out, Trace};
use std::alloc::Global;
use trace_merge::project;
use world::World;

/// The name of the node that is measured alone.
pub(crate) const ME: &str = "a";

/// The most steps that this node makes.
const STEPS: usize = 1 << 24;

/// How many frames wait for a link of a running node at most: more than are sent to it.
const RING: usize = 1 << 17;

/// A node that has started, its ports and its links.
pub(crate) type Started<C> = (Host<C>, Vec<Port<C>>, Vec<Outlet>);

/// The core of the groups that are measured, which is Plumtree's. The benchmarks name it by this trait and the next
/// alone: the prover takes ten seconds and more over each function that names the type, and it runs out of steps where
/// one trait has the functions of both.
pub(crate) trait MeasuredGroup: Core<Global, Note = Frame> {
    /// Brings a group to rest, and returns how many events that took.
    fn settle(alloc: Global, group: &mut World<Self>) -> Result<u64>;

    /// The trace of a node of a group.
    fn trace(alloc: Global, group: &World<Self>, origin: Origin) -> Result<Trace<Frame>>;
}

/// The core of the nodes that are measured, which is Plumtree's.
pub(crate) trait MeasuredNode: Core<Global, Note = Frame> + NodeCore<Global> + Send + 'static {
    /// Makes a cell whose core has just started, without peers.
    fn start_cell(alloc: Global) -> Result<NodeCell<Self>>;

    /// Starts a node without peers, with links to the nodes of these names.
    fn start_host(alloc: Global, names: &[NodeName]) -> Result<Started<Self>>;
}

impl MeasuredGroup for PlumCore {
    fn settle(alloc: Global, group: &mut World<PlumCore>) -> Result<u64> {
        Ok(settle(alloc, group)?)
    }

    fn trace(alloc: Global, group: &World<PlumCore>, origin: Origin) -> Result<Trace<Frame>> {
        Ok(project(alloc, group, origin)?)
    }
}

impl MeasuredNode for PlumCore {
    fn start_cell(alloc: Global) -> Result<NodeCell<PlumCore>> {
        let me = origin_named(ME)?;
        let mut opening = Out::new(alloc);
        let core = PlumCore::start(alloc, me, Limits::STANDARD, &[], None, &mut opening)?;
        Ok(NodeCell::new(alloc, core, opening, STEPS)?)
    }

    fn start_host(alloc: Global, names: &[NodeName]) -> Result<Started<PlumCore>> {
        let me = origin_named(ME)?;
        let mut opening = Out::new(alloc);
        let core = PlumCore::start(alloc, me, Limits::STANDARD, &[], None, &mut opening)?;
        Ok(Host::start(alloc, core, opening, names, 1, RING, STEPS)?)
    }
}
