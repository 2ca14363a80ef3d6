//! A group that runs.
ghost use Rattle.std.specs.Prelude.{◌≡◌, All, IfOk, length};
ghost use Rattle.node_core.specs.Steps.{PlumStarts, PlumSteps};
ghost use Rattle.node_threads.specs.History.{IsHistory};

use crate::closing::{RunReport, close_all};
use crate::common::Common;
use crate::error::RunError;
use crate::machine::Machine;
use crate::member::Member;
use crate::node::Node;
use crate::pace::{idle_ticks, pause_after};
use crate::starting::{addresses, listen_all, listen_spare, start_nodes};
use crate::watch::Watch;
use node_names::Limits;
use node_threads::NodeCore;
use std::alloc::Global;
use std::net::TcpListener;
use std::sync::Wait;
use std::time::{Duration, Instant};

/// How many milliseconds a tick takes.
pub const TICK: u64 = 20;

/// The maximum number of ticks that pass before the nodes begin to broadcast.
const MAX_QUIET_TICKS: u32 = 10;

/// How a group is to run.
#[derive(Clone, Copy, Debug)]
pub struct Plan {
    /// The limits of every node.
    pub limits: Limits,
    /// The seed of the nodes' dice.
    pub seed: u64,
    /// The number of ticks, of 20 milliseconds each, after which the nodes are stopped.
    pub ticks: u32,
}

/// Starts the threads of each node.
fn start_threads<R, C>(
    common: &mut Common<R>,
    nodes: &mut [Node<C>],
    listeners: Vec<TcpListener>,
    ticks: u32,
) -> Result<(), RunError>
where
    R: Machine,
    C: NodeCore<Global> + Drop + Send + 'static,
{
    for (node, listener) in nodes.iter_mut().zip(listeners) {
        node.start_threads(common, listener, ticks)?;
    }
    Ok(())
}

/// Makes one turn of each node, in which it broadcasts at most `most` messages. Returns whether one of them had
/// anything to do, since there may soon be more to do then.
fn turn<R, C>(common: &mut Common<R>, nodes: &mut [Node<C>], most: usize) -> Result<bool, RunError>
where
    R: Machine,
    C: NodeCore<Global> + Drop + Send + 'static,
{
    let mut is_busy = false;
    for node in nodes.iter_mut() {
        is_busy |= node.turn(common, most)?;
    }
    Ok(is_busy)
}

/// Ends the writers of unused links.
fn retire_idle<R: Wait, C: NodeCore<Global> + Drop>(rt: &R, nodes: &mut [Node<C>], now: u64) {
    let ticks = idle_ticks(written(nodes));
    for node in nodes.iter_mut() {
        node.engine.retire_idle(rt, now, ticks);
    }
}

/// Returns the error of the first node that has a shortage, if there is one.
fn check<C: NodeCore<Global> + Drop>(nodes: &[Node<C>], is_last: bool) -> Result<(), RunError> {
    for node in nodes {
        node.check(is_last)?;
    }
    Ok(())
}

/// How many links have a writer.
fn written<C: NodeCore<Global> + Drop>(nodes: &[Node<C>]) -> usize {
    let mut count: usize = 0;
    for node in nodes {
        count = count.saturating_add(node.engine.written());
    }
    count
}

/// How many messages were delivered.
fn delivered<R: Wait, C: NodeCore<Global> + Drop + Send + 'static>(
    rt: &R,
    nodes: &[Node<C>],
) -> usize {
    let mut count: usize = 0;
    for node in nodes {
        count = count.saturating_add(node.delivered(rt));
    }
    count
}

/// How many of these ticks pass before the nodes begin to broadcast.
pub fn quiet_ticks(ticks: u32) -> u64 {
    u64::from(MAX_QUIET_TICKS.min(ticks / 10))
}

/// How many messages each node may broadcast in this turn. `None`: the run is to end.
fn allowed<V: Watch>(watch: &mut V, now: u64, quiet: u64) -> Option<usize> {
    if now < quiet { Some(0) } else { watch.allow() }
}

/// Makes turns until the ticks are over and all is broadcast, or the watch ends the run.
fn make_turns<R, C, V>(
    common: &mut Common<R>,
    nodes: &mut [Node<C>],
    ticks: u32,
    watch: &mut V,
) -> Result<(), RunError>
where
    R: Machine,
    C: NodeCore<Global> + Drop + Send + 'static,
    V: Watch,
{
    let rt = common.rt;
    let quiet = quiet_ticks(ticks);
    let mut looked: u64 = 0;
    for _ in rt.forever() {
        let now = common.ticking.now();
        let Some(most) = allowed(watch, now, quiet) else {
            return Ok(());
        };
        let is_busy = turn(common, nodes, most)?;
        if now != looked {
            retire_idle(&rt, nodes, now);
            looked = now;
        }
        watch.look(now, ticks, delivered(&rt, nodes));
        let is_over = common.ticking.is_over() && nodes.iter().all(|node| node.is_said());
        check(nodes, is_over)?;
        if is_over {
            return Ok(());
        }
        pause_after(&rt, is_busy);
    }
    unreachable!()
}

/// Has the nodes run until the ticks are over and all is broadcast, or the watch ends the run.
fn work<R, C, V>(
    common: &mut Common<R>,
    nodes: &mut [Node<C>],
    listeners: Vec<TcpListener>,
    ticks: u32,
    watch: &mut V,
) -> Result<(), RunError>
where
    R: Machine,
    C: NodeCore<Global> + Drop + Send + 'static,
    V: Watch,
{
    start_threads(common, nodes, listeners, ticks)?;
    make_turns(common, nodes, ticks, watch)
}

/// Listens for the members, starts their nodes, and has them run to the end.
fn run_members<R, V>(
    common: &mut Common<R>,
    start: Option<Instant>,
    plan: &Plan,
    members: Vec<Member>,
    watch: &mut V,
) -> Result<RunReport, RunError>
where
    R: Machine,
    V: Watch,
    ensures histories { IfOk result (λ ran. All (IsHistory PlumStarts PlumSteps) ran.traces.items) }
    ensures each { IfOk result (λ ran. length ran.traces.items ≡ length members.items) }
{
    let rt = common.rt;
    let alloc = common.alloc;
    let listeners = listen_all(&rt, alloc, members.as_slice())?;
    let spare = listen_spare(&rt, members.as_slice())?;
    let mut nodes = start_nodes(alloc, plan.limits, start, common.addresses(), members)?;
    let ended = work(common, nodes.as_mut_slice(), listeners, plan.ticks, watch);
    close_all(&rt, alloc, nodes, spare, ended.err())
}

/// Runs a group of nodes over connections on localhost. Each node has a link to every other.
///
/// It listens on all ports, in the order of the members, and starts the nodes. After a tenth of the ticks, but ten
/// ticks at most, each node broadcasts its texts, in order: by then nodes that have a contact have joined. When the
/// ticks are over and all is broadcast, or the watch ends the run, all nodes are stopped and closed.
///
/// `CannotListen` and `SamePort` come before any node starts, and so does `BadPeers`. `Short` may come at any time, and
/// ends the run; its node is the first in order of those that had a shortage in that turn. Otherwise the nodes run to
/// the end, and the error is that of the first node that refused a broadcast, or else of the first node whose close
/// failed. The names of the members should be distinct: otherwise frames go to the first member of a name. If the clock
/// can't be read, the times in the report are 0.
pub fn run<R, V>(
    rt: R,
    alloc: Global,
    plan: &Plan,
    members: Vec<Member>,
    watch: &mut V,
) -> Result<RunReport, RunError>
where
    R: Machine,
    V: Watch,
    ensures histories { IfOk result (λ ran. All (IsHistory PlumStarts PlumSteps) ran.traces.items) }
    ensures each { IfOk result (λ ran. length ran.traces.items ≡ length members.items) }
{
    let start = Instant::now(&rt).ok();
    let addresses = addresses(alloc, members.as_slice())?;
    let tick = Duration::from_millis(TICK);
    let mut common = Common::new(rt, alloc, tick, plan.seed, addresses)?;
    run_members(&mut common, start, plan, members, watch)
}
