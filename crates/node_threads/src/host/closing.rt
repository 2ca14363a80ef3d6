//! Closing a running node.
ghost use Rattle.std.specs.Prelude.{◌≡◌, ◌≤◌, true, None, List, ◌∷◌, [], ◌++◌, IfOk, IfErr, length};
ghost use Rattle.protocol.specs.Trace.{delivered};
ghost use Rattle.node_threads.specs.Closing.{Fails, Finds, IsClosed, IsLeft, Matches, Mismatches};
ghost use Rattle.node_threads.specs.Leaving.{AreLeft, outlets_of};
ghost use Rattle.node_threads.specs.Outlet.{Outlet};
ghost use Rattle.node_threads.specs.Receipts.{Call as Made};

use crate::cell::NodeCell;
use crate::cell::receipt::Call;
use crate::cell::report::LinkReport;
use crate::cores::NodeCore;
use crate::host::Host;
use crate::host::closed::{CloseError, Closed};
use crate::host::comparing::{Mismatch, compare};
use crate::host::port::Port;
use crate::host::worker::{Outlets, Worker};
use frames::Frame;
use node_names::Listed;
use protocol::Trace;
use std::alloc::{AllocError, Allocator};
use std::sync::Wait;
use std::thread::Threads;

/// Appends the outlets that a worker left. Returns whether there was room for these and for all before.
fn keep<A: Allocator>(kept: bool, given: &mut Vec<Outlets<A>, A>, outlets: Outlets<A>) -> bool
    ensures before { result ≡ true → kept ≡ true }
    ensures here { result ≡ true → given.new.items ≡ given.old.items ++ outlets ∷ [] }
{
    given.push(outlets).is_ok() && kept
}

/// Waits until all workers have ended, and appends their outlets to `given`. If an allocation is refused, it still
/// waits for all of them.
fn join_all<R: Threads, A: Allocator + Copy>(
    rt: &R,
    mut given: Vec<Outlets<A>, A>,
    workers: Vec<Worker<A>, A>,
) -> Result<Vec<Outlets<A>, A>, AllocError>
    ensures { IfOk result (λ outlets. AreLeft (outlets_of given.items) workers.items (outlets_of outlets.items)) }
{
    let mut kept = true;
    for worker in workers {
        kept = keep(kept, &mut given, worker.join(rt));
    }
    if !kept {
        return Err(AllocError);
    }
    Ok(given)
}

/// The calls of all ports.
fn calls_of<C: NodeCore<A> + Drop, A: Allocator + Copy>(
    alloc: A,
    ports: Vec<Port<C, A>, A>,
) -> Result<Vec<Listed<Call<A>, A>, A>, AllocError>
    ensures { IfOk result (λ calls. calls.items ≡ ports.items) }
{
    let mut calls = Vec::new(alloc);
    for port in ports {
        calls.push(port.into_calls())?;
    }
    Ok(calls)
}

/// Compares the calls of the ports and the outlets of the workers with the trace.
fn compare_records<C: NodeCore<A> + Drop, A: Allocator + Copy>(
    cell: &NodeCell<C, A>,
    ports: Vec<Port<C, A>, A>,
    workers: &[Outlets<A>],
) -> Result<Vec<LinkReport, A>, Mismatch>
    ensures ok { IfOk result
        (λ links. Matches cell.now.since cell.now.trace ports.items (outlets_of workers.now) links.items) }
    ensures err { IfErr result (Mismatches cell.now.since cell.now.trace ports.items (outlets_of workers.now)) }
{
    let alloc = cell.alloc();
    let calls = calls_of(alloc, ports)?;
    compare(alloc, cell, calls.as_slice(), workers)
}

/// Makes the error that hands the trace out.
fn close_error<C: NodeCore<A> + Drop, A: Allocator + Copy>(
    mismatch: Mismatch,
    since: Option<usize>,
    trace: Trace<Frame<A>, A>,
) -> CloseError<C, A>
    ensures { (ports : List (List Made)) (outlets : List Outlet)
        → IsLeft C.starts C.steps since trace
        → Mismatches since trace ports outlets mismatch
        → Finds C.starts C.steps ports outlets result }
{
    match mismatch {
        Mismatch::Port(port) => CloseError::Unlike { port, since, trace },
        Mismatch::Link(peer) => CloseError::Torn { peer, since, trace },
        Mismatch::OutOfMemory => CloseError::OutOfMemory { since, trace },
    }
}

impl<C: NodeCore<A> + Drop, A: Allocator + Copy> NodeCell<C, A> {
    /// The number of deliveries that were handed out, which are the first ones of its trace.
    fn count_handed(&self) -> u64
        ensures same { result ≡ self.now.handed_out }
        ensures within { self.now.since ≡ None → result ≤ length (delivered self.now.trace.steps) }
    {
        let _steps = self.trace.len();
        self.handed_out()
    }
}

/// What a node leaves that was stopped and whose workers have ended.
fn hand_back<C: NodeCore<A> + Drop, A: Allocator + Copy>(
    cell: NodeCell<C, A>,
    ports: Vec<Port<C, A>, A>,
    workers: Vec<Outlets<A>, A>,
) -> Result<Closed<A>, CloseError<C, A>>
    ensures since { IfOk result (λ closed. closed.since ≡ cell.since) }
    ensures trace { IfOk result (λ closed. closed.trace ≡ cell.trace) }
    ensures history { IfOk result (λ closed. IsLeft C.starts C.steps closed.since closed.trace) }
    ensures handed { IfOk result (λ closed. closed.handed_out ≡ cell.handed_out) }
    ensures handed_within { IfOk result
        (λ closed. closed.since ≡ None → closed.handed_out ≤ length (delivered closed.trace.steps)) }
    ensures matches { IfOk result
        (λ closed. Matches closed.since closed.trace ports.items (outlets_of workers.items) closed.links.items) }
    ensures err { IfErr result (Finds C.starts C.steps ports.items (outlets_of workers.items)) }
{
    let verdict = compare_records(&cell, ports, workers.as_slice());
    let handed_out = cell.count_handed();
    let since = cell.since();
    let trace = cell.into_trace();
    match verdict {
        Ok(links) => Ok(Closed {
            since,
            trace,
            handed_out,
            links,
        }),
        Err(mismatch) => Err(close_error(mismatch, since, trace)),
    }
}

impl<C: NodeCore<A> + Drop, A: Allocator + Copy> Host<C, A> {
    /// Stops the node, waits for its workers to end, and compares what its ports and its workers had with its trace.
    ///
    /// `PortMissing`: the number of ports is not the number that were made, or the number of workers is not the number
    /// that were started and not joined yet; nothing was stopped. After that come `Unlike`, `Torn` and `OutOfMemory`,
    /// in this order except that an allocation may be refused at any point: the node is closed, and its trace is handed
    /// out. Of a node that may forget, all this is about what is left: `Closed::since`.
    ///
    /// Call it in the thread that started the workers. It returns when they have ended: readers whose links do not end
    /// keep it waiting.
    pub fn close<R: Threads + Wait>(
        self,
        rt: &R,
        ports: Vec<Port<C, A>, A>,
        workers: Vec<Worker<A>, A>,
    ) -> Result<Closed<A>, CloseError<C, A>>
        ensures counted { IfOk result (λ closed. length ports.items ≡ self) }
        ensures history { IfOk result (λ closed. IsLeft C.starts C.steps closed.since closed.trace) }
        ensures handed { IfOk result
            (λ closed. closed.since ≡ None → closed.handed_out ≤ length (delivered closed.trace.steps)) }
        ensures matches { IfOk result
            (λ closed. IsClosed closed.since closed.trace ports.items workers.items closed.links.items) }
        ensures err { IfErr result (Fails C.starts C.steps self ports.items workers.items) }
    {
        if ports.len() != self.ports || workers.len() != self.shared.workers() {
            return Err(CloseError::PortMissing {
                host: self,
                ports,
                workers,
            });
        }
        self.stop(rt);
        let Host { shared, left, .. } = self;
        let outlets = join_all(rt, left, workers);
        let cell = shared.take(rt);
        match outlets {
            Ok(outlets) => hand_back(cell, ports, outlets),
            Err(_) => Err(CloseError::OutOfMemory {
                since: cell.since(),
                trace: cell.into_trace(),
            }),
        }
    }
}
