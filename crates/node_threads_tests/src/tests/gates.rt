//! Readers whose order a gate decides.
use crate::tests::node::{LOOKS, Node, TestedCore, keep, name, start};
use bytes::Bytes;
use frames::{Body, Frame, encode};
use links::TapeReader;
use node_core::PlumCore;
use node_threads::{Gate, HostError, NodeCore, read_link};
use protocol::{StimulusOf, Trace};
use std::alloc::{AllocError, Global};
use std::process::Abort;
use std::sync::{Arc, Mutex, Wait};
use std::test::Fail;
use std::thread;
use std::thread::Threads;
use std::time::{Clock, Duration};
use test_support::first_run;

/// How often each of two workers was reported to have made a step, and how often the first one was refused.
#[derive(Clone, Copy)]
struct Reports {
    made: [u64; 2],
    refused: u64,
}

/// What a gate and its test share.
#[derive(Drop)]
struct Watch {
    reports: Mutex<Reports>,
}

impl Watch {
    /// Makes a watch to which nothing has been reported.
    fn new() -> Watch {
        let reports = Reports {
            made: [0, 0],
            refused: 0,
        };
        Watch {
            reports: Mutex::new(reports),
        }
    }

    /// Returns what was reported.
    fn reports<R: Wait>(&self, rt: &R) -> Reports {
        *self.reports.lock(rt)
    }

    /// Waits until both workers have made a step. Returns whether they have, and the first one was refused less often
    /// than it may ask.
    fn wait_for_both<R: Wait + Clock>(&self, rt: &R) -> bool {
        for _ in 0..LOOKS {
            let reports = self.reports(rt);
            if reports.made[0] > 0 && reports.made[1] > 0 {
                return reports.refused < 1_000;
            }
            thread::sleep(rt, Duration::from_millis(5));
        }
        false
    }
}

/// Lets worker 1 through only after worker 0 was refused, and worker 0 only after worker 1 has made a step.
#[derive(Drop)]
struct SecondFirst<R: Wait + Clock + Drop> {
    rt: R,
    watch: Arc<Watch, Global>,
}

impl<R: Wait + Clock + Drop> Gate for SecondFirst<R> {
    fn pass(&self, worker: usize) -> bool {
        let mut reports = self.watch.reports.lock(&self.rt);
        if worker == 1 {
            return reports.refused > 0;
        }
        let passes = reports.made[1] > 0;
        if !passes {
            reports.refused = reports.refused.saturating_add(1);
        }
        passes
    }

    fn applied(&self, worker: usize) {
        let mut reports = self.watch.reports.lock(&self.rt);
        if worker < 2 {
            reports.made[worker] = reports.made[worker].saturating_add(1);
        }
    }

    fn pause(&self) {
        thread::sleep(&self.rt, Duration::from_millis(5));
    }
}

/// Returns the bytes of a PRUNE from the node with this name.
fn prune_from(rt: &impl Abort, alloc: Global, text: &str) -> Result<Bytes, AllocError> {
    let sender = first_run(name(rt, text));
    let frame = Frame::new(sender, 1, Body::Prune).expect(rt, "a frame");
    encode(alloc, &frame)
}

/// Returns how many steps of the trace took a frame.
fn arrivals(trace: &Trace<Frame>) -> usize {
    (0..trace.len())
        .filter(|place| match trace.step(*place) {
            Some(step) => matches!(step.stimulus, StimulusOf::Arrive { .. }),
            None => false,
        })
        .count()
}

/// Starts reader `number` of a node behind a gate. One frame arrives at it.
fn start_reader<C, R, G>(
    rt: R,
    alloc: Global,
    node: &mut Node<C>,
    gate: G,
    number: usize,
    sender: &str,
) -> Result<(), HostError>
where
    C: NodeCore<Global> + Drop + Send + 'static,
    R: Threads + Wait + Clock + Abort + Copy + Send + Drop + 'static,
    G: Gate + Send + Drop + 'static,
{
    let tape = TapeReader::new(prune_from(&rt, alloc, sender)?, Vec::new(alloc), None);
    let reader = read_link(rt, &node.host, gate, number, tape, 1)?;
    keep(&mut node.workers, reader)?;
    Ok(())
}

/// Starts two readers of a node, of which the second one goes first.
fn start_readers<C, R>(
    rt: R,
    alloc: Global,
    node: &mut Node<C>,
    watch: &Arc<Watch, Global>,
) -> Result<(), HostError>
where
    C: NodeCore<Global> + Drop + Send + 'static,
    R: Threads + Wait + Clock + Abort + Copy + Send + Drop + 'static,
{
    for (number, sender) in ["p", "q"].iter().enumerate() {
        let watch = Arc::try_clone(watch)?;
        let gate = SecondFirst { rt, watch };
        start_reader(rt, alloc, node, gate, number, sender)?;
    }
    Ok(())
}

/// Closes a node. Returns whether `wanted` frames arrived.
fn closes_with<C: NodeCore<Global> + Drop, R: Threads + Wait>(
    rt: &R,
    node: Node<C>,
    wanted: usize,
) -> bool {
    let Node {
        host,
        ports,
        outlets: _,
        workers,
    } = node;
    match host.close(rt, ports, workers) {
        Ok(closed) => arrivals(&closed.trace) == wanted,
        Err(_) => false,
    }
}

/// Whether both readers of a node make their steps, and the node closes with both frames.
fn reads_in_order<C, R>(rt: R, alloc: Global, watch: &Arc<Watch, Global>) -> Result<bool, HostError>
where
    C: TestedCore<Global> + Drop + Send + 'static,
    R: Threads + Wait + Clock + Abort + Copy + Send + Drop + 'static,
{
    let mut node: Node<C> = start(&rt, alloc, "a", "p q", 0)?;
    start_readers(rt, alloc, &mut node, watch)?;
    let is_read = watch.wait_for_both(&rt);
    Ok(closes_with(&rt, node, 2) && is_read)
}

/// Two readers with one frame each, of which the second one goes first, after the first one was refused. Both frames
/// arrive, and the first reader asks less often than it may.
#[test]
fn gated_readers(rt: HostRuntime) -> Result<(), Fail> {
    let watch = Arc::new(rt.alloc(), Watch::new())?;
    assert!(rt; reads_in_order::<PlumCore, _>(rt, rt.alloc(), &watch)?);
    Ok(())
}

/// Lets no one through.
#[derive(Drop)]
struct Shut<R: Wait + Drop> {
    rt: R,
    watch: Arc<Watch, Global>,
}

impl<R: Wait + Drop> Gate for Shut<R> {
    fn pass(&self, _worker: usize) -> bool {
        let mut reports = self.watch.reports.lock(&self.rt);
        reports.refused = reports.refused.saturating_add(1);
        false
    }

    fn applied(&self, _worker: usize) {}

    fn pause(&self) {}
}

/// Whether a reader that its gate never lets through ends, and the node takes nothing from it.
fn ends_at_the_gate<C, R>(
    rt: R,
    alloc: Global,
    watch: &Arc<Watch, Global>,
) -> Result<bool, HostError>
where
    C: TestedCore<Global> + Drop + Send + 'static,
    R: Threads + Wait + Clock + Abort + Copy + Send + Drop + 'static,
{
    let mut node: Node<C> = start(&rt, alloc, "a", "p", 0)?;
    let watch = Arc::try_clone(watch)?;
    let gate = Shut { rt, watch };
    start_reader(rt, alloc, &mut node, gate, 0, "p")?;
    Ok(closes_with(&rt, node, 0))
}

/// A reader asks a gate a thousand times before one step, and then ends.
#[test]
fn a_shut_gate(rt: HostRuntime) -> Result<(), Fail> {
    let watch = Arc::new(rt.alloc(), Watch::new())?;
    let is_shut = ends_at_the_gate::<PlumCore, _>(rt, rt.alloc(), &watch)?;
    assert!(rt; is_shut && watch.reports(&rt).refused == 1_000);
    Ok(())
}
