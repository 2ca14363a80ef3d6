//! The worker that hands deliveries to the application.
use crate::cores::NodeCore;
use crate::error::HostError;
use crate::host::Host;
use crate::host::gate::Gate;
use crate::host::stepper::Stepper;
use crate::host::worker::{Worker, start};
use protocol::Delivery;
use std::alloc::Allocator;
use std::sync::Wait;
use std::thread::Threads;

/// Where a node's deliveries go, in batches of type `B`.
///
/// The parameter is not the batch's allocator: an impl of a trait that takes a value over an allocator by value is not
/// covered.
pub trait Handed<B> {
    /// Takes a batch, which is not empty.
    fn take(&mut self, batch: B);
}

/// Hands out batches until the node is stopped and nothing is left.
fn hand_batches<R, C, A, G, S>(rt: &R, steps: &Stepper<C, A, G>, mut sink: S)
where
    R: Wait,
    C: NodeCore<A> + Drop,
    A: Allocator + Copy,
    G: Gate + Drop,
    S: Handed<Vec<Delivery<A>, A>> + Drop,
{
    for _ in rt.forever() {
        match steps.shared.wait_for_deliveries(rt) {
            Some(batch) => sink.take(batch),
            None => return,
        }
    }
}

/// Starts the worker that hands deliveries to the application, each once and in order, in batches of all that wait.
///
/// It makes no step, so it never asks the gate. It ends when the node is stopped and no delivery waits any more.
/// `Closed`: the node was stopped. `OutOfMemory`: an allocation is refused, or no thread can be made.
pub fn hand_out<R, C, A, G, S>(
    rt: R,
    host: &Host<C, A>,
    gate: G,
    number: usize,
    sink: S,
) -> Result<Worker<A>, HostError>
where
    R: Threads + Wait + Copy + Send + 'static,
    C: NodeCore<A> + Drop + Send + 'static,
    A: Allocator + Copy + Send + Sync + 'static,
    G: Gate + Drop + Send + 'static,
    S: Handed<Vec<Delivery<A>, A>> + Drop + Send + 'static,
{
    let steps = host.stepper(gate, number)?;
    let alloc = steps.shared.alloc;
    let worker = start(&rt, alloc, move || {
        hand_batches(&rt, &steps, sink);
    })?;
    Ok(host.employ(worker))
}
