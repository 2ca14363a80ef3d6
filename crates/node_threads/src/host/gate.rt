//! The gate that lets a worker make its next step.

/// What a worker asks before each step that it makes, and tells about each step that it made.
///
/// A test uses it to order the workers, and a program that needs no order uses `OpenGate`. Its methods are called from
/// the workers' threads, and never under the node's lock.
pub trait Gate {
    /// Whether the worker with this number may make its next step now.
    fn pass(&self, worker: usize) -> bool;

    /// Notes that the worker with this number made a step.
    fn applied(&self, worker: usize);

    /// Waits a little, since the gate did not let a worker pass.
    fn pause(&self);
}

/// A gate that lets everyone pass.
#[derive(Clone, Copy, Debug, Drop)]
pub struct OpenGate;

impl Gate for OpenGate {
    fn pass(&self, _worker: usize) -> bool {
        true
    }

    fn applied(&self, _worker: usize) {}

    fn pause(&self) {}
}

/// How many times a worker asks before one step.
const ASKINGS: u32 = 1_000;

/// Asks until the gate lets the worker pass, at most `ASKINGS` times. Returns whether it did.
pub(crate) fn passes<G: Gate>(gate: &G, worker: usize) -> bool {
    gate.pass(worker) || passes_later(gate, worker)
}

/// Goes on asking a gate that did not let the worker pass. Returns whether it did then.
pub(crate) fn passes_later<G: Gate>(gate: &G, worker: usize) -> bool {
    for _ in 1..ASKINGS {
        gate.pause();
        if gate.pass(worker) {
            return true;
        }
    }
    false
}
