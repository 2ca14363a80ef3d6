//! A node with one reader.
use crate::tests::node::{LOOKS, Node, TestedCore, close, keep, start};
use crate::tests::texts::SEED;
use links::TapeReader;
use node_threads::{Gate, HostError, Worker, read_link};
use std::alloc::Global;
use std::process::Abort;
use std::sync::Wait;
use std::thread;
use std::thread::Threads;
use std::time::{Clock, Duration};

/// Waits until all workers have ended. Returns whether they have.
pub(crate) fn wait_for_ends<R: Clock>(rt: &R, workers: &[Worker]) -> bool {
    for _ in 0..LOOKS {
        if workers.iter().all(|worker| worker.has_ended()) {
            return true;
        }
        thread::sleep(rt, Duration::from_millis(5));
    }
    false
}

/// Starts node `a` with the peer `p`, lets it read a stream, waits for the end of its reader, and closes the node.
/// Returns whether the reader ended. Replaces the text with what the node leaves.
pub(crate) fn read<C, R, G>(
    rt: R,
    alloc: Global,
    text: &mut String,
    gate: G,
    stream: TapeReader,
) -> Result<bool, HostError>
where
    C: TestedCore<Global> + Drop + Send + 'static,
    R: Threads + Wait + Clock + Abort + Copy + Send + Drop + 'static,
    G: Gate + Send + Drop + 'static,
{
    let mut node: Node<C> = start(&rt, alloc, "a", "p", 0)?;
    let reader = read_link(rt, &node.host, gate, 0, stream, SEED)?;
    keep(&mut node.workers, reader)?;
    let has_ended = wait_for_ends(&rt, node.workers.as_slice());
    close(&rt, text, node)?;
    Ok(has_ended)
}
