//! Links whose first connection fails: the core is told that the link is down, and the next link stays empty.
use crate::tests::ends::broadcast_by_each;
use crate::tests::node::{Node, TestedCore, close, keep, start};
use crate::tests::tally::{Counting, Tally};
use links::{LinkEnd, TapeWriter};
use node_core::PlumCore;
use node_threads::{Dialler, HostError, NodeCore, write_link};
use std::alloc::Global;
use std::process::Abort;
use std::sync::{Arc, Wait};
use std::test::Fail;
use std::thread::Threads;
use std::time::Clock;

/// What fails in the first connection of a link.
#[derive(Clone, Copy, Debug)]
enum Fault {
    /// It can't be made.
    Dial,
    /// The write with this number, counted from 0. Each write takes at most ten bytes.
    Write(usize),
    /// The first write takes no byte.
    Full,
}

/// What a node leaves if its frame came out of the first link.
const TAKEN: &str =
    "a/1 among p | broadcast hello; a/1 delivers a/1/1 hello; to p a/1#1 GOSSIP a/1/1 0 hello | down p | handed out 0; 1 to p from 0; 0 to p from 2";

/// What it leaves if the frame did not.
const NOT_TAKEN: &str =
    "a/1 among p | broadcast hello; a/1 delivers a/1/1 hello; to p a/1#1 GOSSIP a/1/1 0 hello | down p | handed out 0; 0 to p from 0; 0 to p from 2";

impl Fault {
    /// Returns what a node leaves that meets the fault.
    fn left(&self) -> &'static str {
        match self {
            Fault::Dial => NOT_TAKEN,
            _ => TAKEN,
        }
    }
}

/// Makes one connection with a fault, and then connections without one.
#[derive(Drop)]
struct FaultyDialler {
    alloc: Global,
    fault: Option<Fault>,
}

impl Dialler for FaultyDialler {
    type Writer = TapeWriter;

    fn dial(&mut self) -> Result<TapeWriter, LinkEnd> {
        match self.fault.take() {
            Some(Fault::Dial) => Err(LinkEnd::WriteFault { bytes: 0 }),
            Some(Fault::Write(number)) => Ok(TapeWriter::new(self.alloc, 10, Some(number))),
            Some(Fault::Full) => Ok(TapeWriter::new(self.alloc, 0, None)),
            None => Ok(TapeWriter::new(self.alloc, 10, None)),
        }
    }
}

/// Starts a writer of a node's link whose first connection has a fault, and broadcasts once.
fn start_writer<C, R>(
    rt: R,
    alloc: Global,
    node: &mut Node<C>,
    tally: &Arc<Tally, Global>,
    fault: Fault,
) -> Result<(), HostError>
where
    C: NodeCore<Global> + Drop + Send + 'static,
    R: Threads + Wait + Copy + Send + Drop + 'static,
{
    if let Some(outlet) = node.outlets.pop() {
        let fault = Some(fault);
        let dialler = FaultyDialler { alloc, fault };
        let gate = Counting::new(tally)?;
        let writer = write_link(rt, &node.host, gate, 0, outlet, dialler)?;
        keep(&mut node.workers, writer)?;
    }
    broadcast_by_each(&rt, alloc, node.ports.as_mut_slice())
}

/// Lets a node broadcast over a link whose first connection has a fault, and closes it after a step of the writer.
/// Returns whether the step came. Replaces the text with what the node leaves.
fn meet<C, R>(rt: R, alloc: Global, text: &mut String, fault: Fault) -> Result<bool, HostError>
where
    C: TestedCore<Global> + Drop + Send + 'static,
    R: Threads + Wait + Clock + Abort + Copy + Send + Drop + 'static,
{
    let tally = Tally::shared(alloc)?;
    let mut node: Node<C> = start(&rt, alloc, "a", "p", 1)?;
    start_writer(rt, alloc, &mut node, &tally, fault)?;
    let is_met = tally.wait_for_one(&rt);
    close(&rt, text, node)?;
    Ok(is_met)
}

/// A node broadcasts, and the connection of its link fails. Its trace is the broadcast and a Down of the peer. At most
/// one frame came out of the first link, and none out of the next one. The frame has 55 bytes, which take six writes.
#[test]
fn failing_writers(rt: HostRuntime) -> Result<(), Fail> {
    let mut text = String::new(rt.alloc());
    for fault in [
        Fault::Dial,
        Fault::Write(0),
        Fault::Write(1),
        Fault::Write(5),
        Fault::Full,
    ] {
        let is_met = meet::<PlumCore, _>(rt, rt.alloc(), &mut text, fault)?;
        assert!(rt;
            is_met && text.as_str() == fault.left(),
            "{fault:?}: {text}"
        );
    }
    Ok(())
}
