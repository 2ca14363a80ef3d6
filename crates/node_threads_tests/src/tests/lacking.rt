//! Workers for which memory runs out.
use crate::tests::ends::broadcast_by_each;
use crate::tests::node::{Node, TestedCore, close, keep, start};
use crate::tests::readers::wait_for_ends;
use links::{LinkEnd, TapeWriter};
use node_core::PlumCore;
use node_threads::{Dialler, HostError, NodeCore, OpenGate, write_link};
use std::alloc::Global;
use std::process::Abort;
use std::sync::Wait;
use std::test::Fail;
use std::thread::Threads;
use std::time::Clock;

/// Fails to make a connection, for this reason.
#[derive(Drop)]
struct NoConnection {
    why: LinkEnd,
}

impl Dialler for NoConnection {
    type Writer = TapeWriter;

    fn dial(&mut self) -> Result<TapeWriter, LinkEnd> {
        Err(self.why)
    }
}

/// Starts a writer of a node's link whose connection can't be made for this reason.
fn start_writer<C, R>(rt: R, node: &mut Node<C>, why: LinkEnd) -> Result<(), HostError>
where
    C: NodeCore<Global> + Drop + Send + 'static,
    R: Threads + Wait + Copy + Send + Drop + 'static,
{
    if let Some(outlet) = node.outlets.pop() {
        let writer = write_link(rt, &node.host, OpenGate, 0, outlet, NoConnection { why })?;
        keep(&mut node.workers, writer)?;
    }
    Ok(())
}

/// Lets a node broadcast over a link whose connection can't be made for this reason, and closes it once its writer has
/// ended. Returns whether the node reports that a worker ran out of memory from then on, if that is `wanted`, and never
/// otherwise. Replaces the text with what it leaves.
fn tells<C, R>(
    rt: R,
    alloc: Global,
    text: &mut String,
    why: LinkEnd,
    wanted: bool,
) -> Result<bool, HostError>
where
    C: TestedCore<Global> + Drop + Send + 'static,
    R: Threads + Wait + Clock + Abort + Copy + Send + Drop + 'static,
{
    let mut node: Node<C> = start(&rt, alloc, "a", "p", 1)?;
    broadcast_by_each(&rt, alloc, node.ports.as_mut_slice())?;
    let is_early = node.host.lacks_memory();
    start_writer(rt, &mut node, why)?;
    node.host.stop(&rt);
    let has_ended = wait_for_ends(&rt, node.workers.as_slice());
    let is_told = node.host.lacks_memory();
    close(&rt, text, node)?;
    Ok(has_ended && !is_early && is_told == wanted)
}

/// A host reports a writer that can't have a connection because memory ran out, and does not report one that can't have
/// it for another reason. Either way it closes.
#[test]
fn lack_of_memory_is_told(rt: HostRuntime) -> Result<(), Fail> {
    let mut text = String::new(rt.alloc());
    let fault = LinkEnd::WriteFault { bytes: 0 };
    for (why, wanted) in [(LinkEnd::OutOfMemory, true), (fault, false)] {
        let is_so = tells::<PlumCore, _>(rt, rt.alloc(), &mut text, why, wanted)?;
        assert!(rt;
            is_so && text.starts_with("a/1 among p | broadcast hello"),
            "{text}"
        );
    }
    Ok(())
}
