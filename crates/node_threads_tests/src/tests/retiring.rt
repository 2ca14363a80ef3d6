//! Writers that end before their node does.
use crate::tests::ends::broadcast_by_each;
use crate::tests::node::{Node, TestedCore, close, keep, start};
use crate::tests::readers::wait_for_ends;
use links::{LinkEnd, TapeWriter};
use node_core::PlumCore;
use node_threads::{Dialler, HostError, NodeCore, OpenGate, Outlet, write_link};
use std::alloc::{AllocError, Global};
use std::process::Abort;
use std::sync::Wait;
use std::test::Fail;
use std::thread::Threads;
use std::time::Clock;

/// What a node leaves that broadcast twice, if both frames came out of its link.
const LEFT: &str =
    "a/1 among p | broadcast hello; a/1 delivers a/1/1 hello; to p a/1#1 GOSSIP a/1/1 0 hello | broadcast hello; a/1 delivers a/1/2 hello; to p a/1#2 GOSSIP a/1/2 0 hello | handed out 0; 2 to p from 0";

/// Makes connections that take everything.
#[derive(Drop)]
pub(crate) struct Tapes {
    pub(crate) alloc: Global,
}

impl Dialler for Tapes {
    type Writer = TapeWriter;

    fn dial(&mut self) -> Result<TapeWriter, LinkEnd> {
        Ok(TapeWriter::new(self.alloc, 100, None))
    }
}

/// Broadcasts once, lets a writer write an outlet, retires the writer, and takes the outlet back once it has ended.
fn write_once<C, R>(
    rt: R,
    alloc: Global,
    node: &mut Node<C>,
    outlet: Outlet,
) -> Result<(), HostError>
where
    C: NodeCore<Global> + Drop + Send + 'static,
    R: Threads + Wait + Clock + Copy + Send + Drop + 'static,
{
    let peer = outlet.peer();
    let writer = write_link(rt, &node.host, OpenGate, 0, outlet, Tapes { alloc })?;
    keep(&mut node.workers, writer)?;
    broadcast_by_each(&rt, alloc, node.ports.as_mut_slice())?;
    node.host.retire(&rt, &peer);
    let _ = wait_for_ends(&rt, node.workers.as_slice());
    node.host
        .join_ended(&rt, &mut node.workers, &mut node.outlets)
}

/// Writes a node's outlet twice.
fn write_twice<C, R>(rt: R, alloc: Global, node: &mut Node<C>) -> Result<(), HostError>
where
    C: NodeCore<Global> + Drop + Send + 'static,
    R: Threads + Wait + Clock + Copy + Send + Drop + 'static,
{
    for _ in 0..2 {
        if let Some(outlet) = node.outlets.pop() {
            write_once(rt, alloc, node, outlet)?;
        }
    }
    Ok(())
}

/// Brings a node's outlet to the close.
fn rest<C: NodeCore<Global> + Drop>(node: &mut Node<C>) -> Result<(), AllocError> {
    match node.outlets.pop() {
        Some(outlet) => keep(&mut node.workers, node.host.rest(outlet)),
        None => Ok(()),
    }
}

/// Retires a node's writer twice, and closes the node. Replaces the text with what the node leaves.
fn retire<C, R>(rt: R, alloc: Global, text: &mut String) -> Result<(), HostError>
where
    C: TestedCore<Global> + Drop + Send + 'static,
    R: Threads + Wait + Clock + Abort + Copy + Send + Drop + 'static,
{
    let mut node: Node<C> = start(&rt, alloc, "a", "p", 1)?;
    write_twice(rt, alloc, &mut node)?;
    rest(&mut node)?;
    close(&rt, text, node)?;
    Ok(())
}

/// A node broadcasts, and its writer retires once the frame is written; then the same happens again with a new writer
/// for the same outlet. The close is given the outlet without a thread, and reports both frames.
#[test]
fn a_writer_retires(rt: HostRuntime) -> Result<(), Fail> {
    let mut text = String::new(rt.alloc());
    retire::<PlumCore, _>(rt, rt.alloc(), &mut text)?;
    assert!(rt; text.as_str() == LEFT, "{text}");
    Ok(())
}
