//! How nodes without links end.
use crate::tests::node::{Node, TestedCore, close, start};
use bytes::Bytes;
use node_core::PlumCore;
use node_threads::{CloseError, Host, HostError, NodeCore, Port, Receipt};
use std::alloc::{Allocator, Global};
use std::mem;
use std::process::Abort;
use std::sync::Wait;
use std::test::Fail;
use std::thread::Threads;

/// What a node leaves that broadcast once.
pub(crate) const ONE_BROADCAST: &str =
    "a/1 among | broadcast hello; a/1 delivers a/1/1 hello | handed out 0";

/// Broadcasts through a port.
pub(crate) fn broadcast<R: Wait, C: NodeCore<A> + Drop, A: Allocator + Copy>(
    rt: &R,
    alloc: A,
    port: &mut Port<C, A>,
) -> Result<Receipt, HostError> {
    let payload = Bytes::copy_from_slice(alloc, b"hello")?;
    port.broadcast(rt, payload)
}

/// Broadcasts once through each port.
pub(crate) fn broadcast_by_each<R: Wait, C: NodeCore<A> + Drop, A: Allocator + Copy>(
    rt: &R,
    alloc: A,
    ports: &mut [Port<C, A>],
) -> Result<(), HostError> {
    for port in ports {
        let _ = broadcast(rt, alloc, port)?;
    }
    Ok(())
}

/// Broadcasts through a node's ports, stops the node and broadcasts again. Returns whether it refuses that.
fn is_refused_after_stop<R: Wait, C: NodeCore<Global> + Drop>(
    rt: &R,
    alloc: Global,
    node: &mut Node<C>,
) -> Result<bool, HostError> {
    broadcast_by_each(rt, alloc, node.ports.as_mut_slice())?;
    node.host.stop(rt);
    let answer = broadcast_by_each(rt, alloc, node.ports.as_mut_slice());
    Ok(answer == Err(HostError::Closed))
}

/// Whether a node with one port refuses it after the stop. Replaces the text with what the node leaves.
fn end_after_stop<C: TestedCore<Global> + Drop, R: Threads + Wait + Abort>(
    rt: &R,
    alloc: Global,
    text: &mut String,
) -> Result<bool, HostError> {
    let mut node: Node<C> = start(rt, alloc, "a", "", 1)?;
    let is_refused = is_refused_after_stop(rt, alloc, &mut node)?;
    close(rt, text, node)?;
    Ok(is_refused)
}

/// After the stop, a port is refused, and the node closes with what was broadcast before.
#[test]
fn stopped_host(rt: HostRuntime) -> Result<(), Fail> {
    let mut text = String::new(rt.alloc());
    let is_refused = end_after_stop::<PlumCore, _>(&rt, rt.alloc(), &mut text)?;
    assert!(rt; is_refused && text.as_str() == ONE_BROADCAST, "{text}");
    Ok(())
}

/// Whether a node hands out a part that begins at place `first` and has `len` steps.
fn hands_out<R: Wait, C: NodeCore<Global> + Drop>(
    rt: &R,
    host: &Host<C>,
    first: usize,
    len: usize,
) -> Result<bool, HostError> {
    let sealed = host.seal(rt)?;
    Ok(sealed.segment.first == first && sealed.segment.steps.len() == len)
}

/// Whether a node hands out what was broadcast, and nothing more after the stop.
fn hands_out_twice<R: Wait, C: NodeCore<Global> + Drop>(
    rt: &R,
    alloc: Global,
    node: &mut Node<C>,
) -> Result<bool, HostError> {
    broadcast_by_each(rt, alloc, node.ports.as_mut_slice())?;
    let is_first = hands_out(rt, &node.host, 0, 1)?;
    node.host.stop(rt);
    Ok(is_first && hands_out(rt, &node.host, 1, 0)?)
}

/// Whether a node hands out its history in parts. Replaces the text with what it leaves.
fn end_with_all_parts<C: TestedCore<Global> + Drop, R: Threads + Wait + Abort>(
    rt: &R,
    alloc: Global,
    text: &mut String,
) -> Result<bool, HostError> {
    let mut node: Node<C> = start(rt, alloc, "a", "", 1)?;
    let are_handed = hands_out_twice(rt, alloc, &mut node)?;
    close(rt, text, node)?;
    Ok(are_handed)
}

/// A node hands out its history in parts, even after the stop, and closes with all of it.
#[test]
fn parts_of_a_host(rt: HostRuntime) -> Result<(), Fail> {
    let mut text = String::new(rt.alloc());
    let are_handed = end_with_all_parts::<PlumCore, _>(&rt, rt.alloc(), &mut text)?;
    assert!(rt; are_handed && text.as_str() == ONE_BROADCAST, "{text}");
    Ok(())
}

/// Closes a node without its ports. Returns the node, still with its ports, if the close finds them missing.
pub(crate) fn close_without_ports<R: Threads + Wait, C: NodeCore<A> + Drop, A: Allocator + Copy>(
    rt: &R,
    alloc: A,
    node: Node<C, A>,
) -> Option<Node<C, A>> {
    let Node {
        host,
        ports,
        outlets,
        workers,
    } = node;
    match host.close(rt, Vec::new(alloc), workers) {
        Err(CloseError::PortMissing { host, workers, .. }) => Some(Node {
            host,
            ports,
            outlets,
            workers,
        }),
        _other => None,
    }
}

/// Starts node `a`, which has the port of another node, through which a broadcast was made.
pub(crate) fn start_with_other_port<C: TestedCore<A> + Drop, R: Wait + Abort, A: Allocator + Copy>(
    rt: &R,
    alloc: A,
) -> Result<Node<C, A>, HostError> {
    let mut node: Node<C, A> = start(rt, alloc, "a", "", 1)?;
    let mut other: Node<C, A> = start(rt, alloc, "b", "", 1)?;
    broadcast_by_each(rt, alloc, other.ports.as_mut_slice())?;
    mem::swap(&mut node.ports, &mut other.ports);
    Ok(node)
}

/// Closes a node without its port and then with another node's. Returns whether the first close finds the port missing.
/// Replaces the text with the answer to the second one.
fn swap_ports<C: TestedCore<Global> + Drop, R: Threads + Wait + Abort>(
    rt: &R,
    alloc: Global,
    text: &mut String,
) -> Result<bool, HostError> {
    let node: Node<C> = start_with_other_port(rt, alloc)?;
    let Some(node) = close_without_ports(rt, alloc, node) else {
        return Ok(false);
    };
    close(rt, text, node)?;
    Ok(true)
}

/// A host that is closed without its port is handed back, and one that is closed with another host's port finds that
/// the receipts do not match its trace.
#[test]
fn swapped_ports(rt: HostRuntime) -> Result<(), Fail> {
    let mut text = String::new(rt.alloc());
    let is_missing = swap_ports::<PlumCore, _>(&rt, rt.alloc(), &mut text)?;
    assert!(rt;
        is_missing && text.as_str() == "unlike at 0: a/1 among",
        "{text}"
    );
    Ok(())
}
