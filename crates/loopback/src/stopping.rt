//! How the nodes of a group are stopped.
use crate::node::Node;
use crate::pace::pause;
use node_threads::NodeCore;
use std::alloc::Global;
use std::net::{Net, TcpListener, TcpStream};
use std::sync::Wait;
use std::thread::Threads;
use std::time::Clock;

/// Stops the hosts of all nodes: they make no more steps.
fn stop_hosts<R: Wait, C: NodeCore<Global> + Drop>(rt: &R, nodes: &[Node<C>]) {
    for node in nodes {
        node.engine.stop(rt);
    }
}

/// Ends the connections of all nodes.
fn close_connections<R: Wait, C: NodeCore<Global> + Drop>(rt: &R, nodes: &mut [Node<C>]) {
    for node in nodes.iter_mut() {
        node.engine.close_connections(rt);
    }
}

/// Dials the ports of all nodes once. Returns whether all threads that take connections will end.
fn knock<R, C>(rt: &R, nodes: &mut [Node<C>]) -> bool
where
    R: Net<Listener = TcpListener, Stream = TcpStream>,
    C: NodeCore<Global> + Drop,
{
    let mut are_ending = true;
    for node in nodes.iter_mut() {
        are_ending &= node.engine.knock(rt);
    }
    are_ending
}

/// Dials the ports of all nodes until all threads that take connections will end.
fn knock_on<R, C>(rt: &R, nodes: &mut [Node<C>])
where
    R: Wait + Clock + Net<Listener = TcpListener, Stream = TcpStream>,
    C: NodeCore<Global> + Drop,
{
    for _ in rt.forever() {
        if knock(rt, nodes) {
            return;
        }
        pause(rt);
    }
}

/// Waits for the threads that take connections.
fn join_acceptors<R: Threads, C: NodeCore<Global> + Drop>(rt: &R, nodes: &mut [Node<C>]) {
    for node in nodes.iter_mut() {
        node.engine.join_acceptor(rt);
    }
}

/// Stops all nodes: they make no more steps, their connections end, and they take no others. Dialling their ports takes
/// a descriptor. If no other is left, it is that of the spare listener.
pub(crate) fn stop_all<R, C>(rt: &R, nodes: &mut [Node<C>], spare: Option<TcpListener>)
where
    R: Threads + Wait + Clock + Net<Listener = TcpListener, Stream = TcpStream>,
    C: NodeCore<Global> + Drop,
{
    stop_hosts(rt, nodes);
    close_connections(rt, nodes);
    drop(spare);
    knock_on(rt, nodes);
    join_acceptors(rt, nodes);
}
