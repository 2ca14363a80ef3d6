//! Three nodes that are linked to each other.
use crate::tests::inbox::{Inbox, ToInbox};
use crate::tests::node::{Node, TestedCore, keep, start};
use bytes::Bytes;
use frames::Frame;
use memory_links::{PipeDialler, PipeReader, PipeWriter, new_pipe};
use node_core::PlumCore;
use node_threads::{
    Call, Closed, HostError, NodeCore, OpenGate, Port, Ticker, hand_out, read_link, tick,
    write_link,
};
use protocol::{Delivery, StimulusOf, Trace};
use std::alloc::{AllocError, Global};
use std::process::Abort;
use std::sync::{Arc, Wait};
use std::test::Fail;
use std::thread::{JoinHandle, Threads};
use std::time::{Clock, Duration};
use std::{mem, thread};

/// How many times each port broadcasts.
const BROADCASTS: usize = 10;

/// Ticks every millisecond.
#[derive(Drop)]
pub(crate) struct Millisecond<R: Clock + Drop> {
    pub(crate) rt: R,
}

impl<R: Clock + Drop> Ticker for Millisecond<R> {
    fn next(&mut self) -> bool {
        thread::sleep(&self.rt, Duration::from_millis(1));
        true
    }
}

/// A running node, the threads that broadcast through its ports, and what it handed out.
#[derive(Drop)]
struct Member<C: NodeCore<Global> + Drop> {
    node: Node<C>,
    threads: Vec<JoinHandle<Port<C>>>,
    inbox: Arc<Inbox, Global>,
}

/// Starts the worker that ticks and the one that hands out deliveries.
fn start_workers<C, R>(rt: R, member: &mut Member<C>) -> Result<(), HostError>
where
    C: NodeCore<Global> + Drop + Send + 'static,
    R: Threads + Wait + Clock + Copy + Send + Drop + 'static,
{
    let node = &mut member.node;
    let ticker = tick(rt, &node.host, OpenGate, 2, Millisecond { rt }, 1)?;
    keep(&mut node.workers, ticker)?;
    let sink = ToInbox::new(rt, Arc::try_clone(&member.inbox)?);
    let hander = hand_out(rt, &node.host, OpenGate, 3, sink)?;
    keep(&mut node.workers, hander)?;
    Ok(())
}

/// Starts a node with two ports, and its workers that need no link.
fn start_member<C, R>(rt: R, alloc: Global, me: &str, peers: &str) -> Result<Member<C>, HostError>
where
    C: TestedCore<Global> + Drop + Send + 'static,
    R: Threads + Wait + Clock + Abort + Copy + Send + Drop + 'static,
{
    let mut member = Member {
        node: start(&rt, alloc, me, peers, 2)?,
        threads: Vec::new(alloc),
        inbox: Inbox::shared(alloc)?,
    };
    start_workers(rt, &mut member)?;
    Ok(member)
}

/// Starts the worker of a node that reads a pipe.
fn start_reader<C, R>(rt: R, node: &mut Node<C>, reader: PipeReader<R>) -> Result<(), HostError>
where
    C: NodeCore<Global> + Drop + Send + 'static,
    R: Threads + Wait + Clock + Copy + Send + Drop + 'static,
{
    let reader = read_link(rt, &node.host, OpenGate, 0, reader, 1)?;
    keep(&mut node.workers, reader)?;
    Ok(())
}

/// Starts the worker of a node that writes its last outlet that has no worker into a pipe.
fn start_writer<C, R>(rt: R, node: &mut Node<C>, writer: PipeWriter<R>) -> Result<(), HostError>
where
    C: NodeCore<Global> + Drop + Send + 'static,
    R: Threads + Wait + Clock + Copy + Send + Drop + 'static,
{
    if let Some(outlet) = node.outlets.pop() {
        let dialler = PipeDialler::new(writer);
        let writer = write_link(rt, &node.host, OpenGate, 1, outlet, dialler)?;
        keep(&mut node.workers, writer)?;
    }
    Ok(())
}

/// Links one node to another, which is the last of its peers that it is not linked to.
fn link<C, R>(
    rt: R,
    alloc: Global,
    members: &mut [Member<C>],
    from: usize,
    to: usize,
) -> Result<(), HostError>
where
    C: NodeCore<Global> + Drop + Send + 'static,
    R: Threads + Wait + Clock + Copy + Send + Drop + 'static,
{
    let (reader, writer) = new_pipe(rt, alloc)?;
    if let Some(member) = members.get_mut(to) {
        start_reader(rt, &mut member.node, reader)?;
    }
    if let Some(member) = members.get_mut(from) {
        start_writer(rt, &mut member.node, writer)?;
    }
    Ok(())
}

/// Links three nodes to each other.
fn link_all<C, R>(rt: R, alloc: Global, members: &mut [Member<C>]) -> Result<(), HostError>
where
    C: NodeCore<Global> + Drop + Send + 'static,
    R: Threads + Wait + Clock + Copy + Send + Drop + 'static,
{
    for (from, to) in [(0, 2), (0, 1), (1, 2), (1, 0), (2, 1), (2, 0)] {
        link(rt, alloc, members, from, to)?;
    }
    Ok(())
}

/// Starts three nodes, which are not linked yet.
fn start_three<C, R>(rt: R, alloc: Global) -> Result<Vec<Member<C>>, HostError>
where
    C: TestedCore<Global> + Drop + Send + 'static,
    R: Threads + Wait + Clock + Abort + Copy + Send + Drop + 'static,
{
    let mut members = Vec::new(alloc);
    for (me, peers) in [("a", "b c"), ("b", "a c"), ("c", "a b")] {
        keep(&mut members, start_member(rt, alloc, me, peers)?)?;
    }
    Ok(members)
}

/// Broadcasts this byte.
fn broadcast_one<R: Wait, C: NodeCore<Global> + Drop>(
    rt: &R,
    alloc: Global,
    port: &mut Port<C>,
    byte: u8,
) -> Result<(), HostError> {
    let payload = Bytes::copy_from_slice(alloc, &[byte])?;
    port.broadcast(rt, payload)?;
    Ok(())
}

/// Broadcasts ten messages. Returns whether all of them were accepted.
fn broadcast_ten<R: Wait, C: NodeCore<Global> + Drop>(
    rt: &R,
    alloc: Global,
    port: &mut Port<C>,
) -> bool {
    for k in 0..BROADCASTS {
        if broadcast_one(rt, alloc, port, k as u8).is_err() {
            return false;
        }
    }
    true
}

/// Starts a thread that broadcasts ten messages through a port and returns it.
fn start_broadcasts<C, R>(
    rt: R,
    alloc: Global,
    mut port: Port<C>,
) -> Result<JoinHandle<Port<C>>, HostError>
where
    C: NodeCore<Global> + Drop + Send + 'static,
    R: Threads + Wait + Copy + Send + Drop + 'static,
{
    let started = thread::spawn(&rt, move || {
        // If one is refused, the trace has too few broadcasts.
        let _ = broadcast_ten(&rt, alloc, &mut port);
        port
    });
    match started {
        Ok(thread) => Ok(thread),
        Err(_) => Err(HostError::OutOfMemory),
    }
}

/// Starts such a thread for each port of a node.
fn start_all_broadcasts<C, R>(rt: R, alloc: Global, member: &mut Member<C>) -> Result<(), HostError>
where
    C: NodeCore<Global> + Drop + Send + 'static,
    R: Threads + Wait + Copy + Send + Drop + 'static,
{
    for port in mem::replace(&mut member.node.ports, Vec::new(alloc)) {
        keep(&mut member.threads, start_broadcasts(rt, alloc, port)?)?;
    }
    Ok(())
}

/// Waits for the threads of a node, which give its ports back.
fn join_ports<C: NodeCore<Global> + Drop, R: Threads>(
    rt: &R,
    alloc: Global,
    member: &mut Member<C>,
) -> Result<(), AllocError> {
    for thread in mem::replace(&mut member.threads, Vec::new(alloc)) {
        keep(&mut member.node.ports, thread.join(rt))?;
    }
    Ok(())
}

/// Whether the receipt is the one of its payload's broadcast in the trace.
fn is_right(trace: &Trace<Frame>, call: &Call) -> bool {
    let Some(step) = trace.step(call.receipt.place) else {
        return false;
    };
    let StimulusOf::Broadcast(payload) = &step.stimulus else {
        return false;
    };
    let Some(delivery) = step.out.deliveries.as_slice().first() else {
        return false;
    };
    *payload == call.payload && delivery.id == call.receipt.id
}

/// Returns the deliveries of a trace, in order.
fn deliveries(alloc: Global, trace: &Trace<Frame>) -> Result<Vec<&Delivery>, AllocError> {
    let mut all = Vec::new(alloc);
    for place in 0..trace.len() {
        if let Some(step) = trace.step(place) {
            for delivery in step.out.deliveries.as_slice() {
                all.push(delivery)?;
            }
        }
    }
    Ok(all)
}

/// Copies the calls of ports.
fn calls<C: NodeCore<Global> + Drop>(
    alloc: Global,
    ports: &[Port<C>],
) -> Result<Vec<Call>, AllocError> {
    let mut all = Vec::new(alloc);
    for port in ports {
        for call in port.calls() {
            all.push(Call {
                payload: call.payload.clone()?,
                receipt: call.receipt,
            })?;
        }
    }
    Ok(all)
}

/// Returns how many steps of the trace are broadcasts.
fn broadcasts(trace: &Trace<Frame>) -> usize {
    (0..trace.len())
        .filter(|place| match trace.step(*place) {
            Some(step) => matches!(step.stimulus, StimulusOf::Broadcast(_)),
            None => false,
        })
        .count()
}

/// Whether a closed node delivered sixty messages, handed out all of them, and made twenty broadcasts.
fn is_whole<R: Wait>(
    rt: &R,
    alloc: Global,
    closed: &Closed,
    inbox: &Inbox,
) -> Result<bool, AllocError> {
    let given = deliveries(alloc, &closed.trace)?;
    Ok(
        broadcasts(&closed.trace) == 2 * BROADCASTS
            && given.len() == 6 * BROADCASTS
            && closed.handed_out == given.len() as u64
            && inbox.has(rt, given.as_slice()),
    )
}

/// Whether all receipts are the ones of their broadcasts.
fn are_right(trace: &Trace<Frame>, calls: &[Call]) -> bool {
    calls.iter().all(|call| is_right(trace, call))
}

/// Closes a node. Returns whether `is_whole` holds and all receipts are right.
fn closes_whole<C: NodeCore<Global> + Drop, R: Threads + Wait>(
    rt: &R,
    alloc: Global,
    node: Node<C>,
    inbox: &Inbox,
) -> Result<bool, AllocError> {
    let Node {
        host,
        ports,
        outlets: _,
        workers,
    } = node;
    let calls = calls(alloc, ports.as_slice())?;
    match host.close(rt, ports, workers) {
        Ok(closed) => {
            Ok(are_right(&closed.trace, calls.as_slice()) && is_whole(rt, alloc, &closed, inbox)?)
        }
        Err(_) => Ok(false),
    }
}

/// Broadcasts ten messages through each port, all ports at once, and waits until each node has handed out sixty.
/// Returns whether all have.
fn broadcast_all<C, R>(rt: R, alloc: Global, members: &mut [Member<C>]) -> Result<bool, HostError>
where
    C: NodeCore<Global> + Drop + Send + 'static,
    R: Threads + Wait + Clock + Copy + Send + Drop + 'static,
{
    for member in members.iter_mut() {
        start_all_broadcasts(rt, alloc, member)?;
    }
    Ok(
        members
            .iter()
            .all(|member| member.inbox.wait_for(&rt, 6 * BROADCASTS)),
    )
}

/// Stops all nodes.
fn stop_all<C: NodeCore<Global> + Drop, R: Wait>(rt: &R, members: &[Member<C>]) {
    for member in members {
        member.node.host.stop(rt);
    }
}

/// Closes all nodes. Returns whether `closes_whole` holds for each of them.
fn close_all<C: NodeCore<Global> + Drop, R: Threads + Wait>(
    rt: &R,
    alloc: Global,
    members: Vec<Member<C>>,
) -> Result<bool, AllocError> {
    for mut member in members {
        join_ports(rt, alloc, &mut member)?;
        let Member {
            node,
            threads: _,
            inbox,
        } = member;
        if !closes_whole(rt, alloc, node, &inbox)? {
            return Ok(false);
        }
    }
    Ok(true)
}

/// Whether three nodes broadcast and hand out all messages, and all close whole.
fn are_whole<C, R>(rt: R, alloc: Global) -> Result<bool, HostError>
where
    C: TestedCore<Global> + Drop + Send + 'static,
    R: Threads + Wait + Clock + Abort + Copy + Send + Drop + 'static,
{
    let mut members: Vec<Member<C>> = start_three(rt, alloc)?;
    link_all(rt, alloc, members.as_mut_slice())?;
    let are_handed_out = broadcast_all(rt, alloc, members.as_mut_slice())?;
    stop_all(&rt, members.as_slice());
    Ok(close_all(&rt, alloc, members)? && are_handed_out)
}

/// Three nodes broadcast twenty messages each, through two ports at once. Each delivers all sixty, hands them out in
/// the order of its trace, and closes.
#[test]
fn three_hosts(rt: HostRuntime) -> Result<(), Fail> {
    assert!(rt; are_whole::<PlumCore, _>(rt, rt.alloc())?);
    Ok(())
}
