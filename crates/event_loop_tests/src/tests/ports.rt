//! Threads that use the nodes of a loop.
use crate::tests::stage::{Stage, zeros};
use crate::tests::tested_node::TestedNode;
use anyhow::Result;
use bytes::Bytes;
use loop_ports::{Port, PortFault, Ports};
use protocol::MAX_PAYLOAD;
use std::alloc::Global;
use std::net::Net;
use std::sync::Wait;
use std::thread;
use std::thread::{JoinHandle, Threads};
use std::time::{Clock, Duration};
use wire_node::MAX_WAITING;

/// How many messages are broadcast.
const MESSAGES: usize = 2_000;

/// How many messages a ring has room for.
const ROOM: usize = 16;

/// How often a thread looks for room or messages before it gives up, with a millisecond between two looks.
const LOOKS: usize = 60_000;

/// What a thread does with its port.
#[derive(Clone, Copy)]
struct Task {
    /// How many milliseconds it waits before it begins.
    delay: u64,
    /// How many messages it broadcasts.
    says: usize,
    /// How many messages it takes before it ends.
    hears: usize,
}

/// Takes what is delivered. Returns how many messages that were.
fn take_all(port: &mut Port) -> usize {
    for count in 0..MESSAGES {
        if port.next().is_none() {
            return count;
        }
    }
    MESSAGES
}

/// Hands in a message of so many zeros. Returns why it is not taken, if so.
fn hand_in_one(alloc: Global, port: &mut Port, len: usize) -> Result<Option<PortFault>> {
    let payload: Bytes = zeros(alloc, len)?;
    Ok(match port.broadcast(payload) {
        Ok(()) => None,
        Err(error) => Some(error.fault),
    })
}

/// Hands in messages until one is not taken, and at most so many. Returns how many were.
fn hand_in(alloc: Global, port: &mut Port, most: usize) -> Result<usize> {
    for count in 0..most {
        if hand_in_one(alloc, port, 5)?.is_some() {
            return Ok(count);
        }
    }
    Ok(most)
}

/// Broadcasts and takes messages until the task is done. Returns how many messages it took.
fn work<R: Clock>(rt: &R, alloc: Global, port: &mut Port, task: Task) -> Result<usize> {
    thread::sleep(rt, Duration::from_millis(task.delay));
    let mut given: usize = 0;
    let mut taken: usize = 0;
    for _ in 0..LOOKS {
        given = given.saturating_add(hand_in(alloc, port, task.says.saturating_sub(given))?);
        taken = taken.saturating_add(take_all(port));
        if taken >= task.hears {
            return Ok(taken);
        }
        thread::sleep(rt, Duration::from_millis(1));
    }
    Ok(taken)
}

/// Does a task with a port, and then drops it. Returns how many messages it took.
fn use_port<R: Clock>(rt: &R, alloc: Global, mut port: Port, task: Task) -> Option<usize> {
    work(rt, alloc, &mut port, task).ok()
}

/// Has a thread use a port.
fn start_thread<R>(
    rt: R,
    alloc: Global,
    port: Port,
    task: Task,
) -> Result<JoinHandle<Option<usize>>>
where
    R: Threads + Clock + Copy + Send + Drop + 'static,
{
    Ok(thread::spawn(&rt, move || { use_port(&rt, alloc, port, task) })?)
}

/// Adds two nodes that are peers.
fn add_two<N: TestedNode, R: Net>(rt: &R, stage: &mut Stage<N>) -> Result<()> {
    stage.add(rt, "a", "b", MAX_WAITING)?;
    stage.add(rt, "b", "a", MAX_WAITING)
}

/// Opens the ports of two nodes, and has a thread use each. Runs the loop until both have dropped their ports. Returns
/// whether each took the messages that it was to take, and no more.
fn exchange<N, R>(rt: R, stage: &mut Stage<N>, ports: &mut Ports, tasks: &[Task; 2]) -> Result<bool>
where
    N: TestedNode,
    R: Threads + Wait + Clock + Net + AllocGlobal + Copy + Send + Drop + 'static,
{
    let one = ports.open(&stage.event_loop, 0, ROOM)?;
    let first = start_thread(rt, rt.alloc(), one, tasks[0])?;
    let two = ports.open(&stage.event_loop, 1, ROOM)?;
    let second = start_thread(rt, rt.alloc(), two, tasks[1])?;
    stage.event_loop.run(&rt, Duration::from_millis(10), ports)?;
    let took = [first.join(&rt), second.join(&rt)];
    Ok(took == [Some(tasks[0].hears), Some(tasks[1].hears)])
}

/// Starts two nodes, and has threads use them.
fn start_with<N, R>(rt: R, tasks: &[Task; 2]) -> Result<bool>
where
    N: TestedNode,
    R: Threads + Wait + Clock + Net + AllocGlobal + Copy + Send + Drop + 'static,
{
    let mut stage: Stage<N> = Stage::new(&rt)?;
    add_two(&rt, &mut stage)?;
    let mut ports = Ports::new(rt.alloc());
    exchange(rt, &mut stage, &mut ports, tasks)
}

/// Has one thread broadcast by the port of a node, and another take all messages by that of its peer. Both rings have
/// room for few of the messages, and the second thread begins to take them late: its node is held. Returns whether both
/// take each message once.
pub(crate) fn start_and_exchange<N, R>(rt: R) -> Result<bool>
where
    N: TestedNode,
    R: Threads + Wait + Clock + Net + AllocGlobal + Copy + Send + Drop + 'static,
{
    let speaker = Task {
        delay: 0,
        says: MESSAGES,
        hears: MESSAGES,
    };
    let hearer = Task {
        delay: 100,
        says: 0,
        hears: MESSAGES,
    };
    start_with::<N, R>(rt, &[speaker, hearer])
}

/// Fills the ring of a port. Returns whether it takes as many messages as it has room for, and then says that it is
/// full, or, of a message that is too long, that.
fn fill(alloc: Global, port: &mut Port) -> Result<bool> {
    let is_long = hand_in_one(alloc, port, MAX_PAYLOAD + 1)? == Some(PortFault::TooLong);
    let count = hand_in(alloc, port, MESSAGES)?;
    let is_full = hand_in_one(alloc, port, 0)? == Some(PortFault::Full);
    Ok(is_long && count == ROOM && is_full && !port.has_ended())
}

/// Opens the port of a node, fills its ring, and drops the loop's ends of all ports. Returns whether the port says that
/// it is full, and then that the loop takes nothing more.
fn fill_and_end<N: TestedNode>(alloc: Global, stage: &mut Stage<N>) -> Result<bool> {
    let mut ports = Ports::new(alloc);
    let mut port = ports.open(&stage.event_loop, 0, ROOM)?;
    let is_filled = fill(alloc, &mut port)?;
    drop(ports);
    let is_over = hand_in_one(alloc, &mut port, 0)? == Some(PortFault::Ended);
    Ok(is_filled && is_over && port.has_ended())
}

/// Starts two nodes, and fills and ends the port of one. Returns whether it says why it takes nothing.
pub(crate) fn start_and_fill<N: TestedNode, R: Net + AllocGlobal>(rt: &R) -> Result<bool> {
    let mut stage: Stage<N> = Stage::new(rt)?;
    add_two(rt, &mut stage)?;
    fill_and_end(rt.alloc(), &mut stage)
}
