//! A running node, with four links each way.
use crate::clock::micros_since;
use crate::names::{LENGTH, origin_named, payload};
use crate::plumtree::{MeasuredNode, Started};
use crate::running_node::draining::{Counting, drain};
use crate::running_node::messages::{PEERS, Sent, bytes_out};
use crate::running_node::tally::Tally;
use crate::running_node::writing::{requests, streams};
use anyhow::{Result, bail};
use bytes::Bytes;
use memory_links::{PipeDialler, PipeReader, PipeWriter, new_pipe};
use node_names::NodeName;
use node_threads::{
    Host, NodeCore, OpenGate, Outlet, Port, Worker, hand_out, read_link, write_link,
};
use std::alloc::Global;
use std::sync::{Arc, Wait};
use std::thread;
use std::thread::{JoinHandle, Threads};
use std::time::{Clock, Instant};

/// A node, its workers, what it delivered and how many bytes went out.
#[derive(Drop)]
struct Running<C: NodeCore<Global> + Drop> {
    host: Host<C>,
    ports: Vec<Port<C>>,
    workers: Vec<Worker>,
    drains: Vec<JoinHandle<()>>,
    delivered: Arc<Tally, Global>,
    written: Arc<Tally, Global>,
}

/// The names of the node's peers.
fn names(alloc: Global) -> Result<Vec<NodeName>> {
    let mut names = Vec::new(alloc);
    for peer in PEERS {
        names.push(origin_named(peer)?.name)?;
    }
    Ok(names)
}

/// Starts the thread that drains a link.
fn start_drain<R: Threads + Wait + Copy + Send + Drop + 'static>(
    rt: R,
    reader: PipeReader<R>,
    written: &Arc<Tally, Global>,
) -> Result<JoinHandle<()>> {
    let written = Arc::try_clone(written)?;
    Ok(thread::spawn(&rt, move || drain(&rt, reader, &written))?)
}

impl<C: NodeCore<Global> + Drop + Send + 'static> Running<C> {
    /// A node whose frames nobody takes yet.
    fn new(alloc: Global, host: Host<C>, ports: Vec<Port<C>>) -> Result<Running<C>> {
        Ok(Running {
            host,
            ports,
            workers: Vec::new(alloc),
            drains: Vec::new(alloc),
            delivered: Arc::new(alloc, Tally::new())?,
            written: Arc::new(alloc, Tally::new())?,
        })
    }

    /// Lets the node write to a pipe.
    fn write<R: Threads + Wait + Copy + Send + Drop + 'static>(
        &mut self,
        rt: R,
        outlet: Outlet,
        writer: PipeWriter<R>,
    ) -> Result<()> {
        let dialler = PipeDialler::new(writer);
        let worker = write_link(rt, &self.host, OpenGate, 0, outlet, dialler)?;
        self.workers.push(worker)?;
        Ok(())
    }

    /// Has a link's frames written to a pipe and drained.
    fn open<R: Threads + Wait + Copy + Send + Drop + 'static>(
        &mut self,
        rt: R,
        alloc: Global,
        outlet: Outlet,
    ) -> Result<()> {
        let (reader, writer) = new_pipe(rt, alloc)?;
        self.write(rt, outlet, writer)?;
        let drain = start_drain(rt, reader, &self.written)?;
        self.drains.push(drain)?;
        Ok(())
    }

    /// Has the frames of all links drained.
    fn open_all<R: Threads + Wait + Copy + Send + Drop + 'static>(
        &mut self,
        rt: R,
        alloc: Global,
        outlets: Vec<Outlet>,
    ) -> Result<()> {
        for outlet in outlets {
            self.open(rt, alloc, outlet)?;
        }
        Ok(())
    }

    /// Has deliveries counted.
    fn count<R: Threads + Wait + Copy + Send + Drop + 'static>(&mut self, rt: R) -> Result<()> {
        let tally = Arc::try_clone(&self.delivered)?;
        let worker = hand_out(rt, &self.host, OpenGate, 0, Counting { rt, tally })?;
        self.workers.push(worker)?;
        Ok(())
    }

    /// Lets the node read a stream.
    fn read<R: Threads + Wait + Copy + Send + Drop + 'static>(
        &mut self,
        rt: R,
        reader: PipeReader<R>,
    ) -> Result<()> {
        let seed = self.workers.len() as u64;
        let worker = read_link(rt, &self.host, OpenGate, 0, reader, seed)?;
        self.workers.push(worker)?;
        Ok(())
    }

    /// Lets the node broadcast `count` messages.
    fn broadcast<R: Wait>(&mut self, rt: &R, payload: &Bytes, count: u64) -> Result<()> {
        for port in self.ports.iter_mut() {
            broadcast(rt, port, payload, count)?;
        }
        Ok(())
    }

    /// Lets the node take its peers, and then broadcast `held` messages. The stream of the peers' requests stays open.
    fn prepare<R: Threads + Wait + Copy + Send + Drop + 'static>(
        &mut self,
        rt: R,
        alloc: Global,
        open: &mut Vec<PipeWriter<R>>,
        payload: &Bytes,
        held: u64,
    ) -> Result<()> {
        self.read(rt, requests(rt, alloc, open)?)?;
        self.written.wait_for(&rt, bytes_out(alloc, payload, 0, 0)?);
        self.broadcast(&rt, payload, held)?;
        self.written
            .wait_for(&rt, bytes_out(alloc, payload, held, 0)?);
        Ok(())
    }

    /// Lets the node read streams.
    fn read_all<R: Threads + Wait + Copy + Send + Drop + 'static>(
        &mut self,
        rt: R,
        readers: Vec<PipeReader<R>>,
    ) -> Result<()> {
        for reader in readers {
            self.read(rt, reader)?;
        }
        Ok(())
    }

    /// Lets the node read streams, and waits until it has delivered `delivered` messages and written `written` bytes.
    /// Returns how many microseconds that took.
    fn pass<R: Clock + Threads + Wait + Copy + Send + Drop + 'static>(
        &mut self,
        rt: R,
        readers: Vec<PipeReader<R>>,
        delivered: u64,
        written: u64,
    ) -> Result<u64> {
        let start = Instant::now(&rt)?;
        self.read_all(rt, readers)?;
        self.delivered.wait_for(&rt, delivered);
        self.written.wait_for(&rt, written);
        micros_since(&rt, start)
    }

    /// Closes the node.
    fn close<R: Threads + Wait>(self, rt: &R) -> Result<()> {
        let Running {
            host,
            ports,
            workers,
            drains,
            ..
        } = self;
        if !is_ok(host.close(rt, ports, workers)) {
            bail!("the node was not closed");
        }
        join_all(rt, drains);
        Ok(())
    }
}

/// Whether an answer is not an error. Here, where its types are generic, dropping it takes the prover next to nothing.
fn is_ok<T: Drop, E: Drop>(answer: Result<T, E>) -> bool {
    answer.is_ok()
}

/// Waits until all links are drained.
fn join_all<R: Threads>(rt: &R, drains: Vec<JoinHandle<()>>) {
    for drain in drains {
        drain.join(rt);
    }
}

/// Broadcasts `count` messages by a port.
fn broadcast<R: Wait, C: NodeCore<Global> + Drop>(
    rt: &R,
    port: &mut Port<C>,
    payload: &Bytes,
    count: u64,
) -> Result<()> {
    for _ in 0..count {
        port.broadcast(rt, payload.clone()?)?;
    }
    Ok(())
}

/// Lets a node read `count` messages of its peers, which it delivers and passes on, after it has broadcast `held`
/// others. Returns how many frames came in, and how many microseconds it took.
fn pass_on<R, C>(
    rt: R,
    alloc: Global,
    node: &mut Running<C>,
    open: &mut Vec<PipeWriter<R>>,
    count: u64,
    held: u64,
) -> Result<Sent>
where
    R: Clock + Threads + Wait + Copy + Send + Drop + 'static,
    C: NodeCore<Global> + Drop + Send + 'static,
{
    let payload = payload(alloc, LENGTH)?;
    node.prepare(rt, alloc, open, &payload, held)?;
    let readers = streams(rt, alloc, open, &payload, count / 4)?;
    let frames_in = (count / 4).saturating_mul(4);
    let written = bytes_out(alloc, &payload, held, frames_in)?;
    let micros = node.pass(rt, readers, held.saturating_add(frames_in), written)?;
    Ok(Sent {
        frames_in,
        frames_out: frames_in.saturating_mul(3),
        micros,
    })
}

/// Runs a node that has started.
///
/// When a stream ends, the node takes the peer that wrote to it last to be down. So all stay open until the node is
/// stopped.
fn run_started<R, C>(
    rt: R,
    alloc: Global,
    started: Started<C>,
    count: u64,
    held: u64,
) -> Result<Sent>
where
    R: Clock + Threads + Wait + Copy + Send + Drop + 'static,
    C: NodeCore<Global> + Drop + Send + 'static,
{
    let (host, ports, outlets) = started;
    let mut node = Running::new(alloc, host, ports)?;
    node.open_all(rt, alloc, outlets)?;
    node.count(rt)?;
    let mut open = Vec::new(alloc);
    let sent = pass_on(rt, alloc, &mut node, &mut open, count, held)?;
    node.host.stop(&rt);
    drop(open);
    node.close(&rt)?;
    Ok(sent)
}

/// Lets a node read `count` messages of its peers, which it delivers and passes on, after it has broadcast `held`
/// others.
pub(crate) fn run<R, C>(rt: R, alloc: Global, count: u64, held: u64) -> Result<Sent>
where
    R: Clock + Threads + Wait + Copy + Send + Drop + 'static,
    C: MeasuredNode,
{
    let started = C::start_host(alloc, names(alloc)?.as_slice())?;
    run_started(rt, alloc, started, count, held)
}
