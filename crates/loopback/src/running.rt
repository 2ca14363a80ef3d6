//! A node's host, and the workers that it employs.
ghost use Rattle.std.specs.Prelude.{IfOk};
ghost use Rattle.node_threads.specs.Closing.{IsLeft};

use crate::link_writer::LinkDialler;
use crate::list::keep;
use crate::past::Past;
use crate::shortage::Shortage;
use crate::stop_error::StopError;
use crate::ticks::Ticks;
use links::{TcpCloser, TcpReader};
use node_threads::{
    CloseError, Closed, Handed, Host, HostError, NodeCore, OpenGate, Outlet, Port, Worker,
    hand_out, read_link, tick, write_link,
};
use protocol::Delivery;
use std::alloc::{AllocError, Global};
use std::net::{Net, TcpListener, TcpStream};
use std::sync::Wait;
use std::thread::Threads;
use std::time::Clock;

/// A node's host, and the workers that it employs.
#[derive(Drop)]
pub(crate) struct Running<C: NodeCore<Global> + Drop> {
    pub(crate) host: Host<C>,
    workers: Vec<Worker>,
    /// What ends the connections that are read.
    closers: Vec<TcpCloser>,
}

/// Appends a worker that was started. A host that was stopped needs none.
fn employ(workers: &mut Vec<Worker>, started: Result<Worker, HostError>) -> Result<(), Shortage> {
    match started {
        Ok(worker) => Ok(keep(workers, worker)?),
        Err(HostError::Closed) => Ok(()),
        Err(_) => Err(Shortage::Threads),
    }
}

impl<C: NodeCore<Global> + Drop + Send + 'static> Running<C> {
    /// Starts the worker that hands deliveries out.
    pub(crate) fn start_handing<R, S>(&mut self, rt: R, sink: S) -> Result<(), Shortage>
    where
        R: Threads + Wait + Copy + Send + Drop + 'static,
        S: Handed<Vec<Delivery>> + Drop + Send + 'static,
    {
        self.workers.reserve(1)?;
        employ(
            &mut self.workers,
            hand_out(rt, &self.host, OpenGate, 0, sink),
        )
    }

    /// Starts the worker that keeps the time.
    pub(crate) fn start_ticking<R>(
        &mut self,
        rt: R,
        ticker: Ticks<R>,
        seed: u64,
    ) -> Result<(), Shortage>
    where
        R: Threads + Wait + Clock + Copy + Send + Drop + 'static,
    {
        self.workers.reserve(1)?;
        employ(
            &mut self.workers,
            tick(rt, &self.host, OpenGate, 0, ticker, seed),
        )
    }

    /// Starts a reader of a connection.
    pub(crate) fn read<R>(&mut self, rt: R, reader: TcpReader, seed: u64) -> Result<(), Shortage>
    where
        R: Threads + Wait + Copy + Send + Drop + 'static,
    {
        self.workers.reserve(1)?;
        keep(&mut self.closers, reader.closer()?)?;
        employ(
            &mut self.workers,
            read_link(rt, &self.host, OpenGate, 0, reader, seed),
        )
    }

    /// Starts the writer of a link.
    pub(crate) fn write<R>(
        &mut self,
        rt: R,
        outlet: Outlet,
        dialler: LinkDialler<R>,
    ) -> Result<(), Shortage>
    where
        R: Threads
            + Wait
            + Clock
            + Net<Listener = TcpListener, Stream = TcpStream>
            + Copy
            + Send
            + Drop
            + 'static,
    {
        self.workers.reserve(1)?;
        employ(
            &mut self.workers,
            write_link(rt, &self.host, OpenGate, 0, outlet, dialler),
        )
    }
}

impl<C: NodeCore<Global> + Drop> Running<C> {
    /// A host that employs no workers yet.
    pub(crate) fn new(alloc: Global, host: Host<C>) -> Running<C> {
        Running {
            host,
            workers: Vec::new(alloc),
            closers: Vec::new(alloc),
        }
    }

    /// Joins the workers that have ended, closes the connections that are no longer read, and appends the outlets of
    /// the links that are no longer written.
    pub(crate) fn join_ended<R: Threads>(
        &mut self,
        rt: &R,
        outlets: &mut Vec<Outlet>,
    ) -> Result<(), Shortage> {
        self.closers.retain(|closer| !closer.is_last());
        match self.host.join_ended(rt, &mut self.workers, outlets) {
            Ok(()) => Ok(()),
            Err(_) => Err(Shortage::Memory),
        }
    }

    /// Counts outlets of links that are not written among the workers, so that the close checks what came out of them.
    fn rest(&mut self, outlets: Vec<Outlet>) -> Result<(), AllocError> {
        self.workers.reserve(outlets.len())?;
        for outlet in outlets {
            keep(&mut self.workers, self.host.rest(outlet))?;
        }
        Ok(())
    }

    /// Ends all connections that are read.
    pub(crate) fn close_connections(&mut self) {
        for closer in self.closers.iter() {
            closer.close();
        }
        self.closers.clear();
    }

    /// Closes the node, which is stopped, with its ports and the outlets of links that are not written. Returns what it
    /// leaves.
    pub(crate) fn close<R: Threads + Wait>(
        mut self,
        rt: &R,
        ports: Vec<Port<C>>,
        outlets: Vec<Outlet>,
    ) -> Result<Past, StopError>
        ensures { IfOk result (λ past. IsLeft C.starts C.steps past.since past.trace) }
    {
        let rested = self.rest(outlets);
        let Running {
            host,
            workers,
            closers: _,
        } = self;
        let past = past_of(host.close(rt, ports, workers))?;
        rested?;
        Ok(past)
    }
}

/// What a node leaves that was closed, or why that is not as it should be.
fn past_of<C: NodeCore<Global> + Drop>(
    closed: Result<Closed, CloseError<C>>,
) -> Result<Past, StopError>
    requires { IfOk closed (λ closed. IsLeft C.starts C.steps closed.since closed.trace) }
    ensures { IfOk result (λ past. IsLeft C.starts C.steps past.since past.trace) }
{
    match closed {
        Ok(closed) => Ok(Past {
            since: closed.since,
            trace: closed.trace,
        }),
        Err(error) => Err(stop_of(&error)),
    }
}

/// Why a node that was closed is not as it should be.
fn stop_of<C: NodeCore<Global> + Drop>(error: &CloseError<C>) -> StopError {
    match error {
        CloseError::PortMissing { .. } => StopError::WorkerMissing,
        CloseError::Unlike { .. } => StopError::Unlike,
        CloseError::Torn { .. } => StopError::Torn,
        CloseError::OutOfMemory { .. } => StopError::Short(Shortage::Memory),
    }
}
