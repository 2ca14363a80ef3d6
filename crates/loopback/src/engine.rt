//! A running node's links, and the threads that work for them.
ghost use Rattle.std.specs.Prelude.{IfOk};
ghost use Rattle.node_threads.specs.Closing.{IsLeft};

use crate::acceptor::Acceptor;
use crate::arrivals::Arrivals;
use crate::common::Common;
use crate::link_table::LinkTable;
use crate::machine::Machine;
use crate::past::Past;
use crate::running::Running;
use crate::shortage::Shortage;
use crate::shortages::Shortages;
use crate::stop_error::StopError;
use crate::ticks::Ticks;
use node_threads::{Handed, Host, NodeCore, Outlet, Port};
use protocol::Delivery;
use std::alloc::{AllocError, Global};
use std::net::{Net, SocketAddr, TcpListener, TcpStream};
use std::sync::{Arc, Wait};
use std::thread::Threads;

/// What an engine's threads share, before any of them runs.
#[derive(Drop)]
pub(crate) struct Ground {
    at: SocketAddr,
    arrivals: Arc<Arrivals, Global>,
    shortages: Arc<Shortages, Global>,
}

impl Ground {
    /// The ground of a node that takes connections at this address.
    pub(crate) fn new(alloc: Global, at: SocketAddr) -> Result<Ground, AllocError> {
        let shortages = Arc::new(alloc, Shortages::new())?;
        let noted = Arc::try_clone(&shortages)?;
        Ok(Ground {
            at,
            arrivals: Arc::new(alloc, Arrivals::new(alloc, noted))?,
            shortages,
        })
    }
}

/// A running node's links, and the threads that work for them. One thread makes it, and makes its turns: it joins
/// threads that have ended, and gives one to each new connection, and to each link that has a frame and none.
///
/// To end it: `stop`, `close_connections`, `knock` until that says that the thread will end, `join_acceptor`, and then
/// `close`. Several engines are stopped one after the other, in each of these steps, before the next.
#[derive(Drop)]
pub(crate) struct Engine<C: NodeCore<Global> + Drop> {
    running: Running<C>,
    links: LinkTable,
    acceptor: Acceptor,
    shortages: Arc<Shortages, Global>,
}

impl<C: NodeCore<Global> + Drop + Send + 'static> Engine<C> {
    /// Starts the threads that take connections from this listener, hand deliveries out to this sink, and keep the time
    /// for `ticks` ticks.
    pub(crate) fn start_threads<R, S>(
        &mut self,
        common: &mut Common<R>,
        listener: TcpListener,
        sink: S,
        ticks: u64,
    ) -> Result<(), Shortage>
    where
        R: Machine,
        S: Handed<Vec<Delivery>> + Drop + Send + 'static,
    {
        self.acceptor.start(common.rt, listener)?;
        self.running.start_handing(common.rt, sink)?;
        self.start_ticking(common, ticks)
    }

    /// Starts the worker that keeps the time, for `ticks` ticks.
    fn start_ticking<R>(&mut self, common: &mut Common<R>, ticks: u64) -> Result<(), Shortage>
    where
        R: Machine,
    {
        let ticking = Arc::try_clone(&common.ticking)?;
        let ticker = Ticks::new(common.rt, common.tick, ticks, ticking);
        let seed = common.next_seed();
        self.running.start_ticking(common.rt, ticker, seed)
    }

    /// The first half of a turn: joins the threads that have ended, and starts a reader of each connection that came
    /// since the last turn. Returns whether one came.
    pub(crate) fn read_links<R>(&mut self, common: &mut Common<R>) -> Result<bool, Shortage>
    where
        R: Machine,
    {
        let mut outlets = Vec::new(common.alloc);
        self.running.join_ended(&common.rt, &mut outlets)?;
        self.links.take_back(outlets)?;
        self.read_arrivals(common)
    }

    /// Starts a reader of each connection that came since the last turn. Returns whether one came.
    fn read_arrivals<R>(&mut self, common: &mut Common<R>) -> Result<bool, Shortage>
    where
        R: Machine,
    {
        let mut has_come = false;
        for reader in self.acceptor.arrivals.take(&common.rt) {
            let seed = common.next_seed();
            self.running.read(common.rt, reader, seed)?;
            has_come = true;
        }
        Ok(has_come)
    }

    /// The second half of a turn: starts a writer of each link that has a frame and no writer. Returns whether there is
    /// such a link.
    pub(crate) fn write_links<R>(&mut self, common: &Common<R>) -> Result<bool, Shortage>
    where
        R: Machine,
    {
        self.links
            .write_all(common, &mut self.running, &self.shortages)
    }
}

impl<C: NodeCore<Global> + Drop> Engine<C> {
    /// Makes the engine of a host that has these outlets. It has no thread yet.
    pub(crate) fn new(
        alloc: Global,
        ground: Ground,
        host: Host<C>,
        outlets: Vec<Outlet>,
    ) -> Engine<C> {
        let Ground {
            at,
            arrivals,
            shortages,
        } = ground;
        Engine {
            running: Running::new(alloc, host),
            links: LinkTable::new(alloc, outlets),
            acceptor: Acceptor::new(at, arrivals),
            shortages,
        }
    }

    /// Returns an error if its threads had a shortage, or, when `is_last`, still have one.
    pub(crate) fn check(&self, is_last: bool) -> Result<(), Shortage> {
        if self.running.host.lacks_memory() {
            self.shortages.note(Shortage::Memory);
        }
        if is_last {
            self.shortages.check_last()
        } else {
            self.shortages.check()
        }
    }

    /// How many links have a writer.
    pub(crate) fn written(&self) -> usize {
        self.links.written()
    }

    /// Ends the writers of links that were not used in the last `ticks` ticks and that go to names outside the node's
    /// active view.
    pub(crate) fn retire_idle<R: Wait>(&mut self, rt: &R, now: u64, ticks: u64) {
        self.links.retire_idle(rt, &self.running.host, now, ticks);
    }

    /// Stops the host: it makes no more steps.
    pub(crate) fn stop<R: Wait>(&self, rt: &R) {
        self.running.host.stop(rt);
    }

    /// Takes no more connections, and ends the existing ones. The host must have been stopped before.
    pub(crate) fn close_connections<R: Wait>(&mut self, rt: &R) {
        self.acceptor.arrivals.close(rt);
        self.running.close_connections();
    }

    /// Dials the node's own address once no more connections are taken, so that the thread that waits there ends.
    /// Returns whether it will end.
    pub(crate) fn knock<R>(&mut self, rt: &R) -> bool
    where
        R: Net<Listener = TcpListener, Stream = TcpStream>,
    {
        self.acceptor.knock(rt)
    }

    /// Waits for the thread that takes connections.
    pub(crate) fn join_acceptor<R: Threads>(&mut self, rt: &R) {
        self.acceptor.join(rt);
    }

    /// Waits for the workers, closes the node with its ports, and returns what it leaves.
    pub(crate) fn close<R: Threads + Wait>(
        self,
        rt: &R,
        ports: Vec<Port<C>>,
    ) -> Result<Past, StopError>
        ensures { IfOk result (λ past. IsLeft C.starts C.steps past.since past.trace) }
    {
        let Engine { running, links, .. } = self;
        running.close(rt, ports, links.into_unwritten())
    }
}
