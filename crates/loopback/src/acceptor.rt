//! The thread of a node that takes connections.
use crate::arrivals::{Arrivals, accept_all};
use crate::shortage::Shortage;
use std::alloc::Global;
use std::net::{Net, SocketAddr, TcpListener, TcpStream};
use std::sync::{Arc, Wait};
use std::thread;
use std::thread::{JoinHandle, Threads};
use std::time::Clock;

/// The thread of a node that takes connections, and the connections that it took.
#[derive(Drop)]
pub(crate) struct Acceptor {
    at: SocketAddr,
    pub(crate) arrivals: Arc<Arrivals, Global>,
    thread: Option<JoinHandle<()>>,
    /// Whether the address was dialled since the arrivals were closed.
    is_dialled: bool,
}

impl Acceptor {
    /// Makes the acceptor of this address, without a thread yet.
    pub(crate) fn new(at: SocketAddr, arrivals: Arc<Arrivals, Global>) -> Acceptor {
        Acceptor {
            at,
            arrivals,
            thread: None,
            is_dialled: false,
        }
    }

    /// Starts the thread.
    pub(crate) fn start<R>(&mut self, rt: R, listener: TcpListener) -> Result<(), Shortage>
    where
        R: Threads + Wait + Clock + Copy + Send + Drop + 'static,
    {
        let arrivals = Arc::try_clone(&self.arrivals)?;
        match thread::spawn(&rt, move || accept_all(&rt, &listener, &arrivals)) {
            Ok(thread) => {
                self.thread = Some(thread);
                Ok(())
            }
            Err(_) => Err(Shortage::Threads),
        }
    }

    /// Dials the address once the arrivals are closed, unless this was done already, so that the thread, which waits
    /// there for a connection, wakes up. Returns whether the thread will end.
    pub(crate) fn knock<R>(&mut self, rt: &R) -> bool
    where
        R: Net<Listener = TcpListener, Stream = TcpStream>,
    {
        if self.thread.is_none() || self.is_dialled || self.arrivals.is_over() {
            return true;
        }
        self.is_dialled = rt.connect(self.at).is_ok();
        self.is_dialled
    }

    /// Waits until the thread ends.
    pub(crate) fn join<R: Threads>(&mut self, rt: &R) {
        if let Some(thread) = self.thread.take() {
            thread.join(rt);
        }
    }
}
