//! Connections that other nodes made to a node and that it does not read yet.
use crate::list::keep;
use crate::pace::pause;
use crate::shortage::Shortage;
use crate::shortages::{Failures, Shortages};
use links::{TcpReader, accept};
use std::alloc::Global;
use std::mem;
use std::net::TcpListener;
use std::sync::atomic::{AtomicBool, Ordering};
use std::sync::{Arc, Mutex, Wait};
use std::time::Clock;

/// The connections that wait for a reader, and whether more are taken.
#[derive(Drop)]
struct Waiting {
    is_open: bool,
    readers: Vec<TcpReader>,
}

/// What the thread that takes connections shares with the one that runs the node.
#[derive(Drop)]
pub(crate) struct Arrivals {
    waiting: Mutex<Waiting>,
    shortages: Arc<Shortages, Global>,
    /// Whether the thread takes no more connections.
    is_over: AtomicBool,
    alloc: Global,
}

impl Arrivals {
    /// Makes arrivals without connections.
    pub(crate) fn new(alloc: Global, shortages: Arc<Shortages, Global>) -> Arrivals {
        let readers = Vec::new(alloc);
        Arrivals {
            waiting: Mutex::new(Waiting {
                is_open: true,
                readers,
            }),
            shortages,
            is_over: AtomicBool::new(false),
            alloc,
        }
    }

    /// Appends a connection, and returns whether more are taken. If there is no memory for it, it is closed, and this
    /// is noted.
    fn put<R: Wait>(&self, rt: &R, reader: TcpReader) -> bool {
        let mut waiting = self.waiting.lock(rt);
        if waiting.is_open && keep(&mut waiting.readers, reader).is_err() {
            self.shortages.note(Shortage::Memory);
        }
        waiting.is_open
    }

    /// Takes the connections out, the oldest first.
    pub(crate) fn take<R: Wait>(&self, rt: &R) -> Vec<TcpReader> {
        mem::replace(&mut self.waiting.lock(rt).readers, Vec::new(self.alloc))
    }

    /// Takes no more connections, and closes those that wait.
    pub(crate) fn close<R: Wait>(&self, rt: &R) {
        self.waiting.lock(rt).is_open = false;
        drop(self.take(rt));
    }

    /// Whether the thread that takes connections ends without another connection.
    pub(crate) fn is_over(&self) -> bool {
        self.is_over.load(Ordering::SeqCst)
    }

    /// Waits for a connection and takes it. Returns whether more are taken.
    fn take_next<R: Wait + Clock>(
        &self,
        rt: &R,
        listener: &TcpListener,
        failures: &mut Failures<'_>,
    ) -> bool {
        match accept(self.alloc, listener) {
            Ok(reader) => {
                failures.end();
                self.put(rt, reader)
            }
            Err(error) => {
                failures.add(&error);
                pause(rt);
                self.waiting.lock(rt).is_open
            }
        }
    }
}

/// Takes connections until one comes or fails after the arrivals were closed. It goes on after one that the system
/// refuses: otherwise a stranger that hangs up would close the node's port.
pub(crate) fn accept_all<R: Wait + Clock>(rt: &R, listener: &TcpListener, arrivals: &Arrivals) {
    let mut failures = Failures::new(&arrivals.shortages);
    for _ in rt.forever() {
        if !arrivals.take_next(rt, listener, &mut failures) {
            arrivals.is_over.store(true, Ordering::SeqCst);
            return;
        }
    }
}
