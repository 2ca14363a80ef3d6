//! Threads that work for a node.
ghost use Rattle.std.specs.Prelude.{◌≡◌, [], None, Some, IfOk};
ghost use Rattle.node_threads.specs.Leaving.{HasLeft, outlets_in};

use crate::cell::outlet::Outlet;
use crate::error::HostError;
use node_names::NodeName;
use std::alloc::{AllocError, Allocator, Global};
use std::marker::Model;
use std::sync::Arc;
use std::sync::atomic::{AtomicBool, Ordering};
use std::thread::{Builder, Promise, PromisedHandle, Threads};

/// The size of the stack of a worker's thread, in bytes. It needs a few thousand: buffers are on the heap. The usual
/// 8 MiB of a system would be 8 GiB for 1,000 threads.
const STACK: usize = 256 * 1024;

/// The outlets that a worker had: those whose links it gave up, and the last.
#[derive(Drop)]
pub(crate) struct Outlets<A: Allocator> {
    pub(crate) spent: Vec<Outlet<A>, A>,
    pub(crate) last: Option<Outlet<A>>,
}

impl<A: Allocator> Outlets<A> {
    /// No outlets.
    pub(crate) fn none(alloc: A) -> Outlets<A>
        ensures { outlets_in result ≡ [] }
    {
        Outlets {
            spent: Vec::new(alloc),
            last: None,
        }
    }
}

/// What a worker's thread promises: to leave the outlets of the links to this name, of which there is at least one. If
/// there is no name, it leaves no outlets.
#[derive(Drop)]
pub(crate) struct LinksTo(pub(crate) Option<NodeName>);

impl<A: Allocator> Promise<Outlets<A>> for LinksTo {
    ghost use Rattle.node_threads.specs.Leaving.{HasLeft, outlets_in};

    ghost kept_by = { λ p r. HasLeft p.0 (outlets_in r) };
}

/// Where a worker's outlets come from.
#[derive(Drop)]
enum Work<A: Allocator> {
    /// A thread, and the flag that it sets when it has ended.
    Thread {
        thread: PromisedHandle<Outlets<A>, LinksTo>,
        has_ended: Arc<AtomicBool, A>,
    },
    /// No thread.
    Ended(Outlets<A>),
}

/// A thread that works for a running node, or one that has ended. Closing the node joins it; dropping it lets it run
/// on.
///
/// Contracts see it as the name whose links it writes, if it writes any.
#[derive(Drop)]
pub struct Worker<A: Allocator = Global> {
    peer: Option<NodeName>,
    work: Work<A>,
}

impl<A: Allocator> Model for Worker<A> {
    ghost use Rattle.std.specs.Prelude.{Option};
    ghost use Rattle.node_names.specs.NodeName.{Name};
    ghost use Rattle.node_threads.specs.Working.{IsSure};

    ghost Value = { Option Name };

    ghost view = { λ w. w.peer };

    ghost invariant = { λ w. IsSure w.peer w.work };
}

impl<A: Allocator> Worker<A> {
    /// A worker whose thread was started.
    pub(crate) fn started(
        peer: Option<NodeName>,
        started: Started<Outlets<A>, LinksTo, A>,
    ) -> Worker<A>
        requires { started.0.promise.0 ≡ peer }
        ensures { result ≡ peer }
    {
        let (thread, has_ended) = started;
        Worker {
            peer,
            work: Work::Thread { thread, has_ended },
        }
    }

    /// A worker that has ended and left this outlet.
    pub(crate) fn ended(alloc: A, outlet: Outlet<A>) -> Worker<A>
        ensures { result ≡ Some outlet.peer }
    {
        let peer = Some(outlet.peer());
        let outlets = Outlets {
            spent: Vec::new(alloc),
            last: Some(outlet),
        };
        Worker {
            peer,
            work: Work::Ended(outlets),
        }
    }

    /// The name whose links it writes, if it writes any.
    pub fn peer(&self) -> Option<NodeName>
        ensures { result ≡ self.now }
    {
        self.peer
    }

    /// Whether it has ended, so that joining it does not wait.
    pub fn has_ended(&self) -> bool {
        match &self.work {
            Work::Thread { has_ended, .. } => has_ended.load(Ordering::SeqCst),
            Work::Ended(_) => true,
        }
    }

    /// Waits until it has ended. Returns the outlets that it had.
    pub(crate) fn join<R: Threads>(self, rt: &R) -> Outlets<A>
        ensures { HasLeft self (outlets_in result) }
    {
        let Worker { peer: _, work } = self;
        match work {
            Work::Thread { thread, .. } => thread.join(rt),
            Work::Ended(outlets) => outlets,
        }
    }
}

/// A thread that was started, and the flag that it sets when it has ended.
pub(crate) type Started<T, P, A> = (PromisedHandle<T, P>, Arc<AtomicBool, A>);

/// Makes the flag that a thread sets when it has ended.
fn flag<A: Allocator>(alloc: A) -> Result<Arc<AtomicBool, A>, AllocError> {
    Ok(Arc::new(alloc, AtomicBool::new(false))?)
}

/// Starts a thread whose result keeps a promise.
pub(crate) fn start_promised<R, A, T, P, F>(
    rt: &R,
    alloc: A,
    promise: P,
    work: F,
) -> Result<Started<T, P, A>, HostError>
where
    R: Threads,
    A: Allocator + Copy + Send + Sync + 'static,
    T: Send + Drop + 'static,
    P: Promise<T> + Drop,
    F: FnOnce() -> T + Send + Drop + 'static,
    requires runs { F.pre work }
    requires keeps { (left : T) → F.post work left → P.kept_by promise left }
    ensures { IfOk result (λ started. started.0.promise ≡ promise) }
{
    let has_ended = flag(alloc)?;
    let at_end = Arc::try_clone(&has_ended)?;
    let started = Builder::new()
        .stack_size(STACK)
        .spawn_with(rt, promise, move || {
            let left = work();
            at_end.store(true, Ordering::SeqCst);
            left
        });
    match started {
        Ok(thread) => Ok((thread, has_ended)),
        Err(_) => Err(HostError::OutOfMemory),
    }
}

/// Starts a thread that has no outlets. What the work returns is dropped.
pub(crate) fn start<R, A, T, F>(rt: &R, alloc: A, work: F) -> Result<Worker<A>, HostError>
where
    R: Threads,
    A: Allocator + Copy + Send + Sync + 'static,
    T: Send + Drop + 'static,
    F: FnOnce() -> T + Send + Drop + 'static,
    requires { F.pre work }
    ensures { IfOk result (λ worker. worker ≡ None) }
{
    let started = start_promised(
        rt,
        alloc,
        LinksTo(None),
        move || without_outlets(alloc, work),
    )?;
    Ok(Worker::started(None, started))
}

/// Does the work, and leaves no outlets.
fn without_outlets<A: Allocator, T: Drop, F: FnOnce() -> T>(alloc: A, work: F) -> Outlets<A>
    requires { F.pre work }
    ensures { outlets_in result ≡ [] }
{
    let _ = work();
    Outlets::none(alloc)
}
