//! What the threads of a running node share: the cell under its lock, and the threads that wait for it.
ghost use Rattle.std.specs.Prelude.{◌≡◌, IfErr, IfOk, IfSome};
ghost use Rattle.node_threads.specs.Calls.{MayAnswer};
ghost use Rattle.node_threads.specs.Receipts.{IsMade};
ghost use Rattle.node_threads.specs.Refusal.{RefusesPayload};

use crate::cell::NodeCell;
use crate::cell::applied::Applied;
use crate::cell::kept::Kept;
use crate::cell::outlet::Outlet;
use crate::cell::receipt::Receipt;
use crate::cell::taking::take_frames;
use crate::cores::NodeCore;
use crate::error::HostError;
use crate::host::wakeups::{WakeSet, Wakeups};
use crate::host::writer_place::WriterPlace;
use bytes::Bytes;
use crossbeam_utils::CachePadded;
use frames::Frame;
use node_core::armed_ids;
use node_names::{MsgId, NodeName};
use protocol::{Delivery, Stimulus, StimulusOf};
use rand_pcg::Lcg128Xsl64;
use std::alloc::{AllocError, Allocator};
use std::sync::atomic::{AtomicBool, AtomicUsize, Ordering};
use std::sync::{Condvar, Mutex, Wait};

/// A running node. The lock holds the cell, and what goes along with it, until the node is closed.
///
/// Waiting threads are woken at each step that sends or delivers what they wait for, and at the stop.
#[derive(Drop)]
pub(crate) struct Shared<C: NodeCore<A> + Drop, A: Allocator> {
    pub(crate) kept: Held<Kept<C, A>>,
    pub(crate) wakeups: Wakeups<A>,
    /// Whether the node was stopped, for threads that make no step.
    is_stopped: AtomicBool,
    /// Whether a worker was refused memory.
    lacks_memory: AtomicBool,
    /// How many workers were started and not joined yet.
    workers: AtomicUsize,
    /// The place up to which writers are to have their outlets compared.
    pub(crate) wanted: AtomicUsize,
    /// How many frames a link's ring has room for.
    pub(crate) ring: usize,
    pub(crate) alloc: A,
}

/// Whether no delivery waits for the application, but one may still come.
fn is_idle<C: NodeCore<A> + Drop, A: Allocator + Copy>(kept: &Kept<C, A>) -> bool {
    kept.cell.pending().is_empty() && !kept.cell.is_shut()
}

/// A cache-padded mutex around a value that can be taken out, so that closing a node does not copy its trace.
pub(crate) type Held<T> = CachePadded<Mutex<Option<T>>>;

/// Calls `call` with what the lock holds, if it was not taken out.
///
/// The prover takes long over a function that names what a guard holds. So it is any type here, and callers lend it to
/// a closure.
pub(crate) fn with<T: Drop, Q, R: Wait, F: FnOnce(&mut T) -> Q>(
    rt: &R,
    lock: &Held<T>,
    call: F,
) -> Option<Q>
    requires { F.IsAlwaysCallable call }
    ensures { IfSome result (MayAnswer F.FnOnce call) }
{
    let mut guard = lock.lock(rt);
    match &mut *guard {
        Some(held) => Some(call(held)),
        None => None,
    }
}

/// Takes what the lock holds. If nothing is there, waits until something is.
fn take_out<T: Drop, R: Wait>(rt: &R, lock: &Held<T>, told: &Condvar) -> T {
    let mut guard = told.wait_while(rt, lock.lock(rt), |held| held.is_none());
    let Some(held) = guard.take() else {
        unreachable!()
    };
    held
}

/// What makes steps under a lock.
pub(crate) trait Stepping<A: Allocator> {
    /// How many steps it made.
    fn steps(&self) -> usize;

    /// Notes what the last steps changed.
    fn look(&mut self);

    /// The threads to wake for the steps from this place on.
    fn moved_since(&self, wakeups: &Wakeups<A>, first: usize) -> WakeSet;
}

/// Calls `call` with what makes steps. Returns its result, and the threads to wake for the steps that it made.
fn step_held<T: Stepping<A>, A: Allocator, Q, F: FnOnce(&mut T) -> Q>(
    held: &mut T,
    wakeups: &Wakeups<A>,
    call: F,
) -> (Q, WakeSet)
    requires { F.IsAlwaysCallable call }
    ensures { MayAnswer F.FnOnce call result.0 }
{
    let first = held.steps();
    let answer = call(held);
    held.look();
    (answer, held.moved_since(wakeups, first))
}

/// Calls `call` with what the lock holds, under one hold of the lock, and wakes the threads that wait for what its
/// steps sent or delivered. `None`: the node is closed.
pub(crate) fn step<T: Stepping<A> + Drop, A: Allocator + Copy, Q, R: Wait, F: FnOnce(&mut T) -> Q>(
    rt: &R,
    lock: &Held<T>,
    wakeups: &Wakeups<A>,
    call: F,
) -> Option<Q>
    requires { F.IsAlwaysCallable call }
    ensures { IfSome result (MayAnswer F.FnOnce call) }
{
    let (answer, moved) = with(rt, lock, |held| step_held(held, wakeups, call))?;
    wakeups.wake(rt, moved);
    Some(answer)
}

/// The threads to wake for the steps from this place on.
fn moved_since<C: NodeCore<A> + Drop, A: Allocator + Copy>(
    cell: &NodeCell<C, A>,
    wakeups: &Wakeups<A>,
    first: usize,
) -> WakeSet {
    let trace = cell.trace();
    let mut moved = WakeSet::nothing();
    for place in first..trace.len() {
        if let Some(step) = trace.step(place) {
            wakeups.add(&mut moved, &step.out);
        }
    }
    moved
}

impl<C: NodeCore<A> + Drop, A: Allocator + Copy> Stepping<A> for Kept<C, A> {
    fn steps(&self) -> usize {
        self.cell.trace().len()
    }

    fn look(&mut self) {
        self.look();
    }

    fn moved_since(&self, wakeups: &Wakeups<A>, first: usize) -> WakeSet {
        moved_since(&self.cell, wakeups, first)
    }
}

/// Broadcasts a payload with its Downs. Returns the receipt for the port.
fn broadcast<C: NodeCore<A> + Drop, A: Allocator + Copy>(
    kept: &mut Kept<C, A>,
    payload: Bytes<A>,
) -> Result<Receipt, HostError>
    ensures made { IfOk result (λ receipt. IsMade C.state C.steps payload receipt) }
    ensures refused { IfErr result (RefusesPayload payload) }
{
    let Applied {
        id,
        place,
        full: _,
        unlinked: _,
    } = kept
        .cell
        .apply_with_downs(StimulusOf::Broadcast(payload), &mut kept.learnt)?;
    let Some(id) = id else { unreachable!() };
    Ok(Receipt { id, place })
}

impl<C: NodeCore<A> + Drop, A: Allocator + Copy> Shared<C, A> {
    /// A node that has a link to each of these names, with rings for `ring` frames.
    pub(crate) fn new(
        alloc: A,
        cell: NodeCell<C, A>,
        names: &[NodeName],
        ring: usize,
    ) -> Result<Shared<C, A>, AllocError> {
        let wakeups = Wakeups::new(alloc, names)?;
        let kept = Kept::new(alloc, cell, names)?;
        Ok(Shared {
            kept: CachePadded::new(Mutex::new(Some(kept))),
            wakeups,
            is_stopped: AtomicBool::new(false),
            lacks_memory: AtomicBool::new(false),
            workers: AtomicUsize::new(0),
            wanted: AtomicUsize::new(0),
            ring,
            alloc,
        })
    }

    /// Applies the stimulus with its Downs, whose dice are zeros.
    pub(crate) fn apply<R: Wait>(
        &self,
        rt: &R,
        stimulus: Stimulus<Frame<A>, A>,
    ) -> Result<Applied<A>, HostError> {
        step(
            rt,
            &self.kept,
            &self.wakeups,
            |kept| kept.cell.apply_with_downs(stimulus, &mut kept.learnt),
        )
        .unwrap_or(Err(HostError::Closed))
    }

    /// Applies the stimulus with its Downs, whose dice are drawn.
    pub(crate) fn apply_drawing<R: Wait>(
        &self,
        rt: &R,
        stimulus: Stimulus<Frame<A>, A>,
        generator: &mut Lcg128Xsl64,
    ) -> Result<Applied<A>, HostError> {
        step(
            rt,
            &self.kept,
            &self.wakeups,
            |kept| kept
                .cell
                .apply_drawing(stimulus, generator, &mut kept.learnt),
        )
        .unwrap_or(Err(HostError::Closed))
    }

    /// Has the node take frames, one step each with its Downs, until one is refused; all dice are drawn. Returns the
    /// number of steps made, and why the next one was refused.
    pub(crate) fn take_frames<R: Wait>(
        &self,
        rt: &R,
        frames: Vec<Frame<A>, A>,
        generator: &mut Lcg128Xsl64,
    ) -> (usize, Result<(), HostError>) {
        step(
            rt,
            &self.kept,
            &self.wakeups,
            |kept| take_frames(&mut kept.cell, frames, generator, &mut kept.learnt),
        )
        .unwrap_or((0, Err(HostError::Closed)))
    }

    /// Broadcasts a payload.
    pub(crate) fn broadcast<R: Wait>(&self, rt: &R, payload: Bytes<A>) -> Result<Receipt, HostError>
        ensures made { IfOk result (λ receipt. IsMade C.state C.steps payload receipt) }
        ensures refused { IfErr result (RefusesPayload payload) }
    {
        step(
            rt,
            &self.kept,
            &self.wakeups,
            |kept| broadcast(kept, payload),
        )
        .unwrap_or(Err(HostError::Closed))
    }

    /// Opens a new link to the outlet's peer in place of the outlet's own. Returns the outlet of the new link.
    pub(crate) fn open_again<R: Wait>(
        &self,
        rt: &R,
        outlet: &Outlet<A>,
    ) -> Result<Outlet<A>, HostError>
        ensures { IfOk result (λ new. new.peer ≡ outlet.now.peer) }
    {
        let (peer, ring) = (outlet.peer(), self.ring);
        with(rt, &self.kept, |kept| kept.cell.open_link(peer, ring)).unwrap_or(Err(
            HostError::Closed,
        ))
    }

    /// Ends the node: from now on no step is made, and no thread waits for one.
    pub(crate) fn stop<R: Wait>(&self, rt: &R) {
        let _ = with(rt, &self.kept, |kept| kept.cell.shut());
        self.is_stopped.store(true, Ordering::SeqCst);
        self.wakeups.wake_all(rt);
    }

    /// Whether the name is in the core's active view.
    pub(crate) fn is_neighbour<R: Wait>(&self, rt: &R, name: &NodeName) -> bool {
        with(
            rt,
            &self.kept,
            |kept| kept.cell.core().active().contains(name),
        )
        .unwrap_or(false)
    }

    /// Whether the node was stopped.
    pub(crate) fn is_stopped(&self) -> bool {
        self.is_stopped.load(Ordering::SeqCst)
    }

    /// The place where the writer of a link to this name waits.
    pub(crate) fn writer(&self, peer: &NodeName) -> Option<&WriterPlace> {
        self.wakeups.writer(peer)
    }

    /// Takes the cell out of the lock. If the cell is not there, waits until it is.
    pub(crate) fn take<R: Wait>(&self, rt: &R) -> NodeCell<C, A> {
        take_out(rt, &self.kept, &self.wakeups.delivered).into_cell()
    }

    /// Waits for deliveries and hands them out. Returns `None` when the node was stopped and all are handed out.
    pub(crate) fn wait_for_deliveries<R: Wait>(&self, rt: &R) -> Option<Vec<Delivery<A>, A>> {
        let mut guard = self
            .wakeups
            .delivered
            .wait_while(rt, self.kept.lock(rt), |kept| match kept {
                Some(kept) => is_idle(kept),
                None => false,
            });
        let given = guard.as_mut()?.cell.take_deliveries();
        if given.is_empty() { None } else { Some(given) }
    }

    /// The ids whose timers are armed.
    pub(crate) fn timers<R: Wait>(&self, rt: &R) -> Result<Vec<MsgId, A>, HostError> {
        let alloc = self.alloc;
        let timers = with(rt, &self.kept, |kept| {
            armed_ids(alloc, kept.cell.core().timers())
        });
        match timers {
            Some(timers) => Ok(timers?),
            None => Err(HostError::Closed),
        }
    }

    /// Has the writer of the link to this name end once its outlet has no frame. If memory is refused, it does not.
    pub(crate) fn retire<R: Wait>(&self, rt: &R, peer: &NodeName) {
        self.wakeups.retire(rt, peer);
    }

    /// Whether the writer of the link to this name was told to end since the last call.
    pub(crate) fn takes_retirement<R: Wait>(&self, rt: &R, peer: &NodeName) -> bool {
        self.wakeups.takes_retirement(rt, peer)
    }

    /// Notes that a worker was refused memory.
    pub(crate) fn note_lack(&self) {
        self.lacks_memory.store(true, Ordering::SeqCst);
    }

    /// Notes that a worker was refused memory, if that is how it ended.
    pub(crate) fn note_end(&self, ended: Result<(), HostError>) {
        if ended == Err(HostError::OutOfMemory) {
            self.note_lack();
        }
    }

    /// Whether a worker was refused memory.
    pub(crate) fn lacks_memory(&self) -> bool {
        self.lacks_memory.load(Ordering::SeqCst)
    }

    /// Counts a worker that was started.
    pub(crate) fn count_worker(&self) {
        self.workers.fetch_add(1, Ordering::SeqCst);
    }

    /// Counts one worker less, which has ended and was joined.
    pub(crate) fn discount_worker(&self) {
        self.workers.fetch_sub(1, Ordering::SeqCst);
    }

    /// How many workers were started and not joined yet.
    pub(crate) fn workers(&self) -> usize {
        self.workers.load(Ordering::SeqCst)
    }
}
