//! The worker that takes a link's frames to a peer.
ghost use Rattle.std.specs.Prelude.{◌≡◌, ◌⊎◌, ◌<◌, [], ◌∷◌, ◌++◌, Some, All, IfOk, vec_capacity, vec_len};
ghost use Rattle.node_threads.specs.Leaving.{GoesTo, LeavesTo, outlets_in};

use crate::cell::outlet::Outlet;
use crate::cores::NodeCore;
use crate::error::HostError;
use crate::host::Host;
use crate::host::gate::Gate;
use crate::host::shared::Shared;
use crate::host::stepper::Stepper;
use crate::host::worker::{LinksTo, Outlets, Worker, start_promised};
use links::{LinkEnd, MeteredWrite};
use node_names::Dice;
use protocol::StimulusOf;
use std::alloc::Allocator;
use std::mem;
use std::sync::Wait;
use std::thread::Threads;

/// What makes the connections of one link.
pub trait Dialler {
    /// A connection that frames are written to. It is flushed when the link has no more frames, so it may buffer those
    /// that come at once.
    type Writer: MeteredWrite + Drop + Send;

    /// Makes a connection to the link's peer.
    fn dial(&mut self) -> Result<Self::Writer, LinkEnd>;
}

/// Flushes a writer. How much of what it buffered went out before a failure is not known.
fn flush<W: MeteredWrite>(writer: &mut W) -> Result<(), LinkEnd> {
    match writer.flush() {
        Ok(()) => Ok(()),
        Err(_) => Err(LinkEnd::WriteFault { bytes: 0 }),
    }
}

/// A link's outlet and its connection, if there is one, and the outlets that it had before.
#[derive(Drop)]
struct Outgoing<A: Allocator, D: Dialler + Drop> {
    outlet: Outlet<A>,
    dialler: D,
    writer: Option<D::Writer>,
    spent: Vec<Outlet<A>, A>,
    /// The place up to which its outlet was last asked to be compared.
    asked: usize,
}

impl<A: Allocator + Copy, D: Dialler + Drop> Outgoing<A, D> {
    /// A link without a connection.
    fn new(alloc: A, outlet: Outlet<A>, dialler: D) -> Outgoing<A, D>
        ensures outlet { result.outlet ≡ outlet }
        ensures spent { result.spent.items ≡ [] }
    {
        Outgoing {
            outlet,
            dialler,
            writer: None,
            spent: Vec::new(alloc),
            asked: 0,
        }
    }

    /// Writes frames that the outlet has and flushes the connection, which is made for the first frame.
    fn write(&mut self) -> Result<(), LinkEnd>
        ensures outlet { self.new.outlet.peer ≡ self.old.outlet.peer }
        ensures spent { self.new.spent.items ≡ self.old.spent.items }
    {
        if self.writer.is_none() {
            self.writer = Some(self.dialler.dial()?);
        }
        if let Some(writer) = &mut self.writer {
            self.outlet.write_to(writer)?;
            flush(writer)?;
        }
        Ok(())
    }

    /// The outlets that it had.
    fn into_outlets(self) -> Outlets<A>
        ensures { outlets_in result ≡ self.spent.items ++ self.outlet ∷ [] }
    {
        let Outgoing {
            outlet,
            dialler: _,
            writer: _,
            spent,
            asked: _,
        } = self;
        Outlets {
            spent,
            last: Some(outlet),
        }
    }
}

/// What a worker that writes is to do next.
enum Writing {
    /// Its outlet has a frame.
    Frames,
    /// Its outlet is empty, and is to be compared.
    Comparison,
    /// Its link is closed, and its outlet empty.
    LinkClosed,
    /// It was told to end, and its outlet is empty.
    Retired,
    /// The node was stopped, and its outlet is empty.
    Stopped,
}

/// What a worker that writes is to do next; `None` if it is to wait. It asks whether the link is closed before it looks
/// at the outlet, since frames may be put into the ring until the link is closed.
fn next_writing<R: Wait, C: NodeCore<A> + Drop, A: Allocator + Copy>(
    rt: &R,
    shared: &Shared<C, A>,
    asked: usize,
    outlet: &mut Outlet<A>,
) -> Option<Writing>
    ensures peer { outlet.new.peer ≡ outlet.old.peer }
    ensures given { outlet.new.given ≡ outlet.old.given }
{
    let is_stopped = shared.is_stopped();
    let is_closed = outlet.is_closed();
    if outlet.has_next() {
        Some(Writing::Frames)
    } else if shared.wanted() > asked {
        Some(Writing::Comparison)
    } else if is_stopped {
        Some(Writing::Stopped)
    } else if is_closed {
        Some(Writing::LinkClosed)
    } else if shared.takes_retirement(rt, &outlet.peer()) {
        Some(Writing::Retired)
    } else {
        None
    }
}

/// Waits until there is something to do for a worker that writes. It does not take the node's lock.
fn wait_for_writing<R: Wait, C: NodeCore<A> + Drop, A: Allocator + Copy>(
    rt: &R,
    shared: &Shared<C, A>,
    asked: usize,
    outlet: &mut Outlet<A>,
) -> Writing
    ensures peer { outlet.new.peer ≡ outlet.old.peer }
    ensures given { outlet.new.given ≡ outlet.old.given }
{
    let Some(place) = shared.writer(&outlet.peer()) else {
        return Writing::Retired;
    };
    for _ in rt.forever() {
        let times = place.times(rt);
        if let Some(writing) = next_writing(rt, shared, asked, outlet) {
            return writing;
        }
        place.wait(rt, times);
    }
    unreachable!()
}

/// Appends an outlet, for which there is room.
fn keep<A: Allocator>(spent: &mut Vec<Outlet<A>, A>, outlet: Outlet<A>)
    requires { vec_len spent.old < vec_capacity spent.old }
    ensures { spent.new.items ≡ spent.old.items ++ outlet ∷ [] }
{
    spent.push(outlet).unwrap();
}

/// Appends an outlet, for which there is room, unless it can go.
fn keep_rest<R: Wait, C: NodeCore<A> + Drop, A: Allocator + Copy>(
    rt: &R,
    shared: &Shared<C, A>,
    spent: &mut Vec<Outlet<A>, A>,
    outlet: Outlet<A>,
)
    requires { vec_len spent.old < vec_capacity spent.old }
    ensures { (spent.new.items ≡ spent.old.items) ⊎ (spent.new.items ≡ spent.old.items ++ outlet ∷ []) }
{
    if !shared.lets_go(rt, &outlet) {
        keep(spent, outlet);
    }
}

/// Tells the node that the link is down, and goes on with a new link.
fn renew<R: Wait, C: NodeCore<A> + Drop, A: Allocator + Copy, G: Gate + Drop, D: Dialler + Drop>(
    rt: &R,
    steps: &Stepper<C, A, G>,
    link: &mut Outgoing<A, D>,
) -> Result<(), HostError>
    requires { All (GoesTo link.old.outlet.peer) link.old.spent.items }
    ensures outlet { link.new.outlet.peer ≡ link.old.outlet.peer }
    ensures spent { All (GoesTo link.old.outlet.peer) link.new.spent.items }
{
    link.writer = None;
    link.spent.reserve(1)?;
    let peer = link.outlet.peer();
    let dice = Dice::ZEROS;
    steps.apply(rt, StimulusOf::Down { peer, dice })?;
    let outlet = steps.shared.open_again(rt, &link.outlet)?;
    let spent = mem::replace(&mut link.outlet, outlet);
    keep_rest(rt, &steps.shared, &mut link.spent, spent);
    Ok(())
}

/// Has the outlet of a link compared with what the node sent, if that is asked for.
fn compare<R: Wait, C: NodeCore<A> + Drop, A: Allocator + Copy, D: Dialler + Drop>(
    rt: &R,
    shared: &Shared<C, A>,
    link: &mut Outgoing<A, D>,
)
    ensures outlet { link.new.outlet.peer ≡ link.old.outlet.peer }
    ensures spent { link.new.spent.items ≡ link.old.spent.items }
{
    if link.outlet.opened() < shared.wanted() {
        shared.compare(rt, &mut link.outlet);
    }
}

/// Notes that a writer was refused memory, if that is how its connection ended.
fn note_end<C: NodeCore<A> + Drop, A: Allocator + Copy>(shared: &Shared<C, A>, end: LinkEnd) {
    if end == LinkEnd::OutOfMemory {
        shared.note_lack();
    }
}

/// Writes frames until the node is stopped or the worker is told to end and the frames are written, or until a step is
/// refused.
fn write_frames<R, C, A, G, D>(
    rt: &R,
    steps: &Stepper<C, A, G>,
    link: &mut Outgoing<A, D>,
) -> Result<(), HostError>
where
    R: Wait,
    C: NodeCore<A> + Drop,
    A: Allocator + Copy,
    G: Gate + Drop,
    D: Dialler + Drop,
    requires { All (GoesTo link.old.outlet.peer) link.old.spent.items }
    ensures outlet { link.new.outlet.peer ≡ link.old.outlet.peer }
    ensures spent { All (GoesTo link.old.outlet.peer) link.new.spent.items }
{
    for _ in rt.forever() {
        match wait_for_writing(rt, &steps.shared, link.asked, &mut link.outlet) {
            Writing::Frames => match link.write() {
                Ok(()) => compare(rt, &steps.shared, link),
                Err(end) => {
                    note_end(&steps.shared, end);
                    renew(rt, steps, link)?;
                }
            },
            Writing::Comparison => {
                link.asked = steps.shared.wanted();
                compare(rt, &steps.shared, link);
            }
            Writing::LinkClosed => renew(rt, steps, link)?,
            Writing::Retired | Writing::Stopped => return Ok(()),
        }
    }
    unreachable!()
}

/// Writes frames as long as it can. Returns the outlets that the link had.
fn write_to_end<R, C, A, G, D>(
    rt: &R,
    steps: &Stepper<C, A, G>,
    outlet: Outlet<A>,
    dialler: D,
) -> Outlets<A>
where
    R: Wait,
    C: NodeCore<A> + Drop,
    A: Allocator + Copy,
    G: Gate + Drop,
    D: Dialler + Drop,
    ensures { LeavesTo outlet.peer (outlets_in result) }
{
    let mut link = Outgoing::new(steps.shared.alloc, outlet, dialler);
    let ended = write_frames(rt, steps, &mut link);
    steps.shared.note_end(ended);
    link.into_outlets()
}

/// Starts the worker that writes a link's frames. The dialler makes a connection when the outlet has its first frame,
/// and the worker writes frames to it, whole and in order, as long as they go out. It flushes the connection when the
/// outlet is empty.
///
/// When a connection can't be made, a write fails or the node closes the link, the worker tells the core by a Down of
/// the link's peer, opens a new link to it and goes on with that: frames of the old link that were not written are
/// never written. It ends when the node was stopped or `Host::retire` was called, and all frames of its link are
/// written, or at the first refusal; `Host::lacks_memory` tells whether memory was refused. `Closed`: the node was
/// stopped. `OutOfMemory`: an allocation is refused, or no thread can be made.
pub fn write_link<R, C, A, G, D>(
    rt: R,
    host: &Host<C, A>,
    gate: G,
    number: usize,
    outlet: Outlet<A>,
    dialler: D,
) -> Result<Worker<A>, HostError>
where
    R: Threads + Wait + Copy + Send + 'static,
    C: NodeCore<A> + Drop + Send + 'static,
    A: Allocator + Copy + Send + Sync + 'static,
    G: Gate + Drop + Send + 'static,
    D: Dialler + Drop + Send + 'static,
    ensures { IfOk result (λ worker. worker ≡ Some outlet.peer) }
{
    let steps = host.stepper(gate, number)?;
    let alloc = steps.shared.alloc;
    let peer = outlet.peer();
    let started = start_promised(&rt, alloc, LinksTo(Some(peer)), move || {
        write_to_end(&rt, &steps, outlet, dialler)
    })?;
    Ok(host.employ(Worker::started(Some(peer), started)))
}
