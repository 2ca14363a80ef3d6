//! The worker that keeps a node's time.
use crate::cores::NodeCore;
use crate::error::HostError;
use crate::host::Host;
use crate::host::gate::Gate;
use crate::host::stepper::Stepper;
use crate::host::worker::{Worker, start};
use node_names::Dice;
use protocol::StimulusOf;
use rand_core::SeedableRng;
use rand_pcg::Lcg128Xsl64;
use std::alloc::Allocator;
use std::sync::Wait;
use std::thread::Threads;

/// The source of a node's time.
pub trait Ticker {
    /// Waits for the next tick. `false` ends the worker.
    fn next(&mut self) -> bool;
}

/// The node shuffles its passive view every `SHUFFLE_EVERY` ticks.
const SHUFFLE_EVERY: u64 = 10;

/// Has a node that has no neighbour join again, if it is time for that (`Host::set_contacts`).
fn join_again<R: Wait, C: NodeCore<A> + Drop, A: Allocator + Copy, G: Gate + Drop>(
    rt: &R,
    steps: &Stepper<C, A, G>,
    now: u64,
    generator: &mut Lcg128Xsl64,
) -> Result<(), HostError> {
    match steps.shared.due_contact(rt, now, generator) {
        Some(contact) => steps.apply_drawing(rt, StimulusOf::Join(contact), generator),
        None => Ok(()),
    }
}

/// Makes one tick: queued announcements are flushed, each armed timer fires, and at every tenth tick the passive view
/// is shuffled.
fn make_tick<R: Wait, C: NodeCore<A> + Drop, A: Allocator + Copy, G: Gate + Drop>(
    rt: &R,
    steps: &Stepper<C, A, G>,
    shuffles: bool,
    generator: &mut Lcg128Xsl64,
) -> Result<(), HostError> {
    steps.apply_drawing(rt, StimulusOf::Flush, generator)?;
    for id in steps.shared.timers(rt)? {
        steps.apply_drawing(rt, StimulusOf::Fire(id), generator)?;
    }
    if shuffles {
        let dice = Dice::draw(generator);
        steps.apply_drawing(rt, StimulusOf::Shuffle(dice), generator)?;
    }
    Ok(())
}

/// Makes ticks until the ticker ends or a step is refused.
fn make_ticks<R, C, A, G, T>(
    rt: &R,
    steps: &Stepper<C, A, G>,
    mut ticker: T,
    mut generator: Lcg128Xsl64,
) -> Result<(), HostError>
where
    R: Wait,
    C: NodeCore<A> + Drop,
    A: Allocator + Copy,
    G: Gate + Drop,
    T: Ticker + Drop,
{
    let mut ticks: u64 = 0;
    for _ in rt.forever() {
        if !ticker.next() {
            return Ok(());
        }
        ticks = ticks.wrapping_add(1);
        let shuffles = ticks % SHUFFLE_EVERY == 0;
        join_again(rt, steps, ticks, &mut generator)?;
        make_tick(rt, steps, shuffles, &mut generator)?;
    }
    unreachable!()
}

/// Starts the worker that keeps the node's time. At each tick it applies Join, where the node has no neighbour and one
/// of its contacts is due (`Host::set_contacts`), then Flush, then Fire for each id whose timer is armed, and at every
/// tenth tick Shuffle. The dice of Shuffles, and of the Downs that follow any of these steps, are drawn from a
/// generator with this seed.
///
/// It ends when the ticker does, or at the first refusal; `Host::lacks_memory` tells whether memory was refused.
/// `Closed`: the node was stopped. `OutOfMemory`: an allocation is refused, or no thread can be made.
pub fn tick<R, C, A, G, T>(
    rt: R,
    host: &Host<C, A>,
    gate: G,
    number: usize,
    ticker: T,
    seed: u64,
) -> Result<Worker<A>, HostError>
where
    R: Threads + Wait + Copy + Send + 'static,
    C: NodeCore<A> + Drop + Send + 'static,
    A: Allocator + Copy + Send + Sync + 'static,
    G: Gate + Drop + Send + 'static,
    T: Ticker + Drop + Send + 'static,
{
    let steps = host.stepper(gate, number)?;
    let generator = Lcg128Xsl64::seed_from_u64(seed);
    let alloc = steps.shared.alloc;
    let worker = start(&rt, alloc, move || {
        let ended = make_ticks(&rt, &steps, ticker, generator);
        steps.shared.note_end(ended);
    })?;
    Ok(host.employ(worker))
}
