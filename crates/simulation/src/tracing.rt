//! Writes the trace of a run: each step with what it sent, delivered and changed, and the group's state at the end.
ghost use Rattle.std.specs.Prelude.{ℕ, List, length, IfOk, OnOk};
ghost use Rattle.std.specs.Io.KnownBytes.{Appends};
ghost use Rattle.simulation.specs.Traced.{TellsGroup, TellsSteps};

mod ending;
mod step;
mod stop;

use crate::output::OutputError;
use ending::write_ending;
use node_core::PlumCore;
use std::alloc::Allocator;
use std::io::Write;
use step::write_step;
pub use stop::Stop;
use world::World;

/// The initial capacity for the text of a step; most steps are shorter.
const STEP_ROOM: usize = 4_096;

/// Writes what each event of a group's log did, why the run ended early, if it did, and the state of the group at the
/// end. `begun` says how many events there were when each event of the scenario began.
pub fn write_trace<A: Allocator + Copy, W: Write>(
    alloc: A,
    group: &World<PlumCore<A>, A>,
    begun: &[usize],
    stop: &Stop<'_>,
    out: &mut W,
) -> Result<(), OutputError>
    ensures { OnOk result (TellsGroup group.now (W.contents out.old) (W.contents out.new)) }
{
    let mut text = String::with_capacity(alloc, STEP_ROOM)?;
    let run = write_steps(alloc, &mut text, group, begun, out)?;
    write_ending(alloc, &mut text, &run, stop, out)
}

/// Writes what each event of a group's log did, and returns the group after them. The events are replayed, to see the
/// group before and after each, of which the log keeps neither. So a step costs twice what the parts of its node are
/// long, also where a long one is left alone, as the queue of a group that never flushes. `text` is a buffer for a
/// step.
fn write_steps<A: Allocator + Copy, W: Write>(
    alloc: A,
    text: &mut String<A>,
    group: &World<PlumCore<A>, A>,
    begun: &[usize],
    out: &mut W,
) -> Result<World<PlumCore<A>, A>, OutputError>
    ensures { IfOk result (λ run. (steps : List ℕ)
        × TellsSteps group.now.limits group.now.log (length group.now.log) run steps
        × Appends (W.contents out.old) (W.contents out.new) steps) }
{
    let mut run = World::new(alloc, group.limits());
    for (place, entry) in group.log().iter().enumerate() {
        let number = number_of(begun, place);
        write_step(alloc, text, &mut run, place, number, &entry.event, out)?;
    }
    Ok(run)
}

/// The event of the scenario that the step at this place belongs to: the last one that had begun by then.
fn number_of(begun: &[usize], place: usize) -> Option<usize> {
    begun
        .partition_point(|first| *first <= place)
        .checked_sub(1)
}
