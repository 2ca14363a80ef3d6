//! Writes one step of a run.
ghost use Rattle.std.specs.Prelude.{◌≡◌, ◌++◌, ◌∷◌, [], ℕ, List, IfOk, OnOk, string_bytes};
ghost use Rattle.std.specs.Io.KnownBytes.{Appends};
ghost use Rattle.node_core.specs.Plum.{plum_state};
ghost use Rattle.node_core.specs.Steps.{PlumStarts, PlumSteps};
ghost use Rattle.trace_text.specs.Step.{step_text};
ghost use Rattle.protocol.specs.Delivery.{Delivery};
ghost use Rattle.world.specs.Entry.{Entry};
ghost use Rattle.world.specs.Run.{Applied};
ghost use Rattle.simulation.specs.Traced.{label_text, TellsStep};

use crate::output::OutputError;
use node_core::PlumCore;
use std::alloc::{AllocError, Allocator};
use std::io::Write;
use trace_text::{Touched, push_step};
use world::{Event, EventOf, KeptEvent, World};

/// Plays an event in a group, and writes what it did in one write. `text` is a buffer for it.
pub fn write_step<A: Allocator + Copy, W: Write>(
    alloc: A,
    text: &mut String<A>,
    run: &mut World<PlumCore<A>, A>,
    place: usize,
    number: Option<usize>,
    event: &KeptEvent<A>,
    out: &mut W,
) -> Result<(), OutputError>
    ensures { OnOk result ((step : List ℕ)
        × TellsStep place event.now run.old run.new step
        × Appends (W.contents out.old) (W.contents out.new) step) }
{
    text.clear();
    push_played(alloc, text, run, place, number, event)?;
    Ok(out.write_all(text.as_bytes())?)
}

/// Plays an event in a group, and appends what it did.
fn push_played<A: Allocator + Copy>(
    alloc: A,
    text: &mut String<A>,
    run: &mut World<PlumCore<A>, A>,
    place: usize,
    number: Option<usize>,
    event: &KeptEvent<A>,
) -> Result<(), AllocError>
    ensures { OnOk result ((step : List ℕ)
        × TellsStep place event.now run.old run.new step
        × (string_bytes text.new ≡ string_bytes text.old ++ step)) }
{
    let event = copy_event(event)?;
    let before = Touched::new(alloc, run, &event)?;
    replay(run, &event)?;
    push_label(text, place, number)?;
    push_newest(alloc, text, &before, run)
}

/// Plays an event that a group with the same history took before, so that only an allocation can fail.
fn replay<A: Allocator + Copy>(
    run: &mut World<PlumCore<A>, A>,
    event: &Event<A>,
) -> Result<(), AllocError>
    ensures { OnOk result
        ((given : List Delivery) × Applied plum_state PlumStarts PlumSteps event.now given run.old run.new) }
{
    match run.play(event) {
        Ok(()) => Ok(()),
        Err(_) => Err(AllocError),
    }
}

/// Appends what the newest event of a group's log did, if there is one.
fn push_newest<A: Allocator + Copy>(
    alloc: A,
    text: &mut String<A>,
    before: &Touched<A>,
    run: &World<PlumCore<A>, A>,
) -> Result<(), AllocError>
    ensures { (older : List Entry) (entry : Entry)
        → run.now.log ≡ older ++ entry ∷ []
        → OnOk result (string_bytes text.new ≡ string_bytes text.old ++ step_text before.now run.now entry) }
{
    match run.log().last() {
        Some(entry) => push_step(alloc, text, before, run, entry),
        None => Ok(()),
    }
}

/// Appends the beginning of a step.
fn push_label<A: Allocator>(
    text: &mut String<A>,
    place: usize,
    number: Option<usize>,
) -> Result<(), AllocError>
    ensures { OnOk result (string_bytes text.new ≡ string_bytes text.old ++ label_text place number) }
{
    match number {
        Some(number) => write!(text, "step {place} event {number}: "),
        None => write!(text, "step {place}: "),
    }
}

/// Copies an event of a log, to play it.
fn copy_event<A: Allocator + Copy>(event: &KeptEvent<A>) -> Result<Event<A>, AllocError>
    ensures { IfOk result (λ copy. copy ≡ event.now) }
{
    // Events with dice come first: a log keeps dice in another form.
    Ok(match event {
        EventOf::Arrive { place, dice } => EventOf::Arrive {
            place: *place,
            dice: dice.get(),
        },
        EventOf::Down { name, peer, dice } => EventOf::Down {
            name: *name,
            peer: *peer,
            dice: dice.get(),
        },
        EventOf::Shuffle { name, dice } => EventOf::Shuffle {
            name: *name,
            dice: dice.get(),
        },
        EventOf::Broadcast { name, payload } => EventOf::Broadcast {
            name: *name,
            payload: payload.clone()?,
        },
        EventOf::Start {
            name,
            incarnation,
            peers,
            contact,
        } => EventOf::Start {
            name: *name,
            incarnation: *incarnation,
            peers: peers.copy()?,
            contact: *contact,
        },
        EventOf::Join { name, contact } => EventOf::Join {
            name: *name,
            contact: *contact,
        },
        EventOf::Lose { place } => EventOf::Lose { place: *place },
        EventOf::Again { number } => EventOf::Again { number: *number },
        EventOf::Fire { name, id } => EventOf::Fire {
            name: *name,
            id: *id,
        },
        EventOf::Flush { name } => EventOf::Flush { name: *name },
        EventOf::Stop { name } => EventOf::Stop { name: *name },
    })
}
