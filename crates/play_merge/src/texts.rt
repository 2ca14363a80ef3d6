//! Traces, and the runs into which they are merged, as text.
use crate::merge_layer::keep;
use frames::Frame;
use node_core::PlumCore;
use node_names::Origin;
use play_groups::events::{push_dice, push_event, push_peers};
use play_groups::texts::{push_deliveries, push_flight};
use play_script::bodies::push_body;
use play_script::layer::Outcome;
use play_script::lists::push_payload;
use protocol::{Out, Step, Stimulus, StimulusOf, Trace};
use std::alloc::{AllocError, Allocator, Global};
use std::fmt::Write;
use trace_merge::{MergeFault, project};
use world::{Event, World};

/// A group of Plumtree nodes.
pub(crate) type Group<A> = World<PlumCore<A>, A>;

/// The trace of a Plumtree node.
pub(crate) type PlumTrace<A> = Trace<Frame<A>, A>;

/// Appends the arrival of a frame.
fn push_arrival<A: Allocator>(
    text: &mut String,
    sender: &Origin,
    frame: &Frame<A>,
) -> Result<(), AllocError> {
    write!(text, "arrive {sender} {} ", frame.number())?;
    push_body(text, frame.body())
}

/// Appends what made a step.
fn push_stimulus<A: Allocator>(
    text: &mut String,
    stimulus: &Stimulus<Frame<A>, A>,
) -> Result<(), AllocError> {
    match stimulus {
        StimulusOf::Broadcast(payload) => {
            text.push_str("broadcast ")?;
            push_payload(text, payload.as_slice())
        }
        StimulusOf::Arrive { sender, note, dice } => {
            push_arrival(text, sender, note)?;
            push_dice(text, dice)
        }
        StimulusOf::Fire(id) => write!(text, "fire {id}"),
        StimulusOf::Flush => text.push_str("flush"),
        StimulusOf::Down { peer, dice } => {
            write!(text, "down {peer}")?;
            push_dice(text, dice)
        }
        StimulusOf::Shuffle(dice) => {
            text.push_str("shuffle")?;
            push_dice(text, dice)
        }
        StimulusOf::Join(contact) => write!(text, "join {contact}"),
    }
}

/// Appends what was delivered and sent.
fn push_out<A: Allocator>(text: &mut String, out: &Out<Frame<A>, A>) -> Result<(), AllocError> {
    push_deliveries(text, out.deliveries.as_slice())?;
    for (to, frame) in out.sends.as_slice() {
        write!(text, "to {to}: #{} ", frame.number())?;
        push_body(text, frame.body())?;
        text.push('\n')?;
    }
    Ok(())
}

/// Appends the step at a place: what made it, and what it delivered and sent.
fn push_step<A: Allocator>(
    text: &mut String,
    at: usize,
    step: &Step<Frame<A>, A>,
) -> Result<(), AllocError> {
    write!(text, "step {at}: ")?;
    push_stimulus(text, &step.stimulus)?;
    text.push('\n')?;
    push_out(text, &step.out)
}

/// Appends a trace: how the run started, and each of its steps.
pub(crate) fn push_trace<A: Allocator>(
    text: &mut String,
    trace: &PlumTrace<A>,
) -> Result<(), AllocError> {
    write!(text, "start {}", trace.origin())?;
    push_peers(text, trace.peers(), &trace.contact())?;
    text.push('\n')?;
    push_out(text, trace.opening())?;
    for at in 0..trace.len() {
        if let Some(step) = trace.step(at) {
            push_step(text, at, step)?;
        }
    }
    Ok(())
}

/// Returns whether a group has this trace of its run.
fn has_trace<A: Allocator + Copy>(
    alloc: A,
    own: Global,
    group: &Group<A>,
    trace: &PlumTrace<A>,
) -> Result<bool, AllocError> {
    let mut found = Vec::new(alloc);
    keep(&mut found, project(alloc, group, trace.origin()))?;
    let mut wanted = String::new(own);
    push_trace(&mut wanted, trace)?;
    let mut told = String::new(own);
    for trace in &found {
        push_trace(&mut told, trace)?;
    }
    Ok(wanted == told)
}

/// Plays events in a group, and appends them and what is then in flight.
fn replay<A: Allocator + Copy>(
    group: &mut Group<A>,
    events: &[Event<A>],
    said: &mut String,
) -> Result<(), AllocError> {
    for event in events {
        if let Err(why) = group.play(event) {
            writeln!(said, "{why}")?;
        }
    }
    for entry in group.log() {
        push_event(said, &entry.event)?;
        said.push('\n')?;
    }
    push_flight(said, group)
}

/// Says the events into which traces are merged and what is in flight after them, or why they are not merged. The
/// events are played in a group without nodes, which has to have the same traces then: any other is told.
pub(crate) fn say_merged<A: Allocator + Copy>(
    alloc: A,
    own: Global,
    group: &mut Group<A>,
    traces: &[PlumTrace<A>],
    answer: Result<Vec<Event<A>, A>, MergeFault>,
    said: &mut String,
) -> Result<Outcome, AllocError> {
    match answer {
        Ok(events) => replay(group, events.as_slice(), said)?,
        Err(MergeFault::OutOfMemory) => return Ok(Outcome::NoMemory),
        Err(fault) => {
            writeln!(said, "{fault}")?;
            return Ok(Outcome::Done);
        }
    }
    for trace in traces {
        if !has_trace(alloc, own, group, trace)? {
            writeln!(said, "the run has another trace of {}", trace.origin())?;
        }
    }
    Ok(Outcome::Done)
}
