//! Extracts the trace of one run of a node from a group's log.
ghost use Rattle.std.specs.Prelude.{◌≡◌, ◌⊎◌, Some, None, IfOk, IfErr, OnOk, length, option_copied, reverse};
ghost use Rattle.world.specs.History.{started_by};
ghost use Rattle.world.specs.Plan.{stimulus_by};
ghost use Rattle.world.specs.Refusals.{sent_under};
ghost use Rattle.trace_merge.specs.Projection.{first_number, is_last, is_name, output_of, projection, projection_in};
ghost use Rattle.trace_merge.specs.Projection.{started_on, stepped_name, stepped_on, traced_on, with_step};

use crate::fault::ProjectFault;
use crate::outputs::output_of;
use frames::Frame;
use node_core::PlumCore;
use node_names::{Dice, Incarnation, NodeName, Origin};
use protocol::{Step, Stimulus, StimulusOf, Trace, Wire};
use std::alloc::{AllocError, Allocator};
use world::{Entry, EventOf, KeptEvent, Packet, World};

/// The packet that was sent with the number, if there is a number.
fn sent_under<N>(sent: &[Packet<N>], number: Option<usize>) -> Option<&Packet<N>>
    ensures { option_copied result ≡ sent_under sent.now number }
{
    sent.get(number?)
}

/// The name whose core an event steps, if it steps one.
fn stepped_name<N, A: Allocator>(sent: &[Packet<N>], entry: &Entry<A>) -> Option<NodeName>
    ensures { result ≡ stepped_name sent.now entry.now.event entry.now.packet }
{
    match &entry.event {
        EventOf::Broadcast { name, .. }
        | EventOf::Fire { name, .. }
        | EventOf::Flush { name }
        | EventOf::Down { name, .. }
        | EventOf::Shuffle { name, .. }
        | EventOf::Join { name, .. } => Some(*name),
        EventOf::Arrive { .. } => Some(sent_under(sent, entry.packet)?.to),
        _ => None,
    }
}

/// The stimulus that the arrival of a packet is to the core that it steps.
fn arrival<A: Allocator + Copy>(
    packet: &Packet<Frame<A>>,
    dice: Dice,
) -> Result<Stimulus<Frame<A>, A>, AllocError>
    ensures { IfOk result (λ told. told ≡ StimulusOf.Arrive packet.now.sender packet.now.note dice) }
{
    Ok(StimulusOf::Arrive {
        sender: packet.sender,
        note: packet.note.copy()?,
        dice,
    })
}

/// The stimulus that an event is to the core that it steps, if it steps one.
fn stimulus_of<A: Allocator + Copy>(
    sent: &[Packet<Frame<A>>],
    event: &KeptEvent<A>,
    number: Option<usize>,
) -> Result<Option<Stimulus<Frame<A>, A>>, AllocError>
    ensures { IfOk result (λ told. told ≡ stimulus_by sent.now event.now number) }
{
    Ok(match event {
        EventOf::Broadcast { payload, .. } => Some(StimulusOf::Broadcast(payload.clone()?)),
        EventOf::Arrive { dice, .. } => match sent_under(sent, number) {
            Some(packet) => Some(arrival(packet, dice.get())?),
            None => None,
        },
        EventOf::Fire { id, .. } => Some(StimulusOf::Fire(*id)),
        EventOf::Flush { .. } => Some(StimulusOf::Flush),
        EventOf::Down { peer, dice, .. } => Some(StimulusOf::Down {
            peer: *peer,
            dice: dice.get(),
        }),
        EventOf::Shuffle { dice, .. } => Some(StimulusOf::Shuffle(dice.get())),
        EventOf::Join { contact, .. } => Some(StimulusOf::Join(*contact)),
        _ => None,
    })
}

/// Whether a run was the last one that its name had started.
fn is_last(origin: &Origin, last: Option<Incarnation>) -> bool
    ensures { result ≡ is_last origin.now last }
{
    match last {
        Some(incarnation) => incarnation == origin.incarnation,
        None => false,
    }
}

/// Whether the other name, if there is one, is this name.
fn is_name(name: &NodeName, other: Option<NodeName>) -> bool
    ensures { result ≡ is_name name.now other }
{
    match other {
        Some(other) => *name == other,
        None => false,
    }
}

/// Adds a step to a trace, if the event makes one.
fn push_step<A: Allocator + Copy>(
    alloc: A,
    trace: &mut Trace<Frame<A>, A>,
    sent: &[Packet<Frame<A>>],
    entry: &Entry<A>,
    end: usize,
) -> Result<(), AllocError>
    ensures { OnOk result (trace.new ≡ with_step (stimulus_by sent.now entry.now.event entry.now.packet)
        (output_of entry.now end sent.now) trace.old) }
{
    let Some(stimulus) = stimulus_of(sent, &entry.event, entry.packet)? else {
        return Ok(());
    };
    let out = output_of(alloc, entry, end, sent)?;
    trace.push(Step { stimulus, out })
}

/// Adds the step that an event makes to the trace, if the event steps this run.
fn step_on<A: Allocator + Copy>(
    alloc: A,
    trace: &mut Option<Trace<Frame<A>, A>>,
    is_its: bool,
    sent: &[Packet<Frame<A>>],
    entry: &Entry<A>,
    end: usize,
) -> Result<(), AllocError>
    ensures { OnOk result (trace.new ≡ stepped_on is_its
        (stimulus_by sent.now entry.now.event entry.now.packet) (output_of entry.now end sent.now) trace.old) }
{
    if !is_its {
        return Ok(());
    }
    match trace {
        Some(trace) => push_step(alloc, trace, sent, entry, end),
        None => Ok(()),
    }
}

/// Begins a new trace if an event is the run's start.
fn start_on<A: Allocator + Copy>(
    alloc: A,
    trace: &mut Option<Trace<Frame<A>, A>>,
    origin: Origin,
    sent: &[Packet<Frame<A>>],
    entry: &Entry<A>,
    end: usize,
) -> Result<(), AllocError>
    ensures { OnOk result (trace.new ≡ started_on origin entry.now.event (output_of entry.now end sent.now) trace.old) }
{
    let EventOf::Start {
        name,
        incarnation,
        peers,
        contact,
    } = &entry.event
    else {
        return Ok(());
    };
    let started = Origin {
        name: *name,
        incarnation: *incarnation,
    };
    if origin == started {
        let opening = output_of(alloc, entry, end, sent)?;
        *trace = Some(Trace::new(alloc, origin, peers.copy()?, *contact, opening));
    }
    Ok(())
}

/// The incarnation that the name started last, after an event.
fn last_after<A: Allocator>(
    name: &NodeName,
    event: &KeptEvent<A>,
    last: Option<Incarnation>,
) -> Option<Incarnation>
    ensures { result ≡ started_by name.now event.now last }
{
    match event {
        EventOf::Start {
            name: started,
            incarnation,
            ..
        } if *name == *started => Some(*incarnation),
        _ => last,
    }
}

/// What has been found of a run so far.
#[derive(Drop)]
struct Found<A: Allocator> {
    origin: Origin,
    /// The incarnation that its name started last.
    last: Option<Incarnation>,
    trace: Option<Trace<Frame<A>, A>>,
}

impl<A: Allocator + Copy> Found<A> {
    /// Takes the next entry of the log, after which `end` packets have been sent.
    fn take(
        &mut self,
        alloc: A,
        sent: &[Packet<Frame<A>>],
        entry: &Entry<A>,
        end: usize,
    ) -> Result<(), AllocError>
        ensures origin { OnOk result (self.new.origin ≡ self.old.origin) }
        ensures last { OnOk result (self.new.last ≡ started_by self.old.origin.name entry.now.event self.old.last) }
        ensures trace { OnOk result
            (self.new.trace ≡ traced_on self.old.origin self.old.last sent.now entry.now end self.old.trace) }
    {
        let is_its = is_last(&self.origin, self.last)
            && is_name(&self.origin.name, stepped_name(sent, entry));
        step_on(alloc, &mut self.trace, is_its, sent, entry, end)?;
        start_on(alloc, &mut self.trace, self.origin, sent, entry, end)?;
        self.last = last_after(&self.origin.name, &entry.event, self.last);
        Ok(())
    }
}

/// The number of the next entry's first packet, or the number of all packets if there is no next entry.
fn first_number<A: Allocator>(all: usize, later: &[Entry<A>]) -> usize
    ensures { result ≡ first_number all later.now }
{
    match later.first() {
        Some(entry) => entry.first_sent,
        None => all,
    }
}

/// Finds the trace of the run in a log.
fn find<A: Allocator + Copy>(
    alloc: A,
    origin: Origin,
    sent: &[Packet<Frame<A>>],
    log: &[Entry<A>],
) -> Result<Option<Trace<Frame<A>, A>>, AllocError>
    ensures { IfOk result (λ trace. trace ≡ projection origin sent.now (length sent.now) (reverse log.now)) }
{
    let mut found = Found {
        origin,
        last: None,
        trace: None,
    };
    for (at, entry) in log.iter().enumerate() {
        let end = first_number(sent.len(), &log[at + 1..]);
        found.take(alloc, sent, entry, end)?;
    }
    let Found { trace, .. } = found;
    Ok(trace)
}

/// Returns what one run of a node did in a group: how it started, and each step with what it sent and delivered.
///
/// `UnknownOrigin`: the run was never started.
pub fn project<A: Allocator + Copy>(
    alloc: A,
    world: &World<PlumCore<A>, A>,
    origin: Origin,
) -> Result<Trace<Frame<A>, A>, ProjectFault>
    ensures ok { IfOk result (λ trace. projection_in origin world.now ≡ Some trace) }
    ensures refused { IfErr result (λ fault. (fault ≡ ProjectFault.OutOfMemory)
        ⊎ ((fault ≡ ProjectFault.UnknownOrigin) × (projection_in origin world.now ≡ None))) }
{
    match find(alloc, origin, world.sent(), world.log())? {
        Some(trace) => Ok(trace),
        None => Err(ProjectFault::UnknownOrigin),
    }
}
