//! Prints why a run ended early.
ghost use Rattle.std.specs.Prelude.{◌≡◌, ◌++◌, ℕ, List, OnOk, string_bytes};

use crate::play::{MAX_ARRIVALS, PlayError};
use node_core::PlumCore;
use scenario::{Action, event_line};
use std::alloc::{AllocError, Allocator};
use world::{World, WorldError};

/// What a run was supposed to do, and why it ended early, if it did.
#[derive(Clone, Copy)]
pub struct Stop<'a> {
    /// The scenario's text.
    pub source: &'a [u8],
    /// The actions of the scenario.
    pub actions: &'a [Action],
    /// Why the run ended before all actions were played, if it did.
    pub fault: Option<PlayError>,
}

impl Stop<'_> {
    /// A run that did not end early.
    pub fn none() -> Stop<'static> {
        Stop {
            source: &[],
            actions: &[],
            fault: None,
        }
    }
}

/// Appends which event of the scenario was not played to its end, its line in the file if known, and why. Appends
/// nothing if the run did not end early or memory ran out.
pub fn push_stop<A: Allocator + Copy>(
    text: &mut String<A>,
    group: &World<PlumCore<A>, A>,
    stop: &Stop<'_>,
) -> Result<(), AllocError>
    ensures { OnOk result ((told : List ℕ) × (string_bytes text.new ≡ string_bytes text.old ++ told)) }
{
    match stop.fault {
        Some(PlayError::Refused { event, code }) => {
            push_event(text, stop, event)?;
            push_refusal(text, group.flight().len(), group.sent().len(), code.0)
        }
        Some(PlayError::NoEnd { event }) => {
            let flying = group.flight().len();
            push_event(text, stop, event)?;
            write!(
                text,
                "{flying} packets are in flight after {MAX_ARRIVALS} arrivals\n"
            )
        }
        Some(PlayError::Unsettled { event, code }) => {
            let why = code.0;
            push_event(text, stop, event)?;
            write!(text, "{why}\n")
        }
        Some(PlayError::Idle { event, why }) => {
            push_event(text, stop, event)?;
            text.push_str(why.words())?;
            text.push('\n')
        }
        Some(PlayError::OutOfMemory) | None => Ok(()),
    }
}

/// Appends the number of an event, its line in the file if that is known, and what it was to do.
fn push_event<A: Allocator>(
    text: &mut String<A>,
    stop: &Stop<'_>,
    event: usize,
) -> Result<(), AllocError>
    ensures { OnOk result ((told : List ℕ) × (string_bytes text.new ≡ string_bytes text.old ++ told)) }
{
    write!(text, "stopped at event {event}")?;
    if let Some(line) = event_line(stop.source, stop.actions.len(), event) {
        write!(text, ", line {line}")?;
    }
    text.push_str(": ")?;
    match stop.actions.get(event) {
        Some(action) => push_action(text, action),
        None => Ok(()),
    }
}

/// Appends what an action was to do.
fn push_action<A: Allocator>(text: &mut String<A>, action: &Action) -> Result<(), AllocError>
    ensures { OnOk result ((told : List ℕ) × (string_bytes text.new ≡ string_bytes text.old ++ told)) }
{
    match action {
        Action::Start {
            node,
            incarnation,
            ..
        } => {
            let number = incarnation.0;
            write!(text, "start {node}/{number}: ")
        }
        Action::Broadcast { node, text: said } => {
            let length = said.len();
            write!(text, "broadcast by {node} length {length}: ")
        }
        Action::Arrive { place } => write!(text, "arrive place {place}: "),
        Action::Lose { place } => write!(text, "lose place {place}: "),
        Action::Again { number } => write!(text, "again number {number}: "),
        Action::Fire { node, id } => write!(text, "fire {node} {id}: "),
        Action::Flush { node } => write!(text, "flush {node}: "),
        Action::Shuffle { node } => write!(text, "shuffle {node}: "),
        Action::Join { node, contact } => write!(text, "join {node} {contact}: "),
        Action::Down { node, peer } => write!(text, "down {node} {peer}: "),
        Action::Stop { node } => write!(text, "stop {node}: "),
        Action::ArriveAll => text.push_str("arrive_all: "),
        Action::Settle => text.push_str("settle: "),
    }
}

/// Appends why a group refused an event. `flying` packets are in flight in the group, and `sent` were sent.
fn push_refusal<A: Allocator>(
    text: &mut String<A>,
    flying: usize,
    sent: usize,
    why: WorldError,
) -> Result<(), AllocError>
    ensures { OnOk result ((told : List ℕ) × (string_bytes text.new ≡ string_bytes text.old ++ told)) }
{
    match why {
        WorldError::NoPacket => write!(
            text,
            "there is no such packet, {flying} are in flight and {sent} were sent\n"
        ),
        why => write!(text, "{why}\n"),
    }
}
