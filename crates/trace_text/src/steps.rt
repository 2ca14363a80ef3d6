//! Prints a step of a run: an event and its effects.
ghost use Rattle.std.specs.Prelude.{◌≡◌, ◌++◌, OnOk, Some, string_bytes};
ghost use Rattle.world.specs.Group.{core_of};
ghost use Rattle.trace_text.specs.Step.{change_line, change_under, delivery_line, delivery_lines};
ghost use Rattle.trace_text.specs.Step.{flight_item, flight_items, flight_line, line_of_changes, step_text};

use crate::events::push_event;
use crate::names::{push_id, push_origin};
use crate::packets::push_sent;
use crate::touched::{Touched, touched_by};
use node_core::PlumCore;
use node_names::{NodeName, Origin};
use protocol::{Core, Delivery};
use std::alloc::{AllocError, Allocator};
use world::{Entry, World};

/// Appends the lines of an event: the event in words, each delivery, each packet that it sent, what changed at the node
/// that it touched, and the packets in flight after it. `before` are the parts of that node before the event.
pub fn push_step<A: Allocator + Copy>(
    alloc: A,
    text: &mut String<A>,
    before: &Touched<A>,
    after: &World<PlumCore<A>, A>,
    entry: &Entry<A>,
) -> Result<(), AllocError>
    ensures { OnOk result (string_bytes text.new ≡ string_bytes text.old ++ step_text before.now after.now entry.now) }
{
    let name = touched_by(after.sent(), entry.packet, &entry.event);
    push_event(text, after.sent(), entry)?;
    push_deliveries(text, entry.given.as_slice())?;
    push_sent(text, entry.first_sent, after.sent())?;
    push_change_under(alloc, text, before, after, &name)?;
    push_flight(text, after.flight())
}

/// Appends the lines of deliveries.
fn push_deliveries<A: Allocator>(
    text: &mut String<A>,
    given: &[Delivery<A>],
) -> Result<(), AllocError>
    ensures { OnOk result (string_bytes text.new ≡ string_bytes text.old ++ delivery_lines given.now) }
{
    for delivery in given {
        push_delivery(text, delivery)?;
    }
    Ok(())
}

/// Appends the line of a delivery.
fn push_delivery<A: Allocator>(
    text: &mut String<A>,
    delivery: &Delivery<A>,
) -> Result<(), AllocError>
    ensures { OnOk result (string_bytes text.new ≡ string_bytes text.old ++ delivery_line delivery.now) }
{
    let length = delivery.payload.len();
    text.push_str("  deliver ")?;
    push_origin(text, &delivery.node)?;
    text.push(' ')?;
    push_id(text, &delivery.id)?;
    write!(text, " length {length}\n")
}

/// Appends the line of what changed at the node of this name since its state was `before`, if there is a name.
fn push_change_under<A: Allocator + Copy>(
    alloc: A,
    text: &mut String<A>,
    before: &Touched<A>,
    after: &World<PlumCore<A>, A>,
    name: &Option<NodeName>,
) -> Result<(), AllocError>
    ensures { OnOk result
        (string_bytes text.new ≡ string_bytes text.old ++ change_under before.now name.now after.now.group.nodes) }
{
    match name {
        Some(name) => push_change_at(alloc, text, before, after, name),
        None => Ok(()),
    }
}

/// Appends the line of what changed at the node of this name since its state was `before`, if the node runs.
fn push_change_at<A: Allocator + Copy>(
    alloc: A,
    text: &mut String<A>,
    before: &Touched<A>,
    after: &World<PlumCore<A>, A>,
    name: &NodeName,
) -> Result<(), AllocError>
    ensures { OnOk result (string_bytes text.new
        ≡ string_bytes text.old ++ change_line before.now (core_of name.now after.now.group.nodes)) }
{
    match after.core(name) {
        Some(core) => push_change(alloc, text, before, core),
        None => Ok(()),
    }
}

/// Appends the line of what changed at a running node since its state was `before`.
fn push_change<A: Allocator + Copy>(
    alloc: A,
    text: &mut String<A>,
    before: &Touched<A>,
    core: &PlumCore<A>,
) -> Result<(), AllocError>
    ensures { OnOk result (string_bytes text.new ≡ string_bytes text.old ++ change_line before.now (Some core.now)) }
{
    let after = Touched::of_core(alloc, core)?;
    let mut changes = String::new(alloc);
    before.push_changes(&after, &mut changes)?;
    push_changes(text, &core.me(), changes.as_str())
}

/// Appends the line of the changes of a run of a node, if there are any.
fn push_changes<A: Allocator>(
    text: &mut String<A>,
    node: &Origin,
    changes: &str,
) -> Result<(), AllocError>
    ensures { OnOk result (string_bytes text.new ≡ string_bytes text.old ++ line_of_changes node.now changes.now) }
{
    if changes.is_empty() {
        return Ok(());
    }
    text.push_str("  ")?;
    push_origin(text, node)?;
    text.push_str(changes)?;
    text.push('\n')
}

/// Appends the line of the packets in flight, if there are any.
fn push_flight<A: Allocator>(text: &mut String<A>, flight: &[usize]) -> Result<(), AllocError>
    ensures { OnOk result (string_bytes text.new ≡ string_bytes text.old ++ flight_line flight.now) }
{
    if flight.is_empty() {
        return Ok(());
    }
    text.push_str("  flight")?;
    push_flight_items(text, flight)?;
    text.push('\n')
}

/// Appends each place in flight, and the number of the packet in that place.
fn push_flight_items<A: Allocator>(text: &mut String<A>, flight: &[usize]) -> Result<(), AllocError>
    ensures { OnOk result (string_bytes text.new ≡ string_bytes text.old ++ flight_items 0 flight.now) }
{
    for place in 0..flight.len() {
        push_flight_item(text, place, flight[place])?;
    }
    Ok(())
}

/// Appends a place in flight, and the number of the packet in that place.
fn push_flight_item<A: Allocator>(
    text: &mut String<A>,
    place: usize,
    number: usize,
) -> Result<(), AllocError>
    ensures { OnOk result (string_bytes text.new ≡ string_bytes text.old ++ flight_item place number) }
{
    write!(text, " {place}:{number}")
}
