//! A group as text: its nodes, packets and log.
use crate::cores::Played;
use crate::events::push_event;
use at_rest::is_at_rest;
use node_names::{MsgId, NodeName};
use play_script::lists::{push_ids, push_names, push_payload};
use protocol::{Core, Delivery, Out};
use std::alloc::{AllocError, Allocator};
use std::fmt::Write;
use world::{Entry, NodeState, Packet, World};

/// Appends names behind a heading, if there are any.
fn push_name_part(text: &mut String, heading: &str, names: &[NodeName]) -> Result<(), AllocError> {
    if names.is_empty() {
        return Ok(());
    }
    write!(text, " | {heading}:")?;
    push_names(text, names)
}

/// Appends the ids of messages that are held, if there are any.
fn push_held(text: &mut String, held: &[MsgId]) -> Result<(), AllocError> {
    if held.is_empty() {
        return Ok(());
    }
    text.push_str(" | held:")?;
    push_ids(text, held)
}

/// Appends the announcements that wait to be sent, if there are any.
fn push_queued(text: &mut String, queued: &[(NodeName, MsgId, u32)]) -> Result<(), AllocError> {
    let mut before = " | queued:";
    for (peer, id, round) in queued {
        write!(text, "{before} {id} {round} for {peer}")?;
        before = ",";
    }
    Ok(())
}

/// Appends the announcements of messages that are missing, if there are any.
fn push_wanted(
    text: &mut String,
    wants: &[Option<(MsgId, NodeName, u32)>],
) -> Result<(), AllocError> {
    let mut before = " | wanted:";
    for want in wants {
        if let Some((id, peer, round)) = want {
            write!(text, "{before} {id} {round} from {peer}")?;
            before = ",";
        }
    }
    Ok(())
}

/// Appends the ids whose timers are armed, if there are any.
fn push_armed(text: &mut String, timers: &[Option<MsgId>]) -> Result<(), AllocError> {
    let mut before = " | armed:";
    for timer in timers {
        if let Some(id) = timer {
            write!(text, "{before} {id}")?;
            before = "";
        }
    }
    Ok(())
}

/// Appends what every core shows: its run, its views, what it holds, and what waits at it.
pub fn push_core<C: Core<A>, A: Allocator>(text: &mut String, core: &C) -> Result<(), AllocError> {
    write!(text, "{}", core.me())?;
    push_name_part(text, "active", core.active().as_slice())?;
    push_name_part(text, "passive", core.passive().as_slice())?;
    push_held(text, core.held())?;
    push_queued(text, core.queued())?;
    push_wanted(text, core.wants())?;
    push_armed(text, core.timers())
}

/// Appends whether a core knows a message, and the payload that it holds of it.
pub fn push_known<C: Core<A>, A: Allocator>(
    text: &mut String,
    core: &C,
    id: &MsgId,
) -> Result<(), AllocError> {
    if !core.has(id) {
        return Ok(());
    }
    write!(text, "{} knows {id}", core.me())?;
    match core.payload(id) {
        Some(payload) => {
            text.push_str(" with ")?;
            push_payload(text, payload.as_slice())?;
        }
        None => text.push_str(" without its payload")?,
    }
    text.push('\n')
}

/// Appends a node.
fn push_node<C: Core<A>, A: Allocator>(
    text: &mut String,
    node: &NodeState<C>,
) -> Result<(), AllocError> {
    match &node.core {
        Some(core) => {
            text.push_str("node ")?;
            push_core(text, core)?;
            text.push('\n')
        }
        None => writeln!(text, "node {}/{} stopped", node.name, node.highest),
    }
}

/// Appends numbers behind a heading, if there are any.
fn push_numbers(text: &mut String, heading: &str, numbers: &[usize]) -> Result<(), AllocError> {
    if numbers.is_empty() {
        return Ok(());
    }
    text.push_str(heading)?;
    for number in numbers {
        write!(text, " {number}")?;
    }
    text.push('\n')
}

/// Appends the numbers of the packets in flight.
pub fn push_flight<C: Core<A>, A: Allocator + Copy>(
    text: &mut String,
    group: &World<C, A>,
) -> Result<(), AllocError> {
    push_numbers(text, "flight:", group.flight())
}

/// Appends those of the deliveries that are of broadcasts for which a group is not at rest. `is_any` says whether one
/// stands before them. Returns whether one stands there now.
fn push_restless<C: Core<A>, A: Allocator + Copy>(
    text: &mut String,
    group: &World<C, A>,
    given: &[Delivery<A>],
    is_any: bool,
) -> Result<bool, AllocError> {
    let mut is_any = is_any;
    for delivery in given {
        if delivery.node == delivery.id.origin && !is_at_rest(group, &delivery.id) {
            let mark = if is_any { "" } else { "unrest:" };
            write!(text, "{mark} {}", delivery.id)?;
            is_any = true;
        }
    }
    Ok(is_any)
}

/// Appends the messages for which a group is not at rest, of those that its nodes broadcast.
fn push_unrest<C: Core<A>, A: Allocator + Copy>(
    text: &mut String,
    group: &World<C, A>,
) -> Result<(), AllocError> {
    let mut is_any = false;
    for entry in group.log() {
        is_any = push_restless(text, group, entry.given.as_slice(), is_any)?;
    }
    if is_any {
        text.push('\n')?;
    }
    Ok(())
}

/// Appends a group: its nodes, the packets in flight, the messages for which it is not at rest, and how many packets
/// and events there were.
pub fn push_group<C: Core<A>, A: Allocator + Copy>(
    text: &mut String,
    group: &World<C, A>,
) -> Result<(), AllocError> {
    for node in group.nodes() {
        push_node(text, node)?;
    }
    push_flight(text, group)?;
    push_unrest(text, group)?;
    if !group.sent().is_empty() {
        writeln!(text, "packets: {}", group.sent().len())?;
    }
    if !group.log().is_empty() {
        writeln!(text, "events: {}", group.log().len())?;
    }
    Ok(())
}

/// Appends a delivery.
pub fn push_delivery<A: Allocator>(
    text: &mut String,
    delivery: &Delivery<A>,
) -> Result<(), AllocError> {
    write!(text, "deliver {} {} ", delivery.node, delivery.id)?;
    push_payload(text, delivery.payload.as_slice())?;
    text.push('\n')
}

/// Appends deliveries, a line for each.
pub fn push_deliveries<A: Allocator>(
    text: &mut String,
    deliveries: &[Delivery<A>],
) -> Result<(), AllocError> {
    for delivery in deliveries {
        push_delivery(text, delivery)?;
    }
    Ok(())
}

/// Appends a packet.
fn push_packet<C: Played<A>, A: Allocator>(
    text: &mut String,
    number: usize,
    packet: &Packet<C::Note>,
) -> Result<(), AllocError> {
    write!(text, "packet {number} {} to {}: ", packet.sender, packet.to)?;
    C::push_note(text, &packet.note)?;
    text.push('\n')
}

/// Appends the packets that were sent, from number `first` on.
pub fn push_packets<C: Played<A>, A: Allocator + Copy>(
    text: &mut String,
    group: &World<C, A>,
    first: usize,
) -> Result<(), AllocError> {
    for (number, packet) in group.sent().iter().enumerate() {
        if number >= first {
            push_packet::<C, A>(text, number, packet)?;
        }
    }
    Ok(())
}

/// Appends the numbers of the packets that an event sent, if it sent any. `end` is the number of the next one.
fn push_range(text: &mut String, first: usize, end: usize) -> Result<(), AllocError> {
    if first < end {
        text.push_str(" | sends")?;
    }
    for number in first..end {
        write!(text, " {number}")?;
    }
    Ok(())
}

/// Appends the entry at place `at` of a log, and its deliveries. `end` is the number of the packet that comes after its
/// own.
fn push_entry<A: Allocator>(
    text: &mut String,
    at: usize,
    entry: &Entry<A>,
    end: usize,
) -> Result<(), AllocError> {
    write!(text, "event {at}: ")?;
    push_event(text, &entry.event)?;
    if let Some(number) = entry.packet {
        write!(text, " | packet {number}")?;
    }
    push_range(text, entry.first_sent, end)?;
    if entry.moved {
        text.push_str(" | moves an active view")?;
    }
    text.push('\n')?;
    push_deliveries(text, entry.given.as_slice())
}

/// Appends the entries of a group's log from place `first` on.
pub fn push_log<C: Core<A>, A: Allocator + Copy>(
    text: &mut String,
    group: &World<C, A>,
    first: usize,
) -> Result<(), AllocError> {
    let log = group.log();
    for (at, entry) in log.iter().enumerate() {
        if at >= first {
            let end = match log.get(at.saturating_add(1)) {
                Some(next) => next.first_sent,
                None => group.sent().len(),
            };
            push_entry(text, at, entry, end)?;
        }
    }
    Ok(())
}

/// Appends the packets of an output from place `sent` on, and its deliveries from place `delivered` on.
pub fn push_out<C: Played<A>, A: Allocator>(
    text: &mut String,
    out: &Out<C::Note, A>,
    sent: usize,
    delivered: usize,
) -> Result<(), AllocError> {
    for delivery in out.deliveries.as_slice().iter().skip(delivered) {
        push_delivery(text, delivery)?;
    }
    for (to, note) in out.sends.as_slice().iter().skip(sent) {
        write!(text, "to {to}: ")?;
        C::push_note(text, note)?;
        text.push('\n')?;
    }
    Ok(())
}
