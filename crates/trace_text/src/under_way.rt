//! What is under way about each message at the end of a run, collected for all messages in one pass over the group.
ghost use Rattle.std.specs.Prelude.{◌≡◌, ◌++◌, ◌&&◌, [], codes, not, IfOk, OnOk, string_bytes, if◌then◌else◌};
ghost use Rattle.node_names.specs.Ids.{origin_text};
ghost use Rattle.node_names.specs.Same.{same_id};
ghost use Rattle.node_names.specs.Slots.{somes};
ghost use Rattle.node_names.specs.declared.ids.MsgId.{MsgId};
ghost use Rattle.world.specs.Group.{origin_of};
ghost use Rattle.frames.specs.Content.{frame_content};
ghost use Rattle.at_rest.specs.Silence.{is_announced, is_silent};
ghost use Rattle.trace_text.specs.Collected.{text_at};
ghost use Rattle.trace_text.specs.Ends.{flying_at, flying_line, flying_lines, in_flight_line};
ghost use Rattle.trace_text.specs.Ends.{queued_at, queued_by, queued_line, queued_lines, timer_line};
ghost use Rattle.trace_text.specs.Ends.{timer_lines, timers_at, timers_by, under_way_lines};

use crate::collected::{Texts, append};
use crate::names::{push_end, push_origin};
use crate::nodes::run_of;
use crate::packets::push_packet;
use frames::{BodyOf, Frame};
use indexmap::IndexMap;
use node_core::PlumCore;
use node_names::{MsgId, NodeName, Origin};
use protocol::Core;
use std::alloc::{AllocError, Allocator};
use world::{NodeState, Packet, World};

/// Collects the lines of what is under way about each message: packets in flight, queued announcements and timers.
pub fn under_way<A: Allocator + Copy>(
    alloc: A,
    world: &World<PlumCore<A>, A>,
) -> Result<Texts<A>, AllocError>
    ensures { IfOk result (λ texts. (id : MsgId) → text_at id texts.entries ≡ under_way_lines world.now id) }
{
    let mut texts = IndexMap::new(alloc);
    add_flying(alloc, &mut texts, world.sent(), world.flight())?;
    add_queued(alloc, &mut texts, world.nodes())?;
    add_timers(alloc, &mut texts, world.nodes())?;
    Ok(texts)
}

/// Adds the lines of the packets in flight to the messages that they are about.
fn add_flying<A: Allocator + Copy>(
    alloc: A,
    texts: &mut Texts<A>,
    sent: &[Packet<Frame<A>>],
    flight: &[usize],
) -> Result<(), AllocError>
    ensures { OnOk result ((id : MsgId)
        → text_at id texts.new.entries ≡ text_at id texts.old.entries ++ flying_lines id sent.now flight.now) }
{
    for place in flight {
        add_flying_at(alloc, texts, sent, *place)?;
    }
    Ok(())
}

/// Adds the line of the packet at this place among all packets ever sent, if there is one, to the messages that it is
/// about.
fn add_flying_at<A: Allocator + Copy>(
    alloc: A,
    texts: &mut Texts<A>,
    sent: &[Packet<Frame<A>>],
    place: usize,
) -> Result<(), AllocError>
    ensures { OnOk result
        ((id : MsgId) → text_at id texts.new.entries ≡ text_at id texts.old.entries ++ flying_at id sent.now place) }
{
    match sent.get(place) {
        Some(packet) => add_packet(alloc, texts, place, packet),
        None => Ok(()),
    }
}

/// Adds the line of a packet to the messages that it is about.
fn add_packet<A: Allocator + Copy>(
    alloc: A,
    texts: &mut Texts<A>,
    place: usize,
    packet: &Packet<Frame<A>>,
) -> Result<(), AllocError>
    ensures { OnOk result ((id : MsgId)
        → text_at id texts.new.entries ≡ text_at id texts.old.entries ++ flying_line id place packet.now) }
{
    let mut line = String::new(alloc);
    push_in_flight(&mut line, place, packet)?;
    add_line(texts, &packet.note, line.as_str())
}

/// Appends the line of a packet in flight.
fn push_in_flight<A: Allocator>(
    text: &mut String<A>,
    place: usize,
    packet: &Packet<Frame<A>>,
) -> Result<(), AllocError>
    ensures { OnOk result (string_bytes text.new ≡ string_bytes text.old ++ in_flight_line place packet.now) }
{
    text.push_str("  in flight ")?;
    push_packet(text, place, packet)?;
    push_end(text)
}

/// Adds a line to each message that a frame carries, announces or asks for.
fn add_line<A: Allocator + Copy>(
    texts: &mut Texts<A>,
    note: &Frame<A>,
    line: &str,
) -> Result<(), AllocError>
    ensures { OnOk result ((id : MsgId) → text_at id texts.new.entries
        ≡ text_at id texts.old.entries ++ (if is_silent id (frame_content note.now) then [] else line.now)) }
{
    match note.body() {
        BodyOf::Gossip { id, .. } => append(texts, id, line),
        BodyOf::IHave { entries } => add_announced(texts, entries.as_slice(), line),
        BodyOf::Graft { id, .. } => append(texts, id, line),
        _ => Ok(()),
    }
}

/// Adds a line to each message that is announced, once.
fn add_announced<A: Allocator + Copy>(
    texts: &mut Texts<A>,
    entries: &[(MsgId, u32)],
    line: &str,
) -> Result<(), AllocError>
    ensures { OnOk result ((id : MsgId) → text_at id texts.new.entries
        ≡ text_at id texts.old.entries ++ (if is_announced id entries.now then line.now else [])) }
{
    for place in 0..entries.len() {
        add_first(texts, &entries[..place], &entries[place].0, line)?;
    }
    Ok(())
}

/// Adds a line to a message, unless it is announced before.
fn add_first<A: Allocator + Copy>(
    texts: &mut Texts<A>,
    before: &[(MsgId, u32)],
    id: &MsgId,
    line: &str,
) -> Result<(), AllocError>
    ensures { OnOk result ((q : MsgId) → text_at q texts.new.entries ≡ text_at q texts.old.entries
        ++ (if same_id q id.now && not (is_announced q before.now) then line.now else [])) }
{
    if is_announced(before, id) {
        return Ok(());
    }
    append(texts, id, line)
}

/// Whether one of the announcements is of the message.
fn is_announced(announced: &[(MsgId, u32)], id: &MsgId) -> bool
    ensures { result ≡ is_announced id.now announced.now }
{
    announced.iter().any(|entry| *id == entry.0)
}

/// Adds the lines of the announcements that nodes have queued.
fn add_queued<A: Allocator + Copy>(
    alloc: A,
    texts: &mut Texts<A>,
    nodes: &[NodeState<PlumCore<A>>],
) -> Result<(), AllocError>
    ensures { OnOk result
        ((id : MsgId) → text_at id texts.new.entries ≡ text_at id texts.old.entries ++ queued_lines id nodes.now) }
{
    for node in nodes {
        add_queued_at(alloc, texts, node)?;
    }
    Ok(())
}

/// Adds the lines of the announcements that a node has queued, if it runs.
fn add_queued_at<A: Allocator + Copy>(
    alloc: A,
    texts: &mut Texts<A>,
    node: &NodeState<PlumCore<A>>,
) -> Result<(), AllocError>
    ensures { OnOk result ((id : MsgId) → text_at id texts.new.entries
        ≡ text_at id texts.old.entries ++ queued_at id (origin_of node.now) node.now.core) }
{
    let run = run_of(node);
    match &node.core {
        Some(core) => add_queued_by(alloc, texts, &run, core.queued()),
        None => Ok(()),
    }
}

/// Adds the lines of the announcements queued by a run of a node.
fn add_queued_by<A: Allocator + Copy>(
    alloc: A,
    texts: &mut Texts<A>,
    node: &Origin,
    queued: &[(NodeName, MsgId, u32)],
) -> Result<(), AllocError>
    ensures { OnOk result ((id : MsgId)
        → text_at id texts.new.entries ≡ text_at id texts.old.entries ++ queued_by id node.now queued.now) }
{
    for entry in queued {
        add_queued_entry(alloc, texts, node, entry)?;
    }
    Ok(())
}

/// Adds the line of an announcement that a run of a node has queued.
fn add_queued_entry<A: Allocator + Copy>(
    alloc: A,
    texts: &mut Texts<A>,
    node: &Origin,
    entry: &(NodeName, MsgId, u32),
) -> Result<(), AllocError>
    ensures { OnOk result ((id : MsgId)
        → text_at id texts.new.entries ≡ text_at id texts.old.entries ++ queued_line id node.now entry.now) }
{
    let mut line = String::new(alloc);
    push_queued(&mut line, node, &entry.0)?;
    append(texts, &entry.1, line.as_str())
}

/// Appends the line of an announcement that a run of a node has queued for this receiver.
fn push_queued<A: Allocator>(
    text: &mut String<A>,
    node: &Origin,
    receiver: &NodeName,
) -> Result<(), AllocError>
    ensures { OnOk result (string_bytes text.new ≡ string_bytes text.old
        ++ (codes "  queued " ++ (origin_text node.now ++ (codes " -> " ++ (receiver.now ++ codes "\n"))))) }
{
    text.push_str("  queued ")?;
    push_origin(text, node)?;
    text.push_str(" -> ")?;
    text.push_str(receiver.as_str())?;
    text.push('\n')
}

/// Adds the lines of the timers that nodes have.
fn add_timers<A: Allocator + Copy>(
    alloc: A,
    texts: &mut Texts<A>,
    nodes: &[NodeState<PlumCore<A>>],
) -> Result<(), AllocError>
    ensures { OnOk result
        ((id : MsgId) → text_at id texts.new.entries ≡ text_at id texts.old.entries ++ timer_lines id nodes.now) }
{
    for node in nodes {
        add_timers_at(alloc, texts, node)?;
    }
    Ok(())
}

/// Adds the lines of the timers that a node has, if it runs.
fn add_timers_at<A: Allocator + Copy>(
    alloc: A,
    texts: &mut Texts<A>,
    node: &NodeState<PlumCore<A>>,
) -> Result<(), AllocError>
    ensures { OnOk result ((id : MsgId) → text_at id texts.new.entries
        ≡ text_at id texts.old.entries ++ timers_at id (origin_of node.now) node.now.core) }
{
    let run = run_of(node);
    match &node.core {
        Some(core) => add_timers_by(alloc, texts, &run, core.timers()),
        None => Ok(()),
    }
}

/// Adds the lines of the timers of a run of a node.
fn add_timers_by<A: Allocator + Copy>(
    alloc: A,
    texts: &mut Texts<A>,
    node: &Origin,
    timers: &[Option<MsgId>],
) -> Result<(), AllocError>
    ensures { OnOk result ((id : MsgId)
        → text_at id texts.new.entries ≡ text_at id texts.old.entries ++ timers_by id node.now (somes timers.now)) }
{
    for timer in timers {
        if let Some(timed) = timer {
            add_timer(alloc, texts, node, timed)?;
        }
    }
    Ok(())
}

/// Adds the line of a timer of a run of a node.
fn add_timer<A: Allocator + Copy>(
    alloc: A,
    texts: &mut Texts<A>,
    node: &Origin,
    timed: &MsgId,
) -> Result<(), AllocError>
    ensures { OnOk result ((id : MsgId)
        → text_at id texts.new.entries ≡ text_at id texts.old.entries ++ timer_line id node.now timed.now) }
{
    let mut line = String::new(alloc);
    push_timer(&mut line, node)?;
    append(texts, timed, line.as_str())
}

/// Appends the line of a timer of a run of a node.
fn push_timer<A: Allocator>(text: &mut String<A>, node: &Origin) -> Result<(), AllocError>
    ensures { OnOk result
        (string_bytes text.new ≡ string_bytes text.old ++ (codes "  timer " ++ (origin_text node.now ++ codes "\n"))) }
{
    text.push_str("  timer ")?;
    push_origin(text, node)?;
    text.push('\n')
}
