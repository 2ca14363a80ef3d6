//! Prints events in words.
ghost use Rattle.std.specs.Prelude.{◌≡◌, ◌++◌, OnOk, string_bytes};
ghost use Rattle.trace_text.specs.Events.{event_line, event_words, fire_words, naming_words, start_words};

use crate::names::{push_id, push_maybe_name, push_names};
use crate::packets::push_packet_at;
use frames::Frame;
use node_names::{Incarnation, MsgId, NodeName};
use std::alloc::{AllocError, Allocator};
use world::{Entry, EventOf, KeptEvent, Packet};

/// Appends the line of an entry's event.
pub fn push_event<A: Allocator>(
    text: &mut String<A>,
    sent: &[Packet<Frame<A>>],
    entry: &Entry<A>,
) -> Result<(), AllocError>
    ensures { OnOk result (string_bytes text.new ≡ string_bytes text.old ++ event_line sent.now entry.now) }
{
    push_words(text, sent, entry.packet, &entry.event)?;
    text.push('\n')
}

/// Appends an event in words, with the packet of this number if it names one.
fn push_words<A: Allocator>(
    text: &mut String<A>,
    sent: &[Packet<Frame<A>>],
    number: Option<usize>,
    event: &KeptEvent<A>,
) -> Result<(), AllocError>
    ensures { OnOk result (string_bytes text.new ≡ string_bytes text.old ++ event_words sent.now number event.now) }
{
    match event {
        EventOf::Start {
            name,
            incarnation,
            peers,
            contact,
        } => push_start(text, name, *incarnation, peers.as_slice(), contact),
        EventOf::Broadcast { name, payload } => {
            let length = payload.len();
            write!(text, "broadcast by {name} length {length}")
        }
        EventOf::Arrive { place, .. } => push_naming(text, "arrive place ", *place, sent, number),
        EventOf::Lose { place } => push_naming(text, "lose place ", *place, sent, number),
        EventOf::Again { number: again } => {
            push_naming(text, "again number ", *again, sent, number)
        }
        EventOf::Fire { name, id } => push_fire(text, name, id),
        EventOf::Flush { name } => write!(text, "flush {name}"),
        EventOf::Shuffle { name, .. } => write!(text, "shuffle {name}"),
        EventOf::Join { name, contact } => write!(text, "join {name} {contact}"),
        EventOf::Down { name, peer, .. } => write!(text, "down {name} {peer}"),
        EventOf::Stop { name } => write!(text, "stop {name}"),
    }
}

/// Appends the words, the place or number by which the event names a packet, and that packet.
fn push_naming<A: Allocator>(
    text: &mut String<A>,
    words: &str,
    said: usize,
    sent: &[Packet<Frame<A>>],
    number: Option<usize>,
) -> Result<(), AllocError>
    ensures { OnOk result
        (string_bytes text.new ≡ string_bytes text.old ++ naming_words words.now said sent.now number) }
{
    text.push_str(words)?;
    write!(text, "{said}:")?;
    push_packet_at(text, sent, number)
}

/// Appends a start in words.
fn push_start<A: Allocator>(
    text: &mut String<A>,
    name: &NodeName,
    incarnation: Incarnation,
    peers: &[NodeName],
    contact: &Option<NodeName>,
) -> Result<(), AllocError>
    ensures { OnOk result
        (string_bytes text.new ≡ string_bytes text.old ++ start_words name.now incarnation peers.now contact.now) }
{
    write!(text, "start {name}/{incarnation} | peers:")?;
    push_names(text, peers)?;
    text.push_str(" | contact:")?;
    push_maybe_name(text, contact)
}

/// Appends a firing in words.
fn push_fire<A: Allocator>(
    text: &mut String<A>,
    name: &NodeName,
    id: &MsgId,
) -> Result<(), AllocError>
    ensures { OnOk result (string_bytes text.new ≡ string_bytes text.old ++ fire_words name.now id.now) }
{
    write!(text, "fire {name} ")?;
    push_id(text, id)
}
