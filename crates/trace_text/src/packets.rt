//! Prints packets and their contents.
ghost use Rattle.std.specs.Prelude.{◌≡◌, ◌++◌, drop, OnOk, Some, string_bytes};
ghost use Rattle.frames.specs.declared.body.BodyOf.TheVariants as body;
ghost use Rattle.trace_text.specs.Packets.{announcement_item, announcement_items, announcement_text};
ghost use Rattle.trace_text.specs.Packets.{body_text, gossip_text, packet_at, packet_item, packet_text};
ghost use Rattle.trace_text.specs.Packets.{priority_word, reply_word, sent_line, sent_lines};

use crate::names::{push_id, push_names, push_origin};
use frames::{Body, BodyOf, Frame};
use node_names::{MsgId, NodeName};
use std::alloc::{AllocError, Allocator};
use world::Packet;

/// Appends the packet that has this place among all packets ever sent.
pub fn push_packet<A: Allocator>(
    text: &mut String<A>,
    place: usize,
    packet: &Packet<Frame<A>>,
) -> Result<(), AllocError>
    ensures { OnOk result (string_bytes text.new ≡ string_bytes text.old ++ packet_text place packet.now) }
{
    let to = packet.to;
    let number = packet.note.number();
    write!(text, "packet {place} ")?;
    push_origin(text, &packet.sender)?;
    write!(text, " -> {to} #{number} ")?;
    push_body(text, packet.note.body())
}

/// Appends the contents of a frame.
fn push_body<A: Allocator>(text: &mut String<A>, body: &Body<A>) -> Result<(), AllocError>
    ensures { OnOk result (string_bytes text.new ≡ string_bytes text.old ++ body_text body.now) }
{
    match body {
        BodyOf::Join => text.push_str("JOIN"),
        BodyOf::ForwardJoin { new, ttl } => push_forward_join(text, new, *ttl),
        BodyOf::Neighbor { high } => push_neighbor(text, *high),
        BodyOf::NeighborReply { accepted } => push_reply(text, *accepted),
        BodyOf::Disconnect => text.push_str("DISCONNECT"),
        BodyOf::Shuffle { origin, ttl, names } => {
            push_shuffle(text, origin, *ttl, names.as_slice())
        }
        BodyOf::ShuffleReply { names } => push_shuffle_reply(text, names.as_slice()),
        BodyOf::Gossip { id, round, payload } => push_gossip(text, id, *round, payload.len()),
        BodyOf::IHave { entries } => push_ihave(text, entries.as_slice()),
        BodyOf::Graft { id, round } => push_graft(text, id, *round),
        BodyOf::Prune => text.push_str("PRUNE"),
        BodyOf::GraftPeer => text.push_str("GRAFT_PEER"),
    }
}

/// Appends a FORWARDJOIN.
fn push_forward_join<A: Allocator>(
    text: &mut String<A>,
    new: &NodeName,
    ttl: u8,
) -> Result<(), AllocError>
    ensures { OnOk result (string_bytes text.new ≡ string_bytes text.old ++ body_text (body.ForwardJoin new.now ttl)) }
{
    write!(text, "FORWARDJOIN {new} ttl {ttl}")
}

/// Appends a NEIGHBOR.
fn push_neighbor<A: Allocator>(text: &mut String<A>, high: bool) -> Result<(), AllocError>
    ensures { OnOk result (string_bytes text.new ≡ string_bytes text.old ++ body_text (body.Neighbor high)) }
{
    text.push_str("NEIGHBOR ")?;
    text.push_str(priority_word(high))
}

/// A priority as a word.
fn priority_word(high: bool) -> &'static str
    ensures { result.now ≡ priority_word high }
{
    if high { "high" } else { "low" }
}

/// Appends a NEIGHBORREPLY.
fn push_reply<A: Allocator>(text: &mut String<A>, accepted: bool) -> Result<(), AllocError>
    ensures { OnOk result (string_bytes text.new ≡ string_bytes text.old ++ body_text (body.NeighborReply accepted)) }
{
    text.push_str("NEIGHBORREPLY ")?;
    push_reply_word(text, accepted)
}

/// Appends an answer as a word.
fn push_reply_word<A: Allocator>(text: &mut String<A>, accepted: bool) -> Result<(), AllocError>
    ensures { OnOk result (string_bytes text.new ≡ string_bytes text.old ++ reply_word accepted) }
{
    text.push_str(if accepted { "accepted" } else { "refused" })
}

/// Appends a SHUFFLE.
fn push_shuffle<A: Allocator>(
    text: &mut String<A>,
    origin: &NodeName,
    ttl: u8,
    names: &[NodeName],
) -> Result<(), AllocError>
    ensures { OnOk result
        (string_bytes text.new ≡ string_bytes text.old ++ body_text (body.Shuffle origin.now ttl names.now)) }
{
    write!(text, "SHUFFLE of {origin} ttl {ttl} names")?;
    push_names(text, names)
}

/// Appends a SHUFFLEREPLY.
fn push_shuffle_reply<A: Allocator>(
    text: &mut String<A>,
    names: &[NodeName],
) -> Result<(), AllocError>
    ensures { OnOk result (string_bytes text.new ≡ string_bytes text.old ++ body_text (body.ShuffleReply names.now)) }
{
    text.push_str("SHUFFLEREPLY names")?;
    push_names(text, names)
}

/// Appends a GOSSIP with a payload of this length.
fn push_gossip<A: Allocator>(
    text: &mut String<A>,
    id: &MsgId,
    round: u32,
    length: usize,
) -> Result<(), AllocError>
    ensures { OnOk result (string_bytes text.new ≡ string_bytes text.old ++ gossip_text id.now round length) }
{
    text.push_str("GOSSIP ")?;
    push_id(text, id)?;
    write!(text, " round {round} length {length}")
}

/// Appends an IHAVE.
fn push_ihave<A: Allocator>(
    text: &mut String<A>,
    entries: &[(MsgId, u32)],
) -> Result<(), AllocError>
    ensures { OnOk result (string_bytes text.new ≡ string_bytes text.old ++ body_text (body.IHave entries.now)) }
{
    text.push_str("IHAVE")?;
    push_announcement_items(text, entries)
}

/// Appends each of these announcements after a space.
fn push_announcement_items<A: Allocator>(
    text: &mut String<A>,
    entries: &[(MsgId, u32)],
) -> Result<(), AllocError>
    ensures { OnOk result (string_bytes text.new ≡ string_bytes text.old ++ announcement_items entries.now) }
{
    for entry in entries {
        push_announcement_item(text, entry)?;
    }
    Ok(())
}

/// Appends an announcement after a space.
fn push_announcement_item<A: Allocator>(
    text: &mut String<A>,
    entry: &(MsgId, u32),
) -> Result<(), AllocError>
    ensures { OnOk result (string_bytes text.new ≡ string_bytes text.old ++ announcement_item entry.now) }
{
    text.push(' ')?;
    push_announcement(text, &entry.0, entry.1)
}

/// Appends an announcement: the id and its round.
pub fn push_announcement<A: Allocator>(
    text: &mut String<A>,
    id: &MsgId,
    round: u32,
) -> Result<(), AllocError>
    ensures { OnOk result (string_bytes text.new ≡ string_bytes text.old ++ announcement_text id.now round) }
{
    push_id(text, id)?;
    write!(text, "@{round}")
}

/// Appends a GRAFT.
fn push_graft<A: Allocator>(text: &mut String<A>, id: &MsgId, round: u32) -> Result<(), AllocError>
    ensures { OnOk result (string_bytes text.new ≡ string_bytes text.old ++ body_text (body.Graft id.now round)) }
{
    text.push_str("GRAFT ")?;
    push_id(text, id)?;
    write!(text, " round {round}")
}

/// Appends a space and the packet at a place among all packets ever sent; nothing if there is no place or no packet.
pub fn push_packet_at<A: Allocator>(
    text: &mut String<A>,
    sent: &[Packet<Frame<A>>],
    place: Option<usize>,
) -> Result<(), AllocError>
    ensures { OnOk result (string_bytes text.new ≡ string_bytes text.old ++ packet_at sent.now place) }
{
    match place {
        Some(place) => push_maybe_packet(text, sent, place),
        None => Ok(()),
    }
}

/// Appends the packet at this place after a space, if there is one.
fn push_maybe_packet<A: Allocator>(
    text: &mut String<A>,
    sent: &[Packet<Frame<A>>],
    place: usize,
) -> Result<(), AllocError>
    ensures { OnOk result (string_bytes text.new ≡ string_bytes text.old ++ packet_at sent.now (Some place)) }
{
    match sent.get(place) {
        Some(packet) => push_packet_item(text, place, packet),
        None => Ok(()),
    }
}

/// Appends a packet after a space.
fn push_packet_item<A: Allocator>(
    text: &mut String<A>,
    place: usize,
    packet: &Packet<Frame<A>>,
) -> Result<(), AllocError>
    ensures { OnOk result (string_bytes text.new ≡ string_bytes text.old ++ packet_item place packet.now) }
{
    text.push(' ')?;
    push_packet(text, place, packet)
}

/// Appends a line for each packet from this one on, of all packets ever sent.
pub fn push_sent<A: Allocator>(
    text: &mut String<A>,
    first: usize,
    sent: &[Packet<Frame<A>>],
) -> Result<(), AllocError>
    ensures { OnOk result (string_bytes text.new ≡ string_bytes text.old ++ sent_lines first (drop first sent.now)) }
{
    for place in first..sent.len() {
        push_sent_line(text, place, &sent[place])?;
    }
    Ok(())
}

/// Appends the line of a packet that an event sent.
fn push_sent_line<A: Allocator>(
    text: &mut String<A>,
    place: usize,
    packet: &Packet<Frame<A>>,
) -> Result<(), AllocError>
    ensures { OnOk result (string_bytes text.new ≡ string_bytes text.old ++ sent_line place packet.now) }
{
    text.push_str("  ")?;
    push_packet(text, place, packet)?;
    text.push('\n')
}
