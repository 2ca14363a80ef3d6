//! What a node's gossip shows and gives, as text.
use frames::Body;
use gossip_core::{Effects, Gossip};
use missing::{Missing, Want};
use node_names::{MsgId, NodeName};
use peer_sets::PeerSets;
use play_script::bodies::push_body;
use play_script::lists::{end_line, push_payload};
use std::alloc::{AllocError, Allocator};
use std::fmt::Write;

/// The most messages that are named one by one.
const MANY: usize = 16;

/// Appends the members, and the announcements that are queued for them.
pub(crate) fn push_peers<A: Allocator>(
    text: &mut String,
    peers: &PeerSets<A>,
) -> Result<(), AllocError> {
    if !peers.members().is_empty() {
        text.push_str("members:")?;
        for (name, _) in peers.members() {
            let kind = if peers.is_eager(name) {
                "eager"
            } else {
                "lazy"
            };
            write!(text, " {name} {kind},")?;
        }
        end_line(text)?;
    }
    if !peers.queued().is_empty() {
        text.push_str("queued:")?;
        for (peer, id, round) in peers.queued() {
            write!(text, " {id} {round} for {peer},")?;
        }
        end_line(text)?;
    }
    Ok(())
}

/// Appends the announcements of missing messages, if there are any.
fn push_wanted(text: &mut String, wants: &[Option<Want>]) -> Result<(), AllocError> {
    if wants.iter().flatten().next().is_none() {
        return Ok(());
    }
    text.push_str("wanted:")?;
    for (id, peer, round) in wants.iter().flatten() {
        write!(text, " {id} {round} from {peer},")?;
    }
    end_line(text)
}

/// Appends the ids whose timers are armed, if there are any.
fn push_armed(text: &mut String, timers: &[Option<MsgId>]) -> Result<(), AllocError> {
    if timers.iter().flatten().next().is_none() {
        return Ok(());
    }
    text.push_str("armed:")?;
    for id in timers.iter().flatten() {
        write!(text, " {id}")?;
    }
    text.push('\n')
}

/// Appends the announcements of missing messages, and the ids whose timers are armed.
pub(crate) fn push_missing<A: Allocator>(
    text: &mut String,
    missing: &Missing<A>,
) -> Result<(), AllocError> {
    push_wanted(text, missing.wants())?;
    push_armed(text, missing.timers())
}

/// Appends the messages that are held, in order of delivery, each with its payload. Of many it appends how many they
/// are.
fn push_held<A: Allocator>(text: &mut String, node: &Gossip<A>) -> Result<(), AllocError> {
    let held = node.held();
    if held.is_empty() {
        return Ok(());
    }
    text.push_str("held:")?;
    if held.len() > MANY {
        return writeln!(text, " {} messages", held.len());
    }
    for id in held {
        let mark = if node.knows(id) { "" } else { " unknown" };
        write!(text, " {id}{mark} ")?;
        if let Some(payload) = node.payload(id) {
            push_payload(text, payload.as_slice())?;
        }
        text.push(',')?;
    }
    end_line(text)
}

/// Returns whether a message is known, and its payload not held.
fn is_forgotten<A: Allocator>(node: &Gossip<A>, id: &MsgId) -> bool {
    node.knows(id) && node.payload(id).is_none()
}

/// Appends those of the messages that are known, and whose payloads are not held. Of many it appends how many they are.
fn push_forgotten<A: Allocator>(
    text: &mut String,
    node: &Gossip<A>,
    ids: &[MsgId],
) -> Result<(), AllocError> {
    let count = ids.iter().filter(|id| is_forgotten(node, id)).count();
    if count > MANY {
        return writeln!(text, "forgotten: {count} messages");
    }
    for id in ids {
        if is_forgotten(node, id) {
            writeln!(text, "forgotten: {id}")?;
        }
    }
    Ok(())
}

/// Appends all that a node's gossip shows: its members, queue, wants and timers, what it holds, and those of `ids` that
/// it knows and does not hold.
pub(crate) fn push_gossip<A: Allocator>(
    text: &mut String,
    node: &Gossip<A>,
    ids: &[MsgId],
) -> Result<(), AllocError> {
    push_peers(text, node.peers())?;
    push_missing(text, node.missing())?;
    push_held(text, node)?;
    push_forgotten(text, node, ids)
}

/// Appends a packet with its receiver.
fn push_send<A: Allocator>(
    text: &mut String,
    send: &(NodeName, Body<A>),
) -> Result<(), AllocError> {
    write!(text, "to {}: ", send.0)?;
    push_body(text, &send.1)?;
    text.push('\n')?;
    Ok(())
}

/// What a call gave. The only packet of an answer has a place of its own, so that a sweep shows that it takes no
/// memory.
#[derive(Drop)]
pub(crate) struct Given<A: Allocator> {
    pub(crate) first: Option<(NodeName, Body<A>)>,
    pub(crate) others: Effects<A>,
}

/// Appends what a call gave: the message that was delivered, and each packet with its receiver.
pub(crate) fn push_given<A: Allocator>(
    text: &mut String,
    given: &Given<A>,
) -> Result<(), AllocError> {
    if let Some((id, payload)) = &given.others.delivered {
        write!(text, "deliver {id} ")?;
        push_payload(text, payload.as_slice())?;
        text.push('\n')?;
    }
    if let Some(send) = &given.first {
        push_send(text, send)?;
    }
    for send in given.others.sends.as_slice() {
        push_send(text, send)?;
    }
    Ok(())
}
