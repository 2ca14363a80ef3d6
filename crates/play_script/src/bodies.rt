//! The bodies of frames as text.
use crate::lists::{push_names, push_payload};
use frames::{Body, BodyOf};
use node_names::{MsgId, NodeName};
use std::alloc::{AllocError, Allocator};
use std::fmt::Write;

/// Appends `kind` and names.
fn push_shuffled(text: &mut String, kind: &str, names: &[NodeName]) -> Result<(), AllocError> {
    text.push_str(kind)?;
    push_names(text, names)
}

/// The most announcements that are named one by one.
const MANY: usize = 16;

/// Appends announcements, or of many how many they are.
fn push_announced(text: &mut String, entries: &[(MsgId, u32)]) -> Result<(), AllocError> {
    text.push_str("IHAVE")?;
    if entries.len() > MANY {
        return write!(text, " of {} messages", entries.len());
    }
    for (id, round) in entries {
        write!(text, " {id} {round}")?;
    }
    Ok(())
}

/// Appends a body about membership.
fn push_membership<A: Allocator>(text: &mut String, body: &Body<A>) -> Result<(), AllocError> {
    match body {
        BodyOf::Join => text.push_str("JOIN"),
        BodyOf::ForwardJoin { new, ttl } => write!(text, "FORWARDJOIN {new} {ttl}"),
        BodyOf::Neighbor { high: true } => text.push_str("NEIGHBOR high"),
        BodyOf::Neighbor { high: false } => text.push_str("NEIGHBOR low"),
        BodyOf::NeighborReply { accepted: true } => text.push_str("NEIGHBORREPLY accepted"),
        BodyOf::NeighborReply { accepted: false } => text.push_str("NEIGHBORREPLY refused"),
        BodyOf::Disconnect => text.push_str("DISCONNECT"),
        BodyOf::Shuffle { origin, ttl, names } => {
            write!(text, "SHUFFLE of {origin} {ttl}")?;
            push_names(text, names.as_slice())
        }
        BodyOf::ShuffleReply { names } => push_shuffled(text, "SHUFFLEREPLY", names.as_slice()),
        BodyOf::Gossip { .. }
        | BodyOf::IHave { .. }
        | BodyOf::Graft { .. }
        | BodyOf::Prune
        | BodyOf::GraftPeer => Ok(()),
    }
}

/// Appends a body: its kind and its fields.
pub fn push_body<A: Allocator>(text: &mut String, body: &Body<A>) -> Result<(), AllocError> {
    match body {
        BodyOf::Gossip { id, round, payload } => {
            write!(text, "GOSSIP {id} {round} ")?;
            push_payload(text, payload.as_slice())
        }
        BodyOf::IHave { entries } => push_announced(text, entries.as_slice()),
        BodyOf::Graft { id, round } => write!(text, "GRAFT {id} {round}"),
        BodyOf::Prune => text.push_str("PRUNE"),
        BodyOf::GraftPeer => text.push_str("GRAFT"),
        _ => push_membership(text, body),
    }
}
