//! Frames as text.
use anyhow::Result;
use frames::{Body, BodyOf, Frame, encode};
use node_names::{MsgId, NodeName};
use std::alloc::{AllocError, Global};

fn push_names(text: &mut String, names: &[NodeName]) -> Result<(), AllocError> {
    for name in names {
        write!(text, " {name}")?;
    }
    Ok(())
}

fn push_announcements(text: &mut String, entries: &[(MsgId, u32)]) -> Result<(), AllocError> {
    for entry in entries {
        write!(text, " {} {}", entry.0, entry.1)?;
    }
    Ok(())
}

/// Appends a body's kind and fields. Of a payload it appends only the length.
fn push_body(text: &mut String, body: &Body) -> Result<(), AllocError> {
    match body {
        BodyOf::Join => text.push_str("JOIN"),
        BodyOf::ForwardJoin { new, ttl } => write!(text, "FORWARDJOIN {new} {ttl}"),
        BodyOf::Neighbor { high } => write!(text, "NEIGHBOR {high}"),
        BodyOf::NeighborReply { accepted } => write!(text, "NEIGHBORREPLY {accepted}"),
        BodyOf::Disconnect => text.push_str("DISCONNECT"),
        BodyOf::Shuffle { origin, ttl, names } => {
            write!(text, "SHUFFLE {origin} {ttl}")?;
            push_names(text, names.as_slice())
        }
        BodyOf::ShuffleReply { names } => {
            text.push_str("SHUFFLEREPLY")?;
            push_names(text, names.as_slice())
        }
        BodyOf::Gossip { id, round, payload } => {
            write!(text, "GOSSIP {id} {round} {}", payload.len())
        }
        BodyOf::IHave { entries } => {
            text.push_str("IHAVE")?;
            push_announcements(text, entries.as_slice())
        }
        BodyOf::Graft { id, round } => write!(text, "GRAFT {id} {round}"),
        BodyOf::Prune => text.push_str("PRUNE"),
        BodyOf::GraftPeer => text.push_str("GRAFT"),
    }
}

/// Appends a frame, and `misspelt` if its encoding differs from the stream's bytes at `at`. Returns the place where the
/// encoding ends.
pub(crate) fn push_frame(
    alloc: Global,
    text: &mut String,
    stream: &[u8],
    at: usize,
    frame: &Frame,
) -> Result<usize, AllocError> {
    let spelling = encode(alloc, frame)?;
    let len = spelling.len();
    let end = at.saturating_add(len);
    write!(text, "{len} {} {} ", frame.sender(), frame.number())?;
    push_body(text, frame.body())?;
    if stream.get(at..end) != Some(spelling.as_slice()) {
        text.push_str(" misspelt")?;
    }
    Ok(end)
}
