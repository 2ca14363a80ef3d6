//! Frames as text, and their bytes in the parts that docs/frames.md shows.
use frames::{Frame, encode, kind_number};
use node_names::NodeName;
use play_script::bodies::push_body;
use play_script::hexes::push_hex;
use play_script::layer::Turn;
use play_script::lists::push_payload;
use protocol::Wire;
use std::alloc::{AllocError, Allocator};
use std::fmt::Write;

/// Appends a frame: its sender, its number and its body, as `a/1#2 PRUNE`.
pub(crate) fn push_frame<A: Allocator>(
    text: &mut String,
    frame: &Frame<A>,
) -> Result<(), AllocError> {
    write!(text, "{}#{} ", frame.sender(), frame.number())?;
    push_body(text, frame.body())
}

/// Appends the bytes of a frame from this sender: its length, version, kind, sender's name and incarnation, number and
/// fields, each as a word.
pub(crate) fn push_encoded(
    text: &mut String,
    sender: NodeName,
    bytes: &[u8],
) -> Result<(), AllocError> {
    text.push_str("written:")?;
    let mut rest = bytes;
    for len in [4, 1, 1, sender.as_bytes().len().saturating_add(1), 8, 8] {
        let (part, after) = rest.split_at(len.min(rest.len()));
        text.push(' ')?;
        push_hex(text, part)?;
        rest = after;
    }
    if !rest.is_empty() {
        text.push(' ')?;
        push_hex(text, rest)?;
    }
    text.push('\n')
}

/// Appends the announcements of a frame.
fn push_announced<A: Allocator + Copy>(
    text: &mut String,
    frame: &Frame<A>,
) -> Result<(), AllocError> {
    for (id, round) in frame.announced() {
        writeln!(text, "announces: {id} {round}")?;
    }
    Ok(())
}

/// Appends what the frame answers: its sender, its number and its kind, whether it is about the membership, and the
/// messages that it carries, announces and asks for.
pub(crate) fn push_told<A: Allocator + Copy>(
    text: &mut String,
    frame: &Frame<A>,
    turn: &mut Turn<'_>,
) -> Result<(), AllocError> {
    turn.begin();
    let (sender, number, kind) = (frame.sender(), frame.number(), kind_number(frame.body()));
    let (is_membership, asked) = (frame.is_membership(), frame.asked());
    let carried = frame.carried();
    let _ = frame.announced();
    turn.end();
    writeln!(text, "sender {sender}, number {number}, kind {kind}")?;
    if is_membership {
        text.push_str("about the membership\n")?;
    }
    if let Some((id, payload)) = carried {
        write!(text, "carries: {id} ")?;
        push_payload(text, payload.as_slice())?;
        text.push('\n')?;
    }
    if let Some(id) = asked {
        writeln!(text, "asks for: {id}")?;
    }
    push_announced(text, frame)
}

/// Returns where the bytes of a frame end that begin at a place of a stream, or nothing if its bytes do not stand
/// there.
pub(crate) fn end_of_frame<A: Allocator + Copy>(
    alloc: A,
    stream: &[u8],
    at: usize,
    frame: &Frame<A>,
) -> Result<Option<usize>, AllocError> {
    let written = encode(alloc, frame)?;
    let end = at.saturating_add(written.len());
    let is_there = stream.get(at..end) == Some(written.as_slice());
    Ok(is_there.then_some(end))
}
