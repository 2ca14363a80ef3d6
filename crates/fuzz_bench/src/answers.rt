//! The answers to a case: what `decode`, a cutter and `pump` return for its stream.
use crate::case::Case;
use crate::sink::Kept;
use crate::text::push_frame;
use anyhow::Result;
use bytes::Bytes;
use frames::{Cutter, Frame, FrameFault, decode};
use links::{LinkEnd, TapeReader, pump};
use std::alloc::{AllocError, Global};

/// The turns of one call of `pump`. The call is repeated until the link ends.
const TURNS: u64 = 2;

/// Appends what `decode` returns.
fn push_decoded(alloc: Global, text: &mut String, stream: &[u8]) -> Result<(), AllocError> {
    match decode(alloc, stream) {
        Ok((frame, len)) => {
            let end = push_frame(alloc, text, stream, 0, &frame)?;
            if end != len {
                write!(text, " and {len} bytes")?;
            }
            Ok(())
        }
        Err(fault) => write!(text, "{fault}"),
    }
}

/// Appends the frames that a cutter has, and returns the fault after them, if there is one. `at` is the place of the
/// first frame in the stream, and becomes the place after the last one.
fn push_given(
    alloc: Global,
    text: &mut String,
    cutter: &mut Cutter,
    stream: &[u8],
    at: &mut usize,
) -> Result<Option<FrameFault>, AllocError> {
    for _ in 0..u64::MAX {
        match cutter.next() {
            Ok(Some(frame)) => {
                *at = push_frame(alloc, text, stream, *at, &frame)?;
                text.push_str(", ")?;
            }
            Ok(None) => return Ok(None),
            Err(fault) => return Ok(Some(fault)),
        }
    }
    Ok(None)
}

/// Feeds a cutter the stream in pieces and appends its frames, up to its first fault. Returns that fault.
fn push_pieces(
    alloc: Global,
    text: &mut String,
    cutter: &mut Cutter,
    case: &Case,
) -> Result<Option<FrameFault>, AllocError> {
    let mut rest = case.stream.as_slice();
    let mut at = 0;
    for size in case.pieces.as_slice() {
        let (piece, after) = rest.split_at(rest.len().min(*size));
        cutter.feed(piece)?;
        let fault = push_given(alloc, text, cutter, case.stream.as_slice(), &mut at)?;
        if fault.is_some() {
            return Ok(fault);
        }
        rest = after;
    }
    Ok(None)
}

/// Appends a cutter's frames and how it ends: with a fault, and `once` if it does not return that fault again, or with
/// the number of bytes that are left over, which are no whole frame.
fn push_cut(alloc: Global, text: &mut String, case: &Case) -> Result<(), AllocError> {
    let mut cutter = Cutter::new(alloc);
    match push_pieces(alloc, text, &mut cutter, case)? {
        Some(fault) => {
            write!(text, "{fault}")?;
            if cutter.next() != Err(fault) {
                text.push_str(" once")?;
            }
            Ok(())
        }
        None => write!(text, "{} left", cutter.left()),
    }
}

/// Calls `pump` until the link ends.
fn pump_all(reader: &mut TapeReader, cutter: &mut Cutter, sink: &mut Kept) -> LinkEnd {
    for _ in 0..u64::MAX {
        match pump(reader, cutter, sink, TURNS) {
            LinkEnd::TurnLimit => {}
            end => return end,
        }
    }
    LinkEnd::TurnLimit
}

/// Appends the first frames of a stream.
fn push_front(
    alloc: Global,
    text: &mut String,
    stream: &[u8],
    frames: &[Frame],
) -> Result<(), AllocError> {
    let mut at = 0;
    for frame in frames {
        at = push_frame(alloc, text, stream, at, frame)?;
        text.push_str(", ")?;
    }
    Ok(())
}

/// Appends the frames that `pump` hands out, and how it ends.
fn push_pumped(alloc: Global, text: &mut String, case: &Case) -> Result<(), AllocError> {
    let stream = case.stream.as_slice();
    let tape = Bytes::copy_from_slice(alloc, stream)?;
    let pieces = Vec::from_slice(alloc, case.pieces.as_slice())?;
    let mut reader = TapeReader::new(tape, pieces, case.fails);
    let mut sink = Kept {
        frames: Vec::new(alloc),
        most: case.most,
        refusals: 0,
    };
    let end = pump_all(&mut reader, &mut Cutter::new(alloc), &mut sink);
    push_front(alloc, text, stream, sink.frames.as_slice())?;
    write!(text, "{end}")
}

/// Appends what `decode`, a cutter and `pump` return for a case's stream, separated by `; `.
pub(crate) fn push_answers(alloc: Global, text: &mut String, case: &Case) -> Result<()> {
    push_decoded(alloc, text, case.stream.as_slice())?;
    text.push_str("; ")?;
    push_cut(alloc, text, case)?;
    text.push_str("; ")?;
    push_pumped(alloc, text, case)?;
    Ok(())
}
