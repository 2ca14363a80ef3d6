//! Draining a source to a writer.
use crate::pumps::call_of;
use crate::sources::Same;
use crate::writers::StallingWriter;
use links::{LinkEnd, MeteredWrite, TapeWriter, drain};
use play_script::layer::{Outcome, Turn};
use play_script::words::short_of;
use std::alloc::{AllocError, Allocator, Global};
use std::fmt::Write;

/// How a source is drained.
#[derive(Clone, Copy)]
pub(crate) struct DrainArgs {
    /// How many items the source gives.
    pub(crate) items: usize,
    /// How many bytes the writer takes in a call.
    pub(crate) most: usize,
    /// How many frames are asked for.
    pub(crate) frames: u32,
    /// The write that fails, counted from 0.
    pub(crate) fails: Option<usize>,
    /// The write that takes no byte, counted from 0.
    pub(crate) stalls: Option<usize>,
    /// Whether what is left is drained into the same writer once more.
    pub(crate) is_twice: bool,
}

impl DrainArgs {
    /// Returns the same with one write that takes no byte if `stalls`, and fails if not.
    pub(crate) fn varied(self, write: usize, stalls: bool) -> DrainArgs {
        let (fails, stalls) = if stalls {
            (None, Some(write))
        } else {
            (Some(write), None)
        };
        DrainArgs {
            fails,
            stalls,
            ..self
        }
    }
}

/// Parses how a source is drained. What is not given is 0, or no write.
pub(crate) fn drain_of(words: &[&str]) -> Option<DrainArgs> {
    Some(DrainArgs {
        items: call_of(words, "items")?.unwrap_or(0),
        most: call_of(words, "most")?.unwrap_or(0),
        frames: short_of(words, "frames")?,
        fails: call_of(words, "fails")?,
        stalls: call_of(words, "stalls")?,
        is_twice: words.iter().any(|word| *word == "twice"),
    })
}

/// What came of a drain.
#[derive(Clone, Copy)]
pub(crate) struct Drained {
    pub(crate) answer: Result<u64, LinkEnd>,
    /// How many items the source gave.
    pub(crate) given: usize,
    /// How many bytes the writer has.
    pub(crate) written: usize,
    /// Whether they are the first ones of the items that the source gave.
    pub(crate) is_front: bool,
}

/// Returns whether bytes are the first ones of an item that stands there `given` times.
fn are_first(item: &[u8], given: usize, written: &[u8]) -> bool {
    for part in written.chunks(item.len().max(1)) {
        if item.get(..part.len()) != Some(part) {
            return false;
        }
    }
    written.len() <= item.len().saturating_mul(given)
}

/// Drains a source into a writer.
fn drain_between<A: Allocator + Copy, W: MeteredWrite>(
    source: &mut Same<A>,
    writer: &mut W,
    frames: u32,
    turn: &mut Turn<'_>,
) -> Result<u64, LinkEnd> {
    turn.begin();
    let answer = drain(source, writer, frames);
    turn.end();
    answer
}

/// Returns what came of a drain, after which the writer has these bytes.
fn drained_of<A: Allocator + Copy>(
    answer: Result<u64, LinkEnd>,
    source: &Same<A>,
    item: &[u8],
    written: &[u8],
) -> Drained {
    Drained {
        answer,
        given: source.count(),
        written: written.len(),
        is_front: are_first(item, source.count(), written),
    }
}

/// Drains a source into a fresh writer.
fn drain_source<A: Allocator + Copy>(
    alloc: A,
    source: &mut Same<A>,
    item: &[u8],
    args: &DrainArgs,
    turn: &mut Turn<'_>,
) -> Drained {
    if let Some(stalls) = args.stalls {
        let mut writer = StallingWriter::new(alloc, args.most, stalls);
        let answer = drain_between(source, &mut writer, args.frames, turn);
        return drained_of(answer, source, item, writer.as_slice());
    }
    let mut writer = TapeWriter::new(alloc, args.most, args.fails);
    let mut answer = drain_between(source, &mut writer, args.frames, turn);
    if args.is_twice {
        answer = drain_between(source, &mut writer, args.frames, turn);
    }
    drained_of(answer, source, item, writer.as_slice())
}

/// Drains a source that gives one item again and again, or does nothing if the item is longer than any frame.
pub(crate) fn drain_item<A: Allocator + Copy>(
    own: Global,
    alloc: A,
    item: &[u8],
    args: &DrainArgs,
    turn: &mut Turn<'_>,
) -> Result<Option<Drained>, AllocError> {
    match Same::new(own, alloc, item, args.items)? {
        Some(mut source) => Ok(Some(drain_source(alloc, &mut source, item, args, turn))),
        None => Ok(None),
    }
}

/// Appends the answer of a drain, how many items the source gave and how many bytes the writer has.
pub(crate) fn push_drained(text: &mut String, drained: &Drained) -> Result<(), AllocError> {
    match drained.answer {
        Ok(bytes) => write!(text, "drained {bytes} bytes")?,
        Err(end) => write!(text, "{end}")?,
    }
    write!(
        text,
        "; given {}, written {}",
        drained.given, drained.written
    )?;
    if !drained.is_front {
        text.push_str(", which are not what was given")?;
    }
    Ok(())
}

/// Returns whether a drain was answered as one that is refused memory: after all that the source gave if that was
/// refused, or within it if the writer was.
fn is_refusal(drained: &Drained, item: &[u8]) -> bool {
    let given = item.len().saturating_mul(drained.given);
    let bytes = drained.written as u64;
    drained.is_front
        && match drained.answer {
            Err(LinkEnd::OutOfMemory) => drained.written == given,
            Err(end) => drained.written < given && end == LinkEnd::WriteFault { bytes },
            Ok(_) => false,
        }
}

/// Drains a source that gives one item again and again, and appends what came of it.
pub(crate) fn push_drain<A: Allocator + Copy>(
    own: Global,
    alloc: A,
    said: &mut String,
    item: &[u8],
    args: &DrainArgs,
    turn: &mut Turn<'_>,
) -> Result<Outcome, AllocError> {
    let Some(drained) = drain_item(own, alloc, item, args, turn)? else {
        return Ok(Outcome::Unknown);
    };
    if turn.is_spent() && is_refusal(&drained, item) {
        return Ok(Outcome::NoMemory);
    }
    push_drained(said, &drained)?;
    said.push('\n')?;
    Ok(Outcome::Done)
}
