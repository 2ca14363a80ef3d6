//! Pumping a whole stream to a sink.
use crate::frame_texts::{end_of_frame, push_frame};
use bytes::Bytes;
use frames::{Cutter, Frame};
use links::{LinkEnd, Sink, TapeReader, pump};
use play_script::layer::{Outcome, Turn};
use play_script::words::{after, number, value};
use std::alloc::{AllocError, Allocator, Global};
use std::fmt::Write;
use std::io::Read;

/// The room of the read that is made behind a pump, in bytes.
const ROOM: usize = 4_096;

/// A sink that takes at most `most` frames.
#[derive(Drop)]
struct Kept<A: Allocator> {
    frames: Vec<Frame<A>>,
    most: usize,
    refusals: u64,
}

impl<A: Allocator> Sink<Frame<A>> for Kept<A> {
    ghost taken = { λ kept. kept.frames.items };

    ghost refusals = { λ kept. kept.refusals };

    fn frame(&mut self, frame: Frame<A>) -> bool {
        if self.frames.len() < self.most && self.frames.push(frame).is_ok() {
            return true;
        }
        self.refusals = self.refusals.saturating_add(1);
        false
    }
}

/// How a stream is pumped.
#[derive(Drop)]
pub(crate) struct PumpArgs {
    /// The sizes of the pieces in which it is read.
    pub(crate) pieces: Vec<usize>,
    /// The read that fails, counted from 0.
    pub(crate) fails: Option<usize>,
    /// How many frames the sink takes.
    pub(crate) takes: usize,
    pub(crate) turns: u64,
}

/// Parses numbers, up to the first word that is none.
fn sizes(own: Global, words: &[&str]) -> Result<Vec<usize>, AllocError> {
    let mut found = Vec::new(own);
    for word in words {
        match word.parse() {
            Ok(size) => found.push(size)?,
            Err(_) => return Ok(found),
        }
    }
    Ok(found)
}

/// Returns the number behind `key`, or nothing within if the key is not there.
pub(crate) fn call_of(words: &[&str], key: &str) -> Option<Option<usize>> {
    match value(words, key) {
        Some(word) => Some(Some(word.parse().ok()?)),
        None => Some(None),
    }
}

/// Parses how a stream is pumped. What is not given is no piece size, no read that fails, and no bound on the frames
/// and the turns.
pub(crate) fn pump_of(own: Global, words: &[&str]) -> Result<Option<PumpArgs>, AllocError> {
    let (Some(fails), Some(takes), Some(turns)) = (
        call_of(words, "fails"),
        call_of(words, "takes"),
        number(value(words, "turns").unwrap_or("max")),
    ) else {
        return Ok(None);
    };
    Ok(Some(PumpArgs {
        pieces: sizes(own, after(words, "pieces"))?,
        fails,
        takes: takes.unwrap_or(usize::MAX),
        turns,
    }))
}

/// What came of a pump.
#[derive(Clone, Copy)]
pub(crate) struct Pumped {
    pub(crate) end: LinkEnd,
    /// How many frames the sink took.
    pub(crate) frames: usize,
    /// Whether they are the first ones of the stream.
    pub(crate) is_front: bool,
    /// How many bytes one more read gives.
    pub(crate) rest: usize,
}

/// Appends the frames that a sink took. Returns whether they are the first ones of the stream.
fn push_taken<A: Allocator + Copy>(
    alloc: A,
    said: &mut String,
    stream: &[u8],
    frames: &[Frame<A>],
) -> Result<bool, AllocError> {
    let mut at = Some(0);
    for frame in frames {
        said.push_str("taken: ")?;
        push_frame(said, frame)?;
        said.push('\n')?;
        if let Some(place) = at {
            at = end_of_frame(alloc, stream, place, frame)?;
        }
    }
    Ok(at.is_some())
}

/// Pumps from a reader through a cutter to a sink.
fn pump_between<A: Allocator + Copy>(
    reader: &mut TapeReader,
    cutter: &mut Cutter<A>,
    sink: &mut Kept<A>,
    turns: u64,
    turn: &mut Turn<'_>,
) -> LinkEnd {
    turn.begin();
    let end = pump(reader, cutter, sink, turns);
    turn.end();
    end
}

/// Returns how many bytes one more read gives.
fn read_rest(reader: &mut TapeReader) -> usize {
    let mut rest = [0; ROOM];
    reader.read(&mut rest).unwrap_or(0)
}

/// Pumps to a fresh sink, and appends the frames that it took.
fn pump_from<A: Allocator + Copy>(
    own: Global,
    alloc: A,
    said: &mut String,
    stream: &[u8],
    reader: &mut TapeReader,
    args: &PumpArgs,
    turn: &mut Turn<'_>,
) -> Result<Pumped, AllocError> {
    let mut cutter = Cutter::new(alloc);
    let mut sink = Kept {
        frames: Vec::new(own),
        most: args.takes,
        refusals: 0,
    };
    let end = pump_between(reader, &mut cutter, &mut sink, args.turns, turn);
    let is_front = push_taken(alloc, said, stream, sink.frames.as_slice())?;
    Ok(Pumped {
        end,
        frames: sink.frames.len(),
        is_front,
        rest: read_rest(reader),
    })
}

/// Pumps a stream to a fresh sink, and appends the frames that it took.
pub(crate) fn pump_stream<A: Allocator + Copy>(
    own: Global,
    alloc: A,
    said: &mut String,
    stream: &[u8],
    args: &PumpArgs,
    turn: &mut Turn<'_>,
) -> Result<Pumped, AllocError> {
    let tape = Bytes::copy_from_slice(own, stream)?;
    let pieces = Vec::from_slice(own, args.pieces.as_slice())?;
    let mut reader = TapeReader::new(tape, pieces, args.fails);
    pump_from(own, alloc, said, stream, &mut reader, args, turn)
}

/// Pumps a stream, and appends the frames that the sink took, the end, and how many bytes one more read gives. If
/// memory was refused, the frames have to be the first ones of the stream.
pub(crate) fn push_pump<A: Allocator + Copy>(
    own: Global,
    alloc: A,
    said: &mut String,
    stream: &[u8],
    args: &PumpArgs,
    turn: &mut Turn<'_>,
) -> Result<Outcome, AllocError> {
    let pumped = pump_stream(own, alloc, said, stream, args, turn)?;
    if !pumped.is_front {
        said.push_str("these are not the first frames of the tape\n")?;
        return Ok(Outcome::Done);
    }
    if pumped.end == LinkEnd::OutOfMemory {
        return Ok(Outcome::NoMemory);
    }
    writeln!(said, "{}", pumped.end)?;
    if pumped.rest > 0 {
        writeln!(said, "then read: {} bytes", pumped.rest)?;
    }
    Ok(match pumped.end {
        LinkEnd::Frame(_) => turn.answered(),
        _ => Outcome::Done,
    })
}
