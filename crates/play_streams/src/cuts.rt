//! Cutting a whole stream into frames, in pieces.
use crate::frame_texts::{end_of_frame, push_frame};
use frames::{Cutter, Frame, FrameFault};
use play_script::layer::{Outcome, Turn};
use std::alloc::{AllocError, Allocator};
use std::fmt::Write;

/// How far a stream was cut.
#[derive(Clone, Copy)]
pub(crate) struct Cut {
    /// How many bytes were fed.
    pub(crate) fed: usize,
    /// How many frames were given.
    pub(crate) frames: usize,
    /// How many bytes those frames have.
    pub(crate) bytes: usize,
    /// The fault that was met.
    pub(crate) fault: Option<FrameFault>,
    /// Whether a frame was not the stream's next one, a refusal changed the cutter or was not answered, a fault did not
    /// stay, or the bytes left were not those fed but for those of the frames.
    pub(crate) is_wrong: bool,
}

impl Cut {
    /// Nothing fed yet.
    pub(crate) const NONE: Cut = Cut {
        fed: 0,
        frames: 0,
        bytes: 0,
        fault: None,
        is_wrong: false,
    };
}

/// Feeds a piece, and feeds it again if memory was refused.
fn feed_again<A: Allocator + Copy>(
    cutter: &mut Cutter<A>,
    piece: &[u8],
    turn: &mut Turn<'_>,
    cut: &mut Cut,
) -> Result<(), AllocError> {
    let left = cutter.left();
    turn.begin();
    let fed = cutter.feed(piece);
    let is_spent = turn.end();
    if fed.is_ok() {
        cut.is_wrong |= is_spent;
        return Ok(());
    }
    cut.is_wrong |= !is_spent || cutter.left() != left;
    cutter.feed(piece)
}

/// Asks for a frame, and asks again if memory was refused. A fault may be answered even then.
fn next_again<A: Allocator + Copy>(
    cutter: &mut Cutter<A>,
    turn: &mut Turn<'_>,
    cut: &mut Cut,
) -> Result<Option<Frame<A>>, FrameFault> {
    let left = cutter.left();
    turn.begin();
    let given = cutter.next();
    let is_spent = turn.end();
    match given {
        Ok(given) => {
            cut.is_wrong |= is_spent;
            Ok(given)
        }
        Err(FrameFault::OutOfMemory) => {
            cut.is_wrong |= !is_spent || cutter.left() != left;
            cutter.next()
        }
        Err(fault) => Err(fault),
    }
}

/// Appends a frame, and how many bytes had been fed when it was given.
fn push_next<A: Allocator + Copy>(
    alloc: A,
    said: &mut String,
    stream: &[u8],
    frame: &Frame<A>,
    cut: &mut Cut,
) -> Result<(), AllocError> {
    write!(said, "at {}: ", cut.fed)?;
    push_frame(said, frame)?;
    said.push('\n')?;
    cut.frames = cut.frames.saturating_add(1);
    match end_of_frame(alloc, stream, cut.bytes, frame)? {
        Some(end) => cut.bytes = end,
        None => cut.is_wrong = true,
    }
    Ok(())
}

/// Feeds a piece of a stream, and appends the frames that are then whole.
pub(crate) fn cut_piece<A: Allocator + Copy>(
    alloc: A,
    said: &mut String,
    cutter: &mut Cutter<A>,
    stream: &[u8],
    piece: &[u8],
    turn: &mut Turn<'_>,
    cut: &mut Cut,
) -> Result<(), AllocError> {
    feed_again(cutter, piece, turn, cut)?;
    cut.fed = cut.fed.saturating_add(piece.len());
    for _ in 0..u64::MAX {
        match next_again(cutter, turn, cut) {
            Ok(Some(frame)) => push_next(alloc, said, stream, &frame, cut)?,
            Ok(None) => {
                cut.is_wrong |= cut.fault.is_some();
                break;
            }
            Err(fault) => {
                cut.fault = Some(fault);
                break;
            }
        }
    }
    cut.is_wrong |= cut.bytes.saturating_add(cutter.left()) != cut.fed;
    Ok(())
}

/// Cuts a stream, fed in pieces of `size` bytes, and appends its frames, its fault and how many bytes are left. Each
/// call that is refused memory is made again.
pub(crate) fn push_cut<A: Allocator + Copy>(
    alloc: A,
    said: &mut String,
    stream: &[u8],
    size: usize,
    turn: &mut Turn<'_>,
) -> Result<Outcome, AllocError> {
    let mut cutter = Cutter::new(alloc);
    let mut cut = Cut::NONE;
    for piece in stream.chunks(size.max(1)) {
        cut_piece(alloc, said, &mut cutter, stream, piece, turn, &mut cut)?;
    }
    if let Some(fault) = cut.fault {
        writeln!(said, "{fault}")?;
    }
    if cutter.left() > 0 {
        writeln!(said, "left: {} bytes", cutter.left())?;
    }
    if cut.is_wrong {
        said.push_str("this is not what the stream holds\n")?;
    }
    Ok(turn.answered())
}
