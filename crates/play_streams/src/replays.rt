//! Calls that are made again for each place of a stream: with the stream cut in two there, and with that read or write
//! refused.
use crate::cuts::{Cut, cut_piece};
use crate::drains::{DrainArgs, drain_item, push_drained};
use crate::pumps::{PumpArgs, Pumped, pump_stream};
use frames::Cutter;
use links::LinkEnd;
use play_script::layer::{Outcome, Turn};
use play_script::runs::Runs;
use std::alloc::{AllocError, Allocator, Global};
use std::fmt::Write;

/// More writes than any drain makes.
const MANY: usize = 100;

/// Appends a number of frames.
fn push_count(text: &mut String, frames: usize) -> Result<(), AllocError> {
    match frames {
        1 => text.push_str("1 frame"),
        _ => write!(text, "{frames} frames"),
    }
}

/// Returns how many frames two pieces gave, the fault and how many bytes are left.
fn cut_text(own: Global, cut: &Cut, left: usize) -> Result<String, AllocError> {
    let mut text = String::new(own);
    push_count(&mut text, cut.frames)?;
    if let Some(fault) = cut.fault {
        write!(text, "; {fault}")?;
    }
    write!(text, "; {left} bytes left")?;
    if cut.is_wrong {
        text.push_str("; this is not what the stream holds")?;
    }
    Ok(text)
}

/// Cuts a stream in two pieces, and returns what they gave.
fn cut_in_two<A: Allocator + Copy>(
    own: Global,
    alloc: A,
    stream: &[u8],
    at: usize,
    turn: &mut Turn<'_>,
) -> Result<String, AllocError> {
    let mut frames = String::new(own);
    let mut cutter = Cutter::new(alloc);
    let mut cut = Cut::NONE;
    for piece in [stream.get(..at), stream.get(at..)] {
        let piece = piece.unwrap_or(&[]);
        cut_piece(
            alloc,
            &mut frames,
            &mut cutter,
            stream,
            piece,
            turn,
            &mut cut,
        )?;
    }
    cut_text(own, &cut, cutter.left())
}

/// Cuts a stream in two pieces at each place, and appends what the pieces gave.
pub(crate) fn replay_cut<A: Allocator + Copy>(
    own: Global,
    alloc: A,
    said: &mut String,
    stream: &[u8],
    turn: &mut Turn<'_>,
) -> Result<Outcome, AllocError> {
    let mut runs = Runs::new("fed in two at ", "");
    for at in 1..stream.len() {
        let text = cut_in_two(own, alloc, stream, at, turn)?;
        runs.add(said, at, text)?;
    }
    runs.end(said)?;
    Ok(turn.answered())
}

/// Returns what came of a pump, of whose stream `read` bytes were read before the read that fails.
fn pumped_text(
    own: Global,
    stream: &[u8],
    pumped: &Pumped,
    read: usize,
) -> Result<String, AllocError> {
    let mut text = String::new(own);
    push_count(&mut text, pumped.frames)?;
    if !pumped.is_front {
        text.push_str(", which are not the first of the tape")?;
    }
    write!(text, "; {}", pumped.end)?;
    if pumped.end == LinkEnd::ReadFault {
        if read.saturating_add(pumped.rest) == stream.len() {
            text.push_str("; the rest unread")?;
        } else {
            write!(text, "; {} bytes unread", pumped.rest)?;
        }
    }
    Ok(text)
}

/// Pumps a stream, and returns what came of it.
fn pumped<A: Allocator + Copy>(
    own: Global,
    alloc: A,
    stream: &[u8],
    pieces: Vec<usize>,
    fails: Option<usize>,
    turn: &mut Turn<'_>,
) -> Result<String, AllocError> {
    let args = PumpArgs {
        pieces,
        fails,
        takes: usize::MAX,
        turns: u64::MAX,
    };
    let mut taken = String::new(own);
    let pumped = pump_stream(own, alloc, &mut taken, stream, &args, turn)?;
    pumped_text(own, stream, &pumped, fails.unwrap_or(0))
}

/// Pumps a stream in two pieces, cut at each place. Appends what came of it.
fn replay_pieces<A: Allocator + Copy>(
    own: Global,
    alloc: A,
    said: &mut String,
    stream: &[u8],
    turn: &mut Turn<'_>,
) -> Result<(), AllocError> {
    let mut runs = Runs::new("read in two at ", "");
    for at in 1..stream.len() {
        let pieces = Vec::from_slice(own, &[at])?;
        let text = pumped(own, alloc, stream, pieces, None, turn)?;
        runs.add(said, at, text)?;
    }
    runs.end(said)
}

/// Pumps a stream byte by byte up to each read in turn, which fails. Appends what came of it.
fn replay_reads<A: Allocator + Copy>(
    own: Global,
    alloc: A,
    said: &mut String,
    stream: &[u8],
    turn: &mut Turn<'_>,
) -> Result<(), AllocError> {
    let mut runs = Runs::new("read ", " fails");
    for read in 0..=stream.len() {
        let pieces = vec![in own; 1; read]?;
        let text = pumped(own, alloc, stream, pieces, Some(read), turn)?;
        runs.add(said, read, text)?;
    }
    runs.end(said)
}

/// Pumps a stream in two pieces, cut at each place, and then with each read in turn failing. Appends what came of it.
pub(crate) fn replay_pump<A: Allocator + Copy>(
    own: Global,
    alloc: A,
    said: &mut String,
    stream: &[u8],
    turn: &mut Turn<'_>,
) -> Result<Outcome, AllocError> {
    replay_pieces(own, alloc, said, stream, turn)?;
    replay_reads(own, alloc, said, stream, turn)?;
    Ok(Outcome::Done)
}

/// Drains an item with each write in turn failing, or taking no byte if `stalls`, up to the first write that is not
/// made. Appends what came of it. Returns whether the item is one that a source may give.
fn replay_writes<A: Allocator + Copy>(
    own: Global,
    alloc: A,
    said: &mut String,
    item: &[u8],
    args: DrainArgs,
    stalls: bool,
    turn: &mut Turn<'_>,
) -> Result<bool, AllocError> {
    let mut runs = Runs::new("write ", if stalls { " takes none" } else { " fails" });
    for write in 0..MANY {
        let args = args.varied(write, stalls);
        let Some(drained) = drain_item(own, alloc, item, &args, turn)? else {
            return Ok(false);
        };
        let mut text = String::new(own);
        push_drained(&mut text, &drained)?;
        runs.add(said, write, text)?;
        if drained.answer.is_ok() {
            break;
        }
    }
    runs.end(said)?;
    Ok(true)
}

/// Drains an item with each write in turn failing, and then with each write in turn taking no byte. Appends what came
/// of it.
pub(crate) fn replay_drain<A: Allocator + Copy>(
    own: Global,
    alloc: A,
    said: &mut String,
    item: &[u8],
    args: DrainArgs,
    turn: &mut Turn<'_>,
) -> Result<Outcome, AllocError> {
    let is_given = replay_writes(own, alloc, said, item, args, false, turn)?
        && replay_writes(own, alloc, said, item, args, true, turn)?;
    Ok(if is_given {
        Outcome::Done
    } else {
        Outcome::Unknown
    })
}
