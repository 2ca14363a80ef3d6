//! What goes through: frames that are written, and bytes that are cut into frames.
use crate::streams::stream::Stream;
use anyhow::Result;
use frames::{Cutter, FrameFault, encode};
use std::alloc::{AllocError, Global};

/// More rounds than any count of bytes needs.
const MANY_ROUNDS: u64 = u64::MAX;

/// More frames than end in one piece.
const MANY_FRAMES: usize = 200;

/// How many bytes and frames went through.
#[derive(Clone, Copy)]
pub(crate) struct Through {
    pub(crate) bytes: u64,
    pub(crate) frames: u64,
}

impl Through {
    const NOTHING: Through = Through {
        bytes: 0,
        frames: 0,
    };

    fn add(&mut self, bytes: usize, frames: u64) {
        self.bytes = self.bytes.saturating_add(bytes as u64);
        self.frames = self.frames.saturating_add(frames);
    }
}

/// Writes the frames once.
fn write_once(alloc: Global, stream: &Stream, through: &mut Through) -> Result<(), AllocError> {
    for frame in stream.frames.as_slice() {
        let written = encode(alloc, frame)?;
        through.add(written.len(), 1);
    }
    Ok(())
}

/// Writes the frames at least once, and until `enough` bytes are written.
pub(crate) fn write(alloc: Global, stream: &Stream, enough: u64) -> Result<Through> {
    let mut through = Through::NOTHING;
    for _ in 0..MANY_ROUNDS {
        write_once(alloc, stream, &mut through)?;
        if through.bytes >= enough {
            break;
        }
    }
    Ok(through)
}

/// Takes the whole frames out of a cutter, and returns their number.
fn take_frames(cutter: &mut Cutter) -> Result<u64, FrameFault> {
    let mut frames = 0u64;
    for _ in 0..MANY_FRAMES {
        match cutter.next()? {
            Some(_) => frames = frames.saturating_add(1),
            None => break,
        }
    }
    Ok(frames)
}

/// Cuts the stream once, fed in pieces of this size.
fn cut_once(
    cutter: &mut Cutter,
    stream: &Stream,
    size: usize,
    through: &mut Through,
) -> Result<()> {
    for piece in stream.bytes.as_slice().chunks(size.max(1)) {
        cutter.feed(piece)?;
        let frames = take_frames(cutter)?;
        through.add(piece.len(), frames);
    }
    Ok(())
}

/// Cuts the stream at least once, and until `enough` bytes are cut.
pub(crate) fn cut(alloc: Global, stream: &Stream, size: usize, enough: u64) -> Result<Through> {
    let mut cutter = Cutter::new(alloc);
    let mut through = Through::NOTHING;
    for _ in 0..MANY_ROUNDS {
        cut_once(&mut cutter, stream, size, &mut through)?;
        if through.bytes >= enough {
            break;
        }
    }
    Ok(through)
}
