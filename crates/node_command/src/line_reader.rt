//! Reading the lines of an input, whatever its bytes.
use std::alloc::{AllocError, Allocator};
use std::io;
use std::io::{BufRead, ErrorKind};

/// What was read.
#[derive(Clone, Copy, Debug, PartialEq, Eq)]
pub(crate) enum Found {
    /// A line, without its end.
    Line,
    /// A line that is longer than may be. None of it is there.
    TooLong,
    /// The end of the input.
    End,
}

/// Reads lines of at most so many bytes.
#[derive(Drop)]
pub(crate) struct LineReader<A: Allocator> {
    line: Vec<u8, A>,
    most: usize,
    /// Whether the line that is being read is longer.
    is_too_long: bool,
}

/// What a read of a part of a line found.
#[derive(Clone, Copy)]
enum Piece {
    /// Bytes of the line, which goes on.
    Bytes,
    /// The line's end.
    LineEnd,
    /// The end of the input.
    End,
    /// Nothing, but there may be some.
    Interruption,
}

impl<A: Allocator + Copy> LineReader<A> {
    /// Makes a reader of lines of at most `most` bytes.
    pub(crate) fn new(alloc: A, most: usize) -> LineReader<A> {
        LineReader {
            line: Vec::new(alloc),
            most,
            is_too_long: false,
        }
    }

    /// The line that was read last.
    pub(crate) fn line(&self) -> &[u8] {
        &self.line
    }

    /// Reads the next line.
    pub(crate) fn read<B: BufRead>(&mut self, input: &mut B) -> io::Result<Found> {
        self.line.clear();
        self.is_too_long = false;
        let mut is_empty = true;
        for _ in 0..u64::MAX {
            match self.read_some(input)? {
                Piece::Interruption => {}
                Piece::Bytes => is_empty = false,
                Piece::LineEnd => return Ok(self.found(false)),
                Piece::End => return Ok(self.found(is_empty)),
            }
        }
        Ok(Found::End)
    }

    /// What was read, where `is_empty` says that nothing was.
    fn found(&self, is_empty: bool) -> Found {
        if is_empty {
            Found::End
        } else if self.is_too_long {
            Found::TooLong
        } else {
            Found::Line
        }
    }

    /// Reads some bytes of the line.
    fn read_some<B: BufRead>(&mut self, input: &mut B) -> io::Result<Piece> {
        let bytes = match input.fill_buf() {
            Ok([]) => return Ok(Piece::End),
            Ok(bytes) => bytes,
            Err(error) if error.kind() == ErrorKind::Interrupted => return Ok(Piece::Interruption),
            Err(error) => return Err(error),
        };
        match bytes.iter().position(|byte| *byte == b'\n') {
            Some(place) => {
                let place = place.min(bytes.len() - 1);
                self.keep(&bytes[..place])?;
                input.consume(place + 1);
                Ok(Piece::LineEnd)
            }
            None => {
                let count = bytes.len();
                self.keep(bytes)?;
                input.consume(count);
                Ok(Piece::Bytes)
            }
        }
    }

    /// Keeps these bytes of the line, if it is no longer than may be.
    fn keep(&mut self, bytes: &[u8]) -> Result<(), AllocError> {
        if bytes.len() > self.most.saturating_sub(self.line.len()) {
            self.is_too_long = true;
        }
        if self.is_too_long {
            self.line.clear();
            return Ok(());
        }
        self.line.extend_from_slice(bytes)
    }
}
