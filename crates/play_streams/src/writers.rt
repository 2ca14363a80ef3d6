//! A writer that takes no byte at one of its calls.
ghost use Rattle.std.specs.Prelude.{◌≡◌, None, IsTrue, OnOk, OnErr};
ghost use Rattle.std.specs.Io.{WritesAtMost};
ghost use Rattle.links.specs.Counting.{has_risen, moves_none};

use links::{MeteredWrite, TapeWriter};
use std::alloc::Allocator;
use std::io;
use std::io::Write;

/// A writer to memory that takes a limited number of bytes per call, and none at call number `stalls`, counted from 0.
#[derive(Drop)]
pub(crate) struct StallingWriter<A: Allocator> {
    tape: TapeWriter<A>,
    stalls: usize,
    calls: usize,
    took_none: bool,
}

impl<A: Allocator> StallingWriter<A> {
    pub(crate) fn new(alloc: A, most: usize, stalls: usize) -> StallingWriter<A> {
        StallingWriter {
            tape: TapeWriter::new(alloc, most, None),
            stalls,
            calls: 0,
            took_none: false,
        }
    }

    /// Returns the bytes that were written.
    pub(crate) fn as_slice(&self) -> &[u8] {
        self.tape.as_slice()
    }
}

impl<A: Allocator> Write for StallingWriter<A> {
    ghost contents = { λ _. None };

    fn write(&mut self, buf: &[u8]) -> io::Result<usize>
        ensures bound { WritesAtMost result buf.now }
        ensures last { self.new.took_none ≡ moves_none result buf.now }
        ensures ok { OnOk result (self.new.tape.failures ≡ self.old.tape.failures) }
        ensures err { OnErr result (IsTrue (has_risen self.old.tape.failures self.new.tape.failures)) }
    {
        let call = self.calls;
        self.calls = call.saturating_add(1);
        self.took_none = false;
        let n = if call == self.stalls {
            0
        } else {
            self.tape.write(buf)?
        };
        self.took_none = n == 0 && !buf.is_empty();
        Ok(n)
    }

    fn flush(&mut self) -> io::Result<()> {
        Ok(())
    }
}

impl<A: Allocator> MeteredWrite for StallingWriter<A> {
    ghost failed = { λ w. w.tape.failures };

    ghost took_none = { λ w. w.took_none };

    fn failures(&self) -> u64 {
        self.tape.failures()
    }

    fn write_counted(&mut self, buf: &[u8]) -> io::Result<usize> {
        self.write(buf)
    }
}
