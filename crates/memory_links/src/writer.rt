//! The end of a pipe where bytes go in.
ghost use Rattle.std.specs.Prelude.{◌≡◌, None, IsTrue, OnOk, OnErr, false};
ghost use Rattle.std.specs.Io.{WritesAtMost};
ghost use Rattle.links.specs.Counting.{has_risen, moves_none};

use crate::pipe::Pipe;
use links::MeteredWrite;
use std::alloc::{Allocator, Global};
use std::io;
use std::io::{ErrorKind, Write};
use std::sync::{Arc, Wait};

/// Writes bytes into a pipe, whose size is limited only by memory. If an allocation is refused, the write fails. The
/// reader reaches its end once the writer is dropped.
pub struct PipeWriter<R: Wait + Drop, A: Allocator + Copy = Global> {
    rt: R,
    pipe: Arc<Pipe<A>, A>,
    failures: u64,
}

impl<R: Wait + Drop, A: Allocator + Copy> Drop for PipeWriter<R, A> {
    fn drop(self) {
        let PipeWriter {
            rt,
            pipe,
            failures: _,
        } = self;
        pipe.end(&rt);
    }
}

impl<R: Wait + Drop, A: Allocator + Copy> PipeWriter<R, A> {
    /// The writer of a pipe.
    pub(crate) fn new(rt: R, pipe: Arc<Pipe<A>, A>) -> PipeWriter<R, A> {
        PipeWriter {
            rt,
            pipe,
            failures: 0,
        }
    }
}

impl<R: Wait + Drop, A: Allocator + Copy> Write for PipeWriter<R, A> {
    ghost contents = { λ _. None };

    fn write(&mut self, buf: &[u8]) -> io::Result<usize>
        ensures bound { WritesAtMost result buf.now }
        ensures last { moves_none result buf.now ≡ false }
        ensures ok { OnOk result (self.new.failures ≡ self.old.failures) }
        ensures err { OnErr result (IsTrue (has_risen self.old.failures self.new.failures)) }
    {
        if self.pipe.write(&self.rt, buf).is_err() {
            self.failures = self.failures.saturating_add(1);
            return Err(io::Error::from(ErrorKind::Other));
        }
        Ok(buf.len())
    }

    fn flush(&mut self) -> io::Result<()> {
        Ok(())
    }
}

impl<R: Wait + Drop, A: Allocator + Copy> MeteredWrite for PipeWriter<R, A> {
    ghost failed = { λ w. w.failures };

    ghost took_none = { λ w. false };

    fn failures(&self) -> u64 {
        self.failures
    }

    fn write_counted(&mut self, buf: &[u8]) -> io::Result<usize> {
        self.write(buf)
    }
}
