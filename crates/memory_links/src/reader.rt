//! The end of a pipe where bytes come out.
ghost use Rattle.std.specs.Prelude.{◌≡◌, None, IsOk};
ghost use Rattle.std.specs.Io.{ReadsAtMost};
ghost use Rattle.links.specs.Counting.{counted, moves_none};

use crate::pipe::Pipe;
use links::MeteredRead;
use std::alloc::{Allocator, Global};
use std::io;
use std::io::Read;
use std::sync::{Arc, Wait};

/// Reads the bytes of a pipe, and waits while there are none. It reaches the end once the writer is dropped and all
/// bytes are read. It never fails.
#[derive(Drop)]
pub struct PipeReader<R: Wait + Drop, A: Allocator = Global> {
    rt: R,
    pipe: Arc<Pipe<A>, A>,
    reads: u64,
    gave_none: bool,
}

impl<R: Wait + Drop, A: Allocator> PipeReader<R, A> {
    /// The reader of a pipe.
    pub(crate) fn new(rt: R, pipe: Arc<Pipe<A>, A>) -> PipeReader<R, A> {
        PipeReader {
            rt,
            pipe,
            reads: 0,
            gave_none: false,
        }
    }
}

impl<R: Wait + Drop, A: Allocator + Copy> Read for PipeReader<R, A> {
    ghost remaining = { λ _. None };

    fn read(&mut self, buf: &mut [u8]) -> io::Result<usize>
        ensures bound { ReadsAtMost result buf.new }
        ensures ok { IsOk result }
        ensures counts { self.new.reads ≡ counted self.old.reads 1 }
        ensures last { self.new.gave_none ≡ moves_none result buf.new }
    {
        self.reads = self.reads.saturating_add(1);
        let n = self.pipe.read(&self.rt, buf);
        self.gave_none = n == 0 && !buf.is_empty();
        Ok(n)
    }
}

impl<R: Wait + Drop, A: Allocator + Copy> MeteredRead for PipeReader<R, A> {
    ghost reads = { λ r. r.reads };

    ghost failed = { λ r. 0 };

    ghost gave_none = { λ r. r.gave_none };

    fn failures(&self) -> u64 {
        0
    }

    fn read_counted(&mut self, buf: &mut [u8]) -> io::Result<usize> {
        self.read(buf)
    }
}
