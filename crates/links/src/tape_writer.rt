//! A writer over memory.
ghost use Rattle.std.specs.Prelude.{◌≡◌, [], Some, IsErr, IsOk, IsTrue, IfOk, OnOk, OnErr, false, length, min};
ghost use Rattle.std.specs.Io.{WritesAtMost};
ghost use Rattle.std.specs.Io.KnownBytes.{WriteAppends};
ghost use Rattle.links.specs.Counting.{counted, has_risen, moves_none};

use crate::metered::MeteredWrite;
use std::alloc::{Allocator, Global};
use std::io;
use std::io::{ErrorKind, Write};
use std::marker::Model;

/// A writer onto a tape in memory, with a limit on the bytes of a call. It can be told to fail at one call.
#[derive(Drop)]
pub struct TapeWriter<A: Allocator = Global> {
    bytes: Vec<u8, A>,
    most: usize,
    fails: Option<usize>,
    calls: usize,
    failures: u64,
    took_none: bool,
}

impl<A: Allocator> Model for TapeWriter<A> {
    ghost use Rattle.links.specs.Tape.{WriteTape};

    ghost Value = { WriteTape };

    ghost view = { λ t. record {
      bytes = t.bytes.items;
      most = t.most;
      fails = t.fails;
      calls = t.calls;
      failures = t.failures;
      took_none = t.took_none;
    } };
}

impl<A: Allocator> TapeWriter<A> {
    /// Creates a writer that takes at most `most` bytes in each call. Call number `fails`, counted from 0, fails and
    /// takes nothing, as does a call whose allocation is refused.
    pub fn new(alloc: A, most: usize, fails: Option<usize>) -> TapeWriter<A>
        ensures { result
            ≡ record { bytes = []; most = most; fails = fails; calls = 0; failures = 0; took_none = false } }
    {
        TapeWriter {
            bytes: Vec::new(alloc),
            most,
            fails,
            calls: 0,
            failures: 0,
            took_none: false,
        }
    }

    /// Returns the bytes that were written.
    pub fn as_slice(&self) -> &[u8]
        ensures { result.now ≡ self.now.bytes }
    {
        self.bytes.as_slice()
    }

    /// Counts a failed call and returns its error.
    fn fail(&mut self) -> io::Error
        ensures failure { IsTrue (has_risen self.old.failures self.new.failures) }
        ensures rest { self.new ≡ record self.old { failures = self.new.failures } }
    {
        self.failures = self.failures.saturating_add(1);
        io::Error::from(ErrorKind::Other)
    }
}

impl<A: Allocator> Write for TapeWriter<A> {
    ghost contents = { λ t. Some t.bytes };

    fn write(&mut self, buf: &[u8]) -> io::Result<usize>
        ensures bound { WritesAtMost result buf.now }
        ensures bytes { WriteAppends (Some self.old.bytes) (Some self.new.bytes) result buf.now }
        ensures counts { self.new.calls ≡ counted self.old.calls 1 }
        ensures last { self.new.took_none ≡ moves_none result buf.now }
        ensures ok { OnOk result (self.new.failures ≡ self.old.failures) }
        ensures err { OnErr result (IsTrue (has_risen self.old.failures self.new.failures)) }
        ensures fails { self.old.fails ≡ Some self.old.calls → IsErr result }
        ensures amount { IfOk result (λ n. n ≡ min self.old.most (length buf.now)) }
        ensures most { self.new.most ≡ self.old.most }
        ensures same_fails { self.new.fails ≡ self.old.fails }
    {
        let call = self.calls;
        self.calls = call.saturating_add(1);
        self.took_none = false;
        if self.fails == Some(call) {
            return Err(self.fail());
        }
        let n = self.most.min(buf.len());
        if self.bytes.extend_from_slice(&buf[..n]).is_err() {
            return Err(self.fail());
        }
        self.took_none = n == 0 && !buf.is_empty();
        Ok(n)
    }

    fn flush(&mut self) -> io::Result<()>
        ensures same { self.new ≡ self.old }
        ensures ok { IsOk result }
    {
        Ok(())
    }
}

impl<A: Allocator> MeteredWrite for TapeWriter<A> {
    ghost failed = { λ t. t.failures };

    ghost took_none = { λ t. t.took_none };

    fn failures(&self) -> u64 {
        self.failures
    }

    fn write_counted(&mut self, buf: &[u8]) -> io::Result<usize> {
        self.write(buf)
    }
}
