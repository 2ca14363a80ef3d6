//! A reader over memory.
ghost use Rattle.std.specs.Prelude.{◌≡◌, ◌≢◌, ◌≤◌, Some, Ok, IsErr, IsTrue, OnOk, OnErr, false, length};
ghost use Rattle.std.specs.Io.{ReadsAtMost};
ghost use Rattle.std.specs.Io.KnownBytes.{ReadConsumes};
ghost use Rattle.links.specs.Counting.{counted, has_risen, moves_none};
ghost use Rattle.links.specs.Tape.{piece_len};

use crate::metered::MeteredRead;
use bytes::Bytes;
use std::alloc::{Allocator, Global};
use std::io;
use std::io::{ErrorKind, Read};
use std::marker::Model;

/// A reader of a tape in memory, in pieces of given sizes. It can be told to fail at one call.
#[derive(Drop)]
pub struct TapeReader<A: Allocator = Global> {
    bytes: Bytes<A>,
    pieces: Vec<usize, A>,
    fails: Option<usize>,
    calls: usize,
    failures: u64,
    gave_none: bool,
}

impl<A: Allocator> Model for TapeReader<A> {
    ghost use Rattle.links.specs.Tape.{ReadTape};

    ghost Value = { ReadTape };

    ghost view = { λ t. record {
      bytes = t.bytes;
      pieces = t.pieces.items;
      fails = t.fails;
      calls = t.calls;
      failures = t.failures;
      gave_none = t.gave_none;
    } };
}

impl<A: Allocator> TapeReader<A> {
    /// Creates a reader of `bytes`. Call number `k`, counted from 0, reads at most `pieces[k]` bytes, where 0 counts as
    /// 1, or as many as are left and fit if `pieces` is too short. Call number `fails` fails and reads nothing.
    pub fn new(bytes: Bytes<A>, pieces: Vec<usize, A>, fails: Option<usize>) -> TapeReader<A>
        ensures { result ≡ record {
          bytes = bytes;
          pieces = pieces.items;
          fails = fails;
          calls = 0;
          failures = 0;
          gave_none = false;
        } }
    {
        TapeReader {
            bytes,
            pieces,
            fails,
            calls: 0,
            failures: 0,
            gave_none: false,
        }
    }
}

impl<A: Allocator> Read for TapeReader<A> {
    ghost remaining = { λ t. Some t.bytes };

    fn read(&mut self, buf: &mut [u8]) -> io::Result<usize>
        ensures bound { ReadsAtMost result buf.new }
        ensures bytes { ReadConsumes (Some self.old.bytes) (Some self.new.bytes) result buf.new }
        ensures counts { self.new.calls ≡ counted self.old.calls 1 }
        ensures last { self.new.gave_none ≡ moves_none result buf.new }
        ensures ok { OnOk result (self.new.failures ≡ self.old.failures) }
        ensures err { OnErr result (self.old.failures ≤ self.new.failures) }
        ensures failure { OnErr result (IsTrue (has_risen self.old.failures self.new.failures)) }
        ensures fails { self.old.fails ≡ Some self.old.calls → IsErr result }
        ensures amount { self.old.fails ≢ Some self.old.calls → result ≡ Ok (piece_len self.old (length buf.old)) }
        ensures pieces { self.new.pieces ≡ self.old.pieces }
        ensures same_fails { self.new.fails ≡ self.old.fails }
    {
        let call = self.calls;
        self.calls = call.saturating_add(1);
        self.gave_none = false;
        if self.fails == Some(call) {
            self.failures = self.failures.saturating_add(1);
            return Err(io::Error::from(ErrorKind::Other));
        }
        let most = self
            .pieces
            .as_slice()
            .get(call)
            .copied()
            .unwrap_or(usize::MAX);
        let n = most.max(1).min(buf.len()).min(self.bytes.len());
        buf[..n].copy_from_slice(&self.bytes.as_slice()[..n]);
        self.bytes.advance(n);
        self.gave_none = n == 0 && !buf.is_empty();
        Ok(n)
    }
}

impl<A: Allocator> MeteredRead for TapeReader<A> {
    ghost reads = { λ t. t.calls };

    ghost failed = { λ t. t.failures };

    ghost gave_none = { λ t. t.gave_none };

    fn failures(&self) -> u64 {
        self.failures
    }

    fn read_counted(&mut self, buf: &mut [u8]) -> io::Result<usize> {
        self.read(buf)
    }
}
