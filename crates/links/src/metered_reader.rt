//! Counting the calls of any reader.
ghost use Rattle.std.specs.Prelude.{◌≡◌, ◌≢◌, ◌≤◌, IsTrue, IfErr, OnOk, OnErr, false};
ghost use Rattle.std.specs.Io.{ReadsAtMost};
ghost use Rattle.std.specs.Io.KnownBytes.{ReadConsumes};
ghost use Rattle.std.specs.IoError.{error_kind};
ghost use Rattle.links.specs.Counting.{counted, has_risen, moves_none};

use crate::metered::MeteredRead;
use std::io;
use std::io::{ErrorKind, Read};
use std::marker::Model;

/// A reader together with the counts of its calls. It makes a `MeteredRead` of any `Read`.
///
/// It gives the bytes of the reader that it holds, and returns that reader's errors. A call that returns `Interrupted`
/// does not count as failed.
#[derive(Drop)]
pub struct MeteredReader<R> {
    reader: R,
    reads: u64,
    failures: u64,
    gave_none: bool,
}

impl<R> Model for MeteredReader<R> {
    ghost use Rattle.links.specs.Metering.{CountedReader};

    ghost Value = { CountedReader R };

    ghost view = { λ m. record { reader = m.reader; reads = m.reads; failures = m.failures; gave_none = m.gave_none } };
}

impl<R> MeteredReader<R> {
    /// Holds `reader`, with no call counted yet.
    pub fn new(reader: R) -> MeteredReader<R>
        ensures { result ≡ record { reader = reader; reads = 0; failures = 0; gave_none = false } }
    {
        MeteredReader {
            reader,
            reads: 0,
            failures: 0,
            gave_none: false,
        }
    }

    /// Returns the reader that it holds.
    pub fn get_ref(&self) -> &R
        ensures { result.now ≡ self.now.reader }
    {
        &self.reader
    }

    /// Counts a failed call, unless `error` is `Interrupted`, and returns `error`.
    fn count(&mut self, error: io::Error) -> io::Error
        ensures failure { error_kind result ≢ ErrorKind.Interrupted
            → IsTrue (has_risen self.old.failures self.new.failures) }
        ensures more { self.old.failures ≤ self.new.failures }
        ensures rest { self.new ≡ record self.old { failures = self.new.failures } }
    {
        match error.kind() {
            ErrorKind::Interrupted => error,
            _ => {
                self.failures = self.failures.saturating_add(1);
                error
            }
        }
    }
}

impl<R: Read> Read for MeteredReader<R> {
    ghost remaining = { λ m. R.remaining m.reader };

    fn read(&mut self, buf: &mut [u8]) -> io::Result<usize>
        ensures bound { ReadsAtMost result buf.new }
        ensures bytes { ReadConsumes (R.remaining self.old.reader) (R.remaining self.new.reader) result buf.new }
        ensures counts { self.new.reads ≡ counted self.old.reads 1 }
        ensures last { self.new.gave_none ≡ moves_none result buf.new }
        ensures ok { OnOk result (self.new.failures ≡ self.old.failures) }
        ensures err { OnErr result (self.old.failures ≤ self.new.failures) }
        ensures failure { IfErr result
            (λ e. error_kind e ≢ ErrorKind.Interrupted → IsTrue (has_risen self.old.failures self.new.failures)) }
    {
        self.reads = self.reads.saturating_add(1);
        self.gave_none = false;
        match self.reader.read(buf) {
            Ok(n) => {
                self.gave_none = n == 0 && !buf.is_empty();
                Ok(n)
            }
            Err(error) => Err(self.count(error)),
        }
    }
}

impl<R: Read> MeteredRead for MeteredReader<R> {
    ghost reads = { λ m. m.reads };

    ghost failed = { λ m. m.failures };

    ghost gave_none = { λ m. m.gave_none };

    fn failures(&self) -> u64 {
        self.failures
    }

    fn read_counted(&mut self, buf: &mut [u8]) -> io::Result<usize> {
        self.read(buf)
    }
}
