//! Counting the failures of any writer.
ghost use Rattle.std.specs.Prelude.{◌≡◌, IsTrue, OnOk, OnErr, false};
ghost use Rattle.std.specs.Io.{WritesAtMost};
ghost use Rattle.std.specs.Io.KnownBytes.{Keeps, WriteAppends};
ghost use Rattle.links.specs.Counting.{has_risen, moves_none};

use crate::metered::MeteredWrite;
use std::io;
use std::io::Write;
use std::marker::Model;

/// A writer together with the count of its failed calls. It makes a `MeteredWrite` of any `Write`.
///
/// It hands bytes to the writer that it holds, and returns that writer's errors. A failed flush is not counted.
#[derive(Drop)]
pub struct MeteredWriter<W> {
    writer: W,
    failures: u64,
    took_none: bool,
}

impl<W> Model for MeteredWriter<W> {
    ghost use Rattle.links.specs.Metering.{CountedWriter};

    ghost Value = { CountedWriter W };

    ghost view = { λ m. record { writer = m.writer; failures = m.failures; took_none = m.took_none } };
}

impl<W> MeteredWriter<W> {
    /// Holds `writer`, with no failure counted yet.
    pub fn new(writer: W) -> MeteredWriter<W>
        ensures { result ≡ record { writer = writer; failures = 0; took_none = false } }
    {
        MeteredWriter {
            writer,
            failures: 0,
            took_none: false,
        }
    }

    /// Returns the writer that it holds.
    pub fn get_ref(&self) -> &W
        ensures { result.now ≡ self.now.writer }
    {
        &self.writer
    }
}

impl<W: Write> Write for MeteredWriter<W> {
    ghost contents = { λ m. W.contents m.writer };

    fn write(&mut self, buf: &[u8]) -> io::Result<usize>
        ensures bound { WritesAtMost result buf.now }
        ensures bytes { WriteAppends (W.contents self.old.writer) (W.contents self.new.writer) result buf.now }
        ensures last { self.new.took_none ≡ moves_none result buf.now }
        ensures ok { OnOk result (self.new.failures ≡ self.old.failures) }
        ensures err { OnErr result (IsTrue (has_risen self.old.failures self.new.failures)) }
    {
        self.took_none = false;
        match self.writer.write(buf) {
            Ok(n) => {
                self.took_none = n == 0 && !buf.is_empty();
                Ok(n)
            }
            Err(error) => {
                self.failures = self.failures.saturating_add(1);
                Err(error)
            }
        }
    }

    fn flush(&mut self) -> io::Result<()>
        ensures bytes { Keeps (W.contents self.old.writer) (W.contents self.new.writer) }
        ensures failures { self.new.failures ≡ self.old.failures }
        ensures last { self.new.took_none ≡ self.old.took_none }
    {
        self.writer.flush()
    }
}

impl<W: Write> MeteredWrite for MeteredWriter<W> {
    ghost failed = { λ m. m.failures };

    ghost took_none = { λ m. m.took_none };

    fn failures(&self) -> u64 {
        self.failures
    }

    fn write_counted(&mut self, buf: &[u8]) -> io::Result<usize> {
        self.write(buf)
    }
}
