//! Readers and writers that count their calls and their failures.
ghost use Rattle.std.specs.Prelude.{◌≡◌, ◌≢◌, ◌≤◌, ℕ, Bool, IsTrue, IfErr, OnOk, OnErr};
ghost use Rattle.std.specs.IoError.{error_kind};
ghost use Rattle.std.specs.Io.{ReadsAtMost, WritesAtMost};
ghost use Rattle.std.specs.Io.KnownBytes.{ReadConsumes, WriteAppends};
ghost use Rattle.links.specs.Counting.{counted, has_risen, moves_none};

use std::io;
use std::io::{ErrorKind, Read, Write};

/// A reader that counts its calls and its failed calls, since the contracts of `Read` do not say how often a call is
/// made. The counts saturate at `u64::MAX`.
pub trait MeteredRead: Read {
    /// The number of calls.
    ghost reads: { Self → ℕ };

    /// The number of failed calls.
    ghost failed: { Self → ℕ };

    /// Whether the last call read no byte into a buffer that had room.
    ghost gave_none: { Self → Bool };

    /// Returns the number of failed calls.
    fn failures(&self) -> u64
        ensures { result ≡ failed self.now };

    /// Reads like `read` and counts the call. A call that returns an error counts as failed, unless the error is
    /// `Interrupted`.
    fn read_counted(&mut self, buf: &mut [u8]) -> io::Result<usize>
        ensures bound { ReadsAtMost result buf.new }
        ensures bytes { ReadConsumes (Self.remaining self.old) (Self.remaining self.new) result buf.new }
        ensures counts { reads self.new ≡ counted (reads self.old) 1 }
        ensures last { gave_none self.new ≡ moves_none result buf.new }
        ensures ok { OnOk result (failed self.new ≡ failed self.old) }
        ensures err { OnErr result (failed self.old ≤ failed self.new) }
        ensures failure { IfErr result
            (λ e. error_kind e ≢ ErrorKind.Interrupted → IsTrue (has_risen (failed self.old) (failed self.new))) };
}

/// A writer that counts its failed calls. The count saturates at `u64::MAX`.
pub trait MeteredWrite: Write {
    /// The number of failed calls.
    ghost failed: { Self → ℕ };

    /// Whether the last call took no byte of a buffer that had some.
    ghost took_none: { Self → Bool };

    /// Returns the number of failed calls.
    fn failures(&self) -> u64
        ensures { result ≡ failed self.now };

    /// Writes like `write`. A call that returns an error is counted as failed.
    fn write_counted(&mut self, buf: &[u8]) -> io::Result<usize>
        ensures bound { WritesAtMost result buf.now }
        ensures bytes { WriteAppends (Self.contents self.old) (Self.contents self.new) result buf.now }
        ensures last { took_none self.new ≡ moves_none result buf.now }
        ensures ok { OnOk result (failed self.new ≡ failed self.old) }
        ensures err { OnErr result (IsTrue (has_risen (failed self.old) (failed self.new))) };
}
