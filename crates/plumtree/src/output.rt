//! Standard output, to which nothing more goes after a failed write.
ghost use Rattle.std.specs.Prelude.{◌≡◌, ◌≢◌, true, None, IfErr, IsErr};
ghost use Rattle.std.specs.Io.{WritesAtMost};
ghost use Rattle.std.specs.IoError.{error_kind};

use std::io;
use std::io::{ErrorKind, Write};

/// Passes bytes on until a call fails, and fails from then on.
///
/// A buffer in front of it writes what it still holds when it is dropped. After a failed write that would leave a gap
/// in the output, or wait once more for whoever reads it.
#[derive(Drop)]
pub struct Output<W: Write + Drop> {
    stream: W,
    has_failed: bool,
}

impl<W: Write + Drop> Output<W> {
    /// Passes bytes on to this stream.
    pub fn new(stream: W) -> Output<W> {
        Output {
            stream,
            has_failed: false,
        }
    }
}

/// Returns whether a call failed for good. One that was interrupted is made again by its caller.
fn is_failure<T>(ended: &io::Result<T>) -> bool
    ensures { IfErr ended.now (λ e. error_kind e ≢ ErrorKind.Interrupted → result ≡ true) }
{
    match ended {
        Ok(_) => false,
        Err(error) => error.kind() != ErrorKind::Interrupted,
    }
}

impl<W: Write + Drop> Write for Output<W> {
    ghost contents = { λ _. None };

    fn write(&mut self, buf: &[u8]) -> io::Result<usize>
        ensures bound { WritesAtMost result buf.now }
        ensures silent { self.old.has_failed ≡ true → IsErr result × (self.new ≡ self.old) }
        ensures noted { IfErr result (λ e. error_kind e ≢ ErrorKind.Interrupted → self.new.has_failed ≡ true) }
    {
        if self.has_failed {
            return Err(io::Error::from(ErrorKind::Other));
        }
        let written = self.stream.write(buf);
        self.has_failed = is_failure(&written);
        written
    }

    fn flush(&mut self) -> io::Result<()>
        ensures silent { self.old.has_failed ≡ true → IsErr result × (self.new ≡ self.old) }
        ensures noted { IfErr result (λ e. error_kind e ≢ ErrorKind.Interrupted → self.new.has_failed ≡ true) }
    {
        if self.has_failed {
            return Err(io::Error::from(ErrorKind::Other));
        }
        let flushed = self.stream.flush();
        self.has_failed = is_failure(&flushed);
        flushed
    }
}
