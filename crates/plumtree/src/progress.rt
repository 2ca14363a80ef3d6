//! The line on a terminal that says how far a run is.
use loopback::Watch;
use std::alloc::Global;
use std::io;
use std::io::Write;
use std::rt::Files;

/// The line is written anew every `LOOKS` looks.
const LOOKS: u64 = 20;

/// Where the system says what standard error is, which the standard library does not tell.
const STANDARD_ERROR: &str = "/proc/self/fd/2";

/// Whether standard error is a terminal, as far as the system says.
pub fn is_terminal<R: Files>(rt: &R, alloc: Global) -> bool {
    match rt.read_link(alloc, STANDARD_ERROR) {
        Ok(path) => {
            let path = path.as_str();
            path.starts_with("/dev/pts/") || path.starts_with("/dev/tty")
        }
        Err(_) => false,
    }
}

/// Writes how far a run is, over what it wrote before.
#[derive(Drop)]
pub struct Progress<'a, F: Write> {
    stream: &'a mut F,
    /// Whether it still writes. It stops once a write has failed.
    is_shown: bool,
    has_failed: bool,
    looks: u64,
}

impl<'a, F: Write> Progress<'a, F> {
    /// Starts the line of a run, which is written only if `is_shown` is set.
    pub fn new(stream: &'a mut F, is_shown: bool) -> Progress<'a, F> {
        Progress {
            stream,
            is_shown,
            has_failed: false,
            looks: 0,
        }
    }

    /// Erases the line. Returns whether all of its writes succeeded.
    pub fn end(self) -> bool {
        if self.is_shown && self.looks > 0 {
            return clear(self.stream).is_ok();
        }
        !self.has_failed
    }
}

/// Erases the line that the terminal's cursor is in.
fn clear<F: Write>(stream: &mut F) -> io::Result<()> {
    write!(stream, "\r\x1b[K")?;
    stream.flush()
}

/// Writes the line.
fn show<F: Write>(stream: &mut F, ticks: u64, of: u32, deliveries: usize) -> io::Result<()> {
    write!(
        stream,
        "\r\x1b[Kplumtree: tick {ticks} of {of}, {deliveries} deliveries"
    )?;
    stream.flush()
}

impl<'a, F: Write> Watch for Progress<'a, F> {
    fn look(&mut self, ticks: u64, of: u32, deliveries: usize) {
        if self.is_shown
            && self.looks % LOOKS == 0
            && show(self.stream, ticks, of, deliveries).is_err()
        {
            self.is_shown = false;
            self.has_failed = true;
        }
        self.looks = self.looks.wrapping_add(1);
    }
}
