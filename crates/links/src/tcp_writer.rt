//! The writing end of a TCP connection.
ghost use Rattle.std.specs.Prelude.{◌≡◌, None, IsTrue, OnOk, OnErr};
ghost use Rattle.std.specs.Io.{WritesAtMost};
ghost use Rattle.links.specs.Counting.{has_risen, moves_none};

use crate::metered::MeteredWrite;
use crate::metered_writer::MeteredWriter;
use std::io;
use std::io::Write;
use std::net::TcpStream;

/// The writer of a TCP connection. It sends each write at once (`TCP_NODELAY`), instead of waiting for more bytes.
///
/// A write blocks while the connection has no room. Its errors are those of the stream: `BrokenPipe` or
/// `ConnectionReset` once the connection is closed, `WouldBlock` once a write timeout that was set on the stream has
/// passed, and `Interrupted` if a signal came. Each counts as failed.
#[derive(Drop)]
pub struct TcpWriter {
    metered: MeteredWriter<TcpStream>,
}

impl TcpWriter {
    /// Creates a writer to a connection, which was accepted or made by `connect`. The only error is the system's,
    /// if it refuses to set `TCP_NODELAY`. The connection is closed then.
    pub fn new(stream: TcpStream) -> io::Result<TcpWriter> {
        stream.set_nodelay(true)?;
        Ok(TcpWriter {
            metered: MeteredWriter::new(stream),
        })
    }
}

impl Write for TcpWriter {
    ghost contents = { λ _. None };

    fn write(&mut self, buf: &[u8]) -> io::Result<usize>
        ensures bound { WritesAtMost result buf.now }
        ensures last { self.new.metered.took_none ≡ moves_none result buf.now }
        ensures ok { OnOk result (self.new.metered.failures ≡ self.old.metered.failures) }
        ensures err { OnErr result (IsTrue (has_risen self.old.metered.failures self.new.metered.failures)) }
    {
        self.metered.write(buf)
    }

    fn flush(&mut self) -> io::Result<()> {
        self.metered.flush()
    }
}

impl MeteredWrite for TcpWriter {
    ghost failed = { λ w. w.metered.failures };

    ghost took_none = { λ w. w.metered.took_none };

    fn failures(&self) -> u64 {
        self.metered.failures()
    }

    fn write_counted(&mut self, buf: &[u8]) -> io::Result<usize> {
        self.write(buf)
    }
}
