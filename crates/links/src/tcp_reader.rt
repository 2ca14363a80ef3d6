//! The reading end of a TCP connection.
ghost use Rattle.std.specs.Prelude.{◌≡◌, ◌≢◌, ◌≤◌, None, IsTrue, IfErr, OnOk, OnErr};
ghost use Rattle.std.specs.Io.{ReadsAtMost};
ghost use Rattle.std.specs.IoError.{error_kind};
ghost use Rattle.links.specs.Counting.{counted, has_risen, moves_none};

use crate::metered::MeteredRead;
use crate::metered_reader::MeteredReader;
use crate::tcp_closer::TcpCloser;
use std::alloc::{AllocError, Global};
use std::io;
use std::io::{ErrorKind, Read};
use std::net::{Shutdown, TcpStream};
use std::sync::Arc;

/// A connection that is shared with its closers.
#[derive(Drop)]
struct SharedStream(Arc<TcpStream, Global>);

impl Read for SharedStream {
    fn read(&mut self, buf: &mut [u8]) -> io::Result<usize> {
        let mut stream: &TcpStream = &self.0;
        stream.read(buf)
    }
}

/// The reader of what a peer writes to a TCP connection.
///
/// A read blocks until bytes arrive or the connection ends, which a closer can cause as well as the peer. At the end it
/// returns `Ok(0)`. Its errors are those of the stream: `ConnectionReset` if the peer dropped the connection while
/// bytes were on their way, `WouldBlock` once a read timeout that was set on the stream has passed, and `Interrupted`
/// if a signal came, which does not count as failed. Dropping the reader shuts the connection down. The descriptor is
/// released once all closers are dropped too.
pub struct TcpReader {
    metered: MeteredReader<SharedStream>,
}

impl Drop for TcpReader {
    fn drop(self) {
        let TcpReader { metered } = self;
        let _ = metered.get_ref().0.shutdown(Shutdown::Both);
    }
}

impl TcpReader {
    /// Creates a reader of a connection, which was accepted or made by `connect`. The only error is that memory for a
    /// few words is refused: kind `OutOfMemory`. The connection is closed then.
    pub fn new(alloc: Global, stream: TcpStream) -> io::Result<TcpReader> {
        let shared = SharedStream(Arc::new(alloc, stream)?);
        Ok(TcpReader {
            metered: MeteredReader::new(shared),
        })
    }

    /// Creates a handle that can close the connection while another thread reads it.
    pub fn closer(&self) -> Result<TcpCloser, AllocError> {
        Ok(TcpCloser::new(Arc::try_clone(&self.metered.get_ref().0)?))
    }
}

impl Read for TcpReader {
    ghost remaining = { λ _. None };

    fn read(&mut self, buf: &mut [u8]) -> io::Result<usize>
        ensures bound { ReadsAtMost result buf.new }
        ensures counts { self.new.metered.reads ≡ counted self.old.metered.reads 1 }
        ensures last { self.new.metered.gave_none ≡ moves_none result buf.new }
        ensures ok { OnOk result (self.new.metered.failures ≡ self.old.metered.failures) }
        ensures err { OnErr result (self.old.metered.failures ≤ self.new.metered.failures) }
        ensures failure { IfErr result (λ e. error_kind e ≢ ErrorKind.Interrupted
            → IsTrue (has_risen self.old.metered.failures self.new.metered.failures)) }
    {
        self.metered.read(buf)
    }
}

impl MeteredRead for TcpReader {
    ghost reads = { λ r. r.metered.reads };

    ghost failed = { λ r. r.metered.failures };

    ghost gave_none = { λ r. r.metered.gave_none };

    fn failures(&self) -> u64 {
        self.metered.failures()
    }

    fn read_counted(&mut self, buf: &mut [u8]) -> io::Result<usize> {
        self.read(buf)
    }
}
