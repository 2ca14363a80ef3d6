//! The end of a link where its worker writes.
ghost use Rattle.std.specs.Prelude.{◌≡◌, None, IsTrue, OnOk, OnErr};
ghost use Rattle.std.specs.Io.{WritesAtMost};
ghost use Rattle.links.specs.Counting.{has_risen, moves_none};

use crate::last_use::LastUse;
use crate::pace::pause;
use crate::shortage::Shortage;
use crate::shortages::{Failures, MAX_FAILURES, Shortages};
use links::{LinkEnd, MeteredWrite, MeteredWriter};
use node_threads::Dialler;
use std::alloc::Global;
use std::io;
use std::io::{BufWriter, Write};
use std::net::{Net, SocketAddr, TcpListener, TcpStream};
use std::sync::Arc;
use std::time::Clock;

/// How many bytes are buffered before they are sent: a link often has several frames at once, and a system call costs
/// as much for one of them as for all.
const GATHERED: usize = 16 * 1_024;

/// Writes to a link's connection, and notes when. Bytes are sent at a flush, or when the buffer is full.
#[derive(Drop)]
pub(crate) struct LinkWriter {
    connection: MeteredWriter<BufWriter<TcpStream>>,
    used: Arc<LastUse, Global>,
}

impl Write for LinkWriter {
    ghost contents = { λ _. None };

    fn write(&mut self, buf: &[u8]) -> io::Result<usize>
        ensures bound { WritesAtMost result buf.now }
        ensures last { self.new.connection.took_none ≡ moves_none result buf.now }
        ensures ok { OnOk result (self.new.connection.failures ≡ self.old.connection.failures) }
        ensures err { OnErr result (IsTrue (has_risen self.old.connection.failures self.new.connection.failures)) }
    {
        let written = self.connection.write(buf);
        if written.is_ok() {
            self.used.renew();
        }
        written
    }

    fn flush(&mut self) -> io::Result<()> {
        self.connection.flush()
    }
}

impl MeteredWrite for LinkWriter {
    ghost failed = { λ w. w.connection.failures };

    ghost took_none = { λ w. w.connection.took_none };

    fn failures(&self) -> u64 {
        self.connection.failures()
    }

    fn write_counted(&mut self, buf: &[u8]) -> io::Result<usize> {
        self.write(buf)
    }
}

/// Connects to an address, for a writer that gathers bytes itself, so that each write is sent at once.
fn dial<R: Net<Listener = TcpListener, Stream = TcpStream>>(
    rt: &R,
    at: SocketAddr,
) -> io::Result<TcpStream> {
    let connection = rt.connect(at)?;
    connection.set_nodelay(true)?;
    Ok(connection)
}

/// Connects to an address. If there are too few descriptors, it tries again for a while, and then notes the shortage.
fn dial_on<R: Clock + Net<Listener = TcpListener, Stream = TcpStream>>(
    rt: &R,
    at: SocketAddr,
    shortages: &Shortages,
) -> Option<TcpStream> {
    let mut failures = Failures::new(shortages);
    for _ in 0..MAX_FAILURES {
        match dial(rt, at) {
            Ok(connection) => {
                failures.end();
                return Some(connection);
            }
            Err(error) => {
                if !failures.add(&error) {
                    break;
                }
                pause(rt);
            }
        }
    }
    failures.end();
    None
}

/// Makes the buffered writer of a connection. Its only error is `OutOfMemory`.
fn gather(
    alloc: Global,
    connection: TcpStream,
    used: &Arc<LastUse, Global>,
) -> io::Result<LinkWriter> {
    let buffered = BufWriter::with_capacity(alloc, GATHERED, connection)?;
    Ok(LinkWriter {
        connection: MeteredWriter::new(buffered),
        used: Arc::try_clone(used)?,
    })
}

/// Makes the connections of a link. If one can't be made because of a shortage, it notes that.
#[derive(Drop)]
pub(crate) struct LinkDialler<R: Clock + Net<Listener = TcpListener, Stream = TcpStream> + Drop> {
    pub(crate) rt: R,
    pub(crate) alloc: Global,
    pub(crate) at: SocketAddr,
    pub(crate) used: Arc<LastUse, Global>,
    pub(crate) shortages: Arc<Shortages, Global>,
}

impl<R: Clock + Net<Listener = TcpListener, Stream = TcpStream> + Send + Drop> Dialler
    for LinkDialler<R> {
    type Writer = LinkWriter;

    fn dial(&mut self) -> Result<LinkWriter, LinkEnd> {
        let Some(connection) = dial_on(&self.rt, self.at, &self.shortages) else {
            return Err(LinkEnd::WriteFault { bytes: 0 });
        };
        match gather(self.alloc, connection, &self.used) {
            Ok(writer) => Ok(writer),
            Err(_) => {
                self.shortages.note(Shortage::Memory);
                Err(LinkEnd::OutOfMemory)
            }
        }
    }
}
