//! Strangers that dial nodes, and a peer that takes nothing.
use crate::group::any_port;
use anyhow::Result;
use mio::net::{TcpListener, TcpStream};
use std::alloc::{AllocError, Global};
use std::io::Write;
use std::net::{Net, SocketAddr};

/// The name of the peer that takes nothing.
pub(crate) const DEAF: &[u8] = b"deaf";

/// How many strangers stay at most.
const MOST: usize = 64;

/// What is no frame.
const GARBAGE: &[u8] = b"\0\0\0\x05what is no frame";

/// The front of a frame.
const PART: &[u8] = b"\0\0\x01\0\x01\x08";

/// A JOIN of the peer that takes nothing.
const JOIN: &[u8] = b"\0\0\0\x17\x01\x01\x04deaf\0\0\0\0\0\0\0\x01\0\0\0\0\0\0\0\x01";

/// Connections of strangers, and where the peer listens that takes nothing.
#[derive(Drop)]
pub(crate) struct Strangers {
    streams: Vec<TcpStream>,
    deaf: TcpListener,
    /// How many strangers have dialled.
    pub(crate) dialled: u64,
    /// How many connections the peer that takes nothing has reset.
    pub(crate) reset: u64,
}

/// Dials an address, and sends these bytes, as far as the system takes them.
fn dial<R: Net>(rt: &R, at: SocketAddr, bytes: &[u8]) -> Option<TcpStream> {
    let mut stream = TcpStream::connect(rt, at).ok()?;
    stream.write(bytes).ok()?;
    Some(stream)
}

/// What stranger number `count` sends.
fn bytes_of(count: u64) -> &'static [u8] {
    match count % 4 {
        0 => GARBAGE,
        1 => PART,
        2 => JOIN,
        _ => b"",
    }
}

impl Strangers {
    /// There are none yet.
    pub(crate) fn new<R: Net>(rt: &R, alloc: Global) -> Result<Strangers> {
        Ok(Strangers {
            streams: Vec::new(alloc),
            deaf: TcpListener::bind(rt, any_port()?)?,
            dialled: 0,
            reset: 0,
        })
    }

    /// Where the peer listens that takes nothing.
    pub(crate) fn deaf_at(&self) -> Result<SocketAddr> {
        Ok(self.deaf.local_addr()?)
    }

    /// One more dials this address. Where there are many, another goes away.
    pub(crate) fn dial<R: Net>(&mut self, rt: &R, at: SocketAddr) -> Result<(), AllocError> {
        let Some(stream) = dial(rt, at, bytes_of(self.dialled)) else {
            return Ok(());
        };
        self.dialled = self.dialled.saturating_add(1);
        if self.streams.len() >= MOST {
            self.streams.swap_remove(0);
        }
        self.streams.push(stream)?;
        Ok(())
    }

    /// The peer that takes nothing closes a connection with what came unread.
    pub(crate) fn reset_one(&mut self) {
        if self.deaf.accept().is_ok() {
            self.reset = self.reset.saturating_add(1);
        }
    }

    /// All go away.
    pub(crate) fn leave(&mut self) {
        self.streams.clear();
    }
}
