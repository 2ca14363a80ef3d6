//! The bytes of a read.
ghost use Rattle.std.specs.Prelude.{◌≡◌, ◌≤◌, vec_len};

use mio::net::TcpStream;
use std::alloc::{AllocError, Allocator};
use std::io;
use std::io::Read;

/// How many bytes are read at most by one call.
const SIZE: usize = 65_536;

/// The bytes of the last read that the node has not taken yet, and the place of the connection that they came over.
#[derive(Drop)]
pub(crate) struct Buffer<A: Allocator> {
    bytes: Vec<u8, A>,
    from: usize,
    to: usize,
    place: usize,
    ghost ordered: { from ≤ to },
    ghost within: { to ≤ vec_len bytes },
}

impl<A: Allocator> Buffer<A> {
    /// Makes an empty buffer.
    pub(crate) fn new(alloc: A) -> Result<Buffer<A>, AllocError> {
        Ok(Buffer {
            bytes: Vec::from_elem(alloc, 0, SIZE)?,
            from: 0,
            to: 0,
            place: 0,
        })
    }

    /// Reads once from the stream of the connection at this place. Returns how many bytes came; 0 is the end.
    pub(crate) fn read(&mut self, stream: &mut TcpStream, place: usize) -> io::Result<usize> {
        let count = stream.read(&mut self.bytes)?;
        self.from = 0;
        self.to = count;
        self.place = place;
        Ok(count)
    }

    /// The place of the connection that the bytes came over.
    pub(crate) fn place(&self) -> usize {
        self.place
    }

    /// The bytes that were not taken yet.
    pub(crate) fn rest(&self) -> &[u8] {
        &self.bytes[self.from..self.to]
    }

    /// Drops the first of the bytes: they were taken.
    pub(crate) fn skip(&mut self, count: usize) {
        self.from += count.min(self.to - self.from);
    }

    /// Drops all bytes.
    pub(crate) fn clear(&mut self) {
        self.from = self.to;
    }
}
