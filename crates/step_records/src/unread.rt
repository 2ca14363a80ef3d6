//! Bytes that were fed and are not read yet.
ghost use Rattle.std.specs.Prelude.{◌≡◌, ◌≤◌, ◌++◌, [], length, drop, OnOk, OnErr};

use std::alloc::{AllocError, Global};
use std::marker::Model;

/// Bytes that were fed and are not read yet. Contracts see it as the list of these bytes.
#[derive(Drop)]
pub(crate) struct Unread {
    bytes: Vec<u8>,
    /// The number of bytes at the front that were read.
    read: usize,
}

impl Model for Unread {
    ghost use Rattle.std.specs.Prelude.{List, ℕ, ◌≤◌, length, drop};

    ghost Value = { List ℕ };

    ghost view = { λ u. drop u.read u.bytes.items };

    ghost invariant = { λ u. u.read ≤ length u.bytes.items };
}

impl Unread {
    pub(crate) fn new(alloc: Global) -> Unread
        ensures { result ≡ [] }
    {
        Unread {
            bytes: Vec::new(alloc),
            read: 0,
        }
    }

    pub(crate) fn as_slice(&self) -> &[u8]
        ensures { result.now ≡ self.now }
    {
        &self.bytes[self.read..]
    }

    /// Appends bytes, after those that were read are dropped. If memory runs out, nothing changes.
    pub(crate) fn feed(&mut self, piece: &[u8]) -> Result<(), AllocError>
        ensures ok { OnOk result (self.new ≡ self.old ++ piece.now) }
        ensures err { OnErr result (self.new ≡ self.old) }
    {
        self.bytes.drain(..self.read);
        self.read = 0;
        self.bytes.extend_from_slice(piece)
    }

    /// Goes on behind the next `count` bytes.
    pub(crate) fn pass(&mut self, count: usize)
        requires { count ≤ length self.old }
        ensures { self.new ≡ drop count self.old }
    {
        self.read += count;
    }
}
