//! Cutting a stream of bytes into frames.
ghost use Rattle.std.specs.Prelude.{◌≡◌, ◌<◌, ◌≤◌, ◌+◌, ◌++◌, [], None, Ok, drop, length, OnOk, OnErr};
ghost use Rattle.frames.specs.Cutting.{IsNext};

use crate::MAX_FRAME;
use crate::decoding::decode;
use crate::fault::FrameFault;
use crate::frame::Frame;
use std::alloc::{AllocError, Allocator, Global};
use std::marker::Model;

/// A decoder for a stream of frames whose bytes arrive in pieces of any size.
///
/// Contracts see a cutter as its remaining bytes: those that were fed and belong to no returned frame. It never holds
/// more than twice as many bytes, and after `next` returns `Ok(None)` fewer than `MAX_FRAME` remain, so its memory does
/// not grow with the stream. Each byte is copied in and, on average, moved at most once after that. The fields of a
/// frame are read only when it is whole.
#[derive(Drop)]
pub struct Cutter<A: Allocator = Global> {
    /// The bytes that were fed, except for those of returned frames that were dropped from the front.
    buffer: Vec<u8, A>,
    /// The number of bytes at the front of `buffer` that belong to returned frames.
    given: usize,
    /// The fault of the remaining bytes, once `next` has found it.
    fault: Option<FrameFault>,
}

impl<A: Allocator> Model for Cutter<A> {
    ghost use Rattle.std.specs.Prelude.{◌+◌, ◌≤◌, List, ℕ, length, drop};
    ghost use Rattle.frames.specs.Cutting.{IsMet};

    ghost Value = { List ℕ };

    ghost view = { λ c. drop c.given c.buffer.items };

    // The cutter holds at most as many bytes of returned frames as bytes that remain.
    ghost invariant = { λ c.
        (c.given + c.given ≤ length c.buffer.items) × IsMet c.fault (drop c.given c.buffer.items) };
}

impl<A: Allocator + Copy> Cutter<A> {
    /// Creates a cutter that has not been fed.
    pub fn new(alloc: A) -> Cutter<A>
        ensures { result ≡ [] }
    {
        Cutter {
            buffer: Vec::new(alloc),
            given: 0,
            fault: None,
        }
    }

    /// Returns the bytes that were fed and belong to no returned frame.
    fn rest(&self) -> &[u8]
        ensures { result.now ≡ self.now }
    {
        &self.buffer[self.given..]
    }

    /// Returns the number of bytes that were fed and belong to no returned frame.
    pub fn left(&self) -> usize
        ensures { result ≡ length self.now }
    {
        self.buffer.len() - self.given
    }

    /// Appends the next bytes of the stream. If memory runs out, nothing changes.
    pub fn feed(&mut self, piece: &[u8]) -> Result<(), AllocError>
        ensures ok { OnOk result (self.new ≡ self.old ++ piece.now) }
        ensures err { OnErr result (self.new ≡ self.old) }
    {
        self.buffer.extend_from_slice(piece)
    }

    /// Returns the next frame, or `Ok(None)` if it is not whole yet.
    ///
    /// After a fault other than `OutOfMemory`, returns that fault from then on. After `OutOfMemory`, the call may be
    /// repeated. Never returns `Short`.
    pub fn next(&mut self) -> Result<Option<Frame<A>>, FrameFault>
        ensures next { IsNext result self.old self.new }
        // If the next frame is not whole, fewer bytes remain than the longest frame has.
        ensures few { result ≡ Ok None → length self.new < MAX_FRAME }
    {
        if let Some(fault) = self.fault {
            return Err(fault);
        }
        match decode(*self.buffer.allocator(), self.rest()) {
            Ok((frame, len)) => {
                self.given = forget(&mut self.buffer, self.given + len);
                Ok(Some(frame))
            }
            Err(FrameFault::Short) => Ok(None),
            Err(FrameFault::OutOfMemory) => Err(FrameFault::OutOfMemory),
            Err(fault) => {
                self.fault = Some(fault);
                Err(fault)
            }
        }
    }
}

/// Drops the first `given` bytes, those of returned frames, unless they are fewer than the remaining ones. Returns how
/// many of them are still held.
fn forget<A: Allocator>(buffer: &mut Vec<u8, A>, given: usize) -> usize
    requires { given ≤ length buffer.old.items }
    ensures left { drop result buffer.new.items ≡ drop given buffer.old.items }
    ensures few { result + result ≤ length buffer.new.items }
{
    if given < buffer.len() - given {
        return given;
    }
    buffer.drain(..given);
    0
}
