//! What the two ends of a pipe share.
ghost use Rattle.std.specs.Prelude.{◌≡◌, ◌≤◌, ◌++◌, drop, length, min, take, OnErr, OnOk};

use crate::reader::PipeReader;
use crate::writer::PipeWriter;
use bytes::{Buf, BytesMut};
use std::alloc::{AllocError, Allocator};
use std::sync::{Arc, Condvar, Mutex, Wait};

/// The bytes that were written and not read yet, and whether the writer has ended.
#[derive(Drop)]
struct Content<A: Allocator> {
    bytes: BytesMut<A>,
    is_ended: bool,
}

/// A pipe, which its two ends share.
#[derive(Drop)]
pub(crate) struct Pipe<A: Allocator> {
    content: Mutex<Content<A>>,
    changed: Condvar,
}

/// Appends bytes: all of them, or none if an allocation is refused.
fn append<A: Allocator + Copy>(bytes: &mut BytesMut<A>, more: &[u8]) -> Result<(), AllocError>
    ensures ok { OnOk result (bytes.new.items ≡ bytes.old.items ++ more.now) }
    ensures err { OnErr result (bytes.new.items ≡ bytes.old.items) }
{
    bytes.extend_from_slice(more)
}

/// Moves as many of the first bytes as fit to the front of the buffer, and returns their number.
fn move_out<A: Allocator>(bytes: &mut BytesMut<A>, buf: &mut [u8]) -> usize
    ensures count { result ≡ min (length bytes.old.items) (length buf.old) }
    ensures moved { buf.new ≡ take result bytes.old.items ++ drop result buf.old }
    ensures left { bytes.new.items ≡ drop result bytes.old.items }
    ensures bound { (result ≤ length buf.new) × (length buf.new ≡ length buf.old) }
{
    let n = bytes.len().min(buf.len());
    buf[..n].copy_from_slice(&bytes.as_slice()[..n]);
    bytes.advance(n);
    n
}

impl<A: Allocator + Copy> Pipe<A> {
    /// An empty pipe.
    fn new(alloc: A) -> Pipe<A> {
        Pipe {
            content: Mutex::new(Content {
                bytes: BytesMut::new(alloc),
                is_ended: false,
            }),
            changed: Condvar::new(),
        }
    }

    /// Appends the bytes: all of them, or none if an allocation is refused.
    pub(crate) fn write<R: Wait>(&self, rt: &R, bytes: &[u8]) -> Result<(), AllocError> {
        let mut content = self.content.lock(rt);
        append(&mut content.bytes, bytes)?;
        drop(content);
        self.changed.notify_all();
        Ok(())
    }

    /// Waits for bytes or for the writer's end, and moves bytes to the front of the buffer. Returns their number, which
    /// is 0 only at the end, or if the buffer has no room.
    pub(crate) fn read<R: Wait>(&self, rt: &R, buf: &mut [u8]) -> usize
        ensures { (result ≤ length buf.new) × (length buf.new ≡ length buf.old) }
    {
        let mut content = self
            .changed
            .wait_while(rt, self.content.lock(rt), |content| {
                content.bytes.is_empty() && !content.is_ended
            });
        move_out(&mut content.bytes, buf)
    }

    /// Notes that the writer has ended.
    pub(crate) fn end<R: Wait>(&self, rt: &R) {
        self.content.lock(rt).is_ended = true;
        self.changed.notify_all();
    }
}

/// Makes a pipe without bytes. Its ends may be used in different threads; they wait by this handle.
pub fn new_pipe<R: Wait + Copy + Drop, A: Allocator + Copy>(
    rt: R,
    alloc: A,
) -> Result<(PipeReader<R, A>, PipeWriter<R, A>), AllocError> {
    let pipe = Arc::new(alloc, Pipe::new(alloc))?;
    let theirs = Arc::try_clone(&pipe)?;
    Ok((PipeReader::new(rt, pipe), PipeWriter::new(rt, theirs)))
}
