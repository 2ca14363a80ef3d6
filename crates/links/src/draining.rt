//! From a source of frames to a stream of bytes.
ghost use Rattle.std.specs.Prelude.{◌≡◌, ◌≢◌, ◌<◌, ◌≤◌, ◌||◌, ℕ, Err, IsTrue, length, take};
ghost use Rattle.std.specs.Io.KnownBytes.{Appends};
ghost use Rattle.links.specs.Counting.{has_risen};
ghost use Rattle.links.specs.Draining.{Drains};

use crate::ends::LinkEnd;
use crate::metered::MeteredWrite;
use crate::sink::Source;
use std::alloc::Allocator;

/// Writes `bytes` in as many calls as it takes. Returns how many were written: all, unless a call failed or took none.
fn put<W: MeteredWrite>(writer: &mut W, bytes: &[u8]) -> usize
    ensures some { result ≤ length bytes.now }
    ensures written { Appends (W.contents writer.old) (W.contents writer.new) (take result bytes.now) }
    ensures all { result ≡ length bytes.now → W.failed writer.new ≡ W.failed writer.old }
    ensures part { result < length bytes.now
        → IsTrue (has_risen (W.failed writer.old) (W.failed writer.new) || W.took_none writer.new) }
{
    let mut at = 0;
    while at < bytes.len() {
        match writer.write_counted(&bytes[at..]) {
            Ok(0) | Err(_) => return at,
            Ok(n) => at += n,
        }
    }
    at
}

/// Writes the items of `source`, in order, until it has no more or `frames` of them were written. Returns the number of
/// bytes written. No call of the writer spans two items.
///
/// Returns `WriteFault`, with the number of bytes written so far, if a call of the writer failed or took no byte.
/// Returns `OutOfMemory` if the source ran out of memory; all items that it gave before were written.
pub fn drain<S: Source<A>, W: MeteredWrite, A: Allocator>(
    source: &mut S,
    writer: &mut W,
    frames: u32,
) -> Result<u64, LinkEnd>
    ensures items { Drains result (S.is_spent source.new) frames (S.given source.old) (S.given source.new)
        (W.contents writer.old) (W.contents writer.new) }
    ensures write_fault { (n : ℕ) → result ≡ Err (LinkEnd.WriteFault n)
        → IsTrue (has_risen (W.failed writer.old) (W.failed writer.new) || W.took_none writer.new) }
    ensures no_fault { ((n : ℕ) → result ≢ Err (LinkEnd.WriteFault n)) → W.failed writer.new ≡ W.failed writer.old }
{
    let mut bytes: u64 = 0;
    for _ in 0..frames {
        let item = match source.next() {
            Ok(Some(item)) => item,
            Ok(None) => return Ok(bytes),
            Err(_) => return Err(LinkEnd::OutOfMemory),
        };
        let written = put(writer, item.as_slice());
        bytes += written as u64;
        if written < item.len() {
            return Err(LinkEnd::WriteFault { bytes });
        }
    }
    Ok(bytes)
}
