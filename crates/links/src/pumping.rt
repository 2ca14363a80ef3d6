//! From a stream of bytes to a sink of frames.
ghost use Rattle.std.specs.Prelude.{◌≡◌, ◌≢◌, ◌+◌, ◌≤◌, ℕ, IsTrue, Some};
ghost use Rattle.std.specs.Io.KnownBytes.{IsAtEnd};
ghost use Rattle.links.specs.Counting.{counted, has_risen};
ghost use Rattle.links.specs.Pumping.{Gives, Pumps};

use crate::ends::LinkEnd;
use crate::metered::MeteredRead;
use crate::sink::Sink;
use frames::{Cutter, Frame, FrameFault};
use std::alloc::Allocator;

/// The maximum number of bytes in one read.
const PIECE: usize = 4_096;

/// Gives the sink the whole frames that the cutter has, in order. Returns why `pump` must end, or `None` if it goes on.
fn give<S: Sink<Frame<A>>, A: Allocator + Copy>(
    cutter: &mut Cutter<A>,
    sink: &mut S,
) -> Option<LinkEnd>
    ensures given { Gives result cutter.old cutter.new (S.taken sink.old) (S.taken sink.new) }
    ensures refused { result ≡ Some LinkEnd.SinkClosed
        → IsTrue (has_risen (S.refusals sink.old) (S.refusals sink.new)) }
    ensures willing { result ≢ Some LinkEnd.SinkClosed → S.refusals sink.new ≡ S.refusals sink.old }
{
    loop {
        match cutter.next() {
            Ok(Some(frame)) => {
                if !sink.frame(frame) {
                    return Some(LinkEnd::SinkClosed);
                }
            }
            Ok(None) => return None,
            Err(FrameFault::OutOfMemory) => return Some(LinkEnd::OutOfMemory),
            Err(fault) => return Some(LinkEnd::Frame(fault)),
        }
    }
}

/// Reads at most `turns` times, at most 4,096 bytes at a time, and gives the sink the whole frames of the stream, in
/// order: the cutter's bytes followed by those that were read.
///
/// Gives the frames that the cutter has before the first read. A read that returns an error without raising the
/// reader's count of failures was interrupted: it uses up a turn and has no other effect. After `TurnLimit`, `pump` may
/// be called again. After every other end, the link is closed.
pub fn pump<R: MeteredRead, S: Sink<Frame<A>>, A: Allocator + Copy>(
    reader: &mut R,
    cutter: &mut Cutter<A>,
    sink: &mut S,
    turns: u64,
) -> LinkEnd
    ensures frames { Pumps result turns cutter.old cutter.new (S.taken sink.old) (S.taken sink.new)
        (R.remaining reader.old) (R.remaining reader.new) }
    ensures refused { result ≡ LinkEnd.SinkClosed → IsTrue (has_risen (S.refusals sink.old) (S.refusals sink.new)) }
    ensures willing { result ≢ LinkEnd.SinkClosed → S.refusals sink.new ≡ S.refusals sink.old }
    // A frame that is not whole yet is not a fault.
    ensures whole { result ≢ LinkEnd.Frame FrameFault.Short }
    ensures read_fault { result ≡ LinkEnd.ReadFault → IsTrue (has_risen (R.failed reader.old) (R.failed reader.new)) }
    ensures no_fault { result ≢ LinkEnd.ReadFault → R.failed reader.new ≡ R.failed reader.old }
    ensures ended { (left : ℕ) → result ≡ LinkEnd.Ended left → IsAtEnd (R.remaining reader.new) }
    ensures last_read { (left : ℕ) → result ≡ LinkEnd.Ended left
        → (counted (R.reads reader.old) 1 ≤ R.reads reader.new) × IsTrue (R.gave_none reader.new) }
    ensures reads { R.reads reader.new ≤ R.reads reader.old + turns }
    ensures turn_limit { result ≡ LinkEnd.TurnLimit → R.reads reader.new ≡ counted (R.reads reader.old) turns }
{
    let before = reader.failures();
    if let Some(end) = give(cutter, sink) {
        return end;
    }
    let mut piece = [0; PIECE];
    for _ in 0..turns {
        match reader.read_counted(&mut piece) {
            Ok(0) => {
                return LinkEnd::Ended {
                    left: cutter.left(),
                };
            }
            Ok(n) => {
                if cutter.feed(&piece[..n]).is_err() {
                    return LinkEnd::OutOfMemory;
                }
                if let Some(end) = give(cutter, sink) {
                    return end;
                }
            }
            Err(_) => {
                if rose(before, reader.failures()) {
                    return LinkEnd::ReadFault;
                }
            }
        }
    }
    LinkEnd::TurnLimit
}

/// Returns whether a count of failures rose from `before` to `now`, or has reached `u64::MAX`.
fn rose(before: u64, now: u64) -> bool
    ensures { result ≡ has_risen before now }
{
    before < now || now == u64::MAX
}
