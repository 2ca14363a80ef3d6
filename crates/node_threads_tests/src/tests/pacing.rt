//! A link that always has frames.
ghost use Rattle.std.specs.Prelude.{◌≡◌, None, IsTrue, OnOk, OnErr, false};
ghost use Rattle.std.specs.Io.{WritesAtMost};
ghost use Rattle.links.specs.Counting.{has_risen, moves_none};

use links::{LinkEnd, MeteredWrite};
use node_threads::Dialler;
use std::alloc::{AllocError, Global};
use std::io::{ErrorKind, Write};
use std::sync::Arc;
use std::sync::atomic::{AtomicBool, AtomicUsize, Ordering};
use std::time::{Clock, Duration};
use std::{io, thread};

/// How often each side looks whether the other has come as far, with a millisecond after each look.
const LOOKS: usize = 10_000;

/// How far a node and the writer of its link have come. The node waits until the writer has begun to write the last
/// frame, and the writer, which has begun, until the node has sent one more: so whenever a frame was written, the next
/// one is there.
#[derive(Drop)]
pub(crate) struct Pace {
    sent: AtomicUsize,
    begun: AtomicUsize,
    is_over: AtomicBool,
}

impl Pace {
    /// Makes the pace of a link that no frame was sent over, which several threads can hold.
    pub(crate) fn shared(alloc: Global) -> Result<Arc<Pace, Global>, AllocError> {
        let pace = Pace {
            sent: AtomicUsize::new(0),
            begun: AtomicUsize::new(0),
            is_over: AtomicBool::new(false),
        };
        Ok(Arc::new(alloc, pace)?)
    }

    /// Notes that a frame was sent, and waits until the writer has begun to write it. Returns whether it has.
    pub(crate) fn lead<R: Clock>(&self, rt: &R) -> bool {
        let sent = self.sent.fetch_add(1, Ordering::SeqCst).saturating_add(1);
        for _ in 0..LOOKS {
            if self.begun.load(Ordering::SeqCst) >= sent {
                return true;
            }
            thread::sleep(rt, Duration::from_millis(1));
        }
        false
    }

    /// Notes that a write has begun, and waits until one more frame was sent, or none comes any more. Returns whether
    /// that is so.
    fn follow<R: Clock>(&self, rt: &R) -> bool {
        let begun = self.begun.fetch_add(1, Ordering::SeqCst).saturating_add(1);
        for _ in 0..LOOKS {
            if self.sent.load(Ordering::SeqCst) > begun || self.is_over.load(Ordering::SeqCst) {
                return true;
            }
            thread::sleep(rt, Duration::from_millis(1));
        }
        false
    }

    /// Notes that no frame comes any more.
    pub(crate) fn end(&self) {
        self.is_over.store(true, Ordering::SeqCst);
    }
}

/// A connection that takes a frame in one write, which returns once the next frame was sent, and fails if none is.
#[derive(Drop)]
pub(crate) struct Paced<R: Clock + Drop> {
    rt: R,
    pace: Arc<Pace, Global>,
    failures: u64,
}

impl<R: Clock + Drop> Write for Paced<R> {
    ghost contents = { λ _. None };

    fn write(&mut self, buf: &[u8]) -> io::Result<usize>
        ensures bound { WritesAtMost result buf.now }
        ensures last { moves_none result buf.now ≡ false }
        ensures ok { OnOk result (self.new.failures ≡ self.old.failures) }
        ensures err { OnErr result (IsTrue (has_risen self.old.failures self.new.failures)) }
    {
        if !self.pace.follow(&self.rt) {
            self.failures = self.failures.saturating_add(1);
            return Err(io::Error::from(ErrorKind::Other));
        }
        Ok(buf.len())
    }

    fn flush(&mut self) -> io::Result<()> {
        Ok(())
    }
}

impl<R: Clock + Drop> MeteredWrite for Paced<R> {
    ghost failed = { λ w. w.failures };

    ghost took_none = { λ w. false };

    fn failures(&self) -> u64 {
        self.failures
    }

    fn write_counted(&mut self, buf: &[u8]) -> io::Result<usize> {
        self.write(buf)
    }
}

/// Makes such connections.
#[derive(Drop)]
pub(crate) struct PacedDialler<R: Clock + Copy + Drop> {
    pub(crate) rt: R,
    pub(crate) pace: Arc<Pace, Global>,
}

impl<R: Clock + Copy + Drop + Send> Dialler for PacedDialler<R> {
    type Writer = Paced<R>;

    fn dial(&mut self) -> Result<Paced<R>, LinkEnd> {
        match Arc::try_clone(&self.pace) {
            Ok(pace) => Ok(Paced {
                rt: self.rt,
                pace,
                failures: 0,
            }),
            Err(_) => Err(LinkEnd::OutOfMemory),
        }
    }
}
