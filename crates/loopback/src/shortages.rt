//! The shortages of a node's threads.
use crate::shortage::Shortage;
use std::io;
use std::sync::atomic::{AtomicBool, AtomicUsize, Ordering};

/// How many times in a row a call may have too few descriptors before this is noted: unused connections may be closed
/// until then.
pub(crate) const MAX_FAILURES: u32 = 100;

/// The shortages of a node's threads, which the threads share with the one that runs the node.
#[derive(Drop)]
pub(crate) struct Shortages {
    /// How many threads wait for descriptors.
    waiting: AtomicUsize,
    descriptors: AtomicBool,
    memory: AtomicBool,
}

impl Shortages {
    /// Makes a record without shortages.
    pub(crate) fn new() -> Shortages {
        Shortages {
            waiting: AtomicUsize::new(0),
            descriptors: AtomicBool::new(false),
            memory: AtomicBool::new(false),
        }
    }

    /// Notes a shortage. One of threads is not noted: only the thread that runs the node makes threads.
    pub(crate) fn note(&self, shortage: Shortage) {
        match shortage {
            Shortage::Threads => {}
            Shortage::Descriptors => self.descriptors.store(true, Ordering::SeqCst),
            Shortage::Memory => self.memory.store(true, Ordering::SeqCst),
        }
    }

    /// Returns the shortage that was noted, if any, as an error.
    pub(crate) fn check(&self) -> Result<(), Shortage> {
        if self.descriptors.load(Ordering::SeqCst) {
            return Err(Shortage::Descriptors);
        }
        if self.memory.load(Ordering::SeqCst) {
            return Err(Shortage::Memory);
        }
        Ok(())
    }

    /// Like `check`, but also returns an error while a thread waits for descriptors.
    pub(crate) fn check_last(&self) -> Result<(), Shortage> {
        self.check()?;
        if self.waiting.load(Ordering::SeqCst) > 0 {
            return Err(Shortage::Descriptors);
        }
        Ok(())
    }
}

/// The failures of one call that is repeated.
#[derive(Drop)]
pub(crate) struct Failures<'a> {
    shortages: &'a Shortages,
    /// How many times in a row it had too few descriptors.
    count: u32,
}

impl<'a> Failures<'a> {
    /// Makes a record without failures.
    pub(crate) fn new(shortages: &'a Shortages) -> Failures<'a> {
        Failures {
            shortages,
            count: 0,
        }
    }

    /// Notes that the call succeeded, or failed for another reason.
    pub(crate) fn end(&mut self) {
        if self.count > 0 {
            self.shortages.waiting.fetch_sub(1, Ordering::SeqCst);
        }
        self.count = 0;
    }

    /// Notes the shortage that made the call fail, if that is why it failed. Returns whether it had too few
    /// descriptors, but in fewer than `MAX_FAILURES` calls in a row.
    pub(crate) fn add(&mut self, error: &io::Error) -> bool {
        match Shortage::of(error) {
            Some(Shortage::Descriptors) => self.count(),
            Some(shortage) => {
                self.end();
                self.shortages.note(shortage);
                false
            }
            None => {
                self.end();
                false
            }
        }
    }

    /// Counts a call that had too few descriptors. Returns whether there were fewer than `MAX_FAILURES` of these in a
    /// row.
    fn count(&mut self) -> bool {
        if self.count == 0 {
            self.shortages.waiting.fetch_add(1, Ordering::SeqCst);
        }
        self.count = self.count.saturating_add(1);
        if self.count >= MAX_FAILURES {
            self.shortages.note(Shortage::Descriptors);
        }
        self.count < MAX_FAILURES
    }
}
