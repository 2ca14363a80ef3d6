//! A count that threads add to and that a thread can wait for.
use std::sync::{Condvar, Mutex, Wait};

/// The count so far.
#[derive(Drop)]
pub(crate) struct Tally {
    count: Mutex<u64>,
    changed: Condvar,
}

impl Tally {
    /// Starts at 0.
    pub(crate) fn new() -> Tally {
        Tally {
            count: Mutex::new(0),
            changed: Condvar::new(),
        }
    }

    /// Adds `more` to the count.
    pub(crate) fn add<R: Wait>(&self, rt: &R, more: u64) {
        let mut count = self.count.lock(rt);
        *count = count.saturating_add(more);
        drop(count);
        self.changed.notify_all();
    }

    /// Waits until the count is at least `wanted`.
    pub(crate) fn wait_for<R: Wait>(&self, rt: &R, wanted: u64) {
        let _ = self
            .changed
            .wait_while(rt, self.count.lock(rt), |count| *count < wanted);
    }
}
