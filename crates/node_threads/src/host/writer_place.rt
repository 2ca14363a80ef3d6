//! Where the writer of a link waits.
use std::sync::{Condvar, Mutex, Wait};

/// How many times the writer was notified, and how many threads wait for more.
#[derive(Clone, Copy, Drop)]
struct Told {
    times: u64,
    waiting: u64,
}

/// Where the writer of a link waits until there is something to do.
///
/// The writer asks how many times it was notified, looks whether there is something to do, and waits until that number
/// changes: so it misses no notification in between.
#[derive(Drop)]
pub(crate) struct WriterPlace {
    told: Mutex<Told>,
    more: Condvar,
}

impl WriterPlace {
    /// Makes a place that was not notified yet.
    pub(crate) fn new() -> WriterPlace {
        WriterPlace {
            told: Mutex::new(Told {
                times: 0,
                waiting: 0,
            }),
            more: Condvar::new(),
        }
    }

    /// Notifies the writer that there may be something to do.
    pub(crate) fn tell<R: Wait>(&self, rt: &R) {
        let mut told = self.told.lock(rt);
        told.times = told.times.wrapping_add(1);
        if told.waiting > 0 {
            self.more.notify_all();
        }
    }

    /// How many times the writer was notified.
    pub(crate) fn times<R: Wait>(&self, rt: &R) -> u64 {
        self.told.lock(rt).times
    }

    /// Waits until the number of notifications is no longer `times`.
    pub(crate) fn wait<R: Wait>(&self, rt: &R, times: u64) {
        let mut told = self.told.lock(rt);
        told.waiting = told.waiting.saturating_add(1);
        let mut told = self.more.wait_while(rt, told, |told| told.times == times);
        told.waiting = told.waiting.saturating_sub(1);
    }
}
