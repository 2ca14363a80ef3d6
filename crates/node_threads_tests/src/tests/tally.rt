//! Counts the steps that the workers of a node have made.
use crate::tests::node::LOOKS;
use node_threads::Gate;
use std::alloc::{AllocError, Global};
use std::sync::Arc;
use std::sync::atomic::{AtomicU64, Ordering};
use std::thread;
use std::time::{Clock, Duration};

/// Counts the steps that are reported.
#[derive(Drop)]
pub(crate) struct Tally {
    steps: AtomicU64,
}

impl Tally {
    /// Makes a tally of no steps that several threads can hold.
    pub(crate) fn shared(alloc: Global) -> Result<Arc<Tally, Global>, AllocError> {
        Ok(Arc::new(
            alloc,
            Tally {
                steps: AtomicU64::new(0),
            },
        )?)
    }

    /// Returns how many steps have been reported.
    pub(crate) fn steps(&self) -> u64 {
        self.steps.load(Ordering::SeqCst)
    }

    /// Waits until a step has been reported. Returns whether one has.
    pub(crate) fn wait_for_one<R: Clock>(&self, rt: &R) -> bool {
        for _ in 0..LOOKS {
            if self.steps() > 0 {
                return true;
            }
            thread::sleep(rt, Duration::from_millis(5));
        }
        false
    }
}

/// A gate that lets everyone pass, and counts the steps that are reported to it.
#[derive(Drop)]
pub(crate) struct Counting {
    tally: Arc<Tally, Global>,
}

impl Counting {
    /// Makes a gate that counts with this tally.
    pub(crate) fn new(tally: &Arc<Tally, Global>) -> Result<Counting, AllocError> {
        Ok(Counting {
            tally: Arc::try_clone(tally)?,
        })
    }
}

impl Gate for Counting {
    fn pass(&self, _worker: usize) -> bool {
        true
    }

    fn applied(&self, _worker: usize) {
        self.tally.steps.fetch_add(1, Ordering::SeqCst);
    }

    fn pause(&self) {}
}
