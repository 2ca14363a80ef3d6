//! The ticks of nodes.
use node_threads::Ticker;
use std::alloc::Global;
use std::sync::Arc;
use std::sync::atomic::{AtomicU64, AtomicUsize, Ordering};
use std::thread;
use std::time::{Clock, Duration};

/// How many ticks have passed, and how many nodes have ticks left.
#[derive(Drop)]
pub(crate) struct Ticking {
    nodes: AtomicUsize,
    ticks: AtomicU64,
}

impl Ticking {
    /// No ticks have passed yet, and no node has ticks left.
    pub(crate) fn new() -> Ticking {
        Ticking {
            nodes: AtomicUsize::new(0),
            ticks: AtomicU64::new(0),
        }
    }

    /// Whether no node has ticks left.
    pub(crate) fn is_over(&self) -> bool {
        self.nodes.load(Ordering::SeqCst) == 0
    }

    /// How many ticks have passed at about the furthest node.
    pub(crate) fn now(&self) -> u64 {
        self.ticks.load(Ordering::SeqCst)
    }

    /// Notes that `ticks` ticks have passed at a node.
    fn advance(&self, ticks: u64) {
        if self.now() < ticks {
            self.ticks.store(ticks, Ordering::SeqCst);
        }
    }
}

/// The ticks of one node. The node counts among those that have ticks left until this is dropped.
pub(crate) struct Ticks<R: Clock + Drop> {
    rt: R,
    tick: Duration,
    made: u64,
    left: u64,
    ticking: Arc<Ticking, Global>,
}

impl<R: Clock + Drop> Drop for Ticks<R> {
    fn drop(self) {
        let Ticks {
            rt: _,
            tick: _,
            made: _,
            left: _,
            ticking,
        } = self;
        ticking.nodes.fetch_sub(1, Ordering::SeqCst);
    }
}

impl<R: Clock + Drop> Ticks<R> {
    /// Makes the ticks of a node that has `left` ticks left, each of which takes this time.
    pub(crate) fn new(rt: R, tick: Duration, left: u64, ticking: Arc<Ticking, Global>) -> Ticks<R> {
        ticking.nodes.fetch_add(1, Ordering::SeqCst);
        Ticks {
            rt,
            tick,
            made: 0,
            left,
            ticking,
        }
    }
}

impl<R: Clock + Drop> Ticker for Ticks<R> {
    fn next(&mut self) -> bool {
        if self.left == 0 {
            return false;
        }
        self.left -= 1;
        thread::sleep(&self.rt, self.tick);
        self.made = self.made.saturating_add(1);
        self.ticking.advance(self.made);
        true
    }
}
