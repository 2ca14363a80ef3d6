//! When a link was last used.
use crate::ticks::Ticking;
use std::alloc::Global;
use std::sync::Arc;
use std::sync::atomic::{AtomicU64, Ordering};

/// When a link was last written to, which the thread that writes it shares with the one that runs the node.
#[derive(Drop)]
pub(crate) struct LastUse {
    tick: AtomicU64,
    ticking: Arc<Ticking, Global>,
}

impl LastUse {
    /// The link was last used in the current tick.
    pub(crate) fn new(ticking: Arc<Ticking, Global>) -> LastUse {
        LastUse {
            tick: AtomicU64::new(ticking.now()),
            ticking,
        }
    }

    /// Notes that the link is used in this tick.
    pub(crate) fn renew(&self) {
        self.tick.store(self.ticking.now(), Ordering::SeqCst);
    }

    /// Whether the link was not used in the last `ticks` ticks.
    pub(crate) fn is_over(&self, ticks: u64) -> bool {
        let tick = self.tick.load(Ordering::SeqCst);
        tick.saturating_add(ticks) < self.ticking.now()
    }
}
