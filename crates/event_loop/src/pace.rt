//! When the ticks of a node are due.
use std::io;
use std::time::{Clock, Duration, Instant};

/// When the next tick is due.
#[derive(Clone, Copy)]
pub(crate) struct Pace {
    tick: Duration,
    /// `None` is later than the clock goes.
    due: Option<Instant>,
}

impl Pace {
    /// The next tick is due when this time has passed.
    pub(crate) fn new<R: Clock>(rt: &R, tick: Duration) -> io::Result<Pace> {
        Ok(Pace {
            tick,
            due: Instant::now(rt)?.checked_add(tick),
        })
    }

    /// How much time is left until the next tick is due.
    pub(crate) fn left<R: Clock>(&self, rt: &R) -> io::Result<Duration> {
        let now = Instant::now(rt)?;
        Ok(match self.due {
            Some(due) => due.duration_since(now),
            None => Duration::MAX,
        })
    }

    /// Has the next tick be due a tick from now. Ticks that were missed are left out.
    pub(crate) fn begin_next<R: Clock>(&mut self, rt: &R) -> io::Result<()> {
        self.due = Instant::now(rt)?.checked_add(self.tick);
        Ok(())
    }
}
