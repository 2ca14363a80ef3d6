//! A running node forgets steps that were handed out.
ghost use Rattle.std.specs.Prelude.{◌≡◌, ◌≤◌, None, Some, OnErr, length};
ghost use Rattle.node_threads.specs.Cell.{lost};
ghost use Rattle.node_threads.specs.Forgetting.{forgetting};

use crate::cell::NodeCell;
use crate::cores::NodeCore;
use crate::error::HostError;
use std::alloc::Allocator;

impl<C: NodeCore<A> + Drop, A: Allocator + Copy> NodeCell<C, A> {
    /// Lets it forget steps from now on: `forget_sealed`.
    pub fn forget_from_now(&mut self)
        ensures { self.new ≡ record self.old { since = Some (lost self.old.since) } }
    {
        self.since = Some(self.lost());
    }

    /// Forgets the steps that were handed out in segments, if it may forget and all outlets of its links were compared
    /// with these steps (`compare`): what came out of a link could not be compared with them later. Returns how many it
    /// forgot.
    pub fn forget_sealed(&mut self) -> usize
        ensures forgets { self.new ≡ forgetting result self.old }
        ensures allowed { self.old.since ≡ None → result ≡ 0 }
        ensures within { result ≤ length self.old.trace.steps }
    {
        let Some(since) = self.since else {
            return 0;
        };
        if !self.progress.has_reached(self.sealed) {
            return 0;
        }
        let count = self.trace.forget_sealed();
        self.since = Some(since + count);
        count
    }

    /// Makes a segment of the steps since the last one without handing it out, for a node whose history nobody keeps.
    /// The only error is `OutOfMemory`.
    pub fn seal_off(&mut self) -> Result<(), HostError>
        ensures { self.new ≡ self.old }
    {
        self.trace.seal()?;
        self.sealed = self.steps_made();
        Ok(())
    }
}
