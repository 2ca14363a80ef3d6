//! Hands out the history of a running node in parts.
ghost use Rattle.std.specs.Prelude.{◌≡◌, None, IfErr, IfOk};
ghost use Rattle.std.specs.Arc.{arc_value};
ghost use Rattle.protocol.specs.Segments.{Ends};
ghost use Rattle.node_threads.specs.Cell.{lost};
ghost use Rattle.node_threads.specs.History.{IsEndTo, IsHistoryTo};

use crate::cell::NodeCell;
use crate::cores::NodeCore;
use crate::error::HostError;
use frames::Frame;
use protocol::Segment;
use std::alloc::{Allocator, Global};
use std::sync::Arc;

/// A part of a node's history, and the core that it leads to.
#[derive(Drop)]
pub struct Sealed<C: Drop, A: Allocator = Global> {
    /// How many steps the node has forgotten: the segment's places count from there.
    pub since: usize,
    /// The steps since the previous part. The node's trace shares them until it forgets them.
    pub segment: Arc<Segment<Frame<A>, A>, A>,
    /// A copy of the core after them.
    pub state: C,
}

impl<C: NodeCore<A> + Drop, A: Allocator + Copy> NodeCell<C, A> {
    /// Hands out the steps since the last call as a segment, with a copy of the core after them. The trace keeps its
    /// steps, and shares these from now on, until `forget_sealed`.
    ///
    /// The core is copied, but none of the steps. It works after `shut` too. The only error is `OutOfMemory`.
    pub fn seal(&mut self) -> Result<Sealed<C, A>, HostError>
        ensures same { self.new ≡ self.old }
        ensures ends { IfOk result (λ sealed. Ends self.old.trace.steps (arc_value sealed.segment)) }
        ensures state { IfOk result (λ sealed. sealed.state ≡ self.old.core) }
        ensures since { IfOk result (λ sealed. sealed.since ≡ lost self.old.since) }
        ensures replays { IfOk result
            (λ sealed. self.new.since ≡ None → IsHistoryTo C.starts C.steps self.new.trace sealed.state) }
        ensures end { IfOk result (λ sealed. IsEndTo C.starts C.steps sealed.since self.new.trace sealed.state) }
        ensures err { IfErr result (λ e. e ≡ HostError.OutOfMemory) }
    {
        let state = self.core().copy()?;
        let segment = self.trace.seal()?;
        self.sealed = self.steps_made();
        let since = self.lost();
        Ok(Sealed {
            since,
            segment,
            state,
        })
    }
}
