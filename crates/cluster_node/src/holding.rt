//! Holding back what waits to go out.
ghost use Rattle.std.specs.Prelude.{◌≡◌, ◌↔◌, ◌⊎◌, ◌<◌, IsTrue, length, true};

use crate::cluster_node::ClusterNode;
use std::alloc::Allocator;

impl<N: Drop, A: Allocator + Copy> ClusterNode<N, A> {
    /// Whether nothing may go out now: steps wait to be taken for the record, or the node was silenced.
    pub fn holds_back(&self) -> bool
        ensures { IsTrue result ↔ ((self.now.is_silent ≡ true) ⊎ (0 < length self.now.log.kept.items)) }
    {
        self.is_silent || self.log.has_kept()
    }

    /// Has nothing go out any more, whatever is done: what a node can no longer record, no other node may see.
    pub fn silence(&mut self)
        ensures { self.new ≡ record self.old { is_silent = true } }
    {
        self.is_silent = true;
    }
}
