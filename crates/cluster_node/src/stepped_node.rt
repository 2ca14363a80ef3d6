//! A node that tells what its steps sent.
use event_loop::LoopNode;
use frames::Frame;
use loop_ports::PortNode;
use node_core::PlumCore;
use protocol::Segment;
use std::alloc::Allocator;
use wire_node::{Recorded, WireNode};

/// A node that an event loop runs, and that keeps its steps until they are taken.
///
/// A `ClusterNode` is generic in it, since each function that owns a node takes the prover a minute if its type is
/// named.
pub trait SteppedNode<A: Allocator + Copy>: LoopNode<A> + PortNode<A> {
    /// Takes the steps that were made since the last call, in order.
    fn take_steps(&mut self) -> Segment<Frame<A>, A>;

    /// Its core, to be read.
    fn core(&self) -> &PlumCore<A>;

    /// How many ticks it made.
    fn ticks(&self) -> u64;
}

impl<A: Allocator + Copy> SteppedNode<A> for WireNode<A, Recorded<A>> {
    fn take_steps(&mut self) -> Segment<Frame<A>, A> {
        self.take_steps()
    }

    fn core(&self) -> &PlumCore<A> {
        self.core()
    }

    fn ticks(&self) -> u64 {
        self.ticks()
    }
}
