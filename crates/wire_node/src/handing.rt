//! Handing out what a node has kept of its history.
ghost use Rattle.std.specs.Prelude.{◌≡◌, ◌+◌, [], Some, length};
ghost use Rattle.wire_node.specs.Recording.{Noted};

use crate::engine::Engine;
use crate::node::WireNode;
use crate::recorded::Recorded;
use frames::Frame;
use protocol::{Out, Segment};
use std::alloc::Allocator;

impl<A: Allocator + Copy> Engine<A, Recorded<A>> {
    /// Takes the steps that are kept.
    pub(crate) fn take_steps(&mut self) -> Segment<Frame<A>, A>
        ensures { (noted : Noted)
            × (self.old.machine.noted ≡ Some noted)
            × (result ≡ record { first = noted.first; steps = noted.steps })
            × (self.new ≡ record self.old {
              machine = record self.old.machine {
                noted = Some (record { opening = noted.opening; first = noted.first + length noted.steps; steps = [] });
              };
            }) }
    {
        self.record.take_steps()
    }

    /// Takes what the start sent.
    pub(crate) fn take_opening(&mut self) -> Out<Frame<A>, A>
        ensures { (noted : Noted)
            × (self.old.machine.noted ≡ Some noted)
            × (result ≡ noted.opening)
            × (self.new ≡ record self.old {
              machine = record self.old.machine {
                noted = Some (record {
                  opening = record { sends = []; deliveries = [] };
                  first = noted.first;
                  steps = noted.steps;
                });
              };
            }) }
    {
        self.record.take_opening()
    }
}

impl<A: Allocator + Copy> WireNode<A, Recorded<A>> {
    /// Hands out the steps that the node has made since the last call, in order, and keeps them no longer. The segment
    /// says how many were handed out before. Its first step was made by the core as it was at that call, or at the
    /// start.
    pub fn take_steps(&mut self) -> Segment<Frame<A>, A>
        ensures { (noted : Noted)
            × (self.old.engine.machine.noted ≡ Some noted)
            × (result ≡ record { first = noted.first; steps = noted.steps })
            × (self.new ≡ record self.old {
              engine = record self.old.engine {
                machine = record self.old.engine.machine {
                  noted =
                      Some (record { opening = noted.opening; first = noted.first + length noted.steps; steps = [] });
                };
              };
            }) }
    {
        self.engine.take_steps()
    }

    /// Hands out what the start of the node sent, and keeps it no longer: with the steps, the peers and the contact it
    /// is the node's trace.
    pub fn take_opening(&mut self) -> Out<Frame<A>, A>
        ensures { (noted : Noted)
            × (self.old.engine.machine.noted ≡ Some noted)
            × (result ≡ noted.opening)
            × (self.new ≡ record self.old {
              engine = record self.old.engine {
                machine = record self.old.engine.machine {
                  noted = Some (record {
                    opening = record { sends = []; deliveries = [] };
                    first = noted.first;
                    steps = noted.steps;
                  });
                };
              };
            }) }
    {
        self.engine.take_opening()
    }
}
