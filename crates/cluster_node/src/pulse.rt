//! Pulses: what a node sends over its links so that its neighbours know that it is there.
ghost use Rattle.std.specs.Prelude.{◌≡◌, if◌then◌else◌, ◌==◌, ◌+◌};

use crate::cluster_node::ClusterNode;
use crate::stepped_node::SteppedNode;
use std::alloc::Allocator;
use std::marker::Model;

/// After how many ticks a node sends pulses again.
const PULSE: u8 = 8;

/// How many ticks were made since a node last sent pulses. Contracts see this number.
#[derive(Drop)]
pub(crate) struct PulseClock {
    ticks: u8,
}

impl Model for PulseClock {
    ghost use Rattle.std.specs.Prelude.{ℕ, ◌<◌};

    ghost Value = { ℕ };

    ghost view = { λ clock. clock.ticks };

    ghost invariant = { λ clock. clock.ticks < 8 };
}

impl PulseClock {
    /// Begins to count.
    pub(crate) fn new() -> PulseClock
        ensures { result ≡ 0 }
    {
        PulseClock { ticks: 0 }
    }

    /// Counts a tick. Returns whether pulses are due: after each eighth.
    pub(crate) fn tick(&mut self) -> bool
        ensures due { result ≡ (self.old == 7) }
        ensures counted { self.new ≡ (if self.old == 7 then 0 else self.old + 1) }
    {
        self.ticks += 1;
        if self.ticks < PULSE {
            return false;
        }
        self.ticks = 0;
        true
    }
}

impl<N: SteppedNode<A>, A: Allocator + Copy> ClusterNode<N, A> {
    /// Sends a pulse over each link to a neighbour, if they are due: it introduces itself once more. Where memory is
    /// refused, a pulse is left out.
    pub(crate) fn beat(&mut self) {
        if !self.pulses.tick() {
            return;
        }
        let own = self.identity.introduction();
        for (name, link) in &mut self.links {
            if self.node.is_peer(name) {
                let _ = link.beat(&own);
            }
        }
    }
}
