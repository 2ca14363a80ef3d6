//! A group of nodes that plays one event after another.
ghost use Rattle.std.specs.Prelude.{◌≡◌, [], option_copied, reverse};
ghost use Rattle.world.specs.Group.{core_of};
ghost use Rattle.world.specs.Headline.{Headline};
ghost use Rattle.world.specs.Plan.{names_of};
ghost use Rattle.world.specs.Run.{Run};

use crate::entry::Entry;
use crate::flight::Flight;
use crate::lookup::core_of;
use crate::node_state::NodeState;
use crate::packet::Packet;
use indexmap::IndexSet;
use node_names::{Limits, NameSet, NodeName};
use protocol::Core;
use std::alloc::{Allocator, Global};
use std::marker::Model;

/// A group of nodes under the same limits, all packets that they sent, and the log of what happened.
#[derive(Drop)]
pub struct World<C: Core<A>, A: Allocator = Global> {
    pub(crate) limits: Limits,
    /// The names of the nodes, in the same order, by which a node is looked up.
    pub(crate) names: NameSet<A>,
    pub(crate) nodes: Vec<NodeState<C>, A>,
    pub(crate) sent: Vec<Packet<C::Note>, A>,
    pub(crate) flight: Flight<A>,
    pub(crate) log: Vec<Entry<A>, A>,
}

impl<C: Core<A>, A: Allocator> Model for World<C, A> {
    ghost use Rattle.std.specs.Prelude.{◌≡◌, ◌≤◌, reverse, vec_len};
    ghost use Rattle.world.specs.Flight.{flying};
    ghost use Rattle.world.specs.Group.{Logged};
    ghost use Rattle.world.specs.Plan.{names_of};
    ghost use Rattle.world.specs.Run.{Run};

    ghost Value = { Logged C C.Note };

    ghost view = { λ w. record {
      limits = w.limits;
      group = record { nodes = w.nodes.items; sent = w.sent.items; flight = flying w.flight };
      log = w.log.items;
    } };

    ghost invariant = { λ w. Run C.state C.starts C.steps w.limits (reverse w.log.items)
        (record { nodes = w.nodes.items; sent = w.sent.items; flight = flying w.flight })
        × (w.names.keys ≡ names_of w.nodes.items) × (w.flight.gone ≤ vec_len w.flight.numbers) };
}

impl<C: Core<A>, A: Allocator + Copy> World<C, A> {
    /// Creates a group without nodes.
    pub fn new(alloc: A, limits: Limits) -> Self
        ensures limits { result.limits ≡ limits }
        ensures nodes { result.group.nodes ≡ [] }
        ensures sent { result.group.sent ≡ [] }
        ensures flight { result.group.flight ≡ [] }
        ensures log { result.log ≡ [] }
    {
        World {
            limits,
            names: IndexSet::new(alloc),
            nodes: Vec::new(alloc),
            sent: Vec::new(alloc),
            flight: Flight::new(alloc),
            log: Vec::new(alloc),
        }
    }

    /// Returns the allocator that the group was created with.
    pub(crate) fn allocator(&self) -> A {
        *self.log.allocator()
    }

    /// Returns the limits that every node runs under.
    pub fn limits(&self) -> Limits
        ensures { result ≡ self.now.limits }
    {
        self.limits
    }

    /// Returns the nodes, in the order of their first starts.
    pub fn nodes(&self) -> &[NodeState<C>]
        ensures { result.now ≡ self.now.group.nodes }
    {
        self.nodes.as_slice()
    }

    /// Returns the core that runs under the name, if one does.
    pub fn core(&self, name: &NodeName) -> Option<&C>
        ensures { option_copied result ≡ core_of name.now self.now.group.nodes }
    {
        core_of(&self.names, &self.nodes, name)
    }

    /// Returns all packets that were ever sent, in order. A packet's number is its index here.
    pub fn sent(&self) -> &[Packet<C::Note>]
        ensures { result.now ≡ self.now.group.sent }
    {
        self.sent.as_slice()
    }

    /// Returns the numbers of the packets in flight, the oldest first.
    pub fn flight(&self) -> &[usize]
        ensures { result.now ≡ self.now.group.flight }
    {
        self.flight.as_slice()
    }

    /// Returns the accepted events and what came of them, in order.
    pub fn log(&self) -> &[Entry<A>]
        ensures { result.now ≡ self.now.log }
    {
        self.log.as_slice()
    }

    /// Returns the names of the nodes, in the order of their first starts. A name has the same place here as its node
    /// has in `nodes`.
    pub fn names(&self) -> &NameSet<A>
        ensures { result.now.keys ≡ names_of self.now.group.nodes }
    {
        &self.names
    }

    /// Tells a caller's proof that the log is a run that leads to this group. At run time it does nothing.
    pub fn history(&self)
        ensures { Run C.state C.starts C.steps self.now.limits (reverse self.now.log) self.now.group }
    {
        let _log = &self.log;
    }

    /// Tells a caller's proof what holds of every group of lawful cores. At run time it does nothing.
    pub fn headline(&self)
        ensures { Headline C.state C.Note.content self.now }
    {
        let _log = &self.log;
    }
}
