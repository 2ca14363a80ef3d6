//! What is left to do at the nodes of a group: queued announcements and armed timers.
ghost use Rattle.std.specs.Prelude.{◌≡◌, IfOk, OnOk, slice_get};
ghost use Rattle.std.specs.BTreeSet.{Updates};
ghost use Rattle.std.specs.Ordering.{nat_cmp};
ghost use Rattle.std.specs.List.{IsDistinct};
ghost use Rattle.node_names.specs.Same.{same_name};
ghost use Rattle.world.specs.Plan.{names_of};
ghost use Rattle.at_rest.specs.Left.{AreLeft, is_left, is_left_at};
ghost use Rattle.at_rest.specs.declared.left.Kind.TheVariants.{Announcements, Timers};

use node_core::armed_at;
use protocol::Core;
use std::alloc::{AllocError, Allocator};
use std::collections::BTreeSet;
use world::World;

/// What may be left to do at a node.
#[derive(Clone, Copy)]
pub(crate) enum Kind {
    /// Announcements that wait for a flush.
    Announcements,
    /// Timers of announced messages.
    Timers,
}

/// Whether something of this kind is left at the core.
fn is_left<C: Core<A>, A: Allocator>(kind: Kind, core: &C) -> bool
    ensures { result ≡ is_left kind (C.state core.now) }
{
    match kind {
        Kind::Announcements => 0 < core.queued().len(),
        Kind::Timers => armed_at(core.timers(), 0).is_some(),
    }
}

/// Whether something of this kind is left at the node in this place.
fn is_left_at<C: Core<A>, A: Allocator + Copy>(kind: Kind, world: &World<C, A>, at: usize) -> bool
    ensures { result ≡ is_left_at C.state kind world.now.group.nodes (slice_get (names_of world.now.group.nodes) at) }
{
    match world.names().get_index(at) {
        Some(name) => match world.core(name) {
            Some(core) => is_left(kind, core),
            None => false,
        },
        None => false,
    }
}

/// Records whether something of this kind is left at the node in this place.
fn note_kind<C: Core<A>, A: Allocator + Copy>(
    places: &mut BTreeSet<usize, A>,
    kind: Kind,
    world: &World<C, A>,
    at: usize,
) -> Result<(), AllocError>
    ensures { OnOk result (Updates nat_cmp places.old places.new at
        (is_left_at C.state kind world.now.group.nodes (slice_get (names_of world.now.group.nodes) at))) }
{
    if is_left_at(kind, world, at) {
        places.insert(at)?;
    } else {
        places.remove(&at);
    }
    Ok(())
}

/// The places of the nodes at which something of this kind is left.
fn places_of<C: Core<A>, A: Allocator + Copy>(
    alloc: A,
    kind: Kind,
    world: &World<C, A>,
) -> Result<BTreeSet<usize, A>, AllocError>
    ensures places { IfOk result (AreLeft C.state kind world.now.group.nodes) }
    ensures distinct { IsDistinct same_name (names_of world.now.group.nodes) }
{
    let mut places = BTreeSet::new(alloc);
    for at in 0..world.names().len() {
        note_kind(&mut places, kind, world, at)?;
    }
    Ok(places)
}

/// The places of the nodes at which something is left, in order. They are kept in sorted sets while a group settles,
/// since a list would be searched for each event.
#[derive(Drop)]
pub(crate) struct Left<A: Allocator> {
    pub(crate) queues: BTreeSet<usize, A>,
    pub(crate) timers: BTreeSet<usize, A>,
}

impl<A: Allocator + Copy> Left<A> {
    /// Finds what is left in the group.
    pub(crate) fn of<C: Core<A>>(alloc: A, world: &World<C, A>) -> Result<Left<A>, AllocError>
        ensures queues { IfOk result (λ left. AreLeft C.state Announcements world.now.group.nodes left.queues) }
        ensures timers { IfOk result (λ left. AreLeft C.state Timers world.now.group.nodes left.timers) }
        ensures distinct { IsDistinct same_name (names_of world.now.group.nodes) }
    {
        let queues = places_of(alloc, Kind::Announcements, world)?;
        let timers = places_of(alloc, Kind::Timers, world)?;
        Ok(Left { queues, timers })
    }

    /// Records what an event left at the node in this place.
    pub(crate) fn note<C: Core<A>>(
        &mut self,
        world: &World<C, A>,
        at: usize,
    ) -> Result<(), AllocError>
        ensures queues { OnOk result (Updates nat_cmp self.old.queues self.new.queues at
            (is_left_at C.state Announcements world.now.group.nodes (slice_get (names_of world.now.group.nodes) at))) }
        ensures timers { OnOk result (Updates nat_cmp self.old.timers self.new.timers at
            (is_left_at C.state Timers world.now.group.nodes (slice_get (names_of world.now.group.nodes) at))) }
    {
        note_kind(&mut self.queues, Kind::Announcements, world, at)?;
        note_kind(&mut self.timers, Kind::Timers, world, at)
    }
}
