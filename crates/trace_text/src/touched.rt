//! The printed state of the node that an event touches.
ghost use Rattle.std.specs.Prelude.{◌≡◌, ◌++◌, None, OnOk, IfOk, string_bytes};
ghost use Rattle.node_names.specs.Slots.{somes};
ghost use Rattle.world.specs.Group.{core_of};
ghost use Rattle.trace_text.specs.Events.{number_by, parts_under, receiver_of, touched_by, touched_parts};
ghost use Rattle.trace_text.specs.Parts.{changes_text, parts_from, parts_in, parts_of, parts_text};

use crate::parts::{
    members_part, names_part, push_changed, push_part, queue_part, timers_part, wants_part,
};
use frames::Frame;
use node_core::PlumCore;
use node_names::{MsgId, NodeName};
use peer_sets::{Member, PeerKind};
use protocol::Core;
use std::alloc::{AllocError, Allocator, Global};
use std::marker::Model;
use world::{Event, EventOf, Packet, World};

/// The texts of the seven parts of a node's state. A contract sees them as the record of these texts.
#[derive(Drop)]
pub struct Touched<A: Allocator = Global> {
    active: String<A>,
    passive: String<A>,
    eager: String<A>,
    lazy: String<A>,
    queue: String<A>,
    wants: String<A>,
    timers: String<A>,
}

impl<A: Allocator> Model for Touched<A> {
    ghost use Rattle.std.specs.Prelude.{string_bytes};
    ghost use Rattle.trace_text.specs.Parts.{Parts};

    ghost Value = { Parts };

    ghost view = { λ t. record {
      active = string_bytes t.active;
      passive = string_bytes t.passive;
      eager = string_bytes t.eager;
      lazy = string_bytes t.lazy;
      queue = string_bytes t.queue;
      wants = string_bytes t.wants;
      timers = string_bytes t.timers;
    } };
}

impl<A: Allocator + Copy> Touched<A> {
    /// Prints the parts of the node that an event will touch, as they are in this group before the event. The lists are
    /// empty if the node does not run.
    pub fn new(
        alloc: A,
        before: &World<PlumCore<A>, A>,
        event: &Event<A>,
    ) -> Result<Touched<A>, AllocError>
        ensures { IfOk result (λ touched. touched ≡ touched_parts before.now event.now) }
    {
        let number = number_by(before.flight(), event);
        let name = touched_by(before.sent(), number, event);
        Touched::under(alloc, before, &name)
    }

    /// Prints the parts of the node of this name, if there is a name.
    fn under(
        alloc: A,
        world: &World<PlumCore<A>, A>,
        name: &Option<NodeName>,
    ) -> Result<Touched<A>, AllocError>
        ensures { IfOk result (λ touched. touched ≡ parts_under name.now world.now.group.nodes) }
    {
        match name {
            Some(name) => Touched::named(alloc, world, name),
            None => Touched::empty(alloc),
        }
    }

    /// Prints the parts of the node of this name.
    fn named(
        alloc: A,
        world: &World<PlumCore<A>, A>,
        name: &NodeName,
    ) -> Result<Touched<A>, AllocError>
        ensures { IfOk result (λ touched. touched ≡ parts_in (core_of name.now world.now.group.nodes)) }
    {
        match world.core(name) {
            Some(core) => Touched::of_core(alloc, core),
            None => Touched::empty(alloc),
        }
    }

    /// Prints the parts of a node that does not run.
    fn empty(alloc: A) -> Result<Touched<A>, AllocError>
        ensures { IfOk result (λ touched. touched ≡ parts_in None) }
    {
        Touched::from_lists(alloc, &[], &[], &[], &[], &[], &[])
    }

    /// Prints the parts of a running node.
    pub(crate) fn of_core(alloc: A, core: &PlumCore<A>) -> Result<Touched<A>, AllocError>
        ensures { IfOk result (λ touched. touched ≡ parts_of core.now) }
    {
        Touched::from_lists(
            alloc,
            core.active().as_slice(),
            core.passive().as_slice(),
            core.peers().members(),
            core.queued(),
            core.wants(),
            core.timers(),
        )
    }

    /// Prints the parts of a node with these views, peers, announcements and timers.
    fn from_lists(
        alloc: A,
        active: &[NodeName],
        passive: &[NodeName],
        members: &[Member],
        queued: &[(NodeName, MsgId, u32)],
        wants: &[Option<(MsgId, NodeName, u32)>],
        timers: &[Option<MsgId>],
    ) -> Result<Touched<A>, AllocError>
        ensures { IfOk result (λ touched.
            touched ≡ parts_from active.now passive.now members.now queued.now (somes wants.now) (somes timers.now)) }
    {
        Ok(Touched {
            active: names_part(alloc, " | active:", active)?,
            passive: names_part(alloc, " | passive:", passive)?,
            eager: members_part(alloc, " | eager:", PeerKind::Eager, members)?,
            lazy: members_part(alloc, " | lazy:", PeerKind::Lazy, members)?,
            queue: queue_part(alloc, queued)?,
            wants: wants_part(alloc, wants)?,
            timers: timers_part(alloc, timers)?,
        })
    }
}

impl<A: Allocator> Touched<A> {
    /// Appends all parts.
    pub(crate) fn push_all(&self, text: &mut String<A>) -> Result<(), AllocError>
        ensures { OnOk result (string_bytes text.new ≡ string_bytes text.old ++ parts_text self.now) }
    {
        push_part(text, &self.active)?;
        push_part(text, &self.passive)?;
        push_part(text, &self.eager)?;
        push_part(text, &self.lazy)?;
        push_part(text, &self.queue)?;
        push_part(text, &self.wants)?;
        push_part(text, &self.timers)
    }

    /// Appends the parts that differ in `new`, as they are in `new`.
    pub(crate) fn push_changes(
        &self,
        new: &Touched<A>,
        text: &mut String<A>,
    ) -> Result<(), AllocError>
        ensures { OnOk result (string_bytes text.new ≡ string_bytes text.old ++ changes_text self.now new.now) }
    {
        push_changed(text, &self.active, &new.active)?;
        push_changed(text, &self.passive, &new.passive)?;
        push_changed(text, &self.eager, &new.eager)?;
        push_changed(text, &self.lazy, &new.lazy)?;
        push_changed(text, &self.queue, &new.queue)?;
        push_changed(text, &self.wants, &new.wants)?;
        push_changed(text, &self.timers, &new.timers)
    }
}

/// The number of the packet that an event would name: the one at its place in flight.
fn number_by<P, L, D>(flight: &[usize], event: &EventOf<P, L, D>) -> Option<usize>
    ensures { result ≡ number_by flight.now event.now }
{
    match event {
        EventOf::Arrive { place, .. } => flight.get(*place).copied(),
        _ => None,
    }
}

/// The name that an event touches, if the packet that it named has this number. Losing or repeating a packet touches no
/// node.
pub fn touched_by<P, L, D, A: Allocator>(
    sent: &[Packet<Frame<A>>],
    number: Option<usize>,
    event: &EventOf<P, L, D>,
) -> Option<NodeName>
    ensures { result ≡ touched_by sent.now number event.now }
{
    match event {
        EventOf::Arrive { .. } => receiver_of(sent, number),
        EventOf::Lose { .. } | EventOf::Again { .. } => None,
        EventOf::Start { name, .. }
        | EventOf::Broadcast { name, .. }
        | EventOf::Fire { name, .. }
        | EventOf::Flush { name }
        | EventOf::Down { name, .. }
        | EventOf::Shuffle { name, .. }
        | EventOf::Join { name, .. }
        | EventOf::Stop { name } => Some(*name),
    }
}

/// The receiver of the packet of this number.
fn receiver_of<A: Allocator>(sent: &[Packet<Frame<A>>], number: Option<usize>) -> Option<NodeName>
    ensures { result ≡ receiver_of sent.now number }
{
    let packet = sent.get(number?)?;
    Some(packet.to)
}
