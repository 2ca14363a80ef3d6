//! Whether a group is at rest for a message.
ghost use Rattle.std.specs.Prelude.{◌≡◌, ◌↔◌, ◌&&◌, IsTrue};
ghost use Rattle.protocol.specs.SpreadLaw.{is_carried};
ghost use Rattle.world.specs.Rest.{IsAtRest};
ghost use Rattle.at_rest.specs.Silence.{are_quiet, is_announced, is_asked, is_queued, is_quiet};
ghost use Rattle.at_rest.specs.Silence.{is_quiet_at, is_silent, is_silent_at, is_silent_flight};

use node_names::{MsgId, NodeName};
use protocol::{Core, Wire};
use std::alloc::Allocator;
use world::{Packet, World};

/// Whether the group is at rest for the message: no packet in flight carries it, announces it or asks for it, and no
/// running node has an announcement of it queued or a timer for it.
pub fn is_at_rest<C: Core<A>, A: Allocator + Copy>(world: &World<C, A>, id: &MsgId) -> bool
    ensures { IsTrue result ↔ IsAtRest C.state C.Note.content world.now.group id.now }
{
    is_nothing_left(world, id)
}

/// Whether no packet in flight mentions the message and every running core is quiet.
fn is_nothing_left<C: Core<A>, A: Allocator + Copy>(world: &World<C, A>, id: &MsgId) -> bool
    ensures { result
        ≡ (is_silent_flight C.Note.content id.now world.now.group.sent world.now.group.flight
        && are_quiet C.state id.now world.now.group.nodes) }
{
    is_silent_flight(world.sent(), world.flight(), id) && are_quiet(world, id)
}

/// Whether a packet carries the message.
pub fn is_carried<N: Wire<A>, A: Allocator>(note: &N, id: &MsgId) -> bool
    ensures { result ≡ is_carried id.now (N.content note.now).carried }
{
    match note.carried() {
        Some((carried, _)) => *id == carried,
        None => false,
    }
}

/// Whether a packet announces the message.
fn is_announced(announced: &[(MsgId, u32)], id: &MsgId) -> bool
    ensures { result ≡ is_announced id.now announced.now }
{
    announced.iter().any(|entry| *id == entry.0)
}

/// Whether a packet asks for the message.
fn is_asked(asked: Option<MsgId>, id: &MsgId) -> bool
    ensures { result ≡ is_asked id.now asked }
{
    match asked {
        Some(asked) => *id == asked,
        None => false,
    }
}

/// Whether a packet does not mention the message: it neither carries it nor announces it nor asks for it.
#[tactic(auto, unfolding(crate::specs::Silence::is_silent))]
pub fn is_silent<N: Wire<A>, A: Allocator>(note: &N, id: &MsgId) -> bool
    ensures { result ≡ is_silent id.now (N.content note.now) }
{
    !is_carried(note, id) && !is_announced(note.announced(), id) && !is_asked(note.asked(), id)
}

/// Whether the packet that was sent with this number does not mention the message.
fn is_silent_at<N: Wire<A>, A: Allocator>(sent: &[Packet<N>], number: usize, id: &MsgId) -> bool
    ensures { result ≡ is_silent_at N.content id.now sent.now number }
{
    match sent.get(number) {
        Some(packet) => is_silent(&packet.note, id),
        None => true,
    }
}

/// Whether no packet in flight mentions the message.
fn is_silent_flight<N: Wire<A>, A: Allocator>(
    sent: &[Packet<N>],
    flight: &[usize],
    id: &MsgId,
) -> bool
    ensures { result ≡ is_silent_flight N.content id.now sent.now flight.now }
{
    flight.iter().all(|number| is_silent_at(sent, *number, id))
}

/// Whether an announcement of the message is queued.
fn is_queued(queued: &[(NodeName, MsgId, u32)], id: &MsgId) -> bool
    ensures { result ≡ is_queued id.now queued.now }
{
    queued.iter().any(|entry| *id == entry.1)
}

/// Whether a core has no announcement of the message queued and no timer for it.
#[tactic(auto, unfolding(crate::specs::Silence::is_quiet))]
fn is_quiet<C: Core<A>, A: Allocator>(core: &C, id: &MsgId) -> bool
    ensures { result ≡ is_quiet id.now (C.state core.now) }
{
    !is_queued(core.queued(), id) && !core.is_armed(id)
}

/// Whether the core that runs under the name, if there is one, is quiet.
fn is_quiet_at<C: Core<A>, A: Allocator + Copy>(
    world: &World<C, A>,
    name: &NodeName,
    id: &MsgId,
) -> bool
    ensures { result ≡ is_quiet_at C.state id.now world.now.group.nodes name.now }
{
    match world.core(name) {
        Some(core) => is_quiet(core, id),
        None => true,
    }
}

/// Whether every running core is quiet.
fn are_quiet<C: Core<A>, A: Allocator + Copy>(world: &World<C, A>, id: &MsgId) -> bool
    ensures { result ≡ are_quiet C.state id.now world.now.group.nodes }
{
    world
        .nodes()
        .iter()
        .all(|node| is_quiet_at(world, &node.name, id))
}
