//! Whether a group is calm.
ghost use Rattle.std.specs.Prelude.{◌≡◌, ◌↔◌, IsTrue, slice_get};
ghost use Rattle.at_rest.specs.Calm.{IsCalm, all_fly_calm, flies_calm, is_calm_packet, runs};

use crate::links::is_symmetric;
use node_names::NodeName;
use protocol::{Core, Wire};
use std::alloc::Allocator;
use world::{Packet, World};

/// Whether only broadcasting is under way, and only between running nodes: no packet in flight is about membership,
/// each goes to a running node, each request comes from a running node, links go both ways, and every active member of
/// a running node runs.
pub fn is_calm<C: Core<A>, A: Allocator + Copy>(world: &World<C, A>) -> bool
    ensures { IsTrue result ↔ IsCalm C.state C.Note.content world.now.group }
{
    all_fly_calm(world) && is_symmetric(world)
}

/// Whether each packet in flight is calm.
fn all_fly_calm<C: Core<A>, A: Allocator + Copy>(world: &World<C, A>) -> bool
    ensures { result ≡ all_fly_calm C.Note.content world.now.group }
{
    world
        .flight()
        .iter()
        .all(|number| flies_calm(world, *number))
}

/// Whether the packet that was sent under this number is calm.
fn flies_calm<C: Core<A>, A: Allocator + Copy>(world: &World<C, A>, number: usize) -> bool
    ensures { result ≡ flies_calm C.Note.content world.now.group (slice_get world.now.group.sent number) }
{
    match world.sent().get(number) {
        Some(packet) => is_calm_packet(world, packet),
        None => true,
    }
}

/// Whether the packet is about messages, goes to a running node, and, if it asks for a message, comes from one.
fn is_calm_packet<C: Core<A>, A: Allocator + Copy>(
    world: &World<C, A>,
    packet: &Packet<C::Note>,
) -> bool
    ensures { result ≡ is_calm_packet C.Note.content world.now.group packet.now }
{
    !packet.note.is_membership()
        && runs(world, &packet.to)
        && (packet.note.asked().is_none() || runs(world, &packet.sender.name))
}

/// Whether a core runs under the name.
fn runs<C: Core<A>, A: Allocator + Copy>(world: &World<C, A>, name: &NodeName) -> bool
    ensures { result ≡ runs world.now.group name.now }
{
    world.core(name).is_some()
}
