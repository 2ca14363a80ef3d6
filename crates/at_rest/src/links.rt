//! Which nodes are linked.
ghost use Rattle.std.specs.Prelude.{◌≡◌, ◌↔◌, IsTrue};
ghost use Rattle.std.specs.List.{list_all};
ghost use Rattle.world.specs.Links.{IsSymmetric};
ghost use Rattle.at_rest.specs.Linking.{all_link_back, has_link, links_back};

use node_names::NodeName;
use protocol::Core;
use std::alloc::Allocator;
use world::World;

/// Whether links go both ways: each active member of a running node runs, and has that node as an active member.
pub fn is_symmetric<C: Core<A>, A: Allocator + Copy>(world: &World<C, A>) -> bool
    ensures { IsTrue result ↔ IsSymmetric C.state world.now.group }
{
    all_link_back(world)
}

/// Whether each running node is an active member of each of its own active members.
fn all_link_back<C: Core<A>, A: Allocator + Copy>(world: &World<C, A>) -> bool
    ensures { result ≡ all_link_back C.state world.now.group.nodes }
{
    world
        .nodes()
        .iter()
        .all(|node| links_back(world, &node.name))
}

/// Whether a core runs under the name and has the peer as an active member.
#[tactic(auto, unfolding(crate::specs::Linking::has_link))]
pub(crate) fn has_link<C: Core<A>, A: Allocator + Copy>(
    world: &World<C, A>,
    name: &NodeName,
    peer: &NodeName,
) -> bool
    ensures { result ≡ has_link C.state world.now.group.nodes name.now peer.now }
{
    match world.core(name) {
        Some(core) => core.active().contains(peer),
        None => false,
    }
}

/// Whether each active member of the core that runs under the name, if there is one, has the name as an active member.
fn links_back<C: Core<A>, A: Allocator + Copy>(world: &World<C, A>, name: &NodeName) -> bool
    ensures { result ≡ links_back C.state world.now.group.nodes name.now }
{
    match world.core(name) {
        Some(core) => all_link_to(world, core.active().as_slice(), name),
        None => true,
    }
}

/// Whether each of the peers runs and has the name as an active member.
fn all_link_to<C: Core<A>, A: Allocator + Copy>(
    world: &World<C, A>,
    peers: &[NodeName],
    name: &NodeName,
) -> bool
    ensures { result ≡ list_all (λ peer. has_link C.state world.now.group.nodes peer name.now) peers.now }
{
    peers.iter().all(|peer| has_link(world, peer, name))
}
