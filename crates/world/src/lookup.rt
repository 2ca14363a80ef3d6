//! The lookup of a node by its name, and of a packet by its place in the flight.
ghost use Rattle.std.specs.Prelude.{◌≡◌, Some, None, IfOk, IfErr, IfSome, IfNone, option_copied, position, slice_get};
ghost use Rattle.node_names.specs.Same.{same_name};
ghost use Rattle.world.specs.Group.{core_of, node_of};
ghost use Rattle.world.specs.Plan.{RunsAt, names_of};
ghost use Rattle.world.specs.Refusals.{absent, sent_under};

use crate::error::WorldError;
use crate::node_state::NodeState;
use crate::packet::Packet;
use node_names::{NameSet, NodeName};
use std::alloc::Allocator;

/// A running node.
#[derive(Clone, Copy)]
pub(crate) struct Running<'a, C> {
    /// Its place among the nodes.
    pub(crate) at: usize,
    /// The node.
    pub(crate) node: &'a NodeState<C>,
    /// Its core.
    pub(crate) core: &'a C,
}

/// Returns the place of the name in `names`, which are the names of all nodes in the nodes' order.
pub(crate) fn place_of<A: Allocator>(names: &NameSet<A>, name: &NodeName) -> Option<usize>
    ensures { result ≡ position (same_name name.now) names.now.keys }
{
    names.get_index_of(name)
}

/// Returns the node of this name, if there is one. `names` are the names of all nodes.
pub(crate) fn node_of<'a, C, A: Allocator>(
    names: &NameSet<A>,
    nodes: &'a [NodeState<C>],
    name: &NodeName,
) -> Option<&'a NodeState<C>>
    requires { names.now.keys ≡ names_of nodes.now }
    ensures { option_copied result ≡ node_of name.now nodes.now }
{
    match place_of(names, name) {
        Some(at) => Some(&nodes[at]),
        None => None,
    }
}

/// Returns the core that runs under this name, if one does.
pub(crate) fn core_of<'a, C, A: Allocator>(
    names: &NameSet<A>,
    nodes: &'a [NodeState<C>],
    name: &NodeName,
) -> Option<&'a C>
    requires { names.now.keys ≡ names_of nodes.now }
    ensures { option_copied result ≡ core_of name.now nodes.now }
{
    node_of(names, nodes, name)?.core.as_ref()
}

/// Returns the node that runs under this name. Fails with `UnknownNode` if no node of this name was ever started, and
/// with `NotRunning` if it is stopped.
pub(crate) fn find_running<'a, C, A: Allocator>(
    names: &NameSet<A>,
    nodes: &'a [NodeState<C>],
    name: &NodeName,
) -> Result<Running<'a, C>, WorldError>
    requires { names.now.keys ≡ names_of nodes.now }
    ensures found { IfOk result (λ found. RunsAt name.now nodes.now found.at found.node.now found.core.now) }
    ensures absent { IfErr result (λ e. absent (node_of name.now nodes.now) ≡ Some e) }
{
    let Some(at) = place_of(names, name) else {
        return Err(WorldError::UnknownNode);
    };
    let node = &nodes[at];
    match &node.core {
        Some(core) => Ok(Running { at, node, core }),
        None => Err(WorldError::NotRunning),
    }
}

/// Returns the number of the packet at `place` in the flight, if there is one.
pub(crate) fn number_at(flight: &[usize], place: usize) -> Option<usize>
    ensures { result ≡ slice_get flight.now place }
{
    flight.get(place).copied()
}

/// Returns the packet at `place` in the flight, with its number, if there is one.
pub(crate) fn packet_at<'a, N>(
    flight: &[usize],
    sent: &'a [Packet<N>],
    place: usize,
) -> Option<(usize, &'a Packet<N>)>
    ensures number { IfSome result (λ found. slice_get flight.now place ≡ Some found.0) }
    ensures packet { IfSome result (λ found. slice_get sent.now found.0 ≡ Some found.1.now) }
    ensures none { IfNone result (sent_under sent.now (slice_get flight.now place) ≡ None) }
{
    let number = number_at(flight, place)?;
    let packet = sent.get(number)?;
    Some((number, packet))
}
