//! The start of a node's core and its host.
ghost use Rattle.std.specs.Prelude.{IsTrue};
ghost use Rattle.protocol.specs.Peers.{are_peers};

use node_core::PlumCore;
use node_names::{Limits, NodeName, Origin};
use node_threads::{Host, NodeCore, Outlet, Port};
use protocol::{Core, Out};
use std::alloc::{AllocError, Global};

/// How many frames the ring of a link has room for.
pub(crate) const RING: usize = 1_024;

/// How many steps a node may keep.
pub(crate) const STEPS: usize = 1_048_576;

/// A host that has just started, its ports, and the outlets of its links.
pub(crate) type Started<C> = (Host<C>, Vec<Port<C>>, Vec<Outlet>);

/// Starts a node with these peers and this contact, with one port and a link to each of the names, of which each has a
/// ring for `ring` frames. It may keep `steps` steps.
pub(crate) fn start_host(
    alloc: Global,
    me: Origin,
    limits: Limits,
    peers: &[NodeName],
    contact: Option<NodeName>,
    names: &[NodeName],
    ring: usize,
    steps: usize,
) -> Result<Started<PlumCore>, AllocError>
    requires { IsTrue (are_peers limits me.name peers.now contact) }
{
    let mut opening = Out::new(alloc);
    match PlumCore::start(alloc, me, limits, peers, contact, &mut opening) {
        Ok(core) => match Host::start(alloc, core, opening, names, 1, ring, steps) {
            Ok(started) => Ok(started),
            Err(_) => Err(AllocError),
        },
        Err(_) => Err(AllocError),
    }
}
