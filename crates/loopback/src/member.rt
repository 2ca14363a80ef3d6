//! A node that is to run, and where it is reached.
ghost use Rattle.std.specs.Prelude.{◌≡◌};
ghost use Rattle.protocol.specs.Peers.{are_peers};

use bytes::Bytes;
use node_names::{Limits, NodeName, Origin};
use protocol::are_peers;

/// A node that is to run.
#[derive(Drop)]
pub struct Member {
    pub me: Origin,
    /// The port of 127.0.0.1 where it takes connections.
    pub port: u16,
    /// Its first active view.
    pub peers: Vec<NodeName>,
    /// The node that it asks to be taken into the group, if any.
    pub contact: Option<NodeName>,
    /// What it broadcasts, in order.
    pub texts: Vec<Bytes>,
}

/// Whether a node of this name may start with these peers and this contact: the peers fit its active view and are
/// distinct nodes other than itself, and the contact is another node too.
pub fn may_start(
    limits: &Limits,
    me: &NodeName,
    peers: &[NodeName],
    contact: &Option<NodeName>,
) -> bool
    ensures { result ≡ are_peers limits.now me.now peers.now contact.now }
{
    are_peers(limits, me, peers, contact)
}
