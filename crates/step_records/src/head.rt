//! What a record begins with.
ghost use Rattle.std.specs.Prelude.{◌≡◌, ◌↔◌, IfSome, IsSome, IsTrue};
ghost use Rattle.node_names.specs.Limits.{Limits as Sizes};
ghost use Rattle.protocol.specs.Peers.{are_peers};

use node_names::{Limits, Listed, NodeName, Origin};
use protocol::are_peers;

/// What a run of a node started with.
#[derive(Drop)]
pub struct Head {
    /// The label of the node's cluster, which follows the rules of names.
    pub label: NodeName,
    /// The name of the node, and the incarnation of the run.
    pub origin: Origin,
    /// The limits of the node.
    pub limits: Limits,
    /// The active view that it started with.
    pub peers: Listed<NodeName>,
    /// The node by which it joined, if it joined by one.
    pub contact: Option<NodeName>,
    ghost fit: { IsTrue (are_peers limits origin.name peers contact) },
}

impl Head {
    /// Puts a head together, if such a node may start with these peers and this contact.
    pub fn new(
        label: NodeName,
        origin: Origin,
        limits: Limits,
        peers: Listed<NodeName>,
        contact: Option<NodeName>,
    ) -> Option<Head>
        ensures fit { IsSome result ↔ IsTrue (are_peers limits origin.name peers contact) }
        ensures label { IfSome result (λ head. head.label ≡ label) }
        ensures origin { IfSome result (λ head. head.origin ≡ origin) }
        ensures limits { IfSome result (λ head. head.limits ≡ limits) }
        ensures peers { IfSome result (λ head. head.peers ≡ peers) }
        ensures contact { IfSome result (λ head. head.contact ≡ contact) }
    {
        if !are_peers(&limits, &origin.name, peers.as_slice(), &contact) {
            return None;
        }
        Some(Head {
            label,
            origin,
            limits,
            peers,
            contact,
        })
    }
}
