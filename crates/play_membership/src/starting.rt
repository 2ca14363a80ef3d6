//! How a node starts, as words.
ghost use Rattle.std.specs.Prelude.{◌≡◌, true, IfOk, IfSome};
ghost use Rattle.views.specs.Views.{ArePeers};

use node_names::{Limits, NodeName};
use play_script::limits::limits_of;
use play_script::words::{after, name, names};
use protocol::are_peers;
use std::alloc::{AllocError, Allocator};

/// The name of a node, its limits, and the peers that it starts with.
#[derive(Drop)]
pub(crate) struct Start<A: Allocator> {
    pub(crate) owner: NodeName,
    pub(crate) limits: Limits,
    pub(crate) peers: Vec<NodeName, A>,
}

/// Returns whether the peers fit the active view of `owner`, are distinct and do not include it.
fn may_start(owner: &NodeName, limits: &Limits, peers: &[NodeName]) -> bool
    ensures { result ≡ true → ArePeers owner.now limits.now peers.now }
{
    are_peers(limits, owner, peers, &None)
}

/// Parses how a node starts: its name, and words as `active 2 passive 4 arwl 3 prwl 1 ka 1 kp 2 peers a b`. Limits that
/// are not given are the standard ones. Returns `None` if the words say nothing of the kind, or the node may not start
/// with these peers.
pub(crate) fn start_of<A: Allocator + Copy>(
    alloc: A,
    owner: &str,
    words: &[&str],
) -> Result<Option<Start<A>>, AllocError>
    ensures { IfOk result (λ start. IfSome start (λ it. ArePeers it.owner it.limits it.peers.items)) }
{
    let (Some(owner), Some(limits)) = (name(owner), limits_of(words)) else {
        return Ok(None);
    };
    let Some(peers) = names(alloc, after(words, "peers"))? else {
        return Ok(None);
    };
    if !may_start(&owner, &limits, peers.as_slice()) {
        return Ok(None);
    }
    Ok(Some(Start {
        owner,
        limits,
        peers,
    }))
}
