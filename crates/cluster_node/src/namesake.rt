//! Telling another node that it has this node's name.
use crate::cluster_node::ClusterNode;
use crate::notice::Notice;
use crate::stepped_node::SteppedNode;
use node_names::NodeName;
use std::alloc::Allocator;
use std::net::SocketAddr;

impl<N: SteppedNode<A>, A: Allocator + Copy> ClusterNode<N, A> {
    /// Whether the name is this node's own. A link to it leads to another node of that name.
    pub(crate) fn is_own(&self, name: &NodeName) -> bool {
        *name == self.identity.name
    }

    /// Says that another node has this node's name, and has it dialled. It is told nothing but this node's hello, by
    /// which it sees that there are two of them: nobody else tells it, since others take it for a neighbour's new
    /// address.
    pub(crate) fn meet_namesake(&mut self, at: SocketAddr) {
        self.notices.push(Notice::SameName { at });
        if self.namesake.is_none() {
            self.namesake = Some(at);
        }
    }

    /// Whether another node of this node's name is to be dialled.
    pub(crate) fn is_namesake_due(&self) -> bool {
        self.namesake.is_some() && !self.links.contains_key(&self.identity.name)
    }

    /// Drops what was to go out over a link that is over.
    pub(crate) fn drop_link(&mut self, name: &NodeName) {
        self.links.swap_remove(name);
        if self.is_own(name) {
            self.namesake = None;
        }
    }
}
