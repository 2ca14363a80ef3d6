//! A node in a cluster, as other threads use it.
use crate::cluster_node::ClusterNode;
use crate::stepped_node::SteppedNode;
use bytes::Bytes;
use loop_ports::PortNode;
use protocol::Delivery;
use std::alloc::{AllocError, Allocator};
use wire_node::{News, WireError};

impl<N: SteppedNode<A>, A: Allocator + Copy> PortNode<A> for ClusterNode<N, A> {
    fn broadcast(&mut self, payload: &Bytes<A>) -> Result<(), WireError> {
        self.node.broadcast(payload)?;
        self.introduce();
        Ok(())
    }

    fn take_deliveries(&mut self) -> Vec<Delivery<A>, A> {
        self.node.take_deliveries()
    }

    fn tell_news(&mut self, tells: bool) {
        self.node.tell_news(tells);
    }

    fn take_news(&mut self) -> Result<Vec<News, A>, AllocError> {
        self.node.take_news()
    }
}
