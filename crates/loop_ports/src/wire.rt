//! A node of bytes with ports.
use crate::port_node::PortNode;
use bytes::Bytes;
use protocol::Delivery;
use std::alloc::{AllocError, Allocator};
use wire_node::{News, Record, WireError, WireNode};

impl<A: Allocator + Copy, R: Record<A> + Drop> PortNode<A> for WireNode<A, R> {
    fn broadcast(&mut self, payload: &Bytes<A>) -> Result<(), WireError> {
        self.broadcast(payload.clone()?)?;
        Ok(())
    }

    fn take_deliveries(&mut self) -> Vec<Delivery<A>, A> {
        self.take_deliveries()
    }

    fn tell_news(&mut self, tells: bool) {
        self.tell_news(tells);
    }

    fn take_news(&mut self) -> Result<Vec<News, A>, AllocError> {
        self.take_news()
    }
}
