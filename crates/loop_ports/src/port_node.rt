//! A node that other threads use.
use bytes::Bytes;
use protocol::Delivery;
use std::alloc::{AllocError, Allocator};
use wire_node::{News, WireError};

/// A node that other threads use. Each call does what the one of the same name of a `WireNode` does.
///
/// The payload is borrowed, since an impl with a `Bytes<A>` by value gets no proof where the recorder is a parameter.
pub trait PortNode<A: Allocator + Copy>: Drop {
    /// Broadcasts a message, which shares the payload.
    fn broadcast(&mut self, payload: &Bytes<A>) -> Result<(), WireError>;

    /// Returns the deliveries that were not taken yet, in order.
    fn take_deliveries(&mut self) -> Vec<Delivery<A>, A>;

    /// Has the next steps be told of, or not.
    fn tell_news(&mut self, tells: bool);

    /// Returns the news that were not taken yet, in order. If memory is refused, none are taken.
    fn take_news(&mut self) -> Result<Vec<News, A>, AllocError>;
}
