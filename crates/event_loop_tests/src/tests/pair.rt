//! A loop of two nodes that are peers.
use crate::tests::refused_node::RefusedNode;
use anyhow::Result;
use bytes::Bytes;
use event_loop::{EventLoop, LoopError, LoopNode, Resolve};
use loop_ports::PortNode;
use node_names::NodeName;
use std::alloc::{AllocError, Allocator};
use std::net::{Net, SocketAddr};
use std::time::Duration;
use wire_node::WireError;

/// How many bytes a message has.
const LENGTH: usize = 20_000;

/// Where two nodes take connections, once they listen.
#[derive(Clone, Copy, Drop)]
pub(crate) struct Both {
    places: [(NodeName, Option<SocketAddr>); 2],
}

impl Resolve for Both {
    fn resolve(&mut self, name: &NodeName) -> Option<SocketAddr> {
        let [first, second] = &self.places;
        if first.0 == *name { first.1 } else { second.1 }
    }
}

impl Both {
    /// The nodes `a` and `b`, which do not listen yet.
    pub(crate) fn new() -> Result<Both> {
        let (a, b) = (NodeName::parse(b"a")?, NodeName::parse(b"b")?);
        Ok(Both {
            places: [(a, None), (b, None)],
        })
    }

    /// The name of the node at this place, and that of the other.
    fn names(&self, place: usize) -> (NodeName, NodeName) {
        let [first, second] = &self.places;
        if place == 0 {
            (first.0, second.0)
        } else {
            (second.0, first.0)
        }
    }

    /// Notes where the node at this place takes connections.
    fn note(&mut self, place: usize, at: SocketAddr) {
        if let Some(noted) = self.places.get_mut(place) {
            noted.1 = Some(at);
        }
    }
}

/// A loop of two nodes.
pub(crate) type Pair<N, A> = EventLoop<N, Both, A>;

/// Adds the node at this place.
pub(crate) fn add<N, R, A>(rt: &R, alloc: A, pair: &mut Pair<N, A>, place: usize) -> Result<()>
where
    N: LoopNode<A> + RefusedNode<A>,
    R: Net,
    A: Allocator + Copy,
{
    let (me, peer) = pair.resolver_mut().names(place);
    let node = N::begin(alloc, me, peer)?;
    pair.add(rt, "127.0.0.1:0".parse()?, node)?;
    let at = pair.address(place)?;
    pair.resolver_mut().note(place, at);
    Ok(())
}

/// Makes a payload.
fn payload<A: Allocator + Copy>(alloc: A) -> Result<Bytes<A>, AllocError> {
    let zeros = vec![in alloc; 0; LENGTH]?;
    Bytes::copy_from_slice(alloc, zeros.as_slice())
}

/// Has the node broadcast a message.
fn say<N: PortNode<A>, A: Allocator + Copy>(alloc: A, node: &mut N) -> Result<(), WireError> {
    let payload = payload(alloc)?;
    node.broadcast(&payload)
}

/// Has the node at this place broadcast a message, and again if that is refused.
pub(crate) fn say_at<N, A>(alloc: A, pair: &mut Pair<N, A>, place: usize) -> Result<()>
where
    N: LoopNode<A> + PortNode<A>,
    A: Allocator + Copy,
{
    if let Some(node) = pair.node_mut(place) {
        if say(alloc, node).is_err() {
            say(alloc, node)?;
        }
    }
    Ok(())
}

/// What becomes of a call where an allocation was refused: it counts as done, and the next turn makes it again.
fn excuse(answer: Result<(), LoopError>) -> Result<()> {
    match answer {
        Ok(()) | Err(LoopError::OutOfMemory) => Ok(()),
        Err(error) => Err(error.into()),
    }
}

/// Makes a turn.
pub(crate) fn turn<N: LoopNode<A>, R: Net, A: Allocator + Copy>(
    rt: &R,
    pair: &mut Pair<N, A>,
) -> Result<()> {
    excuse(pair.send(rt))?;
    excuse(pair.take(Duration::from_millis(1)))
}

/// Makes a tick.
pub(crate) fn tick<N: LoopNode<A>, A: Allocator + Copy>(pair: &mut Pair<N, A>) -> Result<()> {
    excuse(pair.tick())
}

/// Takes what the node at this place delivered. Returns how many messages that are.
pub(crate) fn listen<N, A>(pair: &mut Pair<N, A>, place: usize) -> usize
where
    N: LoopNode<A> + PortNode<A>,
    A: Allocator + Copy,
{
    match pair.node_mut(place) {
        Some(node) => node.take_deliveries().len(),
        None => 0,
    }
}
