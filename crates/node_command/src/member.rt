//! What the loop runs: the node, and the server of its pages.
use crate::page_server::PageServer;
use bytes::Bytes;
use cluster_node::{ClusterNode, SteppedNode};
use event_loop::{LinkError, LoopNode};
use loop_ports::PortNode;
use node_names::{Dice, NodeName};
use protocol::Delivery;
use rand_core::Rng;
use std::alloc::{AllocError, Global};
use std::net::SocketAddr;
use wire_node::{ConnectionId, News, ReceiveError, WireError};

/// What the loop runs: the node, or the server of its pages, which has no links and answers over its connections.
#[derive(Drop)]
pub(crate) enum Member<N> {
    Node(ClusterNode<N>),
    Pages(PageServer),
}

/// No bytes.
const NOTHING: &[u8] = &[];

impl<N: SteppedNode<Global>> LoopNode<Global> for Member<N> {
    fn accept(&mut self) -> Result<ConnectionId, WireError> {
        match self {
            Member::Node(node) => node.accept(),
            Member::Pages(pages) => pages.accept(),
        }
    }

    fn receive<G: Rng>(
        &mut self,
        id: ConnectionId,
        bytes: &[u8],
        generator: &mut G,
    ) -> Result<(), ReceiveError> {
        match self {
            Member::Node(node) => node.receive(id, bytes, generator),
            Member::Pages(pages) => pages.receive(id, bytes),
        }
    }

    fn ended(&mut self, id: ConnectionId, dice: &Dice) -> Result<(), WireError> {
        match self {
            Member::Node(node) => node.ended(id, dice),
            Member::Pages(pages) => {
                pages.close(id);
                Ok(())
            }
        }
    }

    fn unreachable(&mut self, name: NodeName, dice: &Dice) -> Result<(), WireError> {
        match self {
            Member::Node(node) => node.unreachable(name, dice),
            Member::Pages(_) => Ok(()),
        }
    }

    fn join(&mut self, contact: NodeName, dice: &Dice) -> Result<(), WireError> {
        match self {
            Member::Node(node) => node.join(contact, dice),
            Member::Pages(_) => Ok(()),
        }
    }

    fn tick(&mut self, dice: &Dice) -> Result<(), WireError> {
        match self {
            Member::Node(node) => node.tick(dice),
            Member::Pages(_) => Ok(()),
        }
    }

    fn ask_on<G: Rng>(&mut self, generator: &mut G) -> Result<(), WireError> {
        match self {
            Member::Node(node) => node.ask_on(generator),
            Member::Pages(_) => Ok(()),
        }
    }

    fn receivers(&self) -> Result<Vec<NodeName>, AllocError> {
        match self {
            Member::Node(node) => node.receivers(),
            Member::Pages(pages) => Ok(pages.nothing()),
        }
    }

    fn waiting(&self, name: &NodeName) -> usize {
        match self {
            Member::Node(node) => node.waiting(name),
            Member::Pages(_) => 0,
        }
    }

    fn transmit(&self, name: &NodeName) -> [&[u8]; 4] {
        match self {
            Member::Node(node) => node.transmit(name),
            Member::Pages(_) => [NOTHING, NOTHING, NOTHING, NOTHING],
        }
    }

    fn transmitted(&mut self, name: &NodeName, count: usize) {
        if let Member::Node(node) = self {
            node.transmitted(name, count);
        }
    }

    fn take_lost(&mut self) -> Vec<NodeName> {
        match self {
            Member::Node(node) => node.take_lost(),
            Member::Pages(pages) => pages.nothing(),
        }
    }

    fn is_peer(&self, name: &NodeName) -> bool {
        match self {
            Member::Node(node) => node.is_peer(name),
            Member::Pages(_) => false,
        }
    }

    fn is_alone(&self) -> bool {
        match self {
            Member::Node(node) => node.is_alone(),
            Member::Pages(_) => false,
        }
    }

    fn hears_pulses(&self) -> bool {
        true
    }

    fn came(&mut self, id: ConnectionId, from: SocketAddr) {
        if let Member::Node(node) = self {
            node.came(id, from);
        }
    }

    fn address_of(&self, name: &NodeName) -> Option<SocketAddr> {
        match self {
            Member::Node(node) => node.address_of(name),
            Member::Pages(_) => None,
        }
    }

    fn opens(&mut self, name: NodeName) -> Result<(), AllocError> {
        match self {
            Member::Node(node) => node.opens(name),
            Member::Pages(_) => Ok(()),
        }
    }

    fn closed(&mut self, name: &NodeName) {
        if let Member::Node(node) = self {
            node.closed(name);
        }
    }

    fn failed(&mut self, name: NodeName, error: LinkError) {
        if let Member::Node(node) = self {
            node.failed(name, error);
        }
    }

    fn answers(&self) -> bool {
        matches!(self, Member::Pages(_))
    }

    fn answer(&self, id: ConnectionId) -> &[u8] {
        match self {
            Member::Node(_) => NOTHING,
            Member::Pages(pages) => pages.answer(id),
        }
    }

    fn answered(&mut self, id: ConnectionId, count: usize) {
        if let Member::Pages(pages) = self {
            pages.answered(id, count);
        }
    }

    fn is_through(&self, id: ConnectionId) -> bool {
        match self {
            Member::Node(_) => false,
            Member::Pages(pages) => pages.is_through(id),
        }
    }
}

impl<N: SteppedNode<Global>> PortNode<Global> for Member<N> {
    fn broadcast(&mut self, payload: &Bytes) -> Result<(), WireError> {
        match self {
            Member::Node(node) => node.broadcast(payload),
            Member::Pages(_) => Ok(()),
        }
    }

    fn take_deliveries(&mut self) -> Vec<Delivery> {
        match self {
            Member::Node(node) => node.take_deliveries(),
            Member::Pages(pages) => pages.nothing(),
        }
    }

    fn tell_news(&mut self, tells: bool) {
        if let Member::Node(node) = self {
            node.tell_news(tells);
        }
    }

    fn take_news(&mut self) -> Result<Vec<News>, AllocError> {
        match self {
            Member::Node(node) => node.take_news(),
            Member::Pages(pages) => Ok(pages.nothing()),
        }
    }
}
