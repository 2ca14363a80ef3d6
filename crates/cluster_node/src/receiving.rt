//! Taking the bytes of a connection apart: frames for the node, and what tells of other nodes.
ghost use Rattle.std.specs.Prelude.{◌<◌, length};

use crate::cluster_node::ClusterNode;
use crate::notice::Notice;
use crate::stepped_node::SteppedNode;
use handshake::{Arrival, Front, Introduction, Record, Refusal};
use node_names::NodeName;
use rand_core::Rng;
use std::alloc::{AllocError, Allocator};
use std::net::SocketAddr;
use wire_node::{ConnectionId, ReceiveError, WireError};

/// A connection that came in, and where it comes from.
#[derive(Drop)]
pub(crate) struct Incoming {
    pub(crate) arrival: Arrival,
    pub(crate) from: Option<SocketAddr>,
}

/// The refusal of a connection that is to be closed: none of the bytes is taken.
const CLOSED: ReceiveError = ReceiveError {
    taken: 0,
    error: WireError::NoConnection,
};

impl<N: SteppedNode<A>, A: Allocator + Copy> ClusterNode<N, A> {
    /// Keeps a connection, over which nothing has come yet.
    pub(crate) fn keep(&mut self, id: ConnectionId) -> Result<(), AllocError> {
        let incoming = Incoming {
            arrival: Arrival::new(self.identity.addressee()),
            from: None,
        };
        self.arrivals.insert(id.0, incoming)?;
        Ok(())
    }

    /// Takes bytes that came over the connection.
    pub(crate) fn take_all<G: Rng>(
        &mut self,
        id: ConnectionId,
        bytes: &[u8],
        generator: &mut G,
    ) -> Result<(), ReceiveError> {
        let mut rest = bytes;
        for _ in 0..bytes.len() {
            if rest.is_empty() {
                return Ok(());
            }
            match self.take_front(id, rest, generator) {
                Ok(count) => rest = &rest[count.min(rest.len())..],
                Err(ReceiveError { taken, error }) => {
                    let before = bytes.len().saturating_sub(rest.len());
                    let taken = before.saturating_add(taken);
                    return Err(ReceiveError { taken, error });
                }
            }
        }
        Ok(())
    }

    /// Takes the first of the bytes: those of frames, or of another record. Returns how many these were.
    fn take_front<G: Rng>(
        &mut self,
        id: ConnectionId,
        bytes: &[u8],
        generator: &mut G,
    ) -> Result<usize, ReceiveError>
        requires { 0 < length bytes.now }
    {
        let Some(incoming) = self.arrivals.get_mut(&id.0) else {
            return Err(CLOSED);
        };
        let from = incoming.from;
        match incoming.arrival.next(bytes) {
            Ok(Front::Frames(count)) => {
                let front = &bytes[..count.min(bytes.len())];
                self.take_frames(id, front, generator)?;
                Ok(front.len())
            }
            Ok(Front::Record(count, record)) => {
                self.take_record(record);
                Ok(count)
            }
            Err(refusal) => Err(self.refuse(from, refusal)),
        }
    }

    /// Gives the node bytes of frames.
    fn take_frames<G: Rng>(
        &mut self,
        id: ConnectionId,
        bytes: &[u8],
        generator: &mut G,
    ) -> Result<(), ReceiveError> {
        let received = self.node.receive(id, bytes, generator);
        let taken = match received {
            Ok(()) => bytes.len(),
            Err(ReceiveError { taken, .. }) => taken.min(bytes.len()),
        };
        if let Some(incoming) = self.arrivals.get_mut(&id.0) {
            incoming.arrival.pass(&bytes[..taken]);
        }
        self.introduce();
        received
    }

    /// Takes a record that is no frame, if one became whole.
    fn take_record(&mut self, record: Option<Record>) {
        match record {
            Some(Record::Hello(hello)) => self.meet(hello.name, SocketAddr::from(hello.at)),
            Some(Record::Introduction(introduction)) => self.hear(introduction),
            None => {}
        }
    }

    /// Refuses a connection that is not meant for this node, or over which came what no node sends.
    fn refuse(&mut self, from: Option<SocketAddr>, refusal: Refusal) -> ReceiveError {
        let notice = match refusal {
            Refusal::Malformed(error) => Notice::Refused { from, error },
            Refusal::OtherCluster { name, label } => Notice::OtherCluster { from, name, label },
            Refusal::Misdirected { name, to } => Notice::Misdirected { from, name, to },
            Refusal::SameName { at } => Notice::SameName {
                at: SocketAddr::from(at),
            },
        };
        self.notices.push(notice);
        CLOSED
    }

    /// Takes what the node of a hello says of itself. Where memory is refused, the address is not kept.
    fn meet(&mut self, name: NodeName, at: SocketAddr) {
        self.compare(name, at);
        let _ = self.book.confirm(name, at);
        if self.contacts.contains(&name) {
            self.is_apart = false;
        }
        self.notices.push(Notice::Heard { name, at });
    }

    /// Says so if a neighbour of this name takes connections at another address, and tells the neighbour.
    fn compare(&mut self, name: NodeName, at: SocketAddr) {
        let Some(other) = self.book.sure_address_of(&name) else {
            return;
        };
        if other != at && self.node.is_peer(&name) {
            self.notices.push(Notice::Twice { name, at, other });
            let _ = self.introduce_as(&name, name, at);
        }
    }

    /// Takes an introduction. Where memory is refused, it is not kept. One of this node's name tells of another node.
    fn hear(&mut self, introduction: Introduction) {
        let Introduction { name, at } = introduction;
        if name != self.identity.name {
            let _ = self.book.hear(name, SocketAddr::from(at));
        } else if at != self.identity.at {
            self.meet_namesake(SocketAddr::from(at));
        }
    }
}
