//! A node that an event loop runs.
use crate::link_error::LinkError;
use node_names::{Dice, NodeName};
use rand_core::Rng;
use std::alloc::{AllocError, Allocator};
use std::net::SocketAddr;
use wire_node::{ConnectionId, ReceiveError, WireError};

/// A node that an event loop runs: what the loop calls of it. Each call does what the one of the same name of a
/// `WireNode` does. Those from
/// `hears_pulses` on are about its connections and links themselves, of which a `WireNode` keeps nothing.
///
/// The loop is generic in it, since each function that owns a node takes the prover a minute if its type is named.
pub trait LoopNode<A: Allocator + Copy>: Drop {
    /// Accepts a connection, over which bytes may come from now on.
    fn accept(&mut self) -> Result<ConnectionId, WireError>;

    /// Takes bytes that came over the connection, with dice of the generator.
    fn receive<G: Rng>(
        &mut self,
        id: ConnectionId,
        bytes: &[u8],
        generator: &mut G,
    ) -> Result<(), ReceiveError>;

    /// Drops the connection: it is closed.
    fn ended(&mut self, id: ConnectionId, dice: &Dice) -> Result<(), WireError>;

    /// Tells the node that the name cannot be reached.
    fn unreachable(&mut self, name: NodeName, dice: &Dice) -> Result<(), WireError>;

    /// Has the node join by the contact.
    fn join(&mut self, contact: NodeName, dice: &Dice) -> Result<(), WireError>;

    /// Makes a tick.
    fn tick(&mut self, dice: &Dice) -> Result<(), WireError>;

    /// Has the node go on asking for messages that did not come, if more are to be asked for, with dice of the
    /// generator.
    fn ask_on<G: Rng>(&mut self, generator: &mut G) -> Result<(), WireError>;

    /// The names for whom bytes wait.
    fn receivers(&self) -> Result<Vec<NodeName, A>, AllocError>;

    /// How many bytes wait for the name.
    fn waiting(&self, name: &NodeName) -> usize;

    /// The first of the bytes that wait for the name, in up to four slices. Where any wait, the first two are not both
    /// empty, unless the node holds back what waits: then all are.
    fn transmit(&self, name: &NodeName) -> [&[u8]; 4];

    /// Takes the first `count` of the bytes that wait for the name: they went out.
    fn transmitted(&mut self, name: &NodeName, count: usize);

    /// Returns the names for whom bytes were dropped since the last call.
    fn take_lost(&mut self) -> Vec<NodeName, A>;

    /// Whether the name is in the active view.
    fn is_peer(&self, name: &NodeName) -> bool;

    /// Whether it is to join by one of its contacts: its active view is empty, or it has another reason.
    fn is_alone(&self) -> bool;

    /// Whether over each connection something comes now and then, so that one over which nothing came for longer than
    /// may be is of a node that is gone.
    fn hears_pulses(&self) -> bool;

    /// Notes where a connection that was accepted comes from.
    fn came(&mut self, id: ConnectionId, from: SocketAddr);

    /// Where the name takes connections, if the node knows it. Else the loop's resolver is asked.
    fn address_of(&self, name: &NodeName) -> Option<SocketAddr>;

    /// Notes that a link to the name is about to be dialled: its first bytes are the first that `transmit` gives then.
    /// If this is refused, it is not dialled.
    fn opens(&mut self, name: NodeName) -> Result<(), AllocError>;

    /// Notes that there is no link to the name any more.
    fn closed(&mut self, name: &NodeName);

    /// Notes why the name cannot be reached, of which `unreachable` told just before.
    fn failed(&mut self, name: NodeName, error: LinkError);

    /// Whether it answers over the connections that came in, as a server of pages does. A node of a group does not:
    /// what it sends goes over links.
    fn answers(&self) -> bool {
        false
    }

    /// The bytes that wait to go back over the connection.
    fn answer(&self, _id: ConnectionId) -> &[u8] {
        &[]
    }

    /// Takes the first `count` of the bytes that wait to go back over the connection: they went out.
    fn answered(&mut self, _id: ConnectionId, _count: usize) {}

    /// Whether the connection is to be closed, since nothing more is to come over it, either way.
    fn is_through(&self, _id: ConnectionId) -> bool {
        false
    }
}
