//! The start of a group's nodes.
ghost use Rattle.std.specs.Prelude.{◌≡◌, IfOk, length};

use crate::engine::{Engine, Ground};
use crate::error::RunError;
use crate::host_start::{RING, STEPS, Started, start_host};
use crate::inbox::Inbox;
use crate::list::keep;
use crate::member::{Member, may_start};
use crate::node::Node;
use crate::node_address::{Address, others};
use crate::shortage::Shortage;
use crate::speech::Speech;
use node_core::PlumCore;
use node_names::{Limits, NodeName};
use node_threads::NodeCore;
use std::alloc::{AllocError, Global};
use std::net::{Ipv4Addr, Net, SocketAddr, SocketAddrV4, TcpListener, TcpStream};
use std::sync::Arc;
use std::time::Instant;

/// A port of 127.0.0.1.
pub fn address(port: u16) -> SocketAddr {
    SocketAddr::V4(SocketAddrV4::new(Ipv4Addr::LOCALHOST, port))
}

/// Where the members take connections.
pub(crate) fn addresses(alloc: Global, members: &[Member]) -> Result<Vec<Address>, AllocError> {
    let mut addresses = Vec::new(alloc);
    for member in members {
        addresses.push(Address {
            name: member.me.name,
            at: address(member.port),
        })?;
    }
    Ok(addresses)
}

/// The name of the first member that has this port.
fn owner_of(members: &[Member], port: u16) -> Option<NodeName> {
    members
        .iter()
        .find(|member| member.port == port)
        .map(|member| member.me.name)
}

/// Refuses the port of a member that an earlier member has.
pub fn check_port(members: &[Member], member: &Member) -> Result<(), RunError> {
    let node = member.me.name;
    match owner_of(members, member.port) {
        Some(other) if other != node => Err(RunError::SamePort { node, other }),
        _ => Ok(()),
    }
}

/// Listens on the port of a member, unless an earlier member has the port.
fn listen_for<R: Net<Listener = TcpListener, Stream = TcpStream>>(
    rt: &R,
    members: &[Member],
    member: &Member,
) -> Result<TcpListener, RunError> {
    check_port(members, member)?;
    listen_on(rt, member.port, member.me.name)
}

/// Listens on the ports of all members, in order.
pub(crate) fn listen_all<R: Net<Listener = TcpListener, Stream = TcpStream>>(
    rt: &R,
    alloc: Global,
    members: &[Member],
) -> Result<Vec<TcpListener>, RunError> {
    let mut listeners = Vec::new(alloc);
    for member in members {
        listeners.push(listen_for(rt, members, member)?)?;
    }
    Ok(listeners)
}

/// Listens on a port for a node.
fn listen_on<R: Net<Listener = TcpListener, Stream = TcpStream>>(
    rt: &R,
    port: u16,
    node: NodeName,
) -> Result<TcpListener, RunError> {
    match rt.bind(address(port)) {
        Ok(listener) => Ok(listener),
        Err(error) => match Shortage::of(&error) {
            Some(of) => Err(RunError::short(node, of)),
            None => Err(RunError::CannotListen { node }),
        },
    }
}

/// Listens on a free port, to keep a descriptor that stopping the nodes may need. If there is no descriptor, the error
/// names the last of the members.
pub(crate) fn listen_spare<R: Net<Listener = TcpListener, Stream = TcpStream>>(
    rt: &R,
    members: &[Member],
) -> Result<Option<TcpListener>, RunError> {
    match members.last() {
        Some(member) => Ok(Some(listen_on(rt, 0, member.me.name)?)),
        None => Ok(None),
    }
}

/// The error of a node that was refused an allocation.
fn no_memory(node: NodeName) -> RunError {
    RunError::short(node, Shortage::Memory)
}

/// The names that the node of this name has links to.
fn names_for(
    alloc: Global,
    addresses: &[Address],
    me: &NodeName,
) -> Result<Vec<NodeName>, RunError> {
    match others(alloc, addresses, me) {
        Ok(names) => Ok(names),
        Err(_) => Err(no_memory(*me)),
    }
}

/// Starts a member's core and its host, with a link to each of the names.
fn start_member(
    alloc: Global,
    limits: Limits,
    member: &Member,
    names: &[NodeName],
) -> Result<Started<PlumCore>, RunError> {
    let me = member.me;
    let peers = member.peers.as_slice();
    let contact = member.contact;
    if !may_start(&limits, &me.name, peers, &contact) {
        return Err(RunError::BadPeers { node: me.name });
    }
    match start_host(alloc, me, limits, peers, contact, names, RING, STEPS) {
        Ok(started) => Ok(started),
        Err(_) => Err(no_memory(me.name)),
    }
}

/// What a node has besides its host and links.
#[derive(Drop)]
struct Surroundings {
    name: NodeName,
    ground: Ground,
    speech: Speech,
    inbox: Arc<Inbox, Global>,
}

/// What the node of a member has besides its host and links.
fn surround(
    alloc: Global,
    start: Option<Instant>,
    member: Member,
) -> Result<Surroundings, AllocError> {
    Ok(Surroundings {
        name: member.me.name,
        ground: Ground::new(alloc, address(member.port))?,
        inbox: Arc::new(alloc, Inbox::new(alloc))?,
        speech: Speech::new(alloc, start, member.texts)?,
    })
}

/// Makes a node of these parts.
fn assemble<C: NodeCore<Global> + Drop>(
    alloc: Global,
    started: Started<C>,
    around: Surroundings,
) -> Node<C> {
    let (host, ports, outlets) = started;
    let Surroundings {
        name,
        ground,
        speech,
        inbox,
    } = around;
    Node {
        name,
        engine: Engine::new(alloc, ground, host, outlets),
        ports,
        speech,
        inbox,
    }
}

/// The name of a member.
fn name_of(member: &Member) -> NodeName {
    member.me.name
}

/// Starts the node of a member, without threads yet.
fn start_node(
    alloc: Global,
    limits: Limits,
    start: Option<Instant>,
    addresses: &[Address],
    member: Member,
) -> Result<Node<PlumCore>, RunError> {
    let me = name_of(&member);
    let names = names_for(alloc, addresses, &me)?;
    let started = start_member(alloc, limits, &member, names.as_slice())?;
    match surround(alloc, start, member) {
        Ok(around) => Ok(assemble(alloc, started, around)),
        Err(_) => Err(no_memory(me)),
    }
}

/// Starts the members' nodes, in order, without threads.
pub(crate) fn start_nodes(
    alloc: Global,
    limits: Limits,
    start: Option<Instant>,
    addresses: &[Address],
    members: Vec<Member>,
) -> Result<Vec<Node<PlumCore>>, RunError>
    ensures { IfOk result (λ nodes. length nodes.items ≡ length members.items) }
{
    let mut nodes = Vec::new(alloc);
    for member in members {
        let node = start_node(alloc, limits, start, addresses, member)?;
        keep(&mut nodes, node)?;
    }
    Ok(nodes)
}
