//! Nodes: how a test starts and closes them.
ghost use Rattle.std.specs.Prelude.{◌≡◌, ◌++◌, List, None, IfOk, IsTrue};
ghost use Rattle.node_names.specs.NodeName.{Name};
ghost use Rattle.frames.specs.Frame.{Frame as Sent};
ghost use Rattle.protocol.specs.Peers.{are_peers};

use crate::tests::texts::push_answer;
use frames::Frame;
use node_core::PlumCore;
use node_names::{Limits, NodeName, Origin};
use node_threads::{Host, HostError, NodeCore, Outlet, Port, Worker};
use protocol::{Core, CoreError, Out, are_peers};
use std::alloc::{AllocError, Allocator, Global};
use std::process::Abort;
use std::sync::Wait;
use std::thread::Threads;
use test_support::first_run;

/// How many frames a link has room for: more than any test sends.
const RING: usize = 10_000;

/// How many steps a node may make: more than any test makes.
const STEPS: usize = 1_000_000;

/// How often a test checks whether what it waits for has come, with five milliseconds after each check.
pub(crate) const LOOKS: u32 = 4_000;

/// A core that a test starts.
///
/// All helpers are generic in it: a function that owns a node takes the prover a minute if the core's type is named.
pub(crate) trait TestedCore<A: Allocator>: NodeCore<A> {
    /// Starts a core without a contact, and appends the frames that it sends to `out`.
    fn begin(
        alloc: A,
        me: Origin,
        limits: Limits,
        peers: &[NodeName],
        out: &mut Out<Frame<A>, A>,
    ) -> Result<Self, CoreError>
        requires { IsTrue (are_peers limits me.name peers.now None) }
        ensures { IfOk result (λ core. (sends : List (Name × Sent))
            × Self.starts me limits peers.now None sends core
            × (out.new ≡ record out.old { sends = out.old.sends ++ sends })) };
}

impl<A: Allocator + Copy> TestedCore<A> for PlumCore<A> {
    fn begin(
        alloc: A,
        me: Origin,
        limits: Limits,
        peers: &[NodeName],
        out: &mut Out<Frame<A>, A>,
    ) -> Result<PlumCore<A>, CoreError> {
        PlumCore::start(alloc, me, limits, peers, None, out)
    }
}

/// A node: its host, and what works for it.
#[derive(Drop)]
pub(crate) struct Node<C: NodeCore<A> + Drop, A: Allocator = Global> {
    pub(crate) host: Host<C, A>,
    pub(crate) ports: Vec<Port<C, A>, A>,
    pub(crate) outlets: Vec<Outlet<A>, A>,
    pub(crate) workers: Vec<Worker<A>, A>,
}

/// Appends an item.
pub(crate) fn keep<T: Drop, A: Allocator>(list: &mut Vec<T, A>, item: T) -> Result<(), AllocError> {
    list.push(item)?;
    Ok(())
}

/// Parses a name.
pub(crate) fn name(rt: &impl Abort, text: &str) -> NodeName {
    NodeName::parse(text.as_bytes()).expect(rt, "a name")
}

/// Parses names that blanks separate.
fn parse_names<A: Allocator + Copy>(
    rt: &impl Abort,
    alloc: A,
    text: &str,
) -> Result<Vec<NodeName, A>, AllocError> {
    let mut names = Vec::new(alloc);
    for word in text.split_whitespace() {
        names.push(name(rt, word))?;
    }
    Ok(names)
}

/// Starts a node with these peers. Its trace may have so many steps.
fn start_among<C: TestedCore<A> + Drop, A: Allocator + Copy>(
    alloc: A,
    me: Origin,
    limits: Limits,
    peers: &[NodeName],
    ports: usize,
    steps: usize,
) -> Result<Node<C, A>, HostError>
    requires { IsTrue (are_peers limits me.name peers.now None) }
{
    let mut opening = Out::new(alloc);
    let core = match C::begin(alloc, me, limits, peers, &mut opening) {
        Ok(core) => core,
        Err(error) => return Err(HostError::Refused(error)),
    };
    let (host, ports, outlets) = Host::start(alloc, core, opening, peers, ports, RING, steps)?;
    Ok(Node {
        host,
        ports,
        outlets,
        workers: Vec::new(alloc),
    })
}

/// Starts a node with some ports and with these peers, whose names blanks separate. All names must be distinct.
pub(crate) fn start<C: TestedCore<A> + Drop, A: Allocator + Copy>(
    rt: &impl Abort,
    alloc: A,
    me: &str,
    peers: &str,
    ports: usize,
) -> Result<Node<C, A>, HostError> {
    start_within(rt, alloc, me, peers, ports, STEPS)
}

/// Starts such a node whose trace may have so many steps.
pub(crate) fn start_within<C: TestedCore<A> + Drop, A: Allocator + Copy>(
    rt: &impl Abort,
    alloc: A,
    me: &str,
    peers: &str,
    ports: usize,
    steps: usize,
) -> Result<Node<C, A>, HostError> {
    let me = first_run(name(rt, me));
    let peers = parse_names(rt, alloc, peers)?;
    let limits = Limits::STANDARD;
    assert!(rt; are_peers(&limits, &me.name, peers.as_slice(), &None));
    start_among(alloc, me, limits, peers.as_slice(), ports, steps)
}

/// Closes a node. Replaces the text with the answer.
pub(crate) fn close<R: Threads + Wait, C: NodeCore<A> + Drop, A: Allocator + Copy>(
    rt: &R,
    text: &mut String,
    node: Node<C, A>,
) -> Result<(), AllocError> {
    let Node {
        host,
        ports,
        outlets: _,
        workers,
    } = node;
    text.clear();
    push_answer(text, &host.close(rt, ports, workers))
}
