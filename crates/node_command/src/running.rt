//! Running a node.
use crate::agent::Agent;
use crate::error::NodeError;
use crate::hosts::Hosts;
use crate::incarnation::begin;
use crate::log::Log;
use crate::lookup::{Desk, Lookup};
use crate::member::Member;
use crate::page_server::PageServer;
use crate::recorder::Recorder;
use crate::recording::Recording;
use crate::status::StatusKeeper;
use crate::system::System;
use crate::{deliveries, incarnation, input, lookup};
use cluster_node::{ClusterNode, Identity, SteppedNode};
use crossbeam_utils::sync::Parker;
use event_loop::{EventLoop, LoopError};
use handshake::Address;
use loop_ports::{Port, PortNode, Ports};
use node_names::{Incarnation, Limits, Listed, NodeName, Origin};
use node_options::{Format, Level, NodeOptions, Peer, RecordFailure, RecordSync};
use std::alloc::{AllocError, Global};
use std::fs::File;
use std::hash::RandomState;
use std::io::{Eprint, Input, Print, StdinLock};
use std::net::SocketAddr;
use std::random::RandomSource;
use std::rt::Files;
use std::sync::Arc;
use std::sync::atomic::AtomicBool;
use std::time::{Clock, Duration, Instant};
use std::{fmt, thread};
use step_records::Head;
use wire_node::{Recorded, WireLimits, WireNode};

/// How many messages may wait on each way between the loop and a thread.
const ROOM: usize = 1_024;

/// For how many milliseconds a node pauses that was refused memory.
const PAUSE: u64 = 100;

/// Where the node answers requests for its status.
#[derive(Clone, Copy)]
struct PagePlace {
    at: SocketAddr,
    keys: RandomState,
}

/// How the node runs.
#[derive(Drop)]
struct Way {
    name: NodeName,
    incarnation: Incarnation,
    listen: SocketAddr,
    advertise: SocketAddr,
    /// Where it answers requests for its status, if it does.
    pages: Option<PagePlace>,
    contacts: Vec<NodeName>,
    tick: Duration,
    grace: Duration,
    format: Format,
    ends_with_input: bool,
}

/// What the node says that keeps no incarnation.
const NO_STATE: &str =
    "no --state: the incarnation is the clock's, which must not be set back between two starts";

/// What the node says once it listens.
#[derive(Clone, Copy, Drop)]
struct Listening {
    name: NodeName,
    incarnation: u64,
    at: SocketAddr,
}

impl fmt::Display for Listening {
    fn fmt<W: fmt::Write>(&self, f: &mut fmt::Formatter<W>) -> fmt::Result {
        let Listening {
            name,
            incarnation,
            at,
        } = self;
        write!(f, "{name}/{incarnation} listens at {at}")
    }
}

/// What the node says once it answers requests for its status.
#[derive(Clone, Copy, Drop)]
struct Answering {
    at: SocketAddr,
}

impl fmt::Display for Answering {
    fn fmt<W: fmt::Write>(&self, f: &mut fmt::Formatter<W>) -> fmt::Result {
        write!(f, "answers at http://{}/", self.at)
    }
}

/// The names of the peers of which the program was told.
fn names_of(alloc: Global, peers: &[Peer]) -> Result<Vec<NodeName>, AllocError> {
    let mut names = Vec::with_capacity(alloc, peers.len())?;
    for peer in peers {
        names.push(peer.name)?;
    }
    Ok(names)
}

/// Runs the loop until its program ends it. Where memory is refused, it goes on after a pause.
fn run_on<R: System + Eprint + Files<File = File>, N: SteppedNode<Global>>(
    rt: &R,
    event_loop: &mut EventLoop<Member<N>, Hosts>,
    tick: Duration,
    agent: &mut Agent<R>,
) -> Result<(), LoopError> {
    for _ in rt.forever() {
        match event_loop.run(rt, tick, agent) {
            Err(LoopError::OutOfMemory) => {
                agent.log().say(Level::Error, &LoopError::OutOfMemory);
                thread::sleep(rt, Duration::from_millis(PAUSE));
            }
            ended => return ended,
        }
    }
    unreachable!()
}

/// Adds a member to the loop, which takes connections there. Returns its place.
fn add<R: System, N: SteppedNode<Global>>(
    rt: &R,
    event_loop: &mut EventLoop<Member<N>, Hosts>,
    at: SocketAddr,
    member: Member<N>,
) -> Result<usize, NodeError> {
    match event_loop.add(rt, at, member) {
        Ok(place) => Ok(place),
        Err(LoopError::System(error)) => Err(NodeError::Listen { at, error }),
        Err(error) => Err(NodeError::Loop(error)),
    }
}

/// Adds the server of the node's pages to the loop, if it is to have one, and says where that answers. Returns what
/// keeps the node's status.
fn add_pages<R: System + Eprint, N: SteppedNode<Global>>(
    rt: &R,
    alloc: Global,
    log: &Log<R>,
    event_loop: &mut EventLoop<Member<N>, Hosts>,
    way: &Way,
    listen: SocketAddr,
) -> Result<Option<StatusKeeper>, NodeError> {
    let Some(PagePlace { at, keys }) = way.pages else {
        return Ok(None);
    };
    let server = PageServer::new(alloc, keys);
    let place = add(rt, event_loop, at, Member::Pages(server))?;
    let at = event_loop.address(place)?;
    log.say(Level::Info, &Answering { at });
    let started = incarnation::microseconds(rt)?;
    let incarnation = way.incarnation.0;
    Ok(Some(StatusKeeper::new(alloc, incarnation, listen, started)))
}

/// Adds the node to the loop, with those by whom it joins. Returns its place. A port that the system chose is told to
/// others.
fn add_node<R: System, N: SteppedNode<Global>>(
    rt: &R,
    event_loop: &mut EventLoop<Member<N>, Hosts>,
    way: &Way,
    node: ClusterNode<N>,
) -> Result<usize, NodeError> {
    let place = add(rt, event_loop, way.listen, Member::Node(node))?;
    event_loop.set_contacts(place, way.contacts.as_slice())?;
    let at = event_loop.address(place)?;
    if let Some(Member::Node(node)) = event_loop.node_mut(place) {
        node.tell_news(true);
        if way.advertise.port() == 0 {
            node.advertise(SocketAddr::new(way.advertise.ip(), at.port()));
        }
    }
    Ok(place)
}

/// Sends what waits for at most this time. Returns whether steps that the node made meanwhile were recorded: what
/// follows from these waits still.
fn send_rest<R: System + Eprint + Files<File = File>, N: SteppedNode<Global>>(
    rt: &R,
    event_loop: &mut EventLoop<Member<N>, Hosts>,
    place: usize,
    left: Duration,
    agent: &mut Agent<R>,
) -> Result<bool, NodeError> {
    let is_sent = event_loop.finish(rt, left)?;
    let has_recorded = match event_loop.node_mut(place) {
        Some(Member::Node(node)) => agent.record(node),
        _ => false,
    };
    Ok(is_sent && has_recorded)
}

/// Sends what waits, as long as that takes, but no longer than `grace`, and records what the node takes meanwhile. If
/// its record cannot be written, nothing more is sent.
fn finish<R: System + Eprint + Files<File = File>, N: SteppedNode<Global>>(
    rt: &R,
    event_loop: &mut EventLoop<Member<N>, Hosts>,
    place: usize,
    grace: Duration,
    agent: &mut Agent<R>,
) -> Result<(), NodeError> {
    let began = Instant::now(rt)?;
    for _ in rt.forever() {
        let spent = Instant::now(rt)?.duration_since(began);
        let left = grace.saturating_sub(spent);
        if !send_rest(rt, event_loop, place, left, agent)? {
            break;
        }
    }
    agent.end_record();
    match agent.record_error() {
        Some(error) => Err(NodeError::Record(error)),
        None => Ok(()),
    }
}

/// Runs the loop with a port's threads, until the program ends or standard output fails, and sends then what waits.
fn work<R, N: SteppedNode<Global>>(
    rt: R,
    alloc: Global,
    event_loop: &mut EventLoop<Member<N>, Hosts>,
    place: usize,
    way: &Way,
    port: Port,
    parker: Parker,
    mut agent: Agent<R>,
) -> Result<(), NodeError>
where
    R: Files<File = File> + Input<Reader = StdinLock<'static>> + Print + Eprint + System,
{
    let (sender, receiver) = port.split();
    let theirs = agent.printing().clone()?;
    let printer = deliveries::start(rt, alloc, receiver, parker, theirs, way.format)?;
    let _reader = input::start(rt, alloc, *agent.log(), sender, way.ends_with_input)?;
    let ended = run_on(&rt, event_loop, way.tick, &mut agent);
    let finished = finish(&rt, event_loop, place, way.grace, &mut agent);
    drop(agent);
    let has_printed = printer.join(&rt);
    ended?;
    finished?;
    if has_printed {
        Ok(())
    } else {
        Err(NodeError::Output)
    }
}

/// Runs the node in a loop of its own.
fn serve<R, N: SteppedNode<Global>>(
    rt: R,
    alloc: Global,
    log: Log<R>,
    way: &Way,
    hosts: Hosts,
    desk: Desk,
    node: ClusterNode<N>,
    recording: Option<Recording>,
) -> Result<(), NodeError>
where
    R: Files<File = File> + Input<Reader = StdinLock<'static>> + Print + Eprint + System,
{
    let mut event_loop = EventLoop::new(&rt, alloc, hosts, way.incarnation.0)?;
    let place = add_node(&rt, &mut event_loop, way, node)?;
    let _searcher = lookup::start(rt, desk, event_loop.waker(place)?)?;
    let mut ports = Ports::new(alloc);
    let port = ports.open(&event_loop, place, ROOM)?;
    let at = event_loop.address(place)?;
    let listening = Listening {
        name: way.name,
        incarnation: way.incarnation.0,
        at,
    };
    log.say(Level::Info, &listening);
    let status = add_pages(&rt, alloc, &log, &mut event_loop, way, at)?;
    let parker = Parker::new(alloc)?;
    let unparker = parker.unparker().clone()?;
    let is_printing = Arc::new(alloc, AtomicBool::new(true))?;
    let agent = Agent::new(rt, ports, log, unparker, is_printing, status, recording);
    work(rt, alloc, &mut event_loop, place, way, port, parker, agent)
}

/// Begins the node in its cluster, and runs it.
fn start<R, N: SteppedNode<Global>>(
    rt: R,
    alloc: Global,
    log: Log<R>,
    identity: Identity,
    way: &Way,
    hosts: Hosts,
    desk: Desk,
    node: N,
    recording: Option<Recording>,
) -> Result<(), NodeError>
where
    R: Files<File = File> + Input<Reader = StdinLock<'static>> + Print + Eprint + System,
{
    let given = names_of(alloc, hosts.peers())?;
    let contacts = way.contacts.clone()?;
    let mut node = ClusterNode::new(alloc, node, identity, given, contacts);
    node.keep_steps(recording.is_some());
    serve(rt, alloc, log, way, hosts, desk, node, recording)
}

/// How the node is recorded.
#[derive(Drop)]
struct RecordPlan {
    folder: Option<String>,
    sync: RecordSync,
    on_failure: RecordFailure,
}

/// Begins the record of the node, if there is to be one.
fn begin_record<R: Files<File = File>>(
    rt: &R,
    alloc: Global,
    plan: &RecordPlan,
    label: NodeName,
    origin: &Origin,
    limits: &Limits,
) -> Result<Option<Recording>, NodeError> {
    let Some(folder) = &plan.folder else {
        return Ok(None);
    };
    let Some(head) = Head::new(label, *origin, *limits, Listed::new(alloc), None) else {
        return Ok(None);
    };
    match Recorder::begin(rt, alloc, folder.as_str(), &head, plan.sync) {
        Ok(recorder) => Ok(Some(Recording::new(recorder, plan.on_failure))),
        Err(error) => Err(NodeError::RecordFolder {
            folder: folder.clone()?,
            error,
        }),
    }
}

/// The incarnation of this start. Says so if none is kept.
fn incarnation_of<R: AllocGlobal + Files<File = File> + Clock + Eprint>(
    rt: &R,
    log: &Log<R>,
    state: &Option<String>,
) -> Result<Incarnation, NodeError> {
    match state {
        Some(folder) => begin(rt, Some(folder.as_str())),
        None => {
            log.say(Level::Info, &NO_STATE);
            begin(rt, None)
        }
    }
}

/// Where the node answers requests for its status, with keys of its own, if it does.
fn page_place<R: RandomSource>(
    rt: &R,
    status: Option<SocketAddr>,
) -> Result<Option<PagePlace>, NodeError> {
    match status {
        Some(at) => Ok(Some(PagePlace {
            at,
            keys: RandomState::new(rt)?,
        })),
        None => Ok(None),
    }
}

/// Runs a node as it is told, until it ends: with its input, if it is to, where it is asked to, or where standard
/// output fails.
///
/// Without a folder for its state, its incarnation is the clock's microseconds: where the clock is set back between two
/// starts, the others take the later one for the earlier.
pub fn run_node<R>(rt: R, options: NodeOptions) -> Result<(), NodeError>
where
    R: AllocGlobal
        + Files<File = File>
        + Input<Reader = StdinLock<'static>>
        + Print
        + Eprint
        + RandomSource
        + System,
{
    let alloc = rt.alloc();
    let NodeOptions {
        name,
        cluster,
        listen,
        advertise,
        contacts,
        peers,
        domain,
        port,
        state,
        record_folder,
        sync,
        on_record_failure,
        status,
        limits,
        tick,
        grace,
        format,
        log,
        ends_with_input,
    } = options;
    let log = Log::new(rt, log);
    let incarnation = incarnation_of(&rt, &log, &state)?;
    let identity = Identity {
        label: cluster,
        name,
        at: Address::from(advertise),
    };
    let way = Way {
        name,
        incarnation,
        listen,
        advertise,
        pages: page_place(&rt, status)?,
        contacts,
        tick,
        grace,
        format,
        ends_with_input,
    };
    let (lookup, desk) = Lookup::new(alloc)?;
    let hosts = Hosts::new(alloc, peers, domain, port, lookup);
    let me = Origin { name, incarnation };
    let plan = RecordPlan {
        folder: record_folder,
        sync,
        on_failure: on_record_failure,
    };
    let recording = begin_record(&rt, alloc, &plan, cluster, &me, &limits)?;
    let limits = WireLimits::new(limits);
    let node = WireNode::start(alloc, me, limits, &[], None, Recorded::new(alloc))?;
    start(rt, alloc, log, identity, &way, hosts, desk, node, recording)
}
