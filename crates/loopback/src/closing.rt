//! The end of a run.
ghost use Rattle.std.specs.Prelude.{◌≡◌, ◌+◌, [], ◌∷◌, ◌++◌, None, All, IfOk, OnOk, length};
ghost use Rattle.node_threads.specs.Closing.{IsLeft};
ghost use Rattle.node_threads.specs.History.{IsHistory};

use crate::error::RunError;
use crate::inbox::{Given, Inbox};
use crate::list::keep;
use crate::node::Node;
use crate::past::Past;
use crate::shortage::Shortage;
use crate::speech::{Speech, Stamp};
use crate::stop_error::StopError;
use crate::stopping::stop_all;
use frames::Frame;
use node_names::NodeName;
use node_threads::NodeCore;
use protocol::{Delivery, Trace};
use std::alloc::{AllocError, Global};
use std::net::{Net, TcpListener, TcpStream};
use std::sync::Wait;
use std::thread::Threads;
use std::time::{Clock, Duration};

/// What the nodes of a group leave, in the order of the members.
#[derive(Drop)]
pub struct RunReport {
    /// The deliveries that the nodes handed out: those of each node in the order in which it delivered them.
    pub deliveries: Vec<Delivery>,
    /// The time since the run began at which each of the deliveries was handed out.
    pub times: Vec<Duration>,
    /// When each message was broadcast: those of each node in order.
    pub broadcasts: Vec<Stamp>,
    /// The nodes' histories.
    pub traces: Vec<Trace<Frame>>,
}

impl RunReport {
    /// Makes an empty report.
    pub fn new(alloc: Global) -> RunReport
        ensures { result.traces.items ≡ [] }
    {
        RunReport {
            deliveries: Vec::new(alloc),
            times: Vec::new(alloc),
            broadcasts: Vec::new(alloc),
            traces: Vec::new(alloc),
        }
    }

    /// Appends what a node leaves.
    pub fn add(
        &mut self,
        trace: Trace<Frame>,
        speech: Speech,
        given: Given,
    ) -> Result<(), AllocError>
        ensures { OnOk result (self.new.traces.items ≡ self.old.traces.items ++ trace ∷ []) }
    {
        self.add_said(speech, given)?;
        keep(&mut self.traces, trace)
    }

    /// Appends what a node broadcast and delivered that has no history.
    pub fn add_said(&mut self, speech: Speech, mut given: Given) -> Result<(), AllocError>
        ensures { OnOk result (self.new.traces.items ≡ self.old.traces.items) }
    {
        self.broadcasts.append(&mut speech.into_stamps())?;
        self.deliveries.append(&mut given.deliveries)?;
        self.times.append(&mut given.times)?;
        Ok(())
    }
}

/// The history of a node that was closed, which never forgets.
fn history_of<C: NodeCore<Global> + Drop>(
    node: NodeName,
    closed: Result<Past, StopError>,
) -> Result<Trace<Frame>, RunError>
    requires { IfOk closed (λ past. IsLeft C.starts C.steps past.since past.trace) }
    ensures { IfOk result (IsHistory C.starts C.steps) }
{
    match closed {
        Ok(Past { since: None, trace }) => Ok(trace),
        Ok(Past { since: Some(_), .. }) => Err(RunError::Forgotten { node }),
        Err(error) => Err(RunError::closing(node, error)),
    }
}

/// Closes a node, and adds what it leaves.
fn close_node<R: Threads + Wait, C: NodeCore<Global> + Drop>(
    rt: &R,
    node: Node<C>,
    ran: &mut RunReport,
) -> Result<(), RunError>
    ensures histories { OnOk result (All (IsHistory C.starts C.steps) ran.old.traces.items
        → All (IsHistory C.starts C.steps) ran.new.traces.items) }
    ensures one { OnOk result (length ran.new.traces.items ≡ length ran.old.traces.items + 1) }
{
    let Node {
        name,
        engine,
        ports,
        inbox,
        speech,
    } = node;
    let trace = history_of::<C>(name, engine.close(rt, ports))?;
    match leave(rt, trace, speech, &inbox, ran) {
        Ok(()) => Ok(()),
        Err(_) => Err(RunError::short(name, Shortage::Memory)),
    }
}

/// Adds what a closed node leaves.
fn leave<R: Wait>(
    rt: &R,
    trace: Trace<Frame>,
    speech: Speech,
    inbox: &Inbox,
    ran: &mut RunReport,
) -> Result<(), AllocError>
    ensures { OnOk result (ran.new.traces.items ≡ ran.old.traces.items ++ trace ∷ []) }
{
    let given = inbox.take(rt)?;
    ran.add(trace, speech, given)
}

/// Why the first of the nodes that refused a broadcast did so, if one did.
fn first_refusal<C: NodeCore<Global> + Drop>(nodes: &[Node<C>]) -> Option<RunError> {
    nodes.iter().find_map(|node| node.speech.refused())
}

/// Closes all nodes in order, adds what they leave, and returns the first fault.
fn close_each<R: Threads + Wait, C: NodeCore<Global> + Drop>(
    rt: &R,
    nodes: Vec<Node<C>>,
    ran: &mut RunReport,
) -> Option<RunError>
    ensures histories { result ≡ None
        → All (IsHistory C.starts C.steps) ran.old.traces.items
        → All (IsHistory C.starts C.steps) ran.new.traces.items }
    ensures each { result ≡ None → length ran.new.traces.items ≡ length ran.old.traces.items + length nodes.items }
{
    let mut first = None;
    for node in nodes {
        if let Err(fault) = close_node(rt, node, ran) {
            first = first.or(Some(fault));
        }
    }
    first
}

/// Stops all nodes, and closes them in order. Returns what they leave, or the fault that ended the run, or else the
/// first fault of a broadcast, or else of a close.
pub(crate) fn close_all<R, C>(
    rt: &R,
    alloc: Global,
    mut nodes: Vec<Node<C>>,
    spare: Option<TcpListener>,
    ended: Option<RunError>,
) -> Result<RunReport, RunError>
where
    R: Threads + Wait + Clock + Net<Listener = TcpListener, Stream = TcpStream>,
    C: NodeCore<Global> + Drop,
    ensures histories { IfOk result (λ ran. All (IsHistory C.starts C.steps) ran.traces.items) }
    ensures each { IfOk result (λ ran. length ran.traces.items ≡ length nodes.items) }
{
    stop_all(rt, nodes.as_mut_slice(), spare);
    let refused = first_refusal(nodes.as_slice());
    let mut ran = RunReport::new(alloc);
    let unclosed = close_each(rt, nodes, &mut ran);
    match ended.or(refused).or(unclosed) {
        Some(fault) => Err(fault),
        None => Ok(ran),
    }
}
