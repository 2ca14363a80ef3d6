//! Runs a group, and writes the outcome.
use crate::arguments::Host;
use frames::Frame;
use loopback::{Machine, Member, Plan, RunError, RunReport, Watch};
use node_core::PlumCore;
use node_names::{Limits, MsgId};
use protocol::{Delivery, Trace};
use record_merge::RecordedGroup;
use scenario::{GroupNode, ScenarioError, read_group_scenario};
use simulation::{
    Form, OutputError, Stop, broadcasts, deliveries, shown, sort, write_graph, write_lines,
    write_trace, write_trees,
};
use std::alloc::{AllocError, Global};
use std::io::Write;
use trace_merge::{MergeFault, merge};
use world::{Event, World, WorldError};

/// The room for a line: the longest payload in hexadecimal, and what comes before it.
const LINE_ROOM: usize = 66_000;

/// Why a group was not run and written to its end.
#[derive(Clone, Copy, Debug, PartialEq, Eq)]
pub enum GroupError {
    /// No scenario was read.
    Refused(ScenarioError),
    /// The group did not run to its end.
    Stopped(RunError),
    /// The histories of the nodes are not those of one run of a group. What was delivered is written.
    Unmerged(MergeFault),
    /// A write failed.
    Unwritten,
    /// An allocation is refused.
    OutOfMemory,
}

impl From<ScenarioError> for GroupError {
    fn from(fault: ScenarioError) -> GroupError {
        GroupError::Refused(fault)
    }
}

impl From<RunError> for GroupError {
    fn from(fault: RunError) -> GroupError {
        GroupError::Stopped(fault)
    }
}

impl From<OutputError> for GroupError {
    fn from(fault: OutputError) -> GroupError {
        match fault {
            OutputError::OutOfMemory => GroupError::OutOfMemory,
            OutputError::Unwritten => GroupError::Unwritten,
        }
    }
}

impl From<AllocError> for GroupError {
    fn from(_error: AllocError) -> GroupError {
        GroupError::OutOfMemory
    }
}

/// Reads a text as the scenario of a group, runs the group over connections on localhost, and writes what its nodes
/// delivered, whether their histories are those of one run, and what that run is.
pub fn run_group<R, W, V>(
    rt: R,
    alloc: Global,
    host: Host,
    form: Form,
    text: &[u8],
    out: &mut W,
    watch: &mut V,
) -> Result<(), GroupError>
where
    R: Machine,
    W: Write,
    V: Watch + Drop,
{
    let scenario = read_group_scenario(alloc, text)?;
    let plan = Plan {
        limits: scenario.limits,
        seed: scenario.seed,
        ticks: scenario.ticks,
    };
    let members = members(alloc, scenario.nodes)?;
    let ran = run_by(rt, alloc, host, &plan, members, watch)?;
    let did = Did {
        limits: plan.limits,
        deliveries: ran.deliveries.as_slice(),
        traces: ran.traces.as_slice(),
    };
    write_run(alloc, form, &did, out)
}

/// Runs a group by the host that was asked for.
fn run_by<R, V>(
    rt: R,
    alloc: Global,
    host: Host,
    plan: &Plan,
    members: Vec<Member>,
    watch: &mut V,
) -> Result<RunReport, RunError>
where
    R: Machine,
    V: Watch + Drop,
{
    match host {
        Host::Threads => loopback::run(rt, alloc, plan, members, watch),
        Host::Loop => loop_group::run_recorded(rt, alloc, plan, members, watch),
    }
}

/// The members of a group with these nodes.
fn members(alloc: Global, nodes: Vec<GroupNode>) -> Result<Vec<Member>, AllocError> {
    let mut members = Vec::with_capacity(alloc, nodes.len())?;
    for node in nodes {
        members.push(Member {
            me: node.me,
            port: node.port,
            peers: node.peers,
            contact: node.contact,
            texts: node.texts,
        })?;
    }
    Ok(members)
}

/// What the nodes of a group did.
#[derive(Clone, Copy)]
struct Did<'a> {
    limits: Limits,
    deliveries: &'a [Delivery],
    traces: &'a [Trace<Frame>],
}

/// Writes what recorded nodes delivered, whether their records are those of one run, and what that run is.
pub fn write_records<W: Write>(
    alloc: Global,
    form: Form,
    group: &RecordedGroup,
    out: &mut W,
) -> Result<(), GroupError> {
    let did = Did {
        limits: group.limits,
        deliveries: group.deliveries.as_slice(),
        traces: group.traces.as_slice(),
    };
    write_run(alloc, form, &did, out)
}

/// Writes what a group delivered, and its histories as one run.
fn write_run<W: Write>(
    alloc: Global,
    form: Form,
    did: &Did<'_>,
    out: &mut W,
) -> Result<(), GroupError> {
    match form {
        Form::Lines => write_as_lines(alloc, did, out),
        Form::Graph(only) => {
            let group = merged_group(alloc, did)?;
            draw_group(alloc, &group, &only, out)
        }
        Form::Trace => {
            let group = merged_group(alloc, did)?;
            Ok(write_trace(alloc, &group, &[], &Stop::none(), out)?)
        }
    }
}

/// Writes what a group delivered, and only then merges its histories, which may take long, and writes their run.
fn write_as_lines<W: Write>(alloc: Global, did: &Did<'_>, out: &mut W) -> Result<(), GroupError> {
    let mut text = String::with_capacity(alloc, LINE_ROOM)?;
    write_deliveries(alloc, &mut text, did.deliveries, out)?;
    let merged = merge(alloc, did.limits, did.traces);
    if !did.traces.is_empty() {
        write_verdict(&mut text, merged.as_ref().err(), out)?;
    }
    let group = group_of(alloc, did.limits, merged)?;
    write_group(alloc, &mut text, &group, out)
}

/// References to deliveries, in their order.
pub(crate) fn references(
    alloc: Global,
    deliveries: &[Delivery],
) -> Result<Vec<&Delivery>, AllocError> {
    let mut references = Vec::new(alloc);
    for delivery in deliveries {
        references.push(delivery)?;
    }
    Ok(references)
}

/// Writes the lines of deliveries.
fn write_deliveries<W: Write>(
    alloc: Global,
    text: &mut String,
    deliveries: &[Delivery],
    out: &mut W,
) -> Result<(), OutputError> {
    let mut sorted = references(alloc, deliveries)?;
    sort(&mut sorted)?;
    write_lines(text, sorted.as_slice(), out)
}

/// Writes whether histories are those of one run, which they are unless there is a fault.
pub(crate) fn write_verdict<W: Write>(
    text: &mut String,
    fault: Option<&MergeFault>,
    out: &mut W,
) -> Result<(), OutputError> {
    text.clear();
    match fault {
        None => text.push_str("merge ok\n")?,
        Some(MergeFault::OutOfMemory) => return Err(OutputError::OutOfMemory),
        Some(fault) => write!(text, "merge {fault}\n")?,
    }
    out.write_all(text.as_bytes())?;
    Ok(out.flush()?)
}

/// The group at the end of the run into which the histories are merged.
fn merged_group(alloc: Global, did: &Did<'_>) -> Result<World<PlumCore>, GroupError> {
    group_of(alloc, did.limits, merge(alloc, did.limits, did.traces))
}

/// The group at the end of the merged run.
fn group_of(
    alloc: Global,
    limits: Limits,
    merged: Result<Vec<Event>, MergeFault>,
) -> Result<World<PlumCore>, GroupError> {
    let events = match merged {
        Ok(events) => events,
        Err(MergeFault::OutOfMemory) => return Err(GroupError::OutOfMemory),
        Err(fault) => return Err(GroupError::Unmerged(fault)),
    };
    let mut group = World::new(alloc, limits);
    match play_all(&mut group, events.as_slice()) {
        Ok(()) => Ok(group),
        Err(_) => Err(GroupError::OutOfMemory),
    }
}

/// Has a group take events. It takes all that `merge` returned, unless an allocation is refused.
fn play_all(group: &mut World<PlumCore>, events: &[Event]) -> Result<(), WorldError> {
    for event in events {
        group.play(event)?;
    }
    Ok(())
}

/// Writes the tree of each message.
fn write_group<W: Write>(
    alloc: Global,
    text: &mut String,
    group: &World<PlumCore>,
    out: &mut W,
) -> Result<(), GroupError> {
    let given = deliveries(alloc, group.log())?;
    let messages = broadcasts(alloc, given.as_slice())?;
    Ok(write_trees(alloc, text, group, messages.as_slice(), out)?)
}

/// Draws the group, with the tree of each message or of only one.
fn draw_group<W: Write>(
    alloc: Global,
    group: &World<PlumCore>,
    only: &Option<MsgId>,
    out: &mut W,
) -> Result<(), GroupError> {
    let given = deliveries(alloc, group.log())?;
    let messages = broadcasts(alloc, given.as_slice())?;
    let shown = shown(alloc, messages.as_slice(), only)?;
    Ok(write_graph(alloc, group, shown.as_slice(), out)?)
}
