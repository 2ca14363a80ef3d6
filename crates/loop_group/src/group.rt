//! A group that runs.
use crate::fault::running;
use crate::group_node::GroupNode;
use crate::group_program::GroupProgram;
use crate::places::Places;
use crate::seat::Seat;
use crate::starting::{add_nodes, seats_of};
use event_loop::{EventLoop, LoopError};
use loopback::{Member, Plan, RunError, RunReport, TICK, Watch, quiet_ticks};
use node_names::NodeName;
use std::alloc::{AllocError, Global};
use std::net::Net;
use std::sync::Wait;
use std::time::{Clock, Duration, Instant};

/// Makes a loop without nodes.
fn new_loop<R: Net, N: GroupNode>(
    rt: &R,
    alloc: Global,
    seed: u64,
    members: &[Member],
) -> Result<EventLoop<N, Places>, LoopError> {
    let places = Places::new(alloc, members)?;
    EventLoop::new(rt, alloc, places, seed)
}

/// Runs the nodes of the loop until the ticks are over and all is broadcast, or the watch ends the run. Returns what
/// they broadcast and delivered.
fn run_nodes<R, N, V>(
    rt: R,
    first: NodeName,
    plan: &Plan,
    group: &mut EventLoop<N, Places>,
    seats: Vec<Seat>,
    watch: &mut V,
) -> Result<Vec<Seat>, RunError>
where
    R: Wait + Clock + Net + Copy + Drop,
    N: GroupNode,
    V: Watch + Drop,
{
    let mut program = GroupProgram {
        rt,
        seats,
        watch,
        quiet: quiet_ticks(plan.ticks),
        ticks: plan.ticks,
        looked: 0,
        round: 0,
        most: Some(0),
        delivered: 0,
        fault: None,
    };
    if let Err(error) = group.run(&rt, Duration::from_millis(TICK), &mut program) {
        return Err(running(first, &error));
    }
    let GroupProgram { seats, fault, .. } = program;
    match fault {
        Some(fault) => Err(fault),
        None => Ok(seats),
    }
}

/// Why the first of the nodes that refused a broadcast did so, if one did.
fn first_refusal(seats: &[Seat]) -> Option<RunError> {
    seats.iter().find_map(|seat| seat.speech.refused())
}

/// Adds what the nodes leave, in order.
fn leave_all<N: GroupNode>(
    nodes: Vec<N>,
    seats: Vec<Seat>,
    ran: &mut RunReport,
) -> Result<(), AllocError> {
    for (node, seat) in nodes.into_iter().zip(seats) {
        leave(node, seat, ran)?;
    }
    Ok(())
}

/// Adds what a node leaves.
fn leave<N: GroupNode>(node: N, seat: Seat, ran: &mut RunReport) -> Result<(), AllocError> {
    let Seat {
        me,
        peers,
        contact,
        speech,
        given,
        ..
    } = seat;
    match node.into_history(me, peers, contact)? {
        Some(trace) => ran.add(trace, speech, given),
        None => ran.add_said(speech, given),
    }
}

/// Returns what the nodes leave, or the first fault of a broadcast.
fn report<N: GroupNode>(
    alloc: Global,
    nodes: Vec<N>,
    seats: Vec<Seat>,
) -> Result<RunReport, RunError> {
    if let Some(fault) = first_refusal(seats.as_slice()) {
        return Err(fault);
    }
    let mut ran = RunReport::new(alloc);
    leave_all(nodes, seats, &mut ran)?;
    Ok(ran)
}

/// Runs a group of nodes on this thread, by one event loop, over connections on localhost.
///
/// It listens on the ports and starts the nodes, in the order of the members. After a tenth of the ticks, but ten ticks
/// at most, each node broadcasts its texts, in order: by then nodes that have a contact have joined. When the ticks are
/// over and all is broadcast, or the watch ends the run, the nodes are ended, and their connections with them.
///
/// The report has the histories as the nodes recorded them. `trace_merge::merge` checks each step of them.
///
/// `CannotListen`, `SamePort` and `BadPeers` come before any node runs. `Short` may come at any time, and ends the run.
/// Otherwise the nodes run to the end, and the error is that of the first node that refused a broadcast. The names of
/// the members should be distinct: otherwise frames go to the last member of a name. If the clock can't be read, the
/// times in the report are 0.
pub fn run<N, R, V>(
    rt: R,
    alloc: Global,
    plan: &Plan,
    members: Vec<Member>,
    watch: &mut V,
) -> Result<RunReport, RunError>
where
    N: GroupNode,
    R: Wait + Clock + Net + Copy + Drop,
    V: Watch + Drop,
{
    let start = Instant::now(&rt).ok();
    let Some(member) = members.first() else {
        return Ok(RunReport::new(alloc));
    };
    let first = member.me.name;
    let mut group: EventLoop<N, Places> = match new_loop(
        &rt,
        alloc,
        plan.seed,
        members.as_slice(),
    ) {
        Ok(group) => group,
        Err(error) => return Err(running(first, &error)),
    };
    add_nodes(&rt, alloc, plan.limits, &mut group, members.as_slice())?;
    let seats = seats_of(alloc, start, members)?;
    let seats = run_nodes(rt, first, plan, &mut group, seats, watch)?;
    report(alloc, group.into_nodes()?, seats)
}
