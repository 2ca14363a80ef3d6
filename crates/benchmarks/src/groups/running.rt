//! Runs a group at free ports.
use crate::groups::overlay::{Group, Host, members};
use anyhow::{Result, bail};
use loop_group::run_unrecorded;
use loopback::{Machine, Member, Plan, RunError, RunReport, Watch, run};
use node_names::Limits;
use std::alloc::Global;

/// The first port that is tried.
const FIRST_PORT: u16 = 20_000;

/// The distance between the first ports of two attempts: more than a group has nodes.
const APART: u16 = 100;

/// How many times a run is tried.
const ATTEMPTS: u16 = 100;

/// Runs the members by the host of the group.
fn run_by<R, V>(
    rt: R,
    alloc: Global,
    host: Host,
    plan: &Plan,
    members: Vec<Member>,
    watch: &mut V,
) -> Result<RunReport, RunError>
where
    R: Machine,
    V: Watch + Drop,
{
    match host {
        Host::Threads => run(rt, alloc, plan, members, watch),
        Host::Loop => run_unrecorded(rt, alloc, plan, members, watch),
    }
}

/// Runs a group with ports from this one on. Returns `None` if one of them is taken.
fn run_at<R, V>(
    rt: R,
    alloc: Global,
    group: &Group,
    first_port: u16,
    watch: &mut V,
) -> Result<Option<RunReport>>
where
    R: Machine,
    V: Watch + Drop,
{
    let plan = Plan {
        limits: Limits::STANDARD.keeping(group.keep),
        seed: 1,
        ticks: group.ticks,
    };
    let members = members(alloc, group, first_port)?;
    match run_by(rt, alloc, group.host, &plan, members, watch) {
        Ok(ran) => Ok(Some(ran)),
        Err(RunError::CannotListen { .. }) => Ok(None),
        Err(fault) => Err(fault.into()),
    }
}

/// Runs a group at the first ports that are free.
pub(crate) fn run_somewhere<R, V>(
    rt: R,
    alloc: Global,
    group: &Group,
    watch: &mut V,
) -> Result<RunReport>
where
    R: Machine,
    V: Watch + Drop,
{
    for attempt in 0..ATTEMPTS {
        let first_port = FIRST_PORT.saturating_add(APART.saturating_mul(attempt));
        if let Some(ran) = run_at(rt, alloc, group, first_port, watch)? {
            return Ok(ran);
        }
    }
    bail!("no ports are free")
}
