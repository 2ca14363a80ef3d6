//! A group of nodes that runs over TCP connections on localhost: how many messages a small one delivers, and how fast
//! messages are delivered and at what cost, once an earlier message has made the tree.
mod figures;
mod overlay;
mod phase;
mod running;
mod usage;

use crate::groups::figures::{Figures, measured, repeated};
pub(crate) use crate::groups::overlay::{Group, Host};
use crate::groups::phase::Phase;
use crate::groups::running::run_somewhere;
use crate::groups::usage::Usage;
use anyhow::{Result, bail};
use loopback::{Machine, RunReport, Unwatched};
use std::alloc::Global;
use std::io::Print;
use std::rt::Files;

/// The group that runs when nothing is measured.
const SMALL: Group = Group {
    host: Host::Threads,
    nodes: 4,
    messages: 3,
    bytes: 100,
    ticks: 100,
    keep: 0,
    pace: 0,
};

/// Prints how many messages were delivered, and how many of these were repeated.
fn tell_ran(rt: &impl Print, ran: &RunReport) -> Result<()> {
    let count = ran.deliveries.len();
    let again = repeated(ran.deliveries.as_slice());
    println!(rt; "{count} deliveries, {again} of them again")?;
    Ok(())
}

/// Prints on one line how fast messages were delivered, and what the process used for it.
fn tell_figures(rt: &impl Print, group: &Group, figures: &Figures, used: &Usage) -> Result<()> {
    let Figures {
        deliveries,
        micros,
        each,
        late,
        last,
        greatest,
        ..
    } = *figures;
    let Usage {
        processor,
        memory,
        peak,
        threads,
    } = *used;
    let wanted = group.nodes.saturating_mul(figures.broadcasts);
    let rate = (figures.broadcasts as u64).saturating_mul(1_000_000) / micros.max(1);
    print!(rt; "broadcasts/s={rate} deliveries={deliveries} wanted={wanted} span-us={micros} ")?;
    print!(rt; "each-us={each} each-99-us={late} last-us={last} greatest-us={greatest} ")?;
    print!(rt; "processor-ms={processor} memory-KiB={memory} peak-KiB={peak} ")?;
    println!(rt; "threads={threads}")?;
    Ok(())
}

/// Prints how many messages a small group delivers, in threads and by an event loop.
pub(crate) fn tell<R: Print + Machine>(rt: R, alloc: Global) -> Result<()> {
    for host in [Host::Threads, Host::Loop] {
        let group = Group { host, ..SMALL };
        tell_ran(&rt, &run_somewhere(rt, alloc, &group, &mut Unwatched)?)?;
    }
    Ok(())
}

/// Prints how fast the messages of this group are delivered, except for the first, which is delivered before, and at
/// what cost.
pub(crate) fn measure<R>(rt: R, alloc: Global, group: &Group) -> Result<()>
where
    R: AllocGlobal + Print + Files + Machine,
{
    let mut phase = Phase::new(rt, group);
    let ran = run_somewhere(rt, alloc, group, &mut phase)?;
    match phase.used() {
        Some(used) => tell_figures(&rt, group, &measured(alloc, &ran)?, &used),
        None => bail!("{} deliveries came before the end", ran.deliveries.len()),
    }
}
