//! Compares what a closed node left with its trace.
ghost use Rattle.std.specs.Prelude.{◌≡◌, List, [], ◌∷◌, ◌++◌, None, IfOk, IfErr, OnOk};
ghost use Rattle.std.specs.Option.{option_to_list};
ghost use Rattle.node_threads.specs.Cell.{lost};
ghost use Rattle.node_threads.specs.Closing.{AreAlike, Matches, Mismatches, Tears};
ghost use Rattle.node_threads.specs.Leaving.{outlets_in, outlets_of};
ghost use Rattle.node_threads.specs.Outlet.{Outlet as Seen};
ghost use Rattle.node_threads.specs.Receipts.{AllAlike};
ghost use Rattle.node_threads.specs.Report.{AddsReports};

use crate::cell::NodeCell;
use crate::cell::outlet::Outlet;
use crate::cell::receipt::Call;
use crate::cell::receipts::first_unlike;
use crate::cell::report::LinkReport;
use crate::cores::NodeCore;
use crate::error::HostError;
use crate::host::worker::Outlets;
use frames::Frame;
use node_names::{Listed, NodeName};
use protocol::Trace;
use std::alloc::{AllocError, Allocator};

/// What is not as in the trace, or why this is not known.
#[derive(Clone, Copy)]
pub(crate) enum Mismatch {
    /// The receipts of the port at this place.
    Port(usize),
    /// What came out of a link to this name.
    Link(NodeName),
    /// An allocation is refused.
    OutOfMemory,
}

impl From<AllocError> for Mismatch {
    ghost use Rattle.std.specs.Prelude.{◌≡◌};
    ghost use Rattle.node_threads.specs.declared.host.comparing.Mismatch.TheVariants.{OutOfMemory};

    ghost from_gives = { λ _ e. e ≡ OutOfMemory };

    fn from(_error: AllocError) -> Mismatch {
        Mismatch::OutOfMemory
    }
}

/// Checks that the receipts of all ports are as in the trace.
fn compare_ports<A: Allocator + Copy>(
    alloc: A,
    trace: &Trace<Frame<A>, A>,
    ports: &[Listed<Call<A>, A>],
) -> Result<(), Mismatch>
    ensures ok { OnOk result (AllAlike trace.now.steps ports.now) }
    ensures err { (outlets : List Seen) → IfErr result (Mismatches None trace.now ports.now outlets) }
{
    match first_unlike(alloc, trace, ports)? {
        Some(port) => Err(Mismatch::Port(port)),
        None => Ok(()),
    }
}

/// Checks that the receipts of all ports are as in the trace, unless the node may forget: the steps may be gone then,
/// and its ports would have to keep every call. Each receipt was proved when it was made.
fn compare_calls<C: NodeCore<A> + Drop, A: Allocator + Copy>(
    alloc: A,
    cell: &NodeCell<C, A>,
    ports: &[Listed<Call<A>, A>],
) -> Result<(), Mismatch>
    ensures ok { OnOk result (AreAlike cell.now.since cell.now.trace.steps ports.now) }
    ensures err { (outlets : List Seen) → IfErr result (Mismatches cell.now.since cell.now.trace ports.now outlets) }
{
    match cell.since() {
        Some(_) => Ok(()),
        None => compare_ports(alloc, cell.trace(), ports),
    }
}

/// Appends a report.
fn add_report<A: Allocator>(
    links: &mut Vec<LinkReport, A>,
    report: LinkReport,
) -> Result<(), AllocError>
    ensures { OnOk result (links.new.items ≡ links.old.items ++ report ∷ []) }
{
    links.push(report)?;
    Ok(())
}

/// Appends the report of an outlet.
fn report_one<C: NodeCore<A> + Drop, A: Allocator + Copy>(
    cell: &NodeCell<C, A>,
    outlet: &Outlet<A>,
    links: &mut Vec<LinkReport, A>,
) -> Result<(), Mismatch>
    ensures ok { OnOk result
        (AddsReports (lost cell.now.since) cell.now.trace (outlet.now ∷ []) links.old.items links.new.items) }
    ensures err { IfErr result (Tears (lost cell.now.since) cell.now.trace (outlet.now ∷ [])) }
{
    match cell.report(outlet) {
        Ok(Some(report)) => Ok(add_report(links, report)?),
        Ok(None) => Err(Mismatch::Link(outlet.peer())),
        Err(_) => Err(Mismatch::OutOfMemory),
    }
}

/// Appends the reports of outlets.
fn report_each<C: NodeCore<A> + Drop, A: Allocator + Copy>(
    cell: &NodeCell<C, A>,
    outlets: &[Outlet<A>],
    links: &mut Vec<LinkReport, A>,
) -> Result<(), Mismatch>
    ensures ok { OnOk result
        (AddsReports (lost cell.now.since) cell.now.trace outlets.now links.old.items links.new.items) }
    ensures err { IfErr result (Tears (lost cell.now.since) cell.now.trace outlets.now) }
{
    for outlet in outlets {
        report_one(cell, outlet, links)?;
    }
    Ok(())
}

/// Appends the report of an outlet, if there is one.
fn report_last<C: NodeCore<A> + Drop, A: Allocator + Copy>(
    cell: &NodeCell<C, A>,
    outlet: &Option<Outlet<A>>,
    links: &mut Vec<LinkReport, A>,
) -> Result<(), Mismatch>
    ensures ok { OnOk result
        (AddsReports (lost cell.now.since) cell.now.trace (option_to_list outlet.now) links.old.items links.new.items) }
    ensures err { IfErr result (Tears (lost cell.now.since) cell.now.trace (option_to_list outlet.now)) }
{
    match outlet {
        Some(outlet) => report_one(cell, outlet, links),
        None => Ok(()),
    }
}

/// Appends the reports of a worker's outlets.
fn report_worker<C: NodeCore<A> + Drop, A: Allocator + Copy>(
    cell: &NodeCell<C, A>,
    outlets: &Outlets<A>,
    links: &mut Vec<LinkReport, A>,
) -> Result<(), Mismatch>
    ensures ok { OnOk result
        (AddsReports (lost cell.now.since) cell.now.trace (outlets_in outlets.now) links.old.items links.new.items) }
    ensures err { IfErr result (Tears (lost cell.now.since) cell.now.trace (outlets_in outlets.now)) }
{
    report_each(cell, outlets.spent.as_slice(), links)?;
    report_last(cell, &outlets.last, links)
}

/// The reports of all outlets that the workers had.
fn compare_links<C: NodeCore<A> + Drop, A: Allocator + Copy>(
    alloc: A,
    cell: &NodeCell<C, A>,
    workers: &[Outlets<A>],
) -> Result<Vec<LinkReport, A>, Mismatch>
    ensures ok { IfOk result
        (λ links. AddsReports (lost cell.now.since) cell.now.trace (outlets_of workers.now) [] links.items) }
    ensures err { IfErr result (Tears (lost cell.now.since) cell.now.trace (outlets_of workers.now)) }
{
    let mut links = Vec::new(alloc);
    for outlets in workers {
        report_worker(cell, outlets, &mut links)?;
    }
    Ok(links)
}

/// Compares the receipts of the ports and what came out of the links with the trace. Returns the links' reports.
pub(crate) fn compare<C: NodeCore<A> + Drop, A: Allocator + Copy>(
    alloc: A,
    cell: &NodeCell<C, A>,
    ports: &[Listed<Call<A>, A>],
    workers: &[Outlets<A>],
) -> Result<Vec<LinkReport, A>, Mismatch>
    ensures ok { IfOk result
        (λ links. Matches cell.now.since cell.now.trace ports.now (outlets_of workers.now) links.items) }
    ensures err { IfErr result (Mismatches cell.now.since cell.now.trace ports.now (outlets_of workers.now)) }
{
    compare_calls(alloc, cell, ports)?;
    compare_links(alloc, cell, workers)
}
