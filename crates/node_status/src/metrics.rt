//! A status as metrics.
use crate::status::{Neighbor, Status};
use std::alloc::AllocError;
use std::fmt;

/// Appends the status in the text format of Prometheus, version 0.0.4. After an error a part may have been appended.
pub fn write_metrics(status: &Status, out: &mut String) -> Result<(), AllocError> {
    write_info(status, out)?;
    write_uptime(status.counts.uptime_ms, out)?;
    for metric in counters(status) {
        write!(out, "{metric}")?;
    }
    write_gauges(status, out)?;
    write_memory(status.memory_bytes, out)?;
    write_waiting(&status.active, out)
}

/// Whether a metric only grows while the node runs.
#[derive(Clone, Copy)]
enum Kind {
    Gauge,
    Counter,
}

impl fmt::Display for Kind {
    fn fmt<W: fmt::Write>(&self, f: &mut fmt::Formatter<W>) -> fmt::Result {
        match self {
            Kind::Gauge => f.write_str("gauge"),
            Kind::Counter => f.write_str("counter"),
        }
    }
}

/// The two lines in front of the samples of a metric.
#[derive(Clone, Copy)]
struct Heading {
    kind: Kind,
    name: &'static str,
    help: &'static str,
}

impl fmt::Display for Heading {
    fn fmt<W: fmt::Write>(&self, f: &mut fmt::Formatter<W>) -> fmt::Result {
        let Heading { kind, name, help } = *self;
        write!(
            f,
            "# HELP plumtree_{name} {help}\n# TYPE plumtree_{name} {kind}\n"
        )
    }
}

/// A metric with one sample.
#[derive(Clone, Copy)]
struct Metric {
    heading: Heading,
    value: u64,
}

impl fmt::Display for Metric {
    fn fmt<W: fmt::Write>(&self, f: &mut fmt::Formatter<W>) -> fmt::Result {
        let Metric { heading, value } = self;
        write!(f, "{heading}plumtree_{} {value}\n", heading.name)
    }
}

fn gauge(name: &'static str, help: &'static str, value: usize) -> Metric {
    let kind = Kind::Gauge;
    Metric {
        heading: Heading { kind, name, help },
        value: value as u64,
    }
}

fn counter(name: &'static str, help: &'static str, value: u64) -> Metric {
    let kind = Kind::Counter;
    Metric {
        heading: Heading { kind, name, help },
        value,
    }
}

fn counters(status: &Status) -> [Metric; 4] {
    let counts = &status.counts;
    [
        counter(
            "broadcast_total",
            "Messages that were broadcast here.",
            counts.broadcast,
        ),
        counter(
            "delivered_total",
            "Messages that were delivered here.",
            counts.delivered,
        ),
        counter("steps_total", "Steps that the node made.", counts.steps),
        counter("ticks_total", "Ticks that the node made.", counts.ticks),
    ]
}

fn write_gauges(status: &Status, out: &mut String) -> Result<(), AllocError> {
    for metric in views(status) {
        write!(out, "{metric}")?;
    }
    for metric in stores(status) {
        write!(out, "{metric}")?;
    }
    Ok(())
}

/// The sizes of the views, and the numbers of links and connections.
fn views(status: &Status) -> [Metric; 6] {
    let eager = status
        .active
        .iter()
        .filter(|neighbor| neighbor.is_eager)
        .count();
    let lazy = status
        .active
        .iter()
        .filter(|neighbor| !neighbor.is_eager)
        .count();
    [
        gauge(
            "active_view",
            "Neighbours of the node.",
            status.active.len(),
        ),
        gauge(
            "passive_view",
            "Names that are known in case neighbours fail.",
            status.passive.len(),
        ),
        gauge(
            "eager_links",
            "Neighbours to whom messages are sent.",
            eager,
        ),
        gauge(
            "lazy_links",
            "Neighbours to whom messages are announced.",
            lazy,
        ),
        gauge(
            "connections",
            "Open connections that others made.",
            status.connections,
        ),
        gauge("links", "Links that the node dialled.", status.links),
    ]
}

/// What the node keeps of messages.
fn stores(status: &Status) -> [Metric; 3] {
    let kept = &status.kept;
    [
        gauge(
            "payloads_kept",
            "Payloads that are held for nodes that ask.",
            kept.payloads,
        ),
        gauge(
            "messages_wanted",
            "Announced messages that have not come.",
            kept.wanted,
        ),
        gauge(
            "announcements_queued",
            "Announcements that wait for lazy neighbours.",
            kept.announcements,
        ),
    ]
}

/// The bytes that wait, by neighbour. Names need no escapes.
fn write_waiting(active: &[Neighbor], out: &mut String) -> Result<(), AllocError> {
    let heading = Heading {
        kind: Kind::Gauge,
        name: "waiting_bytes",
        help: "Bytes that wait to be sent, by neighbour.",
    };
    write!(out, "{heading}")?;
    for neighbor in active {
        let Neighbor { name, waiting, .. } = neighbor;
        write!(out, "plumtree_waiting_bytes{{peer=\"{name}\"}} {waiting}\n")?;
    }
    Ok(())
}

/// The memory of the process, under the name that processes of all kinds use for it, if it is known.
fn write_memory(memory_bytes: Option<u64>, out: &mut String) -> Result<(), AllocError> {
    if let Some(bytes) = memory_bytes {
        out.push_str("# HELP process_resident_memory_bytes Resident memory of the process.\n")?;
        out.push_str("# TYPE process_resident_memory_bytes gauge\n")?;
        write!(out, "process_resident_memory_bytes {bytes}\n")?;
    }
    Ok(())
}

fn write_uptime(uptime_ms: u64, out: &mut String) -> Result<(), AllocError> {
    let heading = Heading {
        kind: Kind::Gauge,
        name: "uptime_seconds",
        help: "Seconds since the node started.",
    };
    let seconds = uptime_ms / 1_000;
    let milliseconds = uptime_ms % 1_000;
    write!(
        out,
        "{heading}plumtree_uptime_seconds {seconds}.{milliseconds:03}\n"
    )
}

fn write_info(status: &Status, out: &mut String) -> Result<(), AllocError> {
    let heading = Heading {
        kind: Kind::Gauge,
        name: "info",
        help: "The node, its run and its cluster.",
    };
    let Status {
        name,
        incarnation,
        cluster,
        ..
    } = status;
    write!(
        out,
        "{heading}plumtree_info{{name=\"{name}\",incarnation=\"{incarnation}\",cluster=\"{cluster}\"}} 1\n"
    )
}
