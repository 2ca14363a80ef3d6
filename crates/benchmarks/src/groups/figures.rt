//! What is measured of a run.
use anyhow::Result;
use loopback::{RunReport, Stamp};
use node_names::MsgId;
use protocol::Delivery;
use std::alloc::{AllocError, Global};
use std::time::Duration;

/// What is measured of a run. Its first message makes the tree and is not counted. Times are in microseconds.
#[derive(Clone, Copy)]
pub(crate) struct Figures {
    pub(crate) broadcasts: usize,
    pub(crate) deliveries: usize,
    /// From the first broadcast to the last delivery.
    pub(crate) micros: u64,
    /// The median time from a message's broadcast to a delivery of it. Deliveries at the origin count too.
    pub(crate) each: u64,
    /// The 99th percentile of these times.
    pub(crate) late: u64,
    /// The median time from a message's broadcast to its last delivery.
    pub(crate) last: u64,
    /// The longest time from a message's broadcast to a delivery of it.
    pub(crate) greatest: u64,
}

/// How long messages took, in microseconds.
#[derive(Drop)]
struct Latencies {
    /// To each node that delivered a message.
    each: Vec<u64>,
    /// To the last node, for each message, in order.
    last: Vec<u64>,
}

/// A time in microseconds.
fn micros_of(time: Duration) -> u64 {
    u64::try_from(time.as_micros()).unwrap_or(u64::MAX)
}

/// The place of a message among those that are counted. All are from one node, which numbers them from 1 in order, and
/// the first is not counted.
fn place_of(id: &MsgId) -> Option<usize> {
    usize::try_from(id.seq.checked_sub(2)?).ok()
}

/// When a message was broadcast, in microseconds.
fn start_of(broadcasts: &[Stamp], id: &MsgId, place: usize) -> Option<u64> {
    let stamp = broadcasts.get(place)?;
    if stamp.id == *id {
        Some(micros_of(stamp.at))
    } else {
        None
    }
}

/// The stamps of the messages that are counted.
fn counted(ran: &RunReport) -> &[Stamp] {
    match ran.broadcasts.as_slice() {
        [_, counted @ ..] => counted,
        _ => &[],
    }
}

impl Latencies {
    /// Starts with no time for each message.
    fn new(alloc: Global, messages: usize) -> Result<Latencies, AllocError> {
        Ok(Latencies {
            each: Vec::new(alloc),
            last: vec![in alloc; 0; messages]?,
        })
    }

    /// Adds a delivery at this time.
    fn add(&mut self, broadcasts: &[Stamp], id: &MsgId, time: Duration) -> Result<(), AllocError> {
        let Some(place) = place_of(id) else {
            return Ok(());
        };
        let Some(start) = start_of(broadcasts, id, place) else {
            return Ok(());
        };
        let latency = micros_of(time).saturating_sub(start);
        if let Some(last) = self.last.get_mut(place) {
            *last = latency.max(*last);
        }
        Ok(self.each.push(latency)?)
    }

    /// Sorts the times, the shortest first.
    fn sort(&mut self) -> Result<(), AllocError> {
        self.each.sort()?;
        self.last.sort()
    }
}

/// How long each message took to each node and to the last one, the shortest times first.
fn take_latencies(alloc: Global, ran: &RunReport) -> Result<Latencies, AllocError> {
    let broadcasts = counted(ran);
    let mut latencies = Latencies::new(alloc, broadcasts.len())?;
    for (delivery, time) in ran.deliveries.as_slice().iter().zip(ran.times.as_slice()) {
        latencies.add(broadcasts, &delivery.id, *time)?;
    }
    latencies.sort()?;
    Ok(latencies)
}

/// How long it took from the first broadcast to the last delivery.
fn span(broadcasts: &[Stamp], times: &[Duration]) -> u64 {
    let start = match broadcasts.first() {
        Some(stamp) => micros_of(stamp.at),
        None => return 0,
    };
    let mut end = start;
    for time in times {
        end = end.max(micros_of(*time));
    }
    end.saturating_sub(start)
}

/// The `percent`th percentile of an ascending list, or 0 if the list is empty.
fn percentile(sorted: &[u64], percent: usize) -> u64 {
    let place = sorted.len().saturating_mul(percent) / 100;
    match sorted.get(place.min(sorted.len().saturating_sub(1))) {
        Some(value) => *value,
        None => 0,
    }
}

/// What is measured of a run.
pub(crate) fn measured(alloc: Global, ran: &RunReport) -> Result<Figures> {
    let latencies = take_latencies(alloc, ran)?;
    let broadcasts = counted(ran);
    Ok(Figures {
        broadcasts: broadcasts.len(),
        deliveries: latencies.each.len(),
        micros: span(broadcasts, ran.times.as_slice()),
        each: percentile(latencies.each.as_slice(), 50),
        late: percentile(latencies.each.as_slice(), 99),
        last: percentile(latencies.last.as_slice(), 50),
        greatest: percentile(latencies.last.as_slice(), 100),
    })
}

/// How many deliveries are of a message that the node had already delivered.
pub(crate) fn repeated(deliveries: &[Delivery]) -> usize {
    let mut count: usize = 0;
    for (place, delivery) in deliveries.iter().enumerate() {
        let mut earlier = deliveries.iter().take(place);
        if earlier.any(|other| other.node == delivery.node && other.id == delivery.id) {
            count = count.saturating_add(1);
        }
    }
    count
}
