//! The runs of a group.
ghost use Rattle.std.specs.Prelude.{◌≡◌, [], ◌∷◌, ◌++◌, IfErr, IfOk, IfSome, OnErr, OnOk, slice_get};
ghost use Rattle.protocol.specs.Trace.{delivered};
ghost use Rattle.trace_merge.specs.Merging.{IsMerged, Refuses};
ghost use Rattle.record_merge.specs.Groups.{IsRefused};

use crate::error::GroupError;
use crate::replayed::Replayed;
use frames::Frame;
use node_names::{Limits, NodeName, Origin};
use protocol::{Delivery, Trace};
use std::alloc::{AllocError, Global};
use trace_merge::{MergeFault, merge};
use world::Event;

/// The runs of the nodes of one cluster, all of the same limits.
#[derive(Drop)]
pub struct RecordedGroup {
    /// The limits of all nodes.
    pub limits: Limits,
    /// What each run did, in the order in which the runs were added.
    pub traces: Vec<Trace<Frame>>,
    /// What the runs delivered: that of each run in the order in which it delivered.
    pub deliveries: Vec<Delivery>,
    /// The label of the cluster.
    pub label: NodeName,
    /// The run that was added first.
    pub first: Origin,
}

/// Appends what the step at this place delivered, if there is one. If memory runs out, some of it may be appended.
fn add_step(
    deliveries: &mut Vec<Delivery>,
    trace: &Trace<Frame>,
    place: usize,
) -> Result<(), AllocError>
    ensures { IfSome (slice_get trace.now.steps place)
        (λ step. OnOk result (deliveries.new.items ≡ deliveries.old.items ++ step.out.deliveries)) }
{
    match trace.step(place) {
        Some(step) => add_each(deliveries, step.out.deliveries.as_slice()),
        None => Ok(()),
    }
}

/// Appends what a run delivered. If memory runs out, some of it may be appended.
fn add_deliveries(deliveries: &mut Vec<Delivery>, trace: &Trace<Frame>) -> Result<(), AllocError>
    ensures { OnOk result (deliveries.new.items ≡ deliveries.old.items ++ delivered trace.now.steps) }
{
    for place in 0..trace.len() {
        add_step(deliveries, trace, place)?;
    }
    Ok(())
}

/// Appends copies of deliveries. If memory runs out, some of them may be appended.
fn add_each(deliveries: &mut Vec<Delivery>, given: &[Delivery]) -> Result<(), AllocError>
    ensures { OnOk result (deliveries.new.items ≡ deliveries.old.items ++ given.now) }
{
    for delivery in given {
        deliveries.push(delivery.copy()?)?;
    }
    Ok(())
}

impl RecordedGroup {
    /// Creates a group of one run.
    pub fn new(alloc: Global, run: Replayed) -> Result<RecordedGroup, AllocError>
        ensures limits { IfOk result (λ group. group.limits ≡ run.head.limits) }
        ensures traces { IfOk result (λ group. group.traces.items ≡ run.trace ∷ []) }
        ensures deliveries { IfOk result (λ group. group.deliveries.items ≡ delivered run.trace.steps) }
        ensures label { IfOk result (λ group. group.label ≡ run.head.label) }
        ensures first { IfOk result (λ group. group.first ≡ run.head.origin) }
    {
        let Replayed { head, trace, .. } = run;
        let mut group = RecordedGroup {
            limits: head.limits,
            traces: Vec::new(alloc),
            deliveries: Vec::new(alloc),
            label: head.label,
            first: head.origin,
        };
        group.put(trace)?;
        Ok(group)
    }

    /// Adds a run of the same cluster that has the same limits. If memory runs out, some of its deliveries may be
    /// added; if it is refused otherwise, nothing changes.
    pub fn add(&mut self, run: Replayed) -> Result<(), GroupError>
        ensures limits { self.new.limits ≡ self.old.limits }
        ensures label { self.new.label ≡ self.old.label }
        ensures first { self.new.first ≡ self.old.first }
        ensures fits { OnOk result ((run.head.label ≡ self.old.label) × (run.head.limits ≡ self.old.limits)) }
        ensures deliveries { OnOk result
            (self.new.deliveries.items ≡ self.old.deliveries.items ++ delivered run.trace.steps) }
        ensures refused { IfErr result (IsRefused self.old.label self.old.limits self.old.first run.head) }
        ensures ok { OnOk result (self.new.traces.items ≡ self.old.traces.items ++ run.trace ∷ []) }
        ensures err { OnErr result (self.new.traces.items ≡ self.old.traces.items) }
    {
        let Replayed { head, trace, .. } = run;
        let first = self.first;
        let other = head.origin;
        if head.label != self.label {
            return Err(GroupError::OtherCluster { first, other });
        }
        if head.limits != self.limits {
            return Err(GroupError::OtherLimits { first, other });
        }
        Ok(self.put(trace)?)
    }

    /// Appends a trace, and what it delivers.
    fn put(&mut self, trace: Trace<Frame>) -> Result<(), AllocError>
        ensures limits { self.new.limits ≡ self.old.limits }
        ensures label { self.new.label ≡ self.old.label }
        ensures first { self.new.first ≡ self.old.first }
        ensures deliveries { OnOk result
            (self.new.deliveries.items ≡ self.old.deliveries.items ++ delivered trace.steps) }
        ensures ok { OnOk result (self.new.traces.items ≡ self.old.traces.items ++ trace ∷ []) }
        ensures err { OnErr result (self.new.traces.items ≡ self.old.traces.items) }
    {
        add_deliveries(&mut self.deliveries, &trace)?;
        self.traces.push(trace)?;
        Ok(())
    }

    /// The events of one run of a group that has these runs.
    pub fn merge(&self, alloc: Global) -> Result<Vec<Event>, MergeFault>
        ensures merged { IfOk result (λ events. IsMerged self.now.limits self.now.traces.items events.items) }
        ensures refused { IfErr result (Refuses self.now.limits self.now.traces.items) }
    {
        merge(alloc, self.limits, self.traces.as_slice())
    }
}
