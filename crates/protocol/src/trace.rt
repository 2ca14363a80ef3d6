//! The history of one run of a node.
ghost use Rattle.std.specs.Prelude.{◌≡◌, ◌≤◌, [], ◌∷◌, ◌++◌, ◌↔◌, length, drop};
ghost use Rattle.std.specs.Prelude.{take, IfOk, IsTrue, OnOk, OnErr, option_copied};
ghost use Rattle.std.specs.List.{slice_get};
ghost use Rattle.std.specs.Arc.{arc_value};
ghost use Rattle.protocol.specs.Segments.{Ends};

use crate::out::Out;
use crate::segment::Segment;
use crate::step_list::StepList;
use crate::stimulus::Stimulus;
use node_names::{Listed, NodeName, Origin};
use std::alloc::{AllocError, Allocator, Global};
use std::marker::Model;
use std::sync::Arc;

/// A step of a core: its stimulus, and what it sent and delivered.
#[derive(Drop)]
pub struct Step<N: Drop, A: Allocator = Global> {
    /// The stimulus that the core took.
    pub stimulus: Stimulus<N, A>,
    /// The packets that it sent, and the messages that it delivered.
    pub out: Out<N, A>,
}

impl<N: Drop, A: Allocator> Model for Step<N, A> {
    ghost use Rattle.std.specs.Prelude.{refl};
    ghost use Rattle.protocol.specs.Trace.{Step};

    ghost Value = { Step N };

    ghost view = { λ s. record { stimulus = s.stimulus; out = s.out } };

    ghost inverse = { λ s. record { stimulus = s.stimulus; out = s.out } };

    ghost inverse_ok = { λ s held. refl };
}

/// The history of one run of a node: how it started, and every step since.
///
/// Contracts see a single list of steps, regardless of which of them were handed out in segments.
#[derive(Drop)]
pub struct Trace<N: Drop, A: Allocator = Global> {
    origin: Origin,
    peers: Listed<NodeName, A>,
    contact: Option<NodeName>,
    opening: Out<N, A>,
    steps: StepList<N, A>,
}

impl<N: Drop, A: Allocator> Model for Trace<N, A> {
    ghost use Rattle.protocol.specs.Trace.{Trace};

    ghost Value = { Trace N };

    ghost view = { λ t.
        record { origin = t.origin; peers = t.peers; contact = t.contact; opening = t.opening; steps = t.steps } };
}

impl<N: Drop, A: Allocator + Copy> Trace<N, A> {
    /// Creates the history of a run that started with these peers and this contact, whose start gave `opening`, and
    /// that has made no step.
    pub fn new(
        alloc: A,
        origin: Origin,
        peers: Listed<NodeName, A>,
        contact: Option<NodeName>,
        opening: Out<N, A>,
    ) -> Self
        ensures { result ≡ record { origin = origin; peers = peers; contact = contact; opening = opening; steps = [] } }
    {
        Trace {
            origin,
            peers,
            contact,
            opening,
            steps: StepList::new(alloc),
        }
    }

    /// Returns the steps since the last segment as a new segment, which the trace shares from now on. No step is
    /// copied. If there are no such steps, the segment is empty. If an allocation is refused, the trace is unchanged.
    pub fn seal(&mut self) -> Result<Arc<Segment<N, A>, A>, AllocError>
        ensures same { self.new ≡ self.old }
        ensures ends { IfOk result (λ segment. Ends self.old.steps (arc_value segment)) }
    {
        self.steps.seal()
    }

    /// Drops the steps that were handed out in segments, which are the first ones, and returns how many there were.
    /// Places count from the first step that is left, in later segments too.
    pub fn forget_sealed(&mut self) -> usize
        ensures within { result ≤ length self.old.steps }
        ensures rest { self.new ≡ record self.old { steps = drop result self.old.steps } }
    {
        self.steps.forget_parts()
    }
}

impl<N: Drop, A: Allocator> Trace<N, A> {
    /// Returns the name and incarnation of the node.
    pub fn origin(&self) -> Origin
        ensures { result ≡ self.now.origin }
    {
        self.origin
    }

    /// Returns the active view that it started with.
    pub fn peers(&self) -> &[NodeName]
        ensures { result.now ≡ self.now.peers }
    {
        self.peers.as_slice()
    }

    /// Returns the node through which it joined, if it joined through one.
    pub fn contact(&self) -> Option<NodeName>
        ensures { result ≡ self.now.contact }
    {
        self.contact
    }

    /// Returns the output of its start.
    pub fn opening(&self) -> &Out<N, A>
        ensures { result.now ≡ self.now.opening }
    {
        &self.opening
    }

    /// Returns the number of its steps.
    pub fn len(&self) -> usize
        ensures { result ≡ length self.now.steps }
    {
        self.steps.len()
    }

    /// Returns whether it has made no step.
    pub fn is_empty(&self) -> bool
        ensures { IsTrue result ↔ (self.now.steps ≡ []) }
    {
        self.steps.len() == 0
    }

    /// Returns the step at `place`, counted from 0.
    pub fn step(&self, place: usize) -> Option<&Step<N, A>>
        ensures { option_copied result ≡ slice_get self.now.steps place }
    {
        self.steps.get(place)
    }

    /// Records a step. If an allocation is refused, or the trace has `usize::MAX` steps already, the step is dropped.
    pub fn push(&mut self, step: Step<N, A>) -> Result<(), AllocError>
        ensures ok { OnOk result (self.new ≡ record self.old { steps = self.old.steps ++ step ∷ [] }) }
        ensures err { OnErr result (self.new ≡ self.old) }
    {
        self.steps.push(step)
    }

    /// Drops all steps but the first `len`. This takes back a step that was recorded in advance and then could not be
    /// made.
    pub fn truncate(&mut self, len: usize)
        ensures { self.new ≡ record self.old { steps = take len self.old.steps } }
    {
        self.steps.truncate(len);
    }
}
