//! The parts of a trace that no longer change.
ghost use Rattle.std.specs.Prelude.{◌≡◌, ◌+◌, ◌-◌, ◌≤◌, ◌<◌, length, take, option_copied};
ghost use Rattle.std.specs.List.{slice_get};
ghost use Rattle.std.specs.Arc.{arc_value};

use crate::trace::Step;
use node_names::Listed;
use std::alloc::{Allocator, Global};
use std::marker::Model;
use std::sync::Arc;

/// A part of a trace whose steps no longer change. The trace shares it with everyone who was given it.
#[derive(Drop)]
pub struct Segment<N: Drop, A: Allocator = Global> {
    /// The place of the first of its steps, among those that the trace had when it was made.
    pub first: usize,
    /// The steps, in order.
    pub steps: Listed<Step<N, A>, A>,
}

impl<N: Drop, A: Allocator> Model for Segment<N, A> {
    ghost use Rattle.std.specs.Prelude.{refl};
    ghost use Rattle.protocol.specs.Segments.{Segment};

    ghost Value = { Segment N };

    ghost view = { λ s. record { first = s.first; steps = s.steps } };

    ghost inverse = { λ s. record { first = s.first; steps = s.steps } };

    ghost inverse_ok = { λ s held. refl };
}

/// The first steps of a segment: those that the trace still has.
#[derive(Drop)]
pub(crate) struct Part<N: Drop, A: Allocator> {
    segment: Arc<Segment<N, A>, A>,
    /// The number of its steps that the trace still has.
    len: usize,
}

impl<N: Drop, A: Allocator> Model for Part<N, A> {
    ghost use Rattle.std.specs.Prelude.{◌≤◌, length, take};
    ghost use Rattle.std.specs.Arc.{arc_value};
    ghost use Rattle.protocol.specs.Segments.{Segment};

    ghost Value = { Segment N };

    ghost view = { λ p. record {
      first = (arc_value p.segment).first;
      steps = take p.len (arc_value p.segment).steps;
    } };

    ghost invariant = { λ p. p.len ≤ length (arc_value p.segment).steps };
}

impl<N: Drop, A: Allocator> Part<N, A> {
    /// Creates the part that has all steps of a segment.
    pub(crate) fn new(segment: Arc<Segment<N, A>, A>) -> Part<N, A>
        ensures { result ≡ arc_value segment }
    {
        let len = segment.steps.len();
        Part { segment, len }
    }

    /// Returns the place in the trace of the first of its steps.
    pub(crate) fn first(&self) -> usize
        ensures { result ≡ self.now.first }
    {
        self.segment.first
    }

    /// Returns the number of its steps.
    pub(crate) fn len(&self) -> usize
        ensures { result ≡ length self.now.steps }
    {
        self.len
    }

    /// Returns the step at `place` in this part, counted from 0.
    pub(crate) fn get(&self, place: usize) -> Option<&Step<N, A>>
        ensures { option_copied result ≡ slice_get self.now.steps place }
    {
        if place < self.len {
            self.segment.steps.as_slice().get(place)
        } else {
            None
        }
    }

    /// Drops all steps but the first `len`.
    pub(crate) fn truncate(&mut self, len: usize)
        ensures { self.new ≡ record self.old { steps = take len self.old.steps } }
    {
        self.len = self.len.min(len);
    }
}
