//! The steps of a trace.
ghost use Rattle.std.specs.Prelude.{◌≡◌, ◌<◌, ◌≤◌, ◌^◌, [], ◌∷◌, ◌++◌, length, drop, take};
ghost use Rattle.std.specs.Prelude.{option_copied, vec_len, vec_capacity, OnOk, OnErr, IfOk};
ghost use Rattle.std.specs.List.{slice_get};
ghost use Rattle.std.specs.Arc.{arc_value};
ghost use Rattle.protocol.specs.Segments.{Abut, BeginBefore, Ends, joined};

use crate::segment::{Part, Segment};
use crate::trace::Step;
use node_names::Listed;
use std::alloc::{AllocError, Allocator};
use std::marker::Model;
use std::mem;
use std::sync::Arc;

/// The steps of a trace: parts that no longer change, each of which begins where the one before it ends, and then a
/// tail.
#[derive(Drop)]
pub(crate) struct StepList<N: Drop, A: Allocator> {
    parts: Vec<Part<N, A>, A>,
    tail: Listed<Step<N, A>, A>,
}

impl<N: Drop, A: Allocator> Model for StepList<N, A> {
    ghost use Rattle.std.specs.Prelude.{List, ◌++◌, ◌<◌, ◌^◌, length};
    ghost use Rattle.protocol.specs.Segments.{Abut, joined};
    ghost use Rattle.protocol.specs.Trace.{Step};

    ghost Value = { List (Step N) };

    ghost view = { λ s. joined s.parts.items ++ s.tail };

    ghost invariant = { λ s. Abut 0 s.parts.items × (length (joined s.parts.items ++ s.tail) < 2 ^ 64) };
}

/// Returns the number of steps that the parts have.
fn end_of<N: Drop, A: Allocator>(parts: &[Part<N, A>]) -> usize
    requires abut { Abut 0 parts.now }
    requires bound { length (joined parts.now) < 2 ^ 64 }
    ensures { result ≡ length (joined parts.now) }
{
    match parts.last() {
        Some(part) => part.first() + part.len(),
        None => 0,
    }
}

/// Returns how many of the parts begin before `place`.
fn begun_before<N: Drop, A: Allocator>(parts: &[Part<N, A>], place: usize) -> usize
    requires { Abut 0 parts.now }
    ensures { BeginBefore place parts.now result }
{
    parts.partition_point(|part| part.first() < place)
}

/// Returns the step at `place`, which lies in one of the parts.
fn step_in<N: Drop, A: Allocator>(parts: &[Part<N, A>], place: usize) -> Option<&Step<N, A>>
    requires abut { Abut 0 parts.now }
    requires inside { place < length (joined parts.now) }
    requires bound { length (joined parts.now) < 2 ^ 64 }
    ensures { option_copied result ≡ slice_get (joined parts.now) place }
{
    let begun = begun_before(parts, place + 1);
    let part = &parts[begun - 1];
    part.get(place - part.first())
}

/// Drops all steps from `place` on.
fn cut<N: Drop, A: Allocator>(parts: &mut Vec<Part<N, A>, A>, place: usize)
    requires { Abut 0 parts.old.items }
    ensures abut { Abut 0 parts.new.items }
    ensures steps { joined parts.new.items ≡ take place (joined parts.old.items) }
{
    let begun = begun_before(parts, place);
    parts.truncate(begun);
    if let Some(last) = parts.last_mut() {
        last.truncate(place - last.first());
    }
}

/// Appends a segment that begins where the parts end, unless it is empty. The room is reserved.
fn add<N: Drop, A: Allocator>(parts: &mut Vec<Part<N, A>, A>, segment: Arc<Segment<N, A>, A>)
    requires abut { Abut 0 parts.old.items }
    requires first { (arc_value segment).first ≡ length (joined parts.old.items) }
    requires room { vec_len parts.old < vec_capacity parts.old }
    ensures abut { Abut 0 parts.new.items }
    ensures steps { joined parts.new.items ≡ joined parts.old.items ++ (arc_value segment).steps }
{
    if !segment.steps.is_empty() {
        parts.push(Part::new(segment)).unwrap();
    }
}

impl<N: Drop, A: Allocator> StepList<N, A> {
    /// Creates an empty list.
    pub(crate) fn new(alloc: A) -> Self
    where
        A: Copy,
        ensures { result ≡ [] }
    {
        StepList {
            parts: Vec::new(alloc),
            tail: Listed::new(alloc),
        }
    }

    /// Returns the number of steps.
    pub(crate) fn len(&self) -> usize
        ensures { result ≡ length self.now }
    {
        end_of(&self.parts) + self.tail.len()
    }

    /// Returns the step at `place`, counted from 0.
    pub(crate) fn get(&self, place: usize) -> Option<&Step<N, A>>
        ensures { option_copied result ≡ slice_get self.now place }
    {
        let end = end_of(&self.parts);
        if place < end {
            step_in(&self.parts, place)
        } else {
            self.tail.as_slice().get(place - end)
        }
    }

    /// Appends a step. If an allocation is refused, or there are `usize::MAX` steps already, the step is dropped.
    pub(crate) fn push(&mut self, step: Step<N, A>) -> Result<(), AllocError>
        ensures ok { OnOk result (self.new ≡ self.old ++ step ∷ []) }
        ensures err { OnErr result (self.new ≡ self.old) }
    {
        // No contract of `Vec` bounds what several vectors hold together.
        if self.len() == usize::MAX {
            return Err(AllocError);
        }
        self.tail.push(step)
    }

    /// Drops all steps but the first `len`.
    pub(crate) fn truncate(&mut self, len: usize)
        ensures { self.new ≡ take len self.old }
    {
        let end = end_of(&self.parts);
        self.tail.truncate(len.saturating_sub(end));
        cut(&mut self.parts, len);
    }

    /// Drops the steps of the parts, which are the first ones, and returns how many there were. Whole parts go, so that
    /// no step is moved, and whoever was handed a part keeps it.
    pub(crate) fn forget_parts(&mut self) -> usize
        ensures within { result ≤ length self.old }
        ensures rest { self.new ≡ drop result self.old }
    {
        let end = end_of(&self.parts);
        self.parts.clear();
        end
    }

    /// Turns the tail into a segment and returns it. The list shares the segment, unless it is empty. The steps of the
    /// list stay the same, even if an allocation is refused.
    pub(crate) fn seal(&mut self) -> Result<Arc<Segment<N, A>, A>, AllocError>
    where
        A: Copy,
        ensures same { self.new ≡ self.old }
        ensures ends { IfOk result (λ segment. Ends self.old (arc_value segment)) }
    {
        self.parts.reserve(1)?;
        let alloc = *self.parts.allocator();
        let first = end_of(&self.parts);
        let steps = mem::replace(&mut self.tail, Listed::new(alloc));
        match Arc::new(alloc, Segment { first, steps }) {
            Ok(segment) => {
                let shared: Result<_, _> = segment.clone();
                add(&mut self.parts, segment);
                shared
            }
            Err(failed) => {
                self.tail = failed.value.steps;
                Err(AllocError)
            }
        }
    }
}
