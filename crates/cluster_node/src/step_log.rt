//! What a node notes of its steps.
ghost use Rattle.std.specs.Prelude.{◌≡◌, ◌↔◌, ◌⊎◌, ◌+◌, ◌<◌, ◌++◌, ◌∷◌, []};
ghost use Rattle.std.specs.Prelude.{IfSome, IsNone, IsTrue, false, if◌then◌else◌};
ghost use Rattle.std.specs.Prelude.{length, min, true};

use crate::cluster_node::ClusterNode;
use frames::Frame;
use protocol::{Segment, Step, Stimulus};
use std::alloc::Allocator;
use std::mem;

/// How much a node did since it started. A number that is too large to be counted stays at the greatest.
#[derive(Clone, Copy, Debug, PartialEq, Eq)]
pub struct Counts {
    /// Its steps.
    pub steps: u64,
    /// The messages that it broadcast.
    pub broadcast: u64,
    /// The messages that it delivered, its own too.
    pub delivered: u64,
}

/// What a node notes of its steps.
#[derive(Drop)]
pub(crate) struct StepLog<A: Allocator + Copy> {
    alloc: A,
    counts: Counts,
    /// Whether the steps are kept until they are taken.
    keeps: bool,
    /// Whether a step could not be kept.
    has_gap: bool,
    kept: Vec<Segment<Frame<A>, A>, A>,
}

impl Counts {
    /// Counts a step, which broadcast a message or did not, and delivered so many.
    fn add(&mut self, is_broadcast: bool, delivered: usize)
        ensures steps { self.new.steps ≡ min (self.old.steps + 1) u64.MAX }
        ensures broadcast { self.new.broadcast ≡ (if is_broadcast then min (self.old.broadcast + 1) u64.MAX
            else self.old.broadcast) }
        ensures delivered { self.new.delivered ≡ min (self.old.delivered + delivered) u64.MAX }
    {
        self.steps = self.steps.saturating_add(1);
        if is_broadcast {
            self.broadcast = self.broadcast.saturating_add(1);
        }
        self.delivered = self.delivered.saturating_add(delivered as u64);
    }
}

/// These counts, with these steps.
fn counted<A: Allocator>(before: Counts, steps: &[Step<Frame<A>, A>]) -> Counts {
    let mut counts = before;
    for step in steps {
        let is_broadcast = matches!(step.stimulus, Stimulus::Broadcast(_));
        counts.add(is_broadcast, step.out.deliveries.len());
    }
    counts
}

impl<A: Allocator + Copy> StepLog<A> {
    /// Keeps no steps.
    pub(crate) fn new(alloc: A) -> StepLog<A>
        ensures none { result.kept.items ≡ [] }
        ensures off { result.keeps ≡ false }
    {
        StepLog {
            alloc,
            counts: Counts {
                steps: 0,
                broadcast: 0,
                delivered: 0,
            },
            keeps: false,
            has_gap: false,
            kept: Vec::new(alloc),
        }
    }

    /// Whether steps wait to be taken.
    pub(crate) fn has_kept(&self) -> bool
        ensures { IsTrue result ↔ (0 < length self.now.kept.items) }
    {
        !self.kept.is_empty()
    }

    /// Notes the steps that were made.
    pub(crate) fn note(&mut self, made: Segment<Frame<A>, A>)
        // They are kept in order, or it is known that some are lacking.
        ensures kept { self.old.keeps ≡ true → 0 < length made.steps
            → (self.new.kept.items ≡ self.old.kept.items ++ made ∷ []) ⊎ (self.new.has_gap ≡ true) }
        ensures none_made { length made.steps ≡ 0 → self.new.kept.items ≡ self.old.kept.items }
        ensures off { self.old.keeps ≡ false → self.new.kept.items ≡ self.old.kept.items }
        ensures gap { self.old.has_gap ≡ true → self.new.has_gap ≡ true }
        ensures keeps { self.new.keeps ≡ self.old.keeps }
    {
        self.counts = counted(self.counts, made.steps.as_slice());
        if !self.keeps || made.steps.as_slice().is_empty() {
            return;
        }
        self.keep(made);
    }

    /// Keeps steps, or notes that some are lacking, if memory is refused.
    fn keep(&mut self, made: Segment<Frame<A>, A>)
        ensures kept { (self.new.kept.items ≡ self.old.kept.items ++ made ∷ []) ⊎ (self.new.has_gap ≡ true) }
        ensures gap { self.old.has_gap ≡ true → self.new.has_gap ≡ true }
        ensures keeps { self.new.keeps ≡ self.old.keeps }
    {
        if self.kept.push(made).is_ok() {
            return;
        }
        self.has_gap = true;
    }

    /// Takes the steps that were kept, or `None` if some are lacking.
    fn take(&mut self) -> Option<Vec<Segment<Frame<A>, A>, A>>
        ensures lacking { self.old.has_gap ≡ true → IsNone result }
        ensures taken { IfSome result (λ taken. taken.items ≡ self.old.kept.items) }
        ensures rest { self.new.kept.items ≡ [] }
        ensures gap { self.new.has_gap ≡ self.old.has_gap }
    {
        let kept = mem::replace(&mut self.kept, Vec::new(self.alloc));
        if self.has_gap { None } else { Some(kept) }
    }
}

impl<N: Drop, A: Allocator + Copy> ClusterNode<N, A> {
    /// How much it did since it started.
    pub fn counts(&self) -> Counts {
        self.log.counts
    }

    /// Sets whether it keeps its steps until they are taken, to be recorded. It does not unless told. While steps wait
    /// to be taken, nothing is sent.
    pub fn keep_steps(&mut self, keeps: bool) {
        self.log.keeps = keeps;
    }

    /// Takes the steps that it kept since the last call, in order, or `None` if some are lacking, since memory was
    /// refused for them.
    pub fn take_kept(&mut self) -> Option<Vec<Segment<Frame<A>, A>, A>>
        ensures lacking { self.old.log.has_gap ≡ true → IsNone result }
        ensures taken { IfSome result (λ taken. taken.items ≡ self.old.log.kept.items) }
        ensures rest { self.new.log.kept.items ≡ [] }
        ensures gap { self.new.log.has_gap ≡ self.old.log.has_gap }
    {
        self.log.take()
    }
}
