//! The set of known message ids, as a span of the known numbers of each origin.
ghost use Rattle.std.specs.Prelude.{◌≡◌, ◌+◌, ◌<◌, ◌||◌, ℕ, [], None, false, length, nat_eq, IfOk, OnOk, OnErr};
ghost use Rattle.std.specs.FinSet as set;
ghost use Rattle.std.specs.Map.{lookup};
ghost use Rattle.node_names.specs.Same.{same_origin};
ghost use Rattle.known_messages.specs.Known.{ids, HasRoom, IsSpan};
ghost use Rattle.known_messages.specs.Span.{Ascends, has_number, HasRoomFor};

use crate::past::Past;
use indexmap::IndexMap;
use node_names::{MsgId, Origin};
use std::alloc::{AllocError, Allocator, Global};
use std::hash::{BuildHasherDefault, FoldHasher};
use std::marker::Model;

/// The known sequence numbers of one origin.
///
/// Of the numbers that are known from 1 on without a gap, only the last is kept, and of each run of numbers past the
/// first gap its two edges. Messages count from 1; 0 is kept apart, since a caller may name it.
#[derive(Drop)]
pub(crate) struct Span<A: Allocator> {
    zero: bool,
    unbroken: u64,
    past: Past<A>,
}

impl<A: Allocator> Model for Span<A> {
    ghost use Rattle.std.specs.Prelude.{◌+◌};
    ghost use Rattle.known_messages.specs.Span.{Span, Ascends};

    ghost Value = { Span };

    ghost view = { λ s. record { zero = s.zero; unbroken = s.unbroken; past = s.past.numbers; room = s.past.room } };

    ghost invariant = { λ s. Ascends (s.unbroken + 1) s.past.numbers };
}

impl<A: Allocator + Copy> Span<A> {
    /// Creates a span in which no number is known. Does not allocate.
    pub(crate) fn new(alloc: A) -> Self
        ensures zero { result.zero ≡ false }
        ensures unbroken { result.unbroken ≡ 0 }
        ensures past { result.past ≡ [] }
    {
        Span {
            zero: false,
            unbroken: 0,
            past: Past::new(alloc),
        }
    }
}

impl<A: Allocator> Span<A> {
    /// Returns whether `n` is known.
    pub(crate) fn contains(&self, n: u64) -> bool
        ensures { result ≡ has_number self.now n }
    {
        if n == 0 {
            return self.zero;
        }
        n <= self.unbroken || self.past.contains(n)
    }

    /// Returns how many numbers are known from 1 on without a gap, and how many past the gap.
    pub(crate) fn counts(&self) -> (u64, usize)
        ensures unbroken { result.0 ≡ self.now.unbroken }
        ensures past { result.1 ≡ length self.now.past }
        ensures order { Ascends (self.now.unbroken + 1) self.now.past }
        ensures last { self.now.unbroken ≡ u64.MAX → self.now.past ≡ [] }
    {
        (self.unbroken, self.past.count())
    }

    /// Reserves the memory that `insert` needs for `n`. Changes no known number, even if memory is refused.
    pub(crate) fn make_room(&mut self, n: u64) -> Result<(), AllocError>
        ensures room { OnOk result (HasRoomFor self.new n) }
        ensures same { self.new ≡ record self.old { room = self.new.room } }
    {
        if n > self.unbroken && n - 1 > self.unbroken {
            self.past.reserve()?;
        }
        Ok(())
    }

    /// Makes `n` known, without allocating.
    pub(crate) fn insert(&mut self, n: u64)
        requires { HasRoomFor self.old n }
        ensures { (m : ℕ) → has_number self.new m ≡ (nat_eq m n || has_number self.old m) }
    {
        if n == 0 {
            self.zero = true;
            return;
        }
        if n <= self.unbroken {
            return;
        }
        if n - 1 == self.unbroken {
            self.unbroken = self.past.absorb(n);
        } else {
            self.past.insert(n);
        }
    }
}

impl<A: Allocator + Copy> Clone for Span<A> {
    ghost is_clone = { λ s c. c ≡ record s { room = c.room } };

    fn clone(&self) -> Result<Self, AllocError> {
        Ok(Span {
            zero: self.zero,
            unbroken: self.unbroken,
            past: self.past.clone()?,
        })
    }
}

/// A set of known message ids.
///
/// For each origin it keeps the highest number up to which all numbers from 1 are known, and of each run of known
/// numbers past the gap after it where it begins and where it ends. So its memory grows with the origins and with the
/// gaps, and not with the numbers known. Looking up an id hashes its origin and searches the runs in logarithmic time;
/// adding the next number of an origin, or of its last run, takes amortized constant time.
///
/// An id is added in two steps: `make_room` allocates and may fail, `insert` does not allocate. A new message needs
/// room in four places, and only one of them could be refused last.
#[derive(Drop)]
pub struct KnownIds<A: Allocator = Global> {
    spans: IndexMap<Origin, Span<A>, BuildHasherDefault<FoldHasher>, A>,
}

impl<A: Allocator> Model for KnownIds<A> {
    ghost use Rattle.std.specs.Prelude.{List};
    ghost use Rattle.indexmap.specs.IndexMap.{IsUnique};
    ghost use Rattle.node_names.specs.Same.{same_origin};
    ghost use Rattle.node_names.specs.declared.ids.Origin.{Origin};
    ghost use Rattle.known_messages.specs.Span.{Span};

    ghost Value = { List (Origin × Span) };

    ghost view = { λ k. k.spans.entries };

    ghost invariant = { λ k. IsUnique same_origin k.spans };
}

impl<A: Allocator + Copy> KnownIds<A> {
    /// Creates a set in which no id is known. Does not allocate.
    pub fn new(alloc: A) -> Self
        ensures { ids result ≡ set.empty }
    {
        KnownIds {
            spans: IndexMap::new(alloc),
        }
    }

    /// Reserves the memory that `insert` needs for `id`. Changes no known id, even if memory is refused.
    pub fn make_room(&mut self, id: &MsgId) -> Result<(), AllocError>
        ensures room { OnOk result (HasRoom self.new id.now) }
        ensures same { ids self.new ≡ ids self.old }
    {
        match self.spans.get_mut(&id.origin) {
            Some(span) => span.make_room(id.seq),
            None => self.add_span(id),
        }
    }

    /// Adds an empty span for the origin of `id`, which has no span yet, with room for `id`.
    fn add_span(&mut self, id: &MsgId) -> Result<(), AllocError>
        requires { lookup (same_origin id.now.origin) self.old ≡ None }
        ensures room { OnOk result (HasRoom self.new id.now) }
        ensures same { ids self.new ≡ ids self.old }
    {
        let mut span = Span::new(*self.spans.allocator());
        span.make_room(id.seq)?;
        self.spans.insert(id.origin, span)?;
        Ok(())
    }

    /// Returns a copy with the same known ids.
    pub fn copy(&self) -> Result<Self, AllocError>
        ensures { IfOk result (λ copy. ids copy ≡ ids self.now) }
    {
        Ok(KnownIds {
            spans: self.spans.clone()?,
        })
    }
}

impl<A: Allocator> KnownIds<A> {
    /// Returns whether `id` is known.
    pub fn contains(&self, id: &MsgId) -> bool
        ensures { result ≡ set.contains (ids self.now) id.now }
    {
        match self.spans.get(&id.origin) {
            Some(span) => span.contains(id.seq),
            None => false,
        }
    }

    /// Makes `id` known, without allocating.
    pub fn insert(&mut self, id: &MsgId)
        requires { HasRoom self.old id.now }
        ensures { ids self.new ≡ set.insert (ids self.old) id.now }
    {
        let span = self.spans.get_mut(&id.origin).unwrap();
        span.insert(id.seq);
    }

    /// Returns the highest number up to which all numbers of `origin` from 1 are known, and how many numbers are known
    /// past it. Both are 0 for an origin of which nothing is known.
    pub fn span(&self, origin: &Origin) -> (u64, usize)
        ensures span { IsSpan (ids self.now) origin.now result.0 result.1 }
        ensures last { result.0 ≡ u64.MAX → result.1 ≡ 0 }
    {
        match self.spans.get(origin) {
            Some(span) => span.counts(),
            None => (0, 0),
        }
    }
}
