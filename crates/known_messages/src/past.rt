//! The known numbers past the first gap.
ghost use Rattle.std.specs.Prelude.{◌≡◌, ℕ, ◌+◌, ◌<◌, ◌≤◌, ◌||◌, [], length, nat_eq, nat_le, OnOk};
ghost use Rattle.std.specs.List.{list_any};
ghost use Rattle.std.specs.VecDeque.{deque_len, deque_capacity};
ghost use Rattle.known_messages.specs.Past.{is_covered, toggled};
ghost use Rattle.known_messages.specs.Span.{Ascends, counted};

use std::alloc::{AllocError, Allocator};
use std::collections::VecDeque;
use std::marker::Model;

/// The known numbers past the first gap, by the edges of their runs.
///
/// A run of numbers without a gap is kept by two edges, its first number and the number behind its last, so memory
/// grows with the gaps and not with the numbers. A run that ends with the greatest number has its first edge alone. A
/// number is known where an odd number of edges are not greater than it, so one number more toggles two edges: itself
/// and the next.
#[derive(Drop)]
pub(crate) struct Past<A: Allocator> {
    edges: VecDeque<u64, A>,
}

impl<A: Allocator> Model for Past<A> {
    ghost use Rattle.std.specs.Prelude.{◌-◌, ◌^◌};
    ghost use Rattle.std.specs.VecDeque.{deque_len, deque_capacity};
    ghost use Rattle.known_messages.specs.Past.{Past, between};
    ghost use Rattle.known_messages.specs.Span.{Ascends};

    ghost Value = { Past };

    ghost view = { λ p. record {
      numbers = between (2 ^ 64) p.edges.items;
      room = deque_capacity p.edges - deque_len p.edges;
    } };

    ghost invariant = { λ p. Ascends 0 p.edges.items };
}

/// Takes `edge` out where it is there, and else puts it at its place, without allocating.
fn toggle<A: Allocator>(edges: &mut VecDeque<u64, A>, edge: u64)
    requires room { deque_len edges.old < deque_capacity edges.old }
    requires order { Ascends 0 edges.old.items }
    ensures order { (low : ℕ) → low < edge → Ascends low edges.old.items → Ascends low edges.new.items }
    ensures covered { (m : ℕ) → is_covered edges.new.items m ≡ toggled (nat_le edge m) (is_covered edges.old.items m) }
    ensures room { deque_capacity edges.old + deque_len edges.new ≤ deque_capacity edges.new + deque_len edges.old + 1 }
{
    match edges.binary_search(&edge) {
        Ok(place) => {
            let _ = edges.remove(place);
        }
        Err(place) => edges.insert(place, edge).unwrap(),
    }
}

impl<A: Allocator + Copy> Past<A> {
    /// Returns no numbers. Does not allocate.
    pub(crate) fn new(alloc: A) -> Self
        ensures { result.numbers ≡ [] }
    {
        Past {
            edges: VecDeque::new(alloc),
        }
    }
}

impl<A: Allocator> Past<A> {
    /// Returns whether `n` is among the numbers.
    pub(crate) fn contains(&self, n: u64) -> bool
        ensures { result ≡ list_any (nat_eq n) self.now.numbers }
    {
        match self.edges.binary_search(&n) {
            Ok(place) => place % 2 == 0,
            Err(place) => place % 2 == 1,
        }
    }

    /// Returns how many numbers there are, by going over all edges.
    pub(crate) fn count(&self) -> usize
        ensures { result ≡ length self.now.numbers }
    {
        let mut count = 0;
        let mut edges = self.edges.iter();
        while let Some(first) = edges.next() {
            let Some(end) = edges.next() else {
                return (count + (u64::MAX - *first) + 1) as usize;
            };
            count += *end - *first;
        }
        count as usize
    }

    /// Reserves the memory that `insert` needs. Changes no number, even if memory is refused.
    pub(crate) fn reserve(&mut self) -> Result<(), AllocError>
        ensures room { OnOk result (1 < self.new.room) }
        ensures same { self.new ≡ record self.old { room = self.new.room } }
    {
        self.edges.reserve(2)
    }

    /// Adds `n`, without allocating.
    pub(crate) fn insert(&mut self, n: u64)
        requires positive { 0 < n }
        requires room { 1 < self.old.room }
        ensures order { (low : ℕ) → low < n → Ascends low self.old.numbers → Ascends low self.new.numbers }
        ensures numbers { (m : ℕ)
            → list_any (nat_eq m) self.new.numbers ≡ (nat_eq m n || list_any (nat_eq m) self.old.numbers) }
    {
        if self.contains(n) {
            return;
        }
        toggle(&mut self.edges, n);
        if n < u64::MAX {
            toggle(&mut self.edges, n + 1);
        }
    }

    /// Takes out the run that follows `last` without a gap, if there is one. Returns the last number of that run, or
    /// `last`.
    pub(crate) fn absorb(&mut self, last: u64) -> u64
        requires { Ascends last self.old.numbers }
        ensures apart { Ascends (result + 1) self.new.numbers }
        ensures same { counted result self.new.numbers ≡ counted last self.old.numbers }
    {
        let Some(first) = self.edges.front() else {
            return last;
        };
        if *first - 1 != last {
            return last;
        }
        let _ = self.edges.pop_front();
        match self.edges.pop_front() {
            Some(end) => end - 1,
            None => u64::MAX,
        }
    }
}

impl<A: Allocator + Copy> Clone for Past<A> {
    ghost is_clone = { λ p c. c ≡ record p { room = c.room } };

    fn clone(&self) -> Result<Self, AllocError> {
        Ok(Past {
            edges: self.edges.clone()?,
        })
    }
}
