//! The packets in flight, the oldest first.
ghost use Rattle.std.specs.Prelude.{◌≡◌, ◌+◌, ◌-◌, ◌<◌, ◌≤◌, ◌++◌, [], ◌∷◌};
ghost use Rattle.std.specs.Prelude.{OnOk, length, remove, vec_len, vec_capacity};
ghost use Rattle.protocol.specs.Lists.{places};
ghost use Rattle.world.specs.Flight.{flying};

use std::alloc::{AllocError, Allocator};

/// The numbers of the packets in flight.
///
/// Removing the oldest packet does not move those behind it: the numbers that have left stay at the front, and
/// `reserve` drops them once they are at least as many as the rest.
///
/// Taking out any other packet moves the numbers behind it, 8 bytes each. A tree would take it out faster, but neither
/// a tree nor a deque could show the numbers as one slice.
#[derive(Drop)]
pub(crate) struct Flight<A: Allocator> {
    /// The numbers that have left, followed by those in flight.
    pub(crate) numbers: Vec<usize, A>,
    /// The count of the numbers at the front that have left.
    pub(crate) gone: usize,
}

impl<A: Allocator + Copy> Flight<A> {
    /// Creates a flight without packets.
    pub(crate) fn new(alloc: A) -> Self
        ensures numbers { flying result ≡ [] }
        ensures whole { result.gone ≤ vec_len result.numbers }
    {
        Flight {
            numbers: Vec::new(alloc),
            gone: 0,
        }
    }
}

impl<A: Allocator> Flight<A> {
    /// Returns the numbers in flight, the oldest first.
    pub(crate) fn as_slice(&self) -> &[usize]
        requires { self.now.gone ≤ vec_len self.now.numbers }
        ensures { result.now ≡ flying self.now }
    {
        &self.numbers[self.gone..]
    }

    /// Drops the numbers that have left, if they are at least as many as the rest.
    fn forget_gone(&mut self)
        requires { self.old.gone ≤ vec_len self.old.numbers }
        ensures numbers { flying self.new ≡ flying self.old }
        ensures whole { self.new.gone ≤ vec_len self.new.numbers }
    {
        if self.gone >= self.numbers.len() - self.gone {
            self.numbers.drain(..self.gone);
            self.gone = 0;
        }
    }

    /// Reserves room for `more` further numbers. The flight stays the same, even if an allocation is refused.
    pub(crate) fn reserve(&mut self, more: usize) -> Result<(), AllocError>
        requires { self.old.gone ≤ vec_len self.old.numbers }
        ensures numbers { flying self.new ≡ flying self.old }
        ensures room { OnOk result (vec_len self.new.numbers + more ≤ vec_capacity self.new.numbers) }
        ensures whole { self.new.gone ≤ vec_len self.new.numbers }
    {
        self.forget_gone();
        self.numbers.reserve(more)
    }

    /// Takes the number at `place` out of flight.
    pub(crate) fn remove(&mut self, place: usize)
        requires whole { self.old.gone ≤ vec_len self.old.numbers }
        requires place { place < length (flying self.old) }
        ensures numbers { flying self.new ≡ remove (flying self.old) place }
        ensures len { vec_len self.new.numbers ≤ vec_len self.old.numbers }
        ensures capacity { vec_capacity self.old.numbers ≤ vec_capacity self.new.numbers }
        ensures whole { self.new.gone ≤ vec_len self.new.numbers }
    {
        if place == 0 {
            self.gone += 1;
        } else {
            self.numbers.remove(self.gone + place);
        }
    }

    /// Puts the packet of this number into flight, behind all others. The room is reserved.
    pub(crate) fn push(&mut self, number: usize)
        requires whole { self.old.gone ≤ vec_len self.old.numbers }
        requires room { vec_len self.old.numbers < vec_capacity self.old.numbers }
        ensures numbers { flying self.new ≡ flying self.old ++ number ∷ [] }
        ensures len { vec_len self.new.numbers ≡ vec_len self.old.numbers + 1 }
        ensures capacity { vec_capacity self.old.numbers ≤ vec_capacity self.new.numbers }
        ensures whole { self.new.gone ≤ vec_len self.new.numbers }
    {
        self.numbers.push(number).unwrap();
    }

    /// Puts the packets numbered `first` up to, but not including, `last` into flight. The room is reserved.
    pub(crate) fn launch(&mut self, first: usize, last: usize)
        requires whole { self.old.gone ≤ vec_len self.old.numbers }
        requires order { first ≤ last }
        requires room { vec_len self.old.numbers + (last - first) ≤ vec_capacity self.old.numbers }
        ensures numbers { flying self.new ≡ flying self.old ++ places first (last - first) }
        ensures whole { self.new.gone ≤ vec_len self.new.numbers }
    {
        for number in first..last {
            self.push(number);
        }
    }
}
