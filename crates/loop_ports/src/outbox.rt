//! A ring to another thread, with what it has no room for yet.
ghost use Rattle.std.specs.Prelude.{◌≡◌, ◌++◌, [], false, true};
ghost use Rattle.rtrb.specs.Ring.{known_free, sent};
ghost use Rattle.loop_ports.specs.Outbox.{given};

use rtrb::Producer;
use std::alloc::Allocator;
use std::marker::Model;
use std::vec::IntoIter;

/// A ring to another thread, with what it has no room for yet.
#[derive(Drop)]
pub(crate) struct Outbox<T: Drop, A: Allocator> {
    alloc: A,
    ring: Producer<T, A>,
    /// The items for which there was no room.
    rest: IntoIter<T, A>,
}

impl<T: Drop, A: Allocator> Model for Outbox<T, A> {
    ghost use Rattle.std.specs.Prelude.{◌++◌};
    ghost use Rattle.std.specs.Vec.Iter.{into_iter_items};
    ghost use Rattle.rtrb.specs.Ring.{known_free, sent};
    ghost use Rattle.loop_ports.specs.Outbox.{Outbox};

    ghost Value = { Outbox T };

    ghost view = { λ o. record {
      sent = sent o.ring;
      waiting = into_iter_items o.rest;
      free = known_free o.ring;
    } };
}

impl<T: Drop, A: Allocator + Copy> Outbox<T, A> {
    /// Makes an outbox of this ring, in which nothing waits.
    pub(crate) fn new(alloc: A, ring: Producer<T, A>) -> Outbox<T, A>
        ensures { (result.sent ≡ sent ring) × (result.waiting ≡ []) }
    {
        Outbox {
            alloc,
            ring,
            rest: Vec::new(alloc).into_iter(),
        }
    }

    /// Whether the other end was dropped, so that nobody takes what is sent. No contract says when it was.
    pub(crate) fn is_abandoned(&mut self) -> bool
        ensures order { given self.new ≡ given self.old }
        ensures waiting { self.new.waiting ≡ self.old.waiting }
    {
        self.ring.is_abandoned()
    }

    /// Drops what waits.
    pub(crate) fn clear(&mut self)
        ensures empty { self.new.waiting ≡ [] }
        ensures sent { self.new.sent ≡ self.old.sent }
    {
        self.rest = Vec::new(self.alloc).into_iter();
    }

    /// Takes these items, where none wait.
    pub(crate) fn fill(&mut self, items: Vec<T, A>)
        requires { self.old.waiting ≡ [] }
        ensures order { given self.new ≡ given self.old ++ items.items }
        ensures sent { self.new.sent ≡ self.old.sent }
    {
        self.rest = items.into_iter();
    }

    /// Puts what waits into the ring, as far as there is room. Returns whether nothing waits any more.
    pub(crate) fn send(&mut self) -> bool
        ensures order { given self.new ≡ given self.old }
        ensures all { result ≡ true → self.new.waiting ≡ [] }
        ensures full { result ≡ false → self.new.free ≡ 0 }
    {
        while !self.ring.is_full() {
            let Some(item) = self.rest.next() else {
                return true;
            };
            self.ring.push_reserved(item);
        }
        self.rest.len() == 0
    }
}
