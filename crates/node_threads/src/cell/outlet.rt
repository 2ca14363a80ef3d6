//! The reading end of a link.
ghost use Rattle.std.specs.Prelude.{◌≡◌, ◌≢◌, ◌≤◌, [], ◌∷◌, ◌++◌, ℕ, List, Some, None, Ok, OnErr, drop, length};
ghost use Rattle.std.specs.Bool.{Decides};
ghost use mathlib.Core.List.{IsPrefix};
ghost use Rattle.rtrb.specs.Ring.{known_items, received};
ghost use Rattle.frames.specs.declared.TheConstants.{MAX_FRAME};
ghost use Rattle.node_threads.specs.Outlet.{Looks};

use crate::cell::link_frame::LinkFrame;
use crate::cell::progress::Mark;
use bytes::Bytes;
use links::{LinkEnd, MeteredWrite, Source, drain};
use node_names::NodeName;
use rtrb::Consumer;
use std::alloc::{AllocError, Allocator, Global};
use std::marker::Model;
use std::sync::atomic::Ordering;

/// How many frames a link writes at once. A busy link never runs out of them, and is to be compared in between.
const BATCH: u32 = 128;

/// The reading end of a ring, and the frames that came out of it, but for those that were given up.
#[derive(Drop)]
struct Tap<A: Allocator> {
    ring: Consumer<LinkFrame<A>, A>,
    given: Vec<LinkFrame<A>, A>,
}

impl<A: Allocator> Model for Tap<A> {
    ghost use Rattle.rtrb.specs.Ring.{known_items, received};
    ghost use Rattle.node_threads.specs.Outlet.{EndsIn, Tap as Seen};

    ghost Value = { Seen };

    ghost view = { λ t. record { given = t.given.items; seen = known_items t.ring } };

    ghost invariant = { λ t. EndsIn (received t.ring) t.given.items };
}

impl<A: Allocator + Copy> Tap<A> {
    /// Returns the bytes of the next frame, or `None` while the ring is empty. A refusal takes nothing.
    fn pop(&mut self) -> Result<Option<Bytes<A>>, AllocError>
        ensures some { (item : List ℕ)
            → result ≡ Ok (Some item)
            → (self.new.given ≡ self.old.given ++ item ∷ []) × (length item ≤ MAX_FRAME) }
        ensures seen { (item : List ℕ) → result ≡ Ok (Some item) → IsPrefix self.old.seen (item ∷ self.new.seen) }
        ensures none { result ≡ Ok None
            → (self.new.given ≡ self.old.given) × (self.new.seen ≡ []) × (self.old.seen ≡ []) }
        ensures err { OnErr result ((self.new.given ≡ self.old.given) × IsPrefix self.old.seen self.new.seen) }
    {
        self.given.reserve(1)?;
        if self.ring.slots() == 0 {
            return Ok(None);
        }
        let alloc = *self.given.allocator();
        let bytes = self.ring.peek_known().encode(alloc)?;
        let frame = self.ring.pop_known();
        self.given.push(frame).unwrap();
        Ok(Some(bytes))
    }
}

impl<A: Allocator> Tap<A> {
    /// Gives the first frames up.
    fn give_up(&mut self, frames: usize)
        requires { frames ≤ length self.old.given }
        ensures { self.new ≡ record self.old { given = drop frames self.old.given } }
    {
        self.given.drain(..frames);
    }
}

impl<A: Allocator + Copy> Source<A> for Tap<A> {
    ghost given = { λ t. t.given };

    ghost is_spent = { λ t. t.seen ≡ [] };

    fn next(&mut self) -> Result<Option<Bytes<A>>, AllocError> {
        self.pop()
    }
}

/// Where the frames of a link come out, each as its bytes, in the order in which the node sent them.
///
/// It keeps the frames that it gave, so that these can be compared with what the node sent, until it gives them up
/// (`NodeCell::compare`). Their payloads are shared with the node's trace.
#[derive(Drop)]
pub struct Outlet<A: Allocator = Global> {
    peer: NodeName,
    opened: usize,
    mark: Mark<A>,
    tap: Tap<A>,
}

impl<A: Allocator> Model for Outlet<A> {
    ghost use Rattle.node_threads.specs.Outlet.{Outlet};

    ghost Value = { Outlet };

    ghost view = { λ o. record { peer = o.peer; opened = o.opened; given = o.tap.given; seen = o.tap.seen } };
}

impl<A: Allocator + Copy> Outlet<A> {
    /// The outlet of a link that was just opened.
    pub(crate) fn new(
        alloc: A,
        peer: NodeName,
        opened: usize,
        mark: Mark<A>,
        ring: Consumer<LinkFrame<A>, A>,
    ) -> Outlet<A>
        requires { (received ring ≡ []) × (known_items ring ≡ []) }
        ensures { result ≡ record { peer = peer; opened = opened; given = []; seen = [] } }
    {
        let given = Vec::new(alloc);
        Outlet {
            peer,
            opened,
            mark,
            tap: Tap { ring, given },
        }
    }
}

impl<A: Allocator> Outlet<A> {
    /// The name that the link goes to.
    pub fn peer(&self) -> NodeName
        ensures { result ≡ self.now.peer }
    {
        self.peer
    }

    /// The number of steps that the node had made when the link was opened, or up to which it was compared.
    pub fn opened(&self) -> usize
        ensures { result ≡ self.now.opened }
    {
        self.opened
    }

    /// The frames that it gave, in order.
    pub(crate) fn given(&self) -> &[LinkFrame<A>]
        ensures { result.now ≡ self.now.given }
    {
        self.tap.given.as_slice()
    }

    /// Gives the first frames up, as if its link had been opened when the node had made `opened` steps.
    pub(crate) fn give_up(&mut self, opened: usize, frames: usize)
        requires { frames ≤ length self.old.given }
        ensures { self.new ≡ record self.old { opened = opened; given = drop frames self.old.given } }
    {
        self.opened = opened;
        self.tap.give_up(frames);
        self.mark.store(opened, Ordering::SeqCst);
    }

    /// The number of frames that it gave, without those that it gave up.
    pub fn taken(&self) -> u64
        ensures { result ≡ length self.now.given }
    {
        self.tap.given.len() as u64
    }

    /// Whether a frame is there to be popped.
    pub fn has_next(&mut self) -> bool
        ensures looks { Looks self.old self.new }
        ensures next { Decides result (self.new.seen ≢ []) }
    {
        self.tap.ring.slots() > 0
    }

    /// Whether its link was closed. Frames that were put into the ring before may still be there.
    pub(crate) fn is_closed(&mut self) -> bool
        ensures { Looks self.old self.new }
    {
        self.tap.ring.is_abandoned()
    }
}

impl<A: Allocator + Copy> Outlet<A> {
    /// Returns the bytes of the next frame, or `None` while the ring is empty. It does not wait, and a refusal takes
    /// nothing.
    pub fn pop(&mut self) -> Result<Option<Bytes<A>>, AllocError>
        ensures some { (item : List ℕ)
            → result ≡ Ok (Some item)
            → (self.new ≡ record self.old { given = self.old.given ++ item ∷ []; seen = self.new.seen })
            × (length item ≤ MAX_FRAME) }
        ensures seen { (item : List ℕ) → result ≡ Ok (Some item) → IsPrefix self.old.seen (item ∷ self.new.seen) }
        ensures none { result ≡ Ok None → (self.new ≡ self.old) × (self.new.seen ≡ []) }
        ensures err { OnErr result (Looks self.old self.new) }
    {
        self.tap.pop()
    }

    /// Writes the frames that it has, but at most so many that its writer soon sees what else there is to do.
    pub(crate) fn write_to<W: MeteredWrite>(&mut self, writer: &mut W) -> Result<(), LinkEnd>
        ensures link { self.new ≡ record self.old { given = self.new.given; seen = self.new.seen } }
        ensures more { IsPrefix self.old.given self.new.given }
    {
        drain(&mut self.tap, writer, BATCH)?;
        Ok(())
    }
}

impl<A: Allocator + Copy> Source<A> for Outlet<A> {
    ghost given = { λ o. o.given };

    ghost is_spent = { λ o. o.seen ≡ [] };

    fn next(&mut self) -> Result<Option<Bytes<A>>, AllocError> {
        self.pop()
    }
}
