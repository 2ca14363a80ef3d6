//! The writing end of a link.
ghost use Rattle.std.specs.Prelude.{◌≡◌, ◌++◌, ◌∷◌, [], false, true};

use crate::cell::link_frame::LinkFrame;
use node_names::{Listed, NodeName};
use rtrb::Producer;
use std::alloc::Allocator;
use std::marker::Model;

/// The frames of a step that go to one link.
pub(crate) type Mail<A> = Listed<LinkFrame<A>, A>;

/// An open link: the name that it goes to, and the ring from which its outlet takes frames.
///
/// The ring carries frames, and the outlet writes their bytes: otherwise the node would write a frame once for each
/// receiver, under its lock.
#[derive(Drop)]
pub(crate) struct Link<A: Allocator> {
    pub(crate) peer: NodeName,
    /// How many steps the trace had when the link was opened.
    pub(crate) opened: usize,
    pub(crate) ring: Producer<LinkFrame<A>, A>,
}

impl<A: Allocator> Model for Link<A> {
    ghost use Rattle.rtrb.specs.Ring.{sent};
    ghost use Rattle.node_threads.specs.Cell.{Link};

    ghost Value = { Link };

    ghost view = { λ l. record { peer = l.peer; opened = l.opened; pushed = sent l.ring } };
}

impl<A: Allocator> Link<A> {
    /// The name that it goes to.
    pub(crate) fn peer(&self) -> NodeName
        ensures { result ≡ self.now.peer }
    {
        self.peer
    }

    /// Puts a frame into the ring. Returns whether there was room.
    pub(crate) fn push(&mut self, frame: LinkFrame<A>) -> bool
        ensures pushed { result ≡ true → self.new ≡ record self.old { pushed = self.old.pushed ++ frame ∷ [] } }
        ensures kept { result ≡ false → self.new ≡ self.old }
        ensures peer { self.new.peer ≡ self.old.peer }
    {
        self.ring.push(frame).is_ok()
    }
}
