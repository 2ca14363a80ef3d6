//! What the log keeps of an accepted event.
use crate::event::KeptEvent;
use node_names::Listed;
use protocol::Delivery;
use std::alloc::{Allocator, Global};
use std::marker::Model;

/// An accepted event and what came of it.
#[derive(Drop)]
pub struct Entry<A: Allocator = Global> {
    /// The event.
    pub event: KeptEvent<A>,
    /// The number of the packet that the event names, if it names one: its index among all packets ever sent.
    pub packet: Option<usize>,
    /// The number of packets that were sent before the event, which is the number of its first own packet.
    pub first_sent: usize,
    /// Whether the event changed an active view as a set. It is `false` for every start and stop.
    pub moved: bool,
    /// The deliveries of the event.
    pub given: Listed<Delivery<A>, A>,
}

impl<A: Allocator> Model for Entry<A> {
    ghost use Rattle.std.specs.Prelude.{refl};
    ghost use Rattle.world.specs.Entry.{Entry};

    ghost Value = { Entry };

    ghost view = { λ e. record {
      event = e.event;
      packet = e.packet;
      first_sent = e.first_sent;
      moved = e.moved;
      given = e.given;
    } };

    ghost inverse = { λ e. record {
      event = e.event;
      packet = e.packet;
      first_sent = e.first_sent;
      moved = e.moved;
      given = e.given;
    } };

    ghost inverse_ok = { λ e held. refl };
}
