//! The outcome of playing a list of events.
use crate::error::WorldError;
use node_names::Listed;
use protocol::Delivery;
use std::alloc::{Allocator, Global};
use std::marker::Model;

/// A delivery of a run, with the place of the event that made it.
#[derive(Drop)]
pub struct Given<A: Allocator = Global> {
    /// The place of that event in the list of events, counted from 0.
    pub at: usize,
    /// The delivery.
    pub delivery: Delivery<A>,
}

impl<A: Allocator> Model for Given<A> {
    ghost use Rattle.std.specs.Prelude.{refl};
    ghost use Rattle.world.specs.Play.{Given};

    ghost Value = { Given };

    ghost view = { λ g. record { at = g.at; delivery = g.delivery } };

    ghost inverse = { λ g. record { at = g.at; delivery = g.delivery } };

    ghost inverse_ok = { λ g held. refl };
}

/// The reason why a run stopped. The group is then in the state after the events before the refused one.
#[derive(Drop)]
pub struct RunFault<A: Allocator = Global> {
    /// The place in the list of events, counted from 0, of the event that was refused.
    pub at: usize,
    /// The reason why it was refused.
    pub why: WorldError,
    /// The deliveries of the events before it.
    pub given: Listed<Given<A>, A>,
}

impl<A: Allocator> Model for RunFault<A> {
    ghost use Rattle.std.specs.Prelude.{refl};
    ghost use Rattle.world.specs.Play.{Fault};

    ghost Value = { Fault };

    ghost view = { λ f. record { at = f.at; why = f.why; given = f.given } };

    ghost inverse = { λ f. record { at = f.at; why = f.why; given = f.given } };

    ghost inverse_ok = { λ f held. refl };
}
