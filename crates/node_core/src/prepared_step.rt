//! What a core keeps between the two halves of a step.
use gossip_core::Row;
use membership::Membership;
use node_names::{Listed, NodeName};
use std::alloc::{Allocator, Global};
use std::boxed::Box;
use std::marker::Model;

/// What an event of the membership changes.
#[derive(Drop)]
pub(crate) struct ViewChange<A: Allocator> {
    /// The membership after the event.
    pub(crate) membership: Membership<A>,
    /// The links that went down.
    pub(crate) downs: Listed<NodeName, A>,
    /// The links that came up.
    pub(crate) ups: Listed<NodeName, A>,
}

impl<A: Allocator> Model for ViewChange<A> {
    ghost use Rattle.std.specs.Prelude.{refl};
    ghost use Rattle.node_core.specs.Parts.{ViewChange as Plain};

    ghost Value = { Plain };

    ghost view = { λ m. record { membership = m.membership; downs = m.downs; ups = m.ups } };

    ghost inverse = { λ m. record { membership = m.membership; downs = m.downs; ups = m.ups } };

    ghost inverse_ok = { λ m held. refl };
}

/// A boxed view change: most steps change no view, and boxing keeps a `PreparedStep` cheap to move.
pub(crate) type BoxedViewChange<A> = Box<ViewChange<A>, A>;

/// A step of a core that was prepared: what its membership will be, or the row of the gossip's table that it is, and
/// the number of its last frame.
#[derive(Drop)]
pub struct PreparedStep<A: Allocator = Global> {
    pub(crate) moved: Option<BoxedViewChange<A>>,
    pub(crate) row: Row<A>,
    pub(crate) framed: u64,
}

impl<A: Allocator> Model for PreparedStep<A> {
    ghost use Rattle.node_core.specs.Parts.{PreparedStep as Plain, unboxed};

    ghost Value = { Plain };

    ghost view = { λ t. record { moved = unboxed t.moved; row = t.row; framed = t.framed } };
}
