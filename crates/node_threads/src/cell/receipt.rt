//! What the application keeps of its broadcasts.
use bytes::Bytes;
use node_names::MsgId;
use std::alloc::{Allocator, Global};
use std::marker::Model;

/// What a broadcast returns.
#[derive(Clone, Copy, Debug, PartialEq, Eq)]
pub struct Receipt {
    /// The id of the message.
    pub id: MsgId,
    /// The place of its step in the trace, from 0.
    pub place: usize,
}

/// One broadcast of a port: the payload that it was given and the receipt that it returned.
#[derive(Drop)]
pub struct Call<A: Allocator = Global> {
    /// What was to be broadcast.
    pub payload: Bytes<A>,
    /// What the broadcast returned.
    pub receipt: Receipt,
}

impl<A: Allocator> Model for Call<A> {
    ghost use Rattle.std.specs.Prelude.{refl};
    ghost use Rattle.node_threads.specs.Receipts.{Call};

    ghost Value = { Call };

    ghost view = { λ c. record { payload = c.payload; receipt = c.receipt } };

    ghost inverse = { λ c. record { payload = c.payload; receipt = c.receipt } };

    ghost inverse_ok = { λ c held. refl };
}
