//! The messages that a node delivers to its application.
ghost use Rattle.std.specs.Prelude.{◌≡◌, IfOk};

use bytes::Bytes;
use node_names::{MsgId, Origin};
use std::alloc::{AllocError, Allocator, Global};
use std::marker::Model;

/// A message that one run of a node has delivered.
#[derive(Drop)]
pub struct Delivery<A: Allocator = Global> {
    /// The run of the node that delivered it.
    pub node: Origin,
    /// The id of the message.
    pub id: MsgId,
    /// The payload that its origin broadcast under that id.
    pub payload: Bytes<A>,
}

impl<A: Allocator> Model for Delivery<A> {
    ghost use Rattle.std.specs.Prelude.{refl};
    ghost use Rattle.protocol.specs.Delivery.{Delivery};

    ghost Value = { Delivery };

    ghost view = { λ d. record { node = d.node; id = d.id; payload = d.payload } };

    ghost inverse = { λ d. record { node = d.node; id = d.id; payload = d.payload } };

    ghost inverse_ok = { λ a h. refl };
}

impl<A: Allocator> Delivery<A> {
    /// Copies the delivery. The copy shares the payload.
    pub fn copy(&self) -> Result<Delivery<A>, AllocError>
        ensures { IfOk result (λ copy. copy ≡ self.now) }
    {
        Ok(Delivery {
            node: self.node,
            id: self.id,
            payload: self.payload.clone()?,
        })
    }
}

/// Copies the deliveries. The copies share the payloads.
pub fn copy_deliveries<A: Allocator + Copy>(
    alloc: A,
    given: &[Delivery<A>],
) -> Result<Vec<Delivery<A>, A>, AllocError>
    ensures { IfOk result (λ copies. copies.items ≡ given.now) }
{
    let mut copies = Vec::new(alloc);
    for delivery in given {
        copies.push(delivery.copy()?)?;
    }
    Ok(copies)
}
