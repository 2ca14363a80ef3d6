//! The output of a core's step: packets to send and messages to deliver.
ghost use Rattle.std.specs.Prelude.{◌≡◌, [], ◌∷◌, ◌++◌, OnOk, OnErr};

use crate::Delivery;
use node_names::{Listed, NodeName};
use std::alloc::{AllocError, Allocator, Global};
use std::marker::Model;

/// The packets to send, each with its receiver, and the deliveries, both in order. A step appends to both.
#[derive(Drop)]
pub struct Out<N: Drop, A: Allocator = Global> {
    /// The packets to send, each with the name that it goes to.
    pub sends: Listed<(NodeName, N), A>,
    /// The messages that are delivered to the application.
    pub deliveries: Listed<Delivery<A>, A>,
}

impl<N: Drop, A: Allocator> Model for Out<N, A> {
    ghost use Rattle.std.specs.Prelude.{refl};
    ghost use Rattle.protocol.specs.Output.{Output};

    ghost Value = { Output N };

    ghost view = { λ out. record { sends = out.sends; deliveries = out.deliveries } };

    ghost inverse = { λ out. record { sends = out.sends; deliveries = out.deliveries } };

    ghost inverse_ok = { λ out held. refl };
}

impl<N: Drop, A: Allocator + Copy> Out<N, A> {
    /// Creates an empty output.
    pub fn new(alloc: A) -> Self
        ensures sends { result.sends ≡ [] }
        ensures deliveries { result.deliveries ≡ [] }
    {
        Out {
            sends: Listed::new(alloc),
            deliveries: Listed::new(alloc),
        }
    }

    /// Appends packets and one delivery. If an allocation is refused, nothing changes.
    pub fn extend(
        &mut self,
        sends: Vec<(NodeName, N), A>,
        delivery: Delivery<A>,
    ) -> Result<(), AllocError>
        ensures ok { OnOk result (self.new
            ≡ record { sends = self.old.sends ++ sends.items; deliveries = self.old.deliveries ++ delivery ∷ [] }) }
        ensures err { OnErr result (self.new ≡ self.old) }
    {
        let kept = self.sends.len();
        self.sends.append(sends)?;
        if self.deliveries.push(delivery).is_err() {
            self.sends.truncate(kept);
            return Err(AllocError);
        }
        Ok(())
    }
}
