//! The messages that an event causes, and the changes of the active view.
ghost use Rattle.std.specs.Prelude.{◌≡◌, [], ◌++◌, OnOk, OnErr};

use frames::Body;
use node_names::{Listed, NodeName};
use std::alloc::{AllocError, Allocator, Global};
use std::marker::Model;

/// The messages to send, each with its receiver, and the names that the active view has lost and gained, all in order.
/// Each event appends to these lists.
#[derive(Drop)]
pub struct Moves<A: Allocator = Global> {
    /// The messages, each with its receiver.
    pub sends: Listed<(NodeName, Body<A>), A>,
    /// The names that are no longer active.
    pub downs: Listed<NodeName, A>,
    /// The names that have become active.
    pub ups: Listed<NodeName, A>,
}

impl<A: Allocator> Model for Moves<A> {
    ghost use Rattle.std.specs.Prelude.{refl};
    ghost use Rattle.membership.specs.Membership.{Moves as Plain};

    ghost Value = { Plain };

    ghost view = { λ m. record { sends = m.sends; downs = m.downs; ups = m.ups } };

    ghost inverse = { λ m. record { sends = m.sends; downs = m.downs; ups = m.ups } };

    ghost inverse_ok = { λ m held. refl };
}

impl<A: Allocator + Copy> Moves<A> {
    /// Creates empty lists. Does not allocate.
    pub fn new(alloc: A) -> Moves<A>
        ensures { result ≡ record { sends = []; downs = []; ups = [] } }
    {
        Moves {
            sends: Listed::new(alloc),
            downs: Listed::new(alloc),
            ups: Listed::new(alloc),
        }
    }

    /// Appends the lists of `more` to these. If memory is refused, nothing changes.
    pub(crate) fn append(&mut self, more: Moves<A>) -> Result<(), AllocError>
        ensures ok { OnOk result (self.new ≡ record {
          sends = self.old.sends ++ more.sends;
          downs = self.old.downs ++ more.downs;
          ups = self.old.ups ++ more.ups;
        }) }
        ensures err { OnErr result (self.new ≡ self.old) }
    {
        let Moves { sends, downs, ups } = more;
        let sent = self.sends.len();
        let told = self.downs.len();
        self.sends.append(sends.into_vec())?;
        if let Err(refused) = self.downs.append(downs.into_vec()) {
            self.sends.truncate(sent);
            return Err(refused);
        }
        if let Err(refused) = self.ups.append(ups.into_vec()) {
            self.sends.truncate(sent);
            self.downs.truncate(told);
            return Err(refused);
        }
        Ok(())
    }
}
