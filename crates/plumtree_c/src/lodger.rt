//! What a slot may have.
ghost use Rattle.std.specs.Prelude.{◌≡◌, None, Some, IfNone, IfSome};
ghost use Rattle.plumtree_c.specs.Kept.{Kept, core_in};
ghost use Rattle.plumtree_c.specs.Kept.Kept.{Bytes, Machine};

use crate::held::Held;
use crate::node::Node;
use crate::parts::Parts;
use crate::slot::{LIVE, LIVE_BYTES, Slot};
use crate::wire::Wire;
use node_core::PlumCore;
use std::alloc::Global;
use std::mem;

/// What a slot may have, in a box.
pub(crate) trait Lodger: Drop {
    /// What contracts see in the slot that has it.
    ghost kept: { Self → Kept };

    /// Its core, to be read.
    fn core(&self) -> &PlumCore
        ensures { result.now ≡ core_in (kept self.now) };

    /// How often it was lent for a change.
    fn turn(&self) -> u64;

    /// Counts one more time that it was lent for a change, and returns the count.
    fn next_turn(&mut self) -> u64
        ensures { self.new ≡ self.old };

    /// Takes the box out of a slot that has one of this type.
    fn take_from(slot: &mut Slot, alloc: Global) -> Option<Parts<Self, Global>>
        ensures some { IfSome result (λ parts. slot.old.held.value ≡ Some (kept parts.value)) }
        ensures empty { IfSome result (λ parts. slot.new.held.value ≡ None) }
        ensures none { IfNone result (slot.new.held.value ≡ slot.old.held.value) };

    /// Puts the box into a slot.
    fn put_into(slot: &mut Slot, parts: Parts<Self, Global>)
        ensures { slot.new.held.value ≡ Some (kept parts.value) };
}

impl Lodger for Node {
    ghost kept = { λ node. Machine node };

    fn core(&self) -> &PlumCore {
        self.core()
    }

    fn turn(&self) -> u64 {
        self.turn()
    }

    fn next_turn(&mut self) -> u64 {
        self.next_turn()
    }

    fn take_from(slot: &mut Slot, alloc: Global) -> Option<Parts<Node, Global>> {
        if slot.live != LIVE {
            return None;
        }
        slot.live = 0;
        let held = mem::replace(&mut slot.held, Held::empty(alloc));
        Some(held.into_machine())
    }

    fn put_into(slot: &mut Slot, parts: Parts<Node, Global>)
        ensures { slot.new.held.value ≡ Some (Machine parts.value) }
    {
        slot.held = Held::of_machine(parts);
        slot.live = LIVE;
    }
}

impl Lodger for Wire {
    ghost kept = { λ wire. Bytes wire };

    fn core(&self) -> &PlumCore {
        self.core()
    }

    fn turn(&self) -> u64 {
        self.turn()
    }

    fn next_turn(&mut self) -> u64 {
        self.next_turn()
    }

    fn take_from(slot: &mut Slot, alloc: Global) -> Option<Parts<Wire, Global>> {
        if slot.live != LIVE_BYTES {
            return None;
        }
        slot.live = 0;
        let held = mem::replace(&mut slot.held, Held::empty(alloc));
        Some(held.into_bytes())
    }

    fn put_into(slot: &mut Slot, parts: Parts<Wire, Global>)
        ensures { slot.new.held.value ≡ Some (Bytes parts.value) }
    {
        slot.held = Held::of_bytes(parts);
        slot.live = LIVE_BYTES;
    }
}
