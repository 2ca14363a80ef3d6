//! The caller's room for a node.
ghost use Rattle.std.specs.Prelude.{◌≡◌, Some, None, IfOk, IsTrue, OnOk, OnErr};
ghost use Rattle.plumtree_c.specs.declared.slot.TheConstants.{LIVE, LIVE_BYTES};
ghost use Rattle.plumtree_c.specs.Owned.{has_bytes, has_machine};

use crate::held::Held;
use crate::lodger::Lodger;
use crate::parts::Parts;
use crate::refusal::Refusal;
use std::alloc::Global;
use std::boxed::Box;

/// What `live` is where a slot has a state machine: the bytes of "plumtree".
pub(crate) const LIVE: u64 = 0x706c_756d_7472_6565;

/// What `live` is where a slot has a node of bytes: the bytes of "plumwire".
pub(crate) const LIVE_BYTES: u64 = 0x706c_756d_7769_7265;

/// Room for a node, which the caller owns, zeroes before its first use and then leaves alone.
#[repr(C)]
#[derive(Drop)]
pub struct Slot {
    /// `LIVE` or `LIVE_BYTES`, or 0 where it has no node.
    pub(crate) live: u64,
    /// How often the node was lent for a change, as the node has it too. A copy of the slot is behind, so that a call
    /// with it is refused. A copy that is used after the node was freed cannot be found.
    turn: u64,
    pub(crate) held: Held,
    ghost machine: { live ≡ LIVE → IsTrue (has_machine held.value) },
    ghost bytes: { live ≡ LIVE_BYTES → IsTrue (has_bytes held.value) },
}

const _: () = prove!(size_of::<Slot>() == 24);

impl Slot {
    /// Takes the node out, to be put back.
    pub(crate) fn take<T: Lodger>(&mut self, alloc: Global) -> Result<Box<T>, Refusal>
        ensures ok { IfOk result (λ node. self.old.held.value ≡ Some (T.kept node.value)) }
        ensures empty { OnOk result (self.new.held.value ≡ None) }
        ensures err { OnErr result (self.new.held.value ≡ self.old.held.value) }
    {
        let Some(parts) = T::take_from(self, alloc) else {
            return Err(Refusal::NotLive);
        };
        let node = parts.into_box();
        if node.turn() != self.turn {
            self.put_back(node);
            return Err(Refusal::Copied);
        }
        Ok(node)
    }

    /// Puts a node back that did not change.
    pub(crate) fn put_back<T: Lodger>(&mut self, node: Box<T>)
        ensures { self.new.held.value ≡ Some (T.kept node.value) }
    {
        T::put_into(self, Parts::of(node));
    }

    /// Puts a node into the slot. From now on copies of the slot are behind.
    pub(crate) fn put<T: Lodger>(&mut self, mut node: Box<T>)
        ensures { self.new.held.value ≡ Some (T.kept node.value) }
    {
        self.turn = node.next_turn();
        self.put_back(node);
    }

    /// Whether the slot has a node of bytes.
    pub(crate) fn has_bytes(&self) -> bool {
        self.live == LIVE_BYTES
    }

    /// Whether the slot was zeroed and not used since, or its node was freed.
    pub(crate) fn check_free(&self) -> Result<(), Refusal>
        ensures { OnOk result (self.now.live ≡ 0) }
    {
        match self.live {
            0 => Ok(()),
            LIVE | LIVE_BYTES => Err(Refusal::Live),
            _ => Err(Refusal::NotZeroed),
        }
    }
}

/// Compiles only if a value of the type may go to another thread.
fn crosses<T: Send>() {}

/// A slot may go to another thread, with its node.
pub(crate) fn slots_cross() {
    crosses::<Slot>();
}
