//! The handle of a node: a pointer that C may keep.
ghost use Rattle.std.specs.Prelude.{◌≡◌, Option, None, Some, IsTrue};
ghost use Rattle.plumtree_c.specs.Kept.{Kept, kept_coded};
ghost use Rattle.plumtree_c.specs.Kept.Kept.{Machine, Bytes};
ghost use Rattle.plumtree_c.specs.Owned.{has_bytes, has_machine, kept_owned};

use crate::node::Node;
use crate::parts::Parts;
use crate::wire::Wire;
use std::alloc::Global;
use std::marker::Model;
use std::ptr;

/// The handle of a node, or of none. Its pointer names no type, so that it may cross to C.
#[repr(C)]
#[derive(Drop)]
pub struct Held {
    at: *mut u8,
    alloc: Global,
    pub(crate) ghost value: { Option Kept } by { kept_coded },
}

impl Model for Held {
    ghost also_owns = { λ h. kept_owned h.alloc h.at h.value };
}

impl Held {
    /// The handle of no node.
    pub(crate) fn empty(alloc: Global) -> Held
        ensures { result.value ≡ None }
    {
        Held {
            at: ptr::null_mut(),
            alloc,
        }
    }

    /// The handle of the state machine of these parts.
    pub(crate) fn of_machine(parts: Parts<Node, Global>) -> Held
        ensures { result.value ≡ Some (Machine parts.value) }
    {
        let Parts { at, alloc } = parts;
        Held {
            at: at as *mut u8,
            alloc,
        }
    }

    /// The handle of the node of bytes of these parts.
    pub(crate) fn of_bytes(parts: Parts<Wire, Global>) -> Held
        ensures { result.value ≡ Some (Bytes parts.value) }
    {
        let Parts { at, alloc } = parts;
        Held {
            at: at as *mut u8,
            alloc,
        }
    }

    /// The parts of the box of the state machine.
    pub(crate) fn into_machine(self) -> Parts<Node, Global>
        requires { IsTrue (has_machine self.value) }
        ensures { self.value ≡ Some (Machine result.value) }
    {
        let Held { at, alloc } = self;
        Parts {
            at: at as *mut Node,
            alloc,
        }
    }

    /// The parts of the box of the node of bytes.
    pub(crate) fn into_bytes(self) -> Parts<Wire, Global>
        requires { IsTrue (has_bytes self.value) }
        ensures { self.value ≡ Some (Bytes result.value) }
    {
        let Held { at, alloc } = self;
        Parts {
            at: at as *mut Wire,
            alloc,
        }
    }
}

unsafe impl Send for Held {}
