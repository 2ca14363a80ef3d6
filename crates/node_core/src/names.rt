//! Sets of names.
ghost use Rattle.std.specs.Prelude.{◌↔◌, IsTrue};
ghost use Rattle.protocol.specs.SameNames.{SameNames};

use node_names::NameSet;
use std::alloc::Allocator;

/// Whether two sets contain the same names.
pub(crate) fn are_same<A: Allocator>(names: &NameSet<A>, others: &NameSet<A>) -> bool
    ensures { IsTrue result ↔ SameNames names.now.keys others.now.keys }
{
    names.is_subset(others) && others.is_subset(names)
}
