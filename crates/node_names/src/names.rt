//! Lists and sets of names.
ghost use Rattle.std.specs.Prelude.{◌≡◌, IfOk};
ghost use Rattle.std.specs.List.{IsDistinct};
ghost use Rattle.node_names.specs.Same.{has_name, is_left_out, same_name};

use crate::NodeName;
use indexmap::IndexSet;
use std::alloc::{AllocError, Allocator, Global};
use std::hash::{BuildHasherDefault, FoldHasher};

/// A set of names, in the order in which they were added.
pub type NameSet<A = Global> = IndexSet<NodeName, BuildHasherDefault<FoldHasher>, A>;

/// Makes a set of `names`, in their order.
pub fn set_of<A: Allocator + Copy>(alloc: A, names: &[NodeName]) -> Result<NameSet<A>, AllocError>
    requires { IsDistinct same_name names.now }
    ensures { IfOk result (λ set. set.keys ≡ names.now) }
{
    let mut set = IndexSet::new(alloc);
    for name in names {
        set.insert(*name)?;
    }
    Ok(set)
}

/// Returns whether `names` contains `name`, by a linear search.
pub fn has_name(names: &[NodeName], name: &NodeName) -> bool
    ensures { result ≡ has_name names.now name.now }
{
    names.iter().any(|other| name == other)
}

/// Returns whether `left_out` is `Some` and equal to `name`.
pub fn is_left_out(left_out: &Option<NodeName>, name: &NodeName) -> bool
    ensures { result ≡ is_left_out left_out.now name.now }
{
    match left_out {
        Some(left_out) => left_out == name,
        None => false,
    }
}
