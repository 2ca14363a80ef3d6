//! The depth of a message's tree.
use at_rest::Branch;
use indexmap::IndexMap;
use node_names::Origin;
use std::alloc::{AllocError, Allocator};
use std::hash::{BuildHasherDefault, FoldHasher};

/// The depth of each run's branch.
type Depths<A> = IndexMap<Origin, u64, BuildHasherDefault<FoldHasher>, A>;

/// The greatest depth of the branches of a tree, and the mean depth of those that have a parent, in hundredths
/// (rounded down).
#[derive(Clone, Copy)]
pub struct Depth {
    pub greatest: u64,
    pub mean: u64,
}

/// Returns the depth of a tree. The origin's branch has depth 0, and any other branch is one deeper than its parent's.
/// No contract states that these numbers are right.
pub fn depth_of<A: Allocator + Copy>(alloc: A, branches: &[Branch]) -> Result<Depth, AllocError> {
    let mut depths = IndexMap::new(alloc);
    let mut greatest: u64 = 0;
    let mut sum: u64 = 0;
    for branch in branches {
        let depth = branch_depth(&depths, branch);
        depths.insert(branch.node, depth)?;
        greatest = greatest.max(depth);
        sum = sum.saturating_add(depth);
    }
    let others = branches.iter().filter(|b| b.parent.is_some()).count() as u64;
    let mean = sum.saturating_mul(100).checked_div(others).unwrap_or(0);
    Ok(Depth { greatest, mean })
}

/// The depth of a branch, given the depths of the branches before it.
fn branch_depth<A: Allocator + Copy>(depths: &Depths<A>, branch: &Branch) -> u64 {
    let Some(parent) = branch.parent else {
        return 0;
    };
    match depths.get(&parent) {
        Some(depth) => depth.saturating_add(1),
        None => 1,
    }
}
