//! Drawing random names from a view.
ghost use Rattle.std.specs.Prelude.{◌≡◌, ◌≤◌, [], ◌∷◌, IfOk, OnOk, length, take};
ghost use Rattle.views.specs.Names.{chosen, others, sample, without_chosen};

use crate::name_set::place;
use node_names::{NodeName, has_name};
use std::alloc::{AllocError, Allocator};

/// Returns the `names` that are not among those `excepted`, in their order.
pub(crate) fn others<A: Allocator + Copy>(
    alloc: A,
    excepted: &[NodeName],
    names: &[NodeName],
) -> Result<Vec<NodeName, A>, AllocError>
    ensures { IfOk result (λ left. left.items ≡ others excepted.now names.now) }
{
    let mut left = Vec::new(alloc);
    for name in names {
        if !has_name(excepted, name) {
            left.push(*name)?;
        }
    }
    Ok(left)
}

/// Removes and returns the candidate that `word` chooses, or returns `None` if there are no candidates.
fn draw<A: Allocator>(candidates: &mut Vec<NodeName, A>, word: u64) -> Option<NodeName>
    ensures name { result ≡ chosen word candidates.old.items }
    ensures left { candidates.new.items ≡ without_chosen word candidates.old.items }
{
    if candidates.is_empty() {
        return None;
    }
    let at = place(word, candidates.len());
    Some(candidates.remove(at))
}

/// Draws one candidate for each of the `words`, in turn, without replacement, as long as any is left.
pub(crate) fn sample<A: Allocator + Copy>(
    alloc: A,
    mut candidates: Vec<NodeName, A>,
    words: &[u64],
) -> Result<Vec<NodeName, A>, AllocError>
    ensures { IfOk result (λ drawn. drawn.items ≡ sample words.now candidates.items) }
{
    let mut drawn = Vec::new(alloc);
    for word in words {
        if let Some(name) = draw(&mut candidates, *word) {
            drawn.push(name)?;
        }
    }
    Ok(drawn)
}
