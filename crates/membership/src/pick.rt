//! Choosing one name of a view by a word of the dice.
ghost use Rattle.std.specs.Prelude.{◌≡◌, ◌%◌, ◌<◌, ◌≤◌, length, slice_get};
ghost use Rattle.views.specs.Names.{chosen, others};

use node_names::{NodeName, has_name};

/// Returns the number of `names` that are not `excepted`.
fn count_others(excepted: &[NodeName], names: &[NodeName]) -> usize
    ensures value { result ≡ length (others excepted.now names.now) }
    ensures few { result ≤ length names.now }
{
    let mut count = 0;
    for name in names {
        if !has_name(excepted, name) {
            count += 1;
        }
    }
    count
}

/// Returns the name at index `place` among the `names` that are not `excepted`, or `None` if there are too few.
fn nth_other(excepted: &[NodeName], names: &[NodeName], place: usize) -> Option<NodeName>
    ensures { result ≡ slice_get (others excepted.now names.now) place }
{
    let mut before = place;
    for name in names {
        if !has_name(excepted, name) {
            if before == 0 {
                return Some(*name);
            }
            before -= 1;
        }
    }
    None
}

/// Returns the name that `word` chooses among the `names` that are not `excepted`, or `None` if there are none.
pub(crate) fn pick(excepted: &[NodeName], names: &[NodeName], word: u64) -> Option<NodeName>
    ensures { result ≡ chosen word (others excepted.now names.now) }
{
    let count = count_others(excepted, names);
    if count == 0 {
        return None;
    }
    nth_other(excepted, names, (word % count as u64) as usize)
}

/// Returns the name that `word` chooses among the `names`, or `None` if there are none.
pub(crate) fn choose(names: &[NodeName], word: u64) -> Option<NodeName>
    ensures { result ≡ chosen word names.now }
{
    if names.is_empty() {
        return None;
    }
    Some(names[(word % names.len() as u64) as usize])
}
