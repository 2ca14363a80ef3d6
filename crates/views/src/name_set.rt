//! Choosing, removing and adding names of a view by words of the dice.
ghost use Rattle.std.specs.Prelude.{◌≡◌, ◌+◌, ◌%◌, ◌<◌, ◌≤◌, [], ◌∷◌, ◌++◌, false, IsTrue, length};
ghost use Rattle.indexmap.specs.IndexSet.{spare};
ghost use Rattle.node_names.specs.Same.{has_name};
ghost use Rattle.views.specs.Names.{chosen, evicted, with_room, without_chosen};

use node_names::{NameSet, NodeName};
use std::alloc::Allocator;

/// Returns the index that `word` chooses, `word % candidates`, where `candidates` is their number.
pub(crate) fn place(word: u64, candidates: usize) -> usize
    requires { 0 < candidates }
    ensures value { result ≡ word % candidates }
    ensures within { result < candidates }
{
    (word % candidates as u64) as usize
}

/// Returns the name that `word` chooses, or `None` if there are no names.
pub(crate) fn chosen<A: Allocator>(names: &NameSet<A>, word: u64) -> Option<NodeName>
    ensures { result ≡ chosen word names.now.keys }
{
    if names.is_empty() {
        return None;
    }
    names.get_index(place(word, names.len())).copied()
}

/// Removes and returns the name that `word` chooses, or returns `None` if there are no names.
pub(crate) fn take_chosen<A: Allocator>(names: &mut NameSet<A>, word: u64) -> Option<NodeName>
    ensures name { result ≡ chosen word names.old.keys }
    ensures left { names.new.keys ≡ without_chosen word names.old.keys }
    ensures room { spare names.old ≤ spare names.new }
{
    if names.is_empty() {
        return None;
    }
    let at = place(word, names.len());
    names.shift_remove_index(at)
}

/// Removes and returns the name that `word` chooses if the names fill all `places`. Otherwise returns `None` and
/// changes nothing.
pub(crate) fn make_room<A: Allocator>(
    names: &mut NameSet<A>,
    places: u8,
    word: u64,
) -> Option<NodeName>
    ensures name { result ≡ evicted places word names.old.keys }
    ensures left { names.new.keys ≡ with_room places word names.old.keys }
    ensures room { spare names.old ≤ spare names.new }
{
    if names.len() < usize::from(places) {
        return None;
    }
    take_chosen(names, word)
}

/// Appends `name`, which is not in the set, without allocating.
pub(crate) fn put_last<A: Allocator>(names: &mut NameSet<A>, name: NodeName)
    requires room { 0 < spare names.old }
    requires absent { has_name names.old.keys name ≡ false }
    ensures keys { names.new.keys ≡ names.old.keys ++ name ∷ [] }
    ensures room { spare names.old ≤ spare names.new + 1 }
{
    let _ = names.insert(name).unwrap();
}
