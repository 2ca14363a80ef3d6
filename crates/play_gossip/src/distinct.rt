//! Whether names are distinct.
ghost use Rattle.std.specs.Prelude.{◌≡◌, true};
ghost use Rattle.std.specs.List.{IsDistinct};
ghost use Rattle.node_names.specs.Same.{same_name};
ghost use Rattle.protocol.specs.Peers.{are_distinct};

use node_names::{NodeName, has_name};

/// Returns whether each name is in the list once.
fn is_each_once(names: &[NodeName]) -> bool
    ensures { result ≡ are_distinct names.now }
{
    match names {
        [] => true,
        [name, others @ ..] => !has_name(others, name) && is_each_once(others),
    }
}

/// Returns whether no name is in the list twice.
#[tactic(auto, using(crate::proofs::NameLists::distinct))]
pub(crate) fn are_distinct(names: &[NodeName]) -> bool
    ensures { result ≡ true → IsDistinct same_name names.now }
{
    is_each_once(names)
}
