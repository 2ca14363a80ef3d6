//! The check of the peers and the contact that a node starts with.
ghost use Rattle.std.specs.Prelude.{◌≡◌, length};
ghost use Rattle.protocol.specs.Peers.{are_distinct, are_peers, is_contact};

use node_names::{Limits, NodeName, has_name};

/// Returns whether no name is in the list twice. It compares each name with all later ones, so it is meant for short
/// lists.
fn are_distinct(names: &[NodeName]) -> bool
    ensures { result ≡ are_distinct names.now }
{
    match names {
        [] => true,
        [name, others @ ..] => !has_name(others, name) && are_distinct(others),
    }
}

/// Returns whether the contact is this name.
fn is_contact(contact: &Option<NodeName>, name: &NodeName) -> bool
    ensures { result ≡ is_contact contact.now name.now }
{
    match contact {
        Some(contact) => contact == name,
        None => false,
    }
}

/// Returns whether the node `owner` may start with these peers and this contact: the peers fit its active view, are
/// distinct and do not include `owner`, and the contact is not `owner`.
pub fn are_peers(
    limits: &Limits,
    owner: &NodeName,
    peers: &[NodeName],
    contact: &Option<NodeName>,
) -> bool
    ensures { result ≡ are_peers limits.now owner.now peers.now contact.now }
{
    peers.len() <= usize::from(limits.active())
        && are_distinct(peers)
        && !has_name(peers, owner)
        && !is_contact(contact, owner)
}
