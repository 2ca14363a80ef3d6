//! Names for whom nothing waits and that are no peers: what is kept for them is dropped where it becomes much.
ghost use Rattle.std.specs.Prelude.{◌≡◌, [], IfSome, length};
ghost use Rattle.node_names.specs.NodeName.{Name};
ghost use Rattle.wire_node.specs.Acting.{AreSettled};
ghost use Rattle.wire_node.specs.Waiting.{settled_for};

use crate::downs::forget;
use crate::drafts::{Entry, place_of};
use node_names::{NameSet, NodeName};
use std::alloc::Allocator;

/// How many bytes wait for the name.
pub(crate) fn waiting_for<A: Allocator + Copy>(entries: &Vec<Entry<A>, A>, name: &NodeName) -> usize
    ensures { result ≡ length (settled_for entries.now.items name.now) }
{
    match place_of(entries, name) {
        Some(place) => entries[place].len(),
        None => 0,
    }
}

/// A name for whom nothing waits and that is none of the peers.
fn idle_name<A: Allocator + Copy>(
    entries: &Vec<Entry<A>, A>,
    peers: &NameSet<A>,
) -> Option<NodeName>
    ensures { IfSome result (λ name. length (settled_for entries.now.items name) ≡ 0) }
{
    for entry in entries.as_slice() {
        let name = entry.name();
        if !peers.contains(&name) && waiting_for(entries, &name) == 0 {
            return Some(name);
        }
    }
    None
}

/// Drops the entries of names for whom nothing waits, but for those of the peers.
pub(crate) fn drop_idle<A: Allocator + Copy>(entries: &mut Vec<Entry<A>, A>, peers: &NameSet<A>)
    requires { AreSettled entries.old.items }
    ensures settled { AreSettled entries.new.items }
    ensures same { (name : Name) → settled_for entries.new.items name ≡ settled_for entries.old.items name }
{
    for _ in 0..entries.len() {
        let Some(name) = idle_name(entries, peers) else {
            return;
        };
        forget(entries, &name);
    }
}
