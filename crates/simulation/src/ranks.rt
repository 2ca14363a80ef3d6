//! The ranks of nodes and messages: small numbers to sort by.
ghost use Rattle.std.specs.Prelude.{◌≡◌, All, Contains, IsSorted, IfOk, OnOk};
ghost use Rattle.indexmap.specs.IndexSet.{insert_key};
ghost use Rattle.simulation.specs.Lines.{msg_id_cmp, origin_cmp};
ghost use Rattle.simulation.specs.Ranks.{rank_in};
ghost use Rattle.node_names.specs.Same.{same_id, same_origin};

use indexmap::IndexSet;
use node_names::{MsgId, Origin};
use protocol::Delivery;
use std::alloc::{AllocError, Allocator};
use std::hash::{BuildHasherDefault, FoldHasher};

/// Distinct values in ascending order, so that a value's index is its rank.
pub type Ranks<T, A> = IndexSet<T, BuildHasherDefault<FoldHasher>, A>;

/// Ranks the nodes that made these deliveries.
pub fn nodes<A: Allocator + Copy>(
    alloc: A,
    deliveries: &[&Delivery<A>],
) -> Result<Ranks<Origin, A>, AllocError>
    ensures sorted { IfOk result (λ nodes. IsSorted origin_cmp nodes.keys) }
    ensures all { IfOk result (λ nodes. All (λ d. Contains nodes.keys d.now.node) deliveries.now) }
{
    let mut nodes = IndexSet::new(alloc);
    for delivery in deliveries {
        nodes.insert(delivery.node)?;
    }
    nodes.sort()?;
    Ok(nodes)
}

/// Ranks the messages that were delivered.
pub fn messages<A: Allocator + Copy>(
    alloc: A,
    deliveries: &[&Delivery<A>],
) -> Result<Ranks<MsgId, A>, AllocError>
    ensures sorted { IfOk result (λ ids. IsSorted msg_id_cmp ids.keys) }
    ensures all { IfOk result (λ ids. All (λ d. Contains ids.keys d.now.id) deliveries.now) }
{
    let mut ids = IndexSet::new(alloc);
    for delivery in deliveries {
        add_message(&mut ids, &delivery.id)?;
    }
    ids.sort()?;
    Ok(ids)
}

/// Adds a message. Most deliveries are of the message that was added last, which is recognized without hashing.
fn add_message<A: Allocator + Copy>(ids: &mut Ranks<MsgId, A>, id: &MsgId) -> Result<(), AllocError>
    ensures { OnOk result (ids.new.keys ≡ insert_key same_id ids.old.keys id.now) }
{
    if ids.last() == Some(id) {
        return Ok(());
    }
    ids.insert(*id)?;
    Ok(())
}

/// The rank of a node, or 0 if it has none.
pub fn rank_of_node<A: Allocator>(nodes: &Ranks<Origin, A>, node: &Origin) -> usize
    ensures { result ≡ rank_in same_origin nodes.now.keys node.now }
{
    nodes.get_index_of(node).unwrap_or(0)
}

/// The rank of a message, or 0 if it has none.
pub fn rank_of_message<A: Allocator>(ids: &Ranks<MsgId, A>, id: &MsgId) -> usize
    ensures { result ≡ rank_in same_id ids.now.keys id.now }
{
    ids.get_index_of(id).unwrap_or(0)
}
