//! The tree along which a message spread.
ghost use Rattle.std.specs.Prelude.{◌≡◌, [], ◌∷◌, ◌++◌, IfOk, OnOk, reverse};
ghost use Rattle.std.specs.List.{AllByRecursion as Each};
ghost use Rattle.world.specs.Rest.{IsParent};
ghost use Rattle.at_rest.specs.Tree.{LeadToOrigin, branches_from, branches_of, parent_by, sender_of, tree_of};

use crate::branch::Branch;
use node_names::{MsgId, Origin};
use protocol::{Core, Delivery};
use std::alloc::{AllocError, Allocator};
use world::{Entry, EventOf, Packet, World};

/// Returns the deliveries of a message, in their order, each with the node that it came from.
///
/// The parent of every branch except the origin's own has an earlier branch, so each branch leads to the origin.
/// Incarnations that have ended keep their branches.
pub fn tree<C: Core<A>, A: Allocator + Copy>(
    alloc: A,
    world: &World<C, A>,
    id: &MsgId,
) -> Result<Vec<Branch, A>, AllocError>
    ensures branches { IfOk result (λ tree. tree.items ≡ tree_of world.now.group.sent id.now (reverse world.now.log)) }
    ensures parents { IfOk result
        (λ tree. Each (λ b. IsParent world.now.group.sent (reverse world.now.log) b.node id.now b.parent) tree.items) }
    ensures leads { IfOk result (λ tree. LeadToOrigin id.now [] tree.items) }
{
    world.headline();
    branches(alloc, world.sent(), world.log(), id)
}

/// The branches of a log, in order.
fn branches<N, A: Allocator + Copy>(
    alloc: A,
    sent: &[Packet<N>],
    log: &[Entry<A>],
    id: &MsgId,
) -> Result<Vec<Branch, A>, AllocError>
    ensures { IfOk result (λ tree. tree.items ≡ tree_of sent.now id.now (reverse log.now)) }
{
    let mut tree = Vec::new(alloc);
    for entry in log {
        push_entry(&mut tree, sent, entry, id)?;
    }
    Ok(tree)
}

/// Appends the branches of an entry.
fn push_entry<N, A: Allocator + Copy>(
    tree: &mut Vec<Branch, A>,
    sent: &[Packet<N>],
    entry: &Entry<A>,
    id: &MsgId,
) -> Result<(), AllocError>
    ensures { OnOk result (tree.new.items ≡ tree.old.items ++ branches_of sent.now id.now entry.now) }
{
    push_branches(tree, entry.given.as_slice(), &parent_of(sent, entry), id)
}

/// Appends the branches of the message among deliveries that came from this parent.
fn push_branches<A: Allocator + Copy>(
    tree: &mut Vec<Branch, A>,
    given: &[Delivery<A>],
    parent: &Option<Origin>,
    id: &MsgId,
) -> Result<(), AllocError>
    ensures { OnOk result (tree.new.items ≡ tree.old.items ++ branches_from id.now parent.now given.now) }
{
    for delivery in given {
        push_branch(tree, delivery, parent, id)?;
    }
    Ok(())
}

/// Appends the branch of a delivery, if it is of the message.
fn push_branch<A: Allocator + Copy>(
    tree: &mut Vec<Branch, A>,
    delivery: &Delivery<A>,
    parent: &Option<Origin>,
    id: &MsgId,
) -> Result<(), AllocError>
    ensures { OnOk result (tree.new.items ≡ tree.old.items ++ branches_from id.now parent.now (delivery.now ∷ [])) }
{
    if *id != delivery.id {
        return Ok(());
    }
    tree.push(Branch {
        node: delivery.node,
        parent: *parent,
    })?;
    Ok(())
}

/// The sender that the deliveries of an entry came from, if a packet caused them.
pub(crate) fn parent_of<N, A: Allocator>(sent: &[Packet<N>], entry: &Entry<A>) -> Option<Origin>
    ensures { result ≡ parent_by sent.now entry.now.packet entry.now.event }
{
    match &entry.event {
        EventOf::Arrive { .. } => sender_of(sent, entry.packet),
        _ => None,
    }
}

/// The sender of the packet with this number.
fn sender_of<N>(sent: &[Packet<N>], number: Option<usize>) -> Option<Origin>
    ensures { result ≡ sender_of sent.now number }
{
    let packet = sent.get(number?)?;
    Some(packet.sender)
}
