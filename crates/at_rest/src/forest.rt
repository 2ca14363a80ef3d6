//! The trees along which all messages spread.
ghost use Rattle.std.specs.Prelude.{◌≡◌, [], ◌∷◌, ◌++◌, IfOk, OnOk, reverse};
ghost use Rattle.node_names.specs.declared.ids.MsgId.{MsgId};
ghost use Rattle.at_rest.specs.Forest.{branches_at};
ghost use Rattle.at_rest.specs.Tree.{branches_from, branches_of, tree_of};

use crate::branch::Branch;
use crate::trees::parent_of;
use indexmap::IndexMap;
use node_names::{Listed, MsgId, Origin};
use protocol::{Core, Delivery};
use std::alloc::{AllocError, Allocator, Global};
use std::hash::{BuildHasherDefault, FoldHasher};
use std::marker::Model;
use world::{Entry, Packet, World};

/// The branches of each message.
type Lists<A> = IndexMap<MsgId, Listed<Branch, A>, BuildHasherDefault<FoldHasher>, A>;

/// The trees of all messages of a group, as it stood when they were found.
///
/// A contract sees it as the branches that are listed for each message.
#[derive(Drop)]
pub struct Forest<A: Allocator = Global> {
    lists: Lists<A>,
}

impl<A: Allocator> Model for Forest<A> {
    ghost use Rattle.std.specs.Prelude.{List};
    ghost use Rattle.node_names.specs.declared.ids.MsgId.{MsgId};
    ghost use Rattle.at_rest.specs.declared.branch.Branch.{Branch};

    ghost Value = { List (MsgId × List Branch) };

    ghost view = { λ f. f.lists.entries };
}

impl<A: Allocator + Copy> Forest<A> {
    /// Finds the tree of every message in one pass over the log.
    pub fn new<C: Core<A>>(alloc: A, world: &World<C, A>) -> Result<Forest<A>, AllocError>
        ensures { IfOk result
            (λ forest. (id : MsgId) → branches_at id forest ≡ tree_of world.now.group.sent id (reverse world.now.log)) }
    {
        let lists = lists(alloc, world.sent(), world.log())?;
        Ok(Forest { lists })
    }

    /// The branches of the message, as `tree` finds them.
    pub fn tree(&self, id: &MsgId) -> &[Branch]
        ensures { result.now ≡ branches_at id.now self.now }
    {
        match self.lists.get(id) {
            Some(branches) => branches.as_slice(),
            None => &[],
        }
    }
}

/// The branches of a log.
fn lists<N, A: Allocator + Copy>(
    alloc: A,
    sent: &[Packet<N>],
    log: &[Entry<A>],
) -> Result<Lists<A>, AllocError>
    ensures { IfOk result
        (λ lists. (id : MsgId) → branches_at id lists.entries ≡ tree_of sent.now id (reverse log.now)) }
{
    let mut lists = IndexMap::new(alloc);
    for entry in log {
        push_entry(alloc, &mut lists, sent, entry)?;
    }
    Ok(lists)
}

/// Appends the branches of an entry.
fn push_entry<N, A: Allocator + Copy>(
    alloc: A,
    lists: &mut Lists<A>,
    sent: &[Packet<N>],
    entry: &Entry<A>,
) -> Result<(), AllocError>
    ensures { OnOk result ((id : MsgId)
        → branches_at id lists.new.entries ≡ branches_at id lists.old.entries ++ branches_of sent.now id entry.now) }
{
    let parent = parent_of(sent, entry);
    push_all(alloc, lists, entry.given.as_slice(), &parent)
}

/// Appends the branches of deliveries that came from this parent.
fn push_all<A: Allocator + Copy>(
    alloc: A,
    lists: &mut Lists<A>,
    given: &[Delivery<A>],
    parent: &Option<Origin>,
) -> Result<(), AllocError>
    ensures { OnOk result ((id : MsgId) → branches_at id lists.new.entries
        ≡ branches_at id lists.old.entries ++ branches_from id parent.now given.now) }
{
    for delivery in given {
        push(alloc, lists, delivery, parent)?;
    }
    Ok(())
}

/// Appends the branch of a delivery.
fn push<A: Allocator + Copy>(
    alloc: A,
    lists: &mut Lists<A>,
    delivery: &Delivery<A>,
    parent: &Option<Origin>,
) -> Result<(), AllocError>
    ensures { OnOk result ((id : MsgId) → branches_at id lists.new.entries
        ≡ branches_at id lists.old.entries ++ branches_from id parent.now (delivery.now ∷ [])) }
{
    let branch = Branch {
        node: delivery.node,
        parent: *parent,
    };
    match lists.get_mut(&delivery.id) {
        Some(list) => list.push(branch),
        None => {
            let mut list = Listed::new(alloc);
            list.push(branch)?;
            lists.insert(delivery.id, list)?;
            Ok(())
        }
    }
}
