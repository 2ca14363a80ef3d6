//! The lines that are printed for messages: whether the group is at rest for each, and its tree.
ghost use Rattle.std.specs.Prelude.{◌≡◌, [], ◌∷◌, ◌++◌, ℕ, List, map, IsPermutation};
ghost use Rattle.std.specs.Prelude.{IsSorted, IfOk, OnOk, string_bytes};
ghost use Rattle.std.specs.Io.KnownBytes.{Appends};
ghost use Rattle.node_names.specs.Order.{id_cmp};
ghost use Rattle.simulation.specs.Trees.{branch_line, branch_lines, broadcasts_of, rest_word, tree_lines, TellsTrees};

use crate::output::OutputError;
use at_rest::{Branch, Forest, Unrest};
use node_names::MsgId;
use protocol::{Core, Delivery};
use std::alloc::{AllocError, Allocator};
use std::io::Write;
use trace_text::push_origin;
use world::World;

/// Returns the messages that were broadcast, that is, delivered by their own origin, in the order of their ids.
pub fn broadcasts<A: Allocator + Copy>(
    alloc: A,
    deliveries: &[&Delivery<A>],
) -> Result<Vec<MsgId, A>, AllocError>
    ensures permutation { IfOk result
        (λ ids. IsPermutation (broadcasts_of (map (λ d. d.now) deliveries.now)) ids.items) }
    ensures sorted { IfOk result (λ ids. IsSorted id_cmp ids.items) }
{
    let mut ids = own_deliveries(alloc, deliveries)?;
    ids.sort_unstable();
    Ok(ids)
}

/// The messages that their own origin delivered, in the order of the deliveries.
fn own_deliveries<A: Allocator + Copy>(
    alloc: A,
    deliveries: &[&Delivery<A>],
) -> Result<Vec<MsgId, A>, AllocError>
    ensures { IfOk result (λ ids. ids.items ≡ broadcasts_of (map (λ d. d.now) deliveries.now)) }
{
    let mut ids = Vec::new(alloc);
    for delivery in deliveries {
        push_own(&mut ids, delivery)?;
    }
    Ok(ids)
}

/// Appends the id of a delivery, if the message's own origin made it.
fn push_own<A: Allocator + Copy>(
    ids: &mut Vec<MsgId, A>,
    delivery: &Delivery<A>,
) -> Result<(), AllocError>
    ensures { OnOk result (ids.new.items ≡ ids.old.items ++ broadcasts_of (delivery.now ∷ [])) }
{
    if delivery.node == delivery.id.origin {
        ids.push(delivery.id)?;
    }
    Ok(())
}

/// Writes the lines of each message, in one write each. `text` is a buffer for them.
pub fn write_trees<C: Core<A>, A: Allocator + Copy, W: Write>(
    alloc: A,
    text: &mut String<A>,
    group: &World<C, A>,
    ids: &[MsgId],
    out: &mut W,
) -> Result<(), OutputError>
    ensures { OnOk result ((written : List ℕ)
        × TellsTrees C.state C.Note.content group.now ids.now written
        × Appends (W.contents out.old) (W.contents out.new) written) }
{
    let forest = Forest::new(alloc, group)?;
    let unrest = Unrest::new(alloc, group)?;
    for id in ids {
        write_tree(text, id, unrest.is_at_rest(id), forest.tree(id), out)?;
    }
    Ok(out.flush()?)
}

/// Writes the lines of a message with this tree.
fn write_tree<A: Allocator, W: Write>(
    text: &mut String<A>,
    id: &MsgId,
    is_resting: bool,
    branches: &[Branch],
    out: &mut W,
) -> Result<(), OutputError>
    ensures { OnOk result
        (Appends (W.contents out.old) (W.contents out.new) (tree_lines id.now is_resting branches.now)) }
{
    text.clear();
    push_tree(text, id, is_resting, branches)?;
    Ok(out.write_all(text.as_bytes())?)
}

/// Appends the lines of a message.
fn push_tree<A: Allocator>(
    text: &mut String<A>,
    id: &MsgId,
    is_resting: bool,
    branches: &[Branch],
) -> Result<(), AllocError>
    ensures { OnOk result (string_bytes text.new ≡ string_bytes text.old ++ tree_lines id.now is_resting branches.now) }
{
    let rest = rest_word(is_resting);
    write!(text, "tree {id} rest {rest}\n")?;
    push_branches(text, branches)
}

/// Whether a group is at rest, as a word.
pub fn rest_word(is_resting: bool) -> &'static str
    ensures { result.now ≡ rest_word is_resting }
{
    if is_resting { "yes" } else { "no" }
}

/// Appends the lines of branches.
fn push_branches<A: Allocator>(text: &mut String<A>, branches: &[Branch]) -> Result<(), AllocError>
    ensures { OnOk result (string_bytes text.new ≡ string_bytes text.old ++ branch_lines branches.now) }
{
    for branch in branches {
        push_branch(text, branch)?;
    }
    Ok(())
}

/// Appends the line of a branch.
fn push_branch<A: Allocator>(text: &mut String<A>, branch: &Branch) -> Result<(), AllocError>
    ensures { OnOk result (string_bytes text.new ≡ string_bytes text.old ++ branch_line branch.now) }
{
    text.push_str("  ")?;
    push_origin(text, &branch.node)?;
    match &branch.parent {
        Some(parent) => {
            text.push_str(" <- ")?;
            push_origin(text, parent)?;
            text.push('\n')
        }
        None => text.push_str(" <- -\n"),
    }
}
