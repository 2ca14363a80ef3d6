//! What became of messages, at the end of a run.
ghost use Rattle.std.specs.Prelude.{◌≡◌, ◌++◌, IfOk, OnOk, string_bytes};
ghost use Rattle.std.specs.List.{list_any};
ghost use Rattle.node_names.specs.Same.{same_origin};
ghost use Rattle.node_names.specs.declared.ids.Origin.{Origin};
ghost use Rattle.world.specs.Group.{origin_of};
ghost use Rattle.trace_text.specs.Ends.{lacking_lines, lacking_unless, lacks_line, messages_text, rest_line, rest_word};

use crate::collected::text_of;
use crate::names::{push_id, push_origin};
use crate::nodes::run_of;
use crate::under_way::under_way;
use at_rest::{Branch, Forest, Unrest};
use indexmap::IndexSet;
use node_core::PlumCore;
use node_names::{MsgId, Origin};
use std::alloc::{AllocError, Allocator};
use std::hash::{BuildHasherDefault, FoldHasher};
use world::{NodeState, World};

/// A set of runs of nodes.
type Runs<A> = IndexSet<Origin, BuildHasherDefault<FoldHasher>, A>;

/// Appends the lines of each of these messages: whether the group is at rest for it, which running nodes have not
/// delivered it, and which packets in flight, queued announcements and timers are about it. The messages for which the
/// group is not at rest and the trees are those that were found for the group.
pub fn push_messages<A: Allocator + Copy>(
    text: &mut String<A>,
    world: &World<PlumCore<A>, A>,
    ids: &[MsgId],
    unrest: &Unrest<A>,
    forest: &Forest<A>,
) -> Result<(), AllocError>
    ensures { OnOk result
        (string_bytes text.new ≡ string_bytes text.old ++ messages_text world.now unrest.now forest.now ids.now) }
{
    let texts = under_way(*text.allocator(), world)?;
    for id in ids {
        let about = text_of(&texts, id);
        push_message(
            text,
            world,
            id,
            unrest.is_at_rest(id),
            forest.tree(id),
            about,
        )?;
    }
    Ok(())
}

/// Appends the lines of a message with these branches. `about` are the lines of what is under way about it.
fn push_message<A: Allocator + Copy>(
    text: &mut String<A>,
    world: &World<PlumCore<A>, A>,
    id: &MsgId,
    is_resting: bool,
    branches: &[Branch],
    about: &str,
) -> Result<(), AllocError>
    ensures { OnOk result (string_bytes text.new ≡ string_bytes text.old
        ++ (rest_line id.now is_resting ++ (lacking_lines branches.now world.now.group.nodes ++ about.now))) }
{
    push_rest(text, id, is_resting)?;
    push_lacking(text, branches, world.nodes())?;
    text.push_str(about)?;
    Ok(())
}

/// Appends the first line of a message.
fn push_rest<A: Allocator>(
    text: &mut String<A>,
    id: &MsgId,
    is_resting: bool,
) -> Result<(), AllocError>
    ensures { OnOk result (string_bytes text.new ≡ string_bytes text.old ++ rest_line id.now is_resting) }
{
    let rest = rest_word(is_resting);
    text.push_str("message ")?;
    push_id(text, id)?;
    write!(text, " rest {rest}\n")
}

/// Whether a group is at rest, as a word.
fn rest_word(is_resting: bool) -> &'static str
    ensures { result.now ≡ rest_word is_resting }
{
    if is_resting { "yes" } else { "no" }
}

/// Appends the lines of the running nodes that have not delivered the message with these branches.
fn push_lacking<A: Allocator + Copy>(
    text: &mut String<A>,
    branches: &[Branch],
    nodes: &[NodeState<PlumCore<A>>],
) -> Result<(), AllocError>
    ensures { OnOk result (string_bytes text.new ≡ string_bytes text.old ++ lacking_lines branches.now nodes.now) }
{
    let delivered = runs_of(*text.allocator(), branches)?;
    for node in nodes {
        let run = run_of(node);
        push_lacking_line(text, node, delivered.contains(&run))?;
    }
    Ok(())
}

/// Appends the line of a node, if it runs and has not delivered the message.
fn push_lacking_line<A: Allocator>(
    text: &mut String<A>,
    node: &NodeState<PlumCore<A>>,
    has_delivered: bool,
) -> Result<(), AllocError>
    ensures { OnOk result (string_bytes text.new
        ≡ string_bytes text.old ++ lacking_unless has_delivered (origin_of node.now) node.now.core) }
{
    if node.core.is_none() || has_delivered {
        return Ok(());
    }
    push_lacks(text, &run_of(node))
}

/// Appends the line of a run of a node that has not delivered a message.
fn push_lacks<A: Allocator>(text: &mut String<A>, node: &Origin) -> Result<(), AllocError>
    ensures { OnOk result (string_bytes text.new ≡ string_bytes text.old ++ lacks_line node.now) }
{
    text.push_str("  lacks ")?;
    push_origin(text, node)?;
    text.push('\n')
}

/// The runs that made deliveries.
fn runs_of<A: Allocator + Copy>(alloc: A, branches: &[Branch]) -> Result<Runs<A>, AllocError>
    ensures { IfOk result (λ runs.
        (run : Origin) → list_any (same_origin run) runs.keys ≡ list_any (λ b. same_origin b.node run) branches.now) }
{
    let mut runs = IndexSet::new(alloc);
    for branch in branches {
        runs.insert(branch.node)?;
    }
    Ok(runs)
}
