//! Draws the parts of messages: their trees, the nodes that lack them, and the packets in flight.
ghost use Rattle.std.specs.Prelude.{◌≡◌, ◌++◌, ℕ, List, IfOk, OnOk, string_bytes};
ghost use Rattle.std.specs.List.{list_any};
ghost use Rattle.node_names.specs.Same.{same_origin};
ghost use Rattle.node_names.specs.declared.ids.MsgId.{MsgId as Id};
ghost use Rattle.node_names.specs.declared.ids.Origin.{Origin as Run};
ghost use Rattle.simulation.specs.Flights.{about, numbers_at};
ghost use Rattle.simulation.specs.Graph.{crown_lines, edge_line, head_text, lacking_lines, lacking_lines_of};
ghost use Rattle.simulation.specs.Graph.{opening_text, part_text, rest_text, title_text, twig_lines, DrawsPart};
ghost use Rattle.simulation.specs.Turns.{InTurn};

use super::flights::{Flights, flights_of};
use super::flying::push_flying;
use super::runs::push_between;
use crate::trees::rest_word;
use at_rest::{Branch, Forest, Unrest};
use indexmap::IndexSet;
use node_core::PlumCore;
use node_names::{MsgId, Origin};
use std::alloc::{AllocError, Allocator};
use std::hash::{BuildHasherDefault, FoldHasher};
use world::{NodeState, World};

/// Appends the part of each message.
pub fn push_trees<A: Allocator + Copy>(
    alloc: A,
    text: &mut String<A>,
    group: &World<PlumCore<A>, A>,
    messages: &[MsgId],
) -> Result<(), AllocError>
    ensures { OnOk result ((parts : List ℕ)
        × InTurn (DrawsPart group.now) messages.now parts
        × (string_bytes text.new ≡ string_bytes text.old ++ parts)) }
{
    let forest = Forest::new(alloc, group)?;
    let unrest = Unrest::new(alloc, group)?;
    let flights = flights_of(alloc, group)?;
    for id in messages {
        push_part(
            text,
            id,
            unrest.is_at_rest(id),
            forest.tree(id),
            group,
            &flights,
        )?;
    }
    Ok(())
}

/// Appends the part of a message with this tree.
fn push_part<A: Allocator + Copy>(
    text: &mut String<A>,
    id: &MsgId,
    is_resting: bool,
    branches: &[Branch],
    group: &World<PlumCore<A>, A>,
    flights: &Flights<A>,
) -> Result<(), AllocError>
    requires { (q : Id) → numbers_at q flights.now.entries ≡ about q group.now.group.sent group.now.group.flight }
    ensures { OnOk result
        (string_bytes text.new ≡ string_bytes text.old ++ part_text id.now is_resting branches.now group.now.group) }
{
    push_head(text, id, is_resting)?;
    push_crown(text, id, branches)?;
    push_lacking(text, id, branches, group)?;
    push_flying(text, id, group, flights)?;
    text.push_str("  }\n")
}

/// Appends the beginning of the part of a message.
#[tactic(auto, unfolding(crate::specs::Graph::head_text))]
fn push_head<A: Allocator>(
    text: &mut String<A>,
    id: &MsgId,
    is_resting: bool,
) -> Result<(), AllocError>
    ensures { OnOk result (string_bytes text.new ≡ string_bytes text.old ++ head_text id.now is_resting) }
{
    push_opening(text, id)?;
    push_title(text, id, is_resting)
}

/// Appends the first line of the part of a message.
fn push_opening<A: Allocator>(text: &mut String<A>, id: &MsgId) -> Result<(), AllocError>
    ensures { OnOk result (string_bytes text.new ≡ string_bytes text.old ++ opening_text id.now) }
{
    write!(text, "  subgraph \"cluster {id}\" {{\n")
}

/// Appends the label of the part of a message.
fn push_title<A: Allocator>(
    text: &mut String<A>,
    id: &MsgId,
    is_resting: bool,
) -> Result<(), AllocError>
    ensures { OnOk result (string_bytes text.new ≡ string_bytes text.old ++ title_text id.now is_resting) }
{
    write!(text, "    label = \"{id}")?;
    push_rest(text, is_resting)
}

/// Appends the end of the label.
#[tactic(auto, unfolding(crate::specs::Graph::rest_text))]
fn push_rest<A: Allocator>(text: &mut String<A>, is_resting: bool) -> Result<(), AllocError>
    ensures { OnOk result (string_bytes text.new ≡ string_bytes text.old ++ rest_text is_resting) }
{
    text.push_str(" rest ")?;
    text.push_str(rest_word(is_resting))?;
    text.push_str("\";\n")
}

/// Appends the lines of deliveries.
fn push_crown<A: Allocator>(
    text: &mut String<A>,
    id: &MsgId,
    branches: &[Branch],
) -> Result<(), AllocError>
    ensures { OnOk result (string_bytes text.new ≡ string_bytes text.old ++ crown_lines id.now branches.now) }
{
    for branch in branches {
        push_twig(text, id, branch)?;
    }
    Ok(())
}

/// Appends the lines of a delivery.
fn push_twig<A: Allocator>(
    text: &mut String<A>,
    id: &MsgId,
    branch: &Branch,
) -> Result<(), AllocError>
    ensures { OnOk result (string_bytes text.new ≡ string_bytes text.old ++ twig_lines id.now branch.now) }
{
    let node = branch.node;
    write!(text, "    \"{id} {node}\" [label = \"{node}\"];\n")?;
    push_edge(text, id, &node, &branch.parent)
}

/// Appends the arrow of a delivery, if it has a parent.
fn push_edge<A: Allocator>(
    text: &mut String<A>,
    id: &MsgId,
    node: &Origin,
    parent: &Option<Origin>,
) -> Result<(), AllocError>
    ensures { OnOk result (string_bytes text.new ≡ string_bytes text.old ++ edge_line id.now node.now parent.now) }
{
    match parent {
        Some(parent) => {
            push_between(text, id, parent, node)?;
            text.push_str(" [style = bold];\n")
        }
        None => Ok(()),
    }
}

/// The runs of nodes that delivered a message.
type Runs<A> = IndexSet<Origin, BuildHasherDefault<FoldHasher>, A>;

/// The runs that made these deliveries.
fn runs_of<A: Allocator + Copy>(alloc: A, branches: &[Branch]) -> Result<Runs<A>, AllocError>
    ensures { IfOk result
        (λ runs. (o : Run) → list_any (same_origin o) runs.keys ≡ list_any (λ b. same_origin b.node o) branches.now) }
{
    let mut runs = IndexSet::new(alloc);
    for branch in branches {
        runs.insert(branch.node)?;
    }
    Ok(runs)
}

/// Appends the lines of the running nodes of a group that have not delivered the message.
fn push_lacking<A: Allocator + Copy>(
    text: &mut String<A>,
    id: &MsgId,
    branches: &[Branch],
    group: &World<PlumCore<A>, A>,
) -> Result<(), AllocError>
    ensures { OnOk result
        (string_bytes text.new ≡ string_bytes text.old ++ lacking_lines id.now branches.now group.now.group.nodes) }
{
    let delivered = runs_of(*text.allocator(), branches)?;
    push_each_lacking(text, id, branches, &delivered, group.nodes())
}

/// Appends the lines of those of these nodes that run and have not delivered the message.
fn push_each_lacking<A: Allocator>(
    text: &mut String<A>,
    id: &MsgId,
    branches: &[Branch],
    delivered: &Runs<A>,
    nodes: &[NodeState<PlumCore<A>>],
) -> Result<(), AllocError>
    requires { (o : Run)
        → list_any (same_origin o) delivered.now.keys ≡ list_any (λ b. same_origin b.node o) branches.now }
    ensures { OnOk result
        (string_bytes text.new ≡ string_bytes text.old ++ lacking_lines id.now branches.now nodes.now) }
{
    for node in nodes {
        push_if_lacking(text, id, branches, delivered, node)?;
    }
    Ok(())
}

/// Appends the line of a node, if it runs and has not delivered the message.
fn push_if_lacking<A: Allocator>(
    text: &mut String<A>,
    id: &MsgId,
    branches: &[Branch],
    delivered: &Runs<A>,
    node: &NodeState<PlumCore<A>>,
) -> Result<(), AllocError>
    requires { (o : Run)
        → list_any (same_origin o) delivered.now.keys ≡ list_any (λ b. same_origin b.node o) branches.now }
    ensures { OnOk result (string_bytes text.new ≡ string_bytes text.old ++ lacking_lines_of id.now branches.now
        (record { name = node.now.name; incarnation = node.now.highest }) node.now.core) }
{
    let origin = Origin {
        name: node.name,
        incarnation: node.highest,
    };
    if node.core.is_none() || has_delivered(branches, delivered, &origin) {
        return Ok(());
    }
    write!(
        text,
        "    \"{id} {origin}\" [label = \"{origin}\", style = dotted];\n"
    )
}

/// Whether one of the deliveries, whose runs are given too, was made by this run.
fn has_delivered<A: Allocator>(_branches: &[Branch], delivered: &Runs<A>, node: &Origin) -> bool
    requires { (o : Run)
        → list_any (same_origin o) delivered.now.keys ≡ list_any (λ b. same_origin b.node o) _branches.now }
    ensures { result ≡ list_any (λ b. same_origin b.node node.now) _branches.now }
{
    delivered.contains(node)
}
