//! Writes a group as a Graphviz document: the links that its nodes have, and each message's tree.
ghost use Rattle.std.specs.Prelude.{◌≡◌, ◌++◌, ℕ, List, OnOk, string_bytes};
ghost use Rattle.std.specs.Io.KnownBytes.{Appends};
ghost use Rattle.simulation.specs.Graph.{DrawsGroup};

mod flights;
mod flying;
mod overlay;
mod parts;
mod runs;

use crate::output::OutputError;
use node_core::PlumCore;
use node_names::MsgId;
use std::alloc::{AllocError, Allocator};
use std::io::Write;
use world::World;

/// Writes the document: each node with its incarnation, eager links as plain arrows, lazy links as dashed arrows, and
/// stopped nodes dotted; and for each message whether the group is at rest for it, the edges of its tree in bold, and
/// the running nodes that have not delivered it dotted. The whole document is written in one write. It is stated as a
/// whole text, since a drawing that leaves out a link says something false.
pub fn write_graph<A: Allocator + Copy, W: Write>(
    alloc: A,
    group: &World<PlumCore<A>, A>,
    messages: &[MsgId],
    out: &mut W,
) -> Result<(), OutputError>
    ensures { OnOk result ((text : List ℕ)
        × DrawsGroup group.now messages.now text
        × Appends (W.contents out.old) (W.contents out.new) text) }
{
    let mut text = String::new(alloc);
    push_graph(alloc, &mut text, group, messages)?;
    out.write_all(text.as_bytes())?;
    Ok(out.flush()?)
}

/// Appends the document.
fn push_graph<A: Allocator + Copy>(
    alloc: A,
    text: &mut String<A>,
    group: &World<PlumCore<A>, A>,
    messages: &[MsgId],
) -> Result<(), AllocError>
    ensures { OnOk result ((drawn : List ℕ)
        × DrawsGroup group.now messages.now drawn
        × (string_bytes text.new ≡ string_bytes text.old ++ drawn)) }
{
    text.push_str(
        "digraph plumtree {\n  rankdir = LR;\n  subgraph \"cluster overlay\" {\n    label = \"overlay\";\n",
    )?;
    overlay::push_overlay(text, group)?;
    text.push_str("  }\n")?;
    parts::push_trees(alloc, text, group, messages)?;
    text.push_str("}\n")?;
    Ok(())
}
