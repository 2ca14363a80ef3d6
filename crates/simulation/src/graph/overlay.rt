//! Draws the nodes, and the links of the running ones.
ghost use Rattle.std.specs.Prelude.{◌≡◌, ◌++◌, OnOk, string_bytes};
ghost use Rattle.simulation.specs.Graph.{link_line, link_lines, node_lines, overlay_lines, style_text};

use node_core::PlumCore;
use node_names::{NodeName, Origin};
use peer_sets::{Member, PeerKind};
use std::alloc::{AllocError, Allocator};
use world::{NodeState, World};

/// Appends the lines of the nodes of a group.
pub fn push_overlay<A: Allocator + Copy>(
    text: &mut String<A>,
    group: &World<PlumCore<A>, A>,
) -> Result<(), AllocError>
    ensures { OnOk result (string_bytes text.new ≡ string_bytes text.old ++ overlay_lines group.now.group.nodes) }
{
    push_nodes(text, group.nodes())
}

/// Appends the lines of nodes.
fn push_nodes<A: Allocator>(
    text: &mut String<A>,
    nodes: &[NodeState<PlumCore<A>>],
) -> Result<(), AllocError>
    ensures { OnOk result (string_bytes text.new ≡ string_bytes text.old ++ overlay_lines nodes.now) }
{
    for node in nodes {
        let run = Origin {
            name: node.name,
            incarnation: node.highest,
        };
        push_node(text, &run, &node.core)?;
    }
    Ok(())
}

/// Appends the lines of a node.
fn push_node<A: Allocator>(
    text: &mut String<A>,
    node: &Origin,
    core: &Option<PlumCore<A>>,
) -> Result<(), AllocError>
    ensures { OnOk result (string_bytes text.new ≡ string_bytes text.old ++ node_lines node.now core.now) }
{
    let name = node.name;
    match core {
        Some(core) => {
            write!(text, "    \"{name}\" [label = \"{node}\"];\n")?;
            push_links(text, &name, core.peers().members())
        }
        None => write!(
            text,
            "    \"{name}\" [label = \"{node} stopped\", style = dotted];\n"
        ),
    }
}

/// Appends the lines of links.
fn push_links<A: Allocator>(
    text: &mut String<A>,
    name: &NodeName,
    members: &[Member],
) -> Result<(), AllocError>
    ensures { OnOk result (string_bytes text.new ≡ string_bytes text.old ++ link_lines name.now members.now) }
{
    for member in members {
        push_link(text, name, member)?;
    }
    Ok(())
}

/// Appends the line of a link.
fn push_link<A: Allocator>(
    text: &mut String<A>,
    name: &NodeName,
    member: &Member,
) -> Result<(), AllocError>
    ensures { OnOk result (string_bytes text.new ≡ string_bytes text.old ++ link_line name.now member.now) }
{
    let style = style_text(member.1);
    write!(text, "    \"{name}\" -> \"{}\"{style}", member.0)
}

/// The style of a link.
fn style_text(kind: PeerKind) -> &'static str
    ensures { result.now ≡ style_text kind }
{
    match kind {
        PeerKind::Eager => ";\n",
        PeerKind::Lazy => " [style = dashed];\n",
    }
}
