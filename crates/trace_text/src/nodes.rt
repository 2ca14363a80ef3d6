//! Prints the nodes at the end of a run.
ghost use Rattle.std.specs.Prelude.{◌≡◌, ◌++◌, OnOk, string_bytes};
ghost use Rattle.world.specs.Group.{origin_of};
ghost use Rattle.trace_text.specs.Ends.{node_line, node_lines, nodes_text, state_text};

use crate::names::push_origin;
use crate::touched::Touched;
use node_core::PlumCore;
use node_names::Origin;
use std::alloc::{AllocError, Allocator};
use world::{NodeState, World};

/// Appends a line for each node of a group: its last run, and all parts of its state if it runs.
pub fn push_nodes<A: Allocator + Copy>(
    text: &mut String<A>,
    world: &World<PlumCore<A>, A>,
) -> Result<(), AllocError>
    ensures { OnOk result (string_bytes text.new ≡ string_bytes text.old ++ nodes_text world.now) }
{
    let alloc = *text.allocator();
    push_lines(alloc, text, world.nodes())
}

/// Appends the lines of nodes.
fn push_lines<A: Allocator + Copy>(
    alloc: A,
    text: &mut String<A>,
    nodes: &[NodeState<PlumCore<A>>],
) -> Result<(), AllocError>
    ensures { OnOk result (string_bytes text.new ≡ string_bytes text.old ++ node_lines nodes.now) }
{
    for node in nodes {
        push_line(alloc, text, node)?;
    }
    Ok(())
}

/// Appends the line of a node.
fn push_line<A: Allocator + Copy>(
    alloc: A,
    text: &mut String<A>,
    node: &NodeState<PlumCore<A>>,
) -> Result<(), AllocError>
    ensures { OnOk result (string_bytes text.new ≡ string_bytes text.old ++ node_line node.now) }
{
    let run = run_of(node);
    text.push_str("node ")?;
    push_origin(text, &run)?;
    push_state(alloc, text, &node.core)?;
    text.push('\n')
}

/// Appends the state of a node.
fn push_state<A: Allocator + Copy>(
    alloc: A,
    text: &mut String<A>,
    core: &Option<PlumCore<A>>,
) -> Result<(), AllocError>
    ensures { OnOk result (string_bytes text.new ≡ string_bytes text.old ++ state_text core.now) }
{
    match core {
        Some(core) => Touched::of_core(alloc, core)?.push_all(text),
        None => text.push_str(" stopped"),
    }
}

/// The current or last run of a node.
pub fn run_of<C>(node: &NodeState<C>) -> Origin
    ensures { result ≡ origin_of node.now }
{
    Origin {
        name: node.name,
        incarnation: node.highest,
    }
}
