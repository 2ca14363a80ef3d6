//! What a node of bytes shows and gives, as text.
use node_names::NodeName;
use play_script::hexes::push_hex;
use play_script::lists::push_names;
use protocol::Core;
use std::alloc::{AllocError, Allocator};
use std::fmt::Write;
use wire_node::{Recorded, WireNode};

/// A node of bytes that keeps its steps.
pub(crate) type Node<A> = WireNode<A, Recorded<A>>;

/// Appends names behind a word, if there are any.
pub(crate) fn push_listed(
    text: &mut String,
    before: &str,
    names: &[NodeName],
) -> Result<(), AllocError> {
    if names.is_empty() {
        return Ok(());
    }
    text.push_str(before)?;
    push_names(text, names)?;
    text.push('\n')
}

/// Appends the first of the bytes that wait for a name, in their slices.
pub(crate) fn push_front(text: &mut String, slices: &[&[u8]]) -> Result<(), AllocError> {
    let mut is_first = true;
    for slice in slices {
        if slice.is_empty() {
            continue;
        }
        text.push_str(if is_first { "" } else { " | " })?;
        push_hex(text, slice)?;
        is_first = false;
    }
    text.push_str(if is_first { "nothing\n" } else { "\n" })
}

/// How many bytes slices have.
fn len_of(slices: &[&[u8]]) -> usize {
    let mut len: usize = 0;
    for slice in slices {
        len = len.saturating_add(slice.len());
    }
    len
}

/// Appends for whom bytes wait, and how many of them the next write takes.
fn push_waiting<A: Allocator + Copy>(text: &mut String, node: &Node<A>) -> Result<(), AllocError> {
    let names = node.receivers()?;
    for name in names.as_slice() {
        writeln!(text, "for {name}: {} bytes", len_of(&node.transmit(name)))?;
    }
    Ok(())
}

/// Appends how many ticks a node made, its core's active view, and what waits.
pub(crate) fn push_node<A: Allocator + Copy>(
    text: &mut String,
    node: &Node<A>,
) -> Result<(), AllocError> {
    if node.ticks() > 0 {
        writeln!(text, "ticks: {}", node.ticks())?;
    }
    text.push_str("active view:")?;
    for name in node.core().active() {
        write!(text, " {name}")?;
    }
    text.push('\n')?;
    push_waiting(text, node)
}
