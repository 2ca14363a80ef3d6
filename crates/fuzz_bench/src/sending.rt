//! What waits in a node, and what it delivered, as text.
use crate::stepping_node::SteppingNode;
use node_names::NodeName;
use std::alloc::{AllocError, Global};

/// Appends bytes in hexadecimal digits.
fn push_hex(alloc: Global, text: &mut String, bytes: &[u8]) -> Result<(), AllocError> {
    let digits = hex::encode(alloc, bytes)?;
    text.push_str(digits.as_str())
}

/// Appends the first bytes of slices, `most` of them at most. Returns how many these are.
fn push_front(
    alloc: Global,
    text: &mut String,
    slices: &[&[u8]],
    most: usize,
) -> Result<usize, AllocError> {
    let mut count: usize = 0;
    for slice in slices {
        let left = slice.len().min(most.saturating_sub(count));
        if let Some(front) = slice.get(..left) {
            push_hex(alloc, text, front)?;
        }
        count = count.saturating_add(left);
    }
    Ok(count)
}

/// Appends all that waits for the name, and has it go out, `most` bytes at a time.
fn push_waiting<N: SteppingNode>(
    alloc: Global,
    text: &mut String,
    node: &mut N,
    name: &NodeName,
    most: usize,
) -> Result<(), AllocError> {
    for _ in 0..u64::MAX {
        let count = push_front(alloc, text, &node.transmit(name), most)?;
        if count == 0 {
            return Ok(());
        }
        node.transmitted(name, count);
    }
    Ok(())
}

/// Appends all that waits, by name, and has it go out, `most` bytes at a time.
pub(crate) fn push_sent<N: SteppingNode>(
    alloc: Global,
    text: &mut String,
    node: &mut N,
    most: usize,
) -> Result<(), AllocError> {
    text.push_str("sent")?;
    for name in &node.receivers()? {
        write!(text, " {name} ")?;
        push_waiting(alloc, text, node, name, most)?;
    }
    Ok(())
}

/// Appends what was delivered.
pub(crate) fn push_heard<N: SteppingNode>(
    alloc: Global,
    text: &mut String,
    node: &mut N,
) -> Result<(), AllocError> {
    text.push_str("heard")?;
    for delivery in &node.take_deliveries() {
        write!(text, " {} =", delivery.id)?;
        push_hex(alloc, text, delivery.payload.as_slice())?;
    }
    Ok(())
}

/// Appends the names for whom bytes were dropped.
pub(crate) fn push_lost<N: SteppingNode>(
    text: &mut String,
    node: &mut N,
) -> Result<(), AllocError> {
    text.push_str("lost")?;
    for name in &node.take_lost() {
        write!(text, " {name}")?;
    }
    Ok(())
}
