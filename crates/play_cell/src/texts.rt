//! What a node with its links shows and gives, as text.
use crate::cell_layer::Cell;
use frames::decode;
use node_threads::{Applied, Outlet};
use play_script::bodies::push_body;
use play_script::lists::{push_ids, push_names};
use protocol::Core;
use std::alloc::{AllocError, Allocator};
use std::fmt::Write;

/// Appends what a step answered: its place, the message that it broadcast, and the links that had no room or are
/// missing.
pub(crate) fn push_applied<A: Allocator>(
    said: &mut String,
    applied: &Applied<A>,
) -> Result<(), AllocError> {
    write!(said, "step {}", applied.place)?;
    if let Some(id) = &applied.id {
        write!(said, ", message {id}")?;
    }
    said.push('\n')?;
    if !applied.full.is_empty() {
        said.push_str("full:")?;
        push_names(said, applied.full.as_slice())?;
        said.push('\n')?;
    }
    if !applied.unlinked.is_empty() {
        said.push_str("no link:")?;
        push_names(said, applied.unlinked.as_slice())?;
        said.push('\n')?;
    }
    Ok(())
}

/// Appends a frame by its bytes: how many they are, its sender, its number and its body.
pub(crate) fn push_frame(said: &mut String, bytes: &[u8]) -> Result<(), AllocError> {
    let alloc = *said.allocator();
    match decode(alloc, bytes) {
        Ok((frame, len)) => {
            write!(said, "{len} bytes: {} {} ", frame.sender(), frame.number())?;
            push_body(said, frame.body())?;
            if len != bytes.len() {
                write!(said, ", and {} bytes more", bytes.len().saturating_sub(len))?;
            }
            said.push('\n')
        }
        Err(fault) => writeln!(said, "{} bytes: {fault}", bytes.len()),
    }
}

/// Appends how many steps a node made, and how many of them it forgot, the deliveries that wait, and its core's active
/// view and queue.
pub(crate) fn push_cell<A: Allocator + Copy>(
    text: &mut String,
    cell: &Cell<A>,
) -> Result<(), AllocError> {
    let mark = if cell.is_shut() { ", shut" } else { "" };
    write!(text, "steps: {}{mark}", cell.steps_made())?;
    if let Some(since) = cell.since() {
        write!(text, ", {since} forgotten")?;
    }
    text.push_str("\nactive view:")?;
    for name in cell.core().active() {
        write!(text, " {name}")?;
    }
    text.push('\n')?;
    if !cell.core().queued().is_empty() {
        writeln!(text, "queued announcements: {}", cell.core().queued().len())?;
    }
    if !cell.pending().is_empty() {
        writeln!(text, "deliveries that wait: {}", cell.pending().len())?;
    }
    if cell.handed_out() > 0 {
        writeln!(text, "deliveries handed out: {}", cell.handed_out())?;
    }
    Ok(())
}

/// Appends whether a link is open, and how many frames came out of it.
pub(crate) fn push_link<A: Allocator + Copy>(
    text: &mut String,
    cell: &Cell<A>,
    outlet: &Outlet<A>,
) -> Result<(), AllocError> {
    let peer = outlet.peer();
    let state = if cell.link_is_open(&peer) {
        "open"
    } else {
        "closed"
    };
    writeln!(
        text,
        "link to {peer}: {state}, {} frames out",
        outlet.taken()
    )
}
