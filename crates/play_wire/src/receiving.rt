//! Bytes that come over a connection, cut anywhere.
use crate::texts::Node;
use node_names::Dice;
use play_script::hexes::bytes_of;
use play_script::layer::{Outcome, Turn};
use std::alloc::{AllocError, Allocator, Global};
use std::fmt::Write;
use wire_node::{ConnectionId, ReceiveError, WireError};

/// Reads how the bytes are cut, and the bytes: `by 3 00000014 01`. Without `by` they are whole.
fn pieces_of(own: Global, words: &[&str]) -> Result<Option<(usize, Vec<u8>)>, AllocError> {
    let (size, words) = match words {
        ["by", size, words @ ..] => (size.parse::<usize>().ok(), words),
        _ => (Some(usize::MAX), words),
    };
    let (Some(size), Some(bytes)) = (size, bytes_of(own, words)?) else {
        return Ok(None);
    };
    Ok(Some((size, bytes)))
}

/// Gives a node bytes, piece by piece, until one is refused.
fn give<A: Allocator + Copy>(
    node: &mut Node<A>,
    id: ConnectionId,
    size: usize,
    bytes: &[u8],
) -> Result<(), ReceiveError> {
    let mut dice = Dice::ZEROS;
    for piece in bytes.chunks(size.max(1)) {
        node.receive(id, piece, &mut dice)?;
    }
    Ok(())
}

/// Says why bytes were not all taken, unless memory was refused before any of them was.
fn say_refused(error: &ReceiveError, said: &mut String) -> Result<Outcome, AllocError> {
    if error.error == WireError::OutOfMemory && error.taken == 0 {
        return Ok(Outcome::NoMemory);
    }
    writeln!(said, "{}, after {} bytes", error.error, error.taken)?;
    Ok(Outcome::Done)
}

/// Has bytes come over a connection: `receive 1 by 3 00000014 01`.
pub(crate) fn receive<A: Allocator + Copy>(
    own: Global,
    node: &mut Node<A>,
    id: ConnectionId,
    words: &[&str],
    turn: &mut Turn<'_>,
    said: &mut String,
) -> Result<Outcome, AllocError> {
    let Some((size, bytes)) = pieces_of(own, words)? else {
        return Ok(Outcome::Unknown);
    };
    turn.begin();
    let answer = give(node, id, size, bytes.as_slice());
    turn.end();
    match answer {
        Ok(()) => Ok(Outcome::Done),
        Err(error) => say_refused(&error, said),
    }
}
