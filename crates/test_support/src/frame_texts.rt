//! Frames as text.
use crate::letters::push_letters;
use frames::{Body, BodyOf, Frame};
use std::alloc::{AllocError, Allocator};
use std::fmt::Write;

/// Appends a frame's body.
fn push_body<A: Allocator>(text: &mut String, body: &Body<A>) -> Result<(), AllocError> {
    match body {
        BodyOf::Gossip { id, round, payload } => {
            write!(text, "GOSSIP {id} {round} ")?;
            push_letters(text, payload.as_slice())
        }
        BodyOf::Prune => write!(text, "PRUNE"),
        _ => write!(text, "{body:?}"),
    }
}

/// Appends a frame: its sender, its number and its body.
pub fn push_frame<A: Allocator>(text: &mut String, frame: &Frame<A>) -> Result<(), AllocError> {
    write!(text, "{}#{} ", frame.sender(), frame.number())?;
    push_body(text, frame.body())
}
