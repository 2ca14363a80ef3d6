//! What a node's membership shows and gives, as text.
use membership::{Membership, Moves};
use node_names::NodeName;
use play_script::bodies::push_body;
use play_script::lists::push_names;
use std::alloc::{AllocError, Allocator};
use std::fmt::Write;
use views::Views;

/// Appends a line of names behind `what`, if there are any.
fn push_line(text: &mut String, what: &str, names: &[NodeName]) -> Result<(), AllocError> {
    if names.is_empty() {
        return Ok(());
    }
    write!(text, "{what}:")?;
    push_names(text, names)?;
    text.push('\n')
}

/// Appends the names of both views.
pub(crate) fn push_views<A: Allocator>(
    text: &mut String,
    views: &Views<A>,
) -> Result<(), AllocError> {
    push_line(text, "active", views.active().as_slice())?;
    push_line(text, "passive", views.passive().as_slice())
}

/// Appends all that a membership shows: its views, and the name that is asked.
pub(crate) fn push_membership<A: Allocator>(
    text: &mut String,
    membership: &Membership<A>,
) -> Result<(), AllocError> {
    push_views(text, membership.views())?;
    match membership.asked() {
        Some(asked) => writeln!(text, "asked: {asked}"),
        None => Ok(()),
    }
}

/// Appends what events gave: each message with its receiver, and then the names that are no longer active and those
/// that have become so.
pub(crate) fn push_moves<A: Allocator>(
    text: &mut String,
    moves: &Moves<A>,
) -> Result<(), AllocError> {
    for (to, body) in moves.sends.as_slice() {
        write!(text, "to {to}: ")?;
        push_body(text, body)?;
        text.push('\n')?;
    }
    for name in moves.downs.as_slice() {
        writeln!(text, "down {name}")?;
    }
    for name in moves.ups.as_slice() {
        writeln!(text, "up {name}")?;
    }
    Ok(())
}
