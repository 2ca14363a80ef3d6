//! Lists as text.
use node_names::{MsgId, NodeName};
use std::alloc::AllocError;
use std::fmt::Write;

/// The most bytes of a payload that are printed.
const LONGEST: usize = 64;

/// Appends a payload: its bytes as letters, `-` if there are none, or its length if it is long.
pub fn push_payload(text: &mut String, bytes: &[u8]) -> Result<(), AllocError> {
    if bytes.is_empty() {
        return text.push('-');
    }
    if bytes.len() > LONGEST {
        return write!(text, "*{}", bytes.len());
    }
    for byte in bytes {
        text.push(char::from(*byte))?;
    }
    Ok(())
}

/// Appends names, each behind a blank.
pub fn push_names(text: &mut String, names: &[NodeName]) -> Result<(), AllocError> {
    for name in names {
        write!(text, " {name}")?;
    }
    Ok(())
}

/// Appends ids, each behind a blank.
pub fn push_ids(text: &mut String, ids: &[MsgId]) -> Result<(), AllocError> {
    for id in ids {
        write!(text, " {id}")?;
    }
    Ok(())
}

/// Returns the word for a condition.
pub fn yes_or_no(is_so: bool) -> &'static str {
    if is_so { "yes" } else { "no" }
}

/// Ends a line of which each item ends with a comma.
pub fn end_line(text: &mut String) -> Result<(), AllocError> {
    text.pop();
    text.push('\n')
}
