//! Payloads as letters.
use std::alloc::{AllocError, Allocator};

/// Appends a letter for each byte.
pub fn push_letters<A: Allocator>(text: &mut String<A>, bytes: &[u8]) -> Result<(), AllocError> {
    for byte in bytes {
        text.push(char::from(*byte))?;
    }
    Ok(())
}
