//! Bytes as hexadecimal digits.
use hex::FromHexError;
use std::alloc::{AllocError, Global};
use std::fmt::Write;

/// The fewest equal bytes in a row that are printed as a run.
const LONG: usize = 16;

/// Parses pairs of digits.
fn digits(alloc: Global, word: &str) -> Result<Option<Vec<u8>>, AllocError> {
    match hex::decode(alloc, word) {
        Ok(bytes) => Ok(Some(bytes)),
        Err(FromHexError::OutOfMemory) => Err(AllocError),
        Err(_) => Ok(None),
    }
}

/// Appends the bytes of a word: pairs of digits, or as `78*32768` digits and how often they are repeated. Returns
/// whether it is such a word.
fn push_word(alloc: Global, bytes: &mut Vec<u8>, word: &str) -> Result<bool, AllocError> {
    let (part, times) = word.split_once('*').unwrap_or((word, "1"));
    let (Some(part), Ok(times)) = (digits(alloc, part)?, times.parse::<usize>()) else {
        return Ok(false);
    };
    for _ in 0..times {
        bytes.extend_from_slice(part.as_slice())?;
    }
    Ok(true)
}

/// Parses bytes: words of digits, which are joined.
pub fn bytes_of(alloc: Global, words: &[&str]) -> Result<Option<Vec<u8>>, AllocError> {
    let mut bytes = Vec::new(alloc);
    for word in words {
        if !push_word(alloc, &mut bytes, word)? {
            return Ok(None);
        }
    }
    Ok(Some(bytes))
}

/// Appends equal bytes.
fn push_equal(text: &mut String, equal: &[u8], is_long: bool) -> Result<(), AllocError> {
    if let ([byte, ..], true) = (equal, is_long) {
        return write!(text, "{byte:02x}*{}", equal.len());
    }
    for byte in equal {
        write!(text, "{byte:02x}")?;
    }
    Ok(())
}

/// Appends bytes as digits. A long run of one byte is a word of its own, as `78*32768`.
pub fn push_hex(text: &mut String, bytes: &[u8]) -> Result<(), AllocError> {
    let mut last = None;
    for equal in bytes.chunk_by(|a, b| a == b) {
        let is_long = equal.len() >= LONG;
        if let Some(was_long) = last {
            if is_long || was_long {
                text.push(' ')?;
            }
        }
        push_equal(text, equal, is_long)?;
        last = Some(is_long);
    }
    Ok(())
}
