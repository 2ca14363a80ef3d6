//! Numbers among a program's arguments.
use anyhow::Result;

/// The number that the argument at this place stands for, or `otherwise` if there is no argument.
pub(crate) fn number(words: &[String], place: usize, otherwise: u64) -> Result<u64> {
    match words.get(place) {
        Some(word) => Ok(word.parse()?),
        None => Ok(otherwise),
    }
}

/// Like `number`, but as a size.
pub(crate) fn size(words: &[String], place: usize, otherwise: usize) -> Result<usize> {
    match words.get(place) {
        Some(word) => Ok(word.parse()?),
        None => Ok(otherwise),
    }
}

/// Like `number`, but as a number of 32 bits.
pub(crate) fn small(words: &[String], place: usize, otherwise: u32) -> Result<u32> {
    match words.get(place) {
        Some(word) => Ok(word.parse()?),
        None => Ok(otherwise),
    }
}
