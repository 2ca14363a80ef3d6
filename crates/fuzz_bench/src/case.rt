//! Cases: streams of bytes, and how they arrive.
use anyhow::{Context, Result};
use std::alloc::Global;

/// A stream and how it arrives. Its line has four words: the sizes of the pieces, separated by commas, the number of
/// frames that the sink takes, the read that fails, and the bytes in hexadecimal digits. A `-` stands for no pieces, no
/// failing read or no bytes.
#[derive(Drop)]
pub(crate) struct Case {
    /// The sizes of the pieces. The last one has room for all bytes that are left.
    pub(crate) pieces: Vec<usize>,
    /// How many frames the sink takes.
    pub(crate) most: usize,
    /// The read that fails, counted from 0.
    pub(crate) fails: Option<usize>,
    pub(crate) stream: Vec<u8>,
}

/// Parses the sizes of pieces, and adds a last piece that has room for all bytes that are left.
fn pieces_of(alloc: Global, word: &str) -> Result<Vec<usize>> {
    let mut pieces = Vec::new(alloc);
    if word != "-" {
        for size in word.split(',') {
            pieces.push(size.parse()?)?;
        }
    }
    pieces.push(usize::MAX)?;
    Ok(pieces)
}

fn call_of(word: &str) -> Result<Option<usize>> {
    if word == "-" {
        return Ok(None);
    }
    Ok(Some(word.parse()?))
}

fn bytes_of(alloc: Global, word: &str) -> Result<Vec<u8>> {
    let digits = if word == "-" { "" } else { word };
    Ok(hex::decode(alloc, digits)?)
}

impl Case {
    /// Parses the case of a line.
    pub(crate) fn parse(alloc: Global, line: &str) -> Result<Case> {
        let mut words = line.split(' ');
        let pieces = words.next().context("no pieces")?;
        let most = words.next().context("no count of frames")?;
        let fails = words.next().context("no read that fails")?;
        let stream = words.next().context("no bytes")?;
        Ok(Case {
            pieces: pieces_of(alloc, pieces)?,
            most: most.parse()?,
            fails: call_of(fails)?,
            stream: bytes_of(alloc, stream)?,
        })
    }
}
