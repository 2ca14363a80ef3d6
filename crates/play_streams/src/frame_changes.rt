//! Decoding variations of bytes: each front of them, bodies that are cut short, and each byte changed.
use crate::frame_texts::end_of_frame;
use frames::decode;
use play_script::runs::Runs;
use std::alloc::{AllocError, Global};
use std::fmt::Write;

/// Appends what bytes are read as: the length of a frame, or a fault. Returns whether they are a frame.
fn push_read(alloc: Global, text: &mut String, bytes: &[u8]) -> Result<bool, AllocError> {
    match decode(alloc, bytes) {
        Ok((frame, len)) => {
            write!(text, "{len} bytes")?;
            if end_of_frame(alloc, bytes, 0, &frame)? != Some(len) {
                text.push_str(" misspelt")?;
            }
            Ok(true)
        }
        Err(fault) => {
            write!(text, "{fault}")?;
            Ok(false)
        }
    }
}

/// Decodes the first byte, the first two bytes, and so on.
pub(crate) fn push_fronts(
    alloc: Global,
    said: &mut String,
    bytes: &[u8],
) -> Result<(), AllocError> {
    let mut runs = Runs::new("front of ", " bytes");
    for len in 0..=bytes.len() {
        let mut text = String::new(alloc);
        push_read(alloc, &mut text, bytes.get(..len).unwrap_or(&[]))?;
        runs.add(said, len, text)?;
    }
    runs.end(said)
}

/// Writes the length of the body into the first four bytes.
fn put_length(bytes: &mut Vec<u8>, len: usize) {
    let word = u32::try_from(len).unwrap_or(u32::MAX).to_be_bytes();
    for (place, byte) in bytes.iter_mut().zip(word.iter()) {
        *place = *byte;
    }
}

/// Cuts the body behind no byte, behind its first byte, and so on, and decodes what is left, whose first four bytes say
/// how long it is.
pub(crate) fn push_shortened(
    alloc: Global,
    said: &mut String,
    bytes: &mut Vec<u8>,
) -> Result<(), AllocError> {
    let mut runs = Runs::new("body of ", " bytes");
    for len in 0..=bytes.len().saturating_sub(4) {
        put_length(bytes, len);
        let mut text = String::new(alloc);
        let front = bytes.as_slice().get(..len.saturating_add(4));
        push_read(alloc, &mut text, front.unwrap_or(&[]))?;
        runs.add(said, len, text)?;
    }
    runs.end(said)
}

/// Puts a byte at a place, if there is such a place.
fn put_byte(bytes: &mut Vec<u8>, at: usize, byte: u8) {
    if let Some(place) = bytes.as_mut_slice().get_mut(at) {
        *place = byte;
    }
}

/// Puts each byte in turn where `own` stands, and decodes. Returns how many bytes other than `own` make a frame.
fn push_place(
    alloc: Global,
    said: &mut String,
    bytes: &mut Vec<u8>,
    at: usize,
    own: u8,
) -> Result<u64, AllocError> {
    let before = format!(in alloc; "byte {at} as ")?;
    let mut runs = Runs::new(before.as_str(), "");
    let mut made = 0u64;
    for byte in 0..=255u8 {
        put_byte(bytes, at, byte);
        let mut text = String::new(alloc);
        let is_frame = push_read(alloc, &mut text, bytes.as_slice())?;
        if is_frame && byte != own {
            made = made.saturating_add(1);
        }
        runs.add(said, usize::from(byte), text)?;
    }
    runs.end(said)?;
    put_byte(bytes, at, own);
    Ok(made)
}

/// Changes each byte into each other one, and decodes. Appends how many changes make a frame.
pub(crate) fn push_changed(
    alloc: Global,
    said: &mut String,
    bytes: &mut Vec<u8>,
) -> Result<(), AllocError> {
    let mut made = 0u64;
    for at in 0..bytes.len() {
        let own = bytes.as_slice().get(at).copied().unwrap_or(0);
        made = made.saturating_add(push_place(alloc, said, bytes, at, own)?);
    }
    writeln!(said, "changes that make a frame: {made}")
}
