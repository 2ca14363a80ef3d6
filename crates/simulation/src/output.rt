//! The lines that are printed for deliveries.
ghost use Rattle.std.specs.Prelude.{◌≡◌, ◌<◌, ◌≤◌, ◌*◌, ◌++◌, length, map, reverse, take};
ghost use Rattle.std.specs.Prelude.{IsAscii, IsPermutation, IsSorted, IfOk, OnOk, string_bytes};
ghost use Rattle.std.specs.Io.KnownBytes.{Appends};
ghost use Rattle.world.specs.History.{deliveries as all_deliveries};
ghost use Rattle.simulation.specs.Lines.{hex_digit, hexadecimal, payload_text, line_of, lines_of, line_cmp};

use crate::ranks::{messages, nodes, rank_of_message, rank_of_node};
use protocol::Delivery;
use std::alloc::{AllocError, Allocator};
use std::io::Write;
use std::{io, str};
use thiserror::Error;
use trace_text::{push_id, push_origin};
use world::Entry;

/// Why lines were not all written.
#[derive(Clone, Copy, Debug, PartialEq, Eq, Error)]
pub enum OutputError {
    /// There was no memory left for a line.
    #[error("out of memory")]
    OutOfMemory,
    /// A write failed.
    #[error("cannot write")]
    Unwritten,
}

impl From<AllocError> for OutputError {
    fn from(_error: AllocError) -> OutputError {
        OutputError::OutOfMemory
    }
}

impl From<io::Error> for OutputError {
    fn from(_error: io::Error) -> OutputError {
        OutputError::Unwritten
    }
}

/// All deliveries of a log, in their order.
pub fn deliveries<'a, A: Allocator + Copy>(
    alloc: A,
    log: &'a [Entry<A>],
) -> Result<Vec<&'a Delivery<A>, A>, AllocError>
    ensures { IfOk result (λ found. map (λ d. d.now) found.items ≡ all_deliveries (reverse log.now)) }
{
    let mut found = Vec::new(alloc);
    for entry in log {
        push_each(&mut found, entry.given.as_slice())?;
    }
    Ok(found)
}

/// Appends each of these deliveries.
fn push_each<'a, A: Allocator>(
    found: &mut Vec<&'a Delivery<A>, A>,
    given: &'a [Delivery<A>],
) -> Result<(), AllocError>
    ensures { OnOk result (map (λ d. d.now) found.new.items ≡ map (λ d. d.now) found.old.items ++ given.now) }
{
    for delivery in given {
        found.push(delivery)?;
    }
    Ok(())
}

/// Sorts deliveries by node, and those of one node by message.
///
/// Sorts by ranks, first by that of the message, because nodes and ids are slow to compare and to move.
pub fn sort<A: Allocator + Copy>(deliveries: &mut Vec<&Delivery<A>, A>) -> Result<(), AllocError>
    ensures permutation { OnOk result
        (IsPermutation (map (λ d. d.now) deliveries.old.items) (map (λ d. d.now) deliveries.new.items)) }
    ensures sorted { OnOk result (IsSorted line_cmp (map (λ d. d.now) deliveries.new.items)) }
{
    let alloc = *deliveries.allocator();
    let nodes = nodes(alloc, deliveries.as_slice())?;
    let ids = messages(alloc, deliveries.as_slice())?;
    deliveries.sort_by_cached_key(|delivery| rank_of_message(&ids, &delivery.id))?;
    deliveries.sort_by_cached_key(|delivery| rank_of_node(&nodes, &delivery.node))
}

/// Writes a line for each delivery, in one write each. `text` is a buffer for a line.
pub fn write_lines<A: Allocator, W: Write>(
    text: &mut String<A>,
    deliveries: &[&Delivery<A>],
    out: &mut W,
) -> Result<(), OutputError>
    ensures { OnOk result
        (Appends (W.contents out.old) (W.contents out.new) (lines_of (map (λ d. d.now) deliveries.now))) }
{
    for delivery in deliveries {
        text.clear();
        push_line(text, delivery)?;
        out.write_all(text.as_bytes())?;
    }
    Ok(out.flush()?)
}

/// Appends the line of a delivery.
fn push_line<A: Allocator>(text: &mut String<A>, delivery: &Delivery<A>) -> Result<(), AllocError>
    ensures { OnOk result (string_bytes text.new ≡ string_bytes text.old ++ line_of delivery.now) }
{
    let payload = delivery.payload.as_slice();
    let length = payload.len();
    text.push_str("deliver ")?;
    push_origin(text, &delivery.node)?;
    text.push(' ')?;
    push_id(text, &delivery.id)?;
    write!(text, " {length} ")?;
    push_payload(text, payload)?;
    text.push('\n')
}

/// Appends a payload in hexadecimal.
fn push_payload<A: Allocator>(text: &mut String<A>, payload: &[u8]) -> Result<(), AllocError>
    ensures { OnOk result (string_bytes text.new ≡ string_bytes text.old ++ payload_text payload.now) }
{
    if payload.is_empty() {
        return text.push('-');
    }
    push_hexadecimal(text, payload)
}

fn push_hexadecimal<A: Allocator>(text: &mut String<A>, bytes: &[u8]) -> Result<(), AllocError>
    ensures { OnOk result (string_bytes text.new ≡ string_bytes text.old ++ hexadecimal bytes.now) }
{
    for chunk in bytes.chunks(32) {
        push_chunk(text, chunk)?;
    }
    Ok(())
}

/// Appends the digits of up to 32 bytes at once, because one append for each byte is slow.
fn push_chunk<A: Allocator>(text: &mut String<A>, bytes: &[u8]) -> Result<(), AllocError>
    requires { length bytes.now ≤ 32 }
    ensures { OnOk result (string_bytes text.new ≡ string_bytes text.old ++ hexadecimal bytes.now) }
{
    let mut digits = [0u8; 64];
    write_digits(bytes, &mut digits);
    let Ok(digits) = str::from_utf8(&digits[..2 * bytes.len()]) else {
        unreachable!();
    };
    text.push_str(digits)
}

/// Writes the digits of bytes to the front of `digits`.
fn write_digits(bytes: &[u8], digits: &mut [u8])
    requires { 2 * length bytes.now ≤ length digits.old }
    ensures value { take (2 * length bytes.now) digits.new ≡ hexadecimal bytes.now }
    ensures ascii { IsAscii (take (2 * length bytes.now) digits.new) }
{
    for i in 0..bytes.len() {
        let byte = bytes[i];
        digits[2 * i] = hex_digit(byte / 16);
        digits[2 * i + 1] = hex_digit(byte % 16);
    }
}

/// A digit from 0 to 15.
fn hex_digit(number: u8) -> u8
    requires { number < 16 }
    ensures value { result ≡ hex_digit number }
    ensures ascii { result < 128 }
{
    if number < 10 {
        b'0' + number
    } else {
        b'a' + (number - 10)
    }
}
