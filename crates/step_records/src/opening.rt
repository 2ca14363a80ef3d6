//! The beginning of a file.
ghost use Rattle.std.specs.Prelude.{◌≡◌, ◌+◌, ◌<◌, ◌≤◌, ◌⊎◌, ◌++◌, [], ℕ, List};
ghost use Rattle.std.specs.Prelude.{IfNone, IfOk, IfSome, OnOk, drop, length};
ghost use Rattle.step_records.specs.Bodies.{head_text};
ghost use Rattle.step_records.specs.Reading.{EndsEarly};
ghost use Rattle.step_records.specs.Writing.{IsOpening, start};

use crate::VERSION;
use crate::block::{Block, are_same, read_block};
use crate::check::Check;
use crate::error::{HeadPart, RecordErrorKind};
use crate::head::Head;
use crate::head_reading::{read_head, read_place};
use crate::place::Place;
use std::alloc::Global;

/// What a file begins with.
#[derive(Drop)]
pub(crate) struct Opening {
    pub(crate) head: Head,
    /// The bytes of the head.
    pub(crate) bytes: Vec<u8>,
    /// The check of the first block.
    pub(crate) check: Check,
    /// The number of bytes up to the end of the first block.
    pub(crate) len: usize,
}

/// Judges the eight bytes before the first block of a file, and returns the bytes behind them. `None`: the eight are
/// not all there.
fn behind_start(bytes: &[u8]) -> Result<Option<&[u8]>, RecordErrorKind>
    ensures text { IfOk result (λ found. IfSome found (λ rest. bytes.now ≡ start ++ rest.now)) }
    ensures few { IfOk result (λ found. IfNone found (length bytes.now < 8)) }
{
    let [p, l, u, m, r, e, c, version, rest @ ..] = bytes else {
        return Ok(None);
    };
    if [*p, *l, *u, *m, *r, *e, *c] != *b"PLUMREC" {
        return Err(RecordErrorKind::NoRecord);
    }
    if *version != VERSION {
        return Err(RecordErrorKind::OtherVersion(*version));
    }
    Ok(Some(rest))
}

/// Splits the body of a first block into the head and the place.
fn split(body: &[u8]) -> Result<(&[u8], &[u8]), RecordErrorKind>
    ensures { IfOk result (λ parts. body.now ≡ parts.0.now ++ parts.1.now) }
{
    match body.len().checked_sub(8 + Check::LEN) {
        Some(at) => Ok(body.split_at(at)),
        None => Err(RecordErrorKind::BadHead(HeadPart::Place)),
    }
}

/// Judges whether a file with this head, which begins here, goes on with the record that has got there.
fn goes_on(known: &[u8], reached: &Place, head: &[u8], place: &Place) -> Result<(), RecordErrorKind>
    ensures head { OnOk result ((known.now ≡ []) ⊎ (known.now ≡ head.now)) }
    ensures place { OnOk result (place.now ≡ reached.now) }
{
    if !known.is_empty() && !are_same(known, head) {
        return Err(RecordErrorKind::OtherRecord);
    }
    if place != reached {
        return Err(RecordErrorKind::Gap(place.entries));
    }
    Ok(())
}

/// Reads the beginning of a file of a record that has got there. Where its head is known, it has these bytes. `None`:
/// the beginning is not whole yet.
pub(crate) fn read_opening(
    alloc: Global,
    known: &[u8],
    reached: &Place,
    bytes: &[u8],
) -> Result<Option<Opening>, RecordErrorKind>
    ensures waits { IfOk result (λ found. IfNone found (EndsEarly bytes.now)) }
    ensures len { IfOk result (λ found. IfSome found (λ opening. opening.len ≤ length bytes.now)) }
    ensures head { IfOk result (λ found. IfSome found (λ opening. opening.bytes.items ≡ head_text opening.head)) }
    ensures same { IfOk result (λ found. IfSome found
        (λ opening. (known.now ≡ []) ⊎ (known.now ≡ opening.bytes.items))) }
    ensures text { IfOk result (λ found. IfSome found (λ opening. (text : List ℕ)
        × IsOpening opening.bytes.items reached.now.entries reached.now.check.0 text opening.check.0
        × (bytes.now ≡ text ++ drop opening.len bytes.now)
        × (opening.len ≡ length text))) }
{
    let Some(rest) = behind_start(bytes)? else {
        return Ok(None);
    };
    let Some(block) = read_block(&Check::START, rest)? else {
        return Ok(None);
    };
    let Block { body, check, len } = block;
    let (front, back) = split(body)?;
    let place = read_place(back)?;
    goes_on(known, reached, front, &place)?;
    Ok(Some(Opening {
        head: read_head(alloc, front)?,
        bytes: Vec::from_slice(alloc, front)?,
        check,
        len: Check::LEN + len,
    }))
}
