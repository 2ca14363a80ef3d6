//! The end of a connection where a node reads.
ghost use Rattle.std.specs.Prelude.{◌≡◌, ◌<◌, ◌≤◌, ◌++◌, ◌||◌, [], ℕ, IfErr, IfOk, IfSome, OnErr};
ghost use Rattle.std.specs.Prelude.{is_some, length, map, slice_index, take};
ghost use Rattle.handshake.specs.Inbound.{frame_byte, frames, given_by, passed, run, start};
ghost use Rattle.handshake.specs.Judging.{judged, lacking};
ghost use Rattle.handshake.specs.Records.{IsRecord, record_text};

use crate::error::HandshakeError;
use crate::kept::Kept;
use crate::place::RecordPlace;
use crate::record::{HELLO, INTRODUCTION, Record, read_record};
use crate::{MAX_HELLO, MAX_INTRODUCTION};
use std::marker::Model;

/// Where the bytes stand that a node reads from a connection: a hello, and then introductions and frames.
///
/// The bytes come in pieces of any size. `frames` says how many of them go to the node, and `pass` goes on by these.
/// Where it says that none do, `take` takes bytes of another record. Contracts see a `State`, and say what the bytes
/// lead to by `run`, which reads one byte after the other.
#[derive(Debug, Drop)]
pub struct Inbound {
    is_open: bool,
    place: RecordPlace,
    kept: Kept,
}

impl Model for Inbound {
    ghost use Rattle.std.specs.Prelude.{◌≡◌, Ok, None};
    ghost use Rattle.handshake.specs.Judging.{judged};
    ghost use Rattle.handshake.specs.State.{State};

    ghost Value = { State };

    ghost view = { λ s. record { is_open = s.is_open; place = s.place; kept = s.kept } };

    // More bytes have to come before the record is whole, and no fault was met.
    ghost invariant = { λ s. judged s.is_open s.kept ≡ Ok None };
}

/// Judges the first bytes of a record that is no frame.
fn judge(is_open: bool, kept: &[u8]) -> Result<Option<Record>, HandshakeError>
    requires { length kept.now < 256 }
    ensures value { result ≡ judged is_open kept.now }
    ensures bytes { (k : ℕ) → slice_index kept.now k < 256 }
{
    let [kind, rest @ ..] = kept else {
        return Ok(None);
    };
    if is_open && *kind != INTRODUCTION {
        return Err(HandshakeError::UnknownRecord(*kind));
    }
    if !is_open && *kind != HELLO {
        return Err(HandshakeError::NoHello(*kind));
    }
    let [len, text @ ..] = rest else {
        return Ok(None);
    };
    let max = if is_open { MAX_INTRODUCTION } else { MAX_HELLO };
    if *len == 0 || usize::from(*len) > max {
        return Err(HandshakeError::BadLength(*len));
    }
    if text.len() < usize::from(*len) {
        return Ok(None);
    }
    Ok(Some(read_record(is_open, text)?))
}

/// Returns how many more bytes are judged together with these.
fn lacking(kept: &[u8]) -> usize
    ensures { result ≡ lacking kept.now }
{
    match kept {
        [_, len, text @ ..] => usize::from(*len).saturating_sub(text.len()),
        _ => 1,
    }
}

impl Inbound {
    /// Starts reading a connection of which nothing came.
    pub fn new() -> Inbound
        ensures { result ≡ start }
    {
        Inbound {
            is_open: false,
            place: RecordPlace::BOUNDARY,
            kept: Kept::new(),
        }
    }

    /// Returns whether the hello came.
    pub fn is_open(&self) -> bool
        ensures { result ≡ self.now.is_open }
    {
        self.is_open
    }

    /// Returns how many of the first bytes are of frames, and go to the node. They are still to be passed.
    pub fn frames(&self, bytes: &[u8]) -> usize
        ensures value { result ≡ frames self.now bytes.now }
        ensures within { result ≤ length bytes.now }
    {
        if !self.is_open || self.kept.len() > 0 {
            return 0;
        }
        self.place.frames(bytes)
    }

    /// Goes on by these bytes of frames, which went to the node.
    pub fn pass(&mut self, bytes: &[u8])
        ensures moved { self.new ≡ passed self.old bytes.now }
        ensures run { frames self.old bytes.now ≡ length bytes.now
            → run self.old bytes.now ≡ Ok (self.new, map frame_byte bytes.now) }
    {
        self.place.pass(bytes);
    }

    /// Takes the first of these bytes, which are of no frame, and returns how many it took, and the record that became
    /// whole with them. After an error the connection is refused, and nothing more may be read from it.
    pub fn take(&mut self, bytes: &[u8]) -> Result<(usize, Option<Record>), HandshakeError>
        requires some { 0 < length bytes.now }
        requires no_frames { frames self.old bytes.now ≡ 0 }
        ensures some { IfOk result (λ x. 0 < x.0) }
        ensures within { IfOk result (λ x. x.0 ≤ length bytes.now) }
        ensures taken { IfOk result (λ x. run self.old (take x.0 bytes.now) ≡ Ok (self.new, given_by x.1)) }
        // It is open once its hello is whole.
        ensures opens { IfOk result (λ x. self.new.is_open ≡ (self.old.is_open || is_some x.1)) }
        ensures refused { IfErr result (λ error. run self.old bytes.now ≡ Err error) }
        // All that came whole before the fault was given by calls before this one.
        ensures none_lost { OnErr result ((n : ℕ) → IfOk (run self.old (take n bytes.now)) (λ x. x.1 ≡ [])) }
        ensures unchanged { OnErr result (self.new ≡ self.old) }
        // A record has exactly the bytes that were taken for it, and may stand where it does.
        ensures record { IfOk result (λ x. IfSome x.1 (λ r.
            (self.old.kept ++ take x.0 bytes.now ≡ record_text r) × IsRecord self.old.is_open r)) }
    {
        let before = self.kept.len();
        let count = lacking(self.kept.as_slice()).min(bytes.len());
        self.kept.append(&bytes[..count]);
        match judge(self.is_open, self.kept.as_slice()) {
            Ok(None) => Ok((count, None)),
            Ok(Some(record)) => {
                self.kept.truncate(0);
                self.is_open = true;
                Ok((count, Some(record)))
            }
            Err(error) => {
                self.kept.truncate(before);
                Err(error)
            }
        }
    }
}
