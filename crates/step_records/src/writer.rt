//! Writing a record.
ghost use Rattle.std.specs.Prelude.{◌≡◌, ◌++◌, ℕ, List, IfOk, OnErr, OnOk, length, take};
ghost use Rattle.step_records.specs.Bodies.{head_text};
ghost use Rattle.step_records.specs.Writing.{IsEntry, IsOpening, WritesEntry, WritesFile, start};

use crate::block::put_block;
use crate::body_writing::entry_body;
use crate::check::Check;
use crate::head::Head;
use crate::head_writing::{head_body, head_bytes};
use crate::place::Place;
use frames::Frame;
use protocol::Stimulus;
use std::alloc::{AllocError, Global};
use std::marker::Model;

/// Writes a record, as bytes that are appended to its files.
///
/// If a call is refused, neither the bytes nor the writer change, and the call may be repeated.
#[derive(Drop)]
pub struct RecordWriter {
    /// The bytes of the head.
    head: Vec<u8>,
    /// Where the next block stands.
    place: Place,
}

impl Model for RecordWriter {
    ghost use Rattle.step_records.specs.Writing.{Written};

    ghost Value = { Written };

    ghost view = { λ w. record { head = w.head.items; entries = w.place.entries; check = w.place.check.0 } };
}

/// Appends the first block of a file that goes on with the record here, and returns its check. If memory runs out, some
/// of its bytes may be appended.
fn put_file(
    alloc: Global,
    head: &[u8],
    place: &Place,
    out: &mut Vec<u8>,
) -> Result<Check, AllocError>
    ensures ok { IfOk result (λ check. (text : List ℕ)
        × IsOpening head.now place.now.entries place.now.check.0 text check.0
        × (out.new.items ≡ out.old.items ++ text)) }
    ensures err { OnErr result (take (length out.old.items) out.new.items ≡ out.old.items) }
{
    let body = head_body(alloc, head, place)?;
    out.extend_from_slice(&Check::START.0)?;
    put_block(out, &Check::START, body.as_slice())
}

/// Appends an entry behind this check, and returns its own check. If memory runs out, some of its bytes may be
/// appended.
fn put_entry(
    alloc: Global,
    before: &Check,
    stimulus: &Stimulus<Frame>,
    out: &mut Vec<u8>,
) -> Result<Check, AllocError>
    ensures ok { IfOk result (λ check. (text : List ℕ)
        × IsEntry before.now.0 stimulus.now text check.0
        × (out.new.items ≡ out.old.items ++ text)) }
    ensures err { OnErr result (take (length out.old.items) out.new.items ≡ out.old.items) }
{
    let body = entry_body(alloc, stimulus)?;
    put_block(out, before, body.as_slice())
}

/// Takes back what was appended behind the first `len` bytes, if the outcome is an error.
fn settled(
    out: &mut Vec<u8>,
    len: usize,
    outcome: Result<Check, AllocError>,
) -> Result<Check, AllocError>
    ensures same { result ≡ outcome }
    ensures ok { OnOk outcome (out.new.items ≡ out.old.items) }
    ensures err { OnErr outcome (out.new.items ≡ take len out.old.items) }
{
    if outcome.is_err() {
        out.truncate(len);
    }
    outcome
}

impl RecordWriter {
    /// Begins a record, and appends the beginning of its first file to `out`.
    pub fn begin(alloc: Global, head: &Head, out: &mut Vec<u8>) -> Result<RecordWriter, AllocError>
        ensures ok { IfOk result
            (λ writer. WritesFile (record { head = head_text head.now; entries = 0; check = start })
            out.old.items writer out.new.items) }
        ensures err { OnErr result (out.new.items ≡ out.old.items) }
    {
        let mut writer = RecordWriter {
            head: head_bytes(alloc, head)?,
            place: Place::START,
        };
        writer.next_file(out)?;
        Ok(writer)
    }

    /// Returns the number of entries so far.
    pub fn entries(&self) -> u64
        ensures { result ≡ self.now.entries }
    {
        self.place.entries
    }

    /// Begins another file of the record, and appends its beginning to `out`.
    pub fn next_file(&mut self, out: &mut Vec<u8>) -> Result<(), AllocError>
        ensures ok { OnOk result (WritesFile self.old out.old.items self.new out.new.items) }
        ensures bytes { OnErr result (out.new.items ≡ out.old.items) }
        ensures err { OnErr result (self.new ≡ self.old) }
    {
        let alloc = *out.allocator();
        let len = out.len();
        let outcome = put_file(alloc, self.head.as_slice(), &self.place, out);
        self.place.check = settled(out, len, outcome)?;
        Ok(())
    }

    /// Appends the entry of a stimulus to `out`. A payload longer than `MAX_BODY`, which no node takes, is refused as
    /// if memory ran out.
    pub fn push(&mut self, stimulus: &Stimulus<Frame>, out: &mut Vec<u8>) -> Result<(), AllocError>
        ensures ok { OnOk result (WritesEntry self.old stimulus.now out.old.items self.new out.new.items) }
        ensures bytes { OnErr result (out.new.items ≡ out.old.items) }
        ensures err { OnErr result (self.new ≡ self.old) }
    {
        let Some(entries) = self.place.entries.checked_add(1) else {
            return Err(AllocError);
        };
        let alloc = *out.allocator();
        let len = out.len();
        let outcome = put_entry(alloc, &self.place.check, stimulus, out);
        let check = settled(out, len, outcome)?;
        self.place = Place { entries, check };
        Ok(())
    }
}
