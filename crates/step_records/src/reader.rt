//! Reading a record.
ghost use Rattle.std.specs.Prelude.{◌≡◌, ◌≤◌, ◌<◌, ◌⊎◌, ◌++◌, [], Err, IfErr, IfNone, IfOk};
ghost use Rattle.std.specs.Prelude.{IsErrAnd, OnErr, OnOk, drop, false, length, true};
ghost use Rattle.step_records.specs.Block.{read_block};
ghost use Rattle.step_records.specs.declared.error.RecordErrorKind.{RecordErrorKind as Kind};
ghost use Rattle.step_records.specs.Reading.{Reads, Waits, counted, unbegun};

use crate::block::{Block, read_block};
use crate::body_reading::stimulus;
use crate::error::{RecordError, RecordErrorKind};
use crate::head::Head;
use crate::opening::{Opening, read_opening};
use crate::place::Place;
use crate::unread::Unread;
use frames::Frame;
use protocol::Stimulus;
use std::alloc::{AllocError, Global};
use std::marker::Model;

/// What a record tells next.
#[derive(Drop)]
pub enum Entry {
    /// A file begins. All files of a record have the same head.
    Head(Head),
    /// The node took a stimulus.
    Stimulus(Stimulus<Frame>),
}

/// Reads a record whose files are fed in order, each in pieces of any size. It holds the last piece, and one entry
/// besides.
///
/// A file may end anywhere, since its node may have crashed: what is read then ends with its last whole entry. But only
/// a whole file has a next one.
#[derive(Drop)]
pub struct RecordReader {
    alloc: Global,
    unread: Unread,
    /// The bytes of the record's head. They are empty before they are read.
    head: Vec<u8>,
    /// Where the next block stands.
    place: Place,
    /// Whether the first block of the file is read.
    is_open: bool,
    /// How many bytes of the file are read.
    at: u64,
}

impl Model for RecordReader {
    ghost use Rattle.step_records.specs.Reading.{Reading};

    ghost Value = { Reading };

    ghost view = { λ r. record {
      head = r.head.items;
      entries = r.place.entries;
      check = r.place.check.0;
      is_open = r.is_open;
      at = r.at;
      unread = r.unread;
    } };
}

impl RecordReader {
    /// Creates a reader that is fed nothing yet.
    pub fn new(alloc: Global) -> RecordReader
        ensures { result ≡ unbegun }
    {
        RecordReader {
            alloc,
            unread: Unread::new(alloc),
            head: Vec::new(alloc),
            place: Place::START,
            is_open: false,
            at: 0,
        }
    }

    /// Returns the number of entries that are read, of all files.
    pub fn entries(&self) -> u64
        ensures { result ≡ self.now.entries }
    {
        self.place.entries
    }

    /// Returns how many bytes of the file are read.
    pub fn at(&self) -> u64
        ensures { result ≡ self.now.at }
    {
        self.at
    }

    /// Returns how many bytes were fed and not read.
    pub fn left(&self) -> usize
        ensures { result ≡ length self.now.unread }
    {
        self.unread.as_slice().len()
    }

    /// Returns whether the file, if no more bytes of it are fed, ends within an entry or before its head does.
    pub fn is_cut(&self) -> bool
        ensures cut { result ≡ true → (self.now.is_open ≡ false) ⊎ (0 < length self.now.unread) }
        ensures whole { result ≡ false → (self.now.is_open ≡ true) × (self.now.unread ≡ []) }
    {
        !self.is_open || self.left() > 0
    }

    /// Appends the next bytes of the file. If memory runs out, nothing changes.
    pub fn feed(&mut self, piece: &[u8]) -> Result<(), AllocError>
        ensures ok { OnOk result (self.new ≡ record self.old { unread = self.old.unread ++ piece.now }) }
        ensures err { OnErr result (self.new ≡ self.old) }
    {
        self.unread.feed(piece)
    }

    /// Goes on with the next file. A file that is cut has none.
    pub fn next_file(&mut self) -> Result<(), RecordError>
        ensures whole { OnOk result ((self.old.is_open ≡ true) × (self.old.unread ≡ [])) }
        ensures ok { OnOk result (self.new ≡ record self.old { is_open = false; at = 0 }) }
        ensures cut { OnErr result ((self.old.is_open ≡ false) ⊎ (0 < length self.old.unread)) }
        ensures err { OnErr result (self.new ≡ self.old) }
        ensures error { IfErr result (λ e. e
            ≡ record { entry = self.old.entries; at = self.old.at; kind = RecordErrorKind.Cut }) }
    {
        if self.is_cut() {
            return Err(self.error(RecordErrorKind::Cut));
        }
        self.is_open = false;
        self.at = 0;
        Ok(())
    }

    /// Returns the next entry, or `None` if it is not whole yet. If it is refused, nothing changes.
    ///
    /// What it returns is what the bytes tell. No clause says that whole entries are not refused, nor which error it is
    /// but of an entry that is too long or whose check does not fit.
    pub fn next(&mut self) -> Result<Option<Entry>, RecordError>
        ensures reads { IfOk result (λ found. Reads self.old found self.new) }
        ensures waits { IfOk result (λ found. IfNone found (Waits self.old)) }
        ensures err { OnErr result (self.new ≡ self.old) }
        ensures place { IfErr result (λ e. (e.entry ≡ self.old.entries) × (e.at ≡ self.old.at)) }
        // An entry that is too long, or whose check is not that of its bytes and of all before them, is refused so.
        ensures spoiled { (kind : Kind) → self.old.is_open ≡ true → read_block self.old.check self.old.unread ≡ Err kind
            → IsErrAnd result (λ e. e.kind ≡ kind) }
    {
        let outcome = if self.is_open {
            self.next_stimulus()
        } else {
            self.next_head()
        };
        match outcome {
            Ok(entry) => Ok(entry),
            Err(kind) => Err(self.error(kind)),
        }
    }

    /// The error of this kind, here.
    fn error(&self, kind: RecordErrorKind) -> RecordError
        ensures { result ≡ record { entry = self.now.entries; at = self.now.at; kind = kind } }
    {
        RecordError {
            entry: self.place.entries,
            at: self.at,
            kind,
        }
    }

    /// Goes on behind a block whose bytes, with those before it, are so many.
    fn pass(&mut self, len: usize)
        requires { len ≤ length self.old.unread }
        ensures { self.new ≡ record self.old { unread = drop len self.old.unread; at = counted self.old.at len } }
    {
        self.unread.pass(len);
        self.at = self.at.saturating_add(len as u64);
    }

    /// Reads the head, unless it is not whole yet.
    fn next_head(&mut self) -> Result<Option<Entry>, RecordErrorKind>
        requires { self.old.is_open ≡ false }
        ensures reads { IfOk result (λ found. Reads self.old found self.new) }
        ensures waits { IfOk result (λ found. IfNone found (Waits self.old)) }
        ensures err { OnErr result (self.new ≡ self.old) }
    {
        let bytes = self.unread.as_slice();
        let Some(opening) = read_opening(self.alloc, &self.head, &self.place, bytes)? else {
            return Ok(None);
        };
        let Opening {
            head,
            bytes,
            check,
            len,
        } = opening;
        self.head = bytes;
        self.place.check = check;
        self.is_open = true;
        self.pass(len);
        Ok(Some(Entry::Head(head)))
    }

    /// Reads a stimulus, unless its entry is not whole yet.
    fn next_stimulus(&mut self) -> Result<Option<Entry>, RecordErrorKind>
        requires { self.old.is_open ≡ true }
        ensures reads { IfOk result (λ found. Reads self.old found self.new) }
        ensures waits { IfOk result (λ found. IfNone found (Waits self.old)) }
        ensures err { OnErr result (self.new ≡ self.old) }
        ensures spoiled { (kind : Kind) → read_block self.old.check self.old.unread ≡ Err kind → result ≡ Err kind }
    {
        let bytes = self.unread.as_slice();
        let Some(block) = read_block(&self.place.check, bytes)? else {
            return Ok(None);
        };
        let stimulus = stimulus(self.alloc, block.body)?;
        let Block { check, len, .. } = block;
        self.place = Place {
            entries: self.place.entries.saturating_add(1),
            check,
        };
        self.pass(len);
        Ok(Some(Entry::Stimulus(stimulus)))
    }
}
