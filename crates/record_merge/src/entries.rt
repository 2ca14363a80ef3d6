//! The entries of a record whose files are in memory.
ghost use Rattle.std.specs.Prelude.{◌≡◌, ◌<◌, [], IfOk, IfSome, OnOk, false, length, map, true};
ghost use Rattle.step_records.specs.Reading.{Reads};
ghost use Rattle.record_merge.specs.Replaying.{BeginsFile, Gives, bytes_left, ended, unread};

use crate::error::ReplayError;
use std::alloc::Global;
use std::marker::Model;
use step_records::{Entry, RecordError, RecordErrorKind, RecordReader};

/// The entries of a record's files, one after the other.
#[derive(Drop)]
pub(crate) struct Entries<'a> {
    reader: RecordReader,
    /// The files that are not begun.
    files: &'a [Vec<u8>],
    /// How many files are begun.
    begun: usize,
}

impl<'a> Model for Entries<'a> {
    ghost use Rattle.std.specs.Prelude.{map};
    ghost use Rattle.record_merge.specs.Replaying.{Progress};

    ghost Value = { Progress };

    ghost view = { λ e. record {
      files = map (λ file. file.items) e.files.now;
      begun = e.begun;
      reader = e.reader;
    } };
}

impl<'a> Entries<'a> {
    pub(crate) fn new(alloc: Global, files: &'a [Vec<u8>]) -> Entries<'a>
        ensures { result ≡ unread (map (λ file. file.items) files.now) }
    {
        Entries {
            reader: RecordReader::new(alloc),
            files,
            begun: 0,
        }
    }

    /// How many stimuli are read.
    pub(crate) fn count(&self) -> u64
        ensures { result ≡ self.now.reader.entries }
    {
        self.reader.entries()
    }

    /// How many bytes at the end of the last file that was begun are no whole entry.
    pub(crate) fn left(&self) -> usize
        ensures { result ≡ length self.now.reader.unread }
    {
        self.reader.left()
    }

    /// The error of the file that is read.
    fn fault(&self, error: RecordError) -> ReplayError {
        match error.kind {
            RecordErrorKind::OutOfMemory => ReplayError::OutOfMemory,
            _ => ReplayError::Record {
                file: self.begun.saturating_sub(1),
                error,
            },
        }
    }

    /// Ends the file that is read, if one is, so that the next may be fed.
    fn end_file(&mut self) -> Result<(), ReplayError>
        ensures { OnOk result (self.new ≡ record self.old { reader = ended self.old.begun self.old.reader }) }
    {
        if self.begun == 0 {
            return Ok(());
        }
        match self.reader.next_file() {
            Ok(()) => Ok(()),
            Err(error) => Err(self.fault(error)),
        }
    }

    /// Begins the next file. Returns whether there is one.
    fn begin_file(&mut self) -> Result<bool, ReplayError>
        ensures begins { IfOk result (λ more. more ≡ true → BeginsFile self.old self.new) }
        ensures ended { IfOk result (λ more. more ≡ false → (self.old.files ≡ []) × (self.new ≡ self.old)) }
    {
        let [file, rest @ ..] = self.files else {
            return Ok(false);
        };
        self.end_file()?;
        self.reader.feed(file.as_slice())?;
        self.files = rest;
        self.begun = self.begun.saturating_add(1);
        Ok(true)
    }

    /// Returns the next entry of the file, or `None` at its end.
    fn next_here(&mut self) -> Result<Option<Entry>, ReplayError>
        ensures reads { IfOk result (λ found. Reads self.old.reader found self.new.reader) }
        ensures files { self.new.files ≡ self.old.files }
        ensures begun { self.new.begun ≡ self.old.begun }
    {
        match self.reader.next() {
            Ok(entry) => Ok(entry),
            Err(error) => Err(self.fault(error)),
        }
    }

    /// Returns the next entry, or `None` at the end of the last file.
    pub(crate) fn next(&mut self) -> Result<Option<Entry>, ReplayError>
        ensures gives { IfOk result (λ found. Gives self.old found self.new) }
        ensures fewer { IfOk result (λ found. IfSome found (λ entry. bytes_left self.new < bytes_left self.old)) }
    {
        'files: loop {
            match self.next_here()? {
                Some(entry) => return Ok(Some(entry)),
                None => {
                    if !self.begin_file()? {
                        return Ok(None);
                    }
                }
            }
        }
    }
}
