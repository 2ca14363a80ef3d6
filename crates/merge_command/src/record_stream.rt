//! A record that is read in pieces.
use crate::error::RecordsError;
use crate::folder::unread;
use crate::record_files::RecordFiles;
use crate::source::Source;
use frames::Frame;
use protocol::Stimulus;
use record_merge::ReplayError;
use std::alloc::Global;
use std::fs::File;
use std::io;
use std::rt::Files;
use step_records::{Entry, Head, RecordError, RecordErrorKind, RecordReader};

/// A record that is read in pieces, one file after the other. At most one of its files is open.
#[derive(Drop)]
pub(crate) struct RecordStream {
    alloc: Global,
    files: RecordFiles,
    reader: RecordReader,
    /// The file that is being read.
    file: Option<File>,
    /// How many files are begun.
    begun: usize,
    /// The stimulus that comes next, if it was read ahead.
    ahead: Option<Stimulus<Frame>>,
}

impl RecordStream {
    /// Makes a stream of these files. None is opened yet.
    pub(crate) fn new(alloc: Global, files: RecordFiles) -> RecordStream {
        RecordStream {
            alloc,
            files,
            reader: RecordReader::new(alloc),
            file: None,
            begun: 0,
            ahead: None,
        }
    }

    /// What the paths of the record's files begin with.
    pub(crate) fn path(&self) -> &str {
        self.files.path()
    }

    /// How many bytes at the end of the last file are no whole entry, once the record is read to its end.
    pub(crate) fn left(&self) -> usize {
        self.reader.left()
    }

    /// The stimulus that comes next. `None` before it is read ahead, and at the end of the record.
    pub(crate) fn ahead(&self) -> Option<&Stimulus<Frame>> {
        self.ahead.as_ref()
    }

    /// How many stimuli come before the one that comes next.
    pub(crate) fn place(&self) -> usize {
        let read = self.reader.entries() as usize;
        if self.ahead.is_some() {
            read.saturating_sub(1)
        } else {
            read
        }
    }

    /// Goes on behind the stimulus that was read ahead.
    pub(crate) fn pass(&mut self) {
        self.ahead = None;
    }

    /// Forgets all that was read, and closes the file. The record may then be read from its beginning again.
    pub(crate) fn close(&mut self) {
        self.reader = RecordReader::new(self.alloc);
        self.file = None;
        self.begun = 0;
        self.ahead = None;
    }

    /// The error of the record.
    fn fault(&self, error: ReplayError) -> RecordsError {
        match String::from_str(self.alloc, self.path()) {
            Ok(path) => RecordsError::Replay { path, error },
            Err(error) => RecordsError::from(error),
        }
    }

    /// The error of the file that was begun last.
    pub(crate) fn file_fault(&self, error: RecordError) -> RecordsError {
        match error.kind {
            RecordErrorKind::OutOfMemory => RecordsError::OutOfMemory,
            _ => self.fault(ReplayError::Record {
                file: self.begun.saturating_sub(1),
                error,
            }),
        }
    }

    /// Opens the next file. Returns whether there is one.
    fn open_next<R: Files<File = File>>(
        &mut self,
        source: &Source<'_, R>,
    ) -> Result<bool, RecordsError> {
        let Some(path) = self.files.path_at(self.alloc, self.begun)? else {
            return Ok(false);
        };
        if self.begun > 0
            && let Err(error) = self.reader.next_file()
        {
            return Err(self.file_fault(error));
        }
        match source.open(path.as_str()) {
            Ok(file) => self.file = Some(file),
            Err(error) => return Err(unread(self.alloc, path.as_str(), error)),
        }
        self.begun = self.begun.saturating_add(1);
        Ok(true)
    }

    /// Why the file that was begun last is not read.
    fn read_fault(&self, error: io::Error) -> RecordsError {
        let at = self.begun.saturating_sub(1);
        match self.files.path_at(self.alloc, at) {
            Ok(Some(path)) => unread(self.alloc, path.as_str(), error),
            Ok(None) => unread(self.alloc, self.path(), error),
            Err(error) => RecordsError::from(error),
        }
    }

    /// Reads the next piece of the file that is open, and closes it at its end. Returns whether there was one.
    fn read_piece<R: Files<File = File>>(
        &mut self,
        source: &mut Source<'_, R>,
    ) -> Result<bool, RecordsError> {
        let Some(file) = &mut self.file else {
            return Ok(false);
        };
        match source.read(file) {
            Ok([]) => {
                self.file = None;
                Ok(false)
            }
            Ok(piece) => {
                self.reader.feed(piece)?;
                Ok(true)
            }
            Err(error) => Err(self.read_fault(error)),
        }
    }

    /// Returns the next entry, or `None` at the end of the last file.
    fn next<R: Files<File = File>>(
        &mut self,
        source: &mut Source<'_, R>,
    ) -> Result<Option<Entry>, RecordsError> {
        for _ in 0..u64::MAX {
            match self.reader.next() {
                Ok(Some(entry)) => return Ok(Some(entry)),
                Ok(None) => {}
                Err(error) => return Err(self.file_fault(error)),
            }
            if !self.read_piece(source)? && !self.open_next(source)? {
                return Ok(None);
            }
        }
        Ok(None)
    }

    /// Begins to read the record, and returns its head.
    pub(crate) fn begin<R: Files<File = File>>(
        &mut self,
        source: &mut Source<'_, R>,
    ) -> Result<Head, RecordsError> {
        match self.next(source)? {
            Some(Entry::Head(head)) => Ok(head),
            _ => Err(self.fault(ReplayError::NoHead)),
        }
    }

    /// Reads the record from its beginning up to the stimulus at this place. Returns the path of its file, and how many
    /// of the file's bytes come before it. `None` if the record has no such stimulus.
    pub(crate) fn find<R: Files<File = File>>(
        &mut self,
        source: &mut Source<'_, R>,
        place: usize,
    ) -> Result<Option<(String, u64)>, RecordsError> {
        self.close();
        for _ in 0..u64::MAX {
            let (read, at) = (self.reader.entries(), self.reader.at());
            match self.next(source)? {
                Some(Entry::Stimulus(_)) if read == place as u64 => return self.begun_at(at),
                Some(_) => {}
                None => return Ok(None),
            }
        }
        Ok(None)
    }

    /// The path of the file that was begun last, with this number of bytes.
    fn begun_at(&self, at: u64) -> Result<Option<(String, u64)>, RecordsError> {
        match self
            .files
            .path_at(self.alloc, self.begun.saturating_sub(1))?
        {
            Some(path) => Ok(Some((path, at))),
            None => Ok(None),
        }
    }

    /// Reads ahead to the stimulus that comes next, unless the record ends before it.
    pub(crate) fn read_ahead<R: Files<File = File>>(
        &mut self,
        source: &mut Source<'_, R>,
    ) -> Result<(), RecordsError> {
        for _ in 0..u64::MAX {
            if self.ahead.is_some() {
                return Ok(());
            }
            match self.next(source)? {
                Some(Entry::Stimulus(stimulus)) => self.ahead = Some(stimulus),
                Some(Entry::Head(_head)) => {}
                None => return Ok(()),
            }
        }
        Ok(())
    }
}
