//! The record of what a node takes.
use crate::folder::make_folder;
use cluster_node::{ClusterNode, SteppedNode};
use frames::Frame;
use node_options::RecordSync;
use protocol::Segment;
use std::alloc::Global;
use std::fs::File;
use std::io::{ErrorKind, Write};
use std::rt::Files;
use std::{fs, io};
use step_records::{Head, RecordWriter};

/// From how many bytes on a file of a record is followed by another.
const FILE_SIZE: u64 = 67_108_864;

/// How many microseconds may pass before a record is written to the disk, where that is done each second.
const SECOND: u64 = 1_000_000;

/// The record of what a node takes, in the files `NAME.INCARNATION.NUMBER.record` of a folder.
#[derive(Drop)]
pub(crate) struct Recorder {
    alloc: Global,
    /// The folder, and what the names of its files begin with.
    folder: String,
    stem: String,
    writer: RecordWriter,
    file: File,
    /// How many files there are.
    files: u64,
    /// How many bytes the last file has.
    size: u64,
    /// What is to be written.
    text: Vec<u8>,
    sync: RecordSync,
    /// Whether something was written since the file was written to the disk.
    is_unsynced: bool,
    /// The clock's microseconds when it was written to the disk last.
    synced: u64,
}

/// Makes the file of this number. One that is there already is not touched, and refused.
fn make_file<R: Files<File = File>>(
    rt: &R,
    alloc: Global,
    folder: &str,
    stem: &str,
    number: u64,
) -> io::Result<File> {
    let path = format!(in alloc; "{folder}/{stem}.{number}.record")?;
    let file = File::create_new(rt, path.as_str())?;
    fs::open(rt, folder)?.sync_all()?;
    Ok(file)
}

impl Recorder {
    /// Begins the record of a node in the folder, which is made if it is not there.
    pub(crate) fn begin<R: Files<File = File>>(
        rt: &R,
        alloc: Global,
        folder: &str,
        head: &Head,
        sync: RecordSync,
    ) -> io::Result<Recorder> {
        let mut text = Vec::new(alloc);
        let writer = RecordWriter::begin(alloc, head, &mut text)?;
        let name = head.origin.name;
        let incarnation = head.origin.incarnation.0;
        let stem = format!(in alloc; "{name}.{incarnation}")?;
        make_folder(rt, folder)?;
        let file = make_file(rt, alloc, folder, stem.as_str(), 1)?;
        let mut recorder = Recorder {
            alloc,
            folder: String::from_str(alloc, folder)?,
            stem,
            writer,
            file,
            files: 1,
            size: 0,
            text,
            sync,
            is_unsynced: false,
            synced: 0,
        };
        recorder.write()?;
        recorder.sync(0)?;
        Ok(recorder)
    }

    /// What lists are allocated by.
    pub(crate) fn allocator(&self) -> Global {
        self.alloc
    }

    /// Writes what was appended to the text.
    fn write(&mut self) -> io::Result<()> {
        if self.text.is_empty() {
            return Ok(());
        }
        self.file.write_all(&self.text)?;
        self.size = self.size.saturating_add(self.text.len() as u64);
        self.text.clear();
        self.is_unsynced = true;
        Ok(())
    }

    /// Writes the file to the disk at this time, unless nothing was written since that was done.
    pub(crate) fn sync(&mut self, now: u64) -> io::Result<()> {
        if self.is_unsynced {
            self.file.sync_data()?;
            self.is_unsynced = false;
            self.synced = now;
        }
        Ok(())
    }

    /// Whether it is to be written to the disk at this time.
    fn is_due(&self, now: u64) -> bool {
        match self.sync {
            RecordSync::Always => true,
            RecordSync::Second => now.saturating_sub(self.synced) >= SECOND,
            RecordSync::Never => false,
        }
    }

    /// Goes on in another file.
    fn next_file<R: Files<File = File>>(&mut self, rt: &R) -> io::Result<()> {
        self.file.sync_data()?;
        let number = self.files.saturating_add(1);
        let (folder, stem) = (self.folder.as_str(), self.stem.as_str());
        self.file = make_file(rt, self.alloc, folder, stem, number)?;
        self.files = number;
        self.size = 0;
        self.writer.next_file(&mut self.text)?;
        self.write()
    }

    /// Records these steps.
    fn take(&mut self, parts: &[Segment<Frame>]) -> io::Result<()> {
        for part in parts {
            for step in part.steps.as_slice() {
                self.writer.push(&step.stimulus, &mut self.text)?;
            }
        }
        self.write()
    }

    /// Records what the node took since this was called last, at this time of the clock. Returns whether that was
    /// something.
    pub(crate) fn record<R: Files<File = File>, N: SteppedNode<Global>>(
        &mut self,
        rt: &R,
        node: &mut ClusterNode<N>,
        now: u64,
    ) -> io::Result<bool> {
        let Some(parts) = node.take_kept() else {
            return Err(io::Error::from(ErrorKind::OutOfMemory));
        };
        self.take(parts.as_slice())?;
        if self.is_due(now) {
            self.sync(now)?;
        }
        if self.size >= FILE_SIZE {
            self.next_file(rt)?;
        }
        Ok(!parts.is_empty())
    }
}
