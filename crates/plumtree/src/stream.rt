//! `plumtree merge --stream`.
use crate::merge::folders_of;
use crate::run_group::{references, write_verdict};
use clap::ArgMatches;
use merge_command::{DeliverySink, RecordsError, SinkError, follow_records};
use protocol::Delivery;
use simulation::{OutputError, write_lines};
use std::alloc::{AllocError, Global};
use std::fs::File;
use std::io::Write;
use std::rt::Files;
use trace_merge::MergeFault;

/// How many deliveries wait at most until they are written.
const ROOM: usize = 256;

/// Why records were not followed and written to their end.
#[derive(Debug, Drop)]
pub enum StreamError {
    /// They cannot be read.
    Records(RecordsError),
    /// They are not those of one run, which is written.
    Unmerged(MergeFault),
    /// A write failed.
    Unwritten,
    /// An allocation was refused.
    OutOfMemory,
}

impl From<OutputError> for StreamError {
    fn from(error: OutputError) -> StreamError {
        match error {
            OutputError::OutOfMemory => StreamError::OutOfMemory,
            OutputError::Unwritten => StreamError::Unwritten,
        }
    }
}

impl From<AllocError> for StreamError {
    fn from(_error: AllocError) -> StreamError {
        StreamError::OutOfMemory
    }
}

impl From<RecordsError> for StreamError {
    fn from(error: RecordsError) -> StreamError {
        match error {
            RecordsError::OutOfMemory => StreamError::OutOfMemory,
            RecordsError::Unwritten => StreamError::Unwritten,
            error => StreamError::Records(error),
        }
    }
}

/// What a sink says of lines that are not written.
fn sink_error(error: OutputError) -> SinkError {
    match error {
        OutputError::OutOfMemory => SinkError::OutOfMemory,
        OutputError::Unwritten => SinkError::Unwritten,
    }
}

/// Writes a line for each delivery.
#[derive(Drop)]
struct Lines<'a, W> {
    alloc: Global,
    out: &'a mut W,
    /// The room for a line.
    text: String,
    /// Those that wait to be written.
    waiting: Vec<Delivery>,
}

impl<W: Write> Lines<'_, W> {
    /// Writes those that wait.
    fn write(&mut self) -> Result<(), OutputError> {
        let lines = references(self.alloc, self.waiting.as_slice())?;
        write_lines(&mut self.text, lines.as_slice(), self.out)?;
        drop(lines);
        self.waiting.clear();
        Ok(())
    }

    /// Writes whether the records are those of one run, which they are unless there is a fault.
    fn tell(&mut self, fault: Option<&MergeFault>) -> Result<(), OutputError> {
        write_verdict(&mut self.text, fault, self.out)
    }
}

impl<W: Write> DeliverySink for Lines<'_, W> {
    fn deliver(&mut self, given: &[Delivery]) -> Result<(), SinkError> {
        for delivery in given {
            self.waiting.push(delivery.copy()?)?;
        }
        if self.waiting.len() < ROOM {
            return Ok(());
        }
        match self.write() {
            Ok(()) => Ok(()),
            Err(error) => Err(sink_error(error)),
        }
    }
}

/// Follows the records of the folders that the words name, and writes what they deliver, up to where they are no run.
fn follow<R, W, F>(
    rt: &R,
    words: &ArgMatches<'_>,
    lines: &mut Lines<'_, W>,
    faults: &mut F,
) -> Result<Option<MergeFault>, StreamError>
where
    R: AllocGlobal + Files<File = File> + Clone + Drop,
    W: Write,
    F: Write,
{
    let followed = follow_records(rt, folders_of(words), lines, faults);
    lines.write()?;
    Ok(followed?)
}

/// Follows the records of the folders that the words name in little memory, and writes what they deliver, in the order
/// of their run, and whether they are those of one run.
pub fn write_stream<R, W, F>(
    rt: &R,
    words: &ArgMatches<'_>,
    out: &mut W,
    faults: &mut F,
) -> Result<(), StreamError>
where
    R: AllocGlobal + Files<File = File> + Clone + Drop,
    W: Write,
    F: Write,
{
    let alloc = rt.alloc();
    let mut lines = Lines {
        alloc,
        out,
        text: String::new(alloc),
        waiting: Vec::new(alloc),
    };
    let fault = follow(rt, words, &mut lines, faults)?;
    lines.tell(fault.as_ref())?;
    match fault {
        Some(fault) => Err(StreamError::Unmerged(fault)),
        None => Ok(()),
    }
}
