//! Reading and replaying records.
use crate::cut::say_cut;
use crate::error::RecordsError;
use crate::folder::{files_in, unread};
use crate::record_file::{RecordFile, first_record};
use record_merge::{RecordedGroup, Replayed, replay};
use std::alloc::{AllocError, Global};
use std::fs;
use std::fs::File;
use std::io::Write;
use std::rt::Files;

/// The texts of the files of one record.
fn texts_of<R: AllocGlobal + Files<File = File>>(
    rt: &R,
    alloc: Global,
    folder: &str,
    files: &[RecordFile],
) -> Result<Vec<Vec<u8>>, RecordsError> {
    let mut texts = Vec::new(alloc);
    for file in files {
        let RecordFile { stem, number } = file;
        let path = format!(in alloc; "{folder}/{stem}.{number}.record")?;
        match fs::read(rt, path.as_str()) {
            Ok(text) => texts.push(text)?,
            Err(error) => return Err(unread(alloc, path.as_str(), error)),
        }
    }
    Ok(texts)
}

/// Reads and replays the record of these files. Says so if the last of them is cut.
fn replay_files<R: AllocGlobal + Files<File = File>, F: Write>(
    rt: &R,
    alloc: Global,
    folder: &str,
    files: &[RecordFile],
    faults: &mut F,
) -> Result<Option<Replayed>, RecordsError> {
    let [first, ..] = files else {
        return Ok(None);
    };
    let texts = texts_of(rt, alloc, folder, files)?;
    let path = format!(in alloc; "{folder}/{}", first.stem)?;
    match replay(alloc, texts.as_slice()) {
        Ok(run) => {
            say_cut(path.as_str(), run.left, faults);
            Ok(Some(run))
        }
        Err(error) => Err(RecordsError::Replay { path, error }),
    }
}

/// Adds a run to the group, which it begins if there is none.
fn add(
    alloc: Global,
    group: &mut Option<RecordedGroup>,
    run: Replayed,
) -> Result<(), RecordsError> {
    match group {
        Some(group) => Ok(group.add(run)?),
        None => {
            *group = Some(RecordedGroup::new(alloc, run)?);
            Ok(())
        }
    }
}

/// Adds the runs whose records a folder has.
fn add_folder<R, F>(
    rt: &R,
    alloc: Global,
    folder: &str,
    group: &mut Option<RecordedGroup>,
    faults: &mut F,
) -> Result<(), RecordsError>
where
    R: AllocGlobal + Files<File = File> + Clone + Drop,
    F: Write,
{
    let files = files_in(rt, alloc, folder)?;
    let mut rest = files.as_slice();
    for _ in 0..files.len() {
        let (record, others) = first_record(rest);
        if let Some(run) = replay_files(rt, alloc, folder, record, faults)? {
            add(alloc, group, run)?;
        }
        rest = others;
    }
    Ok(())
}

/// Reads the records of the folders, and replays them: the runs of a group, in the order of the folders and of the
/// names of their files. Says of each record that is cut, as after a crash, that it is so.
pub fn read_group<R, F>(
    rt: &R,
    folders: &[&str],
    faults: &mut F,
) -> Result<RecordedGroup, RecordsError>
where
    R: AllocGlobal + Files<File = File> + Clone + Drop,
    F: Write,
{
    let alloc = rt.alloc();
    let mut group = None;
    for folder in folders {
        add_folder(rt, alloc, folder, &mut group, faults)?;
    }
    match group {
        Some(group) => Ok(group),
        None => Err(RecordsError::from(AllocError)),
    }
}
