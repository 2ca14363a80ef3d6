//! The files of records in a folder.
use crate::error::RecordsError;
use crate::record_file::{RecordFile, order, parts_of};
use std::alloc::Global;
use std::fs::File;
use std::rt::Files;
use std::{fs, io};

/// The error of a path that cannot be read.
pub(crate) fn unread(alloc: Global, path: &str, error: io::Error) -> RecordsError {
    match String::from_str(alloc, path) {
        Ok(path) => RecordsError::Unread { path, error },
        Err(error) => RecordsError::from(error),
    }
}

/// The names of the files in a folder that are of records.
fn names<R>(rt: &R, alloc: Global, folder: &str) -> io::Result<Vec<RecordFile>>
where
    R: AllocGlobal + Files<File = File> + Clone + Drop,
{
    let mut files = Vec::new(alloc);
    for entry in fs::read_dir(rt, folder)? {
        let entry = entry?;
        if let Some((stem, number)) = parts_of(entry.file_name()) {
            let stem = String::from_str(alloc, stem)?;
            files.push(RecordFile { stem, number })?;
        }
    }
    Ok(files)
}

/// The files of records in a folder, those of each record in their order. There is one at least.
pub(crate) fn files_in<R>(
    rt: &R,
    alloc: Global,
    folder: &str,
) -> Result<Vec<RecordFile>, RecordsError>
where
    R: AllocGlobal + Files<File = File> + Clone + Drop,
{
    let mut files = match names(rt, alloc, folder) {
        Ok(files) => files,
        Err(error) => return Err(unread(alloc, folder, error)),
    };
    if files.is_empty() {
        let folder = String::from_str(alloc, folder)?;
        return Err(RecordsError::NoRecord { folder });
    }
    files.sort_by(order)?;
    Ok(files)
}
