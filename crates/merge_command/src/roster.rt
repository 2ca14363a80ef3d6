//! The runs whose records stand in folders.
use crate::error::RecordsError;
use crate::folder::files_in;
use crate::record_file::first_record;
use crate::record_files::RecordFiles;
use crate::run::Run;
use crate::source::Source;
use std::alloc::Global;
use std::fs::File;
use std::rt::Files;

/// Adds the run of a record, if it is of the same group as the first run.
fn add<R: Files<File = File>>(
    alloc: Global,
    source: &mut Source<'_, R>,
    files: RecordFiles,
    runs: &mut Vec<Run>,
) -> Result<(), RecordsError> {
    let run = Run::of_files(alloc, source, files)?;
    if let Some(first) = runs.first() {
        first.judge(&run)?;
    }
    runs.push(run)?;
    Ok(())
}

/// Adds the runs whose records a folder has.
fn add_folder<R>(
    rt: &R,
    alloc: Global,
    source: &mut Source<'_, R>,
    folder: &str,
    runs: &mut Vec<Run>,
) -> Result<(), RecordsError>
where
    R: AllocGlobal + Files<File = File> + Clone + Drop,
{
    let files = files_in(rt, alloc, folder)?;
    let mut rest = files.as_slice();
    for _ in 0..files.len() {
        let (record, others) = first_record(rest);
        if let Some(files) = RecordFiles::new(alloc, folder, record)? {
            add(alloc, source, files, runs)?;
        }
        rest = others;
    }
    Ok(())
}

/// The runs whose records the folders have, in the order of the folders and of the names of their files. Only the heads
/// are read.
pub(crate) fn runs_in<R>(
    rt: &R,
    alloc: Global,
    source: &mut Source<'_, R>,
    folders: &[&str],
) -> Result<Vec<Run>, RecordsError>
where
    R: AllocGlobal + Files<File = File> + Clone + Drop,
{
    let mut runs = Vec::new(alloc);
    for folder in folders {
        add_folder(rt, alloc, source, folder, &mut runs)?;
    }
    Ok(runs)
}
