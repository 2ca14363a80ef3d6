//! Where in the files of records that stands which does not fit into one run.
use crate::error::RecordsError;
use crate::roster::runs_in;
use crate::run::Run;
use crate::source::Source;
use node_names::Origin;
use std::alloc::{AllocError, Global};
use std::fmt;
use std::fs::File;
use std::rt::Files;
use trace_merge::MergeFault;

/// Where in the files of records that stands which does not fit into one run.
#[derive(Debug, Drop)]
pub enum FaultPlace {
    /// The entry stands in this file, behind so many of its bytes.
    Entry { path: String, entry: usize, at: u64 },
    /// The record whose files begin with this path has no such entry, so it is its start that does not fit.
    Start { path: String },
    /// Both records, whose files begin with these paths, are of one run.
    Twice { one: String, other: String },
}

impl fmt::Display for FaultPlace {
    fn fmt<W: fmt::Write>(&self, f: &mut fmt::Formatter<W>) -> fmt::Result {
        match self {
            FaultPlace::Entry { path, entry, at } => {
                write!(f, "{path}: entry {entry}, at byte {at} of the file")
            }
            FaultPlace::Start { path } => write!(f, "{path}: its start"),
            FaultPlace::Twice { one, other } => write!(f, "{one} and {other} are of one run"),
        }
    }
}

/// What the paths of the files begin with, for each record of this run.
fn paths_of(alloc: Global, runs: &[Run], origin: &Origin) -> Result<Vec<String>, AllocError> {
    let mut paths = Vec::new(alloc);
    for run in runs {
        if run.origin == *origin {
            paths.push(String::from_str(alloc, run.path())?)?;
        }
    }
    Ok(paths)
}

/// The first two records of this run.
fn twice(alloc: Global, runs: &[Run], origin: &Origin) -> Result<Option<FaultPlace>, AllocError> {
    let mut paths = paths_of(alloc, runs, origin)?;
    paths.truncate(2);
    match (paths.pop(), paths.pop()) {
        (Some(other), Some(one)) => Ok(Some(FaultPlace::Twice { one, other })),
        _ => Ok(None),
    }
}

/// Where the stimulus at this place of the run stands in its record.
fn entry<R: Files<File = File>>(
    alloc: Global,
    source: &mut Source<'_, R>,
    runs: &mut [Run],
    origin: &Origin,
    place: usize,
) -> Result<Option<FaultPlace>, RecordsError> {
    let Some(run) = runs.iter_mut().find(|run| run.origin == *origin) else {
        return Ok(None);
    };
    match run.find(source, place)? {
        Some((path, at)) => Ok(Some(FaultPlace::Entry {
            path,
            entry: place,
            at,
        })),
        None => {
            let path = String::from_str(alloc, run.path())?;
            Ok(Some(FaultPlace::Start { path }))
        }
    }
}

/// Looks up where in the files of the folders the fault stands, which reading them had: it reads the heads of all
/// records again, and one record up to the fault.
pub fn place_of<R>(
    rt: &R,
    folders: &[&str],
    fault: &MergeFault,
) -> Result<Option<FaultPlace>, RecordsError>
where
    R: AllocGlobal + Files<File = File> + Clone + Drop,
{
    let alloc = rt.alloc();
    let mut source = Source::new(rt, alloc);
    let mut runs = runs_in(rt, alloc, &mut source, folders)?;
    match fault {
        MergeFault::Doubled { origin } => Ok(twice(alloc, runs.as_slice(), origin)?),
        MergeFault::Stuck { origin, place }
        | MergeFault::Unlike { origin, place }
        | MergeFault::NotARun { origin, place } => {
            entry(alloc, &mut source, runs.as_mut_slice(), origin, *place)
        }
        MergeFault::OutOfMemory => Err(RecordsError::OutOfMemory),
    }
}
