//! The incarnation of a node: each start has a greater one than the starts before.
use crate::error::NodeError;
use crate::folder::make_folder;
use node_names::Incarnation;
use std::alloc::AllocError;
use std::fs::File;
use std::io::{ErrorKind, Write};
use std::rt::Files;
use std::time::Clock;
use std::{fs, io};

/// The microseconds since 1970, as the system's clock has it.
pub(crate) fn microseconds<R: Clock>(rt: &R) -> io::Result<u64> {
    let micros = rt.since_1970()?.as_micros();
    Ok(u64::try_from(micros).unwrap_or(u64::MAX))
}

/// The path of a file in the folder.
fn path_in<R: AllocGlobal>(rt: &R, folder: &str, name: &str) -> Result<String, AllocError> {
    format!(in rt.alloc(); "{folder}/{name}")
}

/// Reads the incarnation that is kept in the folder, if there is one.
fn last_kept<R: AllocGlobal + Files<File = File> + Clock>(
    rt: &R,
    folder: &str,
) -> Result<Option<u64>, NodeError> {
    let path = path_in(rt, folder, "incarnation")?;
    let text = match fs::read_to_string(rt, path.as_str()) {
        Ok(text) => text,
        Err(error) if error.kind() == ErrorKind::NotFound => return Ok(None),
        Err(error) => return Err(state_error(rt, folder, error)),
    };
    match text.as_str().trim().parse() {
        Ok(last) => Ok(Some(last)),
        Err(_) => Err(NodeError::BadState {
            folder: String::from_str(rt.alloc(), folder)?,
        }),
    }
}

/// The error of a folder that cannot be used.
fn state_error<R: AllocGlobal>(rt: &R, folder: &str, error: io::Error) -> NodeError {
    match String::from_str(rt.alloc(), folder) {
        Ok(folder) => NodeError::State { folder, error },
        Err(_) => NodeError::OutOfMemory,
    }
}

/// Writes the incarnation into the folder, which is made if it is not there, so that it is there after a crash of the
/// system too.
fn keep<R: AllocGlobal + Files<File = File> + Clock>(
    rt: &R,
    folder: &str,
    incarnation: u64,
) -> io::Result<()> {
    make_folder(rt, folder)?;
    let path = path_in(rt, folder, "incarnation")?;
    let beside = path_in(rt, folder, "incarnation.new")?;
    let mut file = fs::create(rt, beside.as_str())?;
    write!(file, "{incarnation}\n")?;
    file.sync_all()?;
    drop(file);
    fs::rename(rt, beside.as_str(), path.as_str())?;
    fs::open(rt, folder)?.sync_all()
}

/// The incarnation of this start: above the last one that is kept in the folder, and above the clock, and kept there
/// now. Without a folder it is the clock's microseconds.
pub(crate) fn begin<R: AllocGlobal + Files<File = File> + Clock>(
    rt: &R,
    folder: Option<&str>,
) -> Result<Incarnation, NodeError> {
    let now = microseconds(rt)?;
    let Some(folder) = folder else {
        return Ok(Incarnation(now));
    };
    let incarnation = match last_kept(rt, folder)? {
        Some(u64::MAX) => return Err(NodeError::Spent),
        Some(last) => now.max(last.saturating_add(1)),
        None => now,
    };
    match keep(rt, folder, incarnation) {
        Ok(()) => Ok(Incarnation(incarnation)),
        Err(error) => Err(state_error(rt, folder, error)),
    }
}
