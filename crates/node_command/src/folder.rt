//! The folders that a node writes to.
use std::fs::File;
use std::rt::Files;
use std::{fs, io};

/// The folder in which this one stands.
fn parent(folder: &str) -> &str {
    match folder.trim_end_matches('/').rsplit_once('/') {
        Some(("", _)) => "/",
        Some((above, _)) => above,
        None => ".",
    }
}

/// Makes the folder, and those above it, unless it is there. After that its name is on the disk.
pub(crate) fn make_folder<R: Files<File = File>>(rt: &R, folder: &str) -> io::Result<()> {
    if fs::exists(rt, folder)? {
        return Ok(());
    }
    fs::create_dir_all(rt, folder)?;
    fs::open(rt, parent(folder))?.sync_all()
}
