//! Files that are read in pieces.
use std::alloc::Global;
use std::fs::File;
use std::io::Read;
use std::rt::Files;
use std::{fs, io};

/// How many bytes a piece of a file has, unless the file ends with it.
const PIECE: u64 = 65_536;

/// Opens files, and reads them in pieces. It keeps one piece in memory.
#[derive(Drop)]
pub(crate) struct Source<'a, R> {
    rt: &'a R,
    piece: Vec<u8>,
}

impl<'a, R: Files<File = File>> Source<'a, R> {
    /// Makes a source that has no piece yet.
    pub(crate) fn new(rt: &'a R, alloc: Global) -> Source<'a, R> {
        Source {
            rt,
            piece: Vec::new(alloc),
        }
    }

    /// Opens the file of this path.
    pub(crate) fn open(&self, path: &str) -> io::Result<File> {
        fs::open(self.rt, path)
    }

    /// Reads the next piece of a file. It is empty at the end of the file.
    pub(crate) fn read(&mut self, file: &mut File) -> io::Result<&[u8]> {
        self.piece.clear();
        let mut next = file.take(PIECE);
        next.read_to_end(&mut self.piece)?;
        Ok(self.piece.as_slice())
    }
}
