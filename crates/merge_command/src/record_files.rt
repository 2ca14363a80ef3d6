//! The files of one record.
use crate::record_file::RecordFile;
use std::alloc::{AllocError, Global};

/// The files of one record, in their order.
#[derive(Drop)]
pub(crate) struct RecordFiles {
    /// What their paths begin with, `FOLDER/NAME.INCARNATION`.
    path: String,
    /// Their numbers.
    numbers: Vec<u64>,
}

impl RecordFiles {
    /// These files of a folder, which are of one record. `None` where there are none.
    pub(crate) fn new(
        alloc: Global,
        folder: &str,
        files: &[RecordFile],
    ) -> Result<Option<RecordFiles>, AllocError> {
        let [first, ..] = files else {
            return Ok(None);
        };
        let path = format!(in alloc; "{folder}/{}", first.stem)?;
        let mut numbers = Vec::new(alloc);
        for file in files {
            numbers.push(file.number)?;
        }
        Ok(Some(RecordFiles { path, numbers }))
    }

    /// What their paths begin with.
    pub(crate) fn path(&self) -> &str {
        self.path.as_str()
    }

    /// The path of the file at this index, if there is one.
    pub(crate) fn path_at(&self, alloc: Global, at: usize) -> Result<Option<String>, AllocError> {
        let path = self.path.as_str();
        match self.numbers.get(at) {
            Some(number) => Ok(Some(format!(in alloc; "{path}.{number}.record")?)),
            None => Ok(None),
        }
    }
}
