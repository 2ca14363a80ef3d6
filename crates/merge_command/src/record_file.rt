//! The files of records, by their names.
use std::cmp::Ordering;

/// What the name of a record's file ends in.
const SUFFIX: &str = ".record";

/// A file of a record, by its name, `NAME.INCARNATION.NUMBER.record`.
#[derive(Drop)]
pub(crate) struct RecordFile {
    /// `NAME.INCARNATION`, by which the files of one record are known.
    pub(crate) stem: String,
    /// Which of them it is, from 1 on.
    pub(crate) number: u64,
}

/// The stem and the number in the name of a record's file, if it is one.
pub(crate) fn parts_of(name: &str) -> Option<(&str, u64)> {
    let (stem, number) = name.strip_suffix(SUFFIX)?.rsplit_once('.')?;
    if number.starts_with('+') {
        return None;
    }
    Some((stem, number.parse().ok()?))
}

/// The order of files: those of one record stand together, in their order.
pub(crate) fn order(one: &RecordFile, other: &RecordFile) -> Ordering {
    match one.stem.as_str().cmp(other.stem.as_str()) {
        Ordering::Equal => one.number.cmp(&other.number),
        order => order,
    }
}

/// The first files of a list, which are of one record, and the rest.
pub(crate) fn first_record(files: &[RecordFile]) -> (&[RecordFile], &[RecordFile]) {
    let [first, ..] = files else {
        return (files, files);
    };
    let count = files
        .iter()
        .take_while(|file| file.stem == first.stem)
        .count();
    files.split_at(count.min(files.len()))
}
