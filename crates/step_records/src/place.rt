//! Where a file goes on with a record.
use crate::check::Check;

/// Where a file goes on with a record: what stands in all files before it.
#[derive(Clone, Copy, Debug, PartialEq, Eq)]
pub(crate) struct Place {
    /// The number of entries.
    pub(crate) entries: u64,
    /// The last check, or `Check::START` where there is no file before.
    pub(crate) check: Check,
}

impl Place {
    /// Where the first file begins.
    pub(crate) const START: Place = Place {
        entries: 0,
        check: Check::START,
    };
}
