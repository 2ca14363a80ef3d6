//! The record of one run of a node: what it started with, and each stimulus that it took.
//!
//! A core is a state machine, so a record is enough to replay the run. It stands in one file or in several:
//!
//! ```text
//! record  = file+
//! file    = "PLUMREC" version block block*
//! block   = length body check
//! ```
//!
//! The first block of a file tells the head of the record, and where the file goes on with it; each further one tells a
//! stimulus. A length is four bytes, most significant first, and so is every number of several bytes. A check is the
//! first eight bytes of the SHA-256 of the check before it, the length and the body; before the first block of a file
//! stand `PLUMREC` and the version. That block tells the last check of the file before, so each check vouches for all
//! that the record says up to there.
#![tactic(auto)]

mod block;
mod body_reading;
mod body_writing;
mod check;
mod error;
mod fields;
mod head;
mod head_reading;
mod head_writing;
mod opening;
mod place;
mod put;
mod reader;
mod unread;
mod writer;

pub use error::{HeadPart, RecordError, RecordErrorKind};
pub use head::Head;
pub use reader::{Entry, RecordReader};
pub use writer::RecordWriter;

/// The version of the format.
pub const VERSION: u8 = 1;

/// The maximum number of bytes of a block's body: the longest frame that arrives, its sender and its dice.
pub const MAX_BODY: usize = 33_051;
