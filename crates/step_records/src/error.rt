//! Why bytes are no record.
use frames::FrameFault;
use std::alloc::AllocError;
use std::fmt;
use thiserror::Error;

/// A part of a head.
#[derive(Clone, Copy, Debug, PartialEq, Eq)]
pub enum HeadPart {
    /// The label of the cluster.
    Label,
    /// The name and the incarnation of the node.
    Node,
    /// The limits of the node.
    Limits,
    /// The peers that the node started with. They are wrong, too, if they do not fit the limits or the node's name.
    Peers,
    /// The contact of the node. It is wrong, too, if it is the node itself.
    Contact,
    /// The number of the file's first entry and the check before it, or bytes behind them.
    Place,
}

impl fmt::Display for HeadPart {
    fn fmt<W: fmt::Write>(&self, f: &mut fmt::Formatter<W>) -> fmt::Result {
        match self {
            HeadPart::Label => write!(f, "label"),
            HeadPart::Node => write!(f, "node"),
            HeadPart::Limits => write!(f, "limits"),
            HeadPart::Peers => write!(f, "peers"),
            HeadPart::Contact => write!(f, "contact"),
            HeadPart::Place => write!(f, "place"),
        }
    }
}

/// The reason why a record is not read on.
#[derive(Clone, Copy, Debug, PartialEq, Eq, Error)]
pub enum RecordErrorKind {
    /// The file does not begin with `PLUMREC`.
    #[error("it is no record")]
    NoRecord,
    /// The version, which is here, is not 1.
    #[error("version {0} is unknown")]
    OtherVersion(u8),
    /// This part of a head is malformed.
    #[error("the head's {0} is malformed")]
    BadHead(HeadPart),
    /// The length of a block, which is here, is greater than `MAX_BODY`.
    #[error("{0} bytes are too many")]
    TooLong(u32),
    /// No kind of stimulus has this number.
    #[error("{0} is no kind of entry")]
    UnknownKind(u8),
    /// A field of an entry is malformed, or bytes follow the last one.
    #[error("the entry is malformed: {0}")]
    BadEntry(FrameFault),
    /// The frame that arrived is none.
    #[error("the frame is malformed: {0}")]
    BadFrame(FrameFault),
    /// The check is not that of the bytes: some were changed, left out or put in.
    #[error("the check does not fit")]
    BadCheck,
    /// The file is of the record of another run, or of another cluster.
    #[error("the file is of another record")]
    OtherRecord,
    /// The file does not go on where the one before ended: it begins with this entry.
    #[error("the file begins with entry {0}")]
    Gap(u64),
    /// The file ends within an entry, or before its head does, so it has no next one.
    #[error("the file is cut")]
    Cut,
    /// An allocation was refused. The call may be repeated.
    #[error("out of memory")]
    OutOfMemory,
}

impl From<AllocError> for RecordErrorKind {
    ghost use Rattle.std.specs.Prelude.{◌≡◌};
    ghost use Rattle.step_records.specs.declared.error.RecordErrorKind.TheVariants.{OutOfMemory};

    ghost from_gives = { λ _ e. e ≡ OutOfMemory };

    fn from(_error: AllocError) -> RecordErrorKind {
        RecordErrorKind::OutOfMemory
    }
}

/// Where a record is not read on, and why.
#[derive(Clone, Copy, Debug, PartialEq, Eq, Error)]
#[error("entry {entry}, at byte {at} of its file: {kind}")]
pub struct RecordError {
    /// How many entries were read before, from all files.
    pub entry: u64,
    /// How many bytes of this file were read before.
    pub at: u64,
    /// The reason.
    pub kind: RecordErrorKind,
}
