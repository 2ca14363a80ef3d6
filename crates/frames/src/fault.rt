//! The faults of frames.
use std::alloc::AllocError;
use std::error::Error;
use std::fmt;

/// The reason why bytes or parts do not make a frame.
#[derive(Clone, Copy, Debug, PartialEq, Eq)]
pub enum FrameFault {
    /// The bytes end before the frame does. More bytes may complete it.
    Short,
    /// The length prefix is greater than `MAX_BODY`.
    TooLong,
    /// The version is neither 1 nor 2.
    BadVersion,
    /// No kind of frame in this version has this number.
    BadKind,
    /// The length of a name is not 1 to 32, or one of its bytes is not allowed in names.
    BadName,
    /// A field is cut off by the end of the frame, or its value is out of range.
    BadField,
    /// The number of items in a list is out of range.
    BadCount,
    /// Bytes of the frame are left after its last field.
    Trailing,
    /// An allocation was refused.
    OutOfMemory,
}

impl fmt::Display for FrameFault {
    ghost use Rattle.std.specs.Prelude.{Some};
    ghost use Rattle.frames.specs.FaultText.{fault_text};

    ghost output = { λ fault. Some (fault_text fault) };

    fn fmt<W: fmt::Write>(&self, f: &mut fmt::Formatter<W>) -> fmt::Result {
        match self {
            FrameFault::Short => write!(f, "the frame is not whole"),
            FrameFault::TooLong => write!(f, "the frame is too long"),
            FrameFault::BadVersion => write!(f, "the version is unknown"),
            FrameFault::BadKind => write!(f, "the kind of the frame is unknown"),
            FrameFault::BadName => write!(f, "a name is malformed"),
            FrameFault::BadField => write!(f, "a field is cut off or out of range"),
            FrameFault::BadCount => write!(f, "a count is out of range"),
            FrameFault::Trailing => write!(f, "bytes follow the last field"),
            FrameFault::OutOfMemory => write!(f, "out of memory"),
        }
    }
}

impl Error for FrameFault {}

impl From<AllocError> for FrameFault {
    ghost use Rattle.std.specs.Prelude.{◌≡◌};
    ghost use Rattle.frames.specs.declared.fault.FrameFault.TheVariants.{OutOfMemory};

    ghost from_gives = { λ _ e. e ≡ OutOfMemory };

    fn from(_e: AllocError) -> FrameFault {
        FrameFault::OutOfMemory
    }
}
