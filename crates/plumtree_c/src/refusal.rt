//! What the calls answer: numbers, and what each means in words.
ghost use Rattle.plumtree_c.specs.Answers.{IsRefusal};

use frames::FrameFault;
use node_names::{LimitsFault, NameFault};
use protocol::CoreError;
use std::alloc::AllocError;
use wire_node::WireError;

/// The call was made.
pub(crate) const DONE: i32 = 1;

/// There is none, or it is not whole yet. Nothing has changed.
pub(crate) const NONE: i32 = 0;

/// Why a call was refused. Nothing has changed then.
#[derive(Clone, Copy, Debug, PartialEq, Eq)]
pub(crate) enum Refusal {
    /// The slot has no node of this kind.
    NotLive,
    /// The slot has a node already.
    Live,
    /// The slot was not zeroed.
    NotZeroed,
    /// The slot is a copy of one that was used since.
    Copied,
    /// An allocation was refused.
    OutOfMemory,
    /// The room for the answer is too small.
    RoomTooSmall,
    /// The payload has more than 32,768 bytes.
    PayloadTooLong,
    /// The numbers of this incarnation are used up.
    NumbersSpent,
    /// A name is empty, is longer than 32 bytes or has a byte that is not allowed in names.
    BadName,
    /// The limits are out of range.
    BadLimits,
    /// The peers do not fit the active view, name a node twice or the node itself, or the contact is the node itself.
    BadPeers,
    /// The length prefix of the frame is too great.
    FrameTooLong,
    /// The version of the frame is unknown.
    BadVersion,
    /// The kind of the frame is unknown.
    BadKind,
    /// A name in the frame is malformed.
    BadFrameName,
    /// A field of the frame is cut off or out of range.
    BadField,
    /// A count in the frame is out of range.
    BadCount,
    /// Bytes of the frame follow its last field.
    Trailing,
    /// The node has no such connection, or no more can be numbered.
    NoConnection,
}

impl Refusal {
    /// The number of the refusal for C.
    pub(crate) fn code(self) -> i32
        ensures { IsRefusal result }
    {
        match self {
            Refusal::NotLive => -1,
            Refusal::Live => -2,
            Refusal::NotZeroed => -3,
            Refusal::Copied => -4,
            Refusal::OutOfMemory => -5,
            Refusal::RoomTooSmall => -6,
            Refusal::PayloadTooLong => -7,
            Refusal::NumbersSpent => -8,
            Refusal::BadName => -9,
            Refusal::BadLimits => -10,
            Refusal::BadPeers => -11,
            Refusal::FrameTooLong => -12,
            Refusal::BadVersion => -13,
            Refusal::BadKind => -14,
            Refusal::BadFrameName => -15,
            Refusal::BadField => -16,
            Refusal::BadCount => -17,
            Refusal::Trailing => -18,
            Refusal::NoConnection => -19,
        }
    }
}

/// What a number means in words; no bytes, if no call answers it.
pub(crate) fn words_of(code: i32) -> &'static str {
    match code {
        1 => "done",
        0 => "there is none, or it is not whole yet",
        -1 => "the slot has no such node",
        -2 => "the slot has a node already",
        -3 => "the slot was not zeroed",
        -4 => "the slot is a copy of one that was used since",
        -5 => "out of memory",
        -6 => "the room is too small",
        -7 => "the payload is too long",
        -8 => "the numbers of this incarnation are used up",
        -9 => "a name is malformed",
        -10 => "the limits are out of range",
        -11 => "the peers do not fit together",
        -12 => "the frame is too long",
        -13 => "the version of the frame is unknown",
        -14 => "the kind of the frame is unknown",
        -15 => "a name in the frame is malformed",
        -16 => "a field of the frame is cut off or out of range",
        -17 => "a count in the frame is out of range",
        -18 => "bytes of the frame follow its last field",
        -19 => "there is no such connection",
        _ => "",
    }
}

impl From<AllocError> for Refusal {
    fn from(_e: AllocError) -> Refusal {
        Refusal::OutOfMemory
    }
}

impl From<NameFault> for Refusal {
    fn from(_e: NameFault) -> Refusal {
        Refusal::BadName
    }
}

impl From<LimitsFault> for Refusal {
    fn from(_e: LimitsFault) -> Refusal {
        Refusal::BadLimits
    }
}

impl From<CoreError> for Refusal {
    fn from(error: CoreError) -> Refusal {
        match error {
            CoreError::PayloadTooLong => Refusal::PayloadTooLong,
            CoreError::SeqSpent => Refusal::NumbersSpent,
            CoreError::OutOfMemory => Refusal::OutOfMemory,
        }
    }
}

/// The refusal of bytes that begin with no frame, and are not the beginning of one.
impl From<FrameFault> for Refusal {
    fn from(fault: FrameFault) -> Refusal {
        match fault {
            FrameFault::Short | FrameFault::OutOfMemory => Refusal::OutOfMemory,
            FrameFault::TooLong => Refusal::FrameTooLong,
            FrameFault::BadVersion => Refusal::BadVersion,
            FrameFault::BadKind => Refusal::BadKind,
            FrameFault::BadName => Refusal::BadFrameName,
            FrameFault::BadField => Refusal::BadField,
            FrameFault::BadCount => Refusal::BadCount,
            FrameFault::Trailing => Refusal::Trailing,
        }
    }
}

impl From<WireError> for Refusal {
    fn from(error: WireError) -> Refusal {
        match error {
            WireError::Refused(error) => error.into(),
            WireError::Frame(fault) => fault.into(),
            WireError::NoConnection => Refusal::NoConnection,
            WireError::BadPeers => Refusal::BadPeers,
            WireError::OutOfMemory => Refusal::OutOfMemory,
        }
    }
}
