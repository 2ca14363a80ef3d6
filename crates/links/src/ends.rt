//! How a link ends.
use frames::FrameFault;
use std::fmt;

/// The reason why a call that moves bytes ended. After every reason except `TurnLimit`, the link is closed.
#[derive(Clone, Copy, Debug, PartialEq, Eq)]
pub enum LinkEnd {
    /// A failed read.
    ReadFault,
    /// A writer that failed or took no byte, after `bytes` bytes of this call.
    WriteFault { bytes: u64 },
    /// A fault other than `Short` and `OutOfMemory` in the bytes that were read.
    Frame(FrameFault),
    /// The end of the stream, with `left` bytes that belong to no whole frame.
    Ended { left: usize },
    /// The end of the requested number of reads.
    TurnLimit,
    /// A sink that refused a frame.
    SinkClosed,
    /// A refused allocation.
    OutOfMemory,
}

impl fmt::Display for LinkEnd {
    ghost use Rattle.std.specs.Prelude.{Some};
    ghost use Rattle.links.specs.EndText.{end_text};

    ghost output = { λ end. Some (end_text end) };

    fn fmt<W: fmt::Write>(&self, f: &mut fmt::Formatter<W>) -> fmt::Result {
        match self {
            LinkEnd::ReadFault => write!(f, "the reader failed"),
            LinkEnd::WriteFault { bytes } => write!(f, "the writer failed after {bytes} bytes"),
            LinkEnd::Frame(fault) => write!(f, "{fault}"),
            LinkEnd::Ended { left } => {
                write!(f, "the stream ended with {left} bytes of a frame")
            }
            LinkEnd::TurnLimit => write!(f, "the turns are used up"),
            LinkEnd::SinkClosed => write!(f, "the sink takes no more"),
            LinkEnd::OutOfMemory => write!(f, "out of memory"),
        }
    }
}
