//! The identity of a frame.
ghost use Rattle.std.specs.Prelude.{◌≡◌};

use frames::Frame;
use node_names::Origin;

/// Identifies a frame: the run that sent it, and its number among the frames of that run.
#[derive(Clone, Copy, Debug, PartialEq, Eq, Hash)]
pub(crate) struct FrameId {
    pub(crate) sender: Origin,
    pub(crate) number: u64,
}

impl FrameId {
    /// The identity of a frame that this run sent.
    pub(crate) fn of(sender: Origin, note: &Frame) -> FrameId
        ensures { result ≡ record { sender = sender; number = note.now.number } }
    {
        FrameId {
            sender,
            number: note.number(),
        }
    }
}
