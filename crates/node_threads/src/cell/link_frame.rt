//! One frame on its way through a link's ring.
ghost use Rattle.std.specs.Prelude.{◌≡◌, ◌≤◌, true, length, IfOk};
ghost use Rattle.frames.specs.declared.TheConstants.{MAX_FRAME};
ghost use Rattle.node_threads.specs.LinkText.{spelling};

use bytes::Bytes;
use frames::{Frame, encode, same_frame};
use protocol::Wire;
use std::alloc::{AllocError, Allocator};
use std::marker::Model;

/// A frame that goes over a link. Contracts see it as its bytes. These are encoded only when it comes out, so the node
/// encodes nothing under its lock, and the payload is shared and not copied before that.
#[derive(Drop)]
pub(crate) struct LinkFrame<A: Allocator> {
    frame: Frame<A>,
}

impl<A: Allocator> Model for LinkFrame<A> {
    ghost use Rattle.std.specs.Prelude.{ℕ, List};
    ghost use Rattle.node_threads.specs.LinkText.{spelling};

    ghost Value = { List ℕ };

    ghost view = { λ l. spelling l.frame };
}

impl<A: Allocator + Copy> LinkFrame<A> {
    /// A frame that shares its payload with this one.
    pub(crate) fn of(frame: &Frame<A>) -> Result<LinkFrame<A>, AllocError>
        ensures { IfOk result (λ l. l ≡ spelling frame.now) }
    {
        let frame = frame.copy()?;
        Ok(LinkFrame { frame })
    }

    /// Its bytes, of which there are at most `MAX_FRAME`.
    pub(crate) fn encode(&self, alloc: A) -> Result<Bytes<A>, AllocError>
        ensures value { IfOk result (λ bytes. bytes ≡ self.now) }
        ensures short { IfOk result (λ bytes. length bytes ≤ MAX_FRAME) }
    {
        encode(alloc, &self.frame)
    }

    /// Whether it is this frame. Nothing is encoded.
    pub(crate) fn is(&self, frame: &Frame<A>) -> bool
        ensures { result ≡ true → self.now ≡ spelling frame.now }
    {
        same_frame(&self.frame, frame)
    }
}
