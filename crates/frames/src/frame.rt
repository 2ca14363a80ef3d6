//! One frame: who sent it, its number, and what it says.
ghost use Rattle.std.specs.Prelude.{◌≡◌, None, Some, MatchResult};
ghost use Rattle.frames.specs.Frame.{IsFrame, refusal};

use crate::body::{Body, BodyOf, copy_body, has_good_counts, has_good_fields};
use crate::fault::FrameFault;
use bytes::Bytes;
use node_names::{MsgId, Origin};
use protocol::Wire;
use std::alloc::{AllocError, Allocator, Global};
use std::marker::Model;

/// A frame whose parts are within their limits.
#[derive_where(Debug, PartialEq)]
#[derive(Drop)]
pub struct Frame<A: Allocator = Global> {
    sender: Origin,
    number: u64,
    body: Body<A>,
}

impl<A: Allocator> Model for Frame<A> {
    ghost use Rattle.std.specs.Prelude.{refl};
    ghost use Rattle.frames.specs.Frame.{Frame, IsFrame};

    ghost Value = { Frame };

    ghost view = { λ f. record { sender = f.sender; number = f.number; body = f.body } };

    ghost invariant = { λ f. IsFrame (record { sender = f.sender; number = f.number; body = f.body }) };

    ghost inverse = { λ f. record { sender = f.sender; number = f.number; body = f.body } };

    ghost inverse_ok = { λ a h. refl };
}

impl<A: Allocator> Frame<A> {
    /// Creates a frame from its parts.
    ///
    /// Returns `BadField` if `number` or the number of a message is 0, or if the payload is longer than 32,768 bytes.
    /// Otherwise, returns `BadCount` if there are more than 8 names, or if an `IHave` does not have 1 to 64 entries.
    pub fn new(sender: Origin, number: u64, body: Body<A>) -> Result<Frame<A>, FrameFault>
        ensures { MatchResult result
            (λ frame. (refusal number body ≡ None) × (frame ≡ record { sender = sender; number = number; body = body }))
            (λ fault. refusal number body ≡ Some fault) }
    {
        if number == 0 || !has_good_fields(&body) {
            return Err(FrameFault::BadField);
        }
        if !has_good_counts(&body) {
            return Err(FrameFault::BadCount);
        }
        Ok(Frame {
            sender,
            number,
            body,
        })
    }

    /// Creates a frame from parts that are known to be within their limits, which are those of `new`.
    pub fn from_parts(sender: Origin, number: u64, body: Body<A>) -> Frame<A>
        requires { IsFrame (record { sender = sender; number = number; body = body }) }
        ensures { result ≡ record { sender = sender; number = number; body = body } }
    {
        Frame {
            sender,
            number,
            body,
        }
    }

    /// Returns the run of the node that sent the frame.
    pub fn sender(&self) -> Origin
        ensures value { result ≡ self.now.sender }
        ensures limits { IsFrame self.now }
    {
        self.sender
    }

    /// Returns the number of the frame among the frames of its sender, counted from 1.
    pub fn number(&self) -> u64
        ensures value { result ≡ self.now.number }
        ensures limits { IsFrame self.now }
    {
        self.number
    }

    /// Returns the body of the frame.
    pub fn body(&self) -> &Body<A>
        ensures value { result.now ≡ self.now.body }
        ensures limits { IsFrame self.now }
    {
        &self.body
    }

    /// Returns the body of the frame without copying it.
    pub fn into_body(self) -> Body<A>
        ensures value { result ≡ self.body }
        ensures limits { IsFrame self }
    {
        let Frame { body, .. } = self;
        body
    }
}

impl<A: Allocator + Copy> Wire<A> for Frame<A> {
    ghost use Rattle.frames.specs.Content.{frame_content};

    ghost content = { frame_content };

    fn carried(&self) -> Option<(MsgId, &Bytes<A>)> {
        match &self.body {
            BodyOf::Gossip { id, payload, .. } => Some((*id, payload)),
            _ => None,
        }
    }

    fn announced(&self) -> &[(MsgId, u32)] {
        match &self.body {
            BodyOf::IHave { entries } => entries.as_slice(),
            _ => &[],
        }
    }

    fn asked(&self) -> Option<MsgId> {
        match &self.body {
            BodyOf::Graft { id, .. } => Some(*id),
            _ => None,
        }
    }

    fn is_membership(&self) -> bool {
        matches!(
            &self.body,
            BodyOf::Join
                | BodyOf::ForwardJoin { .. }
                | BodyOf::Neighbor { .. }
                | BodyOf::NeighborReply { .. }
                | BodyOf::Disconnect
                | BodyOf::Shuffle { .. }
                | BodyOf::ShuffleReply { .. }
        )
    }

    fn copy(&self) -> Result<Frame<A>, AllocError> {
        Ok(Frame {
            sender: self.sender,
            number: self.number,
            body: copy_body(&self.body)?,
        })
    }
}
