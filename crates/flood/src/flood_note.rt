//! The packet of the flooding core.
ghost use Rattle.std.specs.Prelude.{◌≡◌};

use bytes::Bytes;
use node_names::MsgId;
use protocol::Wire;
use std::alloc::{AllocError, Allocator, Global};
use std::marker::Model;

/// A packet that carries one message.
#[derive(Drop)]
pub struct FloodNote<A: Allocator = Global> {
    /// The id of the message.
    pub id: MsgId,
    /// The payload that its origin broadcast.
    pub payload: Bytes<A>,
}

impl<A: Allocator> Model for FloodNote<A> {
    ghost use Rattle.std.specs.Prelude.{refl};
    ghost use Rattle.flood.specs.FloodCore.{Message};

    ghost Value = { Message };

    ghost view = { λ note. record { id = note.id; payload = note.payload } };

    ghost inverse = { λ note. record { id = note.id; payload = note.payload } };

    ghost inverse_ok = { λ note held. refl };
}

impl<A: Allocator> Wire<A> for FloodNote<A> {
    ghost use Rattle.flood.specs.FloodCore.{note_content};

    ghost content = { note_content };

    fn carried(&self) -> Option<(MsgId, &Bytes<A>)> {
        Some((self.id, &self.payload))
    }

    fn announced(&self) -> &[(MsgId, u32)] {
        &[]
    }

    fn asked(&self) -> Option<MsgId> {
        None
    }

    fn is_membership(&self) -> bool {
        false
    }

    fn copy(&self) -> Result<FloodNote<A>, AllocError> {
        Ok(FloodNote {
            id: self.id,
            payload: self.payload.clone()?,
        })
    }
}
