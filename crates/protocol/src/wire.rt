//! The content of a packet, as its receiver reads it.
ghost use Rattle.std.specs.Prelude.{◌≡◌, IfOk, option_map};
ghost use Rattle.protocol.specs.Content.{Content};

use bytes::Bytes;
use node_names::MsgId;
use std::alloc::{AllocError, Allocator};

/// A packet whose content can be read. A core may send more than this content, but the laws of a core speak of it
/// alone.
pub trait Wire<A: Allocator>: Sized + Drop {
    /// The content, as contracts see it.
    ghost content: { Self → Content };

    /// Returns the message that the packet carries, with its payload, if it carries one.
    fn carried(&self) -> Option<(MsgId, &Bytes<A>)>
        ensures { option_map (λ message. (message.0, message.1.now)) result ≡ (content self.now).carried };

    /// Returns the ids that the packet announces, each with a round.
    fn announced(&self) -> &[(MsgId, u32)]
        ensures { result.now ≡ (content self.now).announced };

    /// Returns the id that the packet asks for, if it asks for one.
    fn asked(&self) -> Option<MsgId>
        ensures { result ≡ (content self.now).asked };

    /// Returns whether the packet is about membership alone.
    fn is_membership(&self) -> bool
        ensures { result ≡ (content self.now).is_membership };

    /// Copies the packet.
    fn copy(&self) -> Result<Self, AllocError>
        ensures { IfOk result (λ copy. copy ≡ self.now) };
}
