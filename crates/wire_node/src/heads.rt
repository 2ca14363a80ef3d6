//! Frames with long payloads as bytes: heads, before payloads that are shared.
ghost use Rattle.std.specs.Prelude.{◌≡◌, ◌-◌, ◌≤◌, ◌++◌, List, ℕ, drop, length, take, IfOk};
ghost use Rattle.std.specs.Int.{w32, to_be_bytes};
ghost use Rattle.frames.specs.declared.body.BodyOf.TheVariants.{Gossip};
ghost use Rattle.wire_node.specs.Waiting.{spelling};

use bytes::Bytes;
use frames::{BodyOf, Frame, encode};
use node_names::{MsgId, Origin};
use std::alloc::{AllocError, Allocator};

/// The bytes between the length of a frame and that of its payload, which is empty.
fn fields_of(bytes: &[u8]) -> &[u8]
    requires { 8 ≤ length bytes.now }
    ensures { result.now ≡ take (length bytes.now - 8) (drop 4 bytes.now) }
{
    &bytes[4..bytes.len() - 4]
}

/// The number as four bytes, big-endian, unless it needs more.
fn word_of(number: usize) -> Result<[u8; 4], AllocError>
    ensures { IfOk result (λ word. word ≡ to_be_bytes w32 number) }
{
    match u32::try_from(number) {
        Ok(number) => Ok(number.to_be_bytes()),
        Err(_) => Err(AllocError),
    }
}

/// The bytes of a GOSSIP that come before its payload of `len` bytes. The frame is encoded without its payload, and
/// both lengths are put in: to encode the whole would copy the payload.
pub(crate) fn head_of<A: Allocator + Copy>(
    alloc: A,
    sender: Origin,
    number: u64,
    id: MsgId,
    round: u32,
    len: usize,
) -> Result<Vec<u8, A>, AllocError>
    ensures { IfOk result (λ head. (payload : List ℕ) → length payload ≡ len → head.items ++ payload
        ≡ spelling (record { sender = sender; number = number; body = Gossip id round payload })) }
{
    let body = BodyOf::Gossip {
        id,
        round,
        payload: Bytes::new(),
    };
    let Ok(frame) = Frame::new(sender, number, body) else {
        return Err(AllocError);
    };
    let bytes = encode(alloc, &frame)?;
    let fields = fields_of(bytes.as_slice());
    let Some(whole) = len.checked_add(fields.len() + 4) else {
        return Err(AllocError);
    };
    let mut head = Vec::with_capacity(alloc, bytes.len())?;
    head.extend_from_slice(&word_of(whole)?)?;
    head.extend_from_slice(fields)?;
    head.extend_from_slice(&word_of(len)?)?;
    Ok(head)
}
