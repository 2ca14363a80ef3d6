//! Reading a frame from bytes, field by field. Each function that reads the fields of a kind rejects trailing bytes.
ghost use Rattle.std.specs.Prelude.{◌≡◌, ◌≤◌, ◌++◌, [], List, ℕ, length, take, MatchResult, IfOk};
ghost use Rattle.frames.specs.Answer.{Makes};
ghost use Rattle.frames.specs.Frame.{Frame as Spelled};
ghost use Rattle.frames.specs.Grammar.{IsSpelling};
ghost use Rattle.frames.specs.Reading.{frame};
ghost use Rattle.frames.specs.Reading as read;
ghost use Rattle.frames.specs.declared.body.Kind.TheVariants as kinds;

use crate::body::{Body, BodyOf, Kind};
use crate::fault::FrameFault;
use crate::fields::Fields;
use crate::frame::Frame;
use crate::list::list;
use crate::{MAX_ANNOUNCEMENTS, MAX_BODY, MAX_NAMES};
use bytes::Bytes;
use node_names::{Listed, MsgId, NodeName};
use protocol::MAX_PAYLOAD;
use std::alloc::{Allocator, Global};

#[tactic(auto, unfolding(crate::specs::Reading::names, crate::specs::Reading::alone))]
fn names<A: Allocator>(alloc: A, fields: &mut Fields<'_>) -> Result<Listed<NodeName, A>, FrameFault>
    ensures { Makes (λ names. (names, [])) result (read.alone read.names fields.old) }
{
    let count = usize::from(fields.byte()?);
    if count > MAX_NAMES {
        return Err(FrameFault::BadCount);
    }
    list(alloc, count, fields)
}

#[tactic(auto, unfolding(crate::specs::Reading::announcements, crate::specs::Reading::alone))]
fn announcements<A: Allocator>(
    alloc: A,
    fields: &mut Fields<'_>,
) -> Result<Listed<(MsgId, u32), A>, FrameFault>
    ensures { Makes (λ entries. (entries, [])) result (read.alone read.announcements fields.old) }
{
    let count = usize::from(fields.word16()?);
    if count == 0 || count > MAX_ANNOUNCEMENTS {
        return Err(FrameFault::BadCount);
    }
    list(alloc, count, fields)
}

#[tactic(auto, unfolding(crate::specs::Reading::payload, crate::specs::Reading::alone, crate::specs::Reading::end))]
fn payload<A: Allocator + Copy>(alloc: A, fields: &mut Fields<'_>) -> Result<Bytes<A>, FrameFault>
    ensures { Makes (λ payload. (payload, [])) result (read.alone read.payload fields.old) }
{
    let len = fields.word32()? as usize;
    if len > MAX_PAYLOAD {
        return Err(FrameFault::BadField);
    }
    let payload = fields.octets(len)?;
    fields.end()?;
    Ok(Bytes::copy_from_slice(alloc, payload)?)
}

/// Reads the fields of a kind that has none, and returns `body`.
#[tactic(auto, unfolding(crate::specs::Reading::fields, crate::specs::Reading::alone, crate::specs::Reading::end))]
fn nothing<A: Allocator>(fields: &mut Fields<'_>, body: Body<A>) -> Result<Body<A>, FrameFault>
    ensures { Makes (λ body. (body, [])) result (read.alone (read.done body) fields.old) }
{
    fields.end()?;
    Ok(body)
}

#[tactic(auto, unfolding(crate::specs::Reading::fields, crate::specs::Reading::alone, crate::specs::Reading::end))]
fn forward_join<A: Allocator>(fields: &mut Fields<'_>) -> Result<Body<A>, FrameFault>
    ensures { Makes (λ body. (body, [])) result (read.alone (read.fields kinds.ForwardJoin) fields.old) }
{
    let new = fields.name()?;
    let ttl = fields.byte()?;
    fields.end()?;
    Ok(BodyOf::ForwardJoin { new, ttl })
}

#[tactic(auto, unfolding(crate::specs::Reading::fields, crate::specs::Reading::alone, crate::specs::Reading::end))]
fn neighbor<A: Allocator>(fields: &mut Fields<'_>) -> Result<Body<A>, FrameFault>
    ensures { Makes (λ body. (body, [])) result (read.alone (read.fields kinds.Neighbor) fields.old) }
{
    let high = fields.flag()?;
    fields.end()?;
    Ok(BodyOf::Neighbor { high })
}

#[tactic(auto, unfolding(crate::specs::Reading::fields, crate::specs::Reading::alone, crate::specs::Reading::end))]
fn neighbor_reply<A: Allocator>(fields: &mut Fields<'_>) -> Result<Body<A>, FrameFault>
    ensures { Makes (λ body. (body, [])) result (read.alone (read.fields kinds.NeighborReply) fields.old) }
{
    let accepted = fields.flag()?;
    fields.end()?;
    Ok(BodyOf::NeighborReply { accepted })
}

#[tactic(auto, unfolding(crate::specs::Reading::fields, crate::specs::Reading::alone))]
fn shuffle<A: Allocator>(alloc: A, fields: &mut Fields<'_>) -> Result<Body<A>, FrameFault>
    ensures { Makes (λ body. (body, [])) result (read.alone (read.fields kinds.Shuffle) fields.old) }
{
    let origin = fields.name()?;
    let ttl = fields.byte()?;
    let names = names(alloc, fields)?;
    Ok(BodyOf::Shuffle { origin, ttl, names })
}

#[tactic(auto, unfolding(crate::specs::Reading::fields, crate::specs::Reading::alone))]
fn shuffle_reply<A: Allocator>(alloc: A, fields: &mut Fields<'_>) -> Result<Body<A>, FrameFault>
    ensures { Makes (λ body. (body, [])) result (read.alone (read.fields kinds.ShuffleReply) fields.old) }
{
    let names = names(alloc, fields)?;
    Ok(BodyOf::ShuffleReply { names })
}

#[tactic(auto, unfolding(crate::specs::Reading::fields, crate::specs::Reading::alone))]
fn gossip<A: Allocator + Copy>(alloc: A, fields: &mut Fields<'_>) -> Result<Body<A>, FrameFault>
    ensures { Makes (λ body. (body, [])) result (read.alone (read.fields kinds.Gossip) fields.old) }
{
    let id = fields.id()?;
    let round = fields.word32()?;
    let payload = payload(alloc, fields)?;
    Ok(BodyOf::Gossip { id, round, payload })
}

#[tactic(auto, unfolding(crate::specs::Reading::fields, crate::specs::Reading::alone))]
fn ihave<A: Allocator>(alloc: A, fields: &mut Fields<'_>) -> Result<Body<A>, FrameFault>
    ensures { Makes (λ body. (body, [])) result (read.alone (read.fields kinds.IHave) fields.old) }
{
    let entries = announcements(alloc, fields)?;
    Ok(BodyOf::IHave { entries })
}

#[tactic(auto, unfolding(crate::specs::Reading::fields, crate::specs::Reading::alone, crate::specs::Reading::end))]
fn graft<A: Allocator>(fields: &mut Fields<'_>) -> Result<Body<A>, FrameFault>
    ensures { Makes (λ body. (body, [])) result (read.alone (read.fields kinds.Graft) fields.old) }
{
    let id = fields.id()?;
    let round = fields.word32()?;
    fields.end()?;
    Ok(BodyOf::Graft { id, round })
}

/// Reads the fields of a frame of this kind and returns its body.
#[tactic(auto, unfolding(crate::specs::Reading::fields))]
pub(crate) fn row<A: Allocator + Copy>(
    alloc: A,
    kind: Kind,
    fields: &mut Fields<'_>,
) -> Result<Body<A>, FrameFault>
    ensures { Makes (λ body. (body, [])) result (read.alone (read.fields kind) fields.old) }
{
    match kind {
        Kind::Join => nothing(fields, BodyOf::Join),
        Kind::ForwardJoin => forward_join(fields),
        Kind::Neighbor => neighbor(fields),
        Kind::NeighborReply => neighbor_reply(fields),
        Kind::Disconnect => nothing(fields, BodyOf::Disconnect),
        Kind::Shuffle => shuffle(alloc, fields),
        Kind::ShuffleReply => shuffle_reply(alloc, fields),
        Kind::Gossip => gossip(alloc, fields),
        Kind::IHave => ihave(alloc, fields),
        Kind::Graft => graft(fields),
        Kind::Prune => nothing(fields, BodyOf::Prune),
        Kind::GraftPeer => nothing(fields, BodyOf::GraftPeer),
    }
}

/// Reads a frame from its bytes after the length prefix.
#[tactic(auto, unfolding(crate::specs::Reading::frame))]
fn whole<A: Allocator + Copy>(alloc: A, body: &[u8]) -> Result<Frame<A>, FrameFault>
    ensures { Makes (λ f. (f, [])) result (frame body.now) }
{
    let mut fields = Fields::new(body);
    let version = fields.version()?;
    let kind = fields.kind(version)?;
    let sender = fields.origin()?;
    let number = fields.number()?;
    let body = row(alloc, kind, &mut fields)?;
    Ok(Frame::from_parts(sender, number, body))
}

/// Decodes the frame at the front of `bytes`, and returns it with its length in bytes. Ignores what follows it.
///
/// Returns the first fault in the order of docs/frames.md: `Short` if the bytes end before the frame does, and
/// `OutOfMemory` only if the bytes have no fault.
pub fn decode<A: Allocator + Copy>(alloc: A, bytes: &[u8]) -> Result<(Frame<A>, usize), FrameFault>
    // The bytes of the returned length spell the returned frame.
    ensures found { IfOk result (λ x. IsSpelling x.0 (take x.1 bytes.now) × (x.1 ≤ length bytes.now)) }
    // Bytes that begin with a frame's spelling are decoded as that frame, unless memory runs out.
    ensures only { (f : Spelled) (spelling rest : List ℕ) → IsSpelling f spelling → bytes.now ≡ spelling ++ rest
        → MatchResult result (λ x. (x.0 ≡ f) × (x.1 ≡ length spelling)) (λ fault. fault ≡ FrameFault.OutOfMemory) }
    // The result, including the fault, is the one that `read` defines, or `OutOfMemory`.
    ensures exact { Makes (λ x. x) result (read.read bytes.now) }
{
    first(alloc, bytes)
}

/// Decodes like `decode`, of whose clauses it ensures `exact` alone.
#[tactic(auto, unfolding(crate::specs::Reading::read, crate::specs::Reading::body_of))]
fn first<A: Allocator + Copy>(alloc: A, bytes: &[u8]) -> Result<(Frame<A>, usize), FrameFault>
    ensures { Makes (λ x. x) result (read.read bytes.now) }
{
    if bytes.len() < 4 {
        return Err(FrameFault::Short);
    }
    let (word, rest) = bytes.split_at(4);
    let len = u32::from_be_bytes([word[0], word[1], word[2], word[3]]) as usize;
    if len > MAX_BODY {
        return Err(FrameFault::TooLong);
    }
    if rest.len() < len {
        return Err(FrameFault::Short);
    }
    let frame = whole(alloc, &rest[..len])?;
    Ok((frame, 4 + len))
}
