//! Writing a frame as bytes, field by field.
ghost use Rattle.std.specs.Prelude.{◌≡◌, ◌<◌, ◌≤◌, ◌-◌, ◌^◌, ◌++◌, List, ℕ, length, drop, IsTrue, IfOk, OnOk};
ghost use Rattle.std.specs.Int.{w32, to_be_bytes};
ghost use Rattle.std.specs.List.{flat_map, AllByRecursion};
ghost use Rattle.node_names.specs.NodeName.{IsNodeName};
ghost use Rattle.protocol.specs.declared.TheConstants.{MAX_PAYLOAD};
ghost use Rattle.frames.specs.Frame.{Frame as Spelled, has_good_counts, has_good_fields, are_numbered};
ghost use Rattle.frames.specs.Grammar.{IsSpelling, fields_of, layout};
ghost use Rattle.frames.specs.Writing.{PutsAll, Puts};
ghost use Rattle.frames.specs.declared.TheConstants.{MAX_ANNOUNCEMENTS, MAX_NAMES};
ghost use Rattle.frames.specs.Field.{name_octets, announcement_octets, IsAnnouncement};
ghost use Rattle.frames.specs.Field.Field.{byte as byte_field, flag as flag_field, round as round_field};
ghost use Rattle.frames.specs.Field.Field.{number as number_field, name as name_field, origin as origin_field};
ghost use Rattle.frames.specs.Field.Field.{id as id_field, names as names_field, payload as payload_field};
ghost use Rattle.frames.specs.Field.Field.{announcements as announcements_field};

use crate::body::{Body, BodyOf, Kind};
use crate::frame::Frame;
use bytes::Bytes;
use node_names::{MsgId, NodeName, Origin};
use std::alloc::{AllocError, Allocator};

pub(crate) fn put_byte<A: Allocator>(out: &mut Vec<u8, A>, byte: u8) -> Result<(), AllocError>
    ensures { OnOk result (Puts (byte_field byte) out.old.items out.new.items) }
{
    out.push(byte)?;
    Ok(())
}

pub(crate) fn put_flag<A: Allocator>(out: &mut Vec<u8, A>, flag: bool) -> Result<(), AllocError>
    ensures { OnOk result (Puts (flag_field flag) out.old.items out.new.items) }
{
    out.push(u8::from(flag))?;
    Ok(())
}

pub(crate) fn put_round<A: Allocator>(out: &mut Vec<u8, A>, round: u32) -> Result<(), AllocError>
    ensures { OnOk result (Puts (round_field round) out.old.items out.new.items) }
{
    out.extend_from_slice(&round.to_be_bytes())?;
    Ok(())
}

pub(crate) fn put_number<A: Allocator>(out: &mut Vec<u8, A>, number: u64) -> Result<(), AllocError>
    requires { 0 < number }
    ensures { OnOk result (Puts (number_field number) out.old.items out.new.items) }
{
    out.extend_from_slice(&number.to_be_bytes())?;
    Ok(())
}

pub(crate) fn put_name<A: Allocator>(
    out: &mut Vec<u8, A>,
    name: &NodeName,
) -> Result<(), AllocError>
    ensures { OnOk result (Puts (name_field name.now) out.old.items out.new.items) }
{
    let letters = name.as_bytes();
    out.push(letters.len() as u8)?;
    out.extend_from_slice(letters)?;
    Ok(())
}

pub(crate) fn put_origin<A: Allocator>(
    out: &mut Vec<u8, A>,
    origin: &Origin,
) -> Result<(), AllocError>
    ensures { OnOk result (Puts (origin_field origin.now) out.old.items out.new.items) }
{
    let incarnation = origin.incarnation.0;
    put_name(out, &origin.name)?;
    out.extend_from_slice(&incarnation.to_be_bytes())?;
    Ok(())
}

pub(crate) fn put_id<A: Allocator>(out: &mut Vec<u8, A>, id: &MsgId) -> Result<(), AllocError>
    requires { 0 < id.now.seq }
    ensures { OnOk result (Puts (id_field id.now) out.old.items out.new.items) }
{
    put_origin(out, &id.origin)?;
    put_number(out, id.seq)?;
    Ok(())
}

/// Appends a list of names, preceded by its length in one byte.
pub(crate) fn put_names<A: Allocator>(
    out: &mut Vec<u8, A>,
    names: &[NodeName],
) -> Result<(), AllocError>
    requires { length names.now ≤ MAX_NAMES }
    ensures { OnOk result (Puts (names_field names.now) out.old.items out.new.items) }
{
    out.push(names.len() as u8)?;
    for name in names {
        put_name(out, name)?;
    }
    Ok(())
}

/// Appends a payload, preceded by its length in four bytes.
pub(crate) fn put_payload<A: Allocator>(
    out: &mut Vec<u8, A>,
    payload: &[u8],
) -> Result<(), AllocError>
    requires { length payload.now ≤ MAX_PAYLOAD }
    ensures { OnOk result (Puts (payload_field payload.now) out.old.items out.new.items) }
{
    out.extend_from_slice(&(payload.len() as u32).to_be_bytes())?;
    out.extend_from_slice(payload)?;
    Ok(())
}

fn put_announcement<A: Allocator>(
    out: &mut Vec<u8, A>,
    entry: &(MsgId, u32),
) -> Result<(), AllocError>
    requires { 0 < entry.now.0.seq }
    ensures bytes { OnOk result (out.new.items ≡ out.old.items ++ announcement_octets entry.now) }
    ensures holds { OnOk result (IsAnnouncement entry.now) }
{
    let round = entry.1;
    put_id(out, &entry.0)?;
    put_round(out, round)?;
    Ok(())
}

/// Appends a list of announcements, preceded by its length in two bytes.
pub(crate) fn put_announcements<A: Allocator>(
    out: &mut Vec<u8, A>,
    entries: &[(MsgId, u32)],
) -> Result<(), AllocError>
    requires some { 1 ≤ length entries.now }
    requires few { length entries.now ≤ MAX_ANNOUNCEMENTS }
    requires numbered { IsTrue (are_numbered entries.now) }
    ensures { OnOk result (Puts (announcements_field entries.now) out.old.items out.new.items) }
{
    out.extend_from_slice(&(entries.len() as u16).to_be_bytes())?;
    for entry in entries {
        put_announcement(out, entry)?;
    }
    Ok(())
}

/// Appends the fields of `body` to `out`.
#[tactic(auto, using(crate::proofs::Putting::puts_none, crate::proofs::Putting::puts_then, crate::proofs::Putting::puts_last))]
fn put_fields<A: Allocator>(out: &mut Vec<u8, A>, body: &Body<A>) -> Result<(), AllocError>
    requires fields { IsTrue (has_good_fields body.now) }
    requires counts { IsTrue (has_good_counts body.now) }
    ensures { OnOk result (PutsAll (fields_of body.now) out.old.items out.new.items) }
{
    match body {
        BodyOf::Join | BodyOf::Disconnect | BodyOf::Prune | BodyOf::GraftPeer => Ok(()),
        BodyOf::ForwardJoin { new, ttl } => {
            put_name(out, new)?;
            put_byte(out, *ttl)
        }
        BodyOf::Neighbor { high } => put_flag(out, *high),
        BodyOf::NeighborReply { accepted } => put_flag(out, *accepted),
        BodyOf::Shuffle { origin, ttl, names } => {
            put_name(out, origin)?;
            put_byte(out, *ttl)?;
            put_names(out, names.as_slice())
        }
        BodyOf::ShuffleReply { names } => put_names(out, names.as_slice()),
        BodyOf::Gossip { id, round, payload } => {
            put_id(out, id)?;
            put_round(out, *round)?;
            put_payload(out, payload.as_slice())
        }
        BodyOf::IHave { entries } => put_announcements(out, entries.as_slice()),
        BodyOf::Graft { id, round } => {
            put_id(out, id)?;
            put_round(out, *round)
        }
    }
}

/// Appends `frame` to `out`, without its length prefix.
#[tactic(auto, using(crate::proofs::Putting::puts_then))]
fn put_frame<A: Allocator>(out: &mut Vec<u8, A>, frame: &Frame<A>) -> Result<(), AllocError>
    ensures { OnOk result (PutsAll (layout frame.now) out.old.items out.new.items) }
{
    let kind = Kind::of(frame.body());
    put_byte(out, kind.version())?;
    put_byte(out, kind.number())?;
    put_origin(out, &frame.sender())?;
    put_number(out, frame.number())?;
    put_fields(out, frame.body())
}

/// Writes the number of bytes after the first four into the first four, big-endian.
fn put_length(out: &mut [u8])
    requires some { 4 ≤ length out.old }
    requires few { length out.old < 2 ^ 32 }
    ensures { out.new ≡ to_be_bytes w32 (length out.old - 4) ++ drop 4 out.old }
{
    let len = (out.len() - 4) as u32;
    out[..4].copy_from_slice(&len.to_be_bytes());
}

/// The maximum number of bytes of a frame without payload, list of names and announcements: its length prefix, the part
/// before the fields with a name of 32 bytes, and the fields of a GOSSIP.
const FIXED_ROOM: usize = 112;

/// The maximum number of bytes of a name in a list.
const NAME_ROOM: usize = 33;

/// The maximum number of bytes of an announcement.
const ANNOUNCEMENT_ROOM: usize = 53;

/// Returns a capacity, in bytes, that is enough for a frame with this body, so that the frame is written without
/// reallocating.
fn room_for<A: Allocator>(body: &Body<A>) -> usize {
    let lists = match body {
        BodyOf::Shuffle { names, .. } | BodyOf::ShuffleReply { names } => names
            .len()
            .saturating_mul(NAME_ROOM),
        BodyOf::IHave { entries } => entries.len().saturating_mul(ANNOUNCEMENT_ROOM),
        BodyOf::Gossip { payload, .. } => payload.len(),
        _ => 0,
    };
    lists.saturating_add(FIXED_ROOM)
}

/// Allocates a vector with four zeros in place of the length prefix, and with room for the rest of `frame`.
fn begin<A: Allocator + Copy>(alloc: A, frame: &Frame<A>) -> Result<Vec<u8, A>, AllocError>
    ensures { IfOk result (λ out. length out.items ≡ 4) }
{
    let mut out = Vec::with_capacity(alloc, room_for(frame.body()))?;
    out.extend_from_slice(&[0; 4])?;
    Ok(out)
}

/// Encodes `frame` as bytes. Each frame has exactly one encoding.
pub fn encode<A: Allocator + Copy>(alloc: A, frame: &Frame<A>) -> Result<Bytes<A>, AllocError>
    ensures spelled { IfOk result (λ bytes. IsSpelling frame.now bytes) }
    // No other frame's spelling begins with these bytes, nor do they begin with another frame's spelling.
    ensures alone { IfOk result (λ bytes. (f : Spelled) (spelling x y : List ℕ) → IsSpelling f spelling
        → bytes ++ x ≡ spelling ++ y → (bytes ≡ spelling) × (frame.now ≡ f)) }
{
    let mut out = begin(alloc, frame)?;
    put_frame(&mut out, frame)?;
    put_length(out.as_mut_slice());
    Ok(Bytes::from_vec(out)?)
}
