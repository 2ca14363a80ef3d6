//! Counts packets.
ghost use Rattle.std.specs.Prelude.{◌≡◌, ◌+◌, ◌^◌, ◌<◌, cond, length, IfOk, OnOk};
ghost use Rattle.node_names.specs.Same.{same_id};
ghost use Rattle.node_names.specs.declared.ids.MsgId.{MsgId};
ghost use Rattle.protocol.specs.SpreadLaw.{is_carried};
ghost use Rattle.frames.specs.Content.{frame_content};
ghost use Rattle.trace_text.specs.Counts.{announcements_in, announcements_of, copies_of, count_at, is_kind, kind_count};

use frames::{Frame, kind_number};
use indexmap::IndexMap;
use node_names::MsgId;
use protocol::Wire;
use std::alloc::{AllocError, Allocator};
use std::hash::{BuildHasherDefault, FoldHasher};
use world::Packet;

/// A count for each message. A message that is not in it has the count 0.
pub type Counts<A> = IndexMap<MsgId, u128, BuildHasherDefault<FoldHasher>, A>;

/// Whether the kind of a frame has this number.
#[tactic(auto, unfolding(crate::specs::Counts::is_kind))]
fn is_kind<A: Allocator>(note: &Frame<A>, kind: u8) -> bool
    ensures { result ≡ is_kind kind note.now }
{
    kind_number(note.body()) == kind
}

/// How many packets have the kind of this number.
pub fn count_kind<A: Allocator>(sent: &[Packet<Frame<A>>], kind: u8) -> usize
    ensures { result ≡ kind_count kind sent.now }
{
    let mut count = 0;
    for packet in sent {
        if is_kind(&packet.note, kind) {
            count += 1;
        }
    }
    count
}

/// Counts the packets that carry each message, in one pass over the packets.
pub fn copies<A: Allocator + Copy>(
    alloc: A,
    sent: &[Packet<Frame<A>>],
) -> Result<Counts<A>, AllocError>
    ensures { IfOk result (λ counts. (id : MsgId) → count_at id counts.entries ≡ copies_of id sent.now) }
{
    let mut counts = IndexMap::new(alloc);
    for packet in sent {
        count_copy(&mut counts, packet)?;
    }
    Ok(counts)
}

/// Counts the announcements of each message that the packets have, in one pass over the packets.
pub fn announcements<A: Allocator + Copy>(
    alloc: A,
    sent: &[Packet<Frame<A>>],
) -> Result<Counts<A>, AllocError>
    ensures { IfOk result (λ counts. (id : MsgId) → count_at id counts.entries ≡ announcements_of id sent.now) }
{
    let mut counts = IndexMap::new(alloc);
    for packet in sent {
        count_entries(&mut counts, packet.note.announced())?;
    }
    Ok(counts)
}

/// The count of a message.
pub fn count_of<A: Allocator + Copy>(counts: &Counts<A>, id: &MsgId) -> u128
    ensures { result ≡ count_at id.now counts.now.entries }
{
    counts.get(id).copied().unwrap_or(0)
}

/// Counts the message that a packet carries, if it carries one.
fn count_copy<A: Allocator + Copy>(
    counts: &mut Counts<A>,
    packet: &Packet<Frame<A>>,
) -> Result<(), AllocError>
    requires { (id : MsgId) → count_at id counts.old.entries + 1 < 2 ^ 128 }
    ensures { OnOk result ((id : MsgId) → count_at id counts.new.entries
        ≡ count_at id counts.old.entries + cond (is_carried id (frame_content packet.now.note).carried) 1 0) }
{
    match packet.note.carried() {
        Some((id, _)) => count(counts, &id),
        None => Ok(()),
    }
}

/// Counts the messages of these announcements.
fn count_entries<A: Allocator + Copy>(
    counts: &mut Counts<A>,
    entries: &[(MsgId, u32)],
) -> Result<(), AllocError>
    requires { (id : MsgId) → count_at id counts.old.entries + length entries.now < 2 ^ 128 }
    ensures { OnOk result ((id : MsgId)
        → count_at id counts.new.entries ≡ count_at id counts.old.entries + announcements_in id entries.now) }
{
    for entry in entries {
        count(counts, &entry.0)?;
    }
    Ok(())
}

/// Counts a message once more.
fn count<A: Allocator + Copy>(counts: &mut Counts<A>, id: &MsgId) -> Result<(), AllocError>
    requires { count_at id.now counts.old.entries + 1 < 2 ^ 128 }
    ensures { OnOk result
        ((q : MsgId) → count_at q counts.new.entries ≡ count_at q counts.old.entries + cond (same_id q id.now) 1 0) }
{
    let count = count_of(counts, id) + 1;
    counts.insert(*id, count)?;
    Ok(())
}
