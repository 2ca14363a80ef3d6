//! Prints the parts of a node's state.
ghost use Rattle.std.specs.Prelude.{◌≡◌, ◌++◌, OnOk, IfOk, string_bytes, codes};
ghost use Rattle.node_names.specs.Slots.{somes};
ghost use Rattle.trace_text.specs.Names.{id_items, name_items, or_dash};
ghost use Rattle.trace_text.specs.Parts.{changed, is_of, member_item, member_items};
ghost use Rattle.trace_text.specs.Parts.{queue_item, queue_items, want_item, want_items};

use crate::names::{push_dash_at, push_id_item, push_name_item, push_names};
use crate::packets::push_announcement;
use node_names::{MsgId, NodeName};
use peer_sets::{Member, PeerKind};
use std::alloc::{AllocError, Allocator};

/// The part of a list of names, under this heading.
pub fn names_part<A: Allocator>(
    alloc: A,
    heading: &str,
    names: &[NodeName],
) -> Result<String<A>, AllocError>
    ensures { IfOk result (λ text. string_bytes text ≡ heading.now ++ or_dash (name_items names.now)) }
{
    let mut text = String::new(alloc);
    text.push_str(heading)?;
    push_names(&mut text, names)?;
    Ok(text)
}

/// The part of the members of a kind, under this heading.
pub fn members_part<A: Allocator>(
    alloc: A,
    heading: &str,
    kind: PeerKind,
    members: &[Member],
) -> Result<String<A>, AllocError>
    ensures { IfOk result (λ text. string_bytes text ≡ heading.now ++ or_dash (member_items kind members.now)) }
{
    let mut text = String::new(alloc);
    text.push_str(heading)?;
    push_members(&mut text, kind, members)?;
    Ok(text)
}

/// Appends the members of a kind.
#[tactic(auto, using(crate::proofs::Dashes::dashed))]
fn push_members<A: Allocator>(
    text: &mut String<A>,
    kind: PeerKind,
    members: &[Member],
) -> Result<(), AllocError>
    ensures { OnOk result (string_bytes text.new ≡ string_bytes text.old ++ or_dash (member_items kind members.now)) }
{
    let start = text.len();
    push_member_items(text, kind, members)?;
    push_dash_at(text, start)
}

/// Appends each member of the kind after a space.
fn push_member_items<A: Allocator>(
    text: &mut String<A>,
    kind: PeerKind,
    members: &[Member],
) -> Result<(), AllocError>
    ensures { OnOk result (string_bytes text.new ≡ string_bytes text.old ++ member_items kind members.now) }
{
    for member in members {
        push_member_item(text, kind, member)?;
    }
    Ok(())
}

/// Appends a member after a space, if it is of the kind.
fn push_member_item<A: Allocator>(
    text: &mut String<A>,
    kind: PeerKind,
    member: &Member,
) -> Result<(), AllocError>
    ensures { OnOk result (string_bytes text.new ≡ string_bytes text.old ++ member_item kind member.now) }
{
    if is_of(kind, member.1) {
        return push_name_item(text, &member.0);
    }
    Ok(())
}

/// Whether two kinds are the same.
fn is_of(kind: PeerKind, other: PeerKind) -> bool
    ensures { result ≡ is_of kind other }
{
    match kind {
        PeerKind::Eager => other.is_eager(),
        PeerKind::Lazy => !other.is_eager(),
    }
}

/// The part of the announcements that wait to be sent.
pub fn queue_part<A: Allocator>(
    alloc: A,
    queued: &[(NodeName, MsgId, u32)],
) -> Result<String<A>, AllocError>
    ensures { IfOk result (λ text. string_bytes text ≡ codes " | queue:" ++ or_dash (queue_items queued.now)) }
{
    let mut text = String::new(alloc);
    text.push_str(" | queue:")?;
    push_queue(&mut text, queued)?;
    Ok(text)
}

/// Appends announcements that wait to be sent.
#[tactic(auto, using(crate::proofs::Dashes::dashed))]
fn push_queue<A: Allocator>(
    text: &mut String<A>,
    queued: &[(NodeName, MsgId, u32)],
) -> Result<(), AllocError>
    ensures { OnOk result (string_bytes text.new ≡ string_bytes text.old ++ or_dash (queue_items queued.now)) }
{
    let start = text.len();
    push_queue_items(text, queued)?;
    push_dash_at(text, start)
}

/// Appends each of these announcements with its receiver, after a space.
fn push_queue_items<A: Allocator>(
    text: &mut String<A>,
    queued: &[(NodeName, MsgId, u32)],
) -> Result<(), AllocError>
    ensures { OnOk result (string_bytes text.new ≡ string_bytes text.old ++ queue_items queued.now) }
{
    for entry in queued {
        push_queue_item(text, entry)?;
    }
    Ok(())
}

/// Appends an announcement with its receiver, after a space.
fn push_queue_item<A: Allocator>(
    text: &mut String<A>,
    entry: &(NodeName, MsgId, u32),
) -> Result<(), AllocError>
    ensures { OnOk result (string_bytes text.new ≡ string_bytes text.old ++ queue_item entry.now) }
{
    text.push(' ')?;
    push_announcement(text, &entry.1, entry.2)?;
    text.push_str("->")?;
    text.push_str(entry.0.as_str())
}

/// The part of the announcements of messages that the node lacks.
pub fn wants_part<A: Allocator>(
    alloc: A,
    wants: &[Option<(MsgId, NodeName, u32)>],
) -> Result<String<A>, AllocError>
    ensures { IfOk result (λ text. string_bytes text ≡ codes " | wants:" ++ or_dash (want_items (somes wants.now))) }
{
    let mut text = String::new(alloc);
    text.push_str(" | wants:")?;
    push_wants(&mut text, wants)?;
    Ok(text)
}

/// Appends announcements of messages that the node lacks.
#[tactic(auto, using(crate::proofs::Dashes::dashed))]
fn push_wants<A: Allocator>(
    text: &mut String<A>,
    wants: &[Option<(MsgId, NodeName, u32)>],
) -> Result<(), AllocError>
    ensures { OnOk result (string_bytes text.new ≡ string_bytes text.old ++ or_dash (want_items (somes wants.now))) }
{
    let start = text.len();
    push_want_items(text, wants)?;
    push_dash_at(text, start)
}

/// Appends each of these announcements with its sender, after a space.
fn push_want_items<A: Allocator>(
    text: &mut String<A>,
    wants: &[Option<(MsgId, NodeName, u32)>],
) -> Result<(), AllocError>
    ensures { OnOk result (string_bytes text.new ≡ string_bytes text.old ++ want_items (somes wants.now)) }
{
    for want in wants {
        if let Some(entry) = want {
            push_want_item(text, entry)?;
        }
    }
    Ok(())
}

/// Appends an announcement with its sender, after a space.
fn push_want_item<A: Allocator>(
    text: &mut String<A>,
    entry: &(MsgId, NodeName, u32),
) -> Result<(), AllocError>
    ensures { OnOk result (string_bytes text.new ≡ string_bytes text.old ++ want_item entry.now) }
{
    text.push(' ')?;
    push_announcement(text, &entry.0, entry.2)?;
    text.push_str("<-")?;
    text.push_str(entry.1.as_str())
}

/// The part of the ids whose timers are armed.
pub fn timers_part<A: Allocator>(
    alloc: A,
    timers: &[Option<MsgId>],
) -> Result<String<A>, AllocError>
    ensures { IfOk result (λ text. string_bytes text ≡ codes " | timers:" ++ or_dash (id_items (somes timers.now))) }
{
    let mut text = String::new(alloc);
    text.push_str(" | timers:")?;
    push_timers(&mut text, timers)?;
    Ok(text)
}

/// Appends ids whose timers are armed.
#[tactic(auto, using(crate::proofs::Dashes::dashed))]
fn push_timers<A: Allocator>(
    text: &mut String<A>,
    timers: &[Option<MsgId>],
) -> Result<(), AllocError>
    ensures { OnOk result (string_bytes text.new ≡ string_bytes text.old ++ or_dash (id_items (somes timers.now))) }
{
    let start = text.len();
    push_timer_items(text, timers)?;
    push_dash_at(text, start)
}

/// Appends each of these ids after a space.
fn push_timer_items<A: Allocator>(
    text: &mut String<A>,
    timers: &[Option<MsgId>],
) -> Result<(), AllocError>
    ensures { OnOk result (string_bytes text.new ≡ string_bytes text.old ++ id_items (somes timers.now)) }
{
    for timer in timers {
        if let Some(id) = timer {
            push_id_item(text, id)?;
        }
    }
    Ok(())
}

/// Appends a part.
pub fn push_part<A: Allocator>(text: &mut String<A>, part: &String<A>) -> Result<(), AllocError>
    ensures { OnOk result (string_bytes text.new ≡ string_bytes text.old ++ string_bytes part.now) }
{
    text.push_str(part.as_str())
}

/// Appends the new text of a part, if it differs from the old one.
pub fn push_changed<A: Allocator>(
    text: &mut String<A>,
    old: &String<A>,
    new: &String<A>,
) -> Result<(), AllocError>
    ensures { OnOk result
        (string_bytes text.new ≡ string_bytes text.old ++ changed (string_bytes old.now) (string_bytes new.now)) }
{
    if old.as_bytes() == new.as_bytes() {
        return Ok(());
    }
    push_part(text, new)
}
