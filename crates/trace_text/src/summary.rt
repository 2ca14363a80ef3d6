//! Prints what a run cost: how many packets of each kind were sent, and how each message spread.
ghost use Rattle.std.specs.Prelude.{◌≡◌, ◌++◌, ℕ, List, OnOk, string_bytes};
ghost use Rattle.trace_text.specs.Counts.{count_item, depth_text, gossip_items, kind_count, kinds_line};
ghost use Rattle.trace_text.specs.Counts.{membership_items, spread_line, TellsSpreads, TellsSummary};

use crate::counts::{announcements, copies, count_kind, count_of};
use crate::depths::depth_of;
use crate::names::{push_end, push_id};
use at_rest::{Branch, Forest};
use frames::Frame;
use node_core::PlumCore;
use node_names::MsgId;
use std::alloc::{AllocError, Allocator};
use world::{Packet, World};

/// Appends the lines of a summary: how many packets of each kind were sent, and for each message how many packets
/// carried it, how many announcements of it were sent, and how deep its tree is. No contract states that the depths
/// are right.
pub fn push_summary<A: Allocator + Copy>(
    text: &mut String<A>,
    world: &World<PlumCore<A>, A>,
    ids: &[MsgId],
    forest: &Forest<A>,
) -> Result<(), AllocError>
    ensures { OnOk result ((summary : List ℕ)
        × TellsSummary world.now ids.now summary
        × (string_bytes text.new ≡ string_bytes text.old ++ summary)) }
{
    push_kinds(text, world.sent())?;
    push_spreads(text, world.sent(), ids, forest)
}

/// Appends the line of each message.
fn push_spreads<A: Allocator + Copy>(
    text: &mut String<A>,
    sent: &[Packet<Frame<A>>],
    ids: &[MsgId],
    forest: &Forest<A>,
) -> Result<(), AllocError>
    ensures { OnOk result ((told : List ℕ)
        × TellsSpreads sent.now ids.now told
        × (string_bytes text.new ≡ string_bytes text.old ++ told)) }
{
    let alloc = *text.allocator();
    let copies = copies(alloc, sent)?;
    let announcements = announcements(alloc, sent)?;
    for id in ids {
        let copied = count_of(&copies, id);
        let announced = count_of(&announcements, id);
        push_message(text, id, copied, announced, forest.tree(id))?;
    }
    Ok(())
}

/// Appends the line of a message that was so often carried and announced, and has this tree.
fn push_message<A: Allocator + Copy>(
    text: &mut String<A>,
    id: &MsgId,
    copies: u128,
    announcements: u128,
    branches: &[Branch],
) -> Result<(), AllocError>
    ensures { OnOk result ((greatest : ℕ) × (mean : ℕ) × (string_bytes text.new
        ≡ string_bytes text.old ++ (spread_line id.now copies announcements ++ depth_text greatest mean))) }
{
    push_spread(text, id, copies, announcements)?;
    push_depth(text, branches)
}

/// Appends how many packets of each kind there are.
fn push_kinds<A: Allocator>(
    text: &mut String<A>,
    sent: &[Packet<Frame<A>>],
) -> Result<(), AllocError>
    ensures { OnOk result (string_bytes text.new ≡ string_bytes text.old ++ kinds_line sent.now) }
{
    text.push_str("packets")?;
    push_membership(text, sent)?;
    push_gossip(text, sent)?;
    push_end(text)
}

/// Appends how many packets of each of HyParView's kinds there are.
fn push_membership<A: Allocator>(
    text: &mut String<A>,
    sent: &[Packet<Frame<A>>],
) -> Result<(), AllocError>
    ensures { OnOk result (string_bytes text.new ≡ string_bytes text.old ++ membership_items sent.now) }
{
    push_kind(text, "JOIN", 1, sent)?;
    push_kind(text, "FORWARDJOIN", 2, sent)?;
    push_kind(text, "NEIGHBOR", 3, sent)?;
    push_kind(text, "NEIGHBORREPLY", 4, sent)?;
    push_kind(text, "DISCONNECT", 5, sent)?;
    push_kind(text, "SHUFFLE", 6, sent)?;
    push_kind(text, "SHUFFLEREPLY", 7, sent)
}

/// Appends how many packets of each of Plumtree's kinds there are.
fn push_gossip<A: Allocator>(
    text: &mut String<A>,
    sent: &[Packet<Frame<A>>],
) -> Result<(), AllocError>
    ensures { OnOk result (string_bytes text.new ≡ string_bytes text.old ++ gossip_items sent.now) }
{
    push_kind(text, "GOSSIP", 8, sent)?;
    push_kind(text, "IHAVE", 9, sent)?;
    push_kind(text, "GRAFT", 10, sent)?;
    push_kind(text, "PRUNE", 11, sent)?;
    push_kind(text, "GRAFT_PEER", 12, sent)
}

/// Appends the word for a kind and how many packets are of the kind, if there are any.
fn push_kind<A: Allocator>(
    text: &mut String<A>,
    word: &str,
    kind: u8,
    sent: &[Packet<Frame<A>>],
) -> Result<(), AllocError>
    ensures { OnOk result
        (string_bytes text.new ≡ string_bytes text.old ++ count_item word.now (kind_count kind sent.now)) }
{
    let count = count_kind(sent, kind);
    if count == 0 {
        return Ok(());
    }
    write!(text, " {word} {count}")
}

/// Appends how often a message was carried and announced.
fn push_spread<A: Allocator>(
    text: &mut String<A>,
    id: &MsgId,
    copies: u128,
    announcements: u128,
) -> Result<(), AllocError>
    ensures { OnOk result (string_bytes text.new ≡ string_bytes text.old ++ spread_line id.now copies announcements) }
{
    text.push_str("  ")?;
    push_id(text, id)?;
    write!(text, " copies {copies} announcements {announcements}")
}

/// Appends the greatest depth of a tree's branches, and the mean depth of those that have a parent. No contract states
/// that these numbers are right.
fn push_depth<A: Allocator + Copy>(
    text: &mut String<A>,
    branches: &[Branch],
) -> Result<(), AllocError>
    ensures { OnOk result
        ((greatest : ℕ) × (mean : ℕ) × (string_bytes text.new ≡ string_bytes text.old ++ depth_text greatest mean)) }
{
    let depth = depth_of(*text.allocator(), branches)?;
    push_depth_text(text, depth.greatest, depth.mean)
}

/// Appends a greatest depth, and a mean that is given in hundredths.
fn push_depth_text<A: Allocator>(
    text: &mut String<A>,
    greatest: u64,
    mean: u64,
) -> Result<(), AllocError>
    ensures { OnOk result (string_bytes text.new ≡ string_bytes text.old ++ depth_text greatest mean) }
{
    let whole = mean / 100;
    let tenth = mean / 10 % 10;
    let hundredth = mean % 10;
    write!(text, " depth {greatest} mean {whole}.{tenth}{hundredth}\n")
}
