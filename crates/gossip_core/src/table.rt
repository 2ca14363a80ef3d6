//! Plumtree's table: the row that a call is, and what it will send and deliver. Nothing here changes the state.
//!
//! Each row has a function of its own that gives what `decide` gives, even where it can't fail: what is decided is some
//! 400 bytes, and a function clears those of all its arms before it takes one.
ghost use Rattle.std.specs.Prelude.{◌≡◌, ◌≢◌, None, Some, IfOk, IfErr, false};
ghost use Rattle.std.specs.FinSet as set;
ghost use Rattle.gossip_core.specs.Answers.{effects_of, swap_packets};
ghost use Rattle.gossip_core.specs.Refusals.{CanTake};
ghost use Rattle.gossip_core.specs.Rows.{Leads};
ghost use Rattle.gossip_core.specs.Table.{first_copy, lent, outcome, repeated, shortcut, swapped};

use crate::announcements::announcements;
use crate::answer::{AnswerOf, SpreadOf};
use crate::call::{Call, CallOf};
use crate::fault::GossipFault;
use crate::gossip::Gossip;
use crate::row::{Decided, Row, RowOf};
use bytes::Bytes;
use frames::{Body, BodyOf};
use node_names::{Listed, MsgId, NodeName};
use std::alloc::{AllocError, Allocator};

/// Decides that nothing happens.
fn quiet<'a, A: Allocator>() -> Result<Decided<'a, A>, GossipFault>
    ensures row { IfOk result (λ decided. decided.row ≡ RowOf.Nothing) }
    ensures answer { IfOk result (λ decided. decided.answer ≡ AnswerOf.Nothing) }
    ensures memory { IfErr result (λ e. e ≡ GossipFault.OutOfMemory) }
{
    silent(RowOf::Nothing)
}

/// Decides that the row's change is made, and that nothing is sent or delivered.
fn silent<'a, A: Allocator>(row: Row<A>) -> Result<Decided<'a, A>, GossipFault>
    ensures row { IfOk result (λ decided. decided.row ≡ row) }
    ensures answer { IfOk result (λ decided. decided.answer ≡ AnswerOf.Nothing) }
    ensures memory { IfErr result (λ e. e ≡ GossipFault.OutOfMemory) }
{
    Ok(Decided {
        row,
        answer: AnswerOf::Nothing,
    })
}

/// Makes the body that carries the message.
pub(crate) fn gossip<A: Allocator>(
    id: &MsgId,
    round: u32,
    payload: &Bytes<A>,
) -> Result<Body<A>, AllocError>
    ensures { IfOk result (λ body. body ≡ BodyOf.Gossip id.now round payload.now) }
{
    Ok(BodyOf::Gossip {
        id: *id,
        round,
        payload: payload.clone()?,
    })
}

/// Decides a broadcast of the node's next message.
fn broadcast<'a, A: Allocator + Copy>(
    alloc: A,
    node: &'a Gossip<A>,
    payload: &'a Bytes<A>,
) -> Result<Decided<'a, A>, GossipFault>
    requires { CanTake node.now (CallOf.Broadcast payload.now) }
    ensures row { IfOk result (λ decided.
        Leads node.now (outcome node.now (CallOf.Broadcast payload.now)).state decided.row) }
    ensures answer { IfOk result (λ decided. effects_of decided.answer ≡ record {
      sends = (outcome node.now (CallOf.Broadcast payload.now)).sends;
      delivered = (outcome node.now (CallOf.Broadcast payload.now)).delivered;
    }) }
    ensures memory { IfErr result (λ e. e ≡ GossipFault.OutOfMemory) }
{
    let id = MsgId {
        origin: node.me(),
        seq: node.spent() + 1,
    };
    Ok(Decided {
        row: RowOf::Broadcast {
            payload: payload.clone()?,
        },
        answer: AnswerOf::Message {
            spread: SpreadOf {
                members: node.peers().members(),
                left_out: None,
                id,
                round: 0,
                payload,
            },
            others: Listed::new(alloc),
        },
    })
}

/// Decides another copy of a known message: its sender is pruned, if it is a member.
fn repeated<'a, A: Allocator + Copy>(
    node: &Gossip<A>,
    sender: &NodeName,
) -> Result<Decided<'a, A>, GossipFault>
    ensures row { IfOk result (λ decided. Leads node.now (repeated sender.now node.now).state decided.row) }
    ensures answer { IfOk result (λ decided. effects_of decided.answer ≡ record {
      sends = (repeated sender.now node.now).sends;
      delivered = (repeated sender.now node.now).delivered;
    }) }
    ensures memory { IfErr result (λ e. e ≡ GossipFault.OutOfMemory) }
{
    if !node.peers().is_member(sender) {
        return quiet();
    }
    Ok(Decided {
        row: RowOf::Lazy { peer: *sender },
        answer: AnswerOf::Packet {
            to: *sender,
            body: BodyOf::Prune,
        },
    })
}

/// Makes the packets by which the announcer, if there is one, takes the sender's place in the tree: a graft and a
/// prune.
fn swap<A: Allocator + Copy>(
    alloc: A,
    sender: &NodeName,
    announcer: &Option<NodeName>,
) -> Result<Listed<(NodeName, Body<A>), A>, AllocError>
    ensures { IfOk result (λ sends. sends ≡ swap_packets sender.now announcer.now) }
{
    let mut sends = Listed::new(alloc);
    if let Some(announcer) = announcer {
        sends.push((*announcer, BodyOf::GraftPeer))?;
        sends.push((*sender, BodyOf::Prune))?;
    }
    Ok(sends)
}

/// Decides the first copy of a message of another origin.
fn first_copy<'a, A: Allocator + Copy>(
    alloc: A,
    node: &'a Gossip<A>,
    sender: &NodeName,
    id: &MsgId,
    round: u32,
    payload: &'a Bytes<A>,
) -> Result<Decided<'a, A>, GossipFault>
    requires unknown { set.contains node.now.known id.now ≡ false }
    requires foreign { id.now.origin ≢ node.now.me }
    ensures row { IfOk result (λ decided. Leads node.now
        (swapped sender.now (shortcut node.now sender.now id.now round)
        (first_copy sender.now id.now round payload.now node.now)).state
        decided.row) }
    ensures answer { IfOk result (λ decided. effects_of decided.answer ≡ record {
      sends = (swapped sender.now (shortcut node.now sender.now id.now round)
          (first_copy sender.now id.now round payload.now node.now)).sends;
      delivered = Some (id.now, payload.now);
    }) }
    ensures memory { IfErr result (λ e. e ≡ GossipFault.OutOfMemory) }
{
    let announcer = node.shortcut(sender, id, round);
    let others = swap(alloc, sender, &announcer)?;
    Ok(Decided {
        row: RowOf::FirstCopy {
            sender: *sender,
            id: *id,
            round,
            payload: payload.clone()?,
            announcer,
        },
        answer: AnswerOf::Message {
            spread: SpreadOf {
                members: node.peers().members(),
                left_out: Some(*sender),
                id: *id,
                round: round.saturating_add(1),
                payload,
            },
            others,
        },
    })
}

/// Decides a packet that carries a message.
fn heard<'a, A: Allocator + Copy>(
    alloc: A,
    node: &'a Gossip<A>,
    sender: &NodeName,
    id: &MsgId,
    round: u32,
    payload: &'a Bytes<A>,
) -> Result<Decided<'a, A>, GossipFault>
    ensures row { IfOk result (λ decided. Leads node.now
        (outcome node.now (CallOf.OnGossip sender.now id.now round payload.now)).state decided.row) }
    ensures answer { IfOk result (λ decided. effects_of decided.answer ≡ record {
      sends = (outcome node.now (CallOf.OnGossip sender.now id.now round payload.now)).sends;
      delivered = (outcome node.now (CallOf.OnGossip sender.now id.now round payload.now)).delivered;
    }) }
    ensures memory { IfErr result (λ e. e ≡ GossipFault.OutOfMemory) }
{
    if node.knows(id) {
        return repeated(node, sender);
    }
    if id.origin == node.me() {
        return quiet();
    }
    first_copy(alloc, node, sender, id, round, payload)
}

/// Decides a packet that announces messages: those of a member count that the node lacks.
pub(crate) fn announced<A: Allocator + Copy>(
    node: &Gossip<A>,
    sender: &NodeName,
    entries: &[(MsgId, u32)],
) -> Result<Row<A>, AllocError>
    ensures { IfOk result (λ row.
        Leads node.now (outcome node.now (CallOf.OnIHave sender.now entries.now)).state row) }
{
    if !node.peers().is_member(sender) {
        return Ok(RowOf::Nothing);
    }
    Ok(RowOf::Announced {
        sender: *sender,
        news: Listed::from_vec(node.news(entries)?),
    })
}

/// Decides the same packet, on which nothing is sent or delivered.
fn told<'a, A: Allocator + Copy>(
    node: &Gossip<A>,
    sender: &NodeName,
    entries: &[(MsgId, u32)],
) -> Result<Decided<'a, A>, GossipFault>
    ensures row { IfOk result (λ decided.
        Leads node.now (outcome node.now (CallOf.OnIHave sender.now entries.now)).state decided.row) }
    ensures answer { IfOk result (λ decided. decided.answer ≡ AnswerOf.Nothing) }
    ensures memory { IfErr result (λ e. e ≡ GossipFault.OutOfMemory) }
{
    silent(announced(node, sender, entries)?)
}

/// Decides the firing of the timer of `id`: the peer that announced `id` first, if there is one, is grafted.
fn fired<'a, A: Allocator + Copy>(
    node: &Gossip<A>,
    id: &MsgId,
) -> Result<Decided<'a, A>, GossipFault>
    ensures row { IfOk result (λ decided.
        Leads node.now (outcome node.now (CallOf.Fire id.now)).state decided.row) }
    ensures answer { IfOk result (λ decided. effects_of decided.answer ≡ record {
      sends = (outcome node.now (CallOf.Fire id.now)).sends;
      delivered = (outcome node.now (CallOf.Fire id.now)).delivered;
    }) }
    ensures memory { IfErr result (λ e. e ≡ GossipFault.OutOfMemory) }
{
    if !node.missing().armed(id) {
        return quiet();
    }
    let Some((peer, round)) = node.missing().first(id) else {
        return silent(RowOf::Fired {
            id: *id,
            asked: None,
        });
    };
    Ok(Decided {
        row: RowOf::Fired {
            id: *id,
            asked: Some(peer),
        },
        answer: AnswerOf::Packet {
            to: peer,
            body: BodyOf::Graft { id: *id, round },
        },
    })
}

/// Decides a packet that asks for a message: its sender becomes eager, and is sent the message if it is held.
fn asked<'a, A: Allocator + Copy>(
    node: &Gossip<A>,
    sender: &NodeName,
    id: &MsgId,
    round: u32,
) -> Result<Decided<'a, A>, GossipFault>
    ensures row { IfOk result (λ decided. Leads node.now
        (outcome node.now (CallOf.OnGraft sender.now id.now round)).state decided.row) }
    ensures answer { IfOk result (λ decided. effects_of decided.answer ≡ record {
      sends = (outcome node.now (CallOf.OnGraft sender.now id.now round)).sends;
      delivered = (outcome node.now (CallOf.OnGraft sender.now id.now round)).delivered;
    }) }
    ensures memory { IfErr result (λ e. e ≡ GossipFault.OutOfMemory) }
{
    let answer = match node.payload(id) {
        Some(payload) => AnswerOf::Packet {
            to: *sender,
            body: gossip(id, round, payload)?,
        },
        None => AnswerOf::Nothing,
    };
    Ok(Decided {
        row: RowOf::Eager { peer: *sender },
        answer,
    })
}

/// Decides the request to announce everything in the queue.
fn flushed<'a, A: Allocator + Copy>(
    alloc: A,
    node: &Gossip<A>,
) -> Result<Decided<'a, A>, GossipFault>
    ensures row { IfOk result (λ decided. Leads node.now (outcome node.now CallOf.Flush).state decided.row) }
    ensures answer { IfOk result (λ decided.
        effects_of decided.answer ≡ record { sends = (outcome node.now CallOf.Flush).sends; delivered = None }) }
    ensures memory { IfErr result (λ e. e ≡ GossipFault.OutOfMemory) }
{
    let packets = announcements(alloc, node.peers())?;
    Ok(Decided {
        row: RowOf::Flushed,
        answer: AnswerOf::Packets {
            sends: Listed::from_vec(packets),
        },
    })
}

/// Decides that a peer becomes eager.
fn eager<'a, A: Allocator>(peer: &NodeName) -> Result<Decided<'a, A>, GossipFault>
    ensures row { IfOk result (λ decided. decided.row ≡ RowOf.Eager peer.now) }
    ensures answer { IfOk result (λ decided. decided.answer ≡ AnswerOf.Nothing) }
    ensures memory { IfErr result (λ e. e ≡ GossipFault.OutOfMemory) }
{
    silent(RowOf::Eager { peer: *peer })
}

/// Decides that a peer becomes lazy.
fn lazy<'a, A: Allocator>(peer: &NodeName) -> Result<Decided<'a, A>, GossipFault>
    ensures row { IfOk result (λ decided. decided.row ≡ RowOf.Lazy peer.now) }
    ensures answer { IfOk result (λ decided. decided.answer ≡ AnswerOf.Nothing) }
    ensures memory { IfErr result (λ e. e ≡ GossipFault.OutOfMemory) }
{
    silent(RowOf::Lazy { peer: *peer })
}

/// Decides that a link came up.
fn up<'a, A: Allocator>(peer: &NodeName) -> Result<Decided<'a, A>, GossipFault>
    ensures row { IfOk result (λ decided. decided.row ≡ RowOf.Up peer.now) }
    ensures answer { IfOk result (λ decided. decided.answer ≡ AnswerOf.Nothing) }
    ensures memory { IfErr result (λ e. e ≡ GossipFault.OutOfMemory) }
{
    silent(RowOf::Up { peer: *peer })
}

/// Decides that a link went down.
fn down<'a, A: Allocator>(peer: &NodeName) -> Result<Decided<'a, A>, GossipFault>
    ensures row { IfOk result (λ decided. decided.row ≡ RowOf.Down peer.now) }
    ensures answer { IfOk result (λ decided. decided.answer ≡ AnswerOf.Nothing) }
    ensures memory { IfErr result (λ e. e ≡ GossipFault.OutOfMemory) }
{
    silent(RowOf::Down { peer: *peer })
}

/// Decides the call.
pub(crate) fn decide<'a, A: Allocator + Copy>(
    alloc: A,
    node: &'a Gossip<A>,
    call: &'a Call<'_, A>,
) -> Result<Decided<'a, A>, GossipFault>
    requires { CanTake node.now (lent call.now) }
    ensures row { IfOk result (λ decided. Leads node.now (outcome node.now (lent call.now)).state decided.row) }
    ensures answer { IfOk result (λ decided. effects_of decided.answer ≡ record {
      sends = (outcome node.now (lent call.now)).sends;
      delivered = (outcome node.now (lent call.now)).delivered;
    }) }
    ensures memory { IfErr result (λ e. e ≡ GossipFault.OutOfMemory) }
{
    match call {
        CallOf::Broadcast { payload } => return broadcast(alloc, node, payload),
        CallOf::OnGossip {
            sender,
            id,
            round,
            payload,
        } => return heard(alloc, node, sender, id, *round, payload),
        CallOf::OnIHave { sender, entries } => told(node, sender, entries),
        CallOf::Fire { id } => fired(node, id),
        CallOf::OnGraft { sender, id, round } => asked(node, sender, id, *round),
        CallOf::OnGraftPeer { sender } => eager(sender),
        CallOf::OnPrune { sender } => lazy(sender),
        CallOf::Flush => flushed(alloc, node),
        CallOf::Up { peer } => up(peer),
        CallOf::Down { peer } => down(peer),
    }
}
