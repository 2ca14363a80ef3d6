//! The calls of a node's gossip, as commands.
use bytes::Bytes;
use gossip_core::{Call, CallOf};
use node_names::MsgId;
use play_script::words::{entries, id, name, payload, short};
use std::alloc::{AllocError, Allocator};

/// A call that owns its payload and its announcements.
pub(crate) type OwnedCall<A> = CallOf<Bytes<A>, Vec<(MsgId, u32), A>>;

fn broadcast<A: Allocator + Copy>(
    alloc: A,
    letters: &str,
) -> Result<Option<OwnedCall<A>>, AllocError> {
    match payload(alloc, letters)? {
        Some(payload) => Ok(Some(CallOf::Broadcast { payload })),
        None => Ok(None),
    }
}

fn gossip<A: Allocator + Copy>(
    alloc: A,
    sender: &str,
    message: &str,
    round: &str,
    letters: &str,
) -> Result<Option<OwnedCall<A>>, AllocError> {
    let (Some(sender), Some(id), Some(round)) = (name(sender), id(message), short(round)) else {
        return Ok(None);
    };
    let Some(payload) = payload(alloc, letters)? else {
        return Ok(None);
    };
    Ok(Some(CallOf::OnGossip {
        sender,
        id,
        round,
        payload,
    }))
}

fn ihave<A: Allocator + Copy>(
    alloc: A,
    sender: &str,
    words: &[&str],
) -> Result<Option<OwnedCall<A>>, AllocError> {
    let Some(sender) = name(sender) else {
        return Ok(None);
    };
    match entries(alloc, words)? {
        Some(entries) => Ok(Some(CallOf::OnIHave { sender, entries })),
        None => Ok(None),
    }
}

/// Parses a call that brings neither a payload nor announcements.
fn plain<A: Allocator + Copy>(words: &[&str]) -> Option<OwnedCall<A>> {
    Some(match words {
        ["fire", message] => CallOf::Fire { id: id(message)? },
        ["graft", sender, message, round] => CallOf::OnGraft {
            sender: name(sender)?,
            id: id(message)?,
            round: short(round)?,
        },
        ["graft", sender] => CallOf::OnGraftPeer {
            sender: name(sender)?,
        },
        ["prune", sender] => CallOf::OnPrune {
            sender: name(sender)?,
        },
        ["flush"] => CallOf::Flush,
        ["up", peer] => CallOf::Up { peer: name(peer)? },
        ["down", peer] => CallOf::Down { peer: name(peer)? },
        _ => return None,
    })
}

/// Parses a call.
pub(crate) fn call_of<A: Allocator + Copy>(
    alloc: A,
    words: &[&str],
) -> Result<Option<OwnedCall<A>>, AllocError> {
    match words {
        ["broadcast", letters] => broadcast(alloc, letters),
        ["gossip", sender, message, round, letters] => {
            gossip(alloc, sender, message, round, letters)
        }
        ["ihave", sender, words @ ..] => ihave(alloc, sender, words),
        _ => Ok(plain(words)),
    }
}

/// Returns the call with its payload and its announcements lent.
pub(crate) fn lent<A: Allocator>(call: &OwnedCall<A>) -> Call<'_, A> {
    match call {
        CallOf::Broadcast { payload } => CallOf::Broadcast { payload },
        CallOf::OnGossip {
            sender,
            id,
            round,
            payload,
        } => CallOf::OnGossip {
            sender: *sender,
            id: *id,
            round: *round,
            payload,
        },
        CallOf::OnIHave { sender, entries } => CallOf::OnIHave {
            sender: *sender,
            entries: entries.as_slice(),
        },
        CallOf::Fire { id } => CallOf::Fire { id: *id },
        CallOf::OnGraft { sender, id, round } => CallOf::OnGraft {
            sender: *sender,
            id: *id,
            round: *round,
        },
        CallOf::OnGraftPeer { sender } => CallOf::OnGraftPeer { sender: *sender },
        CallOf::OnPrune { sender } => CallOf::OnPrune { sender: *sender },
        CallOf::Flush => CallOf::Flush,
        CallOf::Up { peer } => CallOf::Up { peer: *peer },
        CallOf::Down { peer } => CallOf::Down { peer: *peer },
    }
}

/// Returns the message that the call is about, if it is about one.
pub(crate) fn message_of<A: Allocator>(call: &OwnedCall<A>) -> Option<MsgId> {
    match call {
        CallOf::OnGossip { id, .. } | CallOf::Fire { id } | CallOf::OnGraft { id, .. } => Some(*id),
        CallOf::OnIHave { entries, .. } => entries.first().map(|entry| entry.0),
        CallOf::Broadcast { .. }
        | CallOf::OnGraftPeer { .. }
        | CallOf::OnPrune { .. }
        | CallOf::Flush
        | CallOf::Up { .. }
        | CallOf::Down { .. } => None,
    }
}
