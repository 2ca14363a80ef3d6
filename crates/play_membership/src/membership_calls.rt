//! The events of a node's membership, as commands.
use membership::{Event, EventOf};
use node_names::NodeName;
use play_script::words::{name, names};
use std::alloc::{AllocError, Allocator};

/// An event that owns its names.
pub(crate) type OwnedEvent<A> = EventOf<Vec<NodeName, A>>;

/// Parses the priority of a NEIGHBOR.
fn is_high(word: &str) -> Option<bool> {
    match word {
        "high" => Some(true),
        "low" => Some(false),
        _ => None,
    }
}

/// Parses the answer to a NEIGHBOR.
fn is_accepted(word: &str) -> Option<bool> {
    match word {
        "accepted" => Some(true),
        "refused" => Some(false),
        _ => None,
    }
}

/// Parses an event that brings no list of names.
fn plain<A: Allocator>(words: &[&str]) -> Option<OwnedEvent<A>> {
    Some(match words {
        ["joins-by", contact] => EventOf::Joins {
            contact: name(contact)?,
        },
        ["join", sender] => EventOf::Join {
            sender: name(sender)?,
        },
        ["forwardjoin", sender, new, ttl] => EventOf::ForwardJoin {
            sender: name(sender)?,
            new: name(new)?,
            ttl: ttl.parse().ok()?,
        },
        ["neighbor", sender, priority] => EventOf::Neighbor {
            sender: name(sender)?,
            high: is_high(priority)?,
        },
        ["neighborreply", sender, answer] => EventOf::Reply {
            sender: name(sender)?,
            accepted: is_accepted(answer)?,
        },
        ["disconnect", sender] => EventOf::Disconnect {
            sender: name(sender)?,
        },
        ["down", peer] => EventOf::Down { peer: name(peer)? },
        ["tick"] => EventOf::Tick,
        _ => return None,
    })
}

/// Parses a SHUFFLE: `shuffle a of o 1 o r s`.
fn shuffle<A: Allocator + Copy>(
    alloc: A,
    sender: &str,
    origin: &str,
    ttl: &str,
    words: &[&str],
) -> Result<Option<OwnedEvent<A>>, AllocError> {
    let (Some(sender), Some(origin), Ok(ttl)) = (name(sender), name(origin), ttl.parse()) else {
        return Ok(None);
    };
    let Some(names) = names(alloc, words)? else {
        return Ok(None);
    };
    Ok(Some(EventOf::Shuffle {
        sender,
        origin,
        ttl,
        names,
    }))
}

/// Parses the answer to a SHUFFLE: `shufflereply a p q`.
fn shuffle_reply<A: Allocator + Copy>(
    alloc: A,
    sender: &str,
    words: &[&str],
) -> Result<Option<OwnedEvent<A>>, AllocError> {
    let Some(sender) = name(sender) else {
        return Ok(None);
    };
    match names(alloc, words)? {
        Some(names) => Ok(Some(EventOf::ShuffleReply { sender, names })),
        None => Ok(None),
    }
}

/// Parses an event.
pub(crate) fn event_of<A: Allocator + Copy>(
    alloc: A,
    words: &[&str],
) -> Result<Option<OwnedEvent<A>>, AllocError> {
    match words {
        ["shuffle", sender, "of", origin, ttl, words @ ..] => {
            shuffle(alloc, sender, origin, ttl, words)
        }
        ["shufflereply", sender, words @ ..] => shuffle_reply(alloc, sender, words),
        _ => Ok(plain(words)),
    }
}

/// Returns the event with its names lent.
pub(crate) fn lent<A: Allocator>(event: &OwnedEvent<A>) -> Event<'_> {
    match event {
        EventOf::Joins { contact } => EventOf::Joins { contact: *contact },
        EventOf::Join { sender } => EventOf::Join { sender: *sender },
        EventOf::ForwardJoin { sender, new, ttl } => EventOf::ForwardJoin {
            sender: *sender,
            new: *new,
            ttl: *ttl,
        },
        EventOf::Neighbor { sender, high } => EventOf::Neighbor {
            sender: *sender,
            high: *high,
        },
        EventOf::Reply { sender, accepted } => EventOf::Reply {
            sender: *sender,
            accepted: *accepted,
        },
        EventOf::Disconnect { sender } => EventOf::Disconnect { sender: *sender },
        EventOf::Shuffle {
            sender,
            origin,
            ttl,
            names,
        } => EventOf::Shuffle {
            sender: *sender,
            origin: *origin,
            ttl: *ttl,
            names: names.as_slice(),
        },
        EventOf::ShuffleReply { sender, names } => EventOf::ShuffleReply {
            sender: *sender,
            names: names.as_slice(),
        },
        EventOf::Down { peer } => EventOf::Down { peer: *peer },
        EventOf::Tick => EventOf::Tick,
    }
}
