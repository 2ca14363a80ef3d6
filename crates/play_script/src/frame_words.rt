//! The bodies of frames as words, spelled as `bodies` prints them, and what steps a node.
use crate::words::{entries, id, name, names, number, origin, payload, short};
use frames::{Body, BodyOf, Frame};
use node_names::{Dice, Listed, NodeName};
use protocol::{Stimulus, StimulusOf};
use std::alloc::{AllocError, Allocator};

fn gossip<A: Allocator + Copy>(
    alloc: A,
    message: &str,
    round: &str,
    letters: &str,
) -> Result<Option<Body<A>>, AllocError> {
    let (Some(id), Some(round)) = (id(message), short(round)) else {
        return Ok(None);
    };
    Ok(payload(alloc, letters)?.map(|payload| BodyOf::Gossip { id, round, payload }))
}

fn ihave<A: Allocator + Copy>(alloc: A, words: &[&str]) -> Result<Option<Body<A>>, AllocError> {
    match entries(alloc, words)? {
        Some(entries) => Ok(Some(BodyOf::IHave {
            entries: Listed::from_vec(entries),
        })),
        None => Ok(None),
    }
}

fn listed<A: Allocator + Copy>(
    alloc: A,
    words: &[&str],
) -> Result<Option<Listed<NodeName, A>>, AllocError> {
    Ok(names(alloc, words)?.map(|names| Listed::from_vec(names)))
}

fn shuffle<A: Allocator + Copy>(
    alloc: A,
    of: &str,
    ttl: &str,
    words: &[&str],
) -> Result<Option<Body<A>>, AllocError> {
    let (Some(origin), Ok(ttl)) = (name(of), ttl.parse::<u8>()) else {
        return Ok(None);
    };
    Ok(listed(alloc, words)?.map(|names| BodyOf::Shuffle { origin, ttl, names }))
}

/// Parses a body without a list and without a payload.
fn plain<A: Allocator>(words: &[&str]) -> Option<Body<A>> {
    Some(match words {
        ["JOIN"] => BodyOf::Join,
        ["FORWARDJOIN", new, ttl] => BodyOf::ForwardJoin {
            new: name(new)?,
            ttl: ttl.parse().ok()?,
        },
        ["NEIGHBOR", "high"] => BodyOf::Neighbor { high: true },
        ["NEIGHBOR", "low"] => BodyOf::Neighbor { high: false },
        ["NEIGHBORREPLY", "accepted"] => BodyOf::NeighborReply { accepted: true },
        ["NEIGHBORREPLY", "refused"] => BodyOf::NeighborReply { accepted: false },
        ["DISCONNECT"] => BodyOf::Disconnect,
        ["GRAFT", message, round] => BodyOf::Graft {
            id: id(message)?,
            round: short(round)?,
        },
        ["GRAFT"] => BodyOf::GraftPeer,
        ["PRUNE"] => BodyOf::Prune,
        _ => return None,
    })
}

/// Parses a body: its kind and its fields.
pub fn body<A: Allocator + Copy>(alloc: A, words: &[&str]) -> Result<Option<Body<A>>, AllocError> {
    match words {
        ["GOSSIP", message, round, letters] => gossip(alloc, message, round, letters),
        ["IHAVE", words @ ..] => ihave(alloc, words),
        ["SHUFFLE", "of", of, ttl, words @ ..] => shuffle(alloc, of, ttl, words),
        ["SHUFFLEREPLY", words @ ..] => {
            Ok(listed(alloc, words)?.map(|names| BodyOf::ShuffleReply { names }))
        }
        _ => Ok(plain(words)),
    }
}

/// Parses dice: the first words, of which those that are not given are 0.
pub fn dice(words: &[&str]) -> Option<Dice> {
    let mut dice = Dice::ZEROS;
    if words.len() > dice.0.len() {
        return None;
    }
    for (place, word) in dice.0.iter_mut().zip(words) {
        *place = number(word)?;
    }
    Some(dice)
}

/// Parses the arrival of a frame: its sender, its number and its body. The dice are zeros.
fn arrival<A: Allocator + Copy>(
    alloc: A,
    sender: &str,
    count: &str,
    words: &[&str],
) -> Result<Option<Stimulus<Frame<A>, A>>, AllocError> {
    let (Some(sender), Some(number)) = (origin(sender), number(count)) else {
        return Ok(None);
    };
    let Some(body) = body(alloc, words)? else {
        return Ok(None);
    };
    Ok(
        Frame::new(sender, number, body)
            .ok()
            .map(|note| StimulusOf::Arrive {
                sender,
                note,
                dice: Dice::ZEROS,
            }),
    )
}

/// Parses what steps a node: `broadcast m`, `arrive b/1 3 PRUNE`, `fire a/1/1`, `flush`, `join b`, `down b` or
/// `shuffle`, the last two with words of dice behind.
pub fn stimulus<A: Allocator + Copy>(
    alloc: A,
    words: &[&str],
) -> Result<Option<Stimulus<Frame<A>, A>>, AllocError> {
    Ok(match words {
        ["broadcast", letters] => {
            payload(alloc, letters)?.map(|payload| StimulusOf::Broadcast(payload))
        }
        ["arrive", sender, count, words @ ..] => arrival(alloc, sender, count, words)?,
        ["fire", message] => id(message).map(|id| StimulusOf::Fire(id)),
        ["flush"] => Some(StimulusOf::Flush),
        ["down", peer, words @ ..] => match (name(peer), dice(words)) {
            (Some(peer), Some(dice)) => Some(StimulusOf::Down { peer, dice }),
            _ => None,
        },
        ["shuffle", words @ ..] => dice(words).map(|dice| StimulusOf::Shuffle(dice)),
        ["join", contact] => name(contact).map(|contact| StimulusOf::Join(contact)),
        _ => None,
    })
}
