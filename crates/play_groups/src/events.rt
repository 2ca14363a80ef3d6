//! The events of a group, as commands and as text.
use node_names::{Dice, Incarnation, Listed, NodeName};
use play_script::frame_words::dice;
use play_script::lists::{push_names, push_payload};
use play_script::words::{id, name, names, number, payload};
use std::alloc::{AllocError, Allocator};
use std::fmt::Write;
use world::{Event, EventOf, KeptEvent};

/// Parses a place in a list, or the number of a packet.
pub fn place(word: &str) -> Option<usize> {
    word.parse().ok()
}

/// Parses `dice 1 2`, the first words of the dice. The others are 0, and so are all of them if nothing is said.
pub fn thrown(words: &[&str]) -> Option<Dice> {
    match words {
        [] => Some(Dice::ZEROS),
        ["dice", numbers @ ..] => dice(numbers),
        _ => None,
    }
}

/// Splits `peers a c contact d` into the peers and the contact. Either part may be missing.
pub fn peers_and_contact<'a>(words: &'a [&'a str]) -> Option<(&'a [&'a str], Option<NodeName>)> {
    let (words, contact) = match words {
        [words @ .., "contact", contact] => (words, Some(name(contact)?)),
        _ => (words, None),
    };
    match words {
        ["peers", peers @ ..] => Some((peers, contact)),
        [] => Some((&[], contact)),
        _ => None,
    }
}

/// Parses a start: `start b 1 peers a c contact d`.
fn start<A: Allocator + Copy>(
    alloc: A,
    me: &str,
    incarnation: &str,
    words: &[&str],
) -> Result<Option<Event<A>>, AllocError> {
    let (Some(me), Some(incarnation), Some((peers, contact))) = (
        name(me),
        number(incarnation),
        peers_and_contact(words),
    ) else {
        return Ok(None);
    };
    let Some(peers) = names(alloc, peers)? else {
        return Ok(None);
    };
    Ok(Some(EventOf::Start {
        name: me,
        incarnation: Incarnation(incarnation),
        peers: Listed::from_vec(peers),
        contact,
    }))
}

/// Parses a broadcast: `broadcast a hello`.
fn broadcast<A: Allocator + Copy>(
    alloc: A,
    me: &str,
    letters: &str,
) -> Result<Option<Event<A>>, AllocError> {
    let Some(me) = name(me) else {
        return Ok(None);
    };
    let Some(payload) = payload(alloc, letters)? else {
        return Ok(None);
    };
    Ok(Some(EventOf::Broadcast { name: me, payload }))
}

/// Parses an event that brings neither peers nor a payload.
fn plain<A: Allocator + Copy>(words: &[&str]) -> Option<Event<A>> {
    Some(match words {
        ["arrive", at, words @ ..] => EventOf::Arrive {
            place: place(at)?,
            dice: thrown(words)?,
        },
        ["lose", at] => EventOf::Lose { place: place(at)? },
        ["again", number] => EventOf::Again {
            number: place(number)?,
        },
        ["fire", me, message] => EventOf::Fire {
            name: name(me)?,
            id: id(message)?,
        },
        ["flush", me] => EventOf::Flush { name: name(me)? },
        ["down", me, peer, words @ ..] => EventOf::Down {
            name: name(me)?,
            peer: name(peer)?,
            dice: thrown(words)?,
        },
        ["shuffle", me, words @ ..] => EventOf::Shuffle {
            name: name(me)?,
            dice: thrown(words)?,
        },
        ["join", me, contact] => EventOf::Join {
            name: name(me)?,
            contact: name(contact)?,
        },
        ["stop", me] => EventOf::Stop { name: name(me)? },
        _ => return None,
    })
}

/// Parses an event.
pub fn event_of<A: Allocator + Copy>(
    alloc: A,
    words: &[&str],
) -> Result<Option<Event<A>>, AllocError> {
    match words {
        ["start", me, incarnation, words @ ..] => start(alloc, me, incarnation, words),
        ["broadcast", me, letters] => broadcast(alloc, me, letters),
        _ => Ok(plain(words)),
    }
}

/// Parses events that are separated by `then`.
pub fn events_of<A: Allocator + Copy>(
    alloc: A,
    words: &[&str],
) -> Result<Option<Vec<Event<A>, A>>, AllocError> {
    let mut events = Vec::new(alloc);
    for words in words.split(|word| *word == "then") {
        let Some(event) = event_of(alloc, words)? else {
            return Ok(None);
        };
        events.push(event)?;
    }
    Ok(Some(events))
}

/// Appends dice up to the last that is not 0, if there is one.
pub fn push_dice(text: &mut String, dice: &Dice) -> Result<(), AllocError> {
    let mut count = 0usize;
    for (at, word) in dice.0.iter().enumerate() {
        if *word != 0 {
            count = at.saturating_add(1);
        }
    }
    if count > 0 {
        text.push_str(" dice")?;
    }
    for word in dice.0.iter().take(count) {
        write!(text, " {word}")?;
    }
    Ok(())
}

/// Appends the peers and the contact of a start, if there are any.
pub fn push_peers(
    text: &mut String,
    peers: &[NodeName],
    contact: &Option<NodeName>,
) -> Result<(), AllocError> {
    if !peers.is_empty() {
        text.push_str(" peers")?;
        push_names(text, peers)?;
    }
    match contact {
        Some(contact) => write!(text, " contact {contact}"),
        None => Ok(()),
    }
}

/// Appends an event that brings neither peers nor a payload.
fn push_plain<A: Allocator>(text: &mut String, event: &KeptEvent<A>) -> Result<(), AllocError> {
    match event {
        EventOf::Arrive { place, dice } => {
            write!(text, "arrive {place}")?;
            push_dice(text, &dice.get())
        }
        EventOf::Lose { place } => write!(text, "lose {place}"),
        EventOf::Again { number } => write!(text, "again {number}"),
        EventOf::Fire { name, id } => write!(text, "fire {name} {id}"),
        EventOf::Flush { name } => write!(text, "flush {name}"),
        EventOf::Down { name, peer, dice } => {
            write!(text, "down {name} {peer}")?;
            push_dice(text, &dice.get())
        }
        EventOf::Shuffle { name, dice } => {
            write!(text, "shuffle {name}")?;
            push_dice(text, &dice.get())
        }
        EventOf::Join { name, contact } => write!(text, "join {name} {contact}"),
        EventOf::Stop { name } => write!(text, "stop {name}"),
        EventOf::Start { .. } | EventOf::Broadcast { .. } => Ok(()),
    }
}

/// Appends an event as the command that it is.
pub fn push_event<A: Allocator>(text: &mut String, event: &KeptEvent<A>) -> Result<(), AllocError> {
    match event {
        EventOf::Start {
            name,
            incarnation,
            peers,
            contact,
        } => {
            write!(text, "start {name} {incarnation}")?;
            push_peers(text, peers.as_slice(), contact)
        }
        EventOf::Broadcast { name, payload } => {
            write!(text, "broadcast {name} ")?;
            push_payload(text, payload.as_slice())
        }
        _ => push_plain(text, event),
    }
}
