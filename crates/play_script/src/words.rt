//! The words of a command: names, runs, ids, numbers and payloads.
use bytes::Bytes;
use node_names::{Incarnation, MsgId, NodeName, Origin};
use std::alloc::{AllocError, Allocator};

/// Parses a name.
pub fn name(word: &str) -> Option<NodeName> {
    NodeName::parse(word.as_bytes()).ok()
}

/// Parses a number of 64 bits. `max` is the greatest one.
pub fn number(word: &str) -> Option<u64> {
    if word == "max" {
        return Some(u64::MAX);
    }
    word.parse().ok()
}

/// Parses a number of 32 bits. `max` is the greatest one.
pub fn short(word: &str) -> Option<u32> {
    if word == "max" {
        return Some(u32::MAX);
    }
    word.parse().ok()
}

/// Parses a run of a node, as `a/1`. `a` is its first run.
pub fn origin(word: &str) -> Option<Origin> {
    match word.split_once('/') {
        Some((of, incarnation)) => Some(Origin {
            name: name(of)?,
            incarnation: Incarnation(number(incarnation)?),
        }),
        None => Some(Origin {
            name: name(word)?,
            incarnation: Incarnation(1),
        }),
    }
}

/// Parses the id of a message, as `a/1/2`.
pub fn id(word: &str) -> Option<MsgId> {
    let (of, rest) = word.split_once('/')?;
    let (incarnation, seq) = rest.split_once('/')?;
    Some(MsgId {
        origin: Origin {
            name: name(of)?,
            incarnation: Incarnation(number(incarnation)?),
        },
        seq: number(seq)?,
    })
}

/// Parses a payload: a word, `-` for no bytes, or as `*32769` that many times the letter `x`.
pub fn payload<A: Allocator + Copy>(alloc: A, word: &str) -> Result<Option<Bytes<A>>, AllocError> {
    if word == "-" {
        return Ok(Some(Bytes::copy_from_slice(alloc, &[])?));
    }
    let Some(count) = word.strip_prefix("*") else {
        return Ok(Some(Bytes::copy_from_slice(alloc, word.as_bytes())?));
    };
    let Ok(count) = count.parse::<usize>() else {
        return Ok(None);
    };
    let letters = vec![in alloc; b'x'; count]?;
    Ok(Some(Bytes::copy_from_slice(alloc, letters.as_slice())?))
}

/// Parses names.
pub fn names<A: Allocator + Copy>(
    alloc: A,
    words: &[&str],
) -> Result<Option<Vec<NodeName, A>>, AllocError> {
    let mut found = Vec::new(alloc);
    for word in words {
        let Some(name) = name(word) else {
            return Ok(None);
        };
        found.push(name)?;
    }
    Ok(Some(found))
}

/// Returns the word behind `key`, if there is one.
pub fn value<'a>(words: &[&'a str], key: &str) -> Option<&'a str> {
    let at = words.iter().position(|word| *word == key)?;
    words.get(at + 1).copied()
}

/// Returns the words behind `key`, or none if it is not there.
pub fn after<'a>(words: &'a [&'a str], key: &str) -> &'a [&'a str] {
    let begin = match words.iter().position(|word| *word == key) {
        Some(at) => at.saturating_add(1),
        None => words.len(),
    };
    words.get(begin..).unwrap_or(&[])
}

/// Returns the number of 64 bits behind `key`, or 0 if the key is not there.
pub fn number_of(words: &[&str], key: &str) -> Option<u64> {
    match value(words, key) {
        Some(word) => number(word),
        None => Some(0),
    }
}

/// Returns the number of 32 bits behind `key`, or 0 if the key is not there.
pub fn short_of(words: &[&str], key: &str) -> Option<u32> {
    match value(words, key) {
        Some(word) => short(word),
        None => Some(0),
    }
}

/// Returns the words in front of `key`, or all if it is not there.
pub fn before<'a>(words: &'a [&'a str], key: &str) -> &'a [&'a str] {
    let end = words.iter().position(|word| *word == key);
    words.get(..end.unwrap_or(words.len())).unwrap_or(&[])
}

/// Parses announcements: pairs of an id and a round.
pub fn entries<A: Allocator + Copy>(
    alloc: A,
    words: &[&str],
) -> Result<Option<Vec<(MsgId, u32), A>>, AllocError> {
    let mut found = Vec::new(alloc);
    for pair in words.chunks(2) {
        let [message, round] = pair else {
            return Ok(None);
        };
        let (Some(id), Some(round)) = (id(message), short(round)) else {
            return Ok(None);
        };
        found.push((id, round))?;
    }
    Ok(Some(found))
}
