//! What a node knows of messages that it misses: their announcements and their timers.
use crate::gossip_texts::push_missing;
use missing::Missing;
use play_script::layer::{Layer, Outcome, Turn, fill, in_memory};
use play_script::lists::yes_or_no;
use play_script::words::{entries, id, name, names, short};
use std::alloc::{AllocError, Allocator};
use std::fmt::Write;

/// The announcements and timers of a node.
#[derive(Drop)]
pub struct MissingLayer<A: Allocator> {
    alloc: A,
    missing: Option<Missing<A>>,
}

/// Notes that a peer announced a message, and says whether that armed its timer: `announce b a/1/1 0`.
fn announce<A: Allocator + Copy>(
    missing: &mut Missing<A>,
    peer: &str,
    message: &str,
    round: &str,
    turn: &mut Turn<'_>,
    said: &mut String,
) -> Result<Outcome, AllocError> {
    let (Some(peer), Some(id), Some(round)) = (name(peer), id(message), short(round)) else {
        return Ok(Outcome::Unknown);
    };
    turn.begin();
    let answer = missing.announce(&id, &peer, round);
    turn.end();
    match answer {
        Ok(true) => said.push_str("armed\n")?,
        Ok(false) => {}
        Err(_) => return Ok(Outcome::NoMemory),
    }
    Ok(Outcome::Done)
}

/// Notes that a peer announced messages in one packet: `announce-all b a/1/1 0 a/1/2 1`.
fn announce_all<A: Allocator + Copy>(
    alloc: A,
    missing: &mut Missing<A>,
    peer: &str,
    words: &[&str],
    turn: &mut Turn<'_>,
) -> Result<Outcome, AllocError> {
    let (Some(peer), Some(entries)) = (name(peer), entries(alloc, words)?) else {
        return Ok(Outcome::Unknown);
    };
    turn.begin();
    let answer = missing.announce_all(&peer, entries.as_slice());
    turn.end();
    Ok(in_memory(answer))
}

/// Takes out the first announcement of a message, and says whose it was, or only looks at it.
fn first<A: Allocator>(
    missing: &mut Missing<A>,
    message: &str,
    is_taken: bool,
    said: &mut String,
) -> Result<Outcome, AllocError> {
    let Some(id) = id(message) else {
        return Ok(Outcome::Unknown);
    };
    let found = if is_taken {
        missing.take_first(&id)
    } else {
        missing.first(&id)
    };
    match found {
        Some((peer, round)) => writeln!(said, "{round} from {peer}")?,
        None => said.push_str("none\n")?,
    }
    Ok(Outcome::Done)
}

/// Says whether the timer of a message is armed.
fn is_armed<A: Allocator>(
    missing: &Missing<A>,
    message: &str,
    said: &mut String,
) -> Result<Outcome, AllocError> {
    let Some(id) = id(message) else {
        return Ok(Outcome::Unknown);
    };
    writeln!(said, "{}", yes_or_no(missing.armed(&id)))?;
    Ok(Outcome::Done)
}

/// Drops all about a message that came.
fn got<A: Allocator>(missing: &mut Missing<A>, message: &str) -> Outcome {
    match id(message) {
        Some(id) => {
            missing.got(&id);
            Outcome::Done
        }
        None => Outcome::Unknown,
    }
}

/// Drops the announcements of peers whose links went down.
fn down<A: Allocator + Copy>(
    alloc: A,
    missing: &mut Missing<A>,
    peers: &[&str],
) -> Result<Outcome, AllocError> {
    let Some(peers) = names(alloc, peers)? else {
        return Ok(Outcome::Unknown);
    };
    match peers.as_slice() {
        [peer] => missing.down(peer),
        peers => missing.down_all(peers),
    }
    Ok(Outcome::Done)
}

impl<A: Allocator + Copy> MissingLayer<A> {
    pub fn new(alloc: A) -> MissingLayer<A> {
        MissingLayer {
            alloc,
            missing: Some(Missing::new(alloc)),
        }
    }

    /// Puts a copy in its place.
    fn copy(&mut self, turn: &mut Turn<'_>) -> Outcome {
        let Some(missing) = &self.missing else {
            return Outcome::Unknown;
        };
        turn.begin();
        let made = missing.copy();
        turn.end();
        fill(&mut self.missing, made)
    }
}

impl<A: Allocator + Copy> Layer for MissingLayer<A> {
    fn call(
        &mut self,
        words: &[&str],
        turn: &mut Turn<'_>,
        said: &mut String,
    ) -> Result<Outcome, AllocError> {
        match words {
            ["start"] => return Ok(fill(&mut self.missing, Ok(Missing::new(self.alloc)))),
            ["copy"] => return Ok(self.copy(turn)),
            _ => {}
        }
        let Some(missing) = &mut self.missing else {
            return Ok(Outcome::Unknown);
        };
        match words {
            ["announce", peer, message, round] => {
                announce(missing, peer, message, round, turn, said)
            }
            ["announce-all", peer, words @ ..] => {
                announce_all(self.alloc, missing, peer, words, turn)
            }
            ["take-first", message] => first(missing, message, true, said),
            ["first", message] => first(missing, message, false, said),
            ["is-armed", message] => is_armed(missing, message, said),
            ["got", message] => Ok(got(missing, message)),
            ["down", peers @ ..] => down(self.alloc, missing, peers),
            _ => Ok(Outcome::Unknown),
        }
    }

    fn clear(&mut self) {
        self.missing = Some(Missing::new(self.alloc));
    }

    fn show(&self, text: &mut String) -> Result<(), AllocError> {
        match &self.missing {
            Some(missing) => push_missing(text, missing),
            None => Ok(()),
        }
    }
}
