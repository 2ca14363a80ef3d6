//! The peer sets of a node: `start` makes them, and the others are their calls.
ghost use Rattle.std.specs.Prelude.{◌≡◌};
ghost use Rattle.peer_sets.specs.Queue.{has_entry_of};

use crate::distinct::are_distinct;
use crate::gossip_texts::push_peers;
use node_names::{Listed, MsgId, NodeName};
use peer_sets::PeerSets;
use play_script::layer::{Layer, Outcome, Turn, fill, in_memory};
use play_script::lists::yes_or_no;
use play_script::words::{after, before, id, name, names, short};
use std::alloc::{AllocError, Allocator};
use std::fmt::Write;

/// Peer sets, once they were made.
#[derive(Drop)]
pub struct PeersLayer<A: Allocator> {
    alloc: A,
    sets: Option<PeerSets<A>>,
}

/// Returns whether an announcement of the message is queued.
fn waits<A: Allocator>(sets: &PeerSets<A>, message: &MsgId) -> bool
    ensures { result ≡ has_entry_of message.now sets.now.queued }
{
    sets.queued().iter().any(|entry| *message == entry.1)
}

/// Appends batches of announcements, each with its receiver.
fn push_batches<A: Allocator>(
    said: &mut String,
    batches: &[(NodeName, Listed<(MsgId, u32), A>)],
) -> Result<(), AllocError> {
    for (peer, entries) in batches {
        write!(said, "for {peer}:")?;
        for (id, round) in entries.as_slice() {
            write!(said, " {id} {round}")?;
        }
        said.push('\n')?;
    }
    Ok(())
}

/// Says `yes` or `no`.
fn say(said: &mut String, is_so: bool) -> Result<Outcome, AllocError> {
    writeln!(said, "{}", yes_or_no(is_so))?;
    Ok(Outcome::Done)
}

/// Queues an announcement for a member: `queue b a/1/1 0`.
fn queue<A: Allocator + Copy>(
    sets: &mut PeerSets<A>,
    peer: &str,
    message: &str,
    round: &str,
    turn: &mut Turn<'_>,
) -> Outcome {
    let (Some(peer), Some(id), Some(round)) = (name(peer), id(message), short(round)) else {
        return Outcome::Unknown;
    };
    if !sets.is_member(&peer) {
        return Outcome::Unknown;
    }
    turn.begin();
    let answer = sets.queue(&peer, &id, round);
    turn.end();
    in_memory(answer)
}

/// Queues announcements of a message of which none waits for the lazy members: `announce a/1/1 0`, with `but b` for all
/// but one.
fn announce<A: Allocator + Copy>(
    sets: &mut PeerSets<A>,
    message: &str,
    round: &str,
    but: &[&str],
    turn: &mut Turn<'_>,
) -> Outcome {
    let but = match but {
        ["but", but] => name(but),
        _ => None,
    };
    let (Some(id), Some(round)) = (id(message), short(round)) else {
        return Outcome::Unknown;
    };
    if waits(sets, &id) {
        return Outcome::Unknown;
    }
    turn.begin();
    let answer = sets.queue_lazy(&but, &id, round);
    turn.end();
    in_memory(answer)
}

/// Makes a peer a member, or no member.
fn link<A: Allocator + Copy>(
    sets: &mut PeerSets<A>,
    peer: &str,
    is_up: bool,
    turn: &mut Turn<'_>,
) -> Outcome {
    let Some(peer) = name(peer) else {
        return Outcome::Unknown;
    };
    turn.begin();
    let answer = if is_up {
        sets.up(&peer)
    } else {
        sets.down(&peer);
        Ok(())
    };
    turn.end();
    in_memory(answer)
}

/// Makes a member eager or lazy, and says whether the peer is a member.
fn turn_to<A: Allocator + Copy>(
    sets: &mut PeerSets<A>,
    peer: &str,
    is_eager: bool,
    turn: &mut Turn<'_>,
    said: &mut String,
) -> Result<Outcome, AllocError> {
    let Some(peer) = name(peer) else {
        return Ok(Outcome::Unknown);
    };
    turn.begin();
    let is_member = if is_eager {
        sets.make_eager(&peer)
    } else {
        sets.make_lazy(&peer)
    };
    turn.end();
    say(said, is_member)
}

/// Returns the queued announcements in batches, and takes them out of the queue.
fn flush<A: Allocator + Copy>(
    sets: &mut PeerSets<A>,
    turn: &mut Turn<'_>,
    said: &mut String,
) -> Result<Outcome, AllocError> {
    turn.begin();
    let answer = sets.flush();
    turn.end();
    match answer {
        Ok(batches) => {
            push_batches(said, batches.as_slice())?;
            Ok(Outcome::Done)
        }
        Err(_) => Ok(Outcome::NoMemory),
    }
}

/// Takes members out and adds some in one call: `relink b c up d`.
fn relink<A: Allocator + Copy>(
    alloc: A,
    sets: &mut PeerSets<A>,
    words: &[&str],
    turn: &mut Turn<'_>,
) -> Result<Outcome, AllocError> {
    let (Some(downs), Some(ups)) = (
        names(alloc, before(words, "up"))?,
        names(alloc, after(words, "up"))?,
    ) else {
        return Ok(Outcome::Unknown);
    };
    turn.begin();
    let answer = sets.relink(downs.as_slice(), ups.as_slice());
    turn.end();
    Ok(in_memory(answer))
}

impl<A: Allocator + Copy> PeersLayer<A> {
    pub fn new(alloc: A) -> PeersLayer<A> {
        PeersLayer { alloc, sets: None }
    }

    /// Makes the peer sets, with these eager members.
    fn start(&mut self, peers: &[&str], turn: &mut Turn<'_>) -> Result<Outcome, AllocError> {
        let Some(peers) = names(self.alloc, peers)? else {
            return Ok(Outcome::Unknown);
        };
        if !are_distinct(peers.as_slice()) {
            return Ok(Outcome::Unknown);
        }
        turn.begin();
        let made = PeerSets::new(self.alloc, peers.as_slice());
        turn.end();
        Ok(fill(&mut self.sets, made))
    }

    /// Puts a copy of the sets in their place.
    fn copy(&mut self, turn: &mut Turn<'_>) -> Outcome {
        let Some(sets) = &self.sets else {
            return Outcome::Unknown;
        };
        turn.begin();
        let made = sets.copy();
        turn.end();
        fill(&mut self.sets, made)
    }
}

impl<A: Allocator + Copy> Layer for PeersLayer<A> {
    fn call(
        &mut self,
        words: &[&str],
        turn: &mut Turn<'_>,
        said: &mut String,
    ) -> Result<Outcome, AllocError> {
        match words {
            ["start", peers @ ..] => return self.start(peers, turn),
            ["copy"] => return Ok(self.copy(turn)),
            _ => {}
        }
        let Some(sets) = &mut self.sets else {
            return Ok(Outcome::Unknown);
        };
        match words {
            ["up", peer] => Ok(link(sets, peer, true, turn)),
            ["down", peer] => Ok(link(sets, peer, false, turn)),
            ["eager", peer] => turn_to(sets, peer, true, turn, said),
            ["lazy", peer] => turn_to(sets, peer, false, turn, said),
            ["queue", peer, message, round] => Ok(queue(sets, peer, message, round, turn)),
            ["announce", message, round, but @ ..] => {
                Ok(announce(sets, message, round, but, turn))
            }
            ["relink", words @ ..] => relink(self.alloc, sets, words, turn),
            ["flush"] => flush(sets, turn, said),
            _ => Ok(Outcome::Unknown),
        }
    }

    fn clear(&mut self) {
        self.sets = None;
    }

    fn show(&self, text: &mut String) -> Result<(), AllocError> {
        match &self.sets {
            Some(sets) => push_peers(text, sets),
            None => Ok(()),
        }
    }
}
