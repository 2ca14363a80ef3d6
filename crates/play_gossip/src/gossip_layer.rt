//! The gossip of one node: `start` makes it, and the others are its calls.
ghost use Rattle.std.specs.Prelude.{IfOk};
ghost use Rattle.gossip_core.specs.Rows.{CanChange};

use crate::distinct::are_distinct;
use crate::gossip_calls::{OwnedCall, call_of, lent, message_of};
use crate::gossip_texts::{Given, push_given, push_gossip};
use gossip_core::{AnswerOf, Call, CallOf, Decided, Effects, Gossip, GossipFault, Row};
use node_names::MsgId;
use play_script::layer::{Layer, Outcome, Turn, fill, in_memory};
use play_script::lists::yes_or_no;
use play_script::words::{after, before, id, names, number_of, origin, short_of};
use std::alloc::{AllocError, Allocator, Global};
use std::fmt::Write;

/// The gossip of a node, once it was started.
#[derive(Drop)]
pub struct GossipLayer<A: Allocator> {
    alloc: A,
    node: Option<Gossip<A>>,
    /// The messages of which a command spoke. Of these `show` says which are known.
    ids: Vec<MsgId>,
}

/// Makes a call as the node's own function does it.
fn make<A: Allocator + Copy>(
    node: &mut Gossip<A>,
    call: &Call<'_, A>,
    out: &mut Effects<A>,
) -> Result<(), GossipFault> {
    match call {
        CallOf::Broadcast { payload } => {
            node.broadcast(payload, out)?;
        }
        CallOf::OnGossip {
            sender,
            id,
            round,
            payload,
        } => node.on_gossip(sender, id, *round, payload, out)?,
        CallOf::OnIHave { sender, entries } => node.on_ihave(sender, entries)?,
        CallOf::Fire { id } => node.fire(id, out)?,
        CallOf::OnGraft { sender, id, round } => node.on_graft(sender, id, *round, out)?,
        CallOf::OnGraftPeer { sender } => node.on_graft_peer(sender),
        CallOf::OnPrune { sender } => node.on_prune(sender),
        CallOf::Flush => node.flush(out)?,
        CallOf::Up { peer } => node.up(peer)?,
        CallOf::Down { peer } => node.down(peer),
    }
    Ok(())
}

/// Makes a call in two halves: first it is decided, and then the node takes the row that it is.
fn make_halves<A: Allocator + Copy>(
    alloc: A,
    node: &mut Gossip<A>,
    call: &Call<'_, A>,
    out: &mut Given<A>,
) -> Result<(), GossipFault> {
    let row = decide(alloc, node, call, out)?;
    node.take(row)?;
    Ok(())
}

/// Decides a call, and answers its row.
fn decide<A: Allocator + Copy>(
    alloc: A,
    node: &Gossip<A>,
    call: &Call<'_, A>,
    out: &mut Given<A>,
) -> Result<Row<A>, GossipFault>
    ensures { IfOk result (λ row. CanChange node.now row) }
{
    let Decided { row, answer } = node.answer(call)?;
    match answer {
        AnswerOf::Packet { to, body } => out.first = Some((to, body)),
        answer => out.others = Effects::of(alloc, answer)?,
    }
    Ok(row)
}

/// Appends what a call answered.
fn push_answer<A: Allocator>(
    said: &mut String,
    answer: Result<(), GossipFault>,
    out: &Given<A>,
) -> Result<Outcome, AllocError> {
    match answer {
        Ok(()) => push_given(said, out)?,
        Err(GossipFault::OutOfMemory) => return Ok(Outcome::NoMemory),
        Err(fault) => writeln!(said, "{fault}")?,
    }
    Ok(Outcome::Done)
}

impl<A: Allocator + Copy> GossipLayer<A> {
    pub fn new(alloc: A, own: Global) -> GossipLayer<A> {
        GossipLayer {
            alloc,
            node: None,
            ids: Vec::new(own),
        }
    }

    /// Notes the message that a call is about.
    fn note(&mut self, id: Option<MsgId>) -> Result<(), AllocError> {
        if let Some(id) = id {
            if !self.ids.contains(&id) {
                self.ids.push(id)?;
            }
        }
        Ok(())
    }

    /// Makes the node of a run: `start c/1 spent 0 threshold 0 keep 0 peers a b`. What is not given is 0 or empty.
    fn start(
        &mut self,
        me: &str,
        words: &[&str],
        turn: &mut Turn<'_>,
    ) -> Result<Outcome, AllocError> {
        let (Some(me), Some(spent), Some(threshold), Some(keep)) = (
            origin(me),
            number_of(words, "spent"),
            short_of(words, "threshold"),
            short_of(words, "keep"),
        ) else {
            return Ok(Outcome::Unknown);
        };
        let Some(peers) = names(self.alloc, after(words, "peers"))? else {
            return Ok(Outcome::Unknown);
        };
        if !are_distinct(peers.as_slice()) {
            return Ok(Outcome::Unknown);
        }
        turn.begin();
        let made = Gossip::new_tuned(self.alloc, me, peers.as_slice(), spent, threshold, keep);
        turn.end();
        let outcome = fill(&mut self.node, made);
        if outcome == Outcome::Done {
            self.ids.clear();
        }
        Ok(outcome)
    }

    /// Makes a call.
    fn make(
        &mut self,
        call: &OwnedCall<A>,
        by_halves: bool,
        turn: &mut Turn<'_>,
        said: &mut String,
    ) -> Result<Outcome, AllocError> {
        let Some(node) = &mut self.node else {
            return Ok(Outcome::Unknown);
        };
        let mut out = Given {
            first: None,
            others: Effects::new(self.alloc),
        };
        turn.begin();
        let answer = if by_halves {
            make_halves(self.alloc, node, &lent(call), &mut out)
        } else {
            make(node, &lent(call), &mut out.others)
        };
        turn.end();
        let outcome = push_answer(said, answer, &out)?;
        if outcome == Outcome::Done {
            self.note(message_of(call))?;
            self.note(out.others.delivered.as_ref().map(|delivered| delivered.0))?;
        }
        Ok(outcome)
    }

    /// Reads a call and makes it.
    fn read(
        &mut self,
        words: &[&str],
        by_halves: bool,
        turn: &mut Turn<'_>,
        said: &mut String,
    ) -> Result<Outcome, AllocError> {
        match call_of(self.alloc, words)? {
            Some(call) => self.make(&call, by_halves, turn, said),
            None => Ok(Outcome::Unknown),
        }
    }

    /// Puts a copy of the node in its place.
    fn copy(&mut self, turn: &mut Turn<'_>) -> Outcome {
        let Some(node) = &self.node else {
            return Outcome::Unknown;
        };
        turn.begin();
        let made = node.copy();
        turn.end();
        fill(&mut self.node, made)
    }

    /// Tells the node of links that went down, and then of links that came up: `relink c d up e`.
    fn relink(&mut self, words: &[&str], turn: &mut Turn<'_>) -> Result<Outcome, AllocError> {
        let (Some(downs), Some(ups)) = (
            names(self.alloc, before(words, "up"))?,
            names(self.alloc, after(words, "up"))?,
        ) else {
            return Ok(Outcome::Unknown);
        };
        let Some(node) = &mut self.node else {
            return Ok(Outcome::Unknown);
        };
        turn.begin();
        let answer = node.relink(downs.as_slice(), ups.as_slice());
        turn.end();
        Ok(in_memory(answer))
    }
}

impl<A: Allocator + Copy> GossipLayer<A> {
    /// Says how many messages of a run are known without a gap, and how many past it.
    fn span(&self, of: &str, said: &mut String) -> Result<Outcome, AllocError> {
        let (Some(node), Some(of)) = (&self.node, origin(of)) else {
            return Ok(Outcome::Unknown);
        };
        let (unbroken, past) = node.span(&of);
        writeln!(said, "{unbroken} without a gap, {past} past it")?;
        Ok(Outcome::Done)
    }

    /// Says whether a message is known.
    fn knows(&self, message: &str, said: &mut String) -> Result<Outcome, AllocError> {
        let (Some(node), Some(id)) = (&self.node, id(message)) else {
            return Ok(Outcome::Unknown);
        };
        writeln!(said, "{}", yes_or_no(node.knows(&id)))?;
        Ok(Outcome::Done)
    }
}

impl<A: Allocator + Copy> Layer for GossipLayer<A> {
    fn call(
        &mut self,
        words: &[&str],
        turn: &mut Turn<'_>,
        said: &mut String,
    ) -> Result<Outcome, AllocError> {
        match words {
            ["start", me, words @ ..] => self.start(me, words, turn),
            ["copy"] => Ok(self.copy(turn)),
            ["span", of] => self.span(of, said),
            ["knows", message] => self.knows(message, said),
            ["relink", words @ ..] => self.relink(words, turn),
            ["halves", words @ ..] => self.read(words, true, turn, said),
            _ => self.read(words, false, turn, said),
        }
    }

    fn clear(&mut self) {
        self.node = None;
        self.ids.clear();
    }

    fn show(&self, text: &mut String) -> Result<(), AllocError> {
        match &self.node {
            Some(node) => push_gossip(text, node, self.ids.as_slice()),
            None => Ok(()),
        }
    }
}
