//! The membership of one node: `start` makes it, and the others are its events.
use crate::membership_calls::{OwnedEvent, event_of, lent};
use crate::membership_texts::{push_membership, push_moves};
use crate::starting::start_of;
use membership::{EventOf, Membership, Moves};
use node_names::{Dice, NodeName};
use play_script::frame_words::dice;
use play_script::layer::{Layer, Outcome, Turn, fill};
use play_script::words::{after, before, name};
use std::alloc::{AllocError, Allocator, Global};

/// The membership of a node, once it was started.
#[derive(Drop)]
pub struct MembershipLayer<A: Allocator> {
    alloc: A,
    own: Global,
    membership: Option<Membership<A>>,
    /// What the last event gave.
    moves: Moves<A>,
}

/// How an event is told.
#[derive(Clone, Copy)]
enum Telling {
    /// To the function of its kind.
    Alone,
    /// The same, with lists that hold a JOIN to this name already.
    Behind(NodeName),
    /// To `prepare`, which changes nothing.
    Prepared,
}

/// Has the membership handle an event by the function of its kind.
fn handle<A: Allocator + Copy>(
    membership: &mut Membership<A>,
    event: &OwnedEvent<A>,
    dice: &Dice,
    moves: &mut Moves<A>,
) -> Result<(), AllocError> {
    match event {
        EventOf::Joins { contact } => membership.join(*contact, moves),
        EventOf::Join { sender } => membership.on_join(*sender, dice, moves),
        EventOf::ForwardJoin { sender, new, ttl } => {
            membership.on_forward_join(*sender, *new, *ttl, dice, moves)
        }
        EventOf::Neighbor { sender, high } => membership.on_neighbor(*sender, *high, dice, moves),
        EventOf::Reply { sender, accepted } => membership.on_reply(*sender, *accepted, dice, moves),
        EventOf::Disconnect { sender } => membership.on_disconnect(*sender, dice, moves),
        EventOf::Shuffle {
            sender,
            origin,
            ttl,
            names,
        } => membership.on_shuffle(*sender, *origin, *ttl, names.as_slice(), dice, moves),
        EventOf::ShuffleReply { sender, names } => {
            membership.on_shuffle_reply(*sender, names.as_slice(), dice, moves)
        }
        EventOf::Down { peer } => membership.on_down(*peer, dice, moves),
        EventOf::Tick => membership.tick(dice, moves),
    }
}

/// Has the membership handle an event, and says what it gives. A refusal that changes the lists is told as an answer.
fn tell<A: Allocator + Copy>(
    own: Global,
    membership: &mut Membership<A>,
    event: &OwnedEvent<A>,
    dice: &Dice,
    moves: &mut Moves<A>,
    turn: &mut Turn<'_>,
    said: &mut String,
) -> Result<Outcome, AllocError> {
    let mut held = String::new(own);
    push_moves(&mut held, moves)?;
    turn.begin();
    let answer = handle(membership, event, dice, moves);
    turn.end();
    let mut given = String::new(own);
    push_moves(&mut given, moves)?;
    if answer.is_err() && held == given {
        return Ok(Outcome::NoMemory);
    }
    said.push_str(given.as_str())?;
    Ok(Outcome::Done)
}

/// Says what was made, by `tell`.
fn say_made<T: Drop, F: FnOnce(&T) -> Result<(), AllocError>>(
    made: Result<T, AllocError>,
    tell: F,
) -> Result<Outcome, AllocError>
    requires { F.IsAlwaysCallable tell }
{
    match made {
        Ok(made) => {
            tell(&made)?;
            Ok(Outcome::Done)
        }
        Err(_) => Ok(Outcome::NoMemory),
    }
}

/// Says what an event gives, and what the membership shows after it.
fn say_prepared<A: Allocator>(
    said: &mut String,
    prepared: &(Membership<A>, Moves<A>),
) -> Result<(), AllocError> {
    push_moves(said, &prepared.1)?;
    push_membership(said, &prepared.0)
}

/// Says what an event would give, and what the membership would show after it.
fn prepare<A: Allocator + Copy>(
    membership: &Membership<A>,
    event: &OwnedEvent<A>,
    dice: &Dice,
    turn: &mut Turn<'_>,
    said: &mut String,
) -> Result<Outcome, AllocError> {
    turn.begin();
    let answer = membership.prepare(&lent(event), dice);
    turn.end();
    say_made(answer, |prepared| say_prepared(said, prepared))
}

impl<A: Allocator + Copy> MembershipLayer<A> {
    pub fn new(alloc: A, own: Global) -> MembershipLayer<A> {
        MembershipLayer {
            alloc,
            own,
            membership: None,
            moves: Moves::new(alloc),
        }
    }

    /// Makes the membership of a node: `start x active 2 passive 4 arwl 3 prwl 1 ka 1 kp 2 peers a b`. Limits that are
    /// not given are the standard ones.
    fn start(
        &mut self,
        owner: &str,
        words: &[&str],
        turn: &mut Turn<'_>,
    ) -> Result<Outcome, AllocError> {
        let Some(start) = start_of(self.alloc, owner, words)? else {
            return Ok(Outcome::Unknown);
        };
        turn.begin();
        let made = Membership::new(
            self.alloc,
            start.owner,
            start.limits,
            start.peers.as_slice(),
        );
        turn.end();
        Ok(fill(&mut self.membership, made))
    }

    /// Puts a copy of the membership in its place.
    fn copy(&mut self, turn: &mut Turn<'_>) -> Outcome {
        let Some(membership) = &self.membership else {
            return Outcome::Unknown;
        };
        turn.begin();
        let made = membership.copy();
        turn.end();
        fill(&mut self.membership, made)
    }

    /// Tells the membership of an event.
    fn hear(
        &mut self,
        event: &OwnedEvent<A>,
        telling: Telling,
        dice: &Dice,
        turn: &mut Turn<'_>,
        said: &mut String,
    ) -> Result<Outcome, AllocError> {
        let Some(membership) = &mut self.membership else {
            return Ok(Outcome::Unknown);
        };
        self.moves = Moves::new(self.alloc);
        match telling {
            Telling::Alone => {}
            Telling::Behind(contact) => membership.join(contact, &mut self.moves)?,
            Telling::Prepared => return prepare(membership, event, dice, turn, said),
        }
        tell(
            self.own,
            membership,
            event,
            dice,
            &mut self.moves,
            turn,
            said,
        )
    }

    /// Reads an event, and tells the membership of it.
    fn read(
        &mut self,
        words: &[&str],
        telling: Telling,
        turn: &mut Turn<'_>,
        said: &mut String,
    ) -> Result<Outcome, AllocError> {
        let Some(dice) = dice(after(words, "dice")) else {
            return Ok(Outcome::Unknown);
        };
        match event_of(self.alloc, before(words, "dice"))? {
            Some(event) => self.hear(&event, telling, &dice, turn, said),
            None => Ok(Outcome::Unknown),
        }
    }
}

impl<A: Allocator + Copy> Layer for MembershipLayer<A> {
    fn call(
        &mut self,
        words: &[&str],
        turn: &mut Turn<'_>,
        said: &mut String,
    ) -> Result<Outcome, AllocError> {
        match words {
            ["start", owner, words @ ..] => self.start(owner, words, turn),
            ["copy"] => Ok(self.copy(turn)),
            ["prepare", words @ ..] => self.read(words, Telling::Prepared, turn, said),
            ["behind", contact, words @ ..] => match name(contact) {
                Some(contact) => self.read(words, Telling::Behind(contact), turn, said),
                None => Ok(Outcome::Unknown),
            },
            _ => self.read(words, Telling::Alone, turn, said),
        }
    }

    fn show(&self, text: &mut String) -> Result<(), AllocError> {
        match &self.membership {
            Some(membership) => push_membership(text, membership),
            None => Ok(()),
        }
    }

    fn clear(&mut self) {
        self.membership = None;
    }
}
