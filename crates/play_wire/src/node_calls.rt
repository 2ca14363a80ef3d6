//! The calls of a node of bytes but for its start and what it receives.
use crate::texts::{Node, push_front, push_listed};
use node_names::{Dice, NodeName};
use play_script::layer::{Outcome, Turn};
use play_script::lists::push_payload;
use play_script::words::payload;
use std::alloc::{AllocError, Allocator};
use std::fmt::Write;
use wire_node::{ConnectionId, News, Parting, WireError};

/// Returns what came of a refusal, which it says, unless it is one of memory.
pub(crate) fn refused(error: &WireError, said: &mut String) -> Result<Outcome, AllocError> {
    if *error == WireError::OutOfMemory {
        return Ok(Outcome::NoMemory);
    }
    writeln!(said, "{error}")?;
    Ok(Outcome::Done)
}

/// Returns what came of a call that answers nothing.
fn answered(answer: &Result<(), WireError>, said: &mut String) -> Result<Outcome, AllocError> {
    match answer {
        Ok(()) => Ok(Outcome::Done),
        Err(error) => refused(error, said),
    }
}

/// Broadcasts, and says the message's id.
pub(crate) fn broadcast<A: Allocator + Copy>(
    alloc: A,
    node: &mut Node<A>,
    letters: &str,
    turn: &mut Turn<'_>,
    said: &mut String,
) -> Result<Outcome, AllocError> {
    let Some(payload) = payload(alloc, letters)? else {
        return Ok(Outcome::Unknown);
    };
    turn.begin();
    let answer = node.broadcast(payload);
    turn.end();
    match answer {
        Ok(id) => {
            writeln!(said, "message {id}")?;
            Ok(Outcome::Done)
        }
        Err(error) => refused(&error, said),
    }
}

/// Accepts a connection, and says its number.
pub(crate) fn accept<A: Allocator + Copy>(
    node: &mut Node<A>,
    turn: &mut Turn<'_>,
    said: &mut String,
) -> Result<Outcome, AllocError> {
    turn.begin();
    let answer = node.accept();
    turn.end();
    match answer {
        Ok(id) => {
            writeln!(said, "connection {}", id.0)?;
            Ok(Outcome::Done)
        }
        Err(error) => refused(&error, said),
    }
}

/// Ends a connection.
pub(crate) fn end<A: Allocator + Copy>(
    node: &mut Node<A>,
    id: ConnectionId,
    turn: &mut Turn<'_>,
    said: &mut String,
) -> Result<Outcome, AllocError> {
    turn.begin();
    let answer = node.ended(id, &Dice::ZEROS);
    turn.end();
    answered(&answer, said)
}

/// Takes a name down.
pub(crate) fn lose<A: Allocator + Copy>(
    node: &mut Node<A>,
    name: NodeName,
    turn: &mut Turn<'_>,
    said: &mut String,
) -> Result<Outcome, AllocError> {
    turn.begin();
    let answer = node.unreachable(name, &Dice::ZEROS);
    turn.end();
    answered(&answer, said)
}

/// Has a node join by a contact.
pub(crate) fn join<A: Allocator + Copy>(
    node: &mut Node<A>,
    contact: NodeName,
    turn: &mut Turn<'_>,
    said: &mut String,
) -> Result<Outcome, AllocError> {
    turn.begin();
    let answer = node.join(contact, &Dice::ZEROS);
    turn.end();
    answered(&answer, said)
}

/// Makes a tick.
pub(crate) fn tick<A: Allocator + Copy>(
    node: &mut Node<A>,
    turn: &mut Turn<'_>,
    said: &mut String,
) -> Result<Outcome, AllocError> {
    turn.begin();
    let answer = node.tick(&Dice::ZEROS);
    turn.end();
    answered(&answer, said)
}

/// Has a node go on asking between ticks.
pub(crate) fn ask_on<A: Allocator + Copy>(
    node: &mut Node<A>,
    turn: &mut Turn<'_>,
    said: &mut String,
) -> Result<Outcome, AllocError> {
    turn.begin();
    let answer = node.ask_on(&Dice::ZEROS);
    turn.end();
    answered(&answer, said)
}

/// Says the first bytes that wait for a name.
pub(crate) fn transmit<A: Allocator + Copy>(
    node: &Node<A>,
    name: &NodeName,
    said: &mut String,
) -> Result<Outcome, AllocError> {
    push_front(said, &node.transmit(name))?;
    Ok(Outcome::Done)
}

/// Says the names for whom bytes wait.
pub(crate) fn receivers<A: Allocator + Copy>(
    node: &Node<A>,
    turn: &mut Turn<'_>,
    said: &mut String,
) -> Result<Outcome, AllocError> {
    turn.begin();
    let answer = node.receivers();
    turn.end();
    match answer {
        Ok(names) => {
            push_listed(said, "receivers:", names.as_slice())?;
            Ok(Outcome::Done)
        }
        Err(_) => Ok(Outcome::NoMemory),
    }
}

/// Takes the deliveries, and says them.
pub(crate) fn deliver<A: Allocator + Copy>(
    node: &mut Node<A>,
    said: &mut String,
) -> Result<Outcome, AllocError> {
    for delivery in node.take_deliveries().as_slice() {
        write!(said, "deliver {} ", delivery.id)?;
        push_payload(said, delivery.payload.as_slice())?;
        said.push('\n')?;
    }
    Ok(Outcome::Done)
}

/// Says a change of the active view.
fn say_news(news: &News, said: &mut String) -> Result<(), AllocError> {
    match news {
        News::NeighborUp(name) => writeln!(said, "up {name}"),
        News::NeighborDown { name, why } => writeln!(said, "down {name}, {}", word_of(why)),
        News::Isolated => writeln!(said, "isolated"),
        News::Joined => writeln!(said, "joined"),
    }
}

/// The word for why a neighbour went.
fn word_of(why: &Parting) -> &'static str {
    match why {
        Parting::Left => "left",
        Parting::Failed => "failed",
        Parting::Displaced => "displaced",
    }
}

/// Takes the news, and says them.
pub(crate) fn news<A: Allocator + Copy>(
    node: &mut Node<A>,
    turn: &mut Turn<'_>,
    said: &mut String,
) -> Result<Outcome, AllocError> {
    turn.begin();
    let answer = node.take_news();
    turn.end();
    match answer {
        Ok(taken) => {
            for one in &taken {
                say_news(one, said)?;
            }
            Ok(Outcome::Done)
        }
        Err(_) => Ok(Outcome::NoMemory),
    }
}

/// Takes the names for whom bytes were dropped, and says them.
pub(crate) fn lost<A: Allocator + Copy>(
    node: &mut Node<A>,
    said: &mut String,
) -> Result<Outcome, AllocError> {
    push_listed(said, "lost:", node.take_lost().as_slice())?;
    Ok(Outcome::Done)
}

/// Takes the steps that were noted, and says how many they are and which is the first.
pub(crate) fn steps<A: Allocator + Copy>(
    node: &mut Node<A>,
    said: &mut String,
) -> Result<Outcome, AllocError> {
    let segment = node.take_steps();
    writeln!(
        said,
        "{} steps from step {} on",
        segment.steps.len(),
        segment.first
    )?;
    Ok(Outcome::Done)
}

/// Takes what the start sent, and says how many packets that are.
pub(crate) fn opening<A: Allocator + Copy>(
    node: &mut Node<A>,
    said: &mut String,
) -> Result<Outcome, AllocError> {
    let opening = node.take_opening();
    writeln!(said, "the start sent {} packets", opening.sends.len())?;
    Ok(Outcome::Done)
}
