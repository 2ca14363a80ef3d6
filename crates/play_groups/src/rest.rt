//! What can be asked about a group: which names are in reach, whether it is at rest, and along which trees its messages
//! spread.
use crate::cores::Played;
use crate::texts::push_log;
use at_rest::{
    Branch, Forest, SettleError, Unrest, is_at_rest, is_calm, is_symmetric, reach, tree,
};
use node_names::MsgId;
use play_script::layer::{Outcome, Turn};
use play_script::lists::{push_names, yes_or_no};
use play_script::words::{id, name};
use protocol::Core;
use std::alloc::{AllocError, Allocator};
use std::fmt::Write;
use world::World;

/// Appends a tree: its message, and a line for each branch.
fn push_tree(text: &mut String, id: &MsgId, branches: &[Branch]) -> Result<(), AllocError> {
    writeln!(text, "tree {id}")?;
    for branch in branches {
        match branch.parent {
            Some(parent) => writeln!(text, "  {} <- {parent}", branch.node)?,
            None => writeln!(text, "  {} <- -", branch.node)?,
        }
    }
    Ok(())
}

/// Appends whether a group is at rest for a message.
fn push_rest(text: &mut String, id: &MsgId, is_so: bool) -> Result<(), AllocError> {
    writeln!(text, "rest {id} {}", yes_or_no(is_so))
}

/// Appends the names that are in reach of a name, the nearest first: `reach a`.
fn ask_reach<C: Core<A>, A: Allocator + Copy>(
    alloc: A,
    group: &World<C, A>,
    from: &str,
    turn: &mut Turn<'_>,
    said: &mut String,
) -> Result<Outcome, AllocError> {
    let Some(from) = name(from) else {
        return Ok(Outcome::Unknown);
    };
    turn.begin();
    let answer = reach(alloc, group, from);
    turn.end();
    let Ok(names) = answer else {
        return Ok(Outcome::NoMemory);
    };
    write!(said, "reach {from}:")?;
    push_names(said, names.as_slice())?;
    said.push('\n')?;
    Ok(Outcome::Done)
}

/// Appends the tree of a message: `tree a/1/1`.
fn ask_tree<C: Core<A>, A: Allocator + Copy>(
    alloc: A,
    group: &World<C, A>,
    message: &str,
    turn: &mut Turn<'_>,
    said: &mut String,
) -> Result<Outcome, AllocError> {
    let Some(id) = id(message) else {
        return Ok(Outcome::Unknown);
    };
    turn.begin();
    let answer = tree(alloc, group, &id);
    turn.end();
    let Ok(branches) = answer else {
        return Ok(Outcome::NoMemory);
    };
    push_tree(said, &id, branches.as_slice())?;
    Ok(Outcome::Done)
}

/// Finds the trees of all messages at once, and appends those of some: `forest a/1/1 z/1/1`.
fn ask_forest<C: Core<A>, A: Allocator + Copy>(
    alloc: A,
    group: &World<C, A>,
    messages: &[&str],
    turn: &mut Turn<'_>,
    said: &mut String,
) -> Result<Outcome, AllocError> {
    turn.begin();
    let answer = Forest::new(alloc, group);
    turn.end();
    let Ok(forest) = answer else {
        return Ok(Outcome::NoMemory);
    };
    for message in messages {
        let Some(id) = id(message) else {
            return Ok(Outcome::Unknown);
        };
        push_tree(said, &id, forest.tree(&id))?;
    }
    Ok(Outcome::Done)
}

/// Finds at once the messages for which a group is not at rest, and appends whether it is for some: `unrest a/1/1`.
fn ask_unrest<C: Core<A>, A: Allocator + Copy>(
    alloc: A,
    group: &World<C, A>,
    messages: &[&str],
    turn: &mut Turn<'_>,
    said: &mut String,
) -> Result<Outcome, AllocError> {
    turn.begin();
    let answer = Unrest::new(alloc, group);
    turn.end();
    let Ok(unrest) = answer else {
        return Ok(Outcome::NoMemory);
    };
    for message in messages {
        let Some(id) = id(message) else {
            return Ok(Outcome::Unknown);
        };
        push_rest(said, &id, unrest.is_at_rest(&id))?;
    }
    Ok(Outcome::Done)
}

/// Appends whether a group is at rest for a message: `rest a/1/1`.
fn ask_rest<C: Core<A>, A: Allocator + Copy>(
    group: &World<C, A>,
    message: &str,
    turn: &mut Turn<'_>,
    said: &mut String,
) -> Result<Outcome, AllocError> {
    let Some(id) = id(message) else {
        return Ok(Outcome::Unknown);
    };
    turn.begin();
    let is_so = is_at_rest(group, &id);
    turn.end();
    push_rest(said, &id, is_so)?;
    Ok(Outcome::Done)
}

/// Appends whether a group's links go both ways: `symmetric`.
fn ask_symmetric<C: Core<A>, A: Allocator + Copy>(
    group: &World<C, A>,
    turn: &mut Turn<'_>,
    said: &mut String,
) -> Result<Outcome, AllocError> {
    turn.begin();
    let is_so = is_symmetric(group);
    turn.end();
    writeln!(said, "symmetric {}", yes_or_no(is_so))?;
    Ok(Outcome::Done)
}

/// Appends whether a group is calm: `calm`.
fn ask_calm<C: Core<A>, A: Allocator + Copy>(
    group: &World<C, A>,
    turn: &mut Turn<'_>,
    said: &mut String,
) -> Result<Outcome, AllocError> {
    turn.begin();
    let is_so = is_calm(group);
    turn.end();
    writeln!(said, "calm {}", yes_or_no(is_so))?;
    Ok(Outcome::Done)
}

/// Answers a question about a group.
pub(crate) fn ask<C: Core<A>, A: Allocator + Copy>(
    alloc: A,
    group: &World<C, A>,
    words: &[&str],
    turn: &mut Turn<'_>,
    said: &mut String,
) -> Result<Outcome, AllocError> {
    match words {
        ["reach", from] => ask_reach(alloc, group, from, turn, said),
        ["tree", message] => ask_tree(alloc, group, message, turn, said),
        ["forest", messages @ ..] => ask_forest(alloc, group, messages, turn, said),
        ["unrest", messages @ ..] => ask_unrest(alloc, group, messages, turn, said),
        ["rest", message] => ask_rest(group, message, turn, said),
        ["symmetric"] => ask_symmetric(group, turn, said),
        ["calm"] => ask_calm(group, turn, said),
        _ => Ok(Outcome::Unknown),
    }
}

/// Brings a group to rest, and appends how many events that took and which they were: `settle`.
pub(crate) fn settle_group<C: Played<A>, A: Allocator + Copy>(
    alloc: A,
    group: &mut World<C, A>,
    turn: &mut Turn<'_>,
    said: &mut String,
) -> Result<Outcome, AllocError> {
    let before = group.log().len();
    turn.begin();
    let answer = C::settle(alloc, group);
    turn.end();
    match answer {
        Some(Ok(count)) => writeln!(said, "settled by {count} events")?,
        Some(Err(SettleError::OutOfMemory)) => return Ok(Outcome::NoMemory),
        Some(Err(why)) => writeln!(said, "{why}")?,
        None => return Ok(Outcome::Unknown),
    }
    push_log(said, group, before)?;
    Ok(Outcome::Done)
}
