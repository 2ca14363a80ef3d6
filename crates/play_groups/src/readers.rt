//! What the readers of a group give, as commands.
use crate::alone::push_member;
use crate::cores::Played;
use crate::texts::{push_flight, push_known, push_log, push_packets};
use node_names::MsgId;
use play_script::layer::Outcome;
use play_script::lists::push_names;
use play_script::words::{id, name};
use protocol::Core;
use std::alloc::{AllocError, Allocator};
use world::World;

/// Appends which nodes know a message: `known a/1/1`.
fn push_knowing<C: Core<A>, A: Allocator + Copy>(
    group: &World<C, A>,
    message: &str,
    said: &mut String,
) -> Result<Outcome, AllocError> {
    let Some(id) = id(message) else {
        return Ok(Outcome::Unknown);
    };
    for node in group.nodes() {
        if let Some(core) = &node.core {
            push_known(said, core, &id)?;
        }
    }
    Ok(Outcome::Done)
}

/// Appends what a node's core shows, also of some messages: `core b`.
fn push_one<C: Played<A>, A: Allocator + Copy>(
    group: &World<C, A>,
    ids: &[MsgId],
    node: &str,
    said: &mut String,
) -> Result<Outcome, AllocError> {
    let Some(node) = name(node) else {
        return Ok(Outcome::Unknown);
    };
    match group.core(&node) {
        Some(core) => push_member(said, core, ids)?,
        None => said.push_str("no core runs under this name\n")?,
    }
    Ok(Outcome::Done)
}

/// Appends the names of the nodes: `names`.
fn push_all_names<C: Core<A>, A: Allocator + Copy>(
    group: &World<C, A>,
    said: &mut String,
) -> Result<(), AllocError> {
    said.push_str("names:")?;
    push_names(said, group.names().as_slice())?;
    said.push('\n')
}

/// Appends what a reader of a group gives. `ids` are the messages of which a core is asked whether it knows them.
pub(crate) fn read<C: Played<A>, A: Allocator + Copy>(
    group: &World<C, A>,
    ids: &[MsgId],
    words: &[&str],
    said: &mut String,
) -> Result<Outcome, AllocError> {
    match words {
        ["known", message] => return push_knowing(group, message, said),
        ["core", node] => return push_one(group, ids, node, said),
        ["flight"] => push_flight(said, group)?,
        ["log"] => push_log(said, group, 0)?,
        ["sent"] => push_packets(said, group, 0)?,
        ["names"] => push_all_names(group, said)?,
        _ => return Ok(Outcome::Unknown),
    }
    Ok(Outcome::Done)
}
