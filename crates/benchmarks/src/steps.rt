//! What the parts of a node cost alone: the result of a few messages, and how long it takes with more.
mod cell_steps;
mod core_steps;
mod forgetting;
mod known;
mod members;
mod messages;
mod nothing_new;
mod sealing;
mod wanted;

use crate::plumtree::MeasuredNode;
use crate::steps::cell_steps::step_cell;
use crate::steps::core_steps::{see_all, step_core};
use crate::steps::forgetting::{compare, forget};
use crate::steps::known::know_all;
use crate::steps::members::{join, lose_announcer, lose_lazy};
use crate::steps::messages::Taken;
use crate::steps::nothing_new::{hear_known, take_again, take_prunes};
use crate::steps::sealing::seal;
use crate::steps::wanted::{ask_all, take_wanted};
use anyhow::{Result, bail};
use std::alloc::Global;
use std::io::Print;
use std::time::Clock;

/// How many messages come when nothing is measured: a hundred of each origin.
const TOLD: u64 = 6_400;

/// How many links a wide cell has besides those to its four peers.
const IDLE: usize = 60;

/// How many payloads a core holds if it does not hold all.
const KEPT: u32 = 1_000;

/// Prints how many messages came in and frames went out, and how long it took, if that is asked for.
fn tell_taken(rt: &impl Print, what: &str, taken: Taken, is_timed: bool) -> Result<()> {
    let Taken { came, sent, nanos } = taken;
    println!(rt; "{what:7} {came:8} in {sent:8} out")?;
    if is_timed {
        let (each, all) = (nanos / came.max(1), nanos / 1_000);
        println!(rt; "{each} nanoseconds each, {all} microseconds in all")?;
    }
    Ok(())
}

/// Does what the word says with `count` messages.
fn step<R: Print + Clock, C: MeasuredNode>(
    rt: &R,
    alloc: Global,
    word: &str,
    count: u64,
    is_timed: bool,
) -> Result<()> {
    let taken = match word {
        "core" => step_core::<R, C>(rt, alloc, count)?,
        "asks" => ask_all::<R, C>(rt, alloc, count)?,
        "comes" => take_wanted::<R, C>(rt, alloc, count)?,
        "again" => take_again::<R, C>(rt, alloc, count)?,
        "told" => hear_known::<R, C>(rt, alloc, count)?,
        "prune" => take_prunes::<R, C>(rt, alloc, count)?,
        "down" => lose_announcer::<R, C>(rt, alloc, count)?,
        "lazy" => lose_lazy::<R, C>(rt, alloc, count)?,
        "join" => join::<R, C>(rt, alloc, count)?,
        "cell" => step_cell::<R, C>(rt, alloc, count, 0)?,
        "wide" => step_cell::<R, C>(rt, alloc, count, IDLE)?,
        "ids" => know_all(rt, alloc, count, 0)?,
        "gaps" => know_all(rt, alloc, count, 100)?,
        "seen" => see_all::<R, C>(rt, alloc, count, 0)?,
        "kept" => see_all::<R, C>(rt, alloc, count, KEPT)?,
        "seal" => seal::<R, C>(rt, alloc, count, false)?,
        "copy" => seal::<R, C>(rt, alloc, count, true)?,
        "compare" => compare::<R, C>(rt, alloc, count)?,
        "forget" => forget::<R, C>(rt, alloc, count)?,
        _ => bail!(
            "broadcasts, hops, settle, reach, tree, frames, merge, node, groups, loops, core, asks, comes, again, told, prune, down, lazy, join, cell, wide, ids, gaps, seen, kept, seal, copy, compare or forget"
        ),
    };
    tell_taken(rt, word, taken, is_timed)
}

/// Prints the result of a few messages, for each part.
pub(crate) fn tell<R: Print + Clock, C: MeasuredNode>(rt: &R, alloc: Global) -> Result<()> {
    for word in [
        "core", "asks", "comes", "again", "told", "prune", "down", "lazy", "join", "cell", "wide",
        "ids", "gaps", "seen", "kept", "seal", "copy", "compare", "forget",
    ] {
        step::<R, C>(rt, alloc, word, TOLD, false)?;
    }
    Ok(())
}

/// Prints how long the part that the word names takes with `count` messages.
pub(crate) fn measure<R: Print + Clock, C: MeasuredNode>(
    rt: &R,
    alloc: Global,
    word: &str,
    count: u64,
) -> Result<()> {
    step::<R, C>(rt, alloc, word, count, true)
}
