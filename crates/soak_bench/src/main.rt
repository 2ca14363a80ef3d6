//! Sixteen nodes in one event loop, which are disturbed and then left in peace: connections are cut, nodes are held,
//! and strangers and a peer that takes nothing join in. Without an argument it disturbs them for a second and prints
//! what is the same in each run. With a number of seconds, and a seed, it does so for as long, and prints each second
//! what the process uses. `bench/soak` calls it.
#![tactic(auto)]

mod bits;
mod board;
mod dice;
mod group;
mod memory;
mod plan;
mod soak;
mod soak_node;
mod strangers;
mod telling;
mod trouble;
mod view_watch;

use crate::group::{Book, add_all, names_of};
use crate::plan::{PATIENCE, Plan, TICK, TICKS_OF_A_SECOND};
use crate::soak::Soak;
use crate::soak_node::SoakNode;
use anyhow::Result;
use event_loop::EventLoop;
use std::alloc::Global;
use std::env;
use std::io::Print;
use std::net::Net;
use std::rt::Files;
use std::sync::Wait;
use std::time::{Clock, Duration};
use wire_node::WireNode;

/// The number that the argument at this place stands for, or `otherwise` if there is no argument.
fn number(words: &[String], place: usize, otherwise: u64) -> Result<u64> {
    match words.get(place) {
        Some(word) => Ok(word.parse()?),
        None => Ok(otherwise),
    }
}

/// Runs the nodes of a loop, and tells what became of them.
fn run<R, N>(rt: &R, group: &mut EventLoop<N, Book>, plan: Plan, seed: u64) -> Result<()>
where
    R: Wait + Clock + Net + Files + Print + AllocGlobal,
    N: SoakNode,
{
    let alloc = rt.alloc();
    let names = names_of(alloc)?;
    add_all(rt, alloc, group, names.as_slice())?;
    group.set_patience(PATIENCE);
    let mut soak = Soak::new(rt, alloc, names, plan, seed)?;
    soak.meet(group)?;
    group.run(rt, Duration::from_millis(TICK), &mut soak)?;
    soak.end()
}

/// Makes the loop, and runs its nodes.
fn start<R, N>(rt: &R, plan: Plan, seed: u64) -> Result<()>
where
    R: Wait + Clock + Net + Files + Print + AllocGlobal,
    N: SoakNode,
{
    let alloc = rt.alloc();
    let mut group: EventLoop<N, Book> = EventLoop::new(rt, alloc, Book::new(alloc), seed)?;
    run(rt, &mut group, plan, seed)
}

fn main(rt: HostRuntime) -> Result<()> {
    let words: Vec<String> = env::args(&rt)?.collect(rt.alloc())?;
    let seconds = number(words.as_slice(), 1, 1)?;
    let seed = number(words.as_slice(), 2, 1)?;
    let plan = Plan::new(seconds.saturating_mul(TICKS_OF_A_SECOND), words.len() > 1);
    start::<HostRuntime, WireNode>(&rt, plan, seed)
}
