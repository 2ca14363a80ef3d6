//! What the crates cost. Without an argument it runs each benchmark with a small input and prints the result, which is
//! the same in each run. With the name of a benchmark and its numbers, it prints how long that takes. The scripts of
//! `bench` call it.
#![tactic(auto)]

mod broadcasts;
mod clock;
mod groups;
mod merges;
mod names;
mod plumtree;
mod ring;
mod running_node;
mod simulated;
mod steps;
mod streams;
mod words;

use crate::broadcasts::{hops, reaching, settling, trees};
use crate::groups::{Group, Host};
use crate::plumtree::{MeasuredGroup, MeasuredNode};
use crate::words::{number, size, small};
use anyhow::Result;
use loopback::Machine;
use node_core::PlumCore;
use std::alloc::Global;
use std::env;
use std::io::Print;
use std::net::{Net, TcpListener, TcpStream};
use std::rt::Files;
use std::sync::Wait;
use std::thread::Threads;
use std::time::Clock;

/// The group that the arguments describe: the number of nodes, of messages besides the one that makes the tree, and of
/// bytes, the number of ticks after which the nodes are stopped if not all is delivered before, the number of messages
/// that a node keeps, 0 for all, and how many the first node broadcasts in a tick, 0 for as many as it can.
fn group(words: &[String], host: Host) -> Result<Group> {
    Ok(Group {
        host,
        nodes: size(words, 2, 8)?,
        messages: size(words, 3, 1_000)?.saturating_add(1),
        bytes: size(words, 4, 100)?,
        ticks: small(words, 5, 1_000)?,
        keep: small(words, 6, 0)?,
        pace: size(words, 7, 0)?,
    })
}

/// Prints the result of each benchmark of simulated groups, and of streams, with a small input.
fn tell_simulated<R: Print + Clock, C: MeasuredGroup>(rt: &R, alloc: Global) -> Result<()> {
    broadcasts::tell::<R, C>(rt, alloc)?;
    streams::run_all(rt, alloc, None)?;
    merges::tell::<R, C>(rt, alloc)
}

/// Prints the result of each benchmark of a node and its parts with a small input.
fn tell_node<R, C>(rt: R, alloc: Global) -> Result<()>
where
    R: Print + Clock + Threads + Wait + Copy + Send + Drop + 'static,
    C: MeasuredNode,
{
    running_node::tell::<R, C>(rt, alloc)?;
    steps::tell::<R, C>(&rt, alloc)
}

/// Prints the result of each benchmark with a small input.
fn tell<R: Print + Machine>(rt: R, alloc: Global) -> Result<()> {
    tell_simulated::<R, PlumCore>(&rt, alloc)?;
    tell_node::<R, PlumCore>(rt, alloc)?;
    groups::tell(rt, alloc)
}

/// Measures the benchmark of simulated groups that has this name, with the numbers that follow.
fn measure_simulated<R, C>(rt: &R, alloc: Global, what: &str, words: &[String]) -> Result<()>
where
    R: Print + Clock,
    C: MeasuredGroup,
{
    match what {
        "broadcasts" => broadcasts::measure::<R, C>(rt, alloc, size(words, 2, 500)?),
        "hops" => hops::measure::<R, C>(rt, alloc, small(words, 2, 0)?),
        "settle" => settling::measure::<R, C>(rt, alloc, size(words, 2, 10_000)?),
        "reach" => reaching::measure::<R, C>(rt, alloc, size(words, 2, 1_000)?),
        "tree" => trees::measure::<R, C>(rt, alloc, size(words, 2, 500)?),
        _ => merges::measure::<R, C>(rt, alloc, words),
    }
}

/// Measures a running node or a part of one, as this name says, with the numbers that follow.
fn measure_node<R, C>(rt: R, alloc: Global, what: &str, words: &[String]) -> Result<()>
where
    R: Print + Clock + Threads + Wait + Copy + Send + Drop + 'static,
    C: MeasuredNode,
{
    let count = number(words, 2, 100_000)?;
    match what {
        "node" => running_node::measure::<R, C>(rt, alloc, count, number(words, 3, 0)?),
        part => steps::measure::<R, C>(&rt, alloc, part, count),
    }
}

/// Measures the benchmark of this name, with the numbers that follow.
fn measure<R>(rt: R, alloc: Global, what: &str, words: &[String]) -> Result<()>
where
    R: AllocGlobal + Print + Files + Machine,
{
    match what {
        "broadcasts" | "hops" | "settle" | "reach" | "tree" | "merge" => {
            measure_simulated::<R, PlumCore>(&rt, alloc, what, words)
        }
        "frames" => streams::run_all(&rt, alloc, Some(number(words, 2, 32)?)),
        "groups" => groups::measure(rt, alloc, &group(words, Host::Threads)?),
        "loops" => groups::measure(rt, alloc, &group(words, Host::Loop)?),
        part => measure_node::<R, PlumCore>(rt, alloc, part, words),
    }
}

/// Does what the arguments say. It names the parts of a `Machine`, since the prover does not cover a call that passes
/// the host's runtime as a `Machine`.
fn obey<R>(rt: R, alloc: Global, words: &[String]) -> Result<()>
where
    R: AllocGlobal
        + Print
        + Files
        + Threads
        + Wait
        + Clock
        + Net<Listener = TcpListener, Stream = TcpStream>
        + Copy
        + Send
        + Drop
        + 'static,
{
    match words.get(1) {
        Some(what) => measure(rt, alloc, what.as_str(), words),
        None => tell(rt, alloc),
    }
}

fn main(rt: HostRuntime) -> Result<()> {
    let alloc = rt.alloc();
    let words: Vec<String> = env::args(&rt)?.collect(alloc)?;
    obey(rt, alloc, words.as_slice())
}
