//! The rows, which are played with nodes of bytes.
use crate::tests::tested_node::TestedNode;
use crate::tests::{
    backlog, deaf_peers, greetings, news, one_loop, ports, rejoining, resets, strangers,
};
use anyhow::Result;
use std::alloc::AllocError;
use std::net::Net;
use std::sync::Wait;
use std::thread::Threads;
use std::time::Clock;
use wire_node::WireNode;

/// Appends what is not so.
fn ensure(text: &mut String, what: &str, is_so: bool) -> Result<(), AllocError> {
    if is_so {
        return Ok(());
    }
    writeln!(text, "not so: {what}")
}

/// Appends what was found, unless it is what is wanted, and empties it.
fn compare(text: &mut String, found: &mut String, wanted: &str) -> Result<(), AllocError> {
    if found.as_str() != wanted {
        writeln!(text, "not so: {wanted}, but {found}")?;
    }
    found.clear();
    Ok(())
}

/// Plays the rows of nodes that speak and hear. Appends those that fail.
fn play_speaking<N: TestedNode, R: Wait + Clock + Net + AllocGlobal>(
    rt: &R,
    text: &mut String,
) -> Result<()> {
    let greeted = greetings::start_and_greet::<N, R>(rt)?;
    ensure(text, "two nodes greet each other", greeted)?;
    let heard = one_loop::start_and_run::<N, R>(rt)?;
    ensure(text, "each of 16 nodes delivers a message once", heard)?;
    let told = backlog::start_and_speak::<N, R>(rt)?;
    ensure(text, "a program is told how much waits", told)?;
    Ok(())
}

/// Plays the rows of peers and strangers that disturb. Appends those that fail.
fn play_disturbed<N: TestedNode, R: Net + AllocGlobal>(rt: &R, text: &mut String) -> Result<()> {
    let mut found = String::new(rt.alloc());
    strangers::start_and_endure::<N, R>(rt, &mut found)?;
    compare(text, &mut found, strangers::WANTED)?;
    deaf_peers::start_and_speak::<N, R>(rt, &mut found)?;
    compare(text, &mut found, deaf_peers::ANSWERING)?;
    deaf_peers::start_and_lose::<N, R>(rt, &mut found)?;
    compare(text, &mut found, deaf_peers::PATIENT)?;
    let lost = resets::start_and_lose::<N, R>(rt)?;
    ensure(text, "a peer that resets goes down alone", lost)?;
    Ok(())
}

/// Plays the rows of nodes that join by a contact. Appends those that fail.
fn play_joining<N: TestedNode, R: Net + AllocGlobal>(rt: &R, text: &mut String) -> Result<()> {
    let joined = rejoining::start_and_join::<N, R>(rt)?;
    ensure(text, "a third node joins two", joined)?;
    let awaited = rejoining::start_and_await::<N, R>(rt)?;
    ensure(text, "a contact may start last", awaited)?;
    let restarted = rejoining::start_and_restart::<N, R>(rt)?;
    ensure(text, "a contact may restart", restarted)?;
    let came_back = rejoining::start_and_lose::<N, R>(rt)?;
    ensure(text, "an only peer may go and come back", came_back)?;
    Ok(())
}

/// Plays the rows of ports. Appends those that fail.
fn play_ports<N, R>(rt: R, text: &mut String) -> Result<()>
where
    N: TestedNode,
    R: Threads + Wait + Clock + Net + AllocGlobal + Copy + Send + Drop + 'static,
{
    let filled = ports::start_and_fill::<N, R>(&rt)?;
    ensure(text, "a port says why it takes nothing", filled)?;
    let mut found = String::new(rt.alloc());
    let spoken = news::start_and_tell::<N, R>(&rt, &mut found)?;
    ensure(
        text,
        "news hold no message up, and end with their port",
        spoken,
    )?;
    compare(text, &mut found, news::WANTED)?;
    let taken = ports::start_and_exchange::<N, R>(rt)?;
    ensure(text, "messages of a thread reach the others once", taken)?;
    Ok(())
}

/// Plays all rows. Appends those that fail.
fn play<N, R>(rt: R, text: &mut String) -> Result<()>
where
    N: TestedNode,
    R: Threads + Wait + Clock + Net + AllocGlobal + Copy + Send + Drop + 'static,
{
    play_speaking::<N, R>(&rt, text)?;
    play_disturbed::<N, R>(&rt, text)?;
    play_joining::<N, R>(&rt, text)?;
    play_ports::<N, R>(rt, text)
}

/// All rows are one test: each function that names the node's type takes the prover a minute.
#[test]
fn nodes_of_a_loop(rt: HostRuntime) -> Result<()> {
    let mut text = String::new(rt.alloc());
    play::<WireNode, HostRuntime>(rt, &mut text)?;
    assert_eq!(rt; text.as_str(), "");
    Ok(())
}
