//! A peer that takes a connection and resets it.
use crate::tests::greetings::greet;
use crate::tests::hosts::listen;
use crate::tests::stage::Stage;
use crate::tests::tested_node::TestedNode;
use anyhow::Result;
use mio::net::{TcpListener, TcpStream};
use std::net::Net;
use wire_node::MAX_WAITING;

/// How many turns a node may take to dial, and to learn of the reset.
const TURNS: usize = 2_000;

/// Has the node broadcast to the peer that took this connection, which then closes it with bytes unread, so that the
/// system resets it.
fn reset<N: TestedNode, R: Net>(rt: &R, stage: &mut Stage<N>, stream: TcpStream) -> Result<()> {
    stage.say(0, 100)?;
    stage.turns(rt, 20)?;
    drop(stream);
    Ok(())
}

/// Makes turns until the node has dialled the peer that listens here, and resets that connection. Returns whether there
/// was one.
fn take_and_reset<N: TestedNode, R: Net>(
    rt: &R,
    stage: &mut Stage<N>,
    listener: &TcpListener,
) -> Result<bool> {
    for _ in 0..TURNS {
        stage.turn(rt)?;
        if let Ok((stream, _)) = listener.accept() {
            reset(rt, stage, stream)?;
            return Ok(true);
        }
    }
    Ok(false)
}

/// Makes turns until the peer is one no more. Returns whether it is none.
fn lose_peer<N: TestedNode, R: Net>(rt: &R, stage: &mut Stage<N>, name: &str) -> Result<bool> {
    for _ in 0..TURNS {
        if !stage.has_peer(0, name)? {
            return Ok(true);
        }
        stage.turn(rt)?;
    }
    Ok(false)
}

/// Has a peer of a node reset a connection. Returns whether it is a peer until then and none from then on, and the node
/// and its other peer greet each other before and after.
fn meet_and_lose<N: TestedNode, R: Net>(
    rt: &R,
    stage: &mut Stage<N>,
    listener: &TcpListener,
) -> Result<bool> {
    stage.add(rt, "a", "b resetter", MAX_WAITING)?;
    stage.add(rt, "b", "a", MAX_WAITING)?;
    stage.meet("resetter", listener.local_addr()?)?;
    let first = greet(rt, stage)? && stage.has_peer(0, "resetter")?;
    let lost = take_and_reset(rt, stage, listener)? && lose_peer(rt, stage, "resetter")?;
    Ok(first && lost && greet(rt, stage)? && stage.has_peer(0, "b")?)
}

/// Starts two nodes and a peer of one that resets its connection. Returns whether that goes down, and nobody else.
pub(crate) fn start_and_lose<N: TestedNode, R: Net + AllocGlobal>(rt: &R) -> Result<bool> {
    let mut stage: Stage<N> = Stage::new(rt)?;
    meet_and_lose(rt, &mut stage, &listen(rt)?)
}
