//! Peers that take nothing, take no connections, or have no address.
use crate::tests::hosts::{closed_port, listen};
use crate::tests::stage::Stage;
use crate::tests::tested_node::TestedNode;
use anyhow::Result;
use mio::net::{TcpListener, TcpStream};
use std::alloc::AllocError;
use std::io::Read;
use std::net::{Net, SocketAddr};
use wire_node::MAX_WAITING;

/// How many bytes may wait for a name where too many are to wait.
const FEW: usize = 262_144;

/// How many bytes may wait for a name where never too many wait.
const MANY: usize = 1 << 30;

/// How many bytes a message has.
const MESSAGE: usize = 30_000;

/// How many messages are sent at most: far more than the system and the node keep for a peer.
const MESSAGES: usize = 2_000;

/// How many turns are made in the end.
const TURNS: usize = 200;

/// How many reads take what was sent to a peer at most.
const READS: usize = 100_000;

/// Who is a peer in the end of four of which three do not answer, and whether the connection of the first ends behind
/// what was sent to it.
pub(crate) const ANSWERING: &str =
    "stopped down, absent down, unknown down, b up, 0 lacking, cut off";

/// Who is a peer at first, and once the patience is over.
pub(crate) const PATIENT: &str = "deaf up, deaf down, b up, 0 lacking";

/// For how many ticks a link may take nothing of what waits.
const PATIENCE: u64 = 4;

/// Broadcasts until the peer is one no more. Returns how many messages were sent.
fn speak_until_lost<N: TestedNode, R: Net>(
    rt: &R,
    stage: &mut Stage<N>,
    name: &str,
) -> Result<usize> {
    for sent in 0..MESSAGES {
        if !stage.has_peer(0, name)? {
            return Ok(sent);
        }
        stage.say(0, MESSAGE)?;
        stage.turn(rt)?;
    }
    Ok(MESSAGES)
}

/// Broadcasts until the peer's link takes nothing more. Returns how many messages were sent.
fn speak_until_blocked<N: TestedNode, R: Net>(
    rt: &R,
    stage: &mut Stage<N>,
    name: &str,
) -> Result<usize> {
    for sent in 0..MESSAGES {
        stage.say(0, MESSAGE)?;
        stage.turns(rt, 5)?;
        if stage.has_mail(0, name)? {
            return Ok(sent.saturating_add(1));
        }
    }
    Ok(0)
}

/// Appends whether the name is a peer of the first node.
fn push_peer<N: TestedNode>(text: &mut String, stage: &Stage<N>, name: &str) -> Result<()> {
    let state = if stage.has_peer(0, name)? {
        "up"
    } else {
        "down"
    };
    write!(text, "{name} {state}, ")?;
    Ok(())
}

/// Appends how many of the messages the second node lacks.
fn push_lacking<N: TestedNode>(
    text: &mut String,
    stage: &Stage<N>,
    sent: usize,
) -> Result<(), AllocError> {
    write!(text, "{} lacking", sent.saturating_sub(stage.heard(1)))
}

/// Takes what was sent over the connection. Returns whether it has ended.
fn drain(stream: &mut TcpStream) -> bool {
    let mut bytes = [0; 4_096];
    for _ in 0..READS {
        match stream.read(&mut bytes) {
            Ok(0) => return true,
            Ok(_) => {}
            Err(_) => return false,
        }
    }
    false
}

/// Whether the connection of a peer that took nothing so far ends behind what was sent to it: of what waited the rest
/// was dropped, so nothing may follow.
fn is_cut_off<N: TestedNode, R: Net>(
    rt: &R,
    stage: &mut Stage<N>,
    listener: &TcpListener,
) -> Result<bool> {
    let (mut stream, _) = listener.accept()?;
    for _ in 0..TURNS {
        if drain(&mut stream) {
            return Ok(true);
        }
        stage.turn(rt)?;
    }
    Ok(false)
}

/// Lets a node broadcast to a peer that answers, and to three that do not: the first of these takes nothing, and more
/// waits for it than may. Appends who is a peer in the end, and whether the first finds the end of its connection.
fn speak_to_all<N: TestedNode, R: Net>(
    rt: &R,
    stage: &mut Stage<N>,
    stopped: &TcpListener,
    absent: SocketAddr,
    text: &mut String,
) -> Result<()> {
    stage.add(rt, "a", "b stopped absent unknown", FEW)?;
    stage.add(rt, "b", "a", MAX_WAITING)?;
    stage.meet("stopped", stopped.local_addr()?)?;
    stage.meet("absent", absent)?;
    let sent = speak_until_lost(rt, stage, "stopped")?;
    stage.turns(rt, TURNS)?;
    for name in ["stopped", "absent", "unknown", "b"] {
        push_peer(text, stage, name)?;
    }
    push_lacking(text, stage, sent)?;
    let is_cut_off = is_cut_off(rt, stage, stopped)?;
    text.push_str(if is_cut_off { ", cut off" } else { ", open" })?;
    Ok(())
}

/// Starts the nodes, and lets one speak to all. Appends what `speak_to_all` does.
pub(crate) fn start_and_speak<N: TestedNode, R: Net + AllocGlobal>(
    rt: &R,
    text: &mut String,
) -> Result<()> {
    let stopped = listen(rt)?;
    let mut stage: Stage<N> = Stage::new(rt)?;
    speak_to_all(rt, &mut stage, &stopped, closed_port(rt)?, text)
}

/// Makes ticks, with turns between them.
fn pass<N: TestedNode, R: Net>(rt: &R, stage: &mut Stage<N>, ticks: u64) -> Result<()> {
    for _ in 0..ticks {
        stage.event_loop.tick()?;
        stage.turns(rt, 5)?;
    }
    Ok(())
}

/// Lets a node broadcast to a peer that answers, and to one that takes nothing, but for whom less waits than may.
/// Appends who is a peer at first, and once the patience is over.
fn speak_to_deaf<N: TestedNode, R: Net>(
    rt: &R,
    stage: &mut Stage<N>,
    deaf: SocketAddr,
    text: &mut String,
) -> Result<()> {
    stage.add(rt, "a", "b deaf", MANY)?;
    stage.add(rt, "b", "a", MAX_WAITING)?;
    stage.meet("deaf", deaf)?;
    stage.event_loop.set_patience(PATIENCE);
    let sent = speak_until_blocked(rt, stage, "deaf")?;
    pass(rt, stage, 1)?;
    push_peer(text, stage, "deaf")?;
    pass(rt, stage, PATIENCE + 2)?;
    push_peer(text, stage, "deaf")?;
    push_peer(text, stage, "b")?;
    push_lacking(text, stage, sent)?;
    Ok(())
}

/// Starts the nodes, and lets one speak to a peer that takes nothing. Appends who is a peer.
pub(crate) fn start_and_lose<N: TestedNode, R: Net + AllocGlobal>(
    rt: &R,
    text: &mut String,
) -> Result<()> {
    let deaf = listen(rt)?;
    let mut stage: Stage<N> = Stage::new(rt)?;
    speak_to_deaf(rt, &mut stage, deaf.local_addr()?, text)
}
