//! Strangers that send what is no frame, a part of one, or nothing.
use crate::tests::greetings::{add_two, greet};
use crate::tests::hosts::is_closed;
use crate::tests::stage::Stage;
use crate::tests::tested_node::TestedNode;
use anyhow::Result;
use mio::net::TcpStream;
use std::alloc::{AllocError, Global};
use std::io::Write;
use std::net::{Net, SocketAddr};

/// For how many ticks a connection may keep a node waiting.
const PATIENCE: u64 = 4;

/// How many turns are made between two ticks.
const TURNS: usize = 20;

/// What becomes of strangers that send what is no frame, a part of one, nothing, and a part of one whose length is too
/// large: at once, and once they kept the node waiting too long.
pub(crate) const WANTED: &str =
    "greeted. at once: closed open open closed. later: closed closed closed closed. greeted";

/// Connections of strangers.
#[derive(Drop)]
struct Strangers {
    streams: Vec<TcpStream>,
}

/// Dials an address, and sends these bytes.
fn dial<R: Net>(rt: &R, at: SocketAddr, bytes: &[u8]) -> Result<TcpStream> {
    let mut stream = TcpStream::connect(rt, at)?;
    stream.write(bytes)?;
    Ok(stream)
}

impl Strangers {
    /// There are none yet.
    fn new(alloc: Global) -> Strangers {
        Strangers {
            streams: Vec::new(alloc),
        }
    }

    /// One more dials this address, and sends these bytes.
    fn dial<R: Net>(&mut self, rt: &R, at: SocketAddr, bytes: &[u8]) -> Result<()> {
        self.streams.push(dial(rt, at, bytes)?)?;
        Ok(())
    }

    /// The last one goes away.
    fn leave(&mut self) {
        self.streams.pop();
    }

    /// Appends which of their connections are closed.
    fn push(&mut self, text: &mut String) -> Result<(), AllocError> {
        for stream in &mut self.streams {
            text.push_str(if is_closed(stream) {
                " closed"
            } else {
                " open"
            })?;
        }
        Ok(())
    }
}

/// Has strangers dial an address.
fn dial_all<R: Net>(rt: &R, strangers: &mut Strangers, at: SocketAddr) -> Result<()> {
    strangers.dial(rt, at, b"\0\0\0\x05what is no frame")?;
    strangers.dial(rt, at, &[0, 0, 1, 0, 1])?;
    strangers.dial(rt, at, b"")?;
    strangers.dial(rt, at, b"\xff\xff\xff\xff\x01")?;
    strangers.dial(rt, at, &[0, 0])?;
    strangers.leave();
    Ok(())
}

/// Makes as many ticks as a connection may keep a node waiting, and two more.
fn lose_patience<N: TestedNode, R: Net>(rt: &R, stage: &mut Stage<N>) -> Result<()> {
    for _ in 0..PATIENCE + 2 {
        stage.event_loop.tick()?;
        stage.turns(rt, TURNS)?;
    }
    Ok(())
}

/// Lets the nodes greet each other. Appends whether they did.
fn push_greeting<N: TestedNode, R: Net>(
    rt: &R,
    stage: &mut Stage<N>,
    text: &mut String,
) -> Result<()> {
    let greeted = greet(rt, stage)?;
    text.push_str(if greeted { "greeted" } else { "silent" })?;
    Ok(())
}

/// Appends what becomes of strangers that have dialled a node, and whether it and its peer greet each other meanwhile.
fn endure<N: TestedNode, R: Net>(
    rt: &R,
    stage: &mut Stage<N>,
    strangers: &mut Strangers,
    text: &mut String,
) -> Result<()> {
    push_greeting(rt, stage, text)?;
    stage.turns(rt, TURNS)?;
    text.push_str(". at once:")?;
    strangers.push(text)?;
    lose_patience(rt, stage)?;
    text.push_str(". later:")?;
    strangers.push(text)?;
    text.push_str(". ")?;
    push_greeting(rt, stage, text)
}

/// Has strangers dial a node that has a peer, and appends what becomes of them.
fn be_dialled<N: TestedNode, R: Net + AllocGlobal>(
    rt: &R,
    stage: &mut Stage<N>,
    text: &mut String,
) -> Result<()> {
    add_two(rt, stage)?;
    stage.event_loop.set_patience(PATIENCE);
    let at = stage.event_loop.address(0)?;
    let mut strangers = Strangers::new(rt.alloc());
    dial_all(rt, &mut strangers, at)?;
    endure(rt, stage, &mut strangers, text)
}

/// Starts two nodes, and has strangers dial one of them. Appends what becomes of them.
pub(crate) fn start_and_endure<N: TestedNode, R: Net + AllocGlobal>(
    rt: &R,
    text: &mut String,
) -> Result<()> {
    let mut stage: Stage<N> = Stage::new(rt)?;
    be_dialled(rt, &mut stage, text)
}
