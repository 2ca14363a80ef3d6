//! A port that has news of its node's neighbours.
use crate::tests::hosts::closed_ports;
use crate::tests::stage::{Stage, zeros};
use crate::tests::tested_node::TestedNode;
use anyhow::Result;
use event_loop::{Program, Situation};
use loop_ports::{Port, Ports};
use std::alloc::{AllocError, Global};
use std::net::{Net, SocketAddr};
use std::time::Duration;
use wire_node::{News, Parting};

/// How many turns are made between two ticks.
const TURNS: usize = 5;

/// Within how many ticks a node that is alone joins by a contact that is there, or notices that its only peer ended,
/// and says so by its port.
const SOON: usize = 12;

/// The news of a node that is joined by a peer, which ends.
pub(crate) const WANTED: &str = "up b, joined, down b: failed, isolated, ";

/// The node `a`, which has a port, and its peer `b`, in loops of their own.
#[derive(Drop)]
struct Pair<N: TestedNode> {
    alloc: Global,
    stage: Stage<N>,
    ports: Ports,
    /// The loop of the peer, until that ends.
    peer: Option<Stage<N>>,
}

/// Appends these news.
fn write(text: &mut String, news: News) -> Result<(), AllocError> {
    match news {
        News::NeighborUp(name) => write!(text, "up {name}, "),
        News::NeighborDown { name, why } => {
            let why = match why {
                Parting::Left => "left",
                Parting::Failed => "failed",
                Parting::Displaced => "displaced",
            };
            write!(text, "down {name}: {why}, ")
        }
        News::Isolated => write!(text, "isolated, "),
        News::Joined => write!(text, "joined, "),
    }
}

impl<N: TestedNode> Pair<N> {
    /// Starts the node `a`.
    fn new<R: Net + AllocGlobal>(rt: &R, at: SocketAddr) -> Result<Pair<N>> {
        let mut stage = Stage::new(rt)?;
        stage.join(rt, "a", 1, at, "")?;
        Ok(Pair {
            alloc: rt.alloc(),
            stage,
            ports: Ports::new(rt.alloc()),
            peer: None,
        })
    }

    /// Starts this run of the node `b`, which joins by `a`.
    fn begin_peer<R: Net + AllocGlobal>(
        &mut self,
        rt: &R,
        run: u64,
        contact: SocketAddr,
        at: SocketAddr,
    ) -> Result<()> {
        let mut peer = Stage::new(rt)?;
        peer.join(rt, "b", run, at, "a")?;
        peer.meet("a", contact)?;
        self.stage.meet("b", at)?;
        self.peer = Some(peer);
        Ok(())
    }

    /// Makes a tick of each loop, and turns behind it, in each of which the ports do what is to be done for `a`.
    fn pass<R: Net>(&mut self, rt: &R) -> Result<()> {
        self.stage.event_loop.tick()?;
        if let Some(peer) = &mut self.peer {
            peer.event_loop.tick()?;
        }
        for _ in 0..TURNS {
            self.turn(rt)?;
        }
        Ok(())
    }

    /// Makes a turn of each loop.
    fn turn<R: Net>(&mut self, rt: &R) -> Result<()> {
        if let Some(peer) = &mut self.peer {
            peer.turn(rt)?;
        }
        self.stage.event_loop.send(rt)?;
        self.stage.event_loop.take(Duration::from_millis(1))?;
        let at = Situation {
            place: 0,
            waiting: 0,
        };
        if let Some(node) = self.stage.event_loop.node_mut(0) {
            self.ports.turn(at, node);
        }
        Ok(())
    }

    /// Makes ticks until `a` has a peer, or until it has none, and a tick more. Returns whether it is so within 12.
    fn wait<R: Net>(&mut self, rt: &R, is_joined: bool) -> Result<bool> {
        for _ in 0..SOON {
            self.pass(rt)?;
            if self.stage.is_joined() == is_joined {
                self.pass(rt)?;
                return Ok(true);
            }
        }
        Ok(false)
    }

    /// Has `a` broadcast by its port. Returns whether the port delivers the message within 12 ticks.
    fn speaks<R: Net>(&mut self, rt: &R, port: &mut Port) -> Result<bool> {
        let payload = zeros(self.alloc, 5)?;
        let is_taken = port.broadcast(payload).is_ok();
        for _ in 0..SOON {
            self.pass(rt)?;
            if port.next().is_some() {
                return Ok(is_taken);
            }
        }
        Ok(false)
    }

    /// Appends the news that the port gives within 12 ticks.
    fn listen<R: Net>(&mut self, rt: &R, port: &mut Port, text: &mut String) -> Result<()> {
        for _ in 0..SOON {
            if let Some(news) = port.next_news() {
                write(text, news)?;
            }
            self.pass(rt)?;
        }
        Ok(())
    }

    /// Ends the node `b`: its connections are closed.
    fn end_peer(&mut self) {
        self.peer = None;
    }

    /// Whether the node `a` has news that were not taken.
    fn has_news(&mut self) -> Result<bool> {
        Ok(match self.stage.event_loop.node_mut(0) {
            Some(node) => !node.take_news()?.is_empty(),
            None => true,
        })
    }

    /// Has `b` join and end while nobody takes the news of `a`, for which the port has room for one, and appends them.
    /// Returns whether messages come meanwhile.
    fn meet_and_lose<R: Net + AllocGlobal>(
        &mut self,
        rt: &R,
        port: &mut Port,
        text: &mut String,
    ) -> Result<bool> {
        let has_met = self.wait(rt, true)? && self.speaks(rt, port)?;
        self.end_peer();
        let has_lost = self.wait(rt, false)? && self.speaks(rt, port)?;
        self.listen(rt, port, text)?;
        Ok(has_met && has_lost)
    }
}

/// Opens a port for the news of `a`, and has a peer join it and end. Appends the news. Returns whether messages come
/// though nobody takes the news, and the node tells nothing more once the port is dropped.
fn tell<N: TestedNode, R: Net + AllocGlobal>(
    rt: &R,
    pair: &mut Pair<N>,
    places: [SocketAddr; 2],
    text: &mut String,
) -> Result<bool> {
    let [first, second] = places;
    let mut port = pair.ports.open_with_news(&mut pair.stage.event_loop, 0, 1)?;
    pair.begin_peer(rt, 1, first, second)?;
    let has_spoken = pair.meet_and_lose(rt, &mut port, text)?;
    drop(port);
    pair.pass(rt)?;
    pair.begin_peer(rt, 2, first, second)?;
    let is_silent = pair.wait(rt, true)? && !pair.has_news()?;
    Ok(has_spoken && is_silent)
}

/// Has a port tell of the only peer of its node, which comes and ends. Appends the news.
pub(crate) fn start_and_tell<N: TestedNode, R: Net + AllocGlobal>(
    rt: &R,
    text: &mut String,
) -> Result<bool> {
    let [first, second, _] = closed_ports(rt)?;
    let mut pair: Pair<N> = Pair::new(rt, first)?;
    tell(rt, &mut pair, [first, second], text)
}
