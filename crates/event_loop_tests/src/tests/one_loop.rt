//! Many nodes in one loop, which a program runs.
use crate::tests::stage::{Stage, zeros};
use crate::tests::tested_node::TestedNode;
use anyhow::Result;
use bytes::Bytes;
use event_loop::{Next, Program, Situation};
use std::alloc::{AllocError, Global};
use std::net::Net;
use std::sync::Wait;
use std::time::{Clock, Duration};
use wire_node::MAX_WAITING;

/// How many nodes there are. Each has the two before it and the two behind it as peers.
const NODES: usize = 16;

/// How often the program is called before it gives up.
const CALLS: usize = 100_000;

/// Has the first node that is called broadcast, and counts what all nodes deliver.
#[derive(Drop)]
struct Hearing {
    payload: Bytes,
    has_said: bool,
    /// How many messages each node has delivered.
    heard: Vec<usize>,
    calls: usize,
}

impl Hearing {
    /// Has heard nothing yet.
    fn new(alloc: Global) -> Result<Hearing, AllocError> {
        Ok(Hearing {
            payload: zeros(alloc, 1_000)?,
            has_said: false,
            heard: Vec::from_elem(alloc, 0, NODES)?,
            calls: 0,
        })
    }

    /// Whether each node has delivered the message, and none twice.
    fn is_right(&self) -> bool {
        self.heard.iter().all(|heard| *heard == 1)
    }

    /// Counts what the node at this place delivered.
    fn count(&mut self, place: usize, delivered: usize) {
        self.calls = self.calls.saturating_add(1);
        if let Some(heard) = self.heard.get_mut(place) {
            *heard = heard.saturating_add(delivered);
        }
    }
}

impl<N: TestedNode> Program<N> for Hearing {
    fn turn(&mut self, at: Situation, node: &mut N) -> Next {
        if !self.has_said {
            self.has_said = node.broadcast(&self.payload).is_ok();
        }
        let delivered = node.take_deliveries().len();
        self.count(at.place, delivered);
        if self.calls >= CALLS || self.heard.iter().all(|heard| *heard > 0) {
            Next::End
        } else {
            Next::Wait
        }
    }
}

/// Appends the name of the node at this place.
fn push_name(text: &mut String, place: usize) -> Result<(), AllocError> {
    write!(text, "n{} ", place % NODES)
}

/// Adds the node at this place.
fn add<N: TestedNode, R: Net + AllocGlobal>(
    rt: &R,
    stage: &mut Stage<N>,
    place: usize,
) -> Result<()> {
    let mut me = String::new(rt.alloc());
    let mut peers = String::new(rt.alloc());
    push_name(&mut me, place)?;
    for step in [1, 2, NODES - 2, NODES - 1] {
        push_name(&mut peers, place.wrapping_add(step))?;
    }
    stage.add(rt, me.trim(), peers.as_str(), MAX_WAITING)
}

/// Adds the nodes.
fn add_all<N: TestedNode, R: Net + AllocGlobal>(rt: &R, stage: &mut Stage<N>) -> Result<()> {
    for place in 0..NODES {
        add(rt, stage, place)?;
    }
    Ok(())
}

/// Lets one of the nodes broadcast. Returns whether each has delivered the message once.
fn run<N: TestedNode, R: Wait + Clock + Net + AllocGlobal>(
    rt: &R,
    stage: &mut Stage<N>,
) -> Result<bool> {
    add_all(rt, stage)?;
    let mut program = Hearing::new(rt.alloc())?;
    stage
        .event_loop
        .run(rt, Duration::from_millis(10), &mut program)?;
    Ok(program.is_right())
}

/// Starts the nodes, and lets one of them broadcast. Returns whether each delivers the message once.
pub(crate) fn start_and_run<N: TestedNode, R: Wait + Clock + Net + AllocGlobal>(
    rt: &R,
) -> Result<bool> {
    let mut stage: Stage<N> = Stage::new(rt)?;
    run(rt, &mut stage)
}
