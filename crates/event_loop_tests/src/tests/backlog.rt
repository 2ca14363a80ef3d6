//! A node that is held, and what the program of its peer is told of what waits meanwhile.
use crate::tests::stage::{Stage, zeros};
use crate::tests::tested_node::TestedNode;
use anyhow::Result;
use bytes::Bytes;
use event_loop::{Next, Program, Situation};
use std::net::Net;
use std::sync::Wait;
use std::time::{Clock, Duration};

/// How many bytes may wait for a name: more than are broadcast.
const MANY: usize = 1 << 30;

/// How many bytes a message has.
const MESSAGE: usize = 30_000;

/// How often the program is called before it gives up.
const CALLS: usize = 20_000;

/// Has the first node broadcast until it is told that much waits, and holds the second one until then.
#[derive(Drop)]
struct Speaker {
    payload: Bytes,
    calls: usize,
    said: usize,
    heard: usize,
    /// Whether it was told that much waits.
    was_told: bool,
    /// Whether it was told then that it may broadcast.
    may_go_on: bool,
}

impl Speaker {
    /// Has the first node broadcast, unless it was told that much waits.
    fn speak<N: TestedNode>(&mut self, at: Situation, node: &mut N) -> Next {
        node.take_deliveries();
        if self.was_told {
            self.may_go_on = at.may_broadcast();
            return Next::Wait;
        }
        self.was_told = !at.may_broadcast();
        if self.was_told || node.broadcast(&self.payload).is_err() {
            return Next::Wait;
        }
        self.said = self.said.saturating_add(1);
        Next::Again
    }

    /// Counts what the second node delivers, and holds it until the program was told that much waits.
    fn hear<N: TestedNode>(&mut self, node: &mut N) -> Next {
        self.heard = self.heard.saturating_add(node.take_deliveries().len());
        if self.was_told {
            Next::Wait
        } else {
            Next::Hold
        }
    }

    /// Whether much waited, all of it was delivered once the node was held no more, and nothing waits then.
    fn is_right(&self) -> bool {
        self.was_told && self.may_go_on && self.heard == self.said
    }
}

impl<N: TestedNode> Program<N> for Speaker {
    fn turn(&mut self, at: Situation, node: &mut N) -> Next {
        let next = if at.place == 0 {
            self.speak(at, node)
        } else {
            self.hear(node)
        };
        self.calls = self.calls.saturating_add(1);
        if self.is_right() || self.calls >= CALLS {
            Next::End
        } else {
            next
        }
    }
}

/// Lets a node broadcast to one that is held, until much waits. Returns whether its program was told so, all came once
/// that node was held no more, and the program was told then that it may go on.
fn speak<N: TestedNode, R: Wait + Clock + Net + AllocGlobal>(
    rt: &R,
    stage: &mut Stage<N>,
) -> Result<bool> {
    stage.add(rt, "a", "b", MANY)?;
    stage.add(rt, "b", "a", MANY)?;
    let mut program = Speaker {
        payload: zeros(rt.alloc(), MESSAGE)?,
        calls: 0,
        said: 0,
        heard: 0,
        was_told: false,
        may_go_on: false,
    };
    stage
        .event_loop
        .run(rt, Duration::from_millis(10), &mut program)?;
    Ok(program.is_right())
}

/// Starts two nodes, and lets one broadcast to the other, which is held.
pub(crate) fn start_and_speak<N: TestedNode, R: Wait + Clock + Net + AllocGlobal>(
    rt: &R,
) -> Result<bool> {
    let mut stage: Stage<N> = Stage::new(rt)?;
    speak(rt, &mut stage)
}
