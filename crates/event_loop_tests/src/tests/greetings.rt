//! Two nodes that greet each other.
use crate::tests::stage::Stage;
use crate::tests::tested_node::TestedNode;
use anyhow::Result;
use std::net::Net;
use wire_node::MAX_WAITING;

/// How many turns two nodes may take.
const TURNS: usize = 2_000;

/// Adds two nodes that are peers: `a` at place 0 and `b` at place 1.
pub(crate) fn add_two<N: TestedNode, R: Net>(rt: &R, stage: &mut Stage<N>) -> Result<()> {
    stage.add(rt, "a", "b", MAX_WAITING)?;
    stage.add(rt, "b", "a", MAX_WAITING)
}

/// Lets both broadcast, and makes turns until each has heard both messages. Returns whether they have.
pub(crate) fn greet<N: TestedNode, R: Net>(rt: &R, stage: &mut Stage<N>) -> Result<bool> {
    let wanted = stage.heard(0).saturating_add(2);
    stage.say(0, 100)?;
    stage.say(1, 20_000)?;
    for _ in 0..TURNS {
        stage.turn(rt)?;
        if stage.heard(0) >= wanted && stage.heard(1) >= wanted {
            return Ok(true);
        }
    }
    Ok(false)
}

/// Adds two nodes, and lets them greet each other twice.
fn greet_twice<N: TestedNode, R: Net>(rt: &R, stage: &mut Stage<N>) -> Result<bool> {
    add_two(rt, stage)?;
    Ok(greet(rt, stage)? && greet(rt, stage)?)
}

/// Starts two nodes, and lets them greet each other twice. Returns whether they do.
pub(crate) fn start_and_greet<N: TestedNode, R: Net + AllocGlobal>(rt: &R) -> Result<bool> {
    let mut stage: Stage<N> = Stage::new(rt)?;
    greet_twice(rt, &mut stage)
}
