//! Nodes that join by a contact that comes late, restarts, or goes and comes back.
use crate::tests::hosts::closed_ports;
use crate::tests::stage::Stage;
use crate::tests::tested_node::TestedNode;
use anyhow::Result;
use std::alloc::Global;
use std::net::{Net, SocketAddr};

/// How many turns are made between two ticks.
const TURNS: usize = 5;

/// Within how many ticks a node that is alone joins by a contact that is there: two pauses, of 4 and 8 at most.
const SOON: usize = 12;

/// For how many ticks a contact is away.
const AWAY: usize = 10;

/// Within how many ticks a node joins once its contact came back: the pause that began meanwhile takes 16 ticks at
/// most, and the next 32.
const LATER: usize = 48;

/// Within how many ticks a message reaches each node of a group that is whole.
const REACH: usize = 12;

/// A group, in loops that do not share what they know of addresses.
#[derive(Drop)]
struct Group<N: TestedNode> {
    alloc: Global,
    stages: Vec<Stage<N>>,
}

impl<N: TestedNode> Group<N> {
    /// Makes a group without loops.
    fn new(alloc: Global) -> Group<N> {
        Group {
            alloc,
            stages: Vec::new(alloc),
        }
    }

    /// Adds a loop with a node that joins by these contacts, whose names blanks separate.
    fn begin<R: Net + AllocGlobal>(
        &mut self,
        rt: &R,
        me: &str,
        run: u64,
        at: SocketAddr,
        contacts: &str,
    ) -> Result<()> {
        let mut stage = Stage::new(rt)?;
        stage.join(rt, me, run, at, contacts)?;
        self.stages.push(stage)?;
        Ok(())
    }

    /// Tells each loop where a node takes connections.
    fn tell(&mut self, name: &str, at: SocketAddr) -> Result<()> {
        for stage in &mut self.stages {
            stage.meet(name, at)?;
        }
        Ok(())
    }

    /// Ends the last loop: its node is gone, and its connections are closed.
    fn end_last(&mut self) {
        self.stages.pop();
    }

    /// Makes a tick of each loop, and turns behind it.
    fn pass<R: Net>(&mut self, rt: &R) -> Result<()> {
        for stage in &mut self.stages {
            stage.event_loop.tick()?;
        }
        for _ in 0..TURNS {
            self.turn(rt)?;
        }
        Ok(())
    }

    /// Makes a turn of each loop.
    fn turn<R: Net>(&mut self, rt: &R) -> Result<()> {
        for stage in &mut self.stages {
            stage.turn(rt)?;
        }
        Ok(())
    }

    /// Makes so many ticks.
    fn wait<R: Net>(&mut self, rt: &R, ticks: usize) -> Result<()> {
        for _ in 0..ticks {
            self.pass(rt)?;
        }
        Ok(())
    }

    /// Whether no node is alone.
    fn is_joined(&self) -> bool {
        self.stages.iter().all(|stage| stage.is_joined())
    }

    /// Whether each node has delivered a message.
    fn has_heard(&self) -> bool {
        self.stages.iter().all(|stage| stage.has_heard())
    }

    /// Makes ticks until no node is alone, and at most so many. Returns whether none is.
    fn gather<R: Net>(&mut self, rt: &R, ticks: usize) -> Result<bool> {
        for _ in 0..ticks {
            self.pass(rt)?;
            if self.is_joined() {
                return Ok(true);
            }
        }
        Ok(false)
    }

    /// Has the first node broadcast. Returns whether each node delivers the message soon.
    fn reaches_all<R: Net>(&mut self, rt: &R) -> Result<bool> {
        for stage in &mut self.stages {
            stage.forget();
        }
        if let Some(stage) = self.stages.first_mut() {
            stage.say(0, 100)?;
        }
        for _ in 0..REACH {
            self.pass(rt)?;
            if self.has_heard() {
                return Ok(true);
            }
        }
        Ok(false)
    }

    /// Returns whether no node is alone within so many ticks, and each reaches all others then.
    fn becomes_whole<R: Net>(&mut self, rt: &R, ticks: usize) -> Result<bool> {
        Ok(self.gather(rt, ticks)? && self.reaches_all(rt)? && self.is_joined())
    }
}

/// Has a third node join two that never heard of it. Returns whether the three are a group within 12 ticks.
fn join_two<N: TestedNode, R: Net + AllocGlobal>(rt: &R, group: &mut Group<N>) -> Result<bool> {
    let [first, second, third] = closed_ports(rt)?;
    group.begin(rt, "a", 1, first, "")?;
    group.begin(rt, "b", 1, second, "a")?;
    group.tell("a", first)?;
    group.tell("b", second)?;
    let were_two = group.becomes_whole(rt, SOON)?;
    group.begin(rt, "c", 1, third, "a")?;
    group.tell("a", first)?;
    group.tell("b", second)?;
    group.tell("c", third)?;
    Ok(were_two && group.becomes_whole(rt, SOON)?)
}

/// Has two nodes join by a contact that is not there yet. Returns whether they are alone until it is, and the three are
/// a group within 48 ticks then.
fn await_contact<N: TestedNode, R: Net + AllocGlobal>(
    rt: &R,
    group: &mut Group<N>,
) -> Result<bool> {
    let [first, second, third] = closed_ports(rt)?;
    group.begin(rt, "b", 1, second, "a")?;
    group.begin(rt, "c", 1, third, "a")?;
    group.tell("a", first)?;
    group.wait(rt, AWAY)?;
    let was_alone = !group.is_joined();
    group.begin(rt, "a", 1, first, "")?;
    group.tell("b", second)?;
    group.tell("c", third)?;
    Ok(was_alone && group.becomes_whole(rt, LATER)?)
}

/// Has two nodes join by a contact, which then restarts at its address as another run, and joins by them. Returns
/// whether the three are a group within 48 ticks before, and within 12 ticks after.
fn restart_contact<N: TestedNode, R: Net + AllocGlobal>(
    rt: &R,
    group: &mut Group<N>,
) -> Result<bool> {
    let was_whole = await_contact(rt, group)?;
    let mut places = Vec::new(group.alloc);
    for stage in &group.stages {
        places.push(stage.event_loop.address(0)?)?;
    }
    let [second, third, first] = places.as_slice() else {
        return Ok(false);
    };
    group.end_last();
    group.begin(rt, "a", 2, *first, "b c")?;
    group.tell("b", *second)?;
    group.tell("c", *third)?;
    Ok(was_whole && group.becomes_whole(rt, SOON)?)
}

/// Has a node lose its only peer, which is away and then comes back as another run, without contacts. Returns whether
/// they are a group within 12 ticks before, and within 48 ticks after, and the node is alone meanwhile.
fn lose_only_peer<N: TestedNode, R: Net + AllocGlobal>(
    rt: &R,
    group: &mut Group<N>,
) -> Result<bool> {
    let [first, second, _] = closed_ports(rt)?;
    group.begin(rt, "b", 1, second, "a")?;
    group.begin(rt, "a", 1, first, "")?;
    group.tell("a", first)?;
    group.tell("b", second)?;
    let were_two = group.becomes_whole(rt, SOON)?;
    group.end_last();
    group.wait(rt, AWAY)?;
    let was_alone = !group.is_joined();
    group.begin(rt, "a", 2, first, "")?;
    group.tell("b", second)?;
    Ok(were_two && was_alone && group.becomes_whole(rt, LATER)?)
}

/// Has a third node join two that never heard of it.
pub(crate) fn start_and_join<N: TestedNode, R: Net + AllocGlobal>(rt: &R) -> Result<bool> {
    let mut group: Group<N> = Group::new(rt.alloc());
    join_two(rt, &mut group)
}

/// Has a contact start last.
pub(crate) fn start_and_await<N: TestedNode, R: Net + AllocGlobal>(rt: &R) -> Result<bool> {
    let mut group: Group<N> = Group::new(rt.alloc());
    await_contact(rt, &mut group)
}

/// Has a contact restart at its address.
pub(crate) fn start_and_restart<N: TestedNode, R: Net + AllocGlobal>(rt: &R) -> Result<bool> {
    let mut group: Group<N> = Group::new(rt.alloc());
    restart_contact(rt, &mut group)
}

/// Has a node's only peer go and come back.
pub(crate) fn start_and_lose<N: TestedNode, R: Net + AllocGlobal>(rt: &R) -> Result<bool> {
    let mut group: Group<N> = Group::new(rt.alloc());
    lose_only_peer(rt, &mut group)
}
