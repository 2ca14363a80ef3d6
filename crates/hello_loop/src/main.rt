//! A node of a group on one thread: it greets the group once, prints a greeting of each node, and ends.
//!
//! The arguments are its name and the nodes of the group, as `hello_loop b a=127.0.0.1:7193 b=127.0.0.1:7194`. The
//! first of the nodes begins the group, and each other joins by it, also if it starts later or is started again.
#![tactic(auto)]

mod greeter;
mod nodes;

use anyhow::{Context, Result, bail};
use event_loop::{EventLoop, LoopNode, Program};
use greeter::Greeter;
use node_names::{Incarnation, Limits, NodeName, Origin};
use nodes::Nodes;
use std::alloc::Global;
use std::env;
use std::net::Net;
use std::sync::Wait;
use std::time::{Clock, Duration};
use wire_node::{Unrecorded, WireLimits, WireNode};

/// How many milliseconds a tick takes.
const TICK: u64 = 100;

/// How many seconds the others may take to accept the last bytes.
const GRACE: u64 = 5;

/// Runs the node of this name until the program ends it.
fn run<R, N, P>(rt: &R, name: &NodeName, nodes: Nodes, node: N, program: &mut P) -> Result<()>
where
    R: Wait + Clock + Net + AllocGlobal,
    N: LoopNode<Global>,
    P: Program<N>,
{
    let at = nodes.address(name).context("it is none of the nodes")?;
    let contact = nodes.contact_of(name);
    let mut event_loop = EventLoop::new(rt, rt.alloc(), nodes, 1)?;
    let place = event_loop.add(rt, at, node)?;
    if let Some(contact) = contact {
        event_loop.set_contacts(place, &[contact])?;
    }
    event_loop.run(rt, Duration::from_millis(TICK), program)?;
    event_loop.finish(rt, Duration::from_secs(GRACE))?;
    Ok(())
}

fn main(rt: HostRuntime) -> Result<()> {
    let alloc = rt.alloc();
    let words: Vec<String> = env::args(&rt)?.collect(alloc)?;
    let [_, name, others @ ..] = words.as_slice() else {
        bail!("the arguments are NAME NODE=ADDRESS ..");
    };
    let name = NodeName::parse(name.as_bytes())?;
    let nodes = Nodes::parse(alloc, others)?;
    let mut greeter = Greeter::new(&rt, nodes.len());
    let me = Origin {
        name,
        incarnation: Incarnation(1),
    };
    let contact = nodes.contact_of(&name);
    let limits = WireLimits::new(Limits::STANDARD);
    let node = WireNode::start(alloc, me, limits, &[], contact, Unrecorded)?;
    run(&rt, &name, nodes, node, &mut greeter)?;
    greeter.end()
}
