//! A node that stays in its group: it tells of its neighbours, joins again when it is alone, and opens a link for that.
use crate::tests::ends::broadcast_by_each;
use crate::tests::group::Millisecond;
use crate::tests::node::{LOOKS, Node, TestedCore, close, keep, name, start};
use node_core::{News, PlumCore};
use node_threads::{Host, HostError, NodeCore, OpenGate, Outlet, tick};
use std::alloc::{AllocError, Global};
use std::process::Abort;
use std::sync::Wait;
use std::test::Fail;
use std::thread;
use std::thread::Threads;
use std::time::{Clock, Duration};

/// How many names may have a link.
const LINKS: usize = 8;

/// What a node tells that loses its only neighbour, and then to whom it opens the links by which it joins.
const TOLD: &str = "-p isolated; c c ";

/// Appends what a node told of its neighbours.
fn push_news<R: Wait, C: NodeCore<Global> + Drop>(
    rt: &R,
    host: &Host<C>,
    text: &mut String,
) -> Result<(), AllocError> {
    for news in &host.take_news(rt) {
        match news {
            News::NeighborUp(name) => write!(text, "+{name} ")?,
            News::NeighborDown { name, .. } => write!(text, "-{name} ")?,
            News::Isolated => write!(text, "isolated; ")?,
            News::Joined => write!(text, "joined; ")?,
        }
    }
    Ok(())
}

/// Waits until a node opens a link, and returns its outlet.
fn await_opened<R: Wait + Clock, C: NodeCore<Global> + Drop>(
    rt: &R,
    host: &Host<C>,
) -> Option<Outlet> {
    for _ in 0..LOOKS {
        if let Some(outlet) = host.take_opened(rt).pop() {
            return Some(outlet);
        }
        thread::sleep(rt, Duration::from_millis(5));
    }
    None
}

/// Gives up each link that a node opens, twice. Appends where they go.
fn give_up_twice<R: Wait + Clock, C: NodeCore<Global> + Drop>(
    rt: &R,
    node: &mut Node<C>,
    text: &mut String,
) -> Result<(), AllocError> {
    for _ in 0..2 {
        if let Some(outlet) = await_opened(rt, &node.host) {
            write!(text, "{} ", outlet.peer())?;
            let _ = node.host.give_up(rt, outlet);
        }
    }
    Ok(())
}

/// Gives up a node's only link, for which a frame waits.
fn lose_neighbour<R: Wait, C: NodeCore<Global> + Drop>(
    rt: &R,
    alloc: Global,
    node: &mut Node<C>,
) -> Result<(), HostError> {
    broadcast_by_each(rt, alloc, node.ports.as_mut_slice())?;
    if let Some(outlet) = node.outlets.pop() {
        let _ = node.host.give_up(rt, outlet);
    }
    Ok(())
}

/// Starts a node that may open links, tells of its neighbours, and has a contact.
fn start_staying<C, R>(rt: &R, alloc: Global) -> Result<Node<C>, HostError>
where
    C: TestedCore<Global> + Drop,
    R: Wait + Abort,
{
    let node: Node<C> = start(rt, alloc, "a", "p", 1)?;
    node.host.allow_links(rt, LINKS);
    node.host.set_contacts(rt, &[name(rt, "c")])?;
    node.host.tell_news(rt, true)?;
    Ok(node)
}

/// Has a node lose its neighbour and join again. Appends what it told, and where the links go that it opened.
fn stay<C, R>(rt: R, alloc: Global, text: &mut String) -> Result<(), HostError>
where
    C: TestedCore<Global> + Drop + Send + 'static,
    R: Threads + Wait + Clock + Abort + Copy + Send + Drop + 'static,
{
    let mut node: Node<C> = start_staying(&rt, alloc)?;
    lose_neighbour(&rt, alloc, &mut node)?;
    push_news(&rt, &node.host, text)?;
    let ticker = tick(rt, &node.host, OpenGate, 0, Millisecond { rt }, 1)?;
    keep(&mut node.workers, ticker)?;
    give_up_twice(&rt, &mut node, text)?;
    node.host.stop(&rt);
    let mut left = String::new(alloc);
    close(&rt, &mut left, node)?;
    Ok(())
}

/// A node loses its only neighbour, of which it tells. Its ticker has it join by its contact, whose link it opens
/// itself; nobody dials it, and the node joins again, over another link.
#[test]
fn a_node_joins_again(rt: HostRuntime) -> Result<(), Fail> {
    let mut text = String::new(rt.alloc());
    stay::<PlumCore, _>(rt, rt.alloc(), &mut text)?;
    assert!(rt; text.as_str() == TOLD, "{text}");
    Ok(())
}
