//! One node of bytes: `start` makes it, and the others are its calls.
use crate::node_calls::{
    accept, ask_on, broadcast, deliver, end, join, lose, lost, news, opening, receivers, refused,
    steps, tick, transmit,
};
use crate::receiving::receive;
use crate::texts::{Node, push_node};
use node_names::{Limits, NodeName, Origin};
use play_script::layer::{Layer, Outcome, Turn};
use play_script::words::{after, before, name, names, number, number_of, origin, value};
use std::alloc::{AllocError, Allocator, Global};
use wire_node::{ConnectionId, Recorded, WireError, WireLimits, WireNode};

/// A node of bytes, once it was started.
#[derive(Drop)]
pub struct WireLayer<A: Allocator + Copy> {
    alloc: A,
    own: Global,
    node: Option<Node<A>>,
}

/// Who a node is, and whom it starts with.
#[derive(Clone, Copy)]
struct StartArgs {
    me: Origin,
    limits: WireLimits,
    contact: Option<NodeName>,
}

/// Reads who a node is and its contact: `a waiting 100 contact c`. Without `waiting` the usual limit holds.
fn start_of(me: &str, words: &[&str]) -> Option<StartArgs> {
    let mut limits = WireLimits::new(Limits::STANDARD);
    if value(words, "waiting").is_some() {
        limits.waiting = usize::try_from(number_of(words, "waiting")?).ok()?;
    }
    let contact = match value(words, "contact") {
        Some(word) => Some(name(word)?),
        None => None,
    };
    Some(StartArgs {
        me: origin(me)?,
        limits,
        contact,
    })
}

/// Puts what was made in the place of what was there.
fn put<T: Drop>(
    place: &mut Option<T>,
    made: Result<T, WireError>,
    said: &mut String,
) -> Result<Outcome, AllocError> {
    match made {
        Ok(made) => {
            *place = Some(made);
            Ok(Outcome::Done)
        }
        Err(error) => refused(&error, said),
    }
}

/// Puts a value into a place, and drops what was there.
fn put_into<T: Drop>(place: &mut T, value: T) {
    *place = value;
}

/// Takes bytes that went out: `transmitted p 24`.
fn went<A: Allocator + Copy>(node: &mut Node<A>, to: &str, count: &str) -> Outcome {
    let (Some(to), Ok(count)) = (name(to), count.parse::<usize>()) else {
        return Outcome::Unknown;
    };
    node.transmitted(&to, count);
    Outcome::Done
}

/// Has a node tell news from now on.
fn tell_news<A: Allocator + Copy>(node: &mut Node<A>) -> Outcome {
    node.tell_news(true);
    Outcome::Done
}

/// Makes a call that takes what a node gives.
fn take<A: Allocator + Copy>(
    node: &mut Node<A>,
    what: &str,
    said: &mut String,
) -> Result<Outcome, AllocError> {
    match what {
        "deliver" => deliver(node, said),
        "lost" => lost(node, said),
        "steps" => steps(node, said),
        "opening" => opening(node, said),
        _ => Ok(Outcome::Unknown),
    }
}

/// Makes a call that is about a name.
fn at_name<A: Allocator + Copy>(
    node: &mut Node<A>,
    verb: &str,
    of: &str,
    turn: &mut Turn<'_>,
    said: &mut String,
) -> Result<Outcome, AllocError> {
    let Some(of) = name(of) else {
        return Ok(Outcome::Unknown);
    };
    match verb {
        "unreachable" => lose(node, of, turn, said),
        "join" => join(node, of, turn, said),
        "transmit" => transmit(node, &of, said),
        _ => Ok(Outcome::Unknown),
    }
}

impl<A: Allocator + Copy> WireLayer<A> {
    pub fn new(alloc: A, own: Global) -> WireLayer<A> {
        WireLayer {
            alloc,
            own,
            node: None,
        }
    }

    /// Makes the node of a run: `start a waiting 100 contact c peers p q`.
    fn start(
        &mut self,
        me: &str,
        words: &[&str],
        turn: &mut Turn<'_>,
        said: &mut String,
    ) -> Result<Outcome, AllocError> {
        let Some(args) = start_of(me, before(words, "peers")) else {
            return Ok(Outcome::Unknown);
        };
        let Some(peers) = names(self.alloc, after(words, "peers"))? else {
            return Ok(Outcome::Unknown);
        };
        turn.begin();
        let made = WireNode::start(
            self.alloc,
            args.me,
            args.limits,
            peers.as_slice(),
            args.contact,
            Recorded::new(self.alloc),
        );
        turn.end();
        put(&mut self.node, made, said)
    }

    /// Makes a call that is about a connection.
    fn at_connection(
        &mut self,
        verb: &str,
        of: &str,
        words: &[&str],
        turn: &mut Turn<'_>,
        said: &mut String,
    ) -> Result<Outcome, AllocError> {
        let (Some(node), Some(of)) = (&mut self.node, number(of)) else {
            return Ok(Outcome::Unknown);
        };
        match verb {
            "receive" => receive(self.own, node, ConnectionId(of), words, turn, said),
            _ => end(node, ConnectionId(of), turn, said),
        }
    }

    /// Makes a call that is about no connection.
    fn at_node(
        &mut self,
        words: &[&str],
        turn: &mut Turn<'_>,
        said: &mut String,
    ) -> Result<Outcome, AllocError> {
        let Some(node) = &mut self.node else {
            return Ok(Outcome::Unknown);
        };
        match words {
            ["broadcast", letters] => broadcast(self.alloc, node, letters, turn, said),
            ["accept"] => accept(node, turn, said),
            ["tick"] => tick(node, turn, said),
            ["ask-on"] => ask_on(node, turn, said),
            ["tell-news"] => Ok(tell_news(node)),
            ["news"] => news(node, turn, said),
            ["receivers"] => receivers(node, turn, said),
            ["transmitted", to, count] => Ok(went(node, to, count)),
            [what] => take(node, what, said),
            [verb, of] => at_name(node, verb, of, turn, said),
            _ => Ok(Outcome::Unknown),
        }
    }
}

impl<A: Allocator + Copy> Layer for WireLayer<A> {
    fn call(
        &mut self,
        words: &[&str],
        turn: &mut Turn<'_>,
        said: &mut String,
    ) -> Result<Outcome, AllocError> {
        match words {
            ["start", me, words @ ..] => self.start(me, words, turn, said),
            ["receive", of, words @ ..] => self.at_connection("receive", of, words, turn, said),
            ["ended", of] => self.at_connection("ended", of, &[], turn, said),
            _ => self.at_node(words, turn, said),
        }
    }

    fn clear(&mut self) {
        put_into(&mut self.node, None);
    }

    fn show(&self, text: &mut String) -> Result<(), AllocError> {
        match &self.node {
            Some(node) => push_node(text, node),
            None => Ok(()),
        }
    }
}
