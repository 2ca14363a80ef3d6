//! One node with the links that lead out of it, without threads: `start` makes it, and the others are its calls.
use crate::texts::{push_applied, push_cell, push_frame, push_link};
use frames::Frame;
use node_core::PlumCore;
use node_names::{Limits, NodeName, Origin};
use node_threads::{Applied, HostError, Learnt, NodeCell, Outlet, Sealed};
use play_script::frame_words::stimulus;
use play_script::layer::{Layer, Outcome, Turn};
use play_script::lists::{push_payload, yes_or_no};
use play_script::words::{after, name, names, number_of, origin};
use protocol::{Core, CoreError, Out, Stimulus, are_peers};
use std::alloc::{AllocError, Allocator};
use std::fmt::Write;

/// A node of Plumtree with its links.
pub(crate) type Cell<A> = NodeCell<PlumCore<A>, A>;

/// A node, once it was started, the ends of its links, in the order of their opening, and what it may open by itself.
#[derive(Drop)]
pub struct CellLayer<A: Allocator + Copy> {
    alloc: A,
    cell: Option<Cell<A>>,
    outlets: Vec<Outlet<A>, A>,
    learnt: Learnt<A>,
}

/// Returns what came of a refusal, which it says, unless it is one of memory.
fn refused(error: HostError, said: &mut String) -> Result<Outcome, AllocError> {
    match error {
        HostError::OutOfMemory | HostError::Refused(CoreError::OutOfMemory) => {
            return Ok(Outcome::NoMemory);
        }
        HostError::Refused(CoreError::PayloadTooLong) => said.push_str(
            "the payload is too long\n",
        )?,
        HostError::Refused(CoreError::SeqSpent) => said.push_str("the numbers are used up\n")?,
        error => writeln!(said, "{error}")?,
    }
    Ok(Outcome::Done)
}

/// Starts a node.
fn start_cell<A: Allocator + Copy>(
    alloc: A,
    me: Origin,
    peers: &[NodeName],
    trace: usize,
) -> Result<Cell<A>, HostError> {
    let limits = Limits::STANDARD;
    if !are_peers(&limits, &me.name, peers, &None) {
        return Err(HostError::Closed);
    }
    let mut opening = Out::new(alloc);
    match PlumCore::start(alloc, me, limits, peers, None, &mut opening) {
        Ok(core) => NodeCell::new(alloc, core, opening, trace),
        Err(error) => Err(HostError::Refused(error)),
    }
}

/// Puts what was made in the place of what was there.
fn put<T: Drop>(
    place: &mut Option<T>,
    made: Result<T, HostError>,
    said: &mut String,
) -> Result<Outcome, AllocError> {
    match made {
        Ok(made) => {
            *place = Some(made);
            Ok(Outcome::Done)
        }
        Err(error) => refused(error, said),
    }
}

/// Has the node make a step, with the links that it opens and the Downs of those that turn out to be down if that is
/// asked for.
fn apply<A: Allocator + Copy>(
    cell: &mut Cell<A>,
    stimulus: Stimulus<Frame<A>, A>,
    learnt: &mut Learnt<A>,
    with_downs: bool,
) -> Result<Applied<A>, HostError> {
    if with_downs {
        cell.apply_with_downs(stimulus, learnt)
    } else {
        cell.apply(stimulus)
    }
}

/// Reads a step and has the node make it.
fn step<A: Allocator + Copy>(
    alloc: A,
    cell: &mut Cell<A>,
    words: &[&str],
    learnt: &mut Learnt<A>,
    with_downs: bool,
    turn: &mut Turn<'_>,
    said: &mut String,
) -> Result<Outcome, AllocError> {
    let Some(stimulus) = stimulus(alloc, words)? else {
        return Ok(Outcome::Unknown);
    };
    turn.begin();
    let answer = apply(cell, stimulus, learnt, with_downs);
    turn.end();
    match answer {
        Ok(applied) => {
            push_applied(said, &applied)?;
            Ok(Outcome::Done)
        }
        Err(error) => refused(error, said),
    }
}

/// Takes the next frame out of a link, and says its length and what it is.
fn pop<A: Allocator + Copy>(
    outlet: &mut Outlet<A>,
    turn: &mut Turn<'_>,
    said: &mut String,
) -> Result<Outcome, AllocError> {
    turn.begin();
    let answer = outlet.pop();
    turn.end();
    match answer {
        Ok(Some(bytes)) => push_frame(said, bytes.as_slice())?,
        Ok(None) => said.push_str("none\n")?,
        Err(_) => return Ok(Outcome::NoMemory),
    }
    Ok(Outcome::Done)
}

/// Says how far a link got, by the node's trace.
fn report<A: Allocator + Copy>(
    cell: &Cell<A>,
    outlet: &Outlet<A>,
    turn: &mut Turn<'_>,
    said: &mut String,
) -> Result<Outcome, AllocError> {
    turn.begin();
    let answer = cell.report(outlet);
    turn.end();
    match answer {
        Ok(Some(report)) => {
            writeln!(
                said,
                "{} frames came out, as the node sent them to {} from step {} on",
                report.taken, report.peer, report.opened
            )?;
            Ok(Outcome::Done)
        }
        Ok(None) => {
            said.push_str("other frames came out than the node sent\n")?;
            Ok(Outcome::Done)
        }
        Err(error) => refused(error, said),
    }
}

/// Says what a sealed segment has.
fn push_sealed<A: Allocator + Copy>(
    said: &mut String,
    sealed: &Sealed<PlumCore<A>, A>,
) -> Result<(), AllocError> {
    let first = sealed.since.saturating_add(sealed.segment.first);
    let count = sealed.segment.steps.len();
    let held = sealed.state.held().len();
    writeln!(
        said,
        "{count} steps from step {first} on, {held} messages held then"
    )
}

/// Says what a call gave, by `tell`, and drops it. Returns why the call was refused, if it was.
fn say_given<T: Drop, E, F: FnOnce(&T) -> Result<(), AllocError>>(
    answer: Result<T, E>,
    tell: F,
) -> Result<Option<E>, AllocError>
    requires { F.IsAlwaysCallable tell }
{
    match answer {
        Ok(given) => {
            tell(&given)?;
            Ok(None)
        }
        Err(error) => Ok(Some(error)),
    }
}

/// Hands out the steps since the last call, and says which they are and how many messages the core holds then.
fn seal<A: Allocator + Copy>(
    cell: &mut Cell<A>,
    turn: &mut Turn<'_>,
    said: &mut String,
) -> Result<Outcome, AllocError> {
    turn.begin();
    let answer = cell.seal();
    turn.end();
    match say_given(answer, |sealed| push_sealed(said, sealed))? {
        None => Ok(Outcome::Done),
        Some(error) => refused(error, said),
    }
}

/// Makes a segment of the last steps without handing it out.
fn seal_off<A: Allocator + Copy>(
    cell: &mut Cell<A>,
    turn: &mut Turn<'_>,
    said: &mut String,
) -> Result<Outcome, AllocError> {
    turn.begin();
    let answer = cell.seal_off();
    turn.end();
    match answer {
        Ok(()) => Ok(Outcome::Done),
        Err(error) => refused(error, said),
    }
}

/// Has the node forget what it may, and says how many steps that were.
fn forget<A: Allocator + Copy>(
    cell: &mut Cell<A>,
    said: &mut String,
) -> Result<Outcome, AllocError> {
    let count = cell.forget_sealed();
    writeln!(said, "{count} steps forgotten")?;
    Ok(Outcome::Done)
}

/// Compares what came out of a link with what the node sent, and says from which step on the link is open now.
fn compare<A: Allocator + Copy>(
    cell: &Cell<A>,
    outlet: &mut Outlet<A>,
    said: &mut String,
) -> Result<Outcome, AllocError> {
    cell.compare(outlet);
    writeln!(
        said,
        "link to {} from step {} on",
        outlet.peer(),
        outlet.opened()
    )?;
    Ok(Outcome::Done)
}

/// Puts a value into a place, and drops what was there.
fn put_into<T: Drop>(place: &mut T, value: T) {
    *place = value;
}

/// Hands out the deliveries, and says them.
fn deliver<A: Allocator + Copy>(
    cell: &mut Cell<A>,
    said: &mut String,
) -> Result<Outcome, AllocError> {
    for delivery in cell.take_deliveries().as_slice() {
        write!(said, "deliver {} ", delivery.id)?;
        push_payload(said, delivery.payload.as_slice())?;
        said.push('\n')?;
    }
    Ok(Outcome::Done)
}

impl<A: Allocator + Copy> CellLayer<A> {
    pub fn new(alloc: A) -> CellLayer<A> {
        CellLayer {
            alloc,
            cell: None,
            outlets: Vec::new(alloc),
            learnt: Learnt::new(alloc),
        }
    }

    /// Has the node open links by itself, with rings for so many frames, to at most so many names: `allow 4 2`.
    fn allow(&mut self, ring: &str, most: &str) -> Result<Outcome, AllocError> {
        let (Ok(ring), Ok(most)) = (ring.parse::<usize>(), most.parse::<usize>()) else {
            return Ok(Outcome::Unknown);
        };
        self.learnt.allow(ring, most);
        Ok(Outcome::Done)
    }

    /// Takes the ends of the links that the node opened by itself, and says since which step each is open.
    fn take_opened(&mut self, said: &mut String) -> Result<Outcome, AllocError> {
        for outlet in self.learnt.take_outlets() {
            writeln!(
                said,
                "link to {} from step {} on",
                outlet.peer(),
                outlet.opened()
            )?;
            self.outlets.push(outlet)?;
        }
        Ok(Outcome::Done)
    }

    /// Makes the node of a run: `start a trace 9 peers p q`.
    fn start(
        &mut self,
        me: &str,
        words: &[&str],
        turn: &mut Turn<'_>,
        said: &mut String,
    ) -> Result<Outcome, AllocError> {
        let (Some(me), Some(trace), Some(peers)) = (
            origin(me),
            number_of(words, "trace"),
            names(self.alloc, after(words, "peers"))?,
        ) else {
            return Ok(Outcome::Unknown);
        };
        let Ok(trace) = usize::try_from(trace) else {
            return Ok(Outcome::Unknown);
        };
        turn.begin();
        let made = start_cell(self.alloc, me, peers.as_slice(), trace);
        turn.end();
        let outcome = put(&mut self.cell, made, said)?;
        if outcome == Outcome::Done {
            self.outlets.clear();
            put_into(&mut self.learnt, Learnt::new(self.alloc));
        }
        Ok(outcome)
    }

    /// Opens a link with room for so many frames: `open p 4`.
    fn open(
        &mut self,
        peer: &str,
        room: &str,
        turn: &mut Turn<'_>,
        said: &mut String,
    ) -> Result<Outcome, AllocError> {
        let (Some(cell), Some(peer), Ok(room)) = (&mut self.cell, name(peer), room.parse::<usize>())
        else {
            return Ok(Outcome::Unknown);
        };
        self.outlets.reserve(1)?;
        turn.begin();
        let opened = cell.open_link(peer, room);
        turn.end();
        match opened {
            Ok(outlet) => {
                self.outlets.push(outlet)?;
                Ok(Outcome::Done)
            }
            Err(error) => refused(error, said),
        }
    }

    /// Closes a link, and says whether that closed it.
    fn close(&mut self, peer: &str, said: &mut String) -> Result<Outcome, AllocError> {
        let (Some(cell), Some(peer)) = (&mut self.cell, name(peer)) else {
            return Ok(Outcome::Unknown);
        };
        said.push_str(if cell.close_link(&peer) {
            "closed\n"
        } else {
            "was not open\n"
        })?;
        Ok(Outcome::Done)
    }

    /// Drops the ends of the links to a peer.
    fn drop_outlets(&mut self, peer: &str) -> Result<Outcome, AllocError> {
        let Some(peer) = name(peer) else {
            return Ok(Outcome::Unknown);
        };
        self.outlets.retain(|outlet| outlet.peer() != peer);
        Ok(Outcome::Done)
    }

    /// Makes a call that is about the last link to a peer.
    fn at_link(
        &mut self,
        verb: &str,
        peer: &str,
        turn: &mut Turn<'_>,
        said: &mut String,
    ) -> Result<Outcome, AllocError> {
        let (Some(cell), Some(peer)) = (&self.cell, name(peer)) else {
            return Ok(Outcome::Unknown);
        };
        let Some(outlet) = self
            .outlets
            .iter_mut()
            .rev()
            .find(|outlet| outlet.peer() == peer)
        else {
            return Ok(Outcome::Unknown);
        };
        match verb {
            "pop" => pop(outlet, turn, said),
            "report" => report(cell, outlet, turn, said),
            "compare" => compare(cell, outlet, said),
            "has-next" => {
                writeln!(said, "{}", yes_or_no(outlet.has_next()))?;
                Ok(Outcome::Done)
            }
            _ => Ok(Outcome::Unknown),
        }
    }

    /// Makes a call that is about the node alone.
    fn at_node(
        &mut self,
        words: &[&str],
        turn: &mut Turn<'_>,
        said: &mut String,
    ) -> Result<Outcome, AllocError> {
        let (Some(cell), learnt, alloc) = (&mut self.cell, &mut self.learnt, self.alloc) else {
            return Ok(Outcome::Unknown);
        };
        match words {
            ["deliver"] => deliver(cell, said),
            ["seal"] => seal(cell, turn, said),
            ["seal-off"] => seal_off(cell, turn, said),
            ["forget"] => forget(cell, said),
            ["may-forget"] => {
                cell.forget_from_now();
                Ok(Outcome::Done)
            }
            ["shut"] => {
                cell.shut();
                Ok(Outcome::Done)
            }
            ["with-downs", words @ ..] => step(alloc, cell, words, learnt, true, turn, said),
            _ => step(alloc, cell, words, learnt, false, turn, said),
        }
    }
}

impl<A: Allocator + Copy> Layer for CellLayer<A> {
    fn call(
        &mut self,
        words: &[&str],
        turn: &mut Turn<'_>,
        said: &mut String,
    ) -> Result<Outcome, AllocError> {
        match words {
            ["start", me, words @ ..] => self.start(me, words, turn, said),
            ["open", peer, room] => self.open(peer, room, turn, said),
            ["close", peer] => self.close(peer, said),
            ["allow", ring, most] => self.allow(ring, most),
            ["opened"] => self.take_opened(said),
            ["pop", peer] => self.at_link("pop", peer, turn, said),
            ["report", peer] => self.at_link("report", peer, turn, said),
            ["compare", peer] => self.at_link("compare", peer, turn, said),
            ["drop", peer] => self.drop_outlets(peer),
            ["has-next", peer] => self.at_link("has-next", peer, turn, said),
            _ => self.at_node(words, turn, said),
        }
    }

    fn clear(&mut self) {
        put_into(&mut self.cell, None);
        put_into(&mut self.learnt, Learnt::new(self.alloc));
        self.outlets.clear();
    }

    fn show(&self, text: &mut String) -> Result<(), AllocError> {
        let Some(cell) = &self.cell else {
            return Ok(());
        };
        push_cell(text, cell)?;
        for outlet in &self.outlets {
            push_link(text, cell, outlet)?;
        }
        Ok(())
    }
}
