//! Running nodes that forget steps.
use crate::tests::ends::{broadcast, broadcast_by_each};
use crate::tests::node::{LOOKS, Node, TestedCore, close, keep, start_within};
use crate::tests::pacing::{Pace, PacedDialler};
use crate::tests::retiring::Tapes;
use frames::Frame;
use node_core::PlumCore;
use node_threads::{
    Closed, Dialler, Host, HostError, NodeCore, OpenGate, Outlet, Port, Sealed, write_link,
};
use protocol::{Segment, StimulusOf};
use std::alloc::{AllocError, Global};
use std::process::Abort;
use std::sync::{Arc, Wait};
use std::test::Fail;
use std::thread;
use std::thread::Threads;
use std::time::{Clock, Duration};

/// How many parts of its history a node hands out.
const PARTS: usize = 10;

/// How many broadcasts each of them has.
const PART: usize = 20;

/// How many steps a node may have whose outlet nobody compares for a while.
const STEPS: usize = 10;

/// How often a program has its node forget: the first call seals off what the second forgets.
const CALLS: usize = 2;

/// How many messages are broadcast over a link that always has frames.
const BUSY: usize = 300;

/// What a node leaves that has forgotten three broadcasts, whose frames were compared.
const COMPARED: &str = "forgot 3: a/1 among p | handed out 0; 0 to p from 3";

/// What a node leaves that has forgotten three broadcasts and the end of its only link.
const GIVEN_UP: &str = "forgot 4: a/1 among p | handed out 0";

/// What a node leaves that has forgotten ten broadcasts, and has made one more, whose frame is still in the link.
const ONE_MORE: &str =
    "forgot 10: a/1 among p | broadcast hello; a/1 delivers a/1/11 hello; to p a/1#11 GOSSIP a/1/11 0 hello | handed out 0; 0 to p from 10";

/// The parts of its history that a node handed out.
#[derive(Drop)]
struct History {
    segments: Vec<Arc<Segment<Frame>, Global>>,
    /// The place after the last step.
    end: usize,
    /// Whether each part begins where the one before it ends.
    is_whole: bool,
}

/// Whether a segment's steps are all broadcasts.
fn are_broadcasts(segment: &Segment<Frame>) -> bool {
    segment
        .steps
        .as_slice()
        .iter()
        .all(|step| matches!(step.stimulus, StimulusOf::Broadcast(_)))
}

impl History {
    /// Makes a history without parts.
    fn new(alloc: Global) -> History {
        History {
            segments: Vec::new(alloc),
            end: 0,
            is_whole: true,
        }
    }

    /// Appends a part.
    fn add<C: Drop>(&mut self, sealed: Sealed<C>) -> Result<(), AllocError> {
        let Sealed {
            since,
            segment,
            state: _,
        } = sealed;
        let first = since.saturating_add(segment.first);
        self.is_whole = self.is_whole && first == self.end;
        self.end = first.saturating_add(segment.steps.len());
        keep(&mut self.segments, segment)
    }

    /// Whether it is whole, and its steps are so many broadcasts.
    fn has(&self, count: usize) -> bool {
        self.is_whole
            && self.end == count
            && self.segments.iter().all(|segment| are_broadcasts(segment))
    }
}

/// Starts a node with one port and the peer `p` that may forget steps, and may have so many.
fn start_lasting<C: TestedCore<Global> + Drop, R: Wait + Abort>(
    rt: &R,
    alloc: Global,
    steps: usize,
) -> Result<Node<C>, HostError> {
    let node: Node<C> = start_within(rt, alloc, "a", "p", 1, steps)?;
    node.host.forget_from_now(rt);
    Ok(node)
}

/// Starts the writer of a node's only link.
fn start_writer<C, R, D>(rt: R, node: &mut Node<C>, dialler: D) -> Result<(), HostError>
where
    C: NodeCore<Global> + Drop + Send + 'static,
    R: Threads + Wait + Copy + Send + Drop + 'static,
    D: Dialler + Send + Drop + 'static,
{
    if let Some(outlet) = node.outlets.pop() {
        let writer = write_link(rt, &node.host, OpenGate, 0, outlet, dialler)?;
        keep(&mut node.workers, writer)?;
    }
    Ok(())
}

/// Broadcasts so many messages through each port, which forgets its calls at once.
fn broadcast_many<R: Wait, C: NodeCore<Global> + Drop>(
    rt: &R,
    alloc: Global,
    ports: &mut [Port<C>],
    count: usize,
) -> Result<(), HostError> {
    for port in ports {
        for _ in 0..count {
            broadcast(rt, alloc, port)?;
            port.forget();
        }
    }
    Ok(())
}

/// Waits until a node has forgotten what it handed out. Returns whether it has.
fn await_forgotten<R: Wait + Clock, C: NodeCore<Global> + Drop>(
    rt: &R,
    host: &Host<C>,
) -> Result<bool, HostError> {
    for _ in 0..LOOKS {
        if host.forget_sealed(rt)? > 0 {
            return Ok(true);
        }
        thread::sleep(rt, Duration::from_millis(5));
    }
    Ok(false)
}

/// Lets a node broadcast and hand its history out, each part once the one before is forgotten. Returns whether all
/// parts but the last were forgotten.
fn live_on<R: Wait + Clock, C: NodeCore<Global> + Drop>(
    rt: &R,
    alloc: Global,
    node: &mut Node<C>,
    history: &mut History,
) -> Result<bool, HostError> {
    for part in 0..PARTS {
        broadcast_many(rt, alloc, node.ports.as_mut_slice(), PART)?;
        if part > 0 && !await_forgotten(rt, &node.host)? {
            return Ok(false);
        }
        history.add(node.host.seal(rt)?)?;
    }
    Ok(true)
}

/// Whether a node that made so many steps left those that it did not forget, and one link that was compared with those
/// that it forgot.
fn has_rest(closed: &Closed, made: usize) -> bool {
    match closed.since {
        Some(since) => {
            since > 0
                && since.saturating_add(closed.trace.len()) == made
                && closed.links.len() == 1
                && closed.links.iter().all(|link| link.opened >= since)
        }
        None => false,
    }
}

/// Closes a node that made so many steps. Returns whether it has forgotten some, and leaves all others.
fn closes_with_rest<C: NodeCore<Global> + Drop, R: Threads + Wait>(
    rt: &R,
    node: Node<C>,
    made: usize,
) -> bool {
    let Node {
        host,
        ports,
        outlets: _,
        workers,
    } = node;
    match host.close(rt, ports, workers) {
        Ok(closed) => has_rest(&closed, made),
        Err(_) => false,
    }
}

/// Whether a node whose link takes everything forgets what it hands out, and leaves the rest. Fills the history with
/// what it hands out.
fn lasts<C, R>(rt: R, alloc: Global, history: &mut History) -> Result<bool, HostError>
where
    C: TestedCore<Global> + Drop + Send + 'static,
    R: Threads + Wait + Clock + Abort + Copy + Send + Drop + 'static,
{
    let mut node: Node<C> = start_lasting(&rt, alloc, 2 * PART)?;
    start_writer(rt, &mut node, Tapes { alloc })?;
    let has_forgotten = live_on(&rt, alloc, &mut node, history)?;
    Ok(closes_with_rest(&rt, node, PARTS * PART) && has_forgotten)
}

/// A node whose trace has room for two parts hands out ten, and forgets each before it hands out the next. The parts
/// have all its steps, each once and in order, and it closes with those that it did not forget.
#[test]
fn a_node_forgets_what_it_hands_out(rt: HostRuntime) -> Result<(), Fail> {
    let mut history = History::new(rt.alloc());
    let is_right = lasts::<PlumCore, _>(rt, rt.alloc(), &mut history)?;
    assert!(rt;
        is_right && history.has(PARTS * PART),
        "{} steps were handed out, and the parts follow one another: {}",
        history.end,
        history.is_whole
    );
    Ok(())
}

/// Has a node forget, several times. Returns how many steps it forgot.
fn forget_made<R: Wait, C: NodeCore<Global> + Drop>(
    rt: &R,
    host: &Host<C>,
) -> Result<usize, HostError> {
    let mut count: usize = 0;
    for _ in 0..CALLS {
        count = count.saturating_add(host.forget_made(rt)?);
    }
    Ok(count)
}

/// Takes so many frames out of an outlet.
fn pop_all(outlet: &mut Outlet, frames: usize) -> Result<(), AllocError> {
    for _ in 0..frames {
        let _ = outlet.pop()?;
    }
    Ok(())
}

/// Has a node forget that has sent three frames. Returns how many steps it forgot before its outlet was compared, after
/// that, once the frames were taken, and once the outlet was compared again.
fn forget_around<R: Wait, C: NodeCore<Global> + Drop>(
    rt: &R,
    host: &Host<C>,
    outlet: &mut Outlet,
) -> Result<[usize; 4], HostError> {
    let uncompared = forget_made(rt, host)?;
    host.compare(rt, outlet);
    let untaken = forget_made(rt, host)?;
    pop_all(outlet, 3)?;
    let taken = forget_made(rt, host)?;
    host.compare(rt, outlet);
    Ok([uncompared, untaken, taken, forget_made(rt, host)?])
}

/// Has a node forget three broadcasts whose frames are compared late, and closes it. Returns what `forget_around` does,
/// or `None` if it has no outlet. Replaces the text with what the node leaves.
fn compare_late<C, R>(
    rt: &R,
    alloc: Global,
    text: &mut String,
) -> Result<Option<[usize; 4]>, HostError>
where
    C: TestedCore<Global> + Drop,
    R: Threads + Wait + Abort,
{
    let mut node: Node<C> = start_lasting(rt, alloc, STEPS)?;
    broadcast_many(rt, alloc, node.ports.as_mut_slice(), 3)?;
    let Some(mut outlet) = node.outlets.pop() else {
        return Ok(None);
    };
    let counts = forget_around(rt, &node.host, &mut outlet)?;
    keep(&mut node.workers, node.host.rest(outlet))?;
    close(rt, text, node)?;
    Ok(Some(counts))
}

/// A node forgets nothing until all frames were taken out of its outlet, and these were compared.
#[test]
fn an_outlet_that_is_compared_late(rt: HostRuntime) -> Result<(), Fail> {
    let mut text = String::new(rt.alloc());
    let counts = compare_late::<PlumCore, _>(&rt, rt.alloc(), &mut text)?;
    assert!(rt;
        counts == Some([0, 0, 0, 3]) && text.as_str() == COMPARED,
        "{counts:?}: {text}"
    );
    Ok(())
}

/// Has a node forget three broadcasts before and after its outlet is given up, and closes it. Returns how many steps it
/// forgot before and after that. Replaces the text with what the node leaves.
fn give_up_late<C, R>(rt: &R, alloc: Global, text: &mut String) -> Result<[usize; 2], HostError>
where
    C: TestedCore<Global> + Drop,
    R: Threads + Wait + Abort,
{
    let mut node: Node<C> = start_lasting(rt, alloc, STEPS)?;
    broadcast_many(rt, alloc, node.ports.as_mut_slice(), 3)?;
    let before = forget_made(rt, &node.host)?;
    if let Some(outlet) = node.outlets.pop() {
        let _ = node.host.give_up(rt, outlet);
    }
    let after = forget_made(rt, &node.host)?;
    close(rt, text, node)?;
    Ok([before, after])
}

/// A node forgets nothing until an outlet whose frames nobody takes was given up.
#[test]
fn an_outlet_that_is_given_up_late(rt: HostRuntime) -> Result<(), Fail> {
    let mut text = String::new(rt.alloc());
    let counts = give_up_late::<PlumCore, _>(&rt, rt.alloc(), &mut text)?;
    assert!(rt;
        counts == [0, 4] && text.as_str() == GIVEN_UP,
        "{counts:?}: {text}"
    );
    Ok(())
}

/// Whether the ports of a node are refused because its trace is full.
fn are_refused<R: Wait, C: NodeCore<Global> + Drop>(
    rt: &R,
    alloc: Global,
    ports: &mut [Port<C>],
) -> bool {
    broadcast_by_each(rt, alloc, ports) == Err(HostError::TraceFull)
}

/// Fills a node's trace. Returns whether it refuses to broadcast, also when it was to forget, and forgets all once its
/// outlet was compared. Then broadcasts once more.
fn makes_room<R: Wait, C: NodeCore<Global> + Drop>(
    rt: &R,
    alloc: Global,
    node: &mut Node<C>,
    outlet: &mut Outlet,
) -> Result<bool, HostError> {
    broadcast_many(rt, alloc, node.ports.as_mut_slice(), STEPS)?;
    let is_full = are_refused(rt, alloc, node.ports.as_mut_slice());
    let before = forget_made(rt, &node.host)?;
    let stays_full = are_refused(rt, alloc, node.ports.as_mut_slice());
    pop_all(outlet, STEPS)?;
    node.host.compare(rt, outlet);
    let after = forget_made(rt, &node.host)?;
    broadcast_by_each(rt, alloc, node.ports.as_mut_slice())?;
    Ok(is_full && before == 0 && stays_full && after == STEPS)
}

/// Whether a node whose trace is full makes room. Replaces the text with what it leaves.
fn goes_on<C, R>(rt: &R, alloc: Global, text: &mut String) -> Result<bool, HostError>
where
    C: TestedCore<Global> + Drop,
    R: Threads + Wait + Abort,
{
    let mut node: Node<C> = start_lasting(rt, alloc, STEPS)?;
    let Some(mut outlet) = node.outlets.pop() else {
        return Ok(false);
    };
    let is_right = makes_room(rt, alloc, &mut node, &mut outlet)?;
    keep(&mut node.workers, node.host.rest(outlet))?;
    close(rt, text, node)?;
    Ok(is_right)
}

/// A node that may have ten steps refuses the eleventh until its outlet was compared and it has forgotten the others.
#[test]
fn a_full_trace(rt: HostRuntime) -> Result<(), Fail> {
    let mut text = String::new(rt.alloc());
    let is_right = goes_on::<PlumCore, _>(&rt, rt.alloc(), &mut text)?;
    assert!(rt; is_right && text.as_str() == ONE_MORE, "{text}");
    Ok(())
}

/// Broadcasts over a link that always has frames, and has the node forget now and then. Returns how many steps it
/// forgot, or `None` if the writer of the link does not keep pace.
fn forget_between<R: Wait + Clock, C: NodeCore<Global> + Drop>(
    rt: &R,
    alloc: Global,
    node: &mut Node<C>,
    pace: &Pace,
) -> Result<Option<usize>, HostError> {
    let mut count: usize = 0;
    for number in 0..BUSY {
        broadcast_many(rt, alloc, node.ports.as_mut_slice(), 1)?;
        if !pace.lead(rt) {
            return Ok(None);
        }
        if number % 5 == 0 {
            count = count.saturating_add(node.host.forget_made(rt)?);
        }
    }
    Ok(Some(count))
}

/// Has a node forget while its link always has frames, and closes it. Returns how many steps it forgot before the last
/// frame was written, and whether it leaves all others.
fn forget_busily<C, R>(rt: R, alloc: Global) -> Result<(Option<usize>, bool), HostError>
where
    C: TestedCore<Global> + Drop + Send + 'static,
    R: Threads + Wait + Clock + Abort + Copy + Send + Drop + 'static,
{
    let pace = Pace::shared(alloc)?;
    let mut node: Node<C> = start_lasting(&rt, alloc, BUSY)?;
    let dialler = PacedDialler {
        rt,
        pace: Arc::try_clone(&pace)?,
    };
    start_writer(rt, &mut node, dialler)?;
    let count = forget_between(&rt, alloc, &mut node, &pace)?;
    pace.end();
    Ok((count, closes_with_rest(&rt, node, BUSY)))
}

/// A node whose link has a frame more whenever one was written forgets steps all the same, and closes with the others.
#[test]
fn a_link_that_always_has_frames(rt: HostRuntime) -> Result<(), Fail> {
    let (count, is_right) = forget_busily::<PlumCore, _>(rt, rt.alloc())?;
    assert!(rt;
        is_right && count.is_some_and(|count| count > 0),
        "{count:?} were forgotten"
    );
    Ok(())
}
