//! Writers that wait for each other.
ghost use Rattle.std.specs.Prelude.{◌≡◌, None, IsTrue, OnOk, OnErr, false};
ghost use Rattle.std.specs.Io.{WritesAtMost};
ghost use Rattle.links.specs.Counting.{has_risen, moves_none};

use crate::tests::ends::broadcast_by_each;
use crate::tests::node::{LOOKS, Node, TestedCore, close, keep, start};
use links::{LinkEnd, MeteredWrite};
use node_core::PlumCore;
use node_threads::{CloseError, Dialler, HostError, NodeCore, OpenGate, Outlet, write_link};
use std::alloc::Global;
use std::io::{ErrorKind, Write};
use std::process::Abort;
use std::sync::{Arc, Mutex, Wait};
use std::test::Fail;
use std::thread::Threads;
use std::time::{Clock, Duration};
use std::{io, mem, thread};

/// How often a writer checks whether the others have begun.
const WRITER_LOOKS: u32 = 1_000;

/// What a node leaves that broadcast three times, if all frames came out of its two links.
const THREE_BROADCASTS: &str =
    "a/1 among p q | broadcast hello; a/1 delivers a/1/1 hello; to p a/1#1 GOSSIP a/1/1 0 hello; to q a/1#2 GOSSIP a/1/1 0 hello | broadcast hello; a/1 delivers a/1/2 hello; to p a/1#3 GOSSIP a/1/2 0 hello; to q a/1#4 GOSSIP a/1/2 0 hello | broadcast hello; a/1 delivers a/1/3 hello; to p a/1#5 GOSSIP a/1/3 0 hello; to q a/1#6 GOSSIP a/1/3 0 hello | handed out 0; 3 to p from 0; 3 to q from 0";

/// How many writes have begun, how many are done, and how many bytes those had.
#[derive(Drop)]
struct Progress {
    begun: usize,
    done: usize,
    bytes: usize,
}

/// The place where writers meet.
#[derive(Drop)]
struct Meeting {
    progress: Mutex<Progress>,
}

impl Meeting {
    /// Makes a meeting to which no one has come.
    fn new() -> Meeting {
        Meeting {
            progress: Mutex::new(Progress {
                begun: 0,
                done: 0,
                bytes: 0,
            }),
        }
    }

    /// Records that a write has begun.
    fn begin<R: Wait>(&self, rt: &R) {
        let mut progress = self.progress.lock(rt);
        progress.begun = progress.begun.saturating_add(1);
    }

    /// Waits for a while until at least `count` writes have begun. Returns whether they have.
    fn have_begun<R: Wait + Clock>(&self, rt: &R, count: usize) -> bool {
        for _ in 0..WRITER_LOOKS {
            if self.progress.lock(rt).begun >= count {
                return true;
            }
            thread::sleep(rt, Duration::from_millis(5));
        }
        false
    }

    /// Records that a write of `bytes` bytes is done.
    fn finish<R: Wait>(&self, rt: &R, bytes: usize) {
        let mut progress = self.progress.lock(rt);
        progress.done = progress.done.saturating_add(1);
        progress.bytes = progress.bytes.saturating_add(bytes);
    }

    /// Returns how many bytes were written.
    fn bytes<R: Wait>(&self, rt: &R) -> usize {
        self.progress.lock(rt).bytes
    }

    /// Waits until at least `count` writes are done. Returns whether they are.
    fn wait_for<R: Wait + Clock>(&self, rt: &R, count: usize) -> bool {
        for _ in 0..LOOKS {
            if self.progress.lock(rt).done >= count {
                return true;
            }
            thread::sleep(rt, Duration::from_millis(5));
        }
        false
    }
}

/// A connection whose writes return once `count` writes of its meeting have begun, and fail if they do not begin.
#[derive(Drop)]
struct Met<R: Wait + Clock + Drop> {
    rt: R,
    meeting: Arc<Meeting, Global>,
    count: usize,
    failures: u64,
}

impl<R: Wait + Clock + Drop> Write for Met<R> {
    ghost contents = { λ _. None };

    fn write(&mut self, buf: &[u8]) -> io::Result<usize>
        ensures bound { WritesAtMost result buf.now }
        ensures last { moves_none result buf.now ≡ false }
        ensures ok { OnOk result (self.new.failures ≡ self.old.failures) }
        ensures err { OnErr result (IsTrue (has_risen self.old.failures self.new.failures)) }
    {
        self.meeting.begin(&self.rt);
        if !self.meeting.have_begun(&self.rt, self.count) {
            self.failures = self.failures.saturating_add(1);
            return Err(io::Error::from(ErrorKind::Other));
        }
        self.meeting.finish(&self.rt, buf.len());
        Ok(buf.len())
    }

    fn flush(&mut self) -> io::Result<()> {
        Ok(())
    }
}

impl<R: Wait + Clock + Drop> MeteredWrite for Met<R> {
    ghost failed = { λ w. w.failures };

    ghost took_none = { λ w. false };

    fn failures(&self) -> u64 {
        self.failures
    }

    fn write_counted(&mut self, buf: &[u8]) -> io::Result<usize> {
        self.write(buf)
    }
}

/// Makes such connections.
#[derive(Drop)]
struct MeetingDialler<R: Wait + Clock + Copy + Drop> {
    rt: R,
    meeting: Arc<Meeting, Global>,
    count: usize,
}

impl<R: Wait + Clock + Copy + Drop + Send> Dialler for MeetingDialler<R> {
    type Writer = Met<R>;

    fn dial(&mut self) -> Result<Met<R>, LinkEnd> {
        match Arc::try_clone(&self.meeting) {
            Ok(meeting) => Ok(Met {
                rt: self.rt,
                meeting,
                count: self.count,
                failures: 0,
            }),
            Err(_) => Err(LinkEnd::OutOfMemory),
        }
    }
}

/// Starts writers of these outlets for a node. Their writes return once all have begun.
fn start_writers<C, R>(
    rt: R,
    node: &mut Node<C>,
    outlets: Vec<Outlet>,
    meeting: &Arc<Meeting, Global>,
) -> Result<(), HostError>
where
    C: NodeCore<Global> + Drop + Send + 'static,
    R: Threads + Wait + Clock + Copy + Send + Drop + 'static,
{
    let count = outlets.len();
    for outlet in outlets {
        let dialler = MeetingDialler {
            rt,
            meeting: Arc::try_clone(meeting)?,
            count,
        };
        let writer = write_link(rt, &node.host, OpenGate, 0, outlet, dialler)?;
        keep(&mut node.workers, writer)?;
    }
    Ok(())
}

/// Closes a node without its workers. Returns the node, still with its workers, if the close finds them missing.
fn close_without_workers<C: NodeCore<Global> + Drop, R: Threads + Wait>(
    rt: &R,
    alloc: Global,
    node: Node<C>,
) -> Option<Node<C>> {
    let Node {
        host,
        ports,
        outlets,
        workers,
    } = node;
    match host.close(rt, ports, Vec::new(alloc)) {
        Err(CloseError::PortMissing { host, ports, .. }) => Some(Node {
            host,
            ports,
            outlets,
            workers,
        }),
        _other => None,
    }
}

/// Writes two links of a node at the same time, and broadcasts twice more. Returns whether the first writes were done.
fn write_both<C, R>(
    rt: R,
    alloc: Global,
    node: &mut Node<C>,
    meeting: &Arc<Meeting, Global>,
) -> Result<bool, HostError>
where
    C: NodeCore<Global> + Drop + Send + 'static,
    R: Threads + Wait + Clock + Copy + Send + Drop + 'static,
{
    let outlets = mem::replace(&mut node.outlets, Vec::new(alloc));
    start_writers(rt, node, outlets, meeting)?;
    broadcast_by_each(&rt, alloc, node.ports.as_mut_slice())?;
    let is_written = meeting.wait_for(&rt, 2);
    broadcast_by_each(&rt, alloc, node.ports.as_mut_slice())?;
    broadcast_by_each(&rt, alloc, node.ports.as_mut_slice())?;
    Ok(is_written)
}

/// Writes two links of a node at the same time, and closes it without its writers and then with them. Returns whether
/// the links were written, and the first close finds the writers missing. Replaces the text with the answer to the
/// second one.
fn write_at_once<C, R>(
    rt: R,
    alloc: Global,
    text: &mut String,
    meeting: &Arc<Meeting, Global>,
) -> Result<bool, HostError>
where
    C: TestedCore<Global> + Drop + Send + 'static,
    R: Threads + Wait + Clock + Abort + Copy + Send + Drop + 'static,
{
    let mut node: Node<C> = start(&rt, alloc, "a", "p q", 1)?;
    let is_written = write_both(rt, alloc, &mut node, meeting)?;
    match close_without_workers(&rt, alloc, node) {
        Some(node) => {
            close(&rt, text, node)?;
            Ok(is_written)
        }
        None => Ok(false),
    }
}

/// Two links are written at the same time. Closing the node without its writers finds them missing. With them, the node
/// made three steps, three frames came out of each link, and all bytes of these frames, 55 each, were written.
#[test]
fn writers_at_once(rt: HostRuntime) -> Result<(), Fail> {
    let mut text = String::new(rt.alloc());
    let meeting = Arc::new(rt.alloc(), Meeting::new())?;
    let is_right = write_at_once::<PlumCore, _>(rt, rt.alloc(), &mut text, &meeting)?;
    let are_whole = meeting.bytes(&rt) == 6 * 55;
    assert!(rt;
        is_right && are_whole && text.as_str() == THREE_BROADCASTS,
        "{text}"
    );
    Ok(())
}

/// Writes an outlet of a node by a worker of another one. Returns whether it was written. Replaces the text with the
/// answer to the close of the worker's node.
fn write_of_another<C, R>(
    rt: R,
    alloc: Global,
    text: &mut String,
    meeting: &Arc<Meeting, Global>,
) -> Result<bool, HostError>
where
    C: TestedCore<Global> + Drop + Send + 'static,
    R: Threads + Wait + Clock + Abort + Copy + Send + Drop + 'static,
{
    let mut node: Node<C> = start(&rt, alloc, "a", "p q", 0)?;
    let mut other: Node<C> = start(&rt, alloc, "b", "p q", 1)?;
    let mut outlets = mem::replace(&mut other.outlets, Vec::new(alloc));
    outlets.truncate(1);
    start_writers(rt, &mut node, outlets, meeting)?;
    broadcast_by_each(&rt, alloc, other.ports.as_mut_slice())?;
    node.host.stop(&rt);
    let is_written = meeting.wait_for(&rt, 1);
    close(&rt, text, node)?;
    Ok(is_written)
}

/// A node whose writer was handed the outlet of another node finds that what came out of it is not what it sent.
#[test]
fn outlet_of_another_node(rt: HostRuntime) -> Result<(), Fail> {
    let mut text = String::new(rt.alloc());
    let meeting = Arc::new(rt.alloc(), Meeting::new())?;
    let is_written = write_of_another::<PlumCore, _>(rt, rt.alloc(), &mut text, &meeting)?;
    assert!(rt;
        is_written && text.as_str() == "torn to p: a/1 among p q",
        "{text}"
    );
    Ok(())
}
