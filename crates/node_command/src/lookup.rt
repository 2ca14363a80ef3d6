//! The thread that looks hosts up.
use crossbeam_utils::sync::{Parker, Unparker};
use mio::Waker;
use node_names::NodeName;
use rtrb::{Consumer, Producer, RingBuffer};
use std::alloc::{AllocError, Global};
use std::net::{Net, SocketAddr, TcpListener, TcpStream, ToSocketAddrs};
use std::sync::Wait;
use std::thread::{JoinHandle, Threads};
use std::time::{Clock, Duration};
use std::{io, thread};

/// How many hosts wait at most to be looked up.
const ROOM: usize = 64;

/// For how many milliseconds the thread sleeps at most before it looks whether the loop has ended.
const SLEEP: u64 = 1_000;

/// A host that is to be looked up for a name.
#[derive(Drop)]
pub(crate) struct Question {
    pub(crate) name: NodeName,
    pub(crate) host: String,
    pub(crate) port: u16,
}

/// What was found for a name.
#[derive(Clone, Copy)]
pub(crate) struct Finding {
    pub(crate) name: NodeName,
    pub(crate) at: Option<SocketAddr>,
}

/// The loop's end of the thread that looks hosts up.
#[derive(Drop)]
pub(crate) struct Lookup {
    questions: Producer<Question, Global>,
    findings: Consumer<Finding, Global>,
    unparker: Unparker<Global>,
}

/// The thread's end.
#[derive(Drop)]
pub(crate) struct Desk {
    questions: Consumer<Question, Global>,
    findings: Producer<Finding, Global>,
    parker: Parker<Global>,
}

impl Lookup {
    /// Makes both ends.
    pub(crate) fn new(alloc: Global) -> Result<(Lookup, Desk), AllocError> {
        let (asked, questions) = RingBuffer::new(alloc, ROOM)?;
        let (told, findings) = RingBuffer::new(alloc, ROOM)?;
        let parker = Parker::new(alloc)?;
        let unparker = parker.unparker().clone()?;
        let lookup = Lookup {
            questions: asked,
            findings,
            unparker,
        };
        let desk = Desk {
            questions,
            findings: told,
            parker,
        };
        Ok((lookup, desk))
    }

    /// Has a host be looked up. Returns whether there was room for the question.
    pub(crate) fn ask(&mut self, question: Question) -> bool {
        let is_taken = self.questions.push(question).is_ok();
        self.unparker.unpark();
        is_taken
    }

    /// Takes what was found next, if anything was.
    pub(crate) fn next(&mut self) -> Option<Finding> {
        self.findings.pop().ok()
    }
}

/// Looks a host up.
fn look_up<R: Net>(rt: &R, question: &Question) -> Option<SocketAddr> {
    let Question { host, port, .. } = question;
    (host.as_str(), *port).to_socket_addrs(rt).ok()?.next()
}

impl Desk {
    /// Looks hosts up until the loop has ended. Wakes it for each that was looked up.
    fn work<R: Wait + Clock + Net>(&mut self, rt: &R, waker: &Waker) {
        for _ in 0..u64::MAX {
            if self.questions.is_abandoned() {
                return;
            }
            match self.questions.pop() {
                Ok(question) => self.answer(rt, &question, waker),
                Err(_) => self.parker.park_timeout(rt, Duration::from_millis(SLEEP)),
            }
        }
    }

    /// Looks a host up, and tells what was found. As many findings have room as questions.
    fn answer<R: Net>(&mut self, rt: &R, question: &Question, waker: &Waker) {
        let finding = Finding {
            name: question.name,
            at: look_up(rt, question),
        };
        let _ = self.findings.push(finding);
        let _ = waker.wake();
    }
}

/// Starts the thread.
pub(crate) fn start<R>(rt: R, mut desk: Desk, waker: Waker) -> io::Result<JoinHandle<()>>
where
    R: Threads
        + Wait
        + Clock
        + Net<Listener = TcpListener, Stream = TcpStream>
        + Copy
        + Send
        + Drop
        + 'static,
{
    Ok(thread::spawn(&rt, move || { desk.work(&rt, &waker) })?)
}
