//! The thread that reads standard input, and has each line be broadcast.
use crate::line_reader::{Found, LineReader};
use crate::log::Log;
use bytes::Bytes;
use loop_ports::{PortError, PortFault, PortSender};
use node_options::Level;
use protocol::MAX_PAYLOAD;
use std::alloc::{AllocError, Global};
use std::io::{BufReader, Eprint, Input, StdinLock};
use std::thread::{JoinHandle, Threads};
use std::time::{Clock, Duration};
use std::{fmt, io, thread};

/// For how many milliseconds the thread waits before it hands in a line again for which there was no room.
const PAUSE: u64 = 5;

/// For how many seconds the thread sleeps at once, where nothing more is to be read.
const SLEEP: u64 = 3_600;

/// What the thread says of the input.
#[derive(Clone, Copy, Drop)]
enum Remark {
    TooLong,
    Failed(io::Error),
}

impl fmt::Display for Remark {
    fn fmt<W: fmt::Write>(&self, f: &mut fmt::Formatter<W>) -> fmt::Result {
        match self {
            Remark::TooLong => write!(f, "a line of more than {MAX_PAYLOAD} bytes is left out"),
            Remark::Failed(error) => write!(f, "cannot read standard input: {error}"),
        }
    }
}

/// Hands in a line, as soon as there is room for it. Returns whether lines are taken still.
fn hand_in<R: Clock>(
    rt: &R,
    alloc: Global,
    sender: &mut PortSender,
    line: &[u8],
) -> Result<bool, AllocError> {
    let mut payload = Bytes::copy_from_slice(alloc, line)?;
    for _ in 0..u64::MAX {
        match sender.broadcast(payload) {
            Ok(()) => return Ok(true),
            Err(
                PortError {
                    payload: given,
                    fault: PortFault::Full,
                },
            ) => payload = given,
            Err(_) => return Ok(false),
        }
        thread::sleep(rt, Duration::from_millis(PAUSE));
    }
    Ok(false)
}

/// Has each line of standard input be broadcast, until its end.
fn read_all<R: Input + Eprint + Clock>(
    rt: &R,
    alloc: Global,
    log: &Log<R>,
    sender: &mut PortSender,
) -> io::Result<()> {
    let mut input = BufReader::new(alloc, rt.reader())?;
    let mut reader = LineReader::new(alloc, MAX_PAYLOAD);
    for _ in 0..u64::MAX {
        match reader.read(&mut input)? {
            Found::Line => {
                if !hand_in(rt, alloc, sender, reader.line())? {
                    return Ok(());
                }
            }
            Found::TooLong => log.say(Level::Error, &Remark::TooLong),
            Found::End => return Ok(()),
        }
    }
    Ok(())
}

/// Has each line of standard input be broadcast. At its end, and where it cannot be read, the sender is dropped, so
/// that the node ends, if it is to end then. Else it is kept.
fn read_input<R: Input + Eprint + Clock>(
    rt: &R,
    alloc: Global,
    log: &Log<R>,
    mut sender: PortSender,
    ends: bool,
) {
    if let Err(error) = read_all(rt, alloc, log, &mut sender) {
        log.say(Level::Error, &Remark::Failed(error));
    }
    if ends {
        return;
    }
    for _ in 0..u64::MAX {
        if sender.has_ended() {
            return;
        }
        thread::sleep(rt, Duration::from_secs(SLEEP));
    }
}

/// Starts the thread. `ends`: whether the node ends with its input.
pub(crate) fn start<R>(
    rt: R,
    alloc: Global,
    log: Log<R>,
    sender: PortSender,
    ends: bool,
) -> io::Result<JoinHandle<()>>
where
    R: Threads + Input<Reader = StdinLock<'static>> + Eprint + Clock + Copy + Send + Drop + 'static,
{
    Ok(thread::spawn(&rt, move || { read_input(&rt, alloc, &log, sender, ends) })?)
}
