//! How often a thread that runs engines looks at them.
use std::thread;
use std::time::{Clock, Duration};

/// How many milliseconds pass between two turns while there is something to do.
const TURN: u64 = 5;

/// The same after a turn in which there was nothing to do.
const IDLE_TURN: u64 = 20;

/// How many milliseconds pass before a failed call is made again.
const PAUSE: u64 = 5;

/// How many links may have a writer before unused links lose theirs sooner: each takes two of the 1,024 descriptors
/// that a process usually has, and the 64 nodes of a large group may each open one more in a turn.
const MANY_LINKS: usize = 330;

/// For how many ticks an unused link that goes to no neighbour keeps its writer: a node that asked to become a
/// neighbour may be waiting for the answer, and the end of the connection would withdraw its request.
const LONG_IDLE: u64 = 25;

/// The same if more than `MANY_LINKS` links have a writer.
const SHORT_IDLE: u64 = 5;

/// For how many ticks an unused link that goes to no neighbour keeps its writer if so many links have one.
pub(crate) fn idle_ticks(written: usize) -> u64 {
    if written > MANY_LINKS {
        SHORT_IDLE
    } else {
        LONG_IDLE
    }
}

/// Waits for the next turn: a short time if there was something to do in the last one.
pub(crate) fn pause_after<R: Clock>(rt: &R, is_busy: bool) {
    let millis = if is_busy { TURN } else { IDLE_TURN };
    thread::sleep(rt, Duration::from_millis(millis));
}

/// Waits a little before a failed call is made again.
pub(crate) fn pause<R: Clock>(rt: &R) {
    thread::sleep(rt, Duration::from_millis(PAUSE));
}
