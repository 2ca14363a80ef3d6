//! The part of a run that is measured.
use crate::groups::overlay::Group;
use crate::groups::usage::{Usage, read_usage};
use loopback::Watch;
use std::io::Print;
use std::rt::Files;
use std::time::{Clock, Duration, Instant};

/// For this many turns of five milliseconds nothing is done before and after what is measured, so that whoever reads
/// the lines that are printed then has time to look at the process.
const PAUSE: u32 = 4;

/// How long a tick takes, in milliseconds.
const TICK: u64 = 20;

/// How many messages are broadcast in a turn at most where they are paced.
const BATCH: usize = 16;

/// How far a run is.
#[derive(Clone, Copy, Debug)]
enum Stage {
    /// Nothing was broadcast.
    Cold,
    /// The message that makes the tree was broadcast.
    Warming,
    /// All nodes have delivered it.
    Warm,
    /// The others are being broadcast.
    Begun,
    /// All nodes have delivered all messages.
    Over,
}

/// The part of a run that is measured. It lets the first message, which makes the tree, be broadcast alone, and the
/// others once all nodes have delivered it. When all nodes have delivered all messages, or the ticks are over, it ends
/// the run. It prints the lines `warm` and `over` before and after what is measured.
#[derive(Drop)]
pub(crate) struct Phase<R: Drop> {
    rt: R,
    nodes: usize,
    /// How many deliveries there are at the end.
    wanted: usize,
    /// When it began, if the clock can be read, and how long it may take.
    start: Option<Instant>,
    limit: Duration,
    /// How many messages may be broadcast in a tick, or 0 for as many as can be.
    pace: usize,
    /// How many of them are left in this tick.
    left: usize,
    stage: Stage,
    /// For how many more turns nothing is done.
    pause: u32,
    /// What the process had used before the second message, if that can be read.
    begin: Option<Usage>,
    /// What it had used after the last delivery.
    end: Option<Usage>,
}

impl<R: Clock + Drop> Phase<R> {
    /// Makes the phase of a run of this group that is about to begin.
    pub(crate) fn new(rt: R, group: &Group) -> Phase<R> {
        let start = Instant::now(&rt).ok();
        Phase {
            rt,
            nodes: group.nodes,
            wanted: group.nodes.saturating_mul(group.messages),
            start,
            limit: Duration::from_millis(u64::from(group.ticks).saturating_mul(TICK)),
            pace: group.pace,
            left: 0,
            stage: Stage::Cold,
            pause: PAUSE,
            begin: None,
            end: None,
        }
    }

    /// How many messages may be broadcast in the next turn.
    fn paced(&mut self) -> usize {
        if self.pace == 0 {
            return usize::MAX;
        }
        let most = self.left.min(BATCH);
        self.left = self.left.saturating_sub(most);
        most
    }

    /// Whether its ticks are over.
    fn is_late(&self) -> bool {
        match self.start {
            Some(start) => start.elapsed(&self.rt).is_ok_and(|time| time > self.limit),
            None => false,
        }
    }

    /// What the process used in the phase, and what memory and threads it had at the end, once the phase is over.
    pub(crate) fn used(&self) -> Option<Usage> {
        let end = self.end?;
        Some(Usage {
            processor: end.processor.saturating_sub(self.begin?.processor),
            memory: end.memory,
            peak: end.peak,
            threads: end.threads,
        })
    }
}

impl<R: AllocGlobal + Print + Files + Drop> Phase<R> {
    /// Goes on to this stage, and prints the word. A failure to print it is ignored, since no one reads it then.
    fn enter(&mut self, stage: Stage, word: &str) {
        self.stage = stage;
        self.pause = PAUSE;
        let _ = println!(self.rt; "{word}");
    }
}

impl<R: AllocGlobal + Print + Files + Clock + Drop> Watch for Phase<R> {
    fn look(&mut self, _ticks: u64, _of: u32, deliveries: usize) {
        self.left = self.pace;
        match self.stage {
            Stage::Warming if deliveries >= self.nodes => self.enter(Stage::Warm, "warm"),
            Stage::Begun if deliveries >= self.wanted => {
                self.end = read_usage(&self.rt).ok();
                self.enter(Stage::Over, "over");
            }
            _ => {}
        }
    }

    fn allow(&mut self) -> Option<usize> {
        if self.is_late() {
            return None;
        }
        match self.stage {
            Stage::Cold => {
                self.stage = Stage::Warming;
                Some(1)
            }
            Stage::Warming => Some(0),
            Stage::Begun => Some(self.paced()),
            Stage::Warm | Stage::Over if self.pause > 0 => {
                self.pause = self.pause.saturating_sub(1);
                Some(0)
            }
            Stage::Warm => {
                self.begin = read_usage(&self.rt).ok();
                self.stage = Stage::Begun;
                Some(usize::MAX)
            }
            Stage::Over => None,
        }
    }
}
