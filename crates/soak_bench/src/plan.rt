//! What is done at which tick.

/// How long a tick takes, in milliseconds.
pub(crate) const TICK: u64 = 10;

/// How many ticks a second has.
pub(crate) const TICKS_OF_A_SECOND: u64 = 100;

/// For how many ticks a peer may keep a node waiting.
pub(crate) const PATIENCE: u64 = 16;

/// How many ticks the nodes have to find peers again once they are left in peace.
const CALM: u64 = 60;

/// For how many ticks the nodes broadcast undisturbed.
const SPEECH: u64 = 10;

/// How many ticks what was broadcast may take at most to be delivered.
const REST: u64 = 3_000;

/// How many rounds are begun: in those but the last a view moved.
const ROUNDS: u64 = 50;

/// What is done at a tick.
#[derive(Clone, Copy, Debug, PartialEq, Eq)]
pub(crate) enum Phase {
    /// The nodes broadcast, and are disturbed.
    Trouble,
    /// Nothing is done.
    Calm,
    /// The nodes broadcast undisturbed.
    Speech,
    /// What they broadcast is to be delivered.
    Rest,
    /// It took too long.
    Late,
}

/// Which ticks have which phase.
#[derive(Clone, Copy, Debug)]
pub(crate) struct Plan {
    /// For how many ticks the nodes are disturbed.
    trouble: u64,
    /// The tick at which the nodes begin to broadcast undisturbed.
    begin: u64,
    /// How many times they have begun.
    pub(crate) rounds: u64,
    /// Whether it is told each second what the process uses.
    pub(crate) is_measured: bool,
}

impl Plan {
    /// The plan of a run in which the nodes are disturbed for so many ticks.
    pub(crate) fn new(trouble: u64, is_measured: bool) -> Plan {
        Plan {
            trouble,
            begin: trouble.saturating_add(CALM),
            rounds: 1,
            is_measured,
        }
    }

    /// What is done at this tick.
    pub(crate) fn phase(&self, now: u64) -> Phase {
        if now < self.trouble {
            Phase::Trouble
        } else if now < self.begin {
            Phase::Calm
        } else if now < self.begin.saturating_add(SPEECH) {
            Phase::Speech
        } else if now < self.begin.saturating_add(REST) {
            Phase::Rest
        } else {
            Phase::Late
        }
    }

    /// The tick at which the nodes begin to broadcast undisturbed.
    pub(crate) fn begin(&self) -> u64 {
        self.begin
    }

    /// Has them begin again in some ticks. Returns whether they may.
    pub(crate) fn begin_again(&mut self, now: u64) -> bool {
        self.begin = now.saturating_add(CALM);
        self.rounds = self.rounds.saturating_add(1);
        self.rounds <= ROUNDS
    }
}
