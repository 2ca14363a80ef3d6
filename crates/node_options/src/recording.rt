//! How a node's record is kept.

/// When what is recorded is written to the disk, so that a crash of the system does not lose it.
#[derive(Clone, Copy, Debug, PartialEq, Eq)]
pub enum RecordSync {
    /// Before what follows from it leaves the node.
    Always,
    /// Each second.
    Second,
    /// When the system does so by itself.
    Never,
}

/// What becomes of a node whose record cannot be written.
#[derive(Clone, Copy, Debug, PartialEq, Eq)]
pub enum RecordFailure {
    /// It ends.
    Stop,
    /// It goes on without a record.
    GoOn,
}

impl RecordSync {
    ghost use Rattle.std.specs.Prelude.{◌≡◌, IfSome};
    ghost use Rattle.node_options.specs.Words.{sync_word};

    /// What this word says, if it says when.
    pub(crate) fn of_word(word: &str) -> Option<RecordSync>
        ensures { IfSome result (λ sync. word.now ≡ sync_word sync) }
    {
        if word == "always" {
            Some(RecordSync::Always)
        } else if word == "second" {
            Some(RecordSync::Second)
        } else if word == "never" {
            Some(RecordSync::Never)
        } else {
            None
        }
    }
}

impl RecordFailure {
    ghost use Rattle.std.specs.Prelude.{◌≡◌, IfSome};
    ghost use Rattle.node_options.specs.Words.{failure_word};

    /// What this word says, if it says what becomes of the node.
    pub(crate) fn of_word(word: &str) -> Option<RecordFailure>
        ensures { IfSome result (λ failure. word.now ≡ failure_word failure) }
    {
        if word == "stop" {
            Some(RecordFailure::Stop)
        } else if word == "go-on" {
            Some(RecordFailure::GoOn)
        } else {
            None
        }
    }
}
