//! The errors of reading a scenario.
ghost use Rattle.std.specs.Prelude.{◌≡◌, Some};
ghost use Rattle.scenario.specs.Key.{word_of};

use std::alloc::{AllocError, AllocFailed};
use std::fmt;
use thiserror::Error;

/// Why a scenario is not played.
#[derive(Clone, Copy, Debug, PartialEq, Eq, Error)]
pub enum ScenarioError {
    /// The input could not be read.
    #[error("cannot read scenario")]
    Unreadable,
    /// The input has more bytes than a scenario may have.
    #[error("scenario too long")]
    TooLong,
    /// The input is not a TOML document.
    #[error("scenario is not TOML")]
    NotToml,
    /// A key is missing, or its value has the wrong type or is out of range.
    #[error("scenario: {place}: {key}")]
    Refused { place: Place, key: Key },
    /// There was no memory left to read it.
    #[error("out of memory")]
    OutOfMemory,
}

impl From<AllocError> for ScenarioError {
    ghost use Rattle.scenario.specs.declared.error.ScenarioError.TheVariants.{OutOfMemory};

    ghost from_gives = { λ _ fault. fault ≡ OutOfMemory };

    fn from(_error: AllocError) -> ScenarioError {
        ScenarioError::OutOfMemory
    }
}

impl<T: Drop> From<AllocFailed<T>> for ScenarioError {
    ghost use Rattle.scenario.specs.declared.error.ScenarioError.TheVariants.{OutOfMemory};

    ghost from_gives = { λ _ fault. fault ≡ OutOfMemory };

    fn from(_error: AllocFailed<T>) -> ScenarioError {
        ScenarioError::OutOfMemory
    }
}

/// The table of a scenario that a key belongs to.
#[derive(Clone, Copy, Debug, PartialEq, Eq, Error)]
pub enum Place {
    /// The document itself.
    #[error("top")]
    Top,
    /// The limits of the nodes.
    #[error("limits")]
    Limits,
    /// An event, counted from 0.
    #[error("event {0}")]
    Event(usize),
    /// A node that is to run, counted from 0.
    #[error("node {0}")]
    Node(usize),
}

/// A key of a scenario, or the limits taken together. It prints as it is written in a scenario.
#[derive(Clone, Copy, Debug, PartialEq, Eq)]
pub enum Key {
    Seed,
    Limits,
    Event,
    Active,
    Passive,
    Arwl,
    Prwl,
    Ka,
    Kp,
    Threshold,
    Keep,
    /// Each limit is in its range, but they are inconsistent with each other.
    LimitsTogether,
    Do,
    Node,
    Incarnation,
    Peers,
    Contact,
    Text,
    Place,
    Number,
    Origin,
    Seq,
    Peer,
    Ticks,
    Name,
    Port,
    Say,
}

impl Key {
    /// The key as it is written.
    pub fn word(self) -> &'static str
        ensures { result.now ≡ word_of self }
    {
        match self {
            Key::Seed => "seed",
            Key::Limits => "limits",
            Key::Event => "event",
            Key::Active => "active",
            Key::Passive => "passive",
            Key::Arwl => "arwl",
            Key::Prwl => "prwl",
            Key::Ka => "ka",
            Key::Kp => "kp",
            Key::Threshold => "threshold",
            Key::Keep => "keep",
            Key::LimitsTogether => "N4",
            Key::Do => "do",
            Key::Node => "node",
            Key::Incarnation => "incarnation",
            Key::Peers => "peers",
            Key::Contact => "contact",
            Key::Text => "text",
            Key::Place => "place",
            Key::Number => "number",
            Key::Origin => "origin",
            Key::Seq => "seq",
            Key::Peer => "peer",
            Key::Ticks => "ticks",
            Key::Name => "name",
            Key::Port => "port",
            Key::Say => "say",
        }
    }
}

impl fmt::Display for Key {
    ghost output = { λ key. Some (word_of key) };

    fn fmt<W: fmt::Write>(&self, f: &mut fmt::Formatter<W>) -> fmt::Result {
        f.write_str(self.word())
    }
}
