//! Why a node's options are refused.

use std::alloc::{AllocError, AllocFailed};
use std::fmt;
use thiserror::Error;

/// Why a node's options are refused. Displays what the user is told.
#[derive(Debug, Drop, Error)]
pub enum OptionError {
    /// The file is not TOML. Holds what is wrong, in a few words.
    #[error("{line}: no TOML: {fault}")]
    NotToml {
        line: ConfigLine,
        fault: String,
    },
    /// The file has a key that is no option.
    #[error("{line}: unknown key \"{key}\"")]
    UnknownKey {
        line: ConfigLine,
        key: String,
    },
    /// A value is not what its option wants. Holds the value as it was written.
    #[error("{place}: {value} is {wanted}")]
    Refused {
        place: Place,
        value: String,
        wanted: Wanted,
    },
    /// Two peers have this name.
    #[error("{place}: {value} is the second of its name")]
    SecondPeer {
        place: Place,
        value: String,
    },
    /// The node itself is among its contacts.
    #[error("a contact is the node itself")]
    OwnContact,
    /// The node listens at all its addresses, and was not told which of them others can reach.
    #[error("--advertise is needed, since --listen has no address that others can reach")]
    NoAdvertise,
    /// Each limit is in its range, but they are inconsistent with each other.
    #[error("the limits do not fit together: prwl is at most arwl, and ka and kp are at most 7 in all")]
    LimitsApart,
    /// There was no memory left to read them.
    #[error("out of memory")]
    OutOfMemory,
}

impl From<AllocError> for OptionError {
    ghost use Rattle.std.specs.Prelude.{◌≡◌};
    ghost use Rattle.node_options.specs.declared.error.OptionError.TheVariants.{OutOfMemory};

    ghost from_gives = { λ _ error. error ≡ OutOfMemory };

    fn from(_error: AllocError) -> OptionError {
        OptionError::OutOfMemory
    }
}

impl<T: Drop> From<AllocFailed<T>> for OptionError {
    ghost use Rattle.std.specs.Prelude.{◌≡◌};
    ghost use Rattle.node_options.specs.declared.error.OptionError.TheVariants.{OutOfMemory};

    ghost from_gives = { λ _ error. error ≡ OutOfMemory };

    fn from(_error: AllocFailed<T>) -> OptionError {
        OptionError::OutOfMemory
    }
}

/// Where a value was given.
#[derive(Clone, Copy, Debug, PartialEq, Eq, Error)]
pub enum Place {
    /// As the name of the node.
    #[error("NAME")]
    Name,
    /// By this option among the words.
    #[error("--{0}")]
    Word(&'static str),
    /// By this key in the file.
    #[error("{line}: {key}")]
    Key { key: &'static str, line: ConfigLine },
}

/// A line of the file, counted from 1, or the file as a whole.
#[derive(Clone, Copy, Debug, PartialEq, Eq)]
pub struct ConfigLine(pub Option<usize>);

impl fmt::Display for ConfigLine {
    fn fmt<W: fmt::Write>(&self, f: &mut fmt::Formatter<W>) -> fmt::Result {
        match self.0 {
            Some(line) => write!(f, "config, line {line}"),
            None => write!(f, "config"),
        }
    }
}

/// What an option wants. Displays what a value is that is not this.
#[derive(Clone, Copy, Debug, PartialEq, Eq, Error)]
pub enum Wanted {
    /// A name.
    #[error("no name: a name has 1 to 32 of a-z, 0-9 and -")]
    Name,
    /// An IP address and a port.
    #[error("no ADDRESS:PORT")]
    Address,
    /// An IP address that others can reach, and a port.
    #[error("no address that others can reach")]
    Reachable,
    /// A name, and where its node takes connections.
    #[error("not NAME=HOST:PORT")]
    Peer,
    /// A domain.
    #[error("no domain")]
    Domain,
    /// A folder.
    #[error("no folder")]
    Folder,
    /// A whole number in this range.
    #[error("no number from {least} to {most}")]
    Number { least: u64, most: u64 },
    /// The word of a `Format`.
    #[error("none of text, hex and json")]
    Format,
    /// The word of a `Level`.
    #[error("none of error, info and debug")]
    Level,
    /// The word of a `RecordSync`.
    #[error("none of always, second and never")]
    RecordSync,
    /// The word of a `RecordFailure`.
    #[error("neither stop nor go-on")]
    RecordFailure,
    /// `true` or `false`.
    #[error("neither true nor false")]
    Truth,
    /// A list.
    #[error("no list")]
    List,
}
