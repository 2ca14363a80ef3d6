//! Runs of nodes and the ids of messages.
ghost use Rattle.std.specs.Prelude.{Some};
ghost use Rattle.std.specs.Fmt.{decimal};
ghost use Rattle.node_names.specs.Ids.{origin_text, msg_id_text};

use crate::name::NodeName;
use std::fmt;

/// The number of a run of a node. Each start of the node takes a greater number than all its earlier starts.
#[derive(Clone, Copy, Debug, PartialEq, Eq, PartialOrd, Ord, Hash)]
pub struct Incarnation(pub u64);

/// One run of one node, ordered by name and then by incarnation.
#[derive(Clone, Copy, Debug, PartialEq, Eq, PartialOrd, Ord, Hash)]
pub struct Origin {
    pub name: NodeName,
    pub incarnation: Incarnation,
}

/// The id of a message, ordered by origin and then by number.
#[derive(Clone, Copy, Debug, PartialEq, Eq, PartialOrd, Ord, Hash)]
pub struct MsgId {
    /// The run that broadcast the message.
    pub origin: Origin,
    /// The number of the message among the messages of its origin, counted from 1.
    pub seq: u64,
}

impl fmt::Display for Incarnation {
    ghost output = { λ i. Some (decimal i.0) };

    fn fmt<W: fmt::Write>(&self, f: &mut fmt::Formatter<W>) -> fmt::Result {
        let number = self.0;
        write!(f, "{number}")
    }
}

impl fmt::Display for Origin {
    ghost output = { λ o. Some (origin_text o) };

    fn fmt<W: fmt::Write>(&self, f: &mut fmt::Formatter<W>) -> fmt::Result {
        let name = self.name;
        let incarnation = self.incarnation;
        write!(f, "{name}/{incarnation}")
    }
}

impl fmt::Display for MsgId {
    ghost output = { λ id. Some (msg_id_text id) };

    fn fmt<W: fmt::Write>(&self, f: &mut fmt::Formatter<W>) -> fmt::Result {
        let origin = self.origin;
        let seq = self.seq;
        write!(f, "{origin}/{seq}")
    }
}
