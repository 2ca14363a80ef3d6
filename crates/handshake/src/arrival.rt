//! A connection that came in, as the node reads it that it is meant for.
ghost use Rattle.std.specs.Prelude.{◌≡◌, ◌<◌, IfErr, IfNone, IfOk, IfSome, None, OnErr, is_some, length};
ghost use Rattle.handshake.specs.Arrival.{Admits, IsMeant, IsRefused, Refuses, Rejects, Takes};
ghost use Rattle.handshake.specs.Inbound.{passed, start};

use crate::address::Address;
use crate::error::HandshakeError;
use crate::hello::Hello;
use crate::inbound::Inbound;
use crate::record::Record;
use node_names::NodeName;
use std::marker::Model;

/// A node for which connections are meant.
#[derive(Clone, Copy, Debug, PartialEq, Eq)]
pub struct Addressee {
    /// The label of its cluster.
    pub label: NodeName,
    /// Its name.
    pub name: NodeName,
}

/// Why a node refuses a connection.
#[derive(Clone, Copy, Debug, PartialEq, Eq)]
pub enum Refusal {
    /// What came is not what a node sends.
    Malformed(HandshakeError),
    /// The node that dialled is of another cluster.
    OtherCluster { name: NodeName, label: NodeName },
    /// The node that dialled means another node.
    Misdirected { name: NodeName, to: NodeName },
    /// The node that dialled has the name of this one, and listens here.
    SameName { at: Address },
}

/// What the first of the bytes of a connection are.
#[derive(Clone, Copy, Debug, PartialEq, Eq)]
pub enum Front {
    /// So many are of frames, and go to the node. They are still to be passed.
    Frames(usize),
    /// So many are of another record, which became whole if it is here. They are taken.
    Record(usize, Option<Record>),
}

/// A connection that came in, as the node reads it that it is meant for. It opens with a hello that is meant for the
/// node alone, so no frame comes before that.
///
/// Contracts see an `Arrived`: the node, where the bytes stand, and who dialled.
#[derive(Debug, Drop)]
pub struct Arrival {
    reader: Addressee,
    inbound: Inbound,
    dialler: Option<NodeName>,
}

impl Model for Arrival {
    ghost use Rattle.std.specs.Prelude.{◌≡◌, is_some};
    ghost use Rattle.handshake.specs.Arrived.{Arrived};

    ghost Value = { Arrived };

    ghost view = { λ a. record { reader = a.reader; inbound = a.inbound; dialler = a.dialler } };

    // The connection is open exactly where a hello came that is meant for the node.
    ghost invariant = { λ a. a.inbound.is_open ≡ is_some a.dialler };
}

impl Addressee {
    /// Why this node refuses the hello, unless it is meant for it.
    pub fn refusal_of(&self, hello: &Hello) -> Option<Refusal>
        ensures meant { IfNone result (IsMeant self.now hello.now) }
        ensures refused { IfSome result (λ refusal. IsRefused self.now hello.now refusal) }
    {
        let Hello {
            label,
            to,
            name,
            at,
        } = *hello;
        if label != self.label {
            return Some(Refusal::OtherCluster { name, label });
        }
        if to != self.name {
            return Some(Refusal::Misdirected { name, to });
        }
        if name == self.name {
            return Some(Refusal::SameName { at });
        }
        None
    }
}

/// Who dialled, after the record that came, if one became whole, or why it is refused.
fn dialler_of(
    reader: &Addressee,
    before: Option<NodeName>,
    came: &Option<Record>,
) -> Result<Option<NodeName>, Refusal>
    ensures admitted { IfOk result (λ dialler. Admits reader.now before came.now dialler) }
    ensures refused { IfErr result (λ refusal. Rejects reader.now came.now refusal) }
{
    let Some(Record::Hello(hello)) = came else {
        return Ok(before);
    };
    match reader.refusal_of(hello) {
        Some(refusal) => Err(refusal),
        None => Ok(Some(hello.name)),
    }
}

impl Arrival {
    /// Starts reading a connection, of which nothing came, for this node.
    pub fn new(reader: Addressee) -> Arrival
        ensures { result ≡ record { reader = reader; inbound = start; dialler = None } }
    {
        Arrival {
            reader,
            inbound: Inbound::new(),
            dialler: None,
        }
    }

    /// The node that dialled, once its hello came.
    pub fn dialler(&self) -> Option<NodeName>
        ensures value { result ≡ self.now.dialler }
        ensures open { self.now.inbound.is_open ≡ is_some result }
    {
        let _open = &self.inbound;
        self.dialler
    }

    /// Looks at the first of these bytes, and takes them if they are of no frame. After an error the connection is
    /// refused, and nothing more may be read from it.
    pub fn next(&mut self, bytes: &[u8]) -> Result<Front, Refusal>
        requires { 0 < length bytes.now }
        ensures taken { IfOk result (λ front. Takes self.old bytes.now front self.new) }
        ensures refused { IfErr result (λ refusal. Refuses self.old bytes.now refusal) }
        ensures unknown { OnErr result (self.new.dialler ≡ self.old.dialler) }
    {
        let count = self.inbound.frames(bytes);
        if count > 0 {
            return Ok(Front::Frames(count));
        }
        match self.inbound.take(bytes) {
            Ok((count, record)) => match dialler_of(&self.reader, self.dialler, &record) {
                Ok(dialler) => {
                    self.dialler = dialler;
                    Ok(Front::Record(count, record))
                }
                Err(refusal) => {
                    self.inbound = Inbound::new();
                    Err(refusal)
                }
            },
            Err(error) => Err(Refusal::Malformed(error)),
        }
    }

    /// Goes on by these bytes of frames, which went to the node.
    pub fn pass(&mut self, bytes: &[u8])
        ensures { self.new ≡ record self.old { inbound = passed self.old.inbound bytes.now } }
    {
        self.inbound.pass(bytes);
    }
}
