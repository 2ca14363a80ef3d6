//! What crosses to C.
ghost use Rattle.std.specs.Prelude.{◌≡◌, IfOk};
ghost use Rattle.plumtree_c.specs.Plain.{id_of, limits_of, name_of, parting_number, Says};

use crate::refusal::Refusal;
use node_names::{Incarnation, Limits, MsgId, NodeName, Origin};
use wire_node::{News, Parting};

/// A name: its bytes and then zeros, of which there is at least one, and the number of its bytes.
#[repr(C)]
#[derive(Clone, Copy)]
pub struct Name {
    pub text: [u8; 33],
    pub length: u8,
}

const _: () = prove!(size_of::<Name>() == 34);

/// The id of a message: who broadcast it, and its number among the messages of that run.
#[repr(C)]
#[derive(Clone, Copy)]
pub struct Id {
    pub name: Name,
    pub incarnation: u64,
    pub number: u64,
}

const _: () = prove!(size_of::<Id>() == 56);

/// What changed in the active view of a node: numbers of `plumtree_news_kind` and `plumtree_parting` of plumtree.h.
/// What the kind does not have is 0, and a name without bytes.
#[repr(C)]
#[derive(Clone, Copy)]
pub struct PlainNews {
    /// What changed.
    pub kind: u8,
    /// Why a name went.
    pub why: u8,
    /// The name that came or went.
    pub name: Name,
}

const _: () = prove!(size_of::<PlainNews>() == 36);

/// The limits of a node, as `node_names::Limits` has them.
#[repr(C)]
#[derive(Clone, Copy)]
pub struct Sizes {
    pub active: u8,
    pub passive: u8,
    pub arwl: u8,
    pub prwl: u8,
    pub ka: u8,
    pub kp: u8,
    pub threshold: u32,
    pub keep: u32,
}

const _: () = prove!(size_of::<Sizes>() == 16);

/// How much a node has.
#[repr(C)]
#[derive(Clone, Copy)]
pub struct Counts {
    /// Messages that it knows: those that it delivered since its start.
    pub known: u64,
    /// Messages whose payloads it holds.
    pub held: u64,
    /// Messages that it lacks and may ask for: the timers that are armed.
    pub missing: u64,
    /// Announcements of these that came.
    pub wants: u64,
    /// Announcements that wait for the next flush.
    pub queued: u64,
    /// Frames that wait to be taken.
    pub sends: u64,
    /// Deliveries that wait to be taken.
    pub deliveries: u64,
}

const _: () = prove!(size_of::<Counts>() == 56);

/// How much a node of bytes has.
#[repr(C)]
#[derive(Clone, Copy)]
pub struct WireCounts {
    /// Messages whose payloads it holds.
    pub held: u64,
    /// Messages that it lacks and may ask for: the timers that are armed.
    pub missing: u64,
    /// Announcements of these that came.
    pub wants: u64,
    /// Announcements that wait for the next tick.
    pub queued: u64,
    /// Ticks that were made.
    pub ticks: u64,
}

const _: () = prove!(size_of::<WireCounts>() == 40);

/// Why a name went, for C.
fn number_of(why: Parting) -> u8
    ensures { result ≡ parting_number why }
{
    match why {
        Parting::Left => 1,
        Parting::Failed => 2,
        Parting::Displaced => 3,
    }
}

impl Name {
    /// The name of nobody.
    const NOBODY: Name = Name {
        text: [0; 33],
        length: 0,
    };

    /// The name for C.
    pub(crate) fn of(name: &NodeName) -> Name
        ensures { name_of result ≡ name.now }
    {
        let bytes = name.as_bytes();
        let mut text = [0; 33];
        text[..bytes.len()].copy_from_slice(bytes);
        Name {
            text,
            length: bytes.len() as u8,
        }
    }

    /// Reads the name. Bytes after the first `length` are not looked at.
    pub(crate) fn read(&self) -> Result<NodeName, Refusal>
        ensures { IfOk result (λ name. name ≡ name_of self.now) }
    {
        let Some(bytes) = self.text.get(..usize::from(self.length)) else {
            return Err(Refusal::BadName);
        };
        Ok(NodeName::parse(bytes)?)
    }
}

impl Id {
    /// The id for C.
    pub(crate) fn of(id: &MsgId) -> Id
        ensures { id_of result ≡ id.now }
    {
        Id {
            name: Name::of(&id.origin.name),
            incarnation: id.origin.incarnation.0,
            number: id.seq,
        }
    }

    /// Reads the id.
    pub(crate) fn read(&self) -> Result<MsgId, Refusal>
        ensures { IfOk result (λ id. id ≡ id_of self.now) }
    {
        let name = self.name.read()?;
        let incarnation = Incarnation(self.incarnation);
        Ok(MsgId {
            origin: Origin { name, incarnation },
            seq: self.number,
        })
    }
}

impl PlainNews {
    /// The news for C.
    pub(crate) fn of(news: &News) -> PlainNews
        ensures { Says result news.now }
    {
        let (kind, why, name) = match news {
            News::NeighborUp(name) => (1, 0, Name::of(name)),
            News::NeighborDown { name, why } => (2, number_of(*why), Name::of(name)),
            News::Isolated => (3, 0, Name::NOBODY),
            News::Joined => (4, 0, Name::NOBODY),
        };
        PlainNews { kind, why, name }
    }
}

impl Sizes {
    /// The limits for C.
    pub(crate) fn of(limits: &Limits) -> Sizes {
        Sizes {
            active: limits.active(),
            passive: limits.passive(),
            arwl: limits.arwl(),
            prwl: limits.prwl(),
            ka: limits.ka(),
            kp: limits.kp(),
            threshold: limits.threshold(),
            keep: limits.keep(),
        }
    }

    /// Reads the limits.
    pub(crate) fn read(&self) -> Result<Limits, Refusal>
        ensures { IfOk result (λ limits. limits ≡ limits_of self.now) }
    {
        let limits = Limits::new(
            self.active,
            self.passive,
            self.arwl,
            self.prwl,
            self.ka,
            self.kp,
        )?;
        Ok(limits.tuned(self.threshold).keeping(self.keep))
    }
}
