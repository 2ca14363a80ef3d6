//! The bodies of frames: what they say, and their kinds.
ghost use Rattle.std.specs.Prelude.{◌≡◌, IfOk};
ghost use Rattle.frames.specs.Frame.{are_numbered, has_good_fields, has_good_counts};
ghost use Rattle.frames.specs.Kind.{kind_numbered, kind_of, number_of, of_version, version_of};

use crate::{MAX_ANNOUNCEMENTS, MAX_NAMES};
use bytes::Bytes;
use node_names::{Listed, MsgId, NodeName};
use protocol::MAX_PAYLOAD;
use std::alloc::{AllocError, Allocator, Global};

/// A body whose payload and lists are in the memory of the allocator `A`.
pub type Body<A = Global> = BodyOf<Bytes<A>, Listed<NodeName, A>, Listed<(MsgId, u32), A>>;

/// The body of a frame, by its kind. `P` is a payload, `L` a list of names and `E` a list of announcements.
///
/// `Join` to `ShuffleReply` are HyParView's messages, the others Plumtree's.
#[derive(Debug, PartialEq, Drop)]
pub enum BodyOf<P, L, E> {
    /// A request of the sender to join the group.
    Join,
    /// The name of a joining node, on a random walk with `ttl` steps left.
    ForwardJoin { new: NodeName, ttl: u8 },
    /// A request of the sender to be added to the receiver's active view. If `high`, it must be accepted.
    Neighbor { high: bool },
    /// The reply to a `Neighbor`.
    NeighborReply { accepted: bool },
    /// A notice that the sender has removed the receiver from its active view.
    Disconnect,
    /// Some of the names that `origin` knows, on a random walk with `ttl` steps left.
    Shuffle { origin: NodeName, ttl: u8, names: L },
    /// The names that a node sends in reply to a `Shuffle`.
    ShuffleReply { names: L },
    /// A message. Its round is the number of links that it crossed to reach the sender.
    Gossip { id: MsgId, round: u32, payload: P },
    /// Announcements of messages, each with its id and round.
    IHave { entries: E },
    /// A request for a message, which also makes the link between sender and receiver eager.
    Graft { id: MsgId, round: u32 },
    /// A request to make the link between sender and receiver lazy.
    Prune,
    /// A request to make the link between sender and receiver eager, as `Graft` does, without asking for a message.
    GraftPeer,
}

/// Returns whether the numbers of all announced messages are at least 1.
fn are_numbered(entries: &[(MsgId, u32)]) -> bool
    ensures { result ≡ are_numbered entries.now }
{
    entries.iter().all(|entry| entry.0.seq > 0)
}

/// Returns whether the numbers of messages are at least 1 and a payload has at most `MAX_PAYLOAD` bytes.
pub(crate) fn has_good_fields<A: Allocator>(body: &Body<A>) -> bool
    ensures { result ≡ has_good_fields body.now }
{
    match body {
        BodyOf::Gossip { id, payload, .. } => id.seq > 0 && payload.len() <= MAX_PAYLOAD,
        BodyOf::IHave { entries } => are_numbered(entries.as_slice()),
        BodyOf::Graft { id, .. } => id.seq > 0,
        _ => true,
    }
}

/// Returns whether a list of names has at most `MAX_NAMES` items and one of announcements 1 to `MAX_ANNOUNCEMENTS`.
pub(crate) fn has_good_counts<A: Allocator>(body: &Body<A>) -> bool
    ensures { result ≡ has_good_counts body.now }
{
    match body {
        BodyOf::Shuffle { names, .. } | BodyOf::ShuffleReply { names } => names.len() <= MAX_NAMES,
        BodyOf::IHave { entries } => entries.len() > 0 && entries.len() <= MAX_ANNOUNCEMENTS,
        _ => true,
    }
}

/// Copies the body. Its lists are copied by their allocators, and its payload is shared.
pub(crate) fn copy_body<A: Allocator + Copy>(body: &Body<A>) -> Result<Body<A>, AllocError>
    ensures { IfOk result (λ copy. copy ≡ body.now) }
{
    Ok(match body {
        BodyOf::Join => BodyOf::Join,
        BodyOf::ForwardJoin { new, ttl } => BodyOf::ForwardJoin {
            new: *new,
            ttl: *ttl,
        },
        BodyOf::Neighbor { high } => BodyOf::Neighbor { high: *high },
        BodyOf::NeighborReply { accepted } => BodyOf::NeighborReply {
            accepted: *accepted,
        },
        BodyOf::Disconnect => BodyOf::Disconnect,
        BodyOf::Shuffle { origin, ttl, names } => BodyOf::Shuffle {
            origin: *origin,
            ttl: *ttl,
            names: names.copy()?,
        },
        BodyOf::ShuffleReply { names } => BodyOf::ShuffleReply {
            names: names.copy()?,
        },
        BodyOf::Gossip { id, round, payload } => BodyOf::Gossip {
            id: *id,
            round: *round,
            payload: payload.clone()?,
        },
        BodyOf::IHave { entries } => BodyOf::IHave {
            entries: entries.copy()?,
        },
        BodyOf::Graft { id, round } => BodyOf::Graft {
            id: *id,
            round: *round,
        },
        BodyOf::Prune => BodyOf::Prune,
        BodyOf::GraftPeer => BodyOf::GraftPeer,
    })
}

/// A kind of frame. Frames encode it as a number.
#[derive(Clone, Copy, Debug, PartialEq, Eq)]
pub(crate) enum Kind {
    Join,
    ForwardJoin,
    Neighbor,
    NeighborReply,
    Disconnect,
    Shuffle,
    ShuffleReply,
    Gossip,
    IHave,
    Graft,
    Prune,
    GraftPeer,
}

impl Kind {
    /// Returns the kind of `body`.
    pub(crate) fn of<P, L, E>(body: &BodyOf<P, L, E>) -> Kind
        ensures { result ≡ kind_of body.now }
    {
        match body {
            BodyOf::Join => Kind::Join,
            BodyOf::ForwardJoin { .. } => Kind::ForwardJoin,
            BodyOf::Neighbor { .. } => Kind::Neighbor,
            BodyOf::NeighborReply { .. } => Kind::NeighborReply,
            BodyOf::Disconnect => Kind::Disconnect,
            BodyOf::Shuffle { .. } => Kind::Shuffle,
            BodyOf::ShuffleReply { .. } => Kind::ShuffleReply,
            BodyOf::Gossip { .. } => Kind::Gossip,
            BodyOf::IHave { .. } => Kind::IHave,
            BodyOf::Graft { .. } => Kind::Graft,
            BodyOf::Prune => Kind::Prune,
            BodyOf::GraftPeer => Kind::GraftPeer,
        }
    }

    /// Returns the version of the frames of this kind.
    pub(crate) fn version(self) -> u8
        ensures { result ≡ version_of self }
    {
        match self {
            Kind::Join
            | Kind::ForwardJoin
            | Kind::Neighbor
            | Kind::NeighborReply
            | Kind::Disconnect
            | Kind::Shuffle
            | Kind::ShuffleReply
            | Kind::Gossip
            | Kind::IHave
            | Kind::Graft
            | Kind::Prune => 1,
            Kind::GraftPeer => 2,
        }
    }

    /// Returns the number of the kind.
    pub(crate) fn number(self) -> u8
        ensures { result ≡ number_of self }
    {
        match self {
            Kind::Join => 1,
            Kind::ForwardJoin => 2,
            Kind::Neighbor => 3,
            Kind::NeighborReply => 4,
            Kind::Disconnect => 5,
            Kind::Shuffle => 6,
            Kind::ShuffleReply => 7,
            Kind::Gossip => 8,
            Kind::IHave => 9,
            Kind::Graft => 10,
            Kind::Prune => 11,
            Kind::GraftPeer => 12,
        }
    }

    /// Returns the kind with this number, if there is one.
    fn numbered(number: u8) -> Option<Kind>
        ensures { result ≡ kind_numbered number }
    {
        match number {
            1 => Some(Kind::Join),
            2 => Some(Kind::ForwardJoin),
            3 => Some(Kind::Neighbor),
            4 => Some(Kind::NeighborReply),
            5 => Some(Kind::Disconnect),
            6 => Some(Kind::Shuffle),
            7 => Some(Kind::ShuffleReply),
            8 => Some(Kind::Gossip),
            9 => Some(Kind::IHave),
            10 => Some(Kind::Graft),
            11 => Some(Kind::Prune),
            12 => Some(Kind::GraftPeer),
            _ => None,
        }
    }

    /// Returns the kind with this number whose frames have this version, if there is one.
    pub(crate) fn of_version(version: u8, number: u8) -> Option<Kind>
        ensures { result ≡ of_version version (kind_numbered number) }
    {
        match Kind::numbered(number) {
            Some(kind) if kind.version() == version => Some(kind),
            _ => None,
        }
    }
}

/// Returns the number of the body's kind, as encoded in frames (docs/frames.md).
pub fn kind_number<P, L, E>(body: &BodyOf<P, L, E>) -> u8
    ensures { result ≡ number_of (kind_of body.now) }
{
    Kind::of(body).number()
}
