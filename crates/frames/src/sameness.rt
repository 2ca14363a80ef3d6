//! Comparing frames.
ghost use Rattle.std.specs.Prelude.{◌≡◌};
ghost use Rattle.std.specs.Bool.{Decides};
ghost use Rattle.frames.specs.Sameness.{entries_of, flag_of, kind_number, message_of, names_of, payload_of, walk_of};

use crate::body::{Body, BodyOf, kind_number};
use crate::frame::Frame;
use node_names::{MsgId, NodeName};
use std::alloc::Allocator;

/// Returns the flag of a `Neighbor` or `NeighborReply`, and `false` for other kinds.
fn flag_of<A: Allocator>(body: &Body<A>) -> bool
    ensures { result ≡ flag_of body.now }
{
    match body {
        BodyOf::Neighbor { high } => *high,
        BodyOf::NeighborReply { accepted } => *accepted,
        _ => false,
    }
}

/// Returns the name that a body carries on a random walk, with the steps left, if it is on one.
fn walk_of<A: Allocator>(body: &Body<A>) -> Option<(NodeName, u8)>
    ensures { result ≡ walk_of body.now }
{
    match body {
        BodyOf::ForwardJoin { new, ttl } => Some((*new, *ttl)),
        BodyOf::Shuffle { origin, ttl, .. } => Some((*origin, *ttl)),
        _ => None,
    }
}

/// Returns the id and the round of the message that a body carries or asks for, if any.
fn message_of<A: Allocator>(body: &Body<A>) -> Option<(MsgId, u32)>
    ensures { result ≡ message_of body.now }
{
    match body {
        BodyOf::Gossip { id, round, .. } | BodyOf::Graft { id, round } => Some((*id, *round)),
        _ => None,
    }
}

/// Returns the list of names in a body.
fn names_of<A: Allocator>(body: &Body<A>) -> &[NodeName]
    ensures { result.now ≡ names_of body.now }
{
    match body {
        BodyOf::Shuffle { names, .. } | BodyOf::ShuffleReply { names } => names.as_slice(),
        _ => &[],
    }
}

/// Returns the announcements in a body.
fn entries_of<A: Allocator>(body: &Body<A>) -> &[(MsgId, u32)]
    ensures { result.now ≡ entries_of body.now }
{
    match body {
        BodyOf::IHave { entries } => entries.as_slice(),
        _ => &[],
    }
}

/// Returns the payload in a body.
fn payload_of<A: Allocator>(body: &Body<A>) -> &[u8]
    ensures { result.now ≡ payload_of body.now }
{
    match body {
        BodyOf::Gossip { payload, .. } => payload.as_slice(),
        _ => &[],
    }
}

/// Returns whether two bodies have the same kind and the same flag.
fn same_kinds<A: Allocator>(body: &Body<A>, other: &Body<A>) -> bool
    ensures { Decides result ((kind_number body.now ≡ kind_number other.now) × (flag_of body.now ≡ flag_of other.now)) }
{
    kind_number(body) == kind_number(other) && flag_of(body) == flag_of(other)
}

/// Returns whether two bodies carry the same name on a random walk, with the same steps left.
fn same_walks<A: Allocator>(body: &Body<A>, other: &Body<A>) -> bool
    ensures { Decides result (walk_of body.now ≡ walk_of other.now) }
{
    walk_of(body) == walk_of(other)
}

/// Returns whether two bodies have the same list of names.
fn same_names<A: Allocator>(body: &Body<A>, other: &Body<A>) -> bool
    ensures { Decides result (names_of body.now ≡ names_of other.now) }
{
    names_of(body) == names_of(other)
}

/// Returns whether two bodies carry or ask for the same message id at the same round.
fn same_message<A: Allocator>(body: &Body<A>, other: &Body<A>) -> bool
    ensures { Decides result (message_of body.now ≡ message_of other.now) }
{
    message_of(body) == message_of(other)
}

/// Returns whether two bodies have the same announcements.
fn same_entries<A: Allocator>(body: &Body<A>, other: &Body<A>) -> bool
    ensures { Decides result (entries_of body.now ≡ entries_of other.now) }
{
    entries_of(body) == entries_of(other)
}

/// Returns whether two bodies have the same payload.
fn same_payload<A: Allocator>(body: &Body<A>, other: &Body<A>) -> bool
    ensures { Decides result (payload_of body.now ≡ payload_of other.now) }
{
    payload_of(body) == payload_of(other)
}

/// Returns whether two bodies have the same random walk and the same list of names.
fn same_named<A: Allocator>(body: &Body<A>, other: &Body<A>) -> bool
    ensures { Decides result ((walk_of body.now ≡ walk_of other.now) × (names_of body.now ≡ names_of other.now)) }
{
    same_walks(body, other) && same_names(body, other)
}

/// Returns whether two bodies have the same message, announcements and payload.
fn same_messages<A: Allocator>(body: &Body<A>, other: &Body<A>) -> bool
    ensures { Decides result ((message_of body.now ≡ message_of other.now)
        × (entries_of body.now ≡ entries_of other.now)
        × (payload_of body.now ≡ payload_of other.now)) }
{
    same_message(body, other) && same_entries(body, other) && same_payload(body, other)
}

/// Returns whether two bodies are equal.
#[tactic(auto, using(crate::proofs::SameFields::same_fields))]
fn same_body<A: Allocator>(body: &Body<A>, other: &Body<A>) -> bool
    ensures { Decides result (body.now ≡ other.now) }
{
    same_kinds(body, other) && same_named(body, other) && same_messages(body, other)
}

/// Returns whether two frames are equal.
pub fn same_frame<A: Allocator>(frame: &Frame<A>, other: &Frame<A>) -> bool
    ensures { Decides result (frame.now ≡ other.now) }
{
    frame.sender() == other.sender()
        && frame.number() == other.number()
        && same_body(frame.body(), other.body())
}
