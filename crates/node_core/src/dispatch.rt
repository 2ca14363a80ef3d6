//! Which part of a node handles a stimulus: the membership, the gossip or neither, for a JOIN to a contact.
ghost use Rattle.std.specs.Prelude.{◌≡◌};
ghost use Rattle.protocol.specs.Stimulus.{lent as told};
ghost use Rattle.node_core.specs.Parts.{lent, part_heard, part_of};
ghost use Rattle.node_core.specs.Steps.{is_joined};

use bytes::Bytes;
use frames::{Body, BodyOf, Frame};
use gossip_core::{Call, CallOf};
use membership::{Event, EventOf, Membership};
use node_names::{Dice, MsgId, NodeName, Origin, has_name};
use protocol::{StimulusOf, StimulusRef};
use std::alloc::Allocator;

/// The part of a node that handles a stimulus. `E` is an event of the membership, `C` a call of the gossip, and `D` the
/// dice.
#[derive(Drop)]
pub(crate) enum PartOf<E, C, D> {
    /// The membership handles the event, with these dice.
    Membership { event: E, dice: D },
    /// The gossip handles the call.
    Gossip { call: C },
    /// The contact is sent JOIN, and nothing else happens.
    Greeting { contact: NodeName },
    /// Nothing happens.
    Nobody,
}

/// The part that handles a stimulus, with its lists and payloads borrowed.
pub(crate) type Part<'a, A> = PartOf<Event<'a>, Call<'a, A>, &'a Dice>;

/// Maps a packet that carries a message.
fn carried<'a, A: Allocator>(
    sender: &NodeName,
    id: &MsgId,
    round: u32,
    payload: &'a Bytes<A>,
) -> Part<'a, A>
    ensures { lent result ≡ PartOf.Gossip (CallOf.OnGossip sender.now id.now round payload.now) }
{
    PartOf::Gossip {
        call: CallOf::OnGossip {
            sender: *sender,
            id: *id,
            round,
            payload,
        },
    }
}

/// Maps a packet that announces messages.
fn announced<'a, A: Allocator>(sender: &NodeName, entries: &'a [(MsgId, u32)]) -> Part<'a, A>
    ensures { lent result ≡ PartOf.Gossip (CallOf.OnIHave sender.now entries.now) }
{
    PartOf::Gossip {
        call: CallOf::OnIHave {
            sender: *sender,
            entries,
        },
    }
}

/// Maps a packet that asks for a message.
fn asked<'a, A: Allocator>(sender: &NodeName, id: &MsgId, round: u32) -> Part<'a, A>
    ensures { lent result ≡ PartOf.Gossip (CallOf.OnGraft sender.now id.now round) }
{
    PartOf::Gossip {
        call: CallOf::OnGraft {
            sender: *sender,
            id: *id,
            round,
        },
    }
}

/// Maps a packet that asks for announcements in place of messages.
fn pruned<'a, A: Allocator>(sender: &NodeName) -> Part<'a, A>
    ensures { lent result ≡ PartOf.Gossip (CallOf.OnPrune sender.now) }
{
    PartOf::Gossip {
        call: CallOf::OnPrune { sender: *sender },
    }
}

/// Maps a packet that asks for messages in place of announcements.
fn grafted<'a, A: Allocator>(sender: &NodeName) -> Part<'a, A>
    ensures { lent result ≡ PartOf.Gossip (CallOf.OnGraftPeer sender.now) }
{
    PartOf::Gossip {
        call: CallOf::OnGraftPeer { sender: *sender },
    }
}

/// Maps a packet from the sender to the part that handles it.
fn part_heard<'a, A: Allocator>(sender: &NodeName, body: &'a Body<A>, dice: &'a Dice) -> Part<'a, A>
    ensures { lent result ≡ part_heard sender.now body.now dice.now }
{
    let event = match body {
        BodyOf::Join => EventOf::Join { sender: *sender },
        BodyOf::ForwardJoin { new, ttl } => EventOf::ForwardJoin {
            sender: *sender,
            new: *new,
            ttl: *ttl,
        },
        BodyOf::Neighbor { high } => EventOf::Neighbor {
            sender: *sender,
            high: *high,
        },
        BodyOf::NeighborReply { accepted } => EventOf::Reply {
            sender: *sender,
            accepted: *accepted,
        },
        BodyOf::Disconnect => EventOf::Disconnect { sender: *sender },
        BodyOf::Shuffle { origin, ttl, names } => EventOf::Shuffle {
            sender: *sender,
            origin: *origin,
            ttl: *ttl,
            names: names.as_slice(),
        },
        BodyOf::ShuffleReply { names } => EventOf::ShuffleReply {
            sender: *sender,
            names: names.as_slice(),
        },
        BodyOf::Gossip { id, round, payload } => return carried(sender, id, *round, payload),
        BodyOf::IHave { entries } => return announced(sender, entries.as_slice()),
        BodyOf::Graft { id, round } => return asked(sender, id, *round),
        BodyOf::Prune => return pruned(sender),
        BodyOf::GraftPeer => return grafted(sender),
    };
    PartOf::Membership { event, dice }
}

/// Returns whether there is nothing to join by the contact: it is the node itself, or active.
fn is_joined<A: Allocator>(me: &Origin, membership: &Membership<A>, contact: &NodeName) -> bool
    ensures { result ≡ is_joined me.now membership.now contact.now }
{
    *contact == me.name || has_name(membership.views().active().as_slice(), contact)
}

/// Maps a stimulus to the part of the node `me` that handles it, whose membership is this one.
pub(crate) fn part_of<'a, A: Allocator>(
    me: &Origin,
    membership: &Membership<A>,
    stimulus: &'a StimulusRef<'a, Frame<A>, A>,
) -> Part<'a, A>
    ensures { lent result ≡ part_of me.now membership.now (told stimulus.now) }
{
    match stimulus {
        StimulusOf::Broadcast(payload) => PartOf::Gossip {
            call: CallOf::Broadcast { payload },
        },
        StimulusOf::Arrive { sender, note, dice } => {
            if sender.name == me.name {
                return PartOf::Nobody;
            }
            part_heard(&sender.name, note.body(), dice)
        }
        StimulusOf::Fire(id) => PartOf::Gossip {
            call: CallOf::Fire { id: *id },
        },
        StimulusOf::Flush => PartOf::Gossip {
            call: CallOf::Flush,
        },
        StimulusOf::Down { peer, dice } => PartOf::Membership {
            event: EventOf::Down { peer: *peer },
            dice,
        },
        StimulusOf::Shuffle(dice) => PartOf::Membership {
            event: EventOf::Tick,
            dice,
        },
        StimulusOf::Join(contact) => {
            if is_joined(me, membership, contact) {
                return PartOf::Nobody;
            }
            PartOf::Greeting { contact: *contact }
        }
    }
}
