//! The plan of what an event will do to a group, made before anything changes.
ghost use Rattle.std.specs.Prelude.{◌≡◌, ◌≤◌, ◌<◌, ◌+◌, ◌⊎◌, ◌↔◌, ◌++◌, [], ◌∷◌, ℕ, false, true, Some, None};
ghost use Rattle.std.specs.Prelude.{IsTrue, IfOk, IfErr, OnOk, IsErrOf, length, map, option_map, slice_get};
ghost use Rattle.protocol.specs.IdentityLaw.{IsTooLong};
ghost use Rattle.protocol.specs.Peers.{are_peers};
ghost use Rattle.protocol.specs.SameNames.{SameNames};
ghost use Rattle.protocol.specs.Stimulus.{lent};
ghost use Rattle.world.specs.Group.{packets};
ghost use Rattle.world.specs.Plan.{stimulus_by};

use crate::entry::Entry;
use crate::event::{Event, EventOf, KeptEvent};
use crate::kept_dice::KeptDice;
use crate::node_state::NodeState;
use crate::packet::Packet;
use bytes::Bytes;
use node_names::{Limits, NodeName, Origin};
use protocol::{Core, CoreError, Delivery, Out, Prepared, StimulusOf, StimulusRef};
use std::alloc::{AllocError, Allocator};
use std::boxed::Box;

/// The change of the nodes.
#[derive(Drop)]
pub(crate) enum Change<C, T, A: Allocator> {
    /// No change.
    Nothing,
    /// A node that replaces the node of the same name, or is appended if no node has its name. It is boxed to keep
    /// plans small, since they are moved and few of them have one.
    Put(Box<NodeState<C>, A>),
    /// The prepared step of the core of the node at place `at`.
    Step { at: usize, turn: T },
}

/// The whole effect of an event on a group, planned but not yet carried out.
#[derive(Drop)]
pub(crate) struct Plan<C: Core<A>, A: Allocator> {
    /// The change of the nodes.
    pub(crate) change: Change<C, C::Turn, A>,
    /// The packets to send.
    pub(crate) packets: Vec<Packet<C::Note>, A>,
    /// The place in the flight of the packet that leaves it, if one does.
    pub(crate) leaving: Option<usize>,
    /// The number of the packet that is put into flight once more. If it is `None`, the packets to send are put into
    /// flight.
    pub(crate) again: Option<usize>,
    /// The entry that the log will keep.
    pub(crate) entry: Entry<A>,
}

/// A prepared step of a core.
#[derive(Drop)]
pub(crate) struct CoreStep<C: Core<A>, A: Allocator> {
    /// What the core needs to carry it out.
    pub(crate) turn: C::Turn,
    /// The packets that it sends, each with the name that it goes to.
    pub(crate) sends: Vec<(NodeName, C::Note), A>,
    /// The messages that it delivers.
    pub(crate) given: Vec<Delivery<A>, A>,
    /// Whether it changes the core's active view as a set.
    pub(crate) moved: bool,
}

/// A core that has started, with the packets that it sends.
#[derive(Drop)]
pub(crate) struct CoreStart<C: Core<A>, A: Allocator> {
    /// The core.
    pub(crate) core: C,
    /// The packets that it sends, each with the name that it goes to.
    pub(crate) sends: Vec<(NodeName, C::Note), A>,
}

/// Starts a core. Fails only if an allocation is refused.
pub(crate) fn start_core<C: Core<A>, A: Allocator + Copy>(
    alloc: A,
    me: &Origin,
    limits: Limits,
    peers: &[NodeName],
    contact: &Option<NodeName>,
) -> Result<CoreStart<C, A>, CoreError>
    requires { IsTrue (are_peers limits me.now.name peers.now contact.now) }
    ensures started { IfOk result (λ start. C.starts me.now limits peers.now contact.now start.sends.items start.core) }
    ensures refused { IfErr result (λ e. e ≡ CoreError.OutOfMemory) }
{
    let mut out = Out::new(alloc);
    let core = C::start(alloc, *me, limits, peers, *contact, &mut out)?;
    let Out { sends, .. } = out;
    Ok(CoreStart {
        core,
        sends: sends.into_vec(),
    })
}

/// Returns the node in a box.
pub(crate) fn boxed<C: Drop, A: Allocator>(
    alloc: A,
    node: NodeState<C>,
) -> Result<Box<NodeState<C>, A>, AllocError>
    ensures { IfOk result (λ boxed. boxed.value ≡ node) }
{
    Ok(Box::new(alloc, node)?)
}

/// Prepares a core's step. The core does not change.
pub(crate) fn prepare_step<C: Core<A>, A: Allocator + Copy>(
    alloc: A,
    core: &C,
    stimulus: &StimulusRef<'_, C::Note, A>,
) -> Result<CoreStep<C, A>, CoreError>
    ensures turn { IfOk result (λ step. C.is_turn core.now (lent stimulus.now) step.turn) }
    ensures stepped { IfOk result (λ step.
        C.steps core.now (lent stimulus.now) step.sends.items step.given.items (C.after core.now (lent stimulus.now))) }
    ensures moved { IfOk result (λ step. (step.moved ≡ false)
        ↔ SameNames (C.state core.now).active (C.state (C.after core.now (lent stimulus.now))).active) }
    ensures too_long { IsErrOf result CoreError.PayloadTooLong → IsTooLong (lent stimulus.now) }
    ensures spent { IsErrOf result CoreError.SeqSpent → C.is_spent core.now (lent stimulus.now) }
{
    let mut out = Out::new(alloc);
    let Prepared { turn, moved } = core.prepare(stimulus, &mut out)?;
    let Out { sends, deliveries } = out;
    let mut given = deliveries.into_vec();
    given.shrink_to_fit();
    Ok(CoreStep {
        turn,
        sends: sends.into_vec(),
        given,
        moved,
    })
}

/// Returns the stimulus by which the event steps a core, or `None` if it steps none. For an arrival, `packet` is the
/// number of the packet that arrives.
pub(crate) fn stimulus_by<'a, N, A: Allocator>(
    sent: &'a [Packet<N>],
    event: &'a KeptEvent<A>,
    packet: Option<usize>,
) -> Option<StimulusRef<'a, N, A>>
    ensures { option_map lent result ≡ stimulus_by sent.now event.now packet }
{
    match event {
        EventOf::Broadcast { payload, .. } => Some(StimulusOf::Broadcast(payload)),
        EventOf::Arrive { dice, .. } => {
            let packet = sent.get(packet?)?;
            Some(StimulusOf::Arrive {
                sender: packet.sender,
                note: &packet.note,
                dice: dice.get(),
            })
        }
        EventOf::Fire { id, .. } => Some(StimulusOf::Fire(*id)),
        EventOf::Flush { .. } => Some(StimulusOf::Flush),
        EventOf::Down { peer, dice, .. } => Some(StimulusOf::Down {
            peer: *peer,
            dice: dice.get(),
        }),
        EventOf::Shuffle { dice, .. } => Some(StimulusOf::Shuffle(dice.get())),
        EventOf::Join { contact, .. } => Some(StimulusOf::Join(*contact)),
        EventOf::Start { .. }
        | EventOf::Lose { .. }
        | EventOf::Again { .. }
        | EventOf::Stop { .. } => None,
    }
}

/// Turns the sends into packets of `sender`, in order.
pub(crate) fn packets_of<N: Drop, A: Allocator + Copy>(
    alloc: A,
    sender: &Origin,
    sends: Vec<(NodeName, N), A>,
) -> Result<Vec<Packet<N>, A>, AllocError>
    ensures { IfOk result (λ made. made.items ≡ packets sender.now sends.items) }
{
    let mut made = Vec::with_capacity(alloc, sends.len())?;
    for (to, note) in sends {
        made.push(Packet {
            sender: *sender,
            to,
            note,
        })?;
    }
    Ok(made)
}

/// Returns the event as the log keeps it. Both share the payload.
pub(crate) fn keep_event<A: Allocator + Copy>(
    alloc: A,
    event: &Event<A>,
) -> Result<KeptEvent<A>, AllocError>
    ensures { IfOk result (λ kept. kept ≡ event.now) }
{
    Ok(match event {
        EventOf::Start {
            name,
            incarnation,
            peers,
            contact,
        } => EventOf::Start {
            name: *name,
            incarnation: *incarnation,
            peers: peers.copy()?,
            contact: *contact,
        },
        EventOf::Broadcast { name, payload } => EventOf::Broadcast {
            name: *name,
            payload: payload.clone()?,
        },
        EventOf::Arrive { place, dice } => EventOf::Arrive {
            place: *place,
            dice: KeptDice::new(alloc, dice)?,
        },
        EventOf::Lose { place } => EventOf::Lose { place: *place },
        EventOf::Again { number } => EventOf::Again { number: *number },
        EventOf::Fire { name, id } => EventOf::Fire {
            name: *name,
            id: *id,
        },
        EventOf::Flush { name } => EventOf::Flush { name: *name },
        EventOf::Down { name, peer, dice } => EventOf::Down {
            name: *name,
            peer: *peer,
            dice: KeptDice::new(alloc, dice)?,
        },
        EventOf::Shuffle { name, dice } => EventOf::Shuffle {
            name: *name,
            dice: KeptDice::new(alloc, dice)?,
        },
        EventOf::Join { name, contact } => EventOf::Join {
            name: *name,
            contact: *contact,
        },
        EventOf::Stop { name } => EventOf::Stop { name: *name },
    })
}
