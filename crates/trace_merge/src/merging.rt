//! Traces that are being played into one group.
ghost use Rattle.std.specs.Prelude.{◌≡◌, ◌⊎◌, ◌<◌, ◌++◌, [], ◌∷◌, List, Some, IfErr, OnOk, drop, length, set, take};
ghost use Rattle.protocol.specs.Delivery.{Delivery as Delivered};
ghost use Rattle.world.specs.Refusals.{IsRefusal};
ghost use Rattle.world.specs.Run.{Applied};
ghost use Rattle.node_core.specs.Plum.{plum_state};
ghost use Rattle.node_core.specs.Steps.{PlumIsSpent, PlumStarts, PlumSteps};
ghost use Rattle.trace_merge.specs.FrameIds.{AreFound};
ghost use Rattle.trace_merge.specs.Merging.{Plays, fault_of};

use crate::fault::MergeFault;
use crate::frame_index::{FrameId, FrameIndex};
use frames::Frame;
use node_core::PlumCore;
use node_names::Origin;
use std::alloc::{AllocError, Allocator};
use std::marker::Model;
use world::{Event, Packet, World, WorldError};

/// A group, the events that it took, and how far each trace was played into it.
#[derive(Drop)]
pub(crate) struct Merging<A: Allocator + Copy> {
    pub(crate) world: World<PlumCore<A>, A>,
    pub(crate) events: Vec<Event<A>, A>,
    /// How many steps of each trace are played; none of one that is not started.
    pub(crate) places: Vec<Option<usize>, A>,
    /// Where each frame that was sent is found among the group's packets.
    pub(crate) frames: FrameIndex<A>,
}

impl<A: Allocator + Copy> Model for Merging<A> {
    ghost use Rattle.std.specs.Coded.{codes};
    ghost use Rattle.std.specs.FinSet as set;
    ghost use Rattle.node_names.specs.Order.{id_cmp};
    ghost use Rattle.node_names.specs.contracts.ids.MsgId as id;
    ghost use Rattle.trace_merge.specs.Merging.{Merge};

    ghost Value = { Merge };

    ghost coded = { Prim.hlevel (codes, set.code {R = id_cmp} id.the_row.coded) };

    ghost view = { λ m. record {
      world = m.world;
      events = m.events.items;
      places = m.places.items;
      frames = m.frames.numbers.entries;
    } };
}

/// Adds the packets from this number on to the index.
fn note<A: Allocator + Copy>(
    frames: &mut FrameIndex<A>,
    sent: &[Packet<Frame<A>>],
    first: usize,
) -> Result<(), AllocError>
    requires { AreFound (take first sent.now) frames.old.numbers.entries }
    ensures { OnOk result (AreFound sent.now frames.new.numbers.entries) }
{
    for at in first..sent.len() {
        let packet = &sent[at];
        let id = FrameId {
            sender: packet.sender,
            number: packet.note.number(),
        };
        frames.insert(id, at)?;
    }
    Ok(())
}

/// Has the group take an event, and remembers it.
fn play<A: Allocator + Copy>(
    world: &mut World<PlumCore<A>, A>,
    events: &mut Vec<Event<A>, A>,
    frames: &mut FrameIndex<A>,
    event: Event<A>,
) -> Result<(), WorldError>
    requires { AreFound world.old.group.sent frames.old.numbers.entries }
    ensures played { OnOk result
        ((given : List Delivered) × Applied plum_state PlumStarts PlumSteps event given world.old world.new) }
    ensures pushed { OnOk result (events.new.items ≡ events.old.items ++ event ∷ []) }
    ensures found { OnOk result (AreFound world.new.group.sent frames.new.numbers.entries) }
    ensures refused { IfErr result
        (λ e. (e ≡ WorldError.OutOfMemory) ⊎ IsRefusal PlumIsSpent world.old.limits world.old.group event e) }
{
    let first = world.sent().len();
    events.reserve(1)?;
    world.play(&event)?;
    note(frames, world.sent(), first)?;
    events.push(event).unwrap();
    Ok(())
}

impl<A: Allocator + Copy> Merging<A> {
    /// Has the group take an event. If it is refused for any cause but memory, the group is as it was.
    pub(crate) fn play(&mut self, event: Event<A>) -> Result<(), WorldError>
        requires { AreFound self.old.world.group.sent self.old.frames }
        ensures ok { OnOk result (Plays event self.old self.new) }
        ensures refused { IfErr result (λ e.
            (e ≡ WorldError.OutOfMemory) ⊎ IsRefusal PlumIsSpent self.old.world.limits self.old.world.group event e) }
    {
        play(&mut self.world, &mut self.events, &mut self.frames, event)
    }

    /// The packets from this number on.
    pub(crate) fn sent_since(&self, first: usize) -> &[Packet<Frame<A>>]
        ensures { result.now ≡ drop first self.now.world.group.sent }
    {
        self.world.sent().get(first..).unwrap_or(&[])
    }

    /// Remembers that so many steps of the trace at a place are played.
    pub(crate) fn stand(&mut self, at: usize, place: usize)
        requires { at < length self.old.places }
        ensures { self.new ≡ record self.old { places = set self.old.places at (Some place) } }
    {
        self.places[at] = Some(place);
    }
}

/// What a refusal of the group says of the step that it refused.
pub(crate) fn fault_of(origin: Origin, place: usize, error: WorldError) -> MergeFault
    ensures { result ≡ fault_of origin place error }
{
    match error {
        WorldError::OutOfMemory => MergeFault::OutOfMemory,
        _ => MergeFault::NotARun { origin, place },
    }
}
