//! How a frame of a trace arrives.
ghost use Rattle.std.specs.Prelude.{◌≡◌, suc, Ok, Some, true, false, IfErr, slice_get};
ghost use Rattle.std.specs.Bool.{Decides};
ghost use Rattle.std.specs.Map.{lookup};
ghost use Rattle.world.specs.declared.packet.Packet.{Packet as Sent};
ghost use Rattle.frames.specs.Frame.{Frame as Said};
ghost use Rattle.trace_merge.specs.FrameIds.{same_frame_id};
ghost use Rattle.trace_merge.specs.Merging.{AreDistinct, IsMerging, IsUnsent, Refuses, place_at};
ghost use Rattle.trace_merge.specs.Steps.{GoesOn};

use crate::fault::MergeFault;
use crate::frame_index::FrameId;
use crate::merging::Merging;
use frames::{Frame, same_frame};
use node_names::{Dice, NodeName, Origin};
use protocol::{Step, StimulusOf, Trace};
use std::alloc::Allocator;
use world::{EventOf, Packet};

/// Whether a packet carries this frame and goes to this name.
fn is_its<A: Allocator>(packet: &Packet<Frame<A>>, to: &NodeName, note: &Frame<A>) -> bool
    ensures { Decides result ((packet.now.to ≡ to.now) × (packet.now.note ≡ note.now)) }
{
    packet.to == *to && same_frame(&packet.note, note)
}

impl<A: Allocator + Copy> Merging<A> {
    /// The number of the packet with this frame, if it was sent.
    fn find(&self, id: &FrameId) -> Option<usize>
        ensures { result ≡ lookup (same_frame_id id.now) self.now.frames }
    {
        self.frames.find(id)
    }

    /// Whether the packet of this number carries this frame and goes to this name.
    fn has_sent(&self, number: usize, to: &NodeName, note: &Frame<A>) -> bool
        ensures { (packet : Sent Said)
            → slice_get self.now.world.group.sent number ≡ Some packet
            → Decides result ((packet.to ≡ to.now) × (packet.note ≡ note.now)) }
    {
        match self.world.sent().get(number) {
            Some(packet) => is_its(packet, to, note),
            None => false,
        }
    }

    /// Plays the step of a trace that is the arrival of a frame, if the frame was sent. Returns whether it was.
    pub(crate) fn take_arrival(
        &mut self,
        traces: &[Trace<Frame<A>, A>],
        at: usize,
        trace: &Trace<Frame<A>, A>,
        place: usize,
        step: &Step<Frame<A>, A>,
        sender: Origin,
        note: &Frame<A>,
        dice: Dice,
    ) -> Result<bool, MergeFault>
        requires distinct { AreDistinct traces.now }
        requires merging { IsMerging self.old.world.limits traces.now self.old }
        requires listed { slice_get traces.now at ≡ Some trace.now }
        requires placed { place_at self.old.places at ≡ Some place }
        requires taken { slice_get trace.now.steps place ≡ Some step.now }
        requires arrives { step.now.stimulus ≡ StimulusOf.Arrive sender note.now dice }
        ensures played { result ≡ Ok true → GoesOn traces.now at (suc place) self.old self.new }
        ensures waits { result ≡ Ok false
            → (self.new ≡ self.old) × IsUnsent traces.now self.old.places sender note.now.number }
        ensures err { IfErr result (Refuses self.old.world.limits traces.now) }
    {
        let number = note.number();
        let Some(number) = self.find(&FrameId { sender, number }) else {
            return Ok(false);
        };
        let origin = trace.origin();
        if !self.has_sent(number, &origin.name, note) {
            return Err(MergeFault::Unlike { origin, place });
        }
        let event = EventOf::Arrive {
            place: self.fly(traces, number)?,
            dice,
        };
        self.take_step(traces, at, trace, place, step, event)?;
        Ok(true)
    }
}
