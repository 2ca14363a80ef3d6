//! The packets of a group that may still arrive.
ghost use Rattle.std.specs.Prelude.{◌≡◌, ◌+◌, ◌<◌, ◌≤◌, [], ◌∷◌, Some, IfErr, OnOk, is_some, length};
ghost use Rattle.std.specs.Bool.{Decides};
ghost use Rattle.indexmap.specs.IndexMap.{spare};
ghost use Rattle.protocol.specs.Stimulus.{lent};
ghost use Rattle.world.specs.Group.{packets};
ghost use Rattle.run_check.specs.Following.{IsAwaited, Leaves, Posts, packet_of};
ghost use Rattle.run_check.specs.Refusals.{IsNotThere, IsUnreceived};

use crate::error::CheckError;
use crate::frame_id::FrameId;
use frames::{Frame, same_frame};
use indexmap::IndexMap;
use node_names::{NodeName, Origin};
use protocol::{StimulusOf, StimulusRef};
use std::alloc::Global;
use std::hash::{BuildHasherDefault, FoldHasher};
use world::Packet;

/// The packets that were sent and have not arrived, each under the id of its frame.
#[derive(Drop)]
pub(crate) struct Flying {
    pub(crate) map: IndexMap<FrameId, Packet<Frame>, BuildHasherDefault<FoldHasher>, Global>,
}

/// Whether a packet carries this frame of the sender, and goes to this name.
fn is_its(packet: &Packet<Frame>, sender: &Origin, to: &NodeName, note: &Frame) -> bool
    ensures { Decides result
        ((packet.now.sender ≡ sender.now) × (packet.now.to ≡ to.now) × (packet.now.note ≡ note.now)) }
{
    packet.sender == *sender && packet.to == *to && same_frame(&packet.note, note)
}

impl Flying {
    /// Makes a group in which nothing is in flight.
    pub(crate) fn new(alloc: Global) -> Flying
        ensures { result.map.entries ≡ [] }
    {
        Flying {
            map: IndexMap::new(alloc),
        }
    }

    /// Whether a frame of this id is in flight.
    pub(crate) fn has(&self, sender: Origin, note: &Frame) -> bool
        ensures { result ≡ is_some (packet_of self.now.map.entries sender note.now.number) }
    {
        self.map.contains_key(&FrameId::of(sender, note))
    }

    /// How many frames are in flight.
    pub(crate) fn len(&self) -> usize
        ensures { result ≡ length self.now.map.entries }
    {
        self.map.len()
    }

    /// Judges whether the packet of this frame, which goes to this name, is in flight.
    fn judge_packet(&self, sender: Origin, to: &NodeName, note: &Frame) -> Result<(), CheckError>
        ensures refused { IfErr result
            (IsNotThere self.now.map.entries (record { sender = sender; to = to.now; note = note.now })) }
        ensures there { OnOk result (packet_of self.now.map.entries sender note.now.number
            ≡ Some (record { sender = sender; to = to.now; note = note.now })) }
    {
        let id = FrameId::of(sender, note);
        let number = id.number;
        let Some(packet) = self.map.get(&id) else {
            return Err(CheckError::Unsent { sender, number });
        };
        if !is_its(packet, &sender, to, note) {
            return Err(CheckError::Unlike { sender, number });
        }
        Ok(())
    }

    /// Judges whether the packet that is to arrive at this name by the stimulus, if one is, is in flight.
    pub(crate) fn judge(
        &self,
        name: &NodeName,
        stimulus: &StimulusRef<'_, Frame>,
    ) -> Result<(), CheckError>
        ensures refused { IfErr result (IsUnreceived self.now.map.entries name.now (lent stimulus.now)) }
        ensures there { OnOk result (IsAwaited self.now.map.entries name.now (lent stimulus.now)) }
    {
        match stimulus {
            StimulusOf::Arrive { sender, note, .. } => self.judge_packet(*sender, name, note),
            _ => Ok(()),
        }
    }

    /// Makes room for so many packets more.
    pub(crate) fn reserve(&mut self, count: usize) -> Result<(), CheckError>
        ensures refused { IfErr result (λ e. e ≡ CheckError.OutOfMemory) }
        ensures room { OnOk result (count ≤ spare self.new.map) }
        ensures same { self.new.map.entries ≡ self.old.map.entries }
    {
        Ok(self.map.reserve(count)?)
    }

    /// Takes out the packet that arrives by the stimulus, if one does.
    pub(crate) fn receive(&mut self, stimulus: &StimulusRef<'_, Frame>)
        ensures leaves { Leaves self.old.map.entries (lent stimulus.now) self.new.map.entries }
        ensures room { spare self.old.map ≤ spare self.new.map }
    {
        if let StimulusOf::Arrive { sender, note, .. } = stimulus {
            self.map.swap_remove(&FrameId::of(*sender, note));
        }
    }

    /// Puts a packet into flight, for which there is room.
    fn post_one(&mut self, packet: Packet<Frame>)
        requires { 0 < spare self.old.map }
        ensures posts { Posts self.old.map.entries (packet ∷ []) self.new.map.entries }
        ensures room { spare self.old.map ≤ spare self.new.map + 1 }
    {
        let id = FrameId::of(packet.sender, &packet.note);
        self.map.insert(id, packet).unwrap();
    }

    /// Puts what a run sends into flight. There is room for it.
    pub(crate) fn post(&mut self, sender: &Origin, sends: Vec<(NodeName, Frame)>)
        requires { length sends.items ≤ spare self.old.map }
        ensures { Posts self.old.map.entries (packets sender.now sends.items) self.new.map.entries }
    {
        for (to, note) in sends {
            self.post_one(Packet {
                sender: *sender,
                to,
                note,
            });
        }
    }
}
