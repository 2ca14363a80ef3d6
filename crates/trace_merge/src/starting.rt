//! Starts the run of a trace.
ghost use Rattle.std.specs.Prelude.{◌≡◌, [], Some, None, IfErr, IfOk, OnOk, map, set, slice_get};
ghost use Rattle.std.specs.Bool.{Decides};
ghost use Rattle.trace_merge.specs.Merging.{AreDistinct, IsMerging, IsReady, Refuses, place_at, start_of};
ghost use Rattle.trace_merge.specs.Projection.{said};

use crate::fault::MergeFault;
use crate::merging::{Merging, fault_of};
use crate::sameness::same_sends;
use frames::Frame;
use node_names::Listed;
use protocol::{Out, Trace};
use std::alloc::{AllocError, Allocator};
use world::{Event, EventOf, Packet};

/// The event that starts the run of a trace.
fn start_of<A: Allocator + Copy>(
    alloc: A,
    trace: &Trace<Frame<A>, A>,
) -> Result<Event<A>, AllocError>
    ensures { IfOk result (λ event. event ≡ start_of trace.now) }
{
    let origin = trace.origin();
    let peers = Vec::from_slice(alloc, trace.peers())?;
    Ok(EventOf::Start {
        name: origin.name,
        incarnation: origin.incarnation,
        peers: Listed::from_vec(peers),
        contact: trace.contact(),
    })
}

/// Whether these packets are what an opening sends, and the opening delivers nothing.
fn is_opening<A: Allocator>(packets: &[Packet<Frame<A>>], opening: &Out<Frame<A>, A>) -> bool
    ensures { Decides result ((map said packets.now ≡ opening.now.sends) × (opening.now.deliveries ≡ [])) }
{
    same_sends(packets, opening.sends.as_slice()) && opening.deliveries.is_empty()
}

impl<A: Allocator + Copy> Merging<A> {
    /// Starts the run of the trace at index `at`. All earlier runs of its name must be finished.
    pub(crate) fn start(
        &mut self,
        alloc: A,
        traces: &[Trace<Frame<A>, A>],
        at: usize,
        trace: &Trace<Frame<A>, A>,
    ) -> Result<(), MergeFault>
        requires distinct { AreDistinct traces.now }
        requires merging { IsMerging self.old.world.limits traces.now self.old }
        requires listed { slice_get traces.now at ≡ Some trace.now }
        requires placed { place_at self.old.places at ≡ None }
        requires ready { IsReady traces.now self.old.places trace.now.origin }
        ensures limits { OnOk result (self.new.world.limits ≡ self.old.world.limits) }
        ensures places { OnOk result (self.new.places ≡ set self.old.places at (Some 0)) }
        ensures ok { OnOk result (IsMerging self.old.world.limits traces.now self.new) }
        ensures err { IfErr result (Refuses self.old.world.limits traces.now) }
    {
        let origin = trace.origin();
        let first = self.world.sent().len();
        if let Err(error) = self.play(start_of(alloc, trace)?) {
            return Err(fault_of(origin, 0, error));
        }
        if !is_opening(self.sent_since(first), trace.opening()) {
            return Err(MergeFault::NotARun { origin, place: 0 });
        }
        self.stand(at, 0);
        Ok(())
    }
}
