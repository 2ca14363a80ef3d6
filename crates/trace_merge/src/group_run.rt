//! From the traces of running nodes to one run of a group.
ghost use Rattle.std.specs.Prelude.{◌≡◌, List, None, IfErr, IfOk, length, replicate};
ghost use Rattle.protocol.specs.Trace.{Trace as Traced};
ghost use Rattle.frames.specs.Frame.{Frame as Said};
ghost use Rattle.trace_merge.specs.Held.{AreOut};
ghost use Rattle.trace_merge.specs.Merging.{AreDistinct, IsMerged, IsMerging, Refuses};

use crate::doubled::first_doubled;
use crate::fault::MergeFault;
use crate::frame_index::FrameIndex;
use crate::merging::Merging;
use crate::stuck::first_left;
use frames::Frame;
use node_names::Limits;
use protocol::Trace;
use std::alloc::{AllocError, Allocator};
use world::{Event, World};

/// The places of so many traces, none of which is started.
fn unstarted<A: Allocator + Copy>(
    alloc: A,
    count: usize,
) -> Result<Vec<Option<usize>, A>, AllocError>
    ensures { IfOk result (λ places. places.items ≡ replicate count None) }
{
    let mut places = Vec::new(alloc);
    for _ in 0..count {
        places.push(None)?;
    }
    Ok(places)
}

impl<A: Allocator + Copy> Merging<A> {
    /// A group into which nothing of so many traces is played.
    fn new(alloc: A, limits: Limits, count: usize) -> Result<Merging<A>, AllocError>
        ensures limits { IfOk result (λ m. m.world.limits ≡ limits) }
        ensures merging { IfOk result
            (λ m. (traces : List (Traced Said)) → length traces ≡ count → IsMerging limits traces m) }
    {
        Ok(Merging {
            world: World::new(alloc, limits),
            events: Vec::new(alloc),
            places: unstarted(alloc, count)?,
            frames: FrameIndex::new(alloc),
        })
    }

    /// The events of traces that are all played out.
    fn into_events(self, traces: &[Trace<Frame<A>, A>]) -> Vec<Event<A>, A>
        requires distinct { AreDistinct traces.now }
        requires merging { IsMerging self.world.limits traces.now self }
        requires out { AreOut traces.now self.places }
        ensures { IsMerged self.world.limits traces.now result.items }
    {
        let _count = traces.len();
        self.world.headline();
        let Merging { events, .. } = self;
        events
    }
}

/// The events of one run of a group that has these traces: in which each of their nodes starts and does what its trace
/// says, and nothing else happens but that packets arrive more than once.
///
/// The traces are gone over in the order of the list, again and again, and each is played as far as it goes. A trace
/// starts once all traces of its name with lower incarnations are played out, and a frame arrives once it is sent.
/// `Doubled` comes first; `Unlike` and `NotARun` come where the trace that is gone over has them; `Stuck` where none
/// can be played on.
///
/// A trace that waits is visited again only once what it waits for has happened. So the traces cost what their steps
/// cost, up to a logarithm of the frames and of the traces; but each frame that arrives moves those behind it in the
/// group's flight.
pub fn merge<A: Allocator + Copy>(
    alloc: A,
    limits: Limits,
    traces: &[Trace<Frame<A>, A>],
) -> Result<Vec<Event<A>, A>, MergeFault>
    ensures merged { IfOk result (λ events. IsMerged limits traces.now events.items) }
    ensures refused { IfErr result (Refuses limits traces.now) }
{
    if let Some(origin) = first_doubled(alloc, traces)? {
        return Err(MergeFault::Doubled { origin });
    }
    let mut merging = Merging::new(alloc, limits, traces.len())?;
    merging.play_all(alloc, traces)?;
    match first_left(traces, &merging.places) {
        Some((origin, place)) => Err(MergeFault::Stuck { origin, place }),
        None => Ok(merging.into_events(traces)),
    }
}
