//! Whether a run may start.
ghost use Rattle.std.specs.Prelude.{◌≡◌, Some, true, false, IfNone, IfSome, slice_get};
ghost use Rattle.std.specs.Bool.{Decides};
ghost use Rattle.protocol.specs.Trace.{Trace as Traced};
ghost use Rattle.frames.specs.Frame.{Frame as Said};
ghost use Rattle.trace_merge.specs.Held.{IsEarlier};
ghost use Rattle.trace_merge.specs.Left.{AreLeft};
ghost use Rattle.trace_merge.specs.Merging.{AreDistinct, AwaitsRun, IsOut, IsReady, place_at};

use crate::stuck::{is_out, place_at};
use crate::unfinished::Unfinished;
use frames::Frame;
use node_names::Origin;
use protocol::Trace;
use std::alloc::Allocator;

/// Whether the first run is an earlier run of the same name as the other.
pub(crate) fn is_earlier(one: &Origin, other: &Origin) -> bool
    ensures { Decides result (IsEarlier one.now other.now) }
{
    one.name == other.name && one.incarnation.0 < other.incarnation.0
}

/// Whether the trace at index `at` is finished.
fn is_out_at<A: Allocator>(
    traces: &[Trace<Frame<A>, A>],
    places: &[Option<usize>],
    at: usize,
) -> bool
    ensures { (t : Traced Said) → slice_get traces.now at ≡ Some t → Decides result (IsOut t (place_at places.now at)) }
{
    match traces.get(at) {
        Some(trace) => is_out(trace, place_at(places, at)),
        None => false,
    }
}

/// The last earlier run of the name that is not finished, if there is one. Runs that are found to be finished are taken
/// out of `left`, so that all calls together cost no more than one look-up each and one for each run.
pub(crate) fn awaited_run<A: Allocator + Copy>(
    traces: &[Trace<Frame<A>, A>],
    places: &[Option<usize>],
    left: &mut Unfinished<A>,
    origin: &Origin,
) -> Option<Origin>
    requires distinct { AreDistinct traces.now }
    requires left { AreLeft traces.now places.now left.old.runs }
    ensures left { AreLeft traces.now places.now left.new.runs }
    ensures ready { IfNone result (IsReady traces.now places.now origin.now) }
    ensures awaits { IfSome result (λ run. AwaitsRun traces.now places.now origin.now) }
{
    while let Some((run, at)) = left.last_before(origin) {
        if !is_out_at(traces, places, at) {
            return Some(run);
        }
        left.remove(&run);
    }
    None
}

/// Whether all earlier runs of the name are finished.
pub(crate) fn is_ready<A: Allocator + Copy>(
    traces: &[Trace<Frame<A>, A>],
    places: &[Option<usize>],
    left: &mut Unfinished<A>,
    origin: &Origin,
) -> bool
    requires distinct { AreDistinct traces.now }
    requires left { AreLeft traces.now places.now left.old.runs }
    ensures left { AreLeft traces.now places.now left.new.runs }
    ensures ready { result ≡ true → IsReady traces.now places.now origin.now }
    ensures awaits { result ≡ false → AwaitsRun traces.now places.now origin.now }
{
    match awaited_run(traces, places, left, origin) {
        Some(_) => false,
        None => true,
    }
}
