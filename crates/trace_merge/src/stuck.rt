//! Traces that cannot be played any further.
ghost use Rattle.std.specs.Prelude.{◌≡◌, IfNone, IfSome};
ghost use Rattle.std.specs.Bool.{Decides};
ghost use Rattle.trace_merge.specs.Held.{AreHeld, AreOut};
ghost use Rattle.trace_merge.specs.Merging.{AreStuck, IsOut, place_at};

use frames::Frame;
use node_names::Origin;
use protocol::Trace;
use std::alloc::Allocator;

/// Whether a trace is finished.
pub(crate) fn is_out<A: Allocator>(trace: &Trace<Frame<A>, A>, place: Option<usize>) -> bool
    ensures { Decides result (IsOut trace.now place) }
{
    match place {
        Some(played) => played == trace.len(),
        None => false,
    }
}

/// How many steps of the trace at index `at` are played; `None` if it is not started.
pub(crate) fn place_at(places: &[Option<usize>], at: usize) -> Option<usize>
    ensures { result ≡ place_at places.now at }
{
    match places.get(at) {
        Some(place) => *place,
        None => None,
    }
}

/// The first trace that is not finished: its run, and how many of its steps are played.
pub(crate) fn first_left<A: Allocator>(
    traces: &[Trace<Frame<A>, A>],
    places: &[Option<usize>],
) -> Option<(Origin, usize)>
    ensures stuck { IfSome result (λ left. AreHeld traces.now places.now → AreStuck traces.now left.0 left.1) }
    ensures out { IfNone result (AreOut traces.now places.now) }
{
    for (at, trace) in traces.iter().enumerate() {
        let place = place_at(places, at);
        if !is_out(trace, place) {
            return Some((trace.origin(), place.unwrap_or(0)));
        }
    }
    None
}
