//! Compares what the ports got for their broadcasts with the trace.
ghost use Rattle.std.specs.Prelude.{◌≡◌, ◌↔◌, true, None, length, IfOk, IfSome, IsTrue, slice_set};
ghost use Rattle.std.specs.Bool.{OnTrue, OnFalse};
ghost use Rattle.node_threads.specs.Marks.{Fits, FitsAt, HasMarks, LacksMark, Marks};
ghost use Rattle.node_threads.specs.Receipts.{AllAlike, Broadcasts, IsFirstUnlike, broadcasts_of};

use crate::cell::receipt::Call;
use frames::Frame;
use node_names::Listed;
use protocol::{Step, StimulusOf, Trace};
use std::alloc::{AllocError, Allocator};

/// Whether the step is a broadcast.
fn is_broadcast<A: Allocator>(step: &Step<Frame<A>, A>) -> bool
    ensures { IsTrue result ↔ (broadcasts_of step.now.stimulus ≡ 1) }
{
    matches!(step.stimulus, StimulusOf::Broadcast(_))
}

/// Whether the step broadcast the payload of the call, under the id of its receipt.
fn is_broadcast_of<A: Allocator>(step: &Step<Frame<A>, A>, call: &Call<A>) -> bool
    ensures { IsTrue result ↔ Broadcasts step.now call.now.payload call.now.receipt.id }
{
    let StimulusOf::Broadcast(payload) = &step.stimulus else {
        return false;
    };
    let Some(delivery) = step.out.deliveries.as_slice().first() else {
        return false;
    };
    *payload == call.payload && delivery.id == call.receipt.id
}

/// Whether the receipt of the call is right and its place has no mark and is not below `low`. If so, the place is
/// marked.
fn mark_one<A: Allocator>(
    trace: &Trace<Frame<A>, A>,
    marks: &mut [bool],
    low: usize,
    call: &Call<A>,
) -> bool
    requires { length marks.old ≡ length trace.now.steps }
    ensures fits { OnTrue result (FitsAt trace.now.steps marks.old low call.now) }
    ensures marked { OnTrue result (marks.new ≡ slice_set marks.old call.now.receipt.place true) }
    ensures unlike { OnFalse result (¬ FitsAt trace.now.steps marks.old low call.now) }
{
    let place = call.receipt.place;
    let Some(step) = trace.step(place) else {
        return false;
    };
    if place < low || marks[place] || !is_broadcast_of(step, call) {
        return false;
    }
    marks[place] = true;
    true
}

/// Whether the receipts of a port are right, in order, and for different steps that have no mark. If so, their places
/// are marked; if not, some of the places may be.
fn mark_all<A: Allocator>(trace: &Trace<Frame<A>, A>, marks: &mut [bool], calls: &[Call<A>]) -> bool
    requires { length marks.old ≡ length trace.now.steps }
    ensures fits { OnTrue result (Fits trace.now.steps marks.old 0 calls.now) }
    ensures marked { OnTrue result (Marks marks.old calls.now marks.new) }
    ensures unlike { OnFalse result (¬ Fits trace.now.steps marks.old 0 calls.now) }
{
    let mut low = 0;
    for call in calls {
        if !mark_one(trace, marks, low, call) {
            return false;
        }
        low = call.receipt.place + 1;
    }
    true
}

/// Whether some broadcast of the trace has no mark.
fn lacks_mark<A: Allocator>(trace: &Trace<Frame<A>, A>, marks: &[bool]) -> bool
    requires { length marks.now ≡ length trace.now.steps }
    ensures lacking { OnTrue result (LacksMark trace.now.steps marks.now) }
    ensures all { OnFalse result (HasMarks trace.now.steps marks.now) }
{
    for (place, marked) in marks.iter().enumerate() {
        let Some(step) = trace.step(place) else {
            unreachable!()
        };
        if !*marked && is_broadcast(step) {
            return true;
        }
    }
    false
}

/// Returns the first port whose receipts are not, in order, those of broadcasts of its payloads in the trace that no
/// earlier port has. If there is no such port, but a broadcast of the trace is in none of the ports, returns the number
/// of ports. Returns `None` if the ports have all broadcasts of the trace and nothing else.
pub(crate) fn first_unlike<A: Allocator + Copy>(
    alloc: A,
    trace: &Trace<Frame<A>, A>,
    ports: &[Listed<Call<A>, A>],
) -> Result<Option<usize>, AllocError>
    ensures alike { IfOk result (λ r. (r ≡ None) ↔ AllAlike trace.now.steps ports.now) }
    ensures unlike { IfOk result (λ r. IfSome r (IsFirstUnlike trace.now.steps ports.now)) }
{
    let mut marks = vec![in alloc; false; trace.len()]?;
    for (n, calls) in ports.iter().enumerate() {
        if !mark_all(trace, &mut marks, calls.as_slice()) {
            return Ok(Some(n));
        }
    }
    if lacks_mark(trace, &marks) {
        return Ok(Some(ports.len()));
    }
    Ok(None)
}
