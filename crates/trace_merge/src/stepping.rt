//! Plays a step of a trace.
ghost use Rattle.std.specs.Prelude.{◌≡◌, ◌<◌, ◌≤◌, ◌++◌, [], ◌∷◌, List, suc, Some};
ghost use Rattle.std.specs.Prelude.{IfErr, IfSome, OnOk, length, map, set, slice_get};
ghost use Rattle.std.specs.Bool.{Decides};
ghost use Rattle.world.specs.Entry.{Entry as Kept};
ghost use Rattle.trace_merge.specs.Merging.{AreDistinct, IsMerging, Refuses, Tells, place_at, sent_within};
ghost use Rattle.trace_merge.specs.Numbers.{AreFew, AreShort};
ghost use Rattle.trace_merge.specs.Projection.{said};

use crate::fault::MergeFault;
use crate::merging::{Merging, fault_of};
use crate::sameness::{same_deliveries, same_sends};
use frames::Frame;
use node_names::NodeName;
use protocol::{Delivery, Out, Step, Trace};
use std::alloc::Allocator;
use world::{Entry, Event, Packet};

/// Whether these packets and deliveries are those of an output.
fn is_output<A: Allocator>(
    packets: &[Packet<Frame<A>>],
    given: &[Delivery<A>],
    out: &Out<Frame<A>, A>,
) -> bool
    ensures { Decides result ((map said packets.now ≡ out.now.sends) × (given.now ≡ out.now.deliveries)) }
{
    same_sends(packets, out.sends.as_slice()) && same_deliveries(given, out.deliveries.as_slice())
}

/// Whether these packets and deliveries are what a step sent and delivered.
fn is_done<A: Allocator>(
    packets: &[Packet<Frame<A>>],
    given: &[Delivery<A>],
    step: &Step<Frame<A>, A>,
) -> bool
    ensures { Decides result ((map said packets.now ≡ step.now.out.sends) × (given.now ≡ step.now.out.deliveries)) }
{
    is_output(packets, given, &step.out)
}

/// What the last event of a log delivered.
fn last_given<A: Allocator>(log: &[Entry<A>]) -> &[Delivery<A>]
    ensures { (before : List Kept) (entry : Kept) → log.now ≡ before ++ entry ∷ [] → result.now ≡ entry.given }
{
    match log.last() {
        Some(entry) => entry.given.as_slice(),
        None => &[],
    }
}

/// Ensures that a number has at most 64 bits.
fn tell(_number: u64)
    ensures { _number ≤ u64.MAX }
{}

/// Ensures that the frames' numbers have at most 64 bits.
fn tell_numbers<A: Allocator>(sends: &[(NodeName, Frame<A>)])
    ensures { AreShort sends.now }
{
    for send in sends {
        tell(send.1.number());
    }
}

/// Ensures that the messages' numbers have at most 64 bits.
fn tell_messages<A: Allocator>(given: &[Delivery<A>])
    ensures { AreFew given.now }
{
    for delivery in given {
        tell(delivery.id.seq);
    }
}

/// Ensures that the numbers of the messages that an output delivers have at most 64 bits.
fn tell_given<A: Allocator>(out: &Out<Frame<A>, A>)
    ensures { AreFew out.now.deliveries }
{
    tell_messages(out.deliveries.as_slice());
}

/// Ensures that the numbers of the messages that a step delivered have at most 64 bits.
fn tell_delivered<A: Allocator>(step: &Step<Frame<A>, A>)
    ensures { AreFew step.now.out.deliveries }
{
    tell_given(&step.out);
}

/// Ensures that the numbers of all frames that an output sends have at most 64 bits.
fn tell_opening<A: Allocator>(opening: &Out<Frame<A>, A>)
    ensures { AreShort opening.now.sends }
{
    tell_numbers(opening.sends.as_slice());
}

/// Ensures that the numbers of all frames that a step sends have at most 64 bits.
fn tell_sent<A: Allocator>(step: &Step<Frame<A>, A>)
    ensures { AreShort step.now.out.sends }
{
    tell_opening(&step.out);
}

/// Ensures that the numbers of all frames that the step at index `at` sends have at most 64 bits.
fn tell_step<A: Allocator>(trace: &Trace<Frame<A>, A>, at: usize)
    requires { at < length trace.now.steps }
    ensures { IfSome (slice_get trace.now.steps at) (λ step. AreShort step.out.sends) }
{
    if let Some(step) = trace.step(at) {
        tell_sent(step);
    }
}

/// Ensures that the numbers of all frames that a trace sends in its opening and its first `count` steps have at most
/// 64 bits.
fn tell_all<A: Allocator>(trace: &Trace<Frame<A>, A>, count: usize)
    requires { count ≤ length trace.now.steps }
    ensures { AreShort (sent_within count trace.now) }
{
    tell_opening(trace.opening());
    for at in 0..count {
        tell_step(trace, at);
    }
}

/// The place after this one.
fn after<A: Allocator>(trace: &Trace<Frame<A>, A>, place: usize) -> usize
    requires { place < length trace.now.steps }
    ensures { result ≡ suc place }
{
    let _count = trace.len();
    place + 1
}

impl<A: Allocator + Copy> Merging<A> {
    /// Plays the step of a trace as the event that gives its stimulus to the core.
    pub(crate) fn take_step(
        &mut self,
        traces: &[Trace<Frame<A>, A>],
        at: usize,
        trace: &Trace<Frame<A>, A>,
        place: usize,
        step: &Step<Frame<A>, A>,
        event: Event<A>,
    ) -> Result<(), MergeFault>
        requires distinct { AreDistinct traces.now }
        requires merging { IsMerging self.old.world.limits traces.now self.old }
        requires listed { slice_get traces.now at ≡ Some trace.now }
        requires placed { place_at self.old.places at ≡ Some place }
        requires taken { slice_get trace.now.steps place ≡ Some step.now }
        requires tells { Tells self.old.world.group event trace.now.origin.name step.now.stimulus }
        ensures limits { OnOk result (self.new.world.limits ≡ self.old.world.limits) }
        ensures places { OnOk result (self.new.places ≡ set self.old.places at (Some (suc place))) }
        ensures ok { OnOk result (IsMerging self.old.world.limits traces.now self.new) }
        ensures err { IfErr result (Refuses self.old.world.limits traces.now) }
    {
        let origin = trace.origin();
        let next = after(trace, place);
        let first = self.world.sent().len();
        if let Err(error) = self.play(event) {
            tell_all(trace, next);
            tell_delivered(step);
            return Err(fault_of(origin, place, error));
        }
        let given = last_given(self.world.log());
        if !is_done(self.sent_since(first), given, step) {
            return Err(MergeFault::NotARun { origin, place });
        }
        self.stand(at, next);
        Ok(())
    }
}
