//! Plays traces as far as they go.
ghost use Rattle.std.specs.Prelude.{◌≡◌, ◌<◌, suc, Ok, None, Some, true, false, IfErr, IfOk, OnOk, length, slice_get};
ghost use Rattle.world.specs.Group.{Group};
ghost use Rattle.frames.specs.Frame.{Frame as Said};
ghost use Rattle.node_core.specs.Plum.{Plum};
ghost use Rattle.trace_merge.specs.Held.{AreHeld};
ghost use Rattle.trace_merge.specs.Left.{AreLeft};
ghost use Rattle.trace_merge.specs.Merging.{AreDistinct, AwaitsBy, AwaitsRun, IsMerging, Refuses, Tells, place_at};
ghost use Rattle.trace_merge.specs.Steps.{Advances, GoesOn, IsNoArrival, Rests};

use crate::fault::MergeFault;
use crate::merging::Merging;
use crate::readiness::{awaited_run, is_ready};
use crate::stuck::{is_out, place_at};
use crate::unfinished::Unfinished;
use crate::visits::{Awaited, Visit, Visits};
use frames::Frame;
use node_names::NodeName;
use protocol::{Step, Stimulus, StimulusOf, Trace};
use std::alloc::{AllocError, Allocator};
use world::{Event, EventOf};

/// The event that gives a stimulus, which must not be an arrival, to the core of this name.
fn event_of<A: Allocator + Copy>(
    name: NodeName,
    stimulus: &Stimulus<Frame<A>, A>,
) -> Result<Event<A>, AllocError>
    requires { IsNoArrival stimulus.now }
    ensures { IfOk result (λ event. (group : Group Plum Said) → Tells group event name stimulus.now) }
{
    Ok(match stimulus {
        StimulusOf::Broadcast(payload) => EventOf::Broadcast {
            name,
            payload: payload.clone()?,
        },
        StimulusOf::Fire(id) => EventOf::Fire { name, id: *id },
        StimulusOf::Flush => EventOf::Flush { name },
        StimulusOf::Down { peer, dice } => EventOf::Down {
            name,
            peer: *peer,
            dice: *dice,
        },
        StimulusOf::Shuffle(dice) => EventOf::Shuffle { name, dice: *dice },
        StimulusOf::Join(contact) => EventOf::Join {
            name,
            contact: *contact,
        },
        StimulusOf::Arrive { .. } => unreachable!(),
    })
}

impl<A: Allocator + Copy> Merging<A> {
    /// Plays the next step of a trace, unless it waits for a frame. Returns whether it was played.
    fn take_next(
        &mut self,
        traces: &[Trace<Frame<A>, A>],
        at: usize,
        trace: &Trace<Frame<A>, A>,
        place: usize,
        step: &Step<Frame<A>, A>,
    ) -> Result<bool, MergeFault>
        requires distinct { AreDistinct traces.now }
        requires merging { IsMerging self.old.world.limits traces.now self.old }
        requires listed { slice_get traces.now at ≡ Some trace.now }
        requires placed { place_at self.old.places at ≡ Some place }
        requires taken { slice_get trace.now.steps place ≡ Some step.now }
        ensures played { result ≡ Ok true → GoesOn traces.now at (suc place) self.old self.new }
        ensures same { result ≡ Ok false → self.new ≡ self.old }
        ensures waits { result ≡ Ok false → AwaitsBy traces.now self.old.places step.now.stimulus }
        ensures err { IfErr result (Refuses self.old.world.limits traces.now) }
    {
        if let StimulusOf::Arrive { sender, note, dice } = &step.stimulus {
            return self.take_arrival(traces, at, trace, place, step, *sender, note, *dice);
        }
        let event = event_of(trace.origin().name, &step.stimulus)?;
        self.take_step(traces, at, trace, place, step, event)?;
        Ok(true)
    }
}

impl<A: Allocator + Copy> Merging<A> {
    /// Plays what comes next in the trace at index `at`, its start or a step, unless that must wait. Returns whether it
    /// was played.
    fn play_one(
        &mut self,
        alloc: A,
        traces: &[Trace<Frame<A>, A>],
        left: &mut Unfinished<A>,
        at: usize,
    ) -> Result<bool, MergeFault>
        requires distinct { AreDistinct traces.now }
        requires merging { IsMerging self.old.world.limits traces.now self.old }
        requires left { AreLeft traces.now self.old.places left.old.runs }
        requires within { at < length traces.now }
        ensures left { OnOk result (AreLeft traces.now self.new.places left.new.runs) }
        ensures played { result ≡ Ok true → Advances traces.now self.old self.new }
        ensures waits { result ≡ Ok false → Rests traces.now at self.old self.new }
        ensures err { IfErr result (Refuses self.old.world.limits traces.now) }
    {
        let trace = &traces[at];
        let Some(place) = place_at(&self.places, at) else {
            return self.start_ready(alloc, traces, left, at, trace);
        };
        match trace.step(place) {
            Some(step) => self.take_next(traces, at, trace, place, step),
            None => Ok(false),
        }
    }

    /// Starts a trace, unless an earlier run of its name must finish first. Returns whether it was started.
    fn start_ready(
        &mut self,
        alloc: A,
        traces: &[Trace<Frame<A>, A>],
        left: &mut Unfinished<A>,
        at: usize,
        trace: &Trace<Frame<A>, A>,
    ) -> Result<bool, MergeFault>
        requires distinct { AreDistinct traces.now }
        requires merging { IsMerging self.old.world.limits traces.now self.old }
        requires left { AreLeft traces.now self.old.places left.old.runs }
        requires listed { slice_get traces.now at ≡ Some trace.now }
        requires placed { place_at self.old.places at ≡ None }
        ensures left { OnOk result (AreLeft traces.now self.old.places left.new.runs) }
        ensures played { result ≡ Ok true → GoesOn traces.now at 0 self.old self.new }
        ensures same { result ≡ Ok false → self.new ≡ self.old }
        ensures waits { result ≡ Ok false → AwaitsRun traces.now self.old.places trace.now.origin }
        ensures err { IfErr result (Refuses self.old.world.limits traces.now) }
    {
        if !is_ready(traces, &self.places, left, &trace.origin()) {
            return Ok(false);
        }
        self.start(alloc, traces, at, trace)?;
        Ok(true)
    }
}

impl<A: Allocator + Copy> Merging<A> {
    /// Plays a trace as far as it goes. Returns whether anything was played.
    fn play_on(
        &mut self,
        alloc: A,
        traces: &[Trace<Frame<A>, A>],
        left: &mut Unfinished<A>,
        at: usize,
    ) -> Result<bool, MergeFault>
        requires distinct { AreDistinct traces.now }
        requires merging { IsMerging self.old.world.limits traces.now self.old }
        requires left { AreLeft traces.now self.old.places left.old.runs }
        requires within { at < length traces.now }
        ensures left { OnOk result (AreLeft traces.now self.new.places left.new.runs) }
        ensures played { result ≡ Ok true → Advances traces.now self.old self.new }
        ensures waits { result ≡ Ok false → Rests traces.now at self.old self.new }
        ensures err { IfErr result (Refuses self.old.world.limits traces.now) }
    {
        let mut moved = false;
        loop {
            if !self.play_one(alloc, traces, left, at)? {
                return Ok(moved);
            }
            moved = true;
        }
    }

    /// What the trace at index `at`, which can't be played on, waits for. A finished one waits for nothing.
    fn awaited(
        &self,
        traces: &[Trace<Frame<A>, A>],
        left: &mut Unfinished<A>,
        at: usize,
    ) -> Option<Awaited>
        requires distinct { AreDistinct traces.now }
        requires left { AreLeft traces.now self.now.places left.old.runs }
        requires within { at < length traces.now }
        ensures left { AreLeft traces.now self.now.places left.new.runs }
    {
        let trace = &traces[at];
        match place_at(&self.places, at) {
            Some(place) => Awaited::of(trace.step(place)?),
            None => awaited_run(traces, &self.places, left, &trace.origin()).map(Awaited::Run),
        }
    }

    /// Wakes the traces that wait for what a visit brought about, which sent the packets from number `first` on.
    fn wake(
        &self,
        trace: &Trace<Frame<A>, A>,
        first: usize,
        visits: &mut Visits<A>,
        visit: &Visit,
    ) -> Result<(), AllocError> {
        for packet in self.sent_since(first) {
            visits.wake(&Awaited::sent(packet), visit)?;
        }
        if is_out(trace, place_at(&self.places, visit.at)) {
            visits.wake(&Awaited::Run(trace.origin()), visit)?;
        }
        Ok(())
    }
}

impl<A: Allocator + Copy> Merging<A> {
    /// Plays a trace as far as it goes, has it wait, and wakes those that waited for what it did. Returns whether
    /// anything was played.
    fn visit(
        &mut self,
        alloc: A,
        traces: &[Trace<Frame<A>, A>],
        left: &mut Unfinished<A>,
        visits: &mut Visits<A>,
        visit: &Visit,
    ) -> Result<bool, MergeFault>
        requires distinct { AreDistinct traces.now }
        requires merging { IsMerging self.old.world.limits traces.now self.old }
        requires left { AreLeft traces.now self.old.places left.old.runs }
        requires within { visit.now.at < length traces.now }
        ensures left { OnOk result (AreLeft traces.now self.new.places left.new.runs) }
        ensures played { result ≡ Ok true → Advances traces.now self.old self.new }
        ensures same { result ≡ Ok false → self.new ≡ self.old }
        ensures visits { result ≡ Ok false → visits.new.next ≡ visits.old.next }
        ensures err { IfErr result (Refuses self.old.world.limits traces.now) }
    {
        let first = self.world.sent().len();
        let moved = self.play_on(alloc, traces, left, visit.at)?;
        if let Some(awaited) = self.awaited(traces, left, visit.at) {
            visits.wait(alloc, awaited, visit.at)?;
        }
        if moved {
            self.wake(&traces[visit.at], first, visits, visit)?;
        }
        Ok(moved)
    }

    /// Makes the visits that are to come until one of them plays something. Returns whether one did.
    fn visit_next(
        &mut self,
        alloc: A,
        traces: &[Trace<Frame<A>, A>],
        left: &mut Unfinished<A>,
        visits: &mut Visits<A>,
    ) -> Result<bool, MergeFault>
        requires distinct { AreDistinct traces.now }
        requires merging { IsMerging self.old.world.limits traces.now self.old }
        requires left { AreLeft traces.now self.old.places left.old.runs }
        ensures left { OnOk result (AreLeft traces.now self.new.places left.new.runs) }
        ensures played { result ≡ Ok true → Advances traces.now self.old self.new }
        ensures same { result ≡ Ok false → self.new ≡ self.old }
        ensures err { IfErr result (Refuses self.old.world.limits traces.now) }
    {
        while let Some(visit) = visits.pop() {
            if visit.at < traces.len() && self.visit(alloc, traces, left, visits, &visit)? {
                return Ok(true);
            }
        }
        Ok(false)
    }

    /// Visits the traces in the order of the list, again and again, until none can be played any further. A trace that
    /// waits is passed over until what it waits for has happened.
    fn play_woken(
        &mut self,
        alloc: A,
        traces: &[Trace<Frame<A>, A>],
        left: &mut Unfinished<A>,
    ) -> Result<(), MergeFault>
        requires distinct { AreDistinct traces.now }
        requires merging { IsMerging self.old.world.limits traces.now self.old }
        requires left { AreLeft traces.now self.old.places left.old.runs }
        ensures limits { OnOk result (self.new.world.limits ≡ self.old.world.limits) }
        ensures merging { OnOk result (IsMerging self.old.world.limits traces.now self.new) }
        ensures left { OnOk result (AreLeft traces.now self.new.places left.new.runs) }
        ensures err { IfErr result (Refuses self.old.world.limits traces.now) }
    {
        let mut visits = Visits::new(alloc, traces.len())?;
        while self.visit_next(alloc, traces, left, &mut visits)? {}
        Ok(())
    }
}

impl<A: Allocator + Copy> Merging<A> {
    /// Visits all traces once, and plays each as far as it goes. Returns whether anything was played.
    fn pass(
        &mut self,
        alloc: A,
        traces: &[Trace<Frame<A>, A>],
        left: &mut Unfinished<A>,
    ) -> Result<bool, MergeFault>
        requires distinct { AreDistinct traces.now }
        requires merging { IsMerging self.old.world.limits traces.now self.old }
        requires left { AreLeft traces.now self.old.places left.old.runs }
        ensures left { OnOk result (AreLeft traces.now self.new.places left.new.runs) }
        ensures played { result ≡ Ok true → Advances traces.now self.old self.new }
        ensures same { result ≡ Ok false → self.new ≡ self.old }
        ensures waits { result ≡ Ok false → AreHeld traces.now self.old.places }
        ensures err { IfErr result (Refuses self.old.world.limits traces.now) }
    {
        let mut moved = false;
        for at in 0..traces.len() {
            moved |= self.play_on(alloc, traces, left, at)?;
        }
        Ok(moved)
    }

    /// Plays the traces until none can be played any further. Only whom to visit next rests on what the traces wait
    /// for: that none can be played is what a last pass over all of them finds.
    pub(crate) fn play_all(
        &mut self,
        alloc: A,
        traces: &[Trace<Frame<A>, A>],
    ) -> Result<(), MergeFault>
        requires distinct { AreDistinct traces.now }
        requires merging { IsMerging self.old.world.limits traces.now self.old }
        ensures limits { OnOk result (self.new.world.limits ≡ self.old.world.limits) }
        ensures merging { OnOk result (IsMerging self.old.world.limits traces.now self.new) }
        ensures held { OnOk result (AreHeld traces.now self.new.places) }
        ensures err { IfErr result (Refuses self.old.world.limits traces.now) }
    {
        let mut left = Unfinished::new(alloc, traces)?;
        self.play_woken(alloc, traces, &mut left)?;
        while self.pass(alloc, traces, &mut left)? {}
        Ok(())
    }
}
