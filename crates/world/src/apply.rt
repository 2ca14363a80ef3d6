//! The playing of events: of one, or of a whole list.
ghost use Rattle.std.specs.Prelude.{◌≡◌, ◌<◌, [], ◌∷◌, ◌++◌, List, Some, None, IfOk, IfErr};
ghost use Rattle.std.specs.Prelude.{OnOk, OnErr, MatchResult, length, slice_get, take};
ghost use Rattle.std.specs.Option.{ForSome};
ghost use Rattle.protocol.specs.Delivery.{Delivery as Delivered};
ghost use Rattle.world.specs.Headline.{Headline};
ghost use Rattle.world.specs.Play.{Plays, PlaysOn, RefusesAt, given_at};
ghost use Rattle.world.specs.Plan.{IsReady, planned};
ghost use Rattle.world.specs.Refusals.{IsRefusal, refusal};
ghost use Rattle.world.specs.Run.{Applied, Happens};

use crate::commit::{make_change, make_room, post, put_last};
use crate::error::WorldError;
use crate::event::Event;
use crate::given::{Given, RunFault};
use crate::plan::Plan;
use crate::world::World;
use node_names::Listed;
use protocol::{Core, Delivery, copy_deliveries};
use std::alloc::{AllocError, Allocator};

impl<C: Core<A>, A: Allocator + Copy> World<C, A> {
    /// Carries out a plan entirely, or changes nothing if an allocation is refused. All room is reserved first, so the
    /// step of a core is the last action that can fail.
    fn commit(&mut self, plan: Plan<C, A>) -> Result<(), AllocError>
        requires happens { Happens C.state C.starts C.steps self.old.limits self.old.group plan.entry
            (planned C.after self.old.group plan.entry plan.change plan.packets.items plan.leaving plan.again) }
        requires leaving { ForSome plan.leaving (λ place. place < length self.old.group.flight) }
        requires ready { IsReady C.is_turn self.old.group.nodes self.old.group.sent plan.entry plan.change }
        ensures group { OnOk result (self.new.group
            ≡ planned C.after self.old.group plan.entry plan.change plan.packets.items plan.leaving plan.again) }
        ensures log { OnOk result (self.new.log ≡ self.old.log ++ plan.entry ∷ []) }
        ensures limits { self.new.limits ≡ self.old.limits }
        ensures err { OnErr result (self.new ≡ self.old) }
    {
        let Plan {
            change,
            packets,
            leaving,
            again,
            entry,
        } = plan;
        make_room(
            &mut self.log,
            &mut self.names,
            &mut self.nodes,
            &mut self.sent,
            &mut self.flight,
            packets.len(),
        )?;
        make_change(&mut self.names, &mut self.nodes, &self.sent, &entry, change)?;
        post(&mut self.sent, &mut self.flight, packets, leaving, again);
        put_last(&mut self.log, entry);
        Ok(())
    }

    /// Plays one event, and returns what it delivered.
    ///
    /// If several refusals up to `PayloadTooLong` apply to the event, it is the first of them in the order of
    /// `WorldError`'s variants that is returned; `SeqSpent` and `OutOfMemory` come only if none of those applies. A
    /// refused event changes nothing.
    pub fn apply(&mut self, event: Event<A>) -> Result<Vec<Delivery<A>, A>, WorldError>
        ensures applied { IfOk result (λ given. Applied C.state C.starts C.steps event given.items self.old self.new) }
        ensures err { OnErr result (self.new ≡ self.old) }

        // Each refusal up to `PayloadTooLong` comes exactly when its condition holds and that of no earlier one does.
        // `SeqSpent` and `OutOfMemory` come only when no such condition holds.
        ensures refused { IfErr result (IsRefusal C.is_spent self.old.limits self.old.group event) }
        ensures accepted { OnOk result (refusal self.old.limits self.old.group event ≡ None) }
    {
        let plan = self.plan(&event)?;
        let given = copy_deliveries(self.allocator(), plan.entry.given.as_slice())?;
        self.commit(plan)?;
        Ok(given)
    }

    /// Plays the events in order until one is refused, and returns their deliveries, each with the place of its event.
    ///
    /// On a fault the group is in the state after the events before the refused one; a caller may go on from there.
    pub fn run(&mut self, events: &[Event<A>]) -> Result<Vec<Given<A>, A>, RunFault<A>>
        ensures played { IfOk result
            (λ given. Plays C.state C.starts C.steps 0 events.now given.items self.old self.new) }
        ensures stopped { IfErr result
            (λ fault. Plays C.state C.starts C.steps 0 (take fault.at events.now) fault.given self.old self.new) }
        ensures refused { IfErr result (λ fault. RefusesAt C.is_spent events.now fault self.new) }
        ensures headline { Headline C.state C.Note.content self.new }
    {
        let mut given = Vec::new(self.allocator());
        for (at, event) in events.iter().enumerate() {
            if let Err(why) = self.play_one(at, event, &mut given) {
                let given = Listed::from_vec(given);
                self.headline();
                return Err(RunFault { at, why, given });
            }
        }
        self.headline();
        Ok(given)
    }

    /// Plays one event as `apply` does, but does not copy its deliveries, which are in the log's last entry.
    pub fn play(&mut self, event: &Event<A>) -> Result<(), WorldError>
        ensures applied { OnOk result
            ((given : List Delivered) × Applied C.state C.starts C.steps event.now given self.old self.new) }
        ensures err { OnErr result (self.new ≡ self.old) }
        ensures refused { IfErr result (IsRefusal C.is_spent self.old.limits self.old.group event.now) }
        ensures accepted { OnOk result (refusal self.old.limits self.old.group event.now ≡ None) }
    {
        let plan = self.plan(event)?;
        self.commit(plan)?;
        Ok(())
    }

    /// Plays the event at place `at` of a list, and appends its deliveries to `given`. If it is refused, nothing
    /// changes.
    fn play_one(
        &mut self,
        at: usize,
        event: &Event<A>,
        given: &mut Vec<Given<A>, A>,
    ) -> Result<(), WorldError>
        ensures applied { OnOk result
            (PlaysOn C.state C.starts C.steps at event.now given.old.items self.old given.new.items self.new) }
        ensures err { OnErr result ((self.new ≡ self.old) × (given.new.items ≡ given.old.items)) }
        ensures refused { IfErr result (IsRefusal C.is_spent self.old.limits self.old.group event.now) }
        ensures accepted { OnOk result (refusal self.old.limits self.old.group event.now ≡ None) }
    {
        let plan = self.plan(event)?;
        let kept = given.len();
        note(given, at, plan.entry.given.as_slice())?;
        if self.commit(plan).is_err() {
            given.truncate(kept);
            return Err(WorldError::OutOfMemory);
        }
        Ok(())
    }
}

/// Appends the deliveries of the event at place `at` to `given`: all of them, or none if an allocation is refused.
fn note<A: Allocator + Copy>(
    given: &mut Vec<Given<A>, A>,
    at: usize,
    deliveries: &[Delivery<A>],
) -> Result<(), AllocError>
    ensures ok { OnOk result (given.new.items ≡ given.old.items ++ given_at at deliveries.now) }
    ensures err { OnErr result (given.new.items ≡ given.old.items) }
{
    let mut more = given_of(*given.allocator(), at, deliveries)?;
    given.append(&mut more)
}

/// Returns copies of the deliveries, each with `at`, the place of the event that made it.
fn given_of<A: Allocator + Copy>(
    alloc: A,
    at: usize,
    deliveries: &[Delivery<A>],
) -> Result<Vec<Given<A>, A>, AllocError>
    ensures { IfOk result (λ given. given.items ≡ given_at at deliveries.now) }
{
    let mut given = Vec::new(alloc);
    for delivery in deliveries {
        let delivery = delivery.copy()?;
        given.push(Given { at, delivery })?;
    }
    Ok(given)
}
