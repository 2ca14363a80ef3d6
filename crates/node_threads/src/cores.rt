//! The cores that a node can run.
ghost use Rattle.std.specs.Prelude.{◌≡◌, ◌↔◌, List, Option, IsErrOf, IsSome, IfOk, IfSome, OnOk, OnErr};
ghost use Rattle.node_names.specs.NodeName.{Name};
ghost use Rattle.node_names.specs.Limits.{Limits};
ghost use Rattle.node_names.specs.Slots.{somes};
ghost use Rattle.node_names.specs.declared.ids.Origin.{Origin};
ghost use Rattle.protocol.specs.CoreState.{CoreState};
ghost use Rattle.protocol.specs.Delivery.{Delivery};
ghost use Rattle.protocol.specs.IdentityLaw.{IsTooLong};
ghost use Rattle.protocol.specs.OneDelivery.{OneDelivery};
ghost use Rattle.protocol.specs.Output.{Stepped};
ghost use Rattle.protocol.specs.Stimulus.{Stimulus, lent};
ghost use Rattle.frames.specs.Frame.{Frame as Sent};
ghost use Rattle.node_core.specs.Parts.{PreparedStep as Kept};
ghost use Rattle.node_threads.specs.Opening.{TellsItsStart};

use frames::Frame;
use node_core::{PlumCore, PreparedStep};
use node_names::{MsgId, NameSet, Origin};
use protocol::{Core, CoreError, Out, Prepared, StimulusRef};
use std::alloc::{AllocError, Allocator};

/// A core whose packets are frames. Its functions are those of `protocol::Core` that a node calls, and are explained
/// there.
///
/// It is a trait of its own, for frames alone, because functions under `Core` with its packets bound to `Frame<A>` are
/// not supported.
pub trait NodeCore<A: Allocator>: Sized {
    /// The state that it shows.
    ghost state: { Self → CoreState };

    /// With this origin, limits, peers and contact, a start may send these frames and give this core.
    ghost starts: { Origin → Limits → List Name → Option Name → List (Name × Sent) → Self → Type 0 };

    /// At this stimulus the first core may send these frames, deliver these messages and go on as the second core.
    ghost steps: { Self → Stimulus Sent → List (Name × Sent) → List Delivery → Self → Type 0 };

    /// Some number that this step needs is used up.
    ghost is_spent: { Self → Stimulus Sent → Type 0 };

    /// The core after the stimulus.
    ghost after: { Self → Stimulus Sent → Self };

    /// The turn is what the core keeps of this stimulus, which it does not refuse.
    ghost is_turn: { Self → Stimulus Sent → Kept → Type 0 };

    /// Works a step out without changing the core.
    fn prepare(
        &self,
        stimulus: &StimulusRef<'_, Frame<A>, A>,
        out: &mut Out<Frame<A>, A>,
    ) -> Result<Prepared<PreparedStep<A>>, CoreError>
        ensures turn { IfOk result (λ prepared. is_turn self.now (lent stimulus.now) prepared.turn) }
        ensures stepped { OnOk result
            (Stepped steps self.now (lent stimulus.now) out.old (after self.now (lent stimulus.now)) out.new) }
        ensures too_long { IsErrOf result CoreError.PayloadTooLong ↔ IsTooLong (lent stimulus.now) }
        ensures spent { IsErrOf result CoreError.SeqSpent → is_spent self.now (lent stimulus.now) };

    /// Makes a step that was worked out, and takes its turn: all of it, or nothing if an allocation is refused.
    fn advance(
        &mut self,
        stimulus: &StimulusRef<'_, Frame<A>, A>,
        turn: &mut Option<PreparedStep<A>>,
    ) -> Result<(), AllocError>
        requires some { IsSome turn.old }
        requires turn { IfSome turn.old (λ turn. is_turn self.old (lent stimulus.now) turn) }
        ensures ok { OnOk result (self.new ≡ after self.old (lent stimulus.now)) }
        ensures err { OnErr result (self.new ≡ self.old) };

    /// Returns a copy. It costs as much as all that the core holds.
    fn copy(&self) -> Result<Self, AllocError>
        ensures { IfOk result (λ copy. copy ≡ self.now) };

    /// Its name and incarnation.
    fn me(&self) -> Origin
        ensures { result ≡ (state self.now).me };

    /// The names that it keeps links to.
    fn active(&self) -> &NameSet<A>
        ensures { result.now.keys ≡ (state self.now).active };

    /// The ids whose timers are armed, in the order in which they were armed. `None` stands where one was taken out.
    fn timers(&self) -> &[Option<MsgId>]
        ensures { somes result.now ≡ (state self.now).timers };

    /// No step delivers more than one message, and a broadcast delivers its own.
    ghost delivers_one: { OneDelivery state steps };

    /// A start shows who started, with which peers, and by which contact.
    ghost tells_its_start: { TellsItsStart state starts };
}

impl<A: Allocator + Copy> NodeCore<A> for PlumCore<A> {
    ghost use Rattle.node_core.specs.Plum.{plum_state};
    ghost use Rattle.node_core.specs.Parts.{IsTurn};
    ghost use Rattle.node_core.specs.impl_proofs.PlumDelivers.{plum_delivers_one};
    ghost use Rattle.node_core.specs.Steps.{PlumStarts, PlumSteps, PlumIsSpent, plum_after};
    ghost use Rattle.node_threads.specs.impl_proofs.PlumOpening.{plum_tells_its_start};

    ghost state = { plum_state };

    ghost starts = { PlumStarts };

    ghost steps = { PlumSteps };

    ghost is_spent = { PlumIsSpent };

    ghost after = { plum_after };

    ghost is_turn = { IsTurn };

    ghost delivers_one = { plum_delivers_one };

    ghost tells_its_start = { plum_tells_its_start };

    fn prepare(
        &self,
        stimulus: &StimulusRef<'_, Frame<A>, A>,
        out: &mut Out<Frame<A>, A>,
    ) -> Result<Prepared<PreparedStep<A>>, CoreError> {
        Core::prepare(self, stimulus, out)
    }

    fn advance(
        &mut self,
        stimulus: &StimulusRef<'_, Frame<A>, A>,
        turn: &mut Option<PreparedStep<A>>,
    ) -> Result<(), AllocError> {
        let Some(turn) = turn.take() else {
            unreachable!()
        };
        Core::advance(self, stimulus, turn)
    }

    fn copy(&self) -> Result<PlumCore<A>, AllocError> {
        Core::copy(self)
    }

    fn me(&self) -> Origin {
        Core::me(self)
    }

    fn active(&self) -> &NameSet<A> {
        Core::active(self)
    }

    fn timers(&self) -> &[Option<MsgId>] {
        Core::timers(self)
    }
}
