//! One node's protocol as a state machine, and the laws that every such machine keeps.
ghost use Rattle.std.specs.Prelude.{◌≡◌, ◌↔◌, ◌++◌, ℕ, false, List, Option, IsTrue};
ghost use Rattle.std.specs.Prelude.{IfOk, IfErr, OnOk, OnErr, IsErrOf, option_copied};
ghost use Rattle.node_names.specs.NodeName.{Name};
ghost use Rattle.node_names.specs.Limits.{Limits};
ghost use Rattle.node_names.specs.Same.{has_id};
ghost use Rattle.node_names.specs.Slots.{somes};
ghost use Rattle.node_names.specs.declared.ids.Origin.{Origin};
ghost use Rattle.protocol.specs.CoreState.{CoreState};
ghost use Rattle.protocol.specs.Delivery.{Delivery};
ghost use Rattle.protocol.specs.IdentityLaw.{IsOutOfNumbers, IsTooLong};
ghost use Rattle.protocol.specs.Laws.{Laws};
ghost use Rattle.protocol.specs.OneDelivery.{OneDelivery};
ghost use Rattle.protocol.specs.Output.{Stepped};
ghost use Rattle.protocol.specs.Peers.{are_peers};
ghost use Rattle.protocol.specs.SameNames.{SameNames};
ghost use Rattle.protocol.specs.Stimulus.{Stimulus, lent};

use crate::out::Out;
use crate::stimulus::{Stimulus, StimulusRef};
use crate::wire::Wire;
use bytes::Bytes;
use node_names::{Limits, MsgId, NameSet, NodeName, Origin};
use std::alloc::{AllocError, Allocator};
use std::error::Error;
use std::fmt;

/// The reason why a core refused a step. The core and the output are then unchanged.
#[derive(Clone, Copy, Debug, PartialEq, Eq)]
pub enum CoreError {
    /// The payload of the broadcast has more than 32,768 bytes.
    PayloadTooLong,
    /// The step needs a number for a message or for a packet, and this incarnation has used up those numbers.
    SeqSpent,
    /// An allocation was refused.
    OutOfMemory,
}

impl fmt::Display for CoreError {
    ghost use Rattle.std.specs.Prelude.{Some};
    ghost use Rattle.protocol.specs.ErrorText.{core_error_text};

    ghost output = { λ e. Some (core_error_text e) };

    fn fmt<W: fmt::Write>(&self, f: &mut fmt::Formatter<W>) -> fmt::Result {
        match self {
            CoreError::PayloadTooLong => write!(f, "the payload is too long"),
            CoreError::SeqSpent => write!(f, "the numbers of this incarnation are used up"),
            CoreError::OutOfMemory => write!(f, "out of memory"),
        }
    }
}

impl Error for CoreError {}

impl From<AllocError> for CoreError {
    ghost use Rattle.std.specs.Prelude.{◌≡◌};
    ghost use Rattle.protocol.specs.declared.protocol.CoreError.TheVariants.{OutOfMemory};

    ghost from_gives = { λ _ e. e ≡ OutOfMemory };

    fn from(_e: AllocError) -> CoreError {
        CoreError::OutOfMemory
    }
}

/// A step that is prepared but not yet carried out.
#[derive(Drop)]
pub struct Prepared<T> {
    /// What the core needs to carry out the step.
    pub turn: T,
    /// Whether the step changes the core's active view as a set.
    pub moved: bool,
}

/// A node's protocol: a core starts, and then takes one stimulus after another.
pub trait Core<A: Allocator>: Sized + Drop {
    /// The packets that it sends.
    type Note: Wire<A>;

    /// What it keeps between `prepare` and `advance`, the two halves of a step.
    type Turn: Drop;

    /// The observable state of a core. The laws speak of nothing else in it.
    ghost state: { Self → CoreState };

    /// What holds of it at any time, under these limits.
    ghost is_sound: { Limits → Self → Type 0 };

    /// With this origin and these limits, peers and contact, a start may send these packets and lead to this core.
    ghost starts: { Origin → Limits → List Name → Option Name → List (Name × Self.Note) → Self → Type 0 };

    /// At this stimulus the first core may send these packets, deliver these messages and become the second core.
    ghost steps: { Self → Stimulus Self.Note → List (Name × Self.Note) → List Delivery → Self → Type 0 };

    /// A number that the step at this stimulus needs is used up.
    ghost is_spent: { Self → Stimulus Self.Note → Type 0 };

    /// The core after the step at this stimulus.
    ghost after: { Self → Stimulus Self.Note → Self };

    /// The turn is what the core keeps between the two halves of the step at this stimulus, which it does not refuse.
    ghost is_turn: { Self → Stimulus Self.Note → Self.Turn → Type 0 };

    /// Starts a node with `peers` as its active view, and appends the packets that the start sends to `out`. Fails only
    /// if an allocation is refused; `out` is then unchanged.
    fn start(
        alloc: A,
        me: Origin,
        limits: Limits,
        peers: &[NodeName],
        contact: Option<NodeName>,
        out: &mut Out<Self::Note, A>,
    ) -> Result<Self, CoreError>
        requires { IsTrue (are_peers limits me.name peers.now contact) }
        ensures started { IfOk result (λ core. (sends : List (Name × Self.Note))
            × starts me limits peers.now contact sends core
            × (out.new ≡ record out.old { sends = out.old.sends ++ sends })) }
        ensures refused { IfErr result (λ e. e ≡ CoreError.OutOfMemory) }
        ensures err { OnErr result (out.new ≡ out.old) };

    /// Prepares a step: appends what it sends and delivers to `out`, and leaves the core unchanged. Only this half of a
    /// step can fail for another reason than memory; `out` is then unchanged.
    fn prepare(
        &self,
        stimulus: &StimulusRef<'_, Self::Note, A>,
        out: &mut Out<Self::Note, A>,
    ) -> Result<Prepared<Self::Turn>, CoreError>
        ensures turn { IfOk result (λ prepared. is_turn self.now (lent stimulus.now) prepared.turn) }
        ensures stepped { OnOk result
            (Stepped steps self.now (lent stimulus.now) out.old (after self.now (lent stimulus.now)) out.new) }
        ensures moved { IfOk result (λ prepared. (prepared.moved ≡ false)
            ↔ SameNames (state self.now).active (state (after self.now (lent stimulus.now))).active) }
        ensures too_long { IsErrOf result CoreError.PayloadTooLong ↔ IsTooLong (lent stimulus.now) }
        ensures spent { IsErrOf result CoreError.SeqSpent → is_spent self.now (lent stimulus.now) }
        ensures numbers { IsOutOfNumbers (state self.now) (lent stimulus.now) → IsErrOf result CoreError.SeqSpent }
        ensures err { OnErr result (out.new ≡ out.old) };

    /// Carries out a step that was prepared on this core in its present state. If an allocation is refused, the core is
    /// unchanged.
    fn advance(
        &mut self,
        stimulus: &StimulusRef<'_, Self::Note, A>,
        turn: Self::Turn,
    ) -> Result<(), AllocError>
        requires { is_turn self.old (lent stimulus.now) turn }
        ensures ok { OnOk result (self.new ≡ after self.old (lent stimulus.now)) }
        ensures err { OnErr result (self.new ≡ self.old) };

    /// Takes one stimulus, and appends what the step sends and delivers to `out`. If it is refused, nothing changes.
    fn step(
        &mut self,
        stimulus: &Stimulus<Self::Note, A>,
        out: &mut Out<Self::Note, A>,
    ) -> Result<(), CoreError>
        ensures stepped { OnOk result (Stepped steps self.old stimulus.now out.old self.new out.new) }
        ensures too_long { IsErrOf result CoreError.PayloadTooLong ↔ IsTooLong stimulus.now }
        ensures spent { IsErrOf result CoreError.SeqSpent → is_spent self.old stimulus.now }
        ensures numbers { IsOutOfNumbers (state self.old) stimulus.now → IsErrOf result CoreError.SeqSpent }
        ensures err { OnErr result ((self.new ≡ self.old) × (out.new ≡ out.old)) }
    {
        let sent = out.sends.len();
        let delivered = out.deliveries.len();
        let lent = stimulus.as_ref();
        let Prepared { turn, .. } = self.prepare(&lent, out)?;
        if self.advance(&lent, turn).is_err() {
            out.sends.truncate(sent);
            out.deliveries.truncate(delivered);
            return Err(CoreError::OutOfMemory);
        }
        Ok(())
    }

    /// Copies the core. The cost grows with what it holds.
    fn copy(&self) -> Result<Self, AllocError>
        ensures { IfOk result (λ copy. copy ≡ self.now) };

    /// Returns its name and incarnation.
    fn me(&self) -> Origin
        ensures { result ≡ (state self.now).me };

    /// Returns whether it has delivered the message.
    fn has(&self, id: &MsgId) -> bool
        ensures { result ≡ (state self.now).has id.now };

    /// Returns the payload that it holds under the id, if it holds one.
    fn payload(&self, id: &MsgId) -> Option<&Bytes<A>>
        ensures { option_copied result ≡ (state self.now).payload id.now };

    /// Returns the ids of the messages that it holds, in order of delivery.
    fn held(&self) -> &[MsgId]
        ensures { result.now ≡ (state self.now).held };

    /// Returns its active view: the names that it keeps links to.
    fn active(&self) -> &NameSet<A>
        ensures { result.now.keys ≡ (state self.now).active };

    /// Returns its passive view: the names that it may turn to when a link fails.
    fn passive(&self) -> &NameSet<A>
        ensures { result.now.keys ≡ (state self.now).passive };

    /// Returns the announcements that wait to be sent, each as its receiver, message id and round.
    fn queued(&self) -> &[(NodeName, MsgId, u32)]
        ensures { result.now ≡ (state self.now).queued };

    /// Returns the announcements of messages that it lacks, oldest first, each as its message id, announcing peer and
    /// round. `None` stands where one was taken out.
    fn wants(&self) -> &[Option<(MsgId, NodeName, u32)>]
        ensures { somes result.now ≡ (state self.now).wants };

    /// Returns the ids whose timers are armed, in order of arming. `None` stands where one was taken out.
    fn timers(&self) -> &[Option<MsgId>]
        ensures { somes result.now ≡ (state self.now).timers };

    /// Returns whether the timer of the id is armed.
    fn is_armed(&self, id: &MsgId) -> bool
        ensures { result ≡ has_id (state self.now).timers id.now };

    /// The nine laws: identity, payload, delivery, view, spread, queue, want, ask and hold.
    ghost lawful: { Laws state Self.Note.content is_sound starts steps };

    /// No step delivers more than one message, and a broadcast delivers its own.
    ghost delivers_one: { OneDelivery state steps };
}
