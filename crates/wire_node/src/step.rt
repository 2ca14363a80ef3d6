//! A step of the core, which is noted, and whose frames wait afterwards: all of it, or nothing.
ghost use Rattle.std.specs.Prelude.{◌≡◌, ◌++◌, None, Option, OnOk, OnErr, IsErrOf};
ghost use Rattle.protocol.specs.IdentityLaw.{IsTooLong};
ghost use Rattle.protocol.specs.Trace.{Step};
ghost use Rattle.frames.specs.Frame.{Frame as Plain};
ghost use Rattle.node_core.specs.Steps.{PlumIsSpent};
ghost use Rattle.wire_node.specs.Acting.{Acts, AreSettled, machine};
ghost use Rattle.wire_node.specs.Recording.{with_step, Noted, opened};
ghost use Rattle.wire_node.specs.Waiting.{KeepsSettled, all_drafted};

use crate::drafts::{Entry, draft_all, settle_all, undraft_all};
use frames::Frame;
use node_core::{PlumCore, Telling};
use node_names::Listed;
use protocol::{Core, CoreError, Delivery, Out, Prepared, Stimulus};
use std::alloc::{AllocError, Allocator};

/// What notes the steps of a node. A step is noted before it is made, so that none of its frames leaves the node
/// unnoted; where noting is refused, the step is not made.
pub trait Record<A: Allocator> {
    /// What it keeps, as contracts see it, or `None` where it keeps nothing.
    ghost noted: { Self → Option Noted };

    /// Notes what the node's start sends. It is called once, before any step.
    fn open(&mut self, opening: &Out<Frame<A>, A>) -> Result<(), AllocError>
        ensures { OnOk result (noted self.new ≡ opened (noted self.old) opening.now) };

    /// Notes a step that is about to be made, with what it sends and delivers.
    fn note(
        &mut self,
        stimulus: &Stimulus<Frame<A>, A>,
        out: &Out<Frame<A>, A>,
    ) -> Result<(), AllocError>
        ensures ok { OnOk result
            (noted self.new ≡ with_step (noted self.old) (record { stimulus = stimulus.now; out = out.now })) }
        ensures err { OnErr result (noted self.new ≡ noted self.old) };

    /// Takes back the step that was noted last: the node had no memory to make it.
    fn take_back(&mut self)
        ensures { (before : Option Noted) (step : Step Plain)
            → noted self.old ≡ with_step before step
            → noted self.new ≡ before };
}

/// Notes nothing.
#[derive(Clone, Copy, Debug)]
pub struct Unrecorded;

impl<A: Allocator> Record<A> for Unrecorded {
    ghost use Rattle.std.specs.Prelude.{None};

    ghost noted = { λ _. None };

    fn open(&mut self, _opening: &Out<Frame<A>, A>) -> Result<(), AllocError> {
        Ok(())
    }

    fn note(
        &mut self,
        _stimulus: &Stimulus<Frame<A>, A>,
        _out: &Out<Frame<A>, A>,
    ) -> Result<(), AllocError> {
        Ok(())
    }

    fn take_back(&mut self) {}
}

/// Drafts the frames of a step, and appends its deliveries: all of this, or nothing if an allocation is refused.
#[tactic(auto, using(crate::proofs::Drafting::keeps_same, crate::proofs::Drafting::undrafted_back))]
fn draft_out<A: Allocator + Copy>(
    entries: &mut Vec<Entry<A>, A>,
    pending: &mut Listed<Delivery<A>, A>,
    out: Out<Frame<A>, A>,
) -> Result<(), AllocError>
    requires { AreSettled entries.old.items }
    ensures drafted { OnOk result (entries.new.items ≡ all_drafted entries.old.items out.sends) }
    ensures delivered { OnOk result (pending.new ≡ pending.old ++ out.deliveries) }
    ensures kept { KeepsSettled entries.old.items entries.new.items }
    ensures err { OnErr result ((entries.new.items ≡ entries.old.items) × (pending.new ≡ pending.old)) }
{
    let len = entries.len();
    let Out { sends, deliveries } = out;
    if draft_all(entries, sends.as_slice()).is_err() {
        undraft_all(entries, len);
        return Err(AllocError);
    }
    if pending.append(deliveries.into_vec()).is_err() {
        undraft_all(entries, len);
        return Err(AllocError);
    }
    Ok(())
}

/// Notes a step, drafts its frames, and appends its deliveries: all of this, or nothing if it is refused.
fn note_and_draft<A: Allocator + Copy, R: Record<A>>(
    entries: &mut Vec<Entry<A>, A>,
    pending: &mut Listed<Delivery<A>, A>,
    notes: &mut R,
    stimulus: &Stimulus<Frame<A>, A>,
    out: Out<Frame<A>, A>,
) -> Result<(), AllocError>
    requires { AreSettled entries.old.items }
    ensures drafted { OnOk result (entries.new.items ≡ all_drafted entries.old.items out.sends) }
    ensures delivered { OnOk result (pending.new ≡ pending.old ++ out.deliveries) }
    ensures noted { OnOk result
        (R.noted notes.new ≡ with_step (R.noted notes.old) (record { stimulus = stimulus.now; out = out })) }
    ensures kept { KeepsSettled entries.old.items entries.new.items }
    ensures err { OnErr result ((entries.new.items ≡ entries.old.items)
        × (pending.new ≡ pending.old)
        × (R.noted notes.new ≡ R.noted notes.old)) }
{
    notes.note(stimulus, &out)?;
    match draft_out(entries, pending, out) {
        Ok(()) => Ok(()),
        Err(error) => {
            notes.take_back();
            Err(error)
        }
    }
}

/// Makes a step, where the news of the one before are worked out. If it is refused, nothing changes: `advance`, which
/// cannot be taken back, is the last call that can be refused.
fn make_next<A: Allocator + Copy, R: Record<A>>(
    core: &mut PlumCore<A>,
    entries: &mut Vec<Entry<A>, A>,
    pending: &mut Listed<Delivery<A>, A>,
    notes: &mut R,
    telling: &mut Telling<A>,
    stimulus: &Stimulus<Frame<A>, A>,
) -> Result<(), CoreError>
    requires settled { AreSettled entries.old.items }
    requires told { telling.old.last ≡ None }
    ensures acts { OnOk result (Acts (machine core.old entries.old.items pending.old (R.noted notes.old) telling.old)
        stimulus.now (machine core.new entries.new.items pending.new (R.noted notes.new) telling.new)) }
    ensures settled { AreSettled entries.new.items }
    ensures err { OnErr result ((core.new ≡ core.old)
        × (entries.new.items ≡ entries.old.items)
        × (pending.new ≡ pending.old)
        × (R.noted notes.new ≡ R.noted notes.old)
        × (telling.new ≡ telling.old)) }
    ensures too_long { IsErrOf result CoreError.PayloadTooLong → IsTooLong stimulus.now }
    ensures spent { IsErrOf result CoreError.SeqSpent → PlumIsSpent core.old stimulus.now }
{
    let lent = stimulus.as_ref();
    let mut out = Out::new(*entries.allocator());
    let Prepared { turn, moved } = core.prepare(&lent, &mut out)?;
    let change = telling.change_of(moved, stimulus, core.active())?;
    let len = entries.len();
    let given = pending.len();
    note_and_draft(entries, pending, notes, stimulus, out)?;
    if core.advance(&lent, turn).is_err() {
        undraft_all(entries, len);
        pending.truncate(given);
        notes.take_back();
        return Err(CoreError::OutOfMemory);
    }
    settle_all(entries);
    telling.keep(change);
    Ok(())
}

/// Makes a step. If it is refused, nothing changes.
pub(crate) fn make_step<A: Allocator + Copy, R: Record<A>>(
    core: &mut PlumCore<A>,
    entries: &mut Vec<Entry<A>, A>,
    pending: &mut Listed<Delivery<A>, A>,
    notes: &mut R,
    telling: &mut Telling<A>,
    stimulus: &Stimulus<Frame<A>, A>,
) -> Result<(), CoreError>
    requires { AreSettled entries.old.items }
    ensures acts { OnOk result (Acts (machine core.old entries.old.items pending.old (R.noted notes.old) telling.old)
        stimulus.now (machine core.new entries.new.items pending.new (R.noted notes.new) telling.new)) }
    ensures settled { AreSettled entries.new.items }
    ensures err { OnErr result (machine core.new entries.new.items pending.new (R.noted notes.new) telling.new
        ≡ machine core.old entries.old.items pending.old (R.noted notes.old) telling.old) }
    ensures too_long { IsErrOf result CoreError.PayloadTooLong → IsTooLong stimulus.now }
    ensures spent { IsErrOf result CoreError.SeqSpent → PlumIsSpent core.old stimulus.now }
{
    telling.settle(core.active())?;
    make_next(core, entries, pending, notes, telling, stimulus)
}
