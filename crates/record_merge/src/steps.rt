//! The steps of a core that is replayed.
//!
//! Only a call names the core's type, so that the prover follows a core by its trait alone.
ghost use Rattle.std.specs.Prelude.{◌≡◌, [], ◌∷◌, ◌++◌, IfOk, List, OnOk};
ghost use Rattle.node_names.specs.Limits.{Limits as Sizes};
ghost use Rattle.frames.specs.Frame.{Frame as Said};
ghost use Rattle.protocol.specs.Replay.{Replays};
ghost use Rattle.protocol.specs.Stimulus.{Stimulus as Told};
ghost use Rattle.record_merge.specs.Replaying.{StartsAs, TellsRest, stimuli_in, stimuli_of};

use crate::entries::Entries;
use crate::error::ReplayError;
use frames::Frame;
use protocol::{Core, CoreError, Out, Step, Stimulus, Trace};
use std::alloc::Global;
use step_records::{Entry, Head};

/// The error of the core at this entry.
fn refused(entry: u64, error: CoreError) -> ReplayError {
    match error {
        CoreError::OutOfMemory => ReplayError::OutOfMemory,
        _ => ReplayError::Refused { entry, error },
    }
}

/// Has the core take a stimulus, and appends the step to its trace.
#[tactic(auto, using(crate::proofs::Leading::stepped_on))]
fn take<C: Core<Global, Note = Frame>>(
    alloc: Global,
    core: &mut C,
    trace: &mut Trace<Frame>,
    stimulus: Stimulus<Frame>,
) -> Result<(), CoreError>
    ensures replays { (limits : Sizes)
        → Replays C.starts C.steps limits trace.old core.old
        → OnOk result (Replays C.starts C.steps limits trace.new core.new) }
    ensures told { OnOk result (stimuli_of trace.new.steps ≡ stimuli_of trace.old.steps ++ stimulus ∷ []) }
    ensures start { trace.new ≡ record trace.old { steps = trace.new.steps } }
{
    let mut out = Out::new(alloc);
    core.step(&stimulus, &mut out)?;
    trace.push(Step { stimulus, out })?;
    Ok(())
}

/// Has the core take the stimulus of the entry at this place, if it tells one, and appends the step to its trace.
fn take_entry<C: Core<Global, Note = Frame>>(
    alloc: Global,
    core: &mut C,
    trace: &mut Trace<Frame>,
    place: u64,
    entry: Entry,
) -> Result<(), ReplayError>
    ensures replays { (limits : Sizes)
        → Replays C.starts C.steps limits trace.old core.old
        → OnOk result (Replays C.starts C.steps limits trace.new core.new) }
    ensures told { OnOk result (stimuli_of trace.new.steps ≡ stimuli_of trace.old.steps ++ stimuli_in (entry ∷ [])) }
    ensures start { trace.new ≡ record trace.old { steps = trace.new.steps } }
{
    match entry {
        Entry::Stimulus(stimulus) => match take(alloc, core, trace, stimulus) {
            Ok(()) => Ok(()),
            Err(error) => Err(refused(place, error)),
        },
        Entry::Head(_head) => Ok(()),
    }
}

/// Has the core take the stimuli of the entries that are left, and appends the steps to its trace.
fn take_all<C: Core<Global, Note = Frame>>(
    alloc: Global,
    core: &mut C,
    trace: &mut Trace<Frame>,
    entries: &mut Entries<'_>,
) -> Result<(), ReplayError>
    ensures replays { (limits : Sizes)
        → Replays C.starts C.steps limits trace.old core.old
        → OnOk result (Replays C.starts C.steps limits trace.new core.new) }
    ensures told { OnOk result ((stimuli : List (Told Said)) × TellsRest entries.old stimuli entries.new
        × (stimuli_of trace.new.steps ≡ stimuli_of trace.old.steps ++ stimuli)) }
    ensures start { trace.new ≡ record trace.old { steps = trace.new.steps } }
{
    'entries: loop {
        let place = entries.count();
        let Some(entry) = entries.next()? else {
            return Ok(());
        };
        take_entry(alloc, core, trace, place, entry)?;
    }
}

/// Starts the run that began with this head, and its trace.
#[tactic(auto, using(crate::proofs::Leading::begun))]
fn begin<C: Core<Global, Note = Frame>>(
    alloc: Global,
    head: &Head,
) -> Result<(C, Trace<Frame>), ReplayError>
    ensures replays { IfOk result (λ run. Replays C.starts C.steps head.now.limits run.1 run.0) }
    ensures starts { IfOk result (λ run. StartsAs head.now run.1) }
    ensures none { IfOk result (λ run. run.1.steps ≡ []) }
{
    let peers = head.peers.copy()?;
    let mut out = Out::new(alloc);
    let started = C::start(
        alloc,
        head.origin,
        head.limits,
        head.peers.as_slice(),
        head.contact,
        &mut out,
    );
    match started {
        Ok(core) => {
            let trace = Trace::new(alloc, head.origin, peers, head.contact, out);
            Ok((core, trace))
        }
        Err(_) => Err(ReplayError::OutOfMemory),
    }
}

/// Replays the run that began with this head, and whose stimuli the entries tell.
#[tactic(auto, using(crate::proofs::Leading::ended))]
pub(crate) fn run_of<C: Core<Global, Note = Frame>>(
    alloc: Global,
    head: &Head,
    entries: &mut Entries<'_>,
) -> Result<Trace<Frame>, ReplayError>
    ensures replays { IfOk result (λ trace. (last : C) × Replays C.starts C.steps head.now.limits trace last) }
    ensures starts { IfOk result (λ trace. StartsAs head.now trace) }
    ensures told { IfOk result (λ trace. TellsRest entries.old (stimuli_of trace.steps) entries.new) }
{
    let (mut core, mut trace) = begin::<C>(alloc, head)?;
    take_all(alloc, &mut core, &mut trace, entries)?;
    Ok(trace)
}
