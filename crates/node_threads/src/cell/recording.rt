//! Records and makes a step, or does neither.
ghost use Rattle.std.specs.Prelude.{◌≡◌, ◌∷◌, [], ◌++◌, OnOk, OnErr};

use crate::cores::NodeCore;
use frames::Frame;
use node_core::PreparedStep;
use node_names::Listed;
use protocol::{Delivery, Step, Trace};
use std::alloc::{AllocError, Allocator};

/// Records the step, and makes it. It is recorded first, since a step of the core cannot be taken back.
fn make<C: NodeCore<A>, A: Allocator>(
    core: &mut C,
    trace: &mut Trace<Frame<A>, A>,
    step: Step<Frame<A>, A>,
    turn: PreparedStep<A>,
) -> Result<(), AllocError>
    requires { C.is_turn core.old step.stimulus turn }
    ensures core { OnOk result (core.new ≡ C.after core.old step.stimulus) }
    ensures trace { OnOk result (trace.new ≡ record trace.old { steps = trace.old.steps ++ step ∷ [] }) }
    ensures err { OnErr result ((core.new ≡ core.old) × (trace.new ≡ trace.old)) }
{
    let made = trace.len();
    trace.push(step)?;
    let Some(step) = trace.step(made) else {
        unreachable!()
    };
    match core.advance(&step.stimulus.as_ref(), &mut Some(turn)) {
        Ok(()) => Ok(()),
        Err(error) => {
            trace.truncate(made);
            Err(error)
        }
    }
}

/// Records the step, makes it, and appends copies of its deliveries to `pending`: all of this, or nothing if an
/// allocation is refused.
pub(crate) fn record<C: NodeCore<A>, A: Allocator>(
    core: &mut C,
    trace: &mut Trace<Frame<A>, A>,
    pending: &mut Listed<Delivery<A>, A>,
    copies: Vec<Delivery<A>, A>,
    step: Step<Frame<A>, A>,
    turn: PreparedStep<A>,
) -> Result<(), AllocError>
    requires { C.is_turn core.old step.stimulus turn }
    ensures core { OnOk result (core.new ≡ C.after core.old step.stimulus) }
    ensures trace { OnOk result (trace.new ≡ record trace.old { steps = trace.old.steps ++ step ∷ [] }) }
    ensures pending { OnOk result (pending.new ≡ pending.old ++ copies.items) }
    ensures err { OnErr result ((core.new ≡ core.old) × (trace.new ≡ trace.old) × (pending.new ≡ pending.old)) }
{
    let waiting = pending.len();
    pending.append(copies)?;
    match make(core, trace, step, turn) {
        Ok(()) => Ok(()),
        Err(error) => {
            pending.truncate(waiting);
            Err(error)
        }
    }
}
