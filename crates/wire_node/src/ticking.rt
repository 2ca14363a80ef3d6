//! The steps of a tick.
ghost use Rattle.std.specs.Prelude.{IfErr, OnErr, OnOk};
ghost use Rattle.wire_node.specs.Refusing.{IsTickRefusal, refusal_of};
ghost use Rattle.wire_node.specs.Ticking.{IsCutShort, LeavesAsking, TickSteps};

use crate::asking::{Asking, ask};
use crate::engine::Engine;
use crate::step::Record;
use node_names::Dice;
use protocol::{CoreError, StimulusOf};
use std::alloc::Allocator;

/// At every tenth tick the node shuffles its passive view.
const SHUFFLE_EVERY: u64 = 10;

/// Makes the steps of a tick. If one is refused, those before it are made.
pub(crate) fn make_tick<A: Allocator + Copy, R: Record<A> + Drop>(
    engine: &mut Engine<A, R>,
    asking: &mut Asking<A>,
    ticks: u64,
    dice: &Dice,
) -> Result<(), CoreError>
    ensures ok { OnOk result (TickSteps engine.old asking.old ticks dice.now engine.new asking.new) }
    ensures err { OnErr result (IsCutShort engine.old dice.now engine.new) }
    ensures left { OnErr result (LeavesAsking engine.old asking.old ticks dice.now engine.new asking.new) }
    ensures why { IfErr result (λ e. IsTickRefusal engine.new.machine.core dice.now (refusal_of e)) }
{
    engine.step(&StimulusOf::Flush, dice)?;
    ask(engine, asking, ticks, dice)?;
    if ticks % SHUFFLE_EVERY != 0 {
        return Ok(());
    }
    engine.step(&StimulusOf::Shuffle(*dice), dice)?;
    Ok(())
}
