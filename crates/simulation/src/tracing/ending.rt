//! Writes the state of a group at the end of a run.
ghost use Rattle.std.specs.Prelude.{◌≡◌, ◌++◌, ℕ, List, OnOk, reverse, string_bytes};
ghost use Rattle.std.specs.Io.KnownBytes.{Appends};
ghost use Rattle.node_names.specs.declared.ids.MsgId.{MsgId};
ghost use Rattle.at_rest.specs.Forest.{branches_at};
ghost use Rattle.at_rest.specs.Tree.{tree_of};
ghost use Rattle.simulation.specs.Traced.{TellsEnd, TellsMessage};
ghost use Rattle.simulation.specs.Turns.{InTurn};

use crate::output;
use crate::output::OutputError;
use crate::tracing::stop::{Stop, push_stop};
use crate::trees::broadcasts;
use at_rest::{Forest, Unrest};
use node_core::PlumCore;
use node_names::MsgId;
use std::alloc::{AllocError, Allocator};
use std::io::Write;
use trace_text::{push_nodes, push_summary};
use world::World;

/// Writes why the run ended early, if it did, then each node, then for each message that was broadcast which nodes lack
/// it and what is still under way, and a summary of what was sent. `text` is a buffer for it.
pub fn write_ending<A: Allocator + Copy, W: Write>(
    alloc: A,
    text: &mut String<A>,
    run: &World<PlumCore<A>, A>,
    stop: &Stop<'_>,
    out: &mut W,
) -> Result<(), OutputError>
    ensures { OnOk result ((told : List ℕ)
        × (end : List ℕ)
        × TellsEnd run.now end
        × Appends (W.contents out.old) (W.contents out.new) (told ++ end)) }
{
    text.clear();
    push_stop(text, run, stop)?;
    push_end(alloc, text, run)?;
    out.write_all(text.as_bytes())?;
    Ok(out.flush()?)
}

/// Appends each node, each message and the summary of what was sent.
fn push_end<A: Allocator + Copy>(
    alloc: A,
    text: &mut String<A>,
    run: &World<PlumCore<A>, A>,
) -> Result<(), AllocError>
    ensures { OnOk result
        ((end : List ℕ) × TellsEnd run.now end × (string_bytes text.new ≡ string_bytes text.old ++ end)) }
{
    let deliveries = output::deliveries(alloc, run.log())?;
    let messages = broadcasts(alloc, deliveries.as_slice())?;
    let forest = Forest::new(alloc, run)?;
    push_nodes(text, run)?;
    push_messages(alloc, text, run, messages.as_slice(), &forest)?;
    push_summary(text, run, messages.as_slice(), &forest)
}

/// Appends the lines of each message.
fn push_messages<A: Allocator + Copy>(
    alloc: A,
    text: &mut String<A>,
    run: &World<PlumCore<A>, A>,
    messages: &[MsgId],
    forest: &Forest<A>,
) -> Result<(), AllocError>
    requires { (id : MsgId) → branches_at id forest.now ≡ tree_of run.now.group.sent id (reverse run.now.log) }
    ensures { OnOk result ((told : List ℕ)
        × InTurn (TellsMessage run.now) messages.now told
        × (string_bytes text.new ≡ string_bytes text.old ++ told)) }
{
    let unrest = Unrest::new(alloc, run)?;
    trace_text::push_messages(text, run, messages, &unrest, forest)
}
