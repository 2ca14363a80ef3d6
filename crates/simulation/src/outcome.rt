//! Plays a scenario, given as text, and writes its outcome to any writer.
ghost use Rattle.std.specs.Prelude.{◌≡◌, ◌≢◌, ◌<◌, ℕ, List, Option, Err, IfOk, IfErr, OnOk, [], ◌∷◌, ◌++◌};
ghost use Rattle.node_names.specs.Limits.{Limits as Sizes};
ghost use Rattle.simulation.specs.declared.play.PlayError.{PlayError};
ghost use Rattle.scenario.specs.declared.action.Action.{Action};
ghost use Rattle.scenario.specs.declared.error.ScenarioError.{ScenarioError};
ghost use Rattle.scenario.specs.Scenario.{IsScenario};
ghost use Rattle.simulation.specs.Drawn.{is_shown, shown_of, Draws, DrawsShown};
ghost use Rattle.simulation.specs.Play.{delivered, Prints, PrintsGroup, PrintsHalted};
ghost use Rattle.simulation.specs.Traced.{Traces};
ghost use Rattle.frames.specs.Content.{frame_content};
ghost use Rattle.node_core.specs.Plum.{plum_state};
ghost use Rattle.node_core.specs.Steps.{PlumIsSpent, PlumStarts, PlumSteps};

use crate::error::{SimulationError, ended};
use crate::output::OutputError;
use crate::play::{MAX_ARRIVALS, PlayError, Player};
use crate::tracing::{Stop, write_trace};
use crate::{graph, output, trees};
use node_core::PlumCore;
use node_names::MsgId;
use protocol::Core;
use scenario::{MAX_EVENTS, MAX_SCENARIO_BYTES, Scenario, ScenarioError, read_scenario};
use std::alloc::{AllocError, Allocator, Global};
use std::io::Write;
use std::mem;
use world::World;

/// The capacity for a line: the longest payload in hexadecimal, and what precedes it.
const LINE_ROOM: usize = 66_000;

/// Reads a text as a scenario, plays it, and writes what is delivered.
///
/// If the run ends early, all that was delivered before is written.
pub fn simulate<W: Write>(
    alloc: Global,
    text: &[u8],
    is_strict: bool,
    out: &mut W,
) -> Result<(), SimulationError>
    ensures printed { OnOk result ((seed : Option ℕ) × (sizes : Sizes) × (actions : List Action)
        × IsScenario MAX_SCENARIO_BYTES MAX_EVENTS text.now seed sizes actions
        × Prints plum_state frame_content PlumStarts PlumSteps MAX_ARRIVALS seed sizes actions
        (W.contents out.old) (W.contents out.new)) }
    ensures stopped { (fault : PlayError)
        → result ≡ Err (SimulationError.Stopped fault)
        → fault ≢ PlayError.OutOfMemory
        → (seed : Option ℕ) × (sizes : Sizes) × (actions : List Action)
        × IsScenario MAX_SCENARIO_BYTES MAX_EVENTS text.now seed sizes actions
        × PrintsHalted plum_state frame_content PlumStarts PlumSteps PlumIsSpent MAX_ARRIVALS seed sizes actions fault
        (W.contents out.old) (W.contents out.new) }
    ensures refused { (fault : ScenarioError)
        → result ≡ Err (SimulationError.Refused fault)
        → fault ≢ ScenarioError.OutOfMemory
        → (seed : Option ℕ) (sizes : Sizes) (actions : List Action)
        → ¬ IsScenario MAX_SCENARIO_BYTES MAX_EVENTS text.now seed sizes actions }
    ensures unplayed { (fault : ScenarioError) → result ≡ Err (SimulationError.Refused fault) → out.new ≡ out.old }
{
    let scenario = read_scenario(alloc, text)?;
    play_and_print::<Global, W>(alloc, &scenario, is_strict, out)
}

/// Reads a text as a scenario, plays it, and writes the group at the end as a Graphviz document: with all messages, or
/// with a single one.
pub fn draw<W: Write>(
    alloc: Global,
    text: &[u8],
    only: &Option<MsgId>,
    is_strict: bool,
    out: &mut W,
) -> Result<(), SimulationError>
    ensures drawn { OnOk result ((seed : Option ℕ) × (sizes : Sizes) × (actions : List Action)
        × IsScenario MAX_SCENARIO_BYTES MAX_EVENTS text.now seed sizes actions
        × Draws MAX_ARRIVALS only.now seed sizes actions (W.contents out.old) (W.contents out.new)) }
    ensures refused { (fault : ScenarioError)
        → result ≡ Err (SimulationError.Refused fault)
        → fault ≢ ScenarioError.OutOfMemory
        → (seed : Option ℕ) (sizes : Sizes) (actions : List Action)
        → ¬ IsScenario MAX_SCENARIO_BYTES MAX_EVENTS text.now seed sizes actions }
    ensures unplayed { (fault : ScenarioError) → result ≡ Err (SimulationError.Refused fault) → out.new ≡ out.old }
{
    let scenario = read_scenario(alloc, text)?;
    play_and_draw(alloc, &scenario, only, is_strict, out)
}

/// Reads a text as a scenario, plays it, and writes what each step did and the state of the group at the end.
///
/// If the run ends early, all steps before are written, then which event was not played to its end, and then the group.
pub fn trace<W: Write>(
    alloc: Global,
    text: &[u8],
    is_strict: bool,
    out: &mut W,
) -> Result<(), SimulationError>
    ensures traced { OnOk result ((seed : Option ℕ) × (sizes : Sizes) × (actions : List Action)
        × IsScenario MAX_SCENARIO_BYTES MAX_EVENTS text.now seed sizes actions
        × Traces MAX_ARRIVALS seed sizes actions (W.contents out.old) (W.contents out.new)) }
    ensures refused { (fault : ScenarioError)
        → result ≡ Err (SimulationError.Refused fault)
        → fault ≢ ScenarioError.OutOfMemory
        → (seed : Option ℕ) (sizes : Sizes) (actions : List Action)
        → ¬ IsScenario MAX_SCENARIO_BYTES MAX_EVENTS text.now seed sizes actions }
    ensures unplayed { (fault : ScenarioError) → result ≡ Err (SimulationError.Refused fault) → out.new ≡ out.old }
{
    let scenario = read_scenario(alloc, text)?;
    play_and_trace(alloc, &scenario, text, is_strict, out)
}

/// Plays a scenario and prints its outcome.
pub fn play_and_print<A: Allocator + Copy, W: Write>(
    alloc: A,
    scenario: &Scenario,
    is_strict: bool,
    out: &mut W,
) -> Result<(), SimulationError>
    ensures printed { OnOk result (Prints plum_state frame_content PlumStarts PlumSteps MAX_ARRIVALS
        scenario.now.seed scenario.now.limits scenario.now.actions.items (W.contents out.old) (W.contents out.new)) }
    ensures stopped { (fault : PlayError)
        → result ≡ Err (SimulationError.Stopped fault)
        → fault ≢ PlayError.OutOfMemory
        → PrintsHalted plum_state frame_content PlumStarts PlumSteps PlumIsSpent MAX_ARRIVALS scenario.now.seed
        scenario.now.limits scenario.now.actions.items fault (W.contents out.old) (W.contents out.new) }
    ensures read { (fault : ScenarioError) → result ≢ Err (SimulationError.Refused fault) }
{
    let Ok(mut text) = String::with_capacity(alloc, LINE_ROOM) else {
        return Err(SimulationError::Stopped(PlayError::OutOfMemory));
    };
    let mut player = Player::<PlumCore<A>, A>::new(alloc, scenario.seed, scenario.limits);
    let played = player.play(alloc, scenario.actions.as_slice(), is_strict);
    let printed = print(alloc, &mut text, player.group(), out);
    leave(player);
    ended(played, printed)
}

/// Plays a scenario and draws its outcome.
pub(crate) fn play_and_draw<A: Allocator + Copy, W: Write>(
    alloc: A,
    scenario: &Scenario,
    only: &Option<MsgId>,
    is_strict: bool,
    out: &mut W,
) -> Result<(), SimulationError>
    ensures drawn { OnOk result (Draws MAX_ARRIVALS only.now scenario.now.seed
        scenario.now.limits scenario.now.actions.items (W.contents out.old) (W.contents out.new)) }
    ensures read { (fault : ScenarioError) → result ≢ Err (SimulationError.Refused fault) }
{
    let mut player = Player::<PlumCore<A>, A>::new(alloc, scenario.seed, scenario.limits);
    let played = player.play(alloc, scenario.actions.as_slice(), is_strict);
    let drawn = draw_group(alloc, player.group(), only, out);
    leave(player);
    ended(played, drawn)
}

/// Plays a scenario and writes its trace. `source` is its text.
pub fn play_and_trace<A: Allocator + Copy, W: Write>(
    alloc: A,
    scenario: &Scenario,
    source: &[u8],
    is_strict: bool,
    out: &mut W,
) -> Result<(), SimulationError>
    ensures traced { OnOk result (Traces MAX_ARRIVALS scenario.now.seed scenario.now.limits scenario.now.actions.items
        (W.contents out.old) (W.contents out.new)) }
    ensures read { (fault : ScenarioError) → result ≢ Err (SimulationError.Refused fault) }
{
    let mut player = Player::<PlumCore<A>, A>::new(alloc, scenario.seed, scenario.limits);
    let played = player.play(alloc, scenario.actions.as_slice(), is_strict);
    let stop = Stop {
        source,
        actions: scenario.actions.as_slice(),
        fault: played.err(),
    };
    let traced = write_trace(alloc, player.group(), player.begun(), &stop, out);
    leave(player);
    ended(played, traced)
}

/// Leaks the memory of a group: the program ends next, and freeing each packet and entry takes time.
fn leave<C: Core<A>, A: Allocator + Copy>(player: Player<C, A>) {
    mem::forget(player);
}

/// Draws the group, with the tree of each message or of a single one.
fn draw_group<A: Allocator + Copy, W: Write>(
    alloc: A,
    group: &World<PlumCore<A>, A>,
    only: &Option<MsgId>,
    out: &mut W,
) -> Result<(), OutputError>
    ensures { OnOk result (DrawsShown only.now group.now (W.contents out.old) (W.contents out.new)) }
{
    let deliveries = output::deliveries(alloc, group.log())?;
    let messages = trees::broadcasts(alloc, deliveries.as_slice())?;
    let shown = shown(alloc, messages.as_slice(), only)?;
    graph::write_graph(alloc, group, shown.as_slice(), out)
}

/// Returns all of these messages, or only the one that was asked for, if it is among them.
pub fn shown<A: Allocator + Copy>(
    alloc: A,
    messages: &[MsgId],
    only: &Option<MsgId>,
) -> Result<Vec<MsgId, A>, AllocError>
    ensures { IfOk result (λ shown. shown.items ≡ shown_of only.now messages.now) }
{
    let mut shown = Vec::new(alloc);
    for message in messages {
        push_shown(&mut shown, only, message)?;
    }
    Ok(shown)
}

/// Appends a message, if it is shown.
fn push_shown<A: Allocator + Copy>(
    shown: &mut Vec<MsgId, A>,
    only: &Option<MsgId>,
    message: &MsgId,
) -> Result<(), AllocError>
    ensures { OnOk result (shown.new.items ≡ shown.old.items ++ shown_of only.now (message.now ∷ [])) }
{
    if is_shown(only, message) {
        shown.push(*message)?;
    }
    Ok(())
}

/// Whether a message is shown.
fn is_shown(only: &Option<MsgId>, message: &MsgId) -> bool
    ensures { result ≡ is_shown only.now message.now }
{
    match only {
        None => true,
        Some(only) => *only == *message,
    }
}

/// Prints what was delivered, and then each message's tree. `text` is a buffer for it.
fn print<C: Core<A>, A: Allocator + Copy, W: Write>(
    alloc: A,
    text: &mut String<A>,
    group: &World<C, A>,
    out: &mut W,
) -> Result<(), OutputError>
    ensures { OnOk result
        (PrintsGroup C.state C.Note.content group.now (delivered group.now) (W.contents out.old) (W.contents out.new)) }
{
    let mut deliveries = output::deliveries(alloc, group.log())?;
    output::sort(&mut deliveries)?;
    let messages = trees::broadcasts(alloc, deliveries.as_slice())?;
    output::write_lines(text, deliveries.as_slice(), out)?;
    trees::write_trees(alloc, text, group, messages.as_slice(), out)?;
    Ok(())
}
