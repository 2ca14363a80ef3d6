//! What the program does for a scenario that it plays: it writes the outcome, reports why the run ended early, and
//! returns an exit status.
ghost use Rattle.std.specs.Prelude.{◌≡◌, ◌≢◌, ◌⊎◌, false, ◌≤◌, ◌<◌, ℕ, List, Option, Ok, Err, IfSome, IsOk, OnOk};
ghost use Rattle.node_names.specs.Limits.{Limits as Sizes};
ghost use Rattle.simulation.specs.declared.play.TheConstants.{MAX_ARRIVALS};
ghost use Rattle.scenario.specs.declared.read.TheConstants.{MAX_SCENARIO_BYTES};
ghost use Rattle.scenario.specs.declared.scenario.TheConstants.{MAX_EVENTS};
ghost use Rattle.scenario.specs.declared.action.Action.{Action};
ghost use Rattle.scenario.specs.declared.error.ScenarioError.{ScenarioError};
ghost use Rattle.scenario.specs.declared.scenario.Scenario.{Scenario};
ghost use Rattle.simulation.specs.Form.{IsWritten};
ghost use Rattle.scenario.specs.Scenario.{IsScenario};

use crate::error::SimulationError;
use crate::form::Form;
use crate::outcome::{play_and_draw, play_and_print, play_and_trace};
use crate::play::PlayError;
use crate::strict::{report_idle, report_unknown, report_value};
use scenario::{Scenario, ScenarioError, read_scenario, read_text};
use std::alloc::Global;
use std::fmt::Display;
use std::io;
use std::io::{Read, Write};

/// Plays the scenario of an input and writes its outcome in this form, and why it ended early to `faults`. Returns the
/// program's exit status. If `is_strict`, unknown keys and events that do nothing are rejected too.
pub fn play_input<R: Read, W: Write, F: Write>(
    alloc: Global,
    form: Form,
    is_strict: bool,
    input: &mut R,
    out: &mut W,
    faults: &mut F,
) -> u8
    ensures status { result ≤ 2 }
    ensures quiet { result ≡ 0 → faults.new ≡ faults.old }
    ensures unplayed { result ≡ 2 → out.new ≡ out.old }
    ensures played { result ≡ 0
        → IfSome (R.remaining input.old) (λ text. (seed : Option ℕ) × (sizes : Sizes) × (actions : List Action)
        × IsScenario MAX_SCENARIO_BYTES MAX_EVENTS text seed sizes actions
        × IsWritten MAX_ARRIVALS form seed sizes actions (W.contents out.old) (W.contents out.new)) }
{
    match read_text(alloc, input) {
        Ok(text) => play(alloc, form, is_strict, text.as_slice(), out, faults),
        Err(error) => report_unread(&error, faults),
    }
}

/// Plays the scenario of a text.
fn play<W: Write, F: Write>(
    alloc: Global,
    form: Form,
    is_strict: bool,
    text: &[u8],
    out: &mut W,
    faults: &mut F,
) -> u8
    ensures status { result ≤ 2 }
    ensures quiet { result ≡ 0 → faults.new ≡ faults.old }
    ensures unplayed { result ≡ 2 → out.new ≡ out.old }
    ensures played { result ≡ 0 → (seed : Option ℕ) × (sizes : Sizes) × (actions : List Action)
        × IsScenario MAX_SCENARIO_BYTES MAX_EVENTS text.now seed sizes actions
        × IsWritten MAX_ARRIVALS form seed sizes actions (W.contents out.old) (W.contents out.new) }
    ensures refused { result ≡ 2
        → is_strict ≡ false
        → (seed : Option ℕ) (sizes : Sizes) (actions : List Action)
        → ¬ IsScenario MAX_SCENARIO_BYTES MAX_EVENTS text.now seed sizes actions }
{
    if is_strict && let Some(status) = report_unknown(alloc, text, faults) {
        return status;
    }
    play_known(alloc, form, is_strict, text, out, faults)
}

/// Plays the scenario of a text, without looking for unknown keys.
fn play_known<W: Write, F: Write>(
    alloc: Global,
    form: Form,
    is_strict: bool,
    text: &[u8],
    out: &mut W,
    faults: &mut F,
) -> u8
    ensures status { result ≤ 2 }
    ensures quiet { result ≡ 0 → faults.new ≡ faults.old }
    ensures unplayed { result ≡ 2 → out.new ≡ out.old }
    ensures played { result ≡ 0 → (seed : Option ℕ) × (sizes : Sizes) × (actions : List Action)
        × IsScenario MAX_SCENARIO_BYTES MAX_EVENTS text.now seed sizes actions
        × IsWritten MAX_ARRIVALS form seed sizes actions (W.contents out.old) (W.contents out.new) }
    ensures refused { result ≡ 2
        → (seed : Option ℕ) (sizes : Sizes) (actions : List Action)
        → ¬ IsScenario MAX_SCENARIO_BYTES MAX_EVENTS text.now seed sizes actions }
{
    let read = read_scenario(alloc, text);
    play_read(alloc, form, is_strict, text, read, out, faults)
}

/// Plays a scenario like `play_input`, for a caller that has read it, and without looking for unknown keys. `read` is
/// what reading its text gave, and `text` the text, in which a fault's line is found.
pub fn play_read<W: Write, F: Write>(
    alloc: Global,
    form: Form,
    is_strict: bool,
    text: &[u8],
    read: Result<Scenario, ScenarioError>,
    out: &mut W,
    faults: &mut F,
) -> u8
    ensures status { result ≤ 2 }
    ensures quiet { result ≡ 0 → faults.new ≡ faults.old }
    ensures unplayed { result ≡ 2 → out.new ≡ out.old }
    ensures played { result ≡ 0 → (scenario : Scenario) × (read ≡ Ok scenario)
        × IsWritten MAX_ARRIVALS form scenario.seed scenario.limits scenario.actions.items
        (W.contents out.old) (W.contents out.new) }
    ensures refused { result ≡ 2
        → (fault : ScenarioError) × (read ≡ Err fault) × (fault ≢ ScenarioError.OutOfMemory) }
{
    let ended = write_outcome(alloc, form, is_strict, text, read, out);
    if let Err(SimulationError::Stopped(PlayError::Idle { event, why })) = ended {
        return report_idle(alloc, text, event, why, faults);
    }
    if is_strict
        && let Err(SimulationError::Refused(ScenarioError::Refused { place, key })) = ended
    {
        return report_value(alloc, text, place, key, faults);
    }
    conclude(ended, faults)
}

/// Plays a scenario that was read and writes its outcome in this form.
fn write_outcome<W: Write>(
    alloc: Global,
    form: Form,
    is_strict: bool,
    text: &[u8],
    read: Result<Scenario, ScenarioError>,
    out: &mut W,
) -> Result<(), SimulationError>
    ensures played { OnOk result ((scenario : Scenario) × (read ≡ Ok scenario)
        × IsWritten MAX_ARRIVALS form scenario.seed scenario.limits scenario.actions.items
        (W.contents out.old) (W.contents out.new)) }
    ensures refused { (fault : ScenarioError) → result ≡ Err (SimulationError.Refused fault) → read ≡ Err fault }
    ensures unplayed { (fault : ScenarioError) → result ≡ Err (SimulationError.Refused fault) → out.new ≡ out.old }
{
    match read {
        Ok(scenario) => write_played(alloc, form, is_strict, text, &scenario, out),
        Err(fault) => Err(SimulationError::Refused(fault)),
    }
}

/// Plays a scenario and writes its outcome in this form. `text` is its text.
fn write_played<W: Write>(
    alloc: Global,
    form: Form,
    is_strict: bool,
    text: &[u8],
    scenario: &Scenario,
    out: &mut W,
) -> Result<(), SimulationError>
    ensures played { OnOk result (IsWritten MAX_ARRIVALS form scenario.now.seed scenario.now.limits
        scenario.now.actions.items (W.contents out.old) (W.contents out.new)) }
    ensures read { (fault : ScenarioError) → result ≢ Err (SimulationError.Refused fault) }
{
    match form {
        Form::Lines => play_and_print::<Global, W>(alloc, scenario, is_strict, out),
        Form::Graph(only) => play_and_draw::<Global, W>(alloc, scenario, &only, is_strict, out),
        Form::Trace => play_and_trace::<Global, W>(alloc, scenario, text, is_strict, out),
    }
}

/// Writes that the input could not be read, and returns the program's exit status.
pub fn report_unread<F: Write>(error: &io::Error, faults: &mut F) -> u8
    ensures { (result ≡ 1) ⊎ (result ≡ 2) }
{
    if error.kind() == io::ErrorKind::OutOfMemory {
        report(faults, ScenarioError::OutOfMemory, 1)
    } else {
        report(faults, ScenarioError::Unreadable, 2)
    }
}

/// Writes why a run ended early, if it did, and returns the program's exit status.
pub fn conclude<F: Write>(ended: Result<(), SimulationError>, faults: &mut F) -> u8
    ensures status { result ≤ 2 }
    ensures quiet { result ≡ 0 → (faults.new ≡ faults.old) × IsOk ended }
    ensures refused { result ≡ 2
        → (fault : ScenarioError)
        × (ended ≡ Err (SimulationError.Refused fault))
        × (fault ≢ ScenarioError.OutOfMemory) }
{
    match ended {
        Ok(()) => 0,
        Err(SimulationError::Refused(ScenarioError::OutOfMemory)) => {
            report(faults, ScenarioError::OutOfMemory, 1)
        }
        Err(SimulationError::Refused(fault)) => report(faults, fault, 2),
        Err(SimulationError::Stopped(fault)) => report(faults, fault, 1),
        Err(SimulationError::Unwritten(Some(fault))) => report(faults, fault, 1),
        Err(SimulationError::Unwritten(None)) => 1,
    }
}

/// Writes why the program ends with this status, and returns the status, or 1 if the write fails.
pub fn report<F: Write, D: Display + Drop>(faults: &mut F, fault: D, status: u8) -> u8
    ensures { (result ≡ status) ⊎ (result ≡ 1) }
{
    status_after(write_fault(faults, fault), status)
}

fn write_fault<F: Write, D: Display + Drop>(faults: &mut F, fault: D) -> io::Result<()> {
    writeln!(faults, "plumtree: {fault}")?;
    faults.flush()
}

/// Returns the status, or 1 if the write failed.
pub fn status_after(written: io::Result<()>, status: u8) -> u8
    ensures { (result ≡ status) ⊎ (result ≡ 1) }
{
    match written {
        Ok(()) => status,
        Err(_) => 1,
    }
}
