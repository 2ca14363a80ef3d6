//! Reads a scenario that is to be played.
ghost use Rattle.std.specs.Prelude.{◌≡◌, ◌≢◌, ℕ, List, Option, IfOk, IfErr};
ghost use Rattle.node_names.specs.Limits.{Limits as Sizes};
ghost use Rattle.scenario.specs.declared.action.Action.{Action};
ghost use Rattle.scenario.specs.declared.error.ScenarioError.{ScenarioError};
ghost use Rattle.scenario.specs.declared.read.TheConstants.{MAX_SCENARIO_BYTES};
ghost use Rattle.scenario.specs.declared.scenario.TheConstants.{MAX_EVENTS};
ghost use Rattle.scenario.specs.Scenario.{IsScenario};

use scenario::{Scenario, ScenarioError, events_of, read_document};
use std::alloc::Global;

/// Reads a text as a scenario, as `read_scenario` does, and answers too whether its document has events; a text that is
/// no document has none that could be missed. A caller that wants both need not read the document twice, which takes
/// most of the time that a long scenario of small events takes.
pub fn read_events(alloc: Global, text: &[u8]) -> (Result<Scenario, ScenarioError>, bool)
    ensures ok { IfOk result.0 (λ scenario.
        IsScenario MAX_SCENARIO_BYTES MAX_EVENTS text.now scenario.seed scenario.limits scenario.actions.items) }
    ensures refused { IfErr result.0
        (λ fault. fault ≢ ScenarioError.OutOfMemory → (seed : Option ℕ) (sizes : Sizes) (actions : List Action)
        → ¬ IsScenario MAX_SCENARIO_BYTES MAX_EVENTS text.now seed sizes actions) }
{
    match read_document(alloc, text) {
        Ok(document) => {
            let read = Scenario::from_document(alloc, &document);
            let has_events = events_of(&document) > 0;
            (read, has_events)
        }
        Err(fault) => (Err(fault), true),
    }
}
