//! A scenario: what a simulated group is to do.
ghost use Rattle.std.specs.Prelude.{◌≡◌, ◌≢◌, ℕ, List, Option, IfOk, IfErr};
ghost use Rattle.toml.specs.View.{view, table_view, items_view};
ghost use Rattle.toml.specs.Data.{Members, table};
ghost use Rattle.node_names.specs.Limits.{Limits as Sizes};
ghost use Rattle.scenario.specs.Reading.{tables};
ghost use Rattle.scenario.specs.Scenario.{AreActions, Describes, IsAction, IsScenario};

use crate::action::Action;
use crate::error::{Key, Place, ScenarioError};
use crate::limits;
use crate::read::{MAX_SCENARIO_BYTES, read_document};
use crate::section::Section;
use node_names::Limits;
use std::alloc::Global;
use toml::{Table, Value};

/// The maximum number of events in a scenario.
pub const MAX_EVENTS: usize = 100_000;

/// What a simulated group is to do.
#[derive(Drop)]
pub struct Scenario {
    /// The seed of the dice; without one all dice are zero.
    pub seed: Option<u64>,
    /// The limits of every node.
    pub limits: Limits,
    /// What happens, in order.
    pub actions: Vec<Action>,
}

impl Scenario {
    /// Reads a document as a scenario: first the keys at its top, then the limits, then each event.
    pub fn from_document(alloc: Global, document: &Table) -> Result<Scenario, ScenarioError>
        ensures ok { IfOk result (λ scenario.
            Describes MAX_EVENTS (table_view document.now) scenario.seed scenario.limits scenario.actions.items) }
        ensures refused { IfErr result (λ e. e ≢ ScenarioError.OutOfMemory
            → (seed : Option ℕ) (sizes : Sizes) (actions : List Action)
            → ¬ Describes MAX_EVENTS (table_view document.now) seed sizes actions) }
    {
        let top = Section {
            place: Place::Top,
            table: document,
        };
        let seed = top.optional_number(Key::Seed, u64::MAX)?;
        let limits = top.optional_table(Key::Limits)?;
        let events = top.tables(Key::Event, MAX_EVENTS)?;
        let limits = match limits {
            Some(table) => limits::limits(&Section {
                place: Place::Limits,
                table,
            })?,
            None => Limits::STANDARD,
        };
        let actions = actions(alloc, events)?;
        Ok(Scenario {
            seed,
            limits,
            actions,
        })
    }
}

/// Reads a text as a scenario.
pub fn read_scenario(alloc: Global, text: &[u8]) -> Result<Scenario, ScenarioError>
    ensures ok { IfOk result (λ scenario.
        IsScenario MAX_SCENARIO_BYTES MAX_EVENTS text.now scenario.seed scenario.limits scenario.actions.items) }
    ensures refused { IfErr result
        (λ fault. fault ≢ ScenarioError.OutOfMemory → (seed : Option ℕ) (sizes : Sizes) (actions : List Action)
        → ¬ IsScenario MAX_SCENARIO_BYTES MAX_EVENTS text.now seed sizes actions) }
{
    let document = read_document(alloc, text)?;
    Scenario::from_document(alloc, &document)
}

/// The actions of a list of tables.
fn actions(alloc: Global, events: &[Value]) -> Result<Vec<Action>, ScenarioError>
    ensures ok { IfOk result (λ actions.
        (members : List Members) → items_view events.now ≡ tables members → AreActions members actions.items) }
    ensures refused { IfErr result (λ e. e ≢ ScenarioError.OutOfMemory
        → (members : List Members)
        → items_view events.now ≡ tables members
        → (actions : List Action)
        → ¬ AreActions members actions) }
{
    let mut actions = Vec::new(alloc);
    for (number, event) in events.iter().enumerate() {
        actions.push(numbered_action(alloc, number, event)?)?;
    }
    Ok(actions)
}

/// The action of the table with this number.
fn numbered_action(alloc: Global, number: usize, event: &Value) -> Result<Action, ScenarioError>
    ensures ok { IfOk result
        (λ action. (members : Members) → view event.now ≡ table members → IsAction members action) }
    ensures refused { IfErr result (λ e. e ≢ ScenarioError.OutOfMemory
        → (members : Members)
        → view event.now ≡ table members
        → (action : Action)
        → ¬ IsAction members action) }
{
    match event.as_table() {
        Some(table) => {
            let place = Place::Event(number);
            Action::from_section(alloc, &Section { place, table })
        }
        None => Err(ScenarioError::Refused {
            place: Place::Top,
            key: Key::Event,
        }),
    }
}
