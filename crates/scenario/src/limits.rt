//! The limits of a scenario's nodes.
ghost use Rattle.std.specs.Prelude.{◌^◌, ◌-◌, IfOk, IfErr, option_map};
ghost use Rattle.toml.specs.Data.{table as as_data};
ghost use Rattle.toml.specs.View.{table_view};
ghost use Rattle.node_names.specs.Limits.{Limits as Sizes};
ghost use Rattle.scenario.specs.Reading.{at_key, ReadsRequired};
ghost use Rattle.scenario.specs.Scenario.{AreLimits, HasLimits, IsLimit};

use crate::error::{Key, Place, ScenarioError};
use crate::section::Section;
use node_names::Limits;
use toml::Table;

/// Reads the limits of a table, or returns the standard limits if there is no table.
pub fn limits_of(table: Option<&Table>) -> Result<Limits, ScenarioError>
    ensures ok { IfOk result (HasLimits (option_map (λ found. as_data (table_view found.now)) table.entry)) }
    ensures refused { IfErr result
        (λ _. (sizes : Sizes) → ¬ HasLimits (option_map (λ found. as_data (table_view found.now)) table.entry) sizes) }
{
    match table {
        Some(table) => limits(&Section {
            place: Place::Limits,
            table,
        }),
        None => Ok(Limits::STANDARD),
    }
}

/// Reads the limits. A limit that is left out has its standard value.
pub fn limits(section: &Section<'_>) -> Result<Limits, ScenarioError>
    ensures ok { IfOk result (AreLimits (table_view section.now.table.now)) }
    ensures refused { IfErr result (λ _. (sizes : Sizes) → ¬ AreLimits (table_view section.now.table.now) sizes) }
{
    let standard = Limits::STANDARD;
    let active = limit(section, Key::Active, standard.active())?;
    let passive = limit(section, Key::Passive, standard.passive())?;
    let arwl = limit(section, Key::Arwl, standard.arwl())?;
    let prwl = limit(section, Key::Prwl, standard.prwl())?;
    let ka = limit(section, Key::Ka, standard.ka())?;
    let kp = limit(section, Key::Kp, standard.kp())?;
    let threshold = number(section, Key::Threshold)?;
    let keep = number(section, Key::Keep)?;
    match Limits::new(active, passive, arwl, prwl, ka, kp) {
        Ok(limits) => Ok(limits.tuned(threshold).keeping(keep)),
        Err(_) => Err(section.refused(Key::LimitsTogether)),
    }
}

fn limit(section: &Section<'_>, key: Key, standard: u8) -> Result<u8, ScenarioError>
    ensures { ReadsRequired (IsLimit 255 standard) (at_key key (table_view section.now.table.now))
        (ScenarioError.Refused section.now.place key) result }
{
    match section.optional_number(key, 255)? {
        Some(number) => Ok(number as u8),
        None => Ok(standard),
    }
}

/// Reads a number that is 0 if it is left out.
fn number(section: &Section<'_>, key: Key) -> Result<u32, ScenarioError>
    ensures { ReadsRequired (IsLimit (2 ^ 32 - 1) 0) (at_key key (table_view section.now.table.now))
        (ScenarioError.Refused section.now.place key) result }
{
    match section.optional_number(key, u64::from(u32::MAX))? {
        Some(number) => Ok(number as u32),
        None => Ok(0),
    }
}
