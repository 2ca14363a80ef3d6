//! Why a scenario was not played and written to its end.
ghost use Rattle.std.specs.Prelude.{◌≡◌, ◌≢◌, Err, IsOk, OnOk};
ghost use Rattle.simulation.specs.declared.play.PlayError.{PlayError};
ghost use Rattle.scenario.specs.declared.error.ScenarioError.{ScenarioError};

use crate::output::OutputError;
use crate::play::PlayError;
use scenario::ScenarioError;

/// Why a scenario was not played and written to its end.
#[derive(Clone, Copy, Debug, PartialEq, Eq)]
pub enum SimulationError {
    /// The scenario could not be read.
    Refused(ScenarioError),
    /// The run ended early. Its outcome up to then was written, unless memory ran out.
    Stopped(PlayError),
    /// A write failed. Holds the error by which the run had ended early, if it had.
    Unwritten(Option<PlayError>),
}

impl From<ScenarioError> for SimulationError {
    ghost use Rattle.std.specs.Prelude.{◌≡◌};
    ghost use Rattle.simulation.specs.declared.error.SimulationError.TheVariants.{Refused};

    ghost from_gives = { λ fault failure. failure ≡ Refused fault };

    fn from(fault: ScenarioError) -> SimulationError {
        SimulationError::Refused(fault)
    }
}

/// Combines the results of a run and of writing its outcome.
pub fn ended(
    played: Result<(), PlayError>,
    written: Result<(), OutputError>,
) -> Result<(), SimulationError>
    ensures ok { OnOk result (IsOk played × IsOk written) }
    ensures stopped { (fault : PlayError)
        → result ≡ Err (SimulationError.Stopped fault)
        → fault ≢ PlayError.OutOfMemory
        → (played ≡ Err fault) × IsOk written }
    ensures read { (fault : ScenarioError) → result ≢ Err (SimulationError.Refused fault) }
{
    match written {
        Ok(()) => match played {
            Ok(()) => Ok(()),
            Err(fault) => Err(SimulationError::Stopped(fault)),
        },
        Err(OutputError::Unwritten) => Err(SimulationError::Unwritten(played.err())),
        Err(OutputError::OutOfMemory) => Err(SimulationError::Stopped(PlayError::OutOfMemory)),
    }
}
