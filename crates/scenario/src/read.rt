//! Reads a scenario's text.
ghost use Rattle.std.specs.Prelude.{◌≡◌, ◌≢◌, ◌+◌, ◌<◌, ◌≤◌, length, take, IfOk, IfSome, IsErrOf, IfErr};
ghost use Rattle.std.specs.Prelude.{None, Some, IsUtf8};
ghost use Rattle.std.specs.IoError.{error_kind};
ghost use Rattle.toml.specs.Parse.{parse_document};
ghost use Rattle.toml.specs.View.{table_view};

use crate::error::ScenarioError;
use std::alloc::Global;
use std::io;
use std::io::{ErrorKind, Read};
use toml::Table;

/// The maximum length of a scenario in bytes.
pub const MAX_SCENARIO_BYTES: usize = 1_048_576;

/// Reads the whole input, but at most one byte more than a scenario may have. A read that is interrupted is retried.
pub fn read_text<R: Read>(alloc: Global, input: &mut R) -> io::Result<Vec<u8>>
    ensures text { IfOk result
        (λ text. IfSome (R.remaining input.old) (λ rest. text.items ≡ take (MAX_SCENARIO_BYTES + 1) rest)) }
    ensures retried { IfErr result (λ error. error_kind error ≢ ErrorKind.Interrupted) }
{
    let mut text = Vec::new(alloc);
    let mut start = input.take(MAX_SCENARIO_BYTES as u64 + 1);
    start.read_to_end(&mut text)?;
    Ok(text)
}

/// Reads a text as a TOML document. `TooLong` is tested before `NotToml`. No test refuses memory here, since `toml`
/// takes the global allocator alone.
pub fn read_document(alloc: Global, text: &[u8]) -> Result<Table, ScenarioError>
    ensures short { IfOk result (λ _. length text.now ≤ MAX_SCENARIO_BYTES) }
    ensures ok { IfOk result (λ table. IsUtf8 text.now × (parse_document text.now ≡ Some (table_view table))) }
    ensures too_long { IsErrOf result ScenarioError.TooLong → MAX_SCENARIO_BYTES < length text.now }
    ensures not_toml { IsErrOf result ScenarioError.NotToml → IsUtf8 text.now → parse_document text.now ≡ None }
    ensures refused { IfErr result (λ fault. fault ≢ ScenarioError.OutOfMemory
        → length text.now ≤ MAX_SCENARIO_BYTES
        → IsUtf8 text.now
        → parse_document text.now ≡ None) }
{
    if text.len() > MAX_SCENARIO_BYTES {
        return Err(ScenarioError::TooLong);
    }
    match toml::table_from_slice(alloc, text) {
        Ok(table) => Ok(table),
        Err(error) => {
            if error.is_memory() {
                Err(ScenarioError::OutOfMemory)
            } else {
                Err(ScenarioError::NotToml)
            }
        }
    }
}
