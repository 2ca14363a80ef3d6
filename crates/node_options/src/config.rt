//! The configuration file.
ghost use Rattle.std.specs.Prelude.{◌≡◌, Some, IfOk, option_map};
ghost use Rattle.toml.specs.Data.{get_member};
ghost use Rattle.toml.specs.View.{table_view, view};
ghost use Rattle.toml.specs.Parse.{parse_document};
ghost use Rattle.node_options.specs.Told.{file_of};

use crate::error::{ConfigLine, OptionError};
use crate::{lines, rows};
use std::alloc::Global;
use toml::{Table, Value};

/// A configuration file.
#[derive(Drop)]
pub(crate) struct Config<'c> {
    pub(crate) text: &'c str,
    pub(crate) table: Table,
}

impl<'c> Config<'c> {
    /// Reads a file, each key of which is an option. `NotToml` is tested before `UnknownKey`.
    pub(crate) fn read(alloc: Global, text: &'c str) -> Result<Config<'c>, OptionError>
        ensures { IfOk result (λ config. parse_document text.entry.now ≡ Some (table_view config.table)) }
    {
        match toml::table_from_str(alloc, text) {
            Ok(table) => {
                only_options(alloc, text, &table)?;
                Ok(Config { text, table })
            }
            Err(error) => Err(not_toml(alloc, text, &error)),
        }
    }

    /// Reads a file, if there is one.
    pub(crate) fn read_any(
        alloc: Global,
        text: Option<&'c str>,
    ) -> Result<Option<Config<'c>>, OptionError>
        ensures { IfOk result (λ config. option_map (λ c. table_view c.table) config ≡ file_of text.entry) }
    {
        match text {
            Some(text) => Ok(Some(Config::read(alloc, text)?)),
            None => Ok(None),
        }
    }

    /// The value at a key, if there is one.
    pub(crate) fn get(&self, key: &str) -> Option<&Value>
        ensures { option_map (λ value. view value.now) result ≡ get_member key.now (table_view self.now.table) }
    {
        self.table.get(key)
    }
}

/// Refuses a table that has a key which is no option.
fn only_options(alloc: Global, text: &str, table: &Table) -> Result<(), OptionError> {
    for key in table.keys() {
        if !rows::is_key(key.as_str()) {
            return Err(OptionError::UnknownKey {
                line: ConfigLine(lines::of_key(text, key.as_str())),
                key: String::from_str(alloc, key.as_str())?,
            });
        }
    }
    Ok(())
}

/// The error for a text that was not read.
fn not_toml(alloc: Global, text: &str, error: &toml::de::Error) -> OptionError {
    let Some(span) = error.span() else {
        return OptionError::OutOfMemory;
    };
    match String::from_str(alloc, error.message()) {
        Ok(fault) => OptionError::NotToml {
            line: ConfigLine(Some(lines::of_byte(text, span.start))),
            fault,
        },
        Err(error) => OptionError::from(error),
    }
}
