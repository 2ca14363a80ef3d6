//! One table of a scenario, and how the values of its keys are read.
ghost use Rattle.std.specs.Prelude.{◌≡◌, ◌≢◌, ℕ, List, Some, option_map, MatchOption};
ghost use Rattle.std.specs.Prelude.{IfOk, IfErr, IsTrue, IsSome, All, ◌↔◌, ◌≤◌, length};
ghost use Rattle.node_names.specs.NodeName.{IsNodeName, Name};
ghost use Rattle.toml.specs.View.{view, table_view, items_view};
ghost use Rattle.toml.specs.Data.{Members, as_table};
ghost use Rattle.scenario.specs.Reading.{at_key, ReadsOptional, ReadsOptionalAs, ReadsRequired};
ghost use Rattle.scenario.specs.Reading.{ReadsRequiredAs, IsNumber, IsNumberFromOne, IsText};
ghost use Rattle.scenario.specs.Reading.{IsName, IsTable, IsNames, IsList, IsTables, tables, texts};

use crate::error::{Key, Place, ScenarioError};
use bytes::Bytes;
use node_names::{Listed, NodeName};
use std::alloc::{AllocError, Global};
use toml::{Table, Value};

/// A table of a scenario, with its place in the scenario.
#[derive(Clone, Copy)]
pub struct Section<'a> {
    pub place: Place,
    pub table: &'a Table,
}

impl<'a> Section<'a> {
    /// The error that the value of this key is missing or wrong.
    pub fn refused(&self, key: Key) -> ScenarioError
        ensures { result ≡ ScenarioError.Refused self.now.place key }
    {
        ScenarioError::Refused {
            place: self.place,
            key,
        }
    }

    /// The value of a key, if it is present.
    fn get(&self, key: Key) -> Option<&'a Value>
        ensures { option_map (λ v. view v.now) result ≡ at_key key (table_view self.now.table.now) }
    {
        self.table.get(key.word())
    }

    /// Reads the whole number at a key, from 0 to `most`, or `None` if the key is left out.
    pub fn optional_number(&self, key: Key, most: u64) -> Result<Option<u64>, ScenarioError>
        ensures { ReadsOptional (IsNumber most) (at_key key (table_view self.now.table.now))
            (ScenarioError.Refused self.now.place key) result }
    {
        match self.get(key) {
            None => Ok(None),
            Some(value) => match number_of(value, most) {
                Some(number) => Ok(Some(number)),
                None => Err(self.refused(key)),
            },
        }
    }

    /// Reads the whole number at a key, in this range, or `None` if the key is left out.
    pub fn optional_number_between(
        &self,
        key: Key,
        least: u64,
        most: u64,
    ) -> Result<Option<u64>, ScenarioError> {
        match self.optional_number(key, most)? {
            Some(number) if number < least => Err(self.refused(key)),
            number => Ok(number),
        }
    }

    /// Reads the whole number at a key, which may be up to `u64::MAX`.
    pub fn number(&self, key: Key) -> Result<u64, ScenarioError>
        ensures { ReadsRequired (IsNumber u64.MAX) (at_key key (table_view self.now.table.now))
            (ScenarioError.Refused self.now.place key) result }
    {
        match self.optional_number(key, u64::MAX)? {
            Some(number) => Ok(number),
            None => Err(self.refused(key)),
        }
    }

    /// Reads the whole number at a key, which is at least 1.
    pub fn number_from_one(&self, key: Key) -> Result<u64, ScenarioError>
        ensures { ReadsRequired (IsNumberFromOne u64.MAX) (at_key key (table_view self.now.table.now))
            (ScenarioError.Refused self.now.place key) result }
    {
        match self.number(key)? {
            0 => Err(self.refused(key)),
            number => Ok(number),
        }
    }

    /// Reads the text at a key.
    pub fn text(&self, key: Key) -> Result<&'a str, ScenarioError>
        ensures { ReadsRequiredAs (λ text. text.now) IsText (at_key key (table_view self.now.table.now))
            (ScenarioError.Refused self.now.place key) result }
    {
        match self.get(key).and_then(Value::as_str) {
            Some(text) => Ok(text),
            None => Err(self.refused(key)),
        }
    }

    /// Reads the name at a key, or `None` if the key is left out.
    pub fn optional_name(&self, key: Key) -> Result<Option<NodeName>, ScenarioError>
        ensures { ReadsOptional IsName (at_key key (table_view self.now.table.now))
            (ScenarioError.Refused self.now.place key) result }
    {
        match self.get(key) {
            None => Ok(None),
            Some(value) => match name_of(value) {
                Some(name) => Ok(Some(name)),
                None => Err(self.refused(key)),
            },
        }
    }

    /// Reads the name at a key.
    pub fn name(&self, key: Key) -> Result<NodeName, ScenarioError>
        ensures { ReadsRequired IsName (at_key key (table_view self.now.table.now))
            (ScenarioError.Refused self.now.place key) result }
    {
        match self.optional_name(key)? {
            Some(name) => Ok(name),
            None => Err(self.refused(key)),
        }
    }

    /// Reads the table at a key, or `None` if the key is left out.
    pub fn optional_table(&self, key: Key) -> Result<Option<&'a Table>, ScenarioError>
        ensures { ReadsOptionalAs (λ table. table_view table.now) IsTable
            (at_key key (table_view self.now.table.now)) (ScenarioError.Refused self.now.place key) result }
    {
        match self.get(key) {
            None => Ok(None),
            Some(value) => match value.as_table() {
                Some(table) => Ok(Some(table)),
                None => Err(self.refused(key)),
            },
        }
    }

    /// Reads the list at a key, or `None` if the key is left out.
    fn optional_list(&self, key: Key) -> Result<Option<&'a [Value]>, ScenarioError>
        ensures { ReadsOptionalAs (λ values. items_view values.now) IsList
            (at_key key (table_view self.now.table.now)) (ScenarioError.Refused self.now.place key) result }
    {
        match self.get(key) {
            None => Ok(None),
            Some(value) => match value.as_array() {
                Some(values) => Ok(Some(values.as_slice())),
                None => Err(self.refused(key)),
            },
        }
    }

    /// Reads the list at a key, of at most `most` items, all of them tables. The list is empty if the key is left out.
    pub fn tables(&self, key: Key, most: usize) -> Result<&'a [Value], ScenarioError>
        ensures ok { IfOk result (λ values. (members : List Members)
            × IsTables most (at_key key (table_view self.now.table.now)) members
            × (items_view values.now ≡ tables members)) }
        ensures refused { IfErr result (λ e. (e ≡ ScenarioError.Refused self.now.place key)
            × ((members : List Members) → ¬ IsTables most (at_key key (table_view self.now.table.now)) members)) }
    {
        match self.optional_list(key)? {
            None => Ok(&[]),
            Some(values) => {
                if are_few_tables(values, most) {
                    Ok(values)
                } else {
                    Err(self.refused(key))
                }
            }
        }
    }

    /// Reads the names at a key, in order, or no names if the key is left out.
    pub fn names(&self, alloc: Global, key: Key) -> Result<Listed<NodeName>, ScenarioError>
        ensures ok { IfOk result (IsNames (at_key key (table_view self.now.table.now))) }
        ensures refused { IfErr result
            (λ e. e ≢ ScenarioError.OutOfMemory → (e ≡ ScenarioError.Refused self.now.place key)
            × ((names : List Name) → ¬ IsNames (at_key key (table_view self.now.table.now)) names)) }
    {
        let Some(values) = self.optional_list(key)? else {
            return Ok(Listed::new(alloc));
        };
        match names_of(alloc, values)? {
            Some(names) => Ok(names),
            None => Err(self.refused(key)),
        }
    }

    /// Reads the texts at a key, in order, or no texts if the key is left out.
    pub fn texts(&self, alloc: Global, key: Key) -> Result<Vec<Bytes>, ScenarioError> {
        let mut texts = Vec::new(alloc);
        for value in self.optional_list(key)?.unwrap_or(&[]) {
            match value.as_str() {
                Some(text) => texts.push(Bytes::copy_from_slice(alloc, text.as_bytes())?)?,
                None => return Err(self.refused(key)),
            }
        }
        Ok(texts)
    }
}

/// Whether there are at most `most` values, all of them tables.
fn are_few_tables(values: &[Value], most: usize) -> bool
    ensures { IsTrue result
        ↔ ((members : List Members) × (items_view values.now ≡ tables members) × (length members ≤ most)) }
{
    values.len() <= most && are_tables(values)
}

/// Whether each value is a table.
fn are_tables(values: &[Value]) -> bool
    ensures { IsTrue result ↔ All (λ v. IsSome (as_table (view v))) values.now }
{
    values.iter().all(Value::is_table)
}

/// The values as names, or `None` if one of them is not a name.
fn names_of(alloc: Global, values: &[Value]) -> Result<Option<Listed<NodeName>>, AllocError>
    ensures { IfOk result (λ found. MatchOption found
        ((names : List Name) → items_view values.now ≡ texts names → ¬ All IsNodeName names)
        (λ names. (items_view values.now ≡ texts names) × All IsNodeName names)) }
{
    let mut names = Listed::new(alloc);
    for value in values {
        match name_of(value) {
            Some(name) => names.push(name)?,
            None => return Ok(None),
        }
    }
    Ok(Some(names))
}

/// The value as a whole number from 0 to `most`, if it is one.
fn number_of(value: &Value, most: u64) -> Option<u64>
    ensures { MatchOption result ((n : ℕ) → ¬ IsNumber most (Some (view value.now)) n)
        (IsNumber most (Some (view value.now))) }
{
    match value.as_integer() {
        Some(number) => {
            if number >= 0 && number as u64 <= most {
                Some(number as u64)
            } else {
                None
            }
        }
        None => None,
    }
}

/// The value as a name, if it is a text that is one.
fn name_of(value: &Value) -> Option<NodeName>
    ensures { MatchOption result ((name : List ℕ) → ¬ IsName (Some (view value.now)) name)
        (IsName (Some (view value.now))) }
{
    match value.as_str() {
        Some(text) => NodeName::parse(text.as_bytes()).ok(),
        None => None,
    }
}
