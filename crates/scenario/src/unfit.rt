//! Scenarios that have nothing for what is to be done with them.
use crate::read::read_document;
use std::alloc::Global;
use std::fmt;
use toml::{Table, Value};

/// What is to be done with a scenario.
#[derive(Clone, Copy, Debug, PartialEq, Eq)]
pub enum Purpose {
    /// Its events are played.
    Play,
    /// Its nodes are run.
    Run,
}

/// What a scenario lacks for its purpose.
#[derive(Clone, Copy, Debug, PartialEq, Eq)]
pub enum Unfit {
    /// It is to be played, and has nodes but no events.
    NoEvents,
    /// It is to be run, and has events but no nodes.
    NoNodes,
    /// It has keys, but neither events nor nodes.
    Neither,
}

impl fmt::Display for Unfit {
    fn fmt<W: fmt::Write>(&self, f: &mut fmt::Formatter<W>) -> fmt::Result {
        f.write_str(match self {
            Unfit::NoEvents => "scenario: no [[event]] to play; `plumtree run` runs its nodes",
            Unfit::NoNodes => "scenario: no [[node]] to run; `plumtree sim` plays its events",
            Unfit::Neither => "scenario: neither an [[event]] nor a [[node]]",
        })
    }
}

/// Whether a document has tables at this key.
fn has_any(document: &Table, key: &str) -> bool {
    match document.get(key).and_then(Value::as_array) {
        Some(tables) => !tables.is_empty(),
        None => false,
    }
}

/// Returns what a document lacks for a purpose, if it lacks something.
fn lack_of(purpose: Purpose, document: &Table) -> Option<Unfit> {
    let has_events = has_any(document, "event");
    let has_nodes = has_any(document, "node");
    if !has_events && !has_nodes {
        return if document.is_empty() {
            None
        } else {
            Some(Unfit::Neither)
        };
    }
    match purpose {
        Purpose::Play if !has_events => Some(Unfit::NoEvents),
        Purpose::Run if !has_nodes => Some(Unfit::NoNodes),
        _ => None,
    }
}

/// What a scenario lacks for a purpose, if it lacks something. A text that is no document is left to its reader.
pub fn unfit_for(alloc: Global, purpose: Purpose, text: &[u8]) -> Option<Unfit> {
    match read_document(alloc, text) {
        Ok(document) => lack_of(purpose, &document),
        Err(_) => None,
    }
}
