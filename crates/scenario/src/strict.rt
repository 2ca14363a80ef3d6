//! What is wrong in a scenario, and on which line: an unknown key, which strict reading rejects, or a refused value.
use crate::error::{Key, Place};
use crate::position::key_line;
use crate::read::read_document;
use std::alloc::Global;
use std::fmt;
use toml::{Table, Value};

/// The keys at the top of a scenario, both of one that is simulated and of one that real nodes run.
const TOP: [&str; 5] = ["event", "limits", "node", "seed", "ticks"];

/// The keys of the limits.
const LIMITS: [&str; 8] = [
    "active",
    "arwl",
    "ka",
    "keep",
    "kp",
    "passive",
    "prwl",
    "threshold",
];

/// The keys of a real node that is to run.
const NODE: [&str; 6] = ["contact", "incarnation", "name", "peers", "port", "say"];

/// A key that is unknown in its table.
#[derive(Drop)]
pub struct UnknownKey<'a> {
    place: Place,
    key: &'a str,
    line: Option<usize>,
}

impl fmt::Display for UnknownKey<'_> {
    fn fmt<W: fmt::Write>(&self, f: &mut fmt::Formatter<W>) -> fmt::Result {
        let (place, key) = (self.place, self.key);
        match self.line {
            Some(line) => write!(f, "scenario: {place}, line {line}: unknown key {key}"),
            None => write!(f, "scenario: {place}: unknown key {key}"),
        }
    }
}

/// A value that is missing, of the wrong type or out of range.
#[derive(Drop)]
pub struct BadValue {
    place: Place,
    key: Key,
    line: Option<usize>,
}

impl fmt::Display for BadValue {
    fn fmt<W: fmt::Write>(&self, f: &mut fmt::Formatter<W>) -> fmt::Result {
        let (place, key) = (self.place, self.key);
        match self.line {
            Some(line) => write!(f, "scenario: {place}, line {line}: {key}"),
            None => write!(f, "scenario: {place}: {key}"),
        }
    }
}

/// Finds the first key of a document that is unknown in its table. `text` is the document's text.
pub fn first_unknown<'a>(document: &'a Table, text: &[u8]) -> Option<UnknownKey<'a>> {
    let (place, key) = unknown_key(document)?;
    let line = key_line(text, place, tables_at(document, place), key);
    Some(UnknownKey { place, key, line })
}

/// The value of a scenario that is refused, with its line if that is found.
pub fn bad_value(alloc: Global, text: &[u8], place: Place, key: Key) -> BadValue {
    let line = match read_document(alloc, text) {
        Ok(document) => key_line(text, place, tables_at(&document, place), key.word()),
        Err(_) => None,
    };
    BadValue { place, key, line }
}

/// How many events a document has.
pub fn events_of(document: &Table) -> usize {
    tables(document, "event").len()
}

/// How many tables stand in the list that a place is in: nodes for a node, and events otherwise.
fn tables_at(document: &Table, place: Place) -> usize {
    match place {
        Place::Node(_) => tables(document, "node").len(),
        _ => events_of(document),
    }
}

/// The tables at a key, or no tables if it is left out or not a list.
fn tables<'a>(document: &'a Table, key: &str) -> &'a [Value] {
    match document.get(key).and_then(Value::as_array) {
        Some(values) => values.as_slice(),
        None => &[],
    }
}

/// The first key of a scenario that is unknown in its table.
fn unknown_key(document: &Table) -> Option<(Place, &str)> {
    if let Some(key) = stranger(document, &TOP) {
        return Some((Place::Top, key));
    }
    if let Some(limits) = document.get("limits").and_then(Value::as_table)
        && let Some(key) = stranger(limits, &LIMITS)
    {
        return Some((Place::Limits, key));
    }
    match unknown_in_events(tables(document, "event")) {
        None => unknown_in_nodes(tables(document, "node")),
        found => found,
    }
}

/// The first unknown key of events.
fn unknown_in_events(events: &[Value]) -> Option<(Place, &str)> {
    for (number, event) in events.iter().enumerate() {
        if let Some(table) = event.as_table()
            && let Some(known) = keys_of(table)
            && let Some(key) = stranger(table, known)
        {
            return Some((Place::Event(number), key));
        }
    }
    None
}

/// The first unknown key of nodes that are to run.
fn unknown_in_nodes(nodes: &[Value]) -> Option<(Place, &str)> {
    for (number, node) in nodes.iter().enumerate() {
        if let Some(table) = node.as_table()
            && let Some(key) = stranger(table, &NODE)
        {
            return Some((Place::Node(number), key));
        }
    }
    None
}

/// The keys that an event may have, by what it does. `None` if it does nothing known, which is reported when the events
/// are read.
fn keys_of(event: &Table) -> Option<&'static [&'static str]> {
    match event.get("do").and_then(Value::as_str)? {
        "start" => Some(&["do", "node", "incarnation", "peers", "contact"]),
        "broadcast" => Some(&["do", "node", "text"]),
        "arrive" | "lose" => Some(&["do", "place"]),
        "again" => Some(&["do", "number"]),
        "fire" => Some(&["do", "node", "origin", "incarnation", "seq"]),
        "flush" | "shuffle" | "stop" => Some(&["do", "node"]),
        "join" => Some(&["do", "node", "contact"]),
        "down" => Some(&["do", "node", "peer"]),
        "arrive_all" | "settle" => Some(&["do"]),
        _ => None,
    }
}

/// The first key of a table that is not one of the known ones.
fn stranger<'a>(table: &'a Table, known: &[&str]) -> Option<&'a str> {
    for key in table.keys() {
        if !known.iter().any(|word| *word == key.as_str()) {
            return Some(key.as_str());
        }
    }
    None
}
