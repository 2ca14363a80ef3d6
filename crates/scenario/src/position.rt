//! Finds the lines of the tables and keys of a scenario in its text, in the simple cases.
use crate::error::Place;
use std::str;

/// The line, counted from 1, on which the event with this number begins, in a scenario with `events` events. `None` if
/// the events are not all written under a line `[[event]]` of their own.
pub fn event_line(source: &[u8], events: usize, number: usize) -> Option<usize> {
    let text = str::from_utf8(source).ok()?;
    table_line(text, "event", events, number)
}

/// The line, counted from 1, of a key in the table of a place, in a scenario with this number of events, or of nodes if
/// the place is a node. If the key of an event, a node or the limits is not found, this is the line on which these
/// begin.
/// `None` if no line is found.
///
/// The library for TOML tells no lines, so they are searched for here, and a text of several lines can mislead that.
pub fn key_line(source: &[u8], place: Place, tables: usize, key: &str) -> Option<usize> {
    let text = str::from_utf8(source).ok()?;
    let header = match place {
        Place::Top => return section_line(text, key),
        Place::Limits => section_line(text, "limits")?,
        Place::Event(number) => table_line(text, "event", tables, number)?,
        Place::Node(number) => table_line(text, "node", tables, number)?,
    };
    let found = key_after(text, header, key);
    Some(found.unwrap_or(header))
}

/// The line, counted from 1, on which the table with this number begins, of `tables` tables at this key. `None` if they
/// are not all written under a header of their own.
fn table_line(text: &str, name: &str, tables: usize, number: usize) -> Option<usize> {
    if headers(text, name) == tables {
        header_line(text, name, number)
    } else {
        None
    }
}

/// How many lines begin a section of this name.
fn headers(text: &str, name: &str) -> usize {
    let mut count = 0usize;
    for line in text.lines() {
        if is_header_of(line, name) {
            count = count.saturating_add(1);
        }
    }
    count
}

/// The line, counted from 1, of the header with this number among those of this name.
fn header_line(text: &str, name: &str, number: usize) -> Option<usize> {
    let mut passed = 0usize;
    for (line, words) in text.lines().enumerate() {
        if is_header_of(words, name) {
            if passed == number {
                return line.checked_add(1);
            }
            passed = passed.saturating_add(1);
        }
    }
    None
}

/// The line, counted from 1, that sets a key, after a header and before the next one.
fn key_after(text: &str, header: usize, key: &str) -> Option<usize> {
    for (line, words) in text.lines().enumerate().skip(header) {
        if is_header(words) {
            return None;
        }
        if gives(words, key) {
            return line.checked_add(1);
        }
    }
    None
}

/// The line, counted from 1, that begins the section of a key, or that sets the key before all sections.
fn section_line(text: &str, key: &str) -> Option<usize> {
    let mut is_top = true;
    for (line, words) in text.lines().enumerate() {
        is_top = is_top && !is_header(words);
        if is_header_of(words, key) || is_top && gives(words, key) {
            return line.checked_add(1);
        }
    }
    None
}

/// Whether a line begins a section.
fn is_header(line: &str) -> bool {
    line.trim_start().starts_with("[")
}

/// Whether a line begins a section of this name.
fn is_header_of(line: &str, name: &str) -> bool {
    let line = line.trim_start();
    match line.strip_prefix("[[").or(line.strip_prefix("[")) {
        Some(rest) => match rest.trim_start().strip_prefix(name) {
            Some(rest) => rest.trim_start().starts_with("]"),
            None => false,
        },
        None => false,
    }
}

/// Whether a line sets a key.
fn gives(line: &str, key: &str) -> bool {
    match line.trim_start().strip_prefix(key) {
        Some(rest) => rest.trim_start().starts_with("="),
        None => false,
    }
}
