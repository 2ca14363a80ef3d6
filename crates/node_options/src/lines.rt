//! Finds lines of the configuration file.

/// The line, counted from 1, that sets a key, or that begins the table of this name. `None` if there is no such line,
/// for instance because the key is in quotes.
///
/// A line of a text that goes over several lines can pass for one that sets a key.
pub(crate) fn of_key(text: &str, key: &str) -> Option<usize> {
    for (index, line) in text.lines().enumerate() {
        if sets(line, key) {
            return index.checked_add(1);
        }
    }
    None
}

/// Whether a line sets a key, or a part of it, or begins the table of this name.
fn sets(line: &str, key: &str) -> bool {
    let line = line.trim_start();
    let line = line
        .strip_prefix("[[")
        .or(line.strip_prefix("["))
        .unwrap_or(line);
    match line.trim_start().strip_prefix(key) {
        Some(rest) => {
            let rest = rest.trim_start();
            rest.starts_with("=") || rest.starts_with(".") || rest.starts_with("]")
        }
        None => false,
    }
}

/// The line, counted from 1, of the byte at this index.
pub(crate) fn of_byte(text: &str, index: usize) -> usize {
    let mut line = 1usize;
    for byte in text.bytes().take(index) {
        if byte == b'\n' {
            line = line.saturating_add(1);
        }
    }
    line
}
