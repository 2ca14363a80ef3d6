//! What is said of a record that a crash cut off.
use std::io::Write;

/// Says that so many bytes at the end of a record are no whole entry, if there are any. Its files begin with this path.
pub(crate) fn say_cut<F: Write>(path: &str, left: usize, faults: &mut F) {
    if left > 0 {
        let _ = writeln!(
            faults,
            "plumtree: {path}: the last {left} bytes are no whole entry, as after a crash"
        );
    }
}
