//! The limits of a group, as words and as text.
use crate::words::{short_of, value};
use node_names::Limits;
use std::alloc::AllocError;
use std::fmt::Write;

/// Returns the size behind `key`, or `standard` if the key is not there.
fn size(words: &[&str], key: &str, standard: u8) -> Option<u8> {
    match value(words, key) {
        Some(word) => word.parse().ok(),
        None => Some(standard),
    }
}

/// Parses limits: `active 5 passive 30 arwl 6 prwl 3 ka 3 kp 4 threshold 0 keep 0`. Each may be missing.
pub fn limits_of(words: &[&str]) -> Option<Limits> {
    let standard = Limits::STANDARD;
    let limits = Limits::new(
        size(words, "active", standard.active())?,
        size(words, "passive", standard.passive())?,
        size(words, "arwl", standard.arwl())?,
        size(words, "prwl", standard.prwl())?,
        size(words, "ka", standard.ka())?,
        size(words, "kp", standard.kp())?,
    )
    .ok()?;
    let threshold = short_of(words, "threshold")?;
    let keep = short_of(words, "keep")?;
    Some(limits.tuned(threshold).keeping(keep))
}

/// Appends limits.
pub fn push_limits(text: &mut String, limits: &Limits) -> Result<(), AllocError> {
    write!(text, "limits: active {}", limits.active())?;
    write!(text, " passive {}", limits.passive())?;
    write!(text, " arwl {} prwl {}", limits.arwl(), limits.prwl())?;
    write!(text, " ka {} kp {}", limits.ka(), limits.kp())?;
    write!(text, " threshold {}", limits.threshold())?;
    writeln!(text, " keep {}", limits.keep())
}
