//! What a node says on standard error.
use node_options::Level;
use std::fmt;
use std::io::Eprint;

/// Says what happens on standard error, one line each, as far as that is wanted.
#[derive(Clone, Copy, Drop)]
pub(crate) struct Log<R> {
    rt: R,
    level: Level,
}

/// The word in front of a line.
fn word_of(level: Level) -> &'static str {
    match level {
        Level::Error => "error",
        Level::Info => "info",
        Level::Debug => "debug",
    }
}

impl<R: Eprint> Log<R> {
    /// Says what is of this level, or graver.
    pub(crate) fn new(rt: R, level: Level) -> Log<R> {
        Log { rt, level }
    }

    /// Whether lines of this level are wanted.
    fn says(&self, level: Level) -> bool {
        match self.level {
            Level::Error => level == Level::Error,
            Level::Info => level != Level::Debug,
            Level::Debug => true,
        }
    }

    /// Says it in a line, if that is wanted. A line that cannot be written is lost.
    pub(crate) fn say<D: fmt::Display>(&self, level: Level, what: &D) {
        if self.says(level) {
            let word = word_of(level);
            let _ = eprintln!(self.rt; "{word}: {what}");
        }
    }
}
