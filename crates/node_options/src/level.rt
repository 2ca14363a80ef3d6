//! How much is told on standard error.

/// How much is told on standard error. Each level tells what those before it tell, and more.
#[derive(Clone, Copy, Debug, PartialEq, Eq, PartialOrd, Ord)]
pub enum Level {
    /// Only what went wrong.
    Error,
    /// What a user may want to know as well.
    Info,
    /// Each step as well.
    Debug,
}

impl Level {
    ghost use Rattle.std.specs.Prelude.{◌≡◌, IfSome};
    ghost use Rattle.node_options.specs.Words.{level_word};

    /// The level of this word, if it is one.
    pub(crate) fn of_word(word: &str) -> Option<Level>
        ensures { IfSome result (λ level. word.now ≡ level_word level) }
    {
        if word == "error" {
            Some(Level::Error)
        } else if word == "info" {
            Some(Level::Info)
        } else if word == "debug" {
            Some(Level::Debug)
        } else {
            None
        }
    }
}
