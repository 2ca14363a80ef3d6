//! A value that an option was given.
ghost use Rattle.std.specs.Prelude.{◌≡◌, IfSome, option_map};
ghost use Rattle.toml.specs.Data.{Data, as_bool};
ghost use Rattle.node_options.specs.Told.{IsNumber, Key, Word, text_of};
ghost use Rattle.node_options.specs.Given.{said_by};

use crate::error::{ConfigLine, OptionError, Place, Wanted};
use crate::lines;
use std::alloc::{AllocError, Global};
use toml::Value;

/// A value that an option was given.
#[derive(Clone, Copy)]
pub(crate) struct Given<'s> {
    /// The option, without its hyphens.
    pub(crate) option: &'static str,
    pub(crate) source: Source<'s>,
}

/// The value, with where it comes from.
#[derive(Clone, Copy)]
pub(crate) enum Source<'s> {
    /// A word of the command line.
    Word(&'s str),
    /// A value in the file, and the text of the file.
    File(&'s Value, &'s str),
}

impl<'s> Given<'s> {
    /// The value as text, if it is one.
    pub(crate) fn text(&self) -> Option<&'s str>
        ensures { option_map (λ text. text.now) result ≡ text_of (said_by self.now.source) }
    {
        match self.source {
            Source::Word(word) => Some(word),
            Source::File(value, _) => value.as_str(),
        }
    }

    /// The value as a whole number that is not negative, if it is one.
    pub(crate) fn number(&self) -> Option<u64>
        ensures { IfSome result (λ number. IsNumber number (said_by self.now.source)) }
    {
        match self.source {
            Source::Word(word) => whole_number(word),
            Source::File(value, _) => u64::try_from(value.as_integer()?).ok(),
        }
    }

    /// The value in the file as `true` or `false`, if it is one.
    pub(crate) fn truth(&self) -> Option<bool>
        ensures { (value : Data) → said_by self.now.source ≡ Key value → result ≡ as_bool value }
    {
        match self.source {
            Source::Word(_) => None,
            Source::File(value, _) => value.as_bool(),
        }
    }

    /// Where the value was given.
    pub(crate) fn place(&self) -> Place {
        match self.source {
            Source::Word(_) => Place::Word(self.option),
            Source::File(_, text) => Place::Key {
                key: self.option,
                line: ConfigLine(lines::of_key(text, self.option)),
            },
        }
    }

    /// The value as it was written: a text in quotes.
    pub(crate) fn written(&self, alloc: Global) -> Result<String, AllocError> {
        match self.source {
            Source::Word(word) => format!(in alloc; "\"{word}\""),
            Source::File(value, _) => format!(in alloc; "{value}"),
        }
    }

    /// The error that the value is not what was wanted, or that there is no memory left to say so.
    pub(crate) fn refused(&self, alloc: Global, wanted: Wanted) -> OptionError {
        let place = self.place();
        match self.written(alloc) {
            Ok(value) => OptionError::Refused {
                place,
                value,
                wanted,
            },
            Err(error) => OptionError::from(error),
        }
    }
}

/// Reads a number that is written in digits alone.
fn whole_number(word: &str) -> Option<u64>
    ensures { IfSome result (λ number. IsNumber number (Word word.now)) }
{
    if word.starts_with('+') {
        return None;
    }
    word.parse().ok()
}
