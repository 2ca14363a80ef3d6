//! What the words and the file say.
ghost use Rattle.std.specs.Prelude.{◌≡◌, ◌≤◌, ℕ, List, [], map, None, Some, IfOk, option_map};
ghost use Rattle.clap.specs.Matches.{found_of, matched_of, raw_values};
ghost use Rattle.node_options.specs.Told.{IsNumberOr, Key, Word, at_key};
ghost use Rattle.node_options.specs.Given.{all_said, said_of};
ghost use Rattle.node_options.specs.Settings.{members_of, told_of};

use crate::config::Config;
use crate::error::{OptionError, Wanted};
use crate::given::{Given, Source};
use clap::ArgMatches;
use std::alloc::{AllocError, Global};
use toml::Value;

/// The words, and the file if there is one. The words win over the file.
#[derive(Clone, Copy)]
pub(crate) struct Settings<'s, 'w> {
    pub(crate) alloc: Global,
    pub(crate) words: &'s ArgMatches<'w>,
    pub(crate) config: Option<&'s Config<'s>>,
}

impl<'s, 'w> Settings<'s, 'w> {
    /// The value of an option that takes one, if it was given.
    pub(crate) fn one(&self, option: &'static str) -> Option<Given<'s>>
        ensures { said_of result ≡ told_of self.now option.now }
    {
        match self.words.get_str(option) {
            Some(word) => Some(Given {
                option,
                source: Source::Word(word),
            }),
            None => self.in_file(option),
        }
    }

    /// The value of an option in the file, if there is one.
    pub(crate) fn in_file(&self, option: &'static str) -> Option<Given<'s>>
        ensures { said_of result ≡ option_map Key (at_key (members_of self.now) option.now) }
    {
        let config = self.config?;
        match config.get(option) {
            Some(value) => Some(Given {
                option,
                source: Source::File(value, config.text),
            }),
            None => None,
        }
    }

    /// The values of an option that takes several: those of the words, or else those in the file.
    pub(crate) fn all(&self, option: &'static str) -> Result<Vec<Given<'s>>, OptionError>
        ensures words { (texts : List (List ℕ))
            → option_map raw_values (matched_of (found_of self.now.words.now) option.now) ≡ Some texts
            → IfOk result (λ all. all_said all.items ≡ map Word texts) }
        ensures none { matched_of (found_of self.now.words.now) option.now ≡ None
            → at_key (members_of self.now) option.now ≡ None → IfOk result (λ all. all_said all.items ≡ []) }
    {
        match self.words.get_raw(option) {
            Some(words) => Ok(self.of_words(option, words)?),
            None => match self.in_file(option) {
                Some(list) => self.of_list(&list),
                None => Ok(Vec::new(self.alloc)),
            },
        }
    }

    fn of_words(
        &self,
        option: &'static str,
        words: &'s [&'w str],
    ) -> Result<Vec<Given<'s>>, AllocError>
        ensures { IfOk result (λ all. all_said all.items ≡ map Word (map (λ word. word.now) words.now)) }
    {
        let mut all = Vec::new(self.alloc);
        for word in words {
            let source = Source::Word(word);
            all.push(Given { option, source })?;
        }
        Ok(all)
    }

    /// The items of a list in the file.
    fn of_list(&self, list: &Given<'s>) -> Result<Vec<Given<'s>>, OptionError> {
        let Source::File(Value::Array(items), text) = list.source else {
            return Err(list.refused(self.alloc, Wanted::List));
        };
        let mut all = Vec::new(self.alloc);
        for item in items {
            all.push(Given {
                option: list.option,
                source: Source::File(item, text),
            })?;
        }
        Ok(all)
    }

    /// The whole number of an option, or `standard` if none was given. One that is not in this range is refused.
    pub(crate) fn number(
        &self,
        option: &'static str,
        least: u64,
        most: u64,
        standard: u64,
    ) -> Result<u64, OptionError>
        requires { (least ≤ standard) × (standard ≤ most) }
        ensures range { IfOk result (λ number. (least ≤ number) × (number ≤ most)) }
        ensures value { IfOk result (IsNumberOr standard (told_of self.now option.now)) }
    {
        let Some(given) = self.one(option) else {
            return Ok(standard);
        };
        match given.number() {
            Some(number) if least <= number && number <= most => Ok(number),
            _ => Err(given.refused(self.alloc, Wanted::Number { least, most })),
        }
    }
}
