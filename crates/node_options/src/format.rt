//! How deliveries are printed.

/// How deliveries are printed.
#[derive(Clone, Copy, Debug, PartialEq, Eq)]
pub enum Format {
    /// As lines of text.
    Text,
    /// As lines of hexadecimal digits.
    Hex,
    /// As lines of JSON.
    Json,
}

impl Format {
    ghost use Rattle.std.specs.Prelude.{◌≡◌, IfSome};
    ghost use Rattle.node_options.specs.Words.{format_word};

    /// The format of this word, if it is one.
    pub(crate) fn of_word(word: &str) -> Option<Format>
        ensures { IfSome result (λ format. word.now ≡ format_word format) }
    {
        if word == "text" {
            Some(Format::Text)
        } else if word == "hex" {
            Some(Format::Hex)
        } else if word == "json" {
            Some(Format::Json)
        } else {
            None
        }
    }
}
