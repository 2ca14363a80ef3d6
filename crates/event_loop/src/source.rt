//! What the tokens of a poll stand for.
ghost use Rattle.std.specs.Prelude.{◌≡◌, ◌+◌, ◌*◌, ℕ, IfSome};

use mio::Token;

/// What may become ready, by its place: the listener of a node, a connection that came in, a link that was dialled, or
/// the waker of a node.
#[derive(Clone, Copy, Debug, PartialEq, Eq)]
pub(crate) enum Source {
    Listener(usize),
    Connection(usize),
    Link(usize),
    Waker(usize),
}

impl Source {
    /// The token of what it is: four times the place, and what it is of that.
    pub(crate) fn token(self) -> Option<Token>
        ensures listener { (place : ℕ) → self ≡ Source.Listener place → IfSome result (λ token. token.0 ≡ 4 * place) }
        ensures connection { (place : ℕ)
            → self ≡ Source.Connection place
            → IfSome result (λ token. token.0 ≡ 4 * place + 1) }
        ensures link { (place : ℕ) → self ≡ Source.Link place → IfSome result (λ token. token.0 ≡ 4 * place + 2) }
        ensures waker { (place : ℕ) → self ≡ Source.Waker place → IfSome result (λ token. token.0 ≡ 4 * place + 3) }
    {
        let (place, kind) = match self {
            Source::Listener(place) => (place, 0),
            Source::Connection(place) => (place, 1),
            Source::Link(place) => (place, 2),
            Source::Waker(place) => (place, 3),
        };
        let number = place.checked_mul(4)?.checked_add(kind)?;
        Some(Token(number))
    }

    /// What the token stands for.
    pub(crate) fn of(token: Token) -> Source
        ensures listener { (place : ℕ) → token.0 ≡ 4 * place → result ≡ Source.Listener place }
        ensures connection { (place : ℕ) → token.0 ≡ 4 * place + 1 → result ≡ Source.Connection place }
        ensures link { (place : ℕ) → token.0 ≡ 4 * place + 2 → result ≡ Source.Link place }
        ensures waker { (place : ℕ) → token.0 ≡ 4 * place + 3 → result ≡ Source.Waker place }
    {
        let place = token.0 / 4;
        match token.0 % 4 {
            0 => Source::Listener(place),
            1 => Source::Connection(place),
            2 => Source::Link(place),
            _ => Source::Waker(place),
        }
    }
}
