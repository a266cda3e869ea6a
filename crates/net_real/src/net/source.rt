//! Whom an event speaks of.
use mio::Token;

/// Whom an event speaks of. The number is the place in its table.
#[derive(Clone, Copy, Debug, PartialEq, Eq)]
pub(super) enum Source {
    Link(u32),
    Lingerer(u32),
    Listener(u32),
    Trigger,
}

// A token has the kind above the number.
const KINDS: usize = 4294967296;

impl Source {
    pub(super) fn token(self) -> Token {
        let (kind, number) = match self {
            Source::Link(number) => (0, number),
            Source::Lingerer(number) => (1, number),
            Source::Listener(number) => (2, number),
            Source::Trigger => (3, 0),
        };
        Token(kind * KINDS + number as usize)
    }

    pub(super) fn of(token: Token) -> Source {
        let number = (token.0 % KINDS) as u32;
        match token.0 / KINDS {
            0 => Source::Link(number),
            1 => Source::Lingerer(number),
            2 => Source::Listener(number),
            _ => Source::Trigger,
        }
    }
}
