//! The faults of a script's lines.

use crate::verb::Verb;
use crate::words::cut;
use thiserror::Error;

/// Why a line can't be read. It prints as what was expected there.
#[derive(Clone, Copy, Debug, Drop, Error)]
pub enum LineFault {
    /// The first line that isn't empty has to be `world N S`, and isn't.
    #[error("the first line has to be `world N S`, with N and S from 1 to 16")]
    NoWorld,
    /// A later line begins with `world`.
    #[error("only the first line is `world N S`")]
    SecondWorld,
    /// No event's line begins with this word.
    #[error("no event begins with this word")]
    UnknownWord,
    /// The words after this verb aren't those that it takes.
    #[error("expected `{}`", .0.form())]
    Form(Verb),
}

impl LineFault {
    /// The fault of a later line that is no event's.
    pub(crate) fn of(line: &[u8]) -> LineFault {
        let (word, _) = cut(line, b' ');
        match Verb::named(word) {
            Some(verb) => LineFault::Form(verb),
            None if matches!(word, b"world") => LineFault::SecondWorld,
            None => LineFault::UnknownWord,
        }
    }
}
