ghost use Rattle.std.specs.Prelude.{◌≡◌};
ghost use Rattle.ss_lex.specs.declared.error.LexError.TheVariants.{Memory};

use ss_base::Line;
use std::alloc::{AllocError, AllocFailed};
use thiserror::Error;

/// Why a text has no tokens, with the line in which that shows.
#[derive(Clone, Copy, Debug, PartialEq, Eq, Error)]
pub enum LexError {
    /// The text has more than `SOURCE_LIMIT` bytes. Its line is 0.
    #[error("the text is too long")]
    TooLong(Line),
    /// A byte other than 9, 10, 13 and 32 to 126, in its line.
    #[error("line {}: a byte that is no character", .0.0)]
    NotAscii(Line),
    /// A number with a period in it, or above 9223372036854775807.
    #[error("line {}: a bad number", .0.0)]
    BadNumber(Line),
    /// A quote with no quote after it on its line, or with a tab or a carriage return before that.
    #[error("line {}: an open text", .0.0)]
    OpenText(Line),
    /// A text with more than `TEXT_LIMIT` characters without the blanks at its end.
    #[error("line {}: a text that is too long", .0.0)]
    AlphaTooLong(Line),
    /// A trigger word that calls for more pictures than there are lines after it.
    #[error("line {}: too few lines for the pictures", .0.0)]
    PictureCut(Line),
    /// A name with more than `NAME_LIMIT` characters.
    #[error("line {}: a name that is too long", .0.0)]
    NameTooLong(Line),
    #[error("out of memory")]
    Memory,
}

impl From<AllocError> for LexError {
    ghost from_gives = { λ _ error. error ≡ Memory };

    fn from(_error: AllocError) -> LexError {
        LexError::Memory
    }
}

impl<T: Drop> From<AllocFailed<T>> for LexError {
    ghost from_gives = { λ _ error. error ≡ Memory };

    fn from(_error: AllocFailed<T>) -> LexError {
        LexError::Memory
    }
}
