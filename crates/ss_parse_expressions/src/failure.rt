//! Why reading stopped.

ghost use Rattle.std.specs.Prelude.{◌≡◌};
ghost use Rattle.ss_parse_expressions.specs.declared.failure.ParseFailure.TheVariants.{Memory};

use std::alloc::{AllocError, AllocFailed};

/// What is wrong with the tokens.
#[derive(Clone, Copy)]
pub enum ParseFault {
    Syntax,
    TooDeep,
}

/// Why nothing was read.
#[derive(Drop)]
pub enum ParseFailure {
    Memory,
    /// A fault, and how many tokens were left where it was found.
    Refused(ParseFault, usize),
}

impl From<AllocError> for ParseFailure {
    ghost from_gives = { λ _ e. e ≡ Memory };

    fn from(_e: AllocError) -> ParseFailure {
        ParseFailure::Memory
    }
}

impl<T: Drop> From<AllocFailed<T>> for ParseFailure {
    ghost from_gives = { λ _ e. e ≡ Memory };

    fn from(_e: AllocFailed<T>) -> ParseFailure {
        ParseFailure::Memory
    }
}
