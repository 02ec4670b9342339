//! What reading gives.

use crate::failure::ParseFailure;
use ss_lex::Token;

/// What was read, and the tokens after it.
pub type Reading<'a, T> = Result<(T, &'a [Token]), ParseFailure>;
