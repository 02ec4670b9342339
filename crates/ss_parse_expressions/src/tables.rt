//! First tokens that are words of a table.

ghost use Rattle.std.specs.Prelude.{◌≡◌, Option};
ghost use Rattle.ss_lex.specs.declared.word.Word.{Word as WordSeen};
ghost use Rattle.ss_parse_expressions.specs.Reading.{HasGivenReading, begins_by, in_table, taken};

use crate::reading::Reading;
use crate::tokens::syntax;
use ss_lex::{Token, TokenKind, Word};

/// Words, and what each means.
pub trait WordTable {
    /// What a word of it means.
    type Means: Copy;

    ghost table: { WordSeen → Option Self.Means };

    /// What this word means, if it is one of these.
    fn meaning_of(word: Word) -> Option<Self::Means>
        ensures { result ≡ table word };
}

/// What the first token means, which has to be a word of the table.
pub fn take_word_of<T: WordTable>(tokens: &[Token]) -> Reading<'_, T::Means>
    ensures { HasGivenReading (λ x. (x.0, x.1.now)) result (taken (in_table T.table) tokens.now) }
{
    match tokens {
        [] => Err(syntax(tokens)),
        [first, rest @ ..] => match &first.kind {
            TokenKind::Word(found) => match T::meaning_of(*found) {
                Some(meaning) => Ok((meaning, rest)),
                None => Err(syntax(tokens)),
            },
            _ => Err(syntax(tokens)),
        },
    }
}

/// Whether a word of the table is first.
pub fn begins_word_of<T: WordTable>(tokens: &[Token]) -> bool
    ensures { result ≡ begins_by (in_table T.table) tokens.now }
{
    match tokens {
        [] => false,
        [first, ..] => match &first.kind {
            TokenKind::Word(found) => T::meaning_of(*found).is_some(),
            _ => false,
        },
    }
}
