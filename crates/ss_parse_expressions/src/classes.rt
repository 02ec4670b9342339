//! Classes of words that are interchangeable in a place.

ghost use Rattle.std.specs.Prelude.{◌≡◌};
ghost use Rattle.ss_parse_expressions.specs.Words.{has_word};
ghost use Rattle.ss_parse_expressions.specs.ReadWords.{begins_class, skip_class, expect_class};
ghost use Rattle.ss_parse_expressions.specs.Reading.{HasGivenReading};

use crate::failure::ParseFailure;
use crate::tokens::syntax;
use ss_lex::{Token, TokenKind, Word};

/// A class of words that are interchangeable in a place.
#[derive(Clone, Copy)]
pub enum WordClass {
    /// A, AN or THE.
    Article,
    /// A or AN.
    Indefinite,
    /// EACH, EVERY or ALL.
    Each,
    /// GIVEN or GIVING.
    Given,
    /// TO or FOR.
    Towards,
}

/// Whether the word is of the class.
pub fn has_word(class: WordClass, word: Word) -> bool
    ensures { result ≡ has_word class word }
{
    match class {
        WordClass::Article => matches!(word, Word::A | Word::An | Word::The),
        WordClass::Indefinite => matches!(word, Word::A | Word::An),
        WordClass::Each => matches!(word, Word::Each | Word::Every | Word::All),
        WordClass::Given => matches!(word, Word::Given | Word::Giving),
        WordClass::Towards => matches!(word, Word::To | Word::For),
    }
}

/// Whether a word of the class is first.
pub fn begins_class(tokens: &[Token], class: WordClass) -> bool
    ensures { result ≡ begins_class class tokens.now }
{
    match tokens {
        [] => false,
        [first, ..] => match &first.kind {
            TokenKind::Word(found) => has_word(class, *found),
            _ => false,
        },
    }
}

/// The tokens after a word of the class, where one is first.
pub fn skip_class(tokens: &[Token], class: WordClass) -> &[Token]
    ensures { result.now ≡ skip_class class tokens.now }
{
    if begins_class(tokens, class) {
        &tokens[1..]
    } else {
        tokens
    }
}

/// What follows a word of the class, one of which has to be first.
pub fn expect_class(tokens: &[Token], class: WordClass) -> Result<&[Token], ParseFailure>
    ensures { HasGivenReading (λ rest. (tt, rest.now)) result (expect_class class tokens.now) }
{
    if begins_class(tokens, class) {
        Ok(&tokens[1..])
    } else {
        Err(syntax(tokens))
    }
}
