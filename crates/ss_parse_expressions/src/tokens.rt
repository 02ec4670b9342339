//! Single tokens.

ghost use Rattle.std.specs.Prelude.{◌≡◌, length, drop};
ghost use Rattle.ss_parse_expressions.specs.declared.failure.ParseFault.TheVariants.{Syntax, TooDeep};
ghost use Rattle.ss_parse_expressions.specs.declared.failure.ParseFailure.TheVariants.{Refused};
ghost use Rattle.ss_parse_expressions.specs.Reading.{HasGivenReading, word, symbol, same_symbol, expect, begins, skip, skip_separator};

use crate::failure::{ParseFailure, ParseFault};
use ss_lex::{Symbol, Token, TokenKind, Word};

/// The failure where these tokens spell nothing that may be here.
pub fn syntax(tokens: &[Token]) -> ParseFailure
    ensures { result ≡ Refused Syntax (length tokens.now) }
{
    ParseFailure::Refused(ParseFault::Syntax, tokens.len())
}

/// The failure where these tokens go deeper than is allowed.
pub fn too_deep(tokens: &[Token]) -> ParseFailure
    ensures { result ≡ Refused TooDeep (length tokens.now) }
{
    ParseFailure::Refused(ParseFault::TooDeep, tokens.len())
}

fn same_symbol(found: Symbol, wanted: Symbol) -> bool
    ensures { result ≡ same_symbol found wanted }
{
    match (found, wanted) {
        (Symbol::OpenParenthesis, Symbol::OpenParenthesis) => true,
        (Symbol::CloseParenthesis, Symbol::CloseParenthesis) => true,
        (Symbol::Comma, Symbol::Comma) => true,
        (Symbol::Plus, Symbol::Plus) => true,
        (Symbol::Minus, Symbol::Minus) => true,
        (Symbol::Star, Symbol::Star) => true,
        (Symbol::Equals, Symbol::Equals) => true,
        (Symbol::Other(found), Symbol::Other(wanted)) => found == wanted,
        _ => false,
    }
}

/// Whether this word is first.
pub fn begins_word(tokens: &[Token], wanted: Word) -> bool
    ensures { result ≡ begins (word wanted) tokens.now }
{
    match tokens {
        [] => false,
        [first, ..] => match &first.kind {
            TokenKind::Word(found) => *found == wanted,
            _ => false,
        },
    }
}

/// Whether this symbol is first.
pub fn begins_symbol(tokens: &[Token], wanted: Symbol) -> bool
    ensures { result ≡ begins (symbol wanted) tokens.now }
{
    match tokens {
        [] => false,
        [first, ..] => match &first.kind {
            TokenKind::Symbol(found) => same_symbol(*found, wanted),
            _ => false,
        },
    }
}

/// The tokens after this word, where it is first.
pub fn skip_word(tokens: &[Token], wanted: Word) -> &[Token]
    ensures { result.now ≡ skip (word wanted) tokens.now }
{
    if begins_word(tokens, wanted) {
        &tokens[1..]
    } else {
        tokens
    }
}

/// The tokens after this symbol, where it is first.
pub fn skip_symbol(tokens: &[Token], wanted: Symbol) -> &[Token]
    ensures { result.now ≡ skip (symbol wanted) tokens.now }
{
    if begins_symbol(tokens, wanted) {
        &tokens[1..]
    } else {
        tokens
    }
}

/// What follows this word, which has to be first.
pub fn expect_word(tokens: &[Token], wanted: Word) -> Result<&[Token], ParseFailure>
    ensures { HasGivenReading (λ rest. (tt, rest.now)) result (expect (word wanted) tokens.now) }
{
    if begins_word(tokens, wanted) {
        Ok(&tokens[1..])
    } else {
        Err(syntax(tokens))
    }
}

/// What follows this symbol, which has to be first.
pub fn expect_symbol(tokens: &[Token], wanted: Symbol) -> Result<&[Token], ParseFailure>
    ensures { HasGivenReading (λ rest. (tt, rest.now)) result (expect (symbol wanted) tokens.now) }
{
    if begins_symbol(tokens, wanted) {
        Ok(&tokens[1..])
    } else {
        Err(syntax(tokens))
    }
}

/// The tokens after the first.
pub fn after_first(tokens: &[Token]) -> &[Token]
    ensures { result.now ≡ drop 1 tokens.now }
{
    match tokens {
        [] => tokens,
        [_, rest @ ..] => rest,
    }
}

/// The tokens after a comma, AND, or both.
pub fn skip_separator(tokens: &[Token]) -> &[Token]
    ensures { result.now ≡ skip_separator tokens.now }
{
    skip_word(skip_symbol(tokens, Symbol::Comma), Word::And)
}
