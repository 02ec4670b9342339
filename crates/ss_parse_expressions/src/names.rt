//! Names and lists of names.

ghost use Rattle.std.specs.Prelude.{◌≡◌, drop};
ghost use Rattle.ss_parse_expressions.specs.Reading.{HasGivenReading, taken, name_in_token, begins_more, list_of};
ghost use Rattle.ss_parse_expressions.specs.ReadWords.{begins_name, names, past_article, items};

use crate::classes::{WordClass, skip_class};
use crate::failure::ParseFailure;
use crate::reading::Reading;
use crate::steps::alone;
use crate::tokens::{after_first, begins_symbol, begins_word, skip_separator, syntax};
use ss_base::Name;
use ss_lex::{Symbol, Token, TokenKind, Word};
use std::alloc::Global;

/// Whether a name is first.
pub fn begins_name(tokens: &[Token]) -> bool
    ensures { result ≡ begins_name tokens.now }
{
    match tokens {
        [] => false,
        [first, ..] => match &first.kind {
            TokenKind::Name(_) => true,
            _ => false,
        },
    }
}

/// The first token, which must be a name.
pub fn name(tokens: &[Token]) -> Result<Name, ParseFailure>
    ensures { HasGivenReading (λ x. (x, drop 1 tokens.now)) result (taken name_in_token tokens.now) }
{
    match tokens {
        [] => Err(syntax(tokens)),
        [first, ..] => match &first.kind {
            TokenKind::Name(found) => Ok(*found),
            _ => Err(syntax(tokens)),
        },
    }
}

/// Whether a separator and then a name follow.
pub fn begins_more_names(tokens: &[Token]) -> bool
    ensures { result ≡ begins_more begins_name tokens.now }
{
    (begins_symbol(tokens, Symbol::Comma) || begins_word(tokens, Word::And))
        && begins_name(skip_separator(tokens))
}

/// The tokens after an article, where there may be one.
fn past_article(tokens: &[Token], articles: bool) -> &[Token]
    ensures { result.now ≡ past_article articles tokens.now }
{
    if articles {
        skip_class(tokens, WordClass::Article)
    } else {
        tokens
    }
}

/// Whether a separator and then a name, with an article before it where there may be one, follow.
fn begins_more_listed(tokens: &[Token], articles: bool) -> bool
    ensures { result ≡ begins_more (λ ts. begins_name (past_article articles ts)) tokens.now }
{
    (begins_symbol(tokens, Symbol::Comma) || begins_word(tokens, Word::And))
        && begins_name(past_article(skip_separator(tokens), articles))
}

/// Names with separators between, each with an article before it where there may be one.
fn listed(alloc: Global, tokens: &[Token], articles: bool) -> Reading<'_, Vec<Name>>
    ensures { HasGivenReading (λ x. (x.0.items, x.1.now)) result (list_of (λ ts. begins_name (past_article articles ts)) (λ ts. taken name_in_token (past_article articles ts)) tokens.now) }
{
    let from = past_article(tokens, articles);
    let first = name(from)?;
    let mut all = alone(alloc, first)?;
    let mut rest = after_first(from);
    'more: while begins_more_listed(rest, articles) {
        let from = past_article(skip_separator(rest), articles);
        let next = name(from)?;
        all.push(next)?;
        rest = after_first(from);
    }
    Ok((all, rest))
}

/// Names with separators between.
pub fn names(alloc: Global, tokens: &[Token]) -> Reading<'_, Vec<Name>>
    ensures { HasGivenReading (λ x. (x.0.items, x.1.now)) result (names tokens.now) }
{
    listed(alloc, tokens, false)
}

/// Names with separators between, each with an article before it or not.
pub fn items(alloc: Global, tokens: &[Token]) -> Reading<'_, Vec<Name>>
    ensures { HasGivenReading (λ x. (x.0.items, x.1.now)) result (items tokens.now) }
{
    listed(alloc, tokens, true)
}
