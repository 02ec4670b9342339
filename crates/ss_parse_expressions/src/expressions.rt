//! Expressions.

ghost use Rattle.std.specs.Prelude.{◌≡◌, IfOk, map};
ghost use Rattle.ss_tree.specs.Tree.{signed};
ghost use Rattle.ss_tree.specs.View.{view_expression_tree, view_term};
ghost use Rattle.ss_parse_expressions.specs.WordTables.{function_of};
ghost use Rattle.ss_parse_expressions.specs.Reading.{HasGivenReading, word, begins_by, taken, begins_more};
ghost use Rattle.ss_parse_expressions.specs.ReadExpressions.{sum_of_terms, product_of, sign_of_token, begins_sign, designator_of_word, begins_sum, arguments_with, enclosed_with, subscripts_with, named_with, call_with, parenthesised_with, factor_in_words, factor_with, further_factors_with, term_with, signed_term_with, first_term_with, further_terms_with, sum_with, sum_in};

use crate::reading::Reading;
use crate::steps::{alone, beside, joined};
use crate::tokens::{
    begins_symbol, begins_word, expect_symbol, skip_separator, skip_symbol, syntax, too_deep,
};
use crate::words::function_of;
use ss_lex::{Symbol, Token, TokenKind, Word};
use ss_tree::expression::{Designator, Expression, Function, Named, Sign, Term};
use std::alloc::{AllocError, Global};

fn begins_sign(tokens: &[Token]) -> bool
    ensures { result ≡ begins_sign tokens.now }
{
    begins_symbol(tokens, Symbol::Plus) || begins_symbol(tokens, Symbol::Minus)
}

/// A sign.
fn sign(tokens: &[Token]) -> Reading<'_, Sign>
    ensures { HasGivenReading (λ x. (x.0, x.1.now)) result (taken sign_of_token tokens.now) }
{
    match tokens {
        [] => Err(syntax(tokens)),
        [first, rest @ ..] => match &first.kind {
            TokenKind::Symbol(Symbol::Plus) => Ok((Sign::Plus, rest)),
            TokenKind::Symbol(Symbol::Minus) => Ok((Sign::Minus, rest)),
            _ => Err(syntax(tokens)),
        },
    }
}

/// What the word names, if it counts as a name.
pub fn designator_of_word(word: Word) -> Option<Designator>
    ensures { result ≡ designator_of_word word }
{
    match word {
        Word::TimeV => Some(Designator::TimeV),
        Word::TimeA => Some(Designator::TimeA),
        _ => None,
    }
}

/// Whether an expression can begin so.
pub fn begins_sum(tokens: &[Token]) -> bool
    ensures { result ≡ begins_sum tokens.now }
{
    match tokens {
        [] => false,
        [first, ..] => match &first.kind {
            TokenKind::Number(_) | TokenKind::Text(_) | TokenKind::Name(_) => true,
            TokenKind::Word(found) => {
                designator_of_word(*found).is_some() || function_of(*found).is_some()
            }
            TokenKind::Symbol(Symbol::OpenParenthesis | Symbol::Plus | Symbol::Minus) => true,
            _ => false,
        },
    }
}

/// Whether a separator and then an expression follow.
pub fn begins_more_sums(tokens: &[Token]) -> bool
    ensures { result ≡ begins_more begins_sum tokens.now }
{
    (begins_symbol(tokens, Symbol::Comma) || begins_word(tokens, Word::And))
        && begins_sum(skip_separator(tokens))
}

/// A term and further ones, of which there may be none.
#[tactic(auto, using(ss_tree::specs::Views::view_sum_made))]
fn sum_of_terms(
    alloc: Global,
    first: Expression,
    further: Vec<Term>,
) -> Result<Expression, AllocError>
    ensures { IfOk result (λ e. view_expression_tree e ≡ sum_of_terms (view_expression_tree first) (map view_term further.items)) }
{
    if further.is_empty() {
        return Ok(first);
    }
    let first = Box::new(alloc, first)?;
    Ok(Expression::Sum { first, further })
}

/// A factor and further ones, of which there may be none.
#[tactic(auto, using(ss_tree::specs::Views::view_product_made))]
fn product_of(
    alloc: Global,
    first: Expression,
    further: Vec<Expression>,
) -> Result<Expression, AllocError>
    ensures { IfOk result (λ e. view_expression_tree e ≡ product_of (view_expression_tree first) (map view_expression_tree further.items)) }
{
    if further.is_empty() {
        return Ok(first);
    }
    let first = Box::new(alloc, first)?;
    Ok(Expression::Product { first, further })
}

/// A term with its sign, as an expression.
#[tactic(auto, using(ss_tree::specs::Views::view_signed_made))]
fn signed(alloc: Global, term: Term) -> Result<Expression, AllocError>
    ensures { IfOk result (λ e. view_expression_tree e ≡ signed term.sign (view_expression_tree term.value)) }
{
    let Term { sign, value } = term;
    let term = Box::new(alloc, value)?;
    Ok(Expression::Signed { sign, term })
}

/// An expression, where this many levels of nesting, itself among them, may be opened.
#[cycle(expressions)]
#[tactic(auto, unfolding(crate::specs::ReadExpressions::sum_in, crate::specs::ReadExpressions::sum_with))]
pub fn sum(alloc: Global, tokens: &[Token], room: u8) -> Reading<'_, Expression>
    ensures { HasGivenReading (λ x. (view_expression_tree x.0, x.1.now)) result (sum_in room tokens.now) }
{
    if room == 0 {
        return Err(too_deep(tokens));
    }
    let (first, rest) = first_term(alloc, tokens, room - 1)?;
    let (first, (further, rest)) = beside(first, further_terms(alloc, rest, room - 1))?;
    Ok((sum_of_terms(alloc, first, further)?, rest))
}

/// The first term of a sum, which may have a sign.
#[cycle(expressions)]
#[tactic(auto, unfolding(crate::specs::ReadExpressions::first_term_with))]
fn first_term(alloc: Global, tokens: &[Token], room: u8) -> Reading<'_, Expression>
    ensures { HasGivenReading (λ x. (view_expression_tree x.0, x.1.now)) result (first_term_with (sum_in room) tokens.now) }
{
    if begins_sign(tokens) {
        let (term, rest) = signed_term(alloc, tokens, room)?;
        Ok((signed(alloc, term)?, rest))
    } else {
        term(alloc, tokens, room)
    }
}

/// A sign and a term.
#[cycle(expressions)]
#[tactic(auto, unfolding(crate::specs::ReadExpressions::signed_term_with))]
fn signed_term(alloc: Global, tokens: &[Token], room: u8) -> Reading<'_, Term>
    ensures { HasGivenReading (λ x. (view_term x.0, x.1.now)) result (signed_term_with (sum_in room) tokens.now) }
{
    let (sign, rest) = sign(tokens)?;
    let (value, rest) = term(alloc, rest, room)?;
    Ok((Term { sign, value }, rest))
}

/// Further terms of a sum.
#[cycle(expressions)]
fn further_terms(alloc: Global, tokens: &[Token], room: u8) -> Reading<'_, Vec<Term>>
    ensures { HasGivenReading (λ x. (map view_term x.0.items, x.1.now)) result (further_terms_with (sum_in room) tokens.now) }
{
    let mut all = Vec::new(alloc);
    let mut rest = tokens;
    'more: while begins_sign(rest) {
        let (longer, after) = joined(all, signed_term(alloc, rest, room))?;
        all = longer;
        rest = after;
    }
    Ok((all, rest))
}

/// A factor and further ones.
#[cycle(expressions)]
#[tactic(auto, unfolding(crate::specs::ReadExpressions::term_with))]
fn term(alloc: Global, tokens: &[Token], room: u8) -> Reading<'_, Expression>
    ensures { HasGivenReading (λ x. (view_expression_tree x.0, x.1.now)) result (term_with (sum_in room) tokens.now) }
{
    let (first, rest) = factor(alloc, tokens, room)?;
    let (first, (further, rest)) = beside(first, further_factors(alloc, rest, room))?;
    Ok((product_of(alloc, first, further)?, rest))
}

/// Further factors of a product.
#[cycle(expressions)]
fn further_factors(alloc: Global, tokens: &[Token], room: u8) -> Reading<'_, Vec<Expression>>
    ensures { HasGivenReading (λ x. (map view_expression_tree x.0.items, x.1.now)) result (further_factors_with (sum_in room) tokens.now) }
{
    let mut all = Vec::new(alloc);
    let mut rest = tokens;
    'more: while begins_symbol(rest, Symbol::Star) {
        let (longer, after) = joined(all, factor(alloc, skip_symbol(rest, Symbol::Star), room))?;
        all = longer;
        rest = after;
    }
    Ok((all, rest))
}

/// A factor.
#[cycle(expressions)]
#[tactic(auto, unfolding(crate::specs::ReadExpressions::factor_at, ss_tree::specs::View::view_expression_tree))]
fn factor(alloc: Global, tokens: &[Token], room: u8) -> Reading<'_, Expression>
    ensures { HasGivenReading (λ x. (view_expression_tree x.0, x.1.now)) result (factor_with (sum_in room) tokens.now) }
{
    match tokens {
        [] => Err(syntax(tokens)),
        [first, rest @ ..] => match &first.kind {
            TokenKind::Number(number) => Ok((Expression::Number(*number), rest)),
            TokenKind::Text(text) => Ok((Expression::Text(*text), rest)),
            TokenKind::Name(found) => named(alloc, Designator::Name(*found), rest, room),
            TokenKind::Word(found) => factor_in_words(alloc, *found, rest, room),
            TokenKind::Symbol(Symbol::OpenParenthesis) => parenthesised(alloc, rest, room),
            _ => Err(syntax(tokens)),
        },
    }
}

/// A factor that begins with this word, which was taken.
#[cycle(expressions)]
#[tactic(auto)]
fn factor_in_words(alloc: Global, word: Word, tokens: &[Token], room: u8) -> Reading<'_, Expression>
    ensures { HasGivenReading (λ x. (view_expression_tree x.0, x.1.now)) result (factor_in_words (sum_in room) (designator_of_word word) (function_of word) tokens.now) }
{
    if let Some(designator) = designator_of_word(word) {
        return named(alloc, designator, tokens, room);
    }
    match function_of(word) {
        Some(function) => call(alloc, function, tokens, room),
        None => Err(syntax(tokens)),
    }
}

/// An expression that begins with a name, after this name.
#[cycle(expressions)]
#[tactic(auto, using(ss_tree::specs::Views::view_named_made))]
fn named(
    alloc: Global,
    designator: Designator,
    tokens: &[Token],
    room: u8,
) -> Reading<'_, Expression>
    ensures { HasGivenReading (λ x. (view_expression_tree x.0, x.1.now)) result (named_with (sum_in room) designator tokens.now) }
{
    let (subscripts, rest) = subscripts(alloc, tokens, room)?;
    let place = Named {
        designator,
        subscripts,
    };
    Ok((Expression::Named(place), rest))
}

/// A call of a function, after the function's name.
#[cycle(expressions)]
#[tactic(auto, using(ss_tree::specs::Views::view_call_made))]
fn call(alloc: Global, function: Function, tokens: &[Token], room: u8) -> Reading<'_, Expression>
    ensures { HasGivenReading (λ x. (view_expression_tree x.0, x.1.now)) result (call_with (sum_in room) function tokens.now) }
{
    let (arguments, rest) = enclosed(alloc, tokens, room)?;
    let call = Expression::Call {
        function,
        arguments,
    };
    Ok((call, rest))
}

/// An expression in parentheses, after the opening one.
#[cycle(expressions)]
#[tactic(auto, unfolding(crate::specs::ReadExpressions::parenthesised_with, ss_tree::specs::View::view_expression_tree))]
fn parenthesised(alloc: Global, tokens: &[Token], room: u8) -> Reading<'_, Expression>
    ensures { HasGivenReading (λ x. (view_expression_tree x.0, x.1.now)) result (parenthesised_with (sum_in room) tokens.now) }
{
    let (inner, rest) = sum(alloc, tokens, room)?;
    let (inner, rest) = beside(inner, expect_symbol(rest, Symbol::CloseParenthesis))?;
    Ok((Expression::Parenthesised(Box::new(alloc, inner)?), rest))
}

/// Subscripts, if there are any.
#[cycle(expressions)]
#[tactic(auto, unfolding(crate::specs::ReadExpressions::subscripts_with))]
fn subscripts(alloc: Global, tokens: &[Token], room: u8) -> Reading<'_, Vec<Expression>>
    ensures { HasGivenReading (λ x. (map view_expression_tree x.0.items, x.1.now)) result (subscripts_with (sum_in room) tokens.now) }
{
    if begins_symbol(tokens, Symbol::OpenParenthesis) {
        enclosed(alloc, tokens, room)
    } else {
        Ok((Vec::new(alloc), tokens))
    }
}

/// Expressions in parentheses.
#[cycle(expressions)]
#[tactic(auto, unfolding(crate::specs::ReadExpressions::enclosed_with))]
fn enclosed(alloc: Global, tokens: &[Token], room: u8) -> Reading<'_, Vec<Expression>>
    ensures { HasGivenReading (λ x. (map view_expression_tree x.0.items, x.1.now)) result (enclosed_with (sum_in room) tokens.now) }
{
    let rest = expect_symbol(tokens, Symbol::OpenParenthesis)?;
    let (arguments, rest) = sums(alloc, rest, room)?;
    let (arguments, rest) = beside(arguments, expect_symbol(rest, Symbol::CloseParenthesis))?;
    Ok((arguments, rest))
}

/// Expressions with separators between.
#[cycle(expressions)]
pub fn sums(alloc: Global, tokens: &[Token], room: u8) -> Reading<'_, Vec<Expression>>
    ensures { HasGivenReading (λ x. (map view_expression_tree x.0.items, x.1.now)) result (arguments_with (sum_in room) tokens.now) }
{
    let (first, mut rest) = sum(alloc, tokens, room)?;
    let mut all = alone(alloc, first)?;
    'more: while begins_more_sums(rest) {
        let (longer, after) = joined(all, sum(alloc, skip_separator(rest), room))?;
        all = longer;
        rest = after;
    }
    Ok((all, rest))
}
