//! What a program names: targets and references to sets.

ghost use Rattle.std.specs.Prelude.{◌≡◌, IfOk, map, drop};
ghost use Rattle.ss_tree.specs.Tree.{expression_row};
ghost use Rattle.ss_tree.specs.View.{view_expression_tree, view_named};
ghost use Rattle.std.specs.Option.{option_map};
ghost use Rattle.ss_parse_expressions.specs.Reading.{HasGivenReading, begins, maybe, taken, begins_more};
ghost use Rattle.ss_parse_expressions.specs.ReadExpressions.{opening, designator_of, sum_in};
ghost use Rattle.ss_parse_expressions.specs.ReadPlaces.{subscript_row, subscript_with, plain_of, target_in, reference_in, begins_target, targets_in};

use crate::expressions::{designator_of_word, sum};
use crate::failure::ParseFailure;
use crate::reading::Reading;
use crate::steps::{alone, beside, joined};
use crate::tokens::{
    after_first, begins_symbol, begins_word, expect_symbol, skip_separator, skip_symbol, syntax,
    too_deep,
};
use ss_lex::{Symbol, Token, TokenKind, Word};
use ss_tree::expression::{Designator, Expression, Named};
use std::alloc::{AllocError, Global};

/// The name at the front, or TIME.V or TIME.A.
fn designator(tokens: &[Token]) -> Result<Designator, ParseFailure>
    ensures { HasGivenReading (λ x. (x, drop 1 tokens.now)) result (taken designator_of tokens.now) }
{
    match tokens {
        [] => Err(syntax(tokens)),
        [first, ..] => match &first.kind {
            TokenKind::Name(found) => Ok(Designator::Name(*found)),
            TokenKind::Word(found) => match designator_of_word(*found) {
                Some(designator) => Ok(designator),
                None => Err(syntax(tokens)),
            },
            _ => Err(syntax(tokens)),
        },
    }
}

/// The first token, which must be a name.
fn plain_designator(tokens: &[Token]) -> Result<Designator, ParseFailure>
    ensures { HasGivenReading (λ x. (x, drop 1 tokens.now)) result (taken plain_of tokens.now) }
{
    match tokens {
        [] => Err(syntax(tokens)),
        [first, ..] => match &first.kind {
            TokenKind::Name(found) => Ok(Designator::Name(*found)),
            _ => Err(syntax(tokens)),
        },
    }
}

/// A subscript in parentheses, if there is one.
#[tactic(auto, unfolding(crate::specs::ReadPlaces::subscript_with))]
fn subscript(alloc: Global, tokens: &[Token], room: u8) -> Reading<'_, Option<Expression>>
    ensures { HasGivenReading (λ x. (option_map view_expression_tree x.0, x.1.now)) result (maybe (begins opening) (subscript_with (sum_in room)) tokens.now) }
{
    if !begins_symbol(tokens, Symbol::OpenParenthesis) {
        return Ok((None, tokens));
    }
    let (subscript, rest) = sum(alloc, skip_symbol(tokens, Symbol::OpenParenthesis), room)?;
    let (subscript, rest) = beside(subscript, expect_symbol(rest, Symbol::CloseParenthesis))?;
    Ok((Some(subscript), rest))
}

/// The subscript alone, if there is one.
fn subscripts_of(
    alloc: Global,
    subscript: Option<Expression>,
) -> Result<Vec<Expression>, AllocError>
    ensures { IfOk result (λ v. expression_row (map view_expression_tree v.items) ≡ subscript_row (option_map view_expression_tree subscript)) }
{
    match subscript {
        Some(subscript) => alone(alloc, subscript),
        None => Ok(Vec::new(alloc)),
    }
}

/// What a value is put into, where this many levels of nesting, itself among them, may be opened.
#[tactic(auto, unfolding(crate::specs::ReadPlaces::named_place_in))]
pub fn target(alloc: Global, tokens: &[Token], room: u8) -> Reading<'_, Named>
    ensures { HasGivenReading (λ x. (view_named x.0, x.1.now)) result (target_in room tokens.now) }
{
    if room == 0 {
        return Err(too_deep(tokens));
    }
    let designator = designator(tokens)?;
    let (subscript, rest) = subscript(alloc, after_first(tokens), room - 1)?;
    let subscripts = subscripts_of(alloc, subscript)?;
    let target = Named {
        designator,
        subscripts,
    };
    Ok((target, rest))
}

/// A reference to a set, where this many levels of nesting, itself among them, may be opened.
#[tactic(auto, unfolding(crate::specs::ReadPlaces::named_place_in))]
pub fn reference(alloc: Global, tokens: &[Token], room: u8) -> Reading<'_, Named>
    ensures { HasGivenReading (λ x. (view_named x.0, x.1.now)) result (reference_in room tokens.now) }
{
    if room == 0 {
        return Err(too_deep(tokens));
    }
    let designator = plain_designator(tokens)?;
    let (subscript, rest) = subscript(alloc, after_first(tokens), room - 1)?;
    let subscripts = subscripts_of(alloc, subscript)?;
    let set = Named {
        designator,
        subscripts,
    };
    Ok((set, rest))
}

fn begins_target(tokens: &[Token]) -> bool
    ensures { result ≡ begins_target tokens.now }
{
    match tokens {
        [] => false,
        [first, ..] => match &first.kind {
            TokenKind::Name(_) => true,
            TokenKind::Word(found) => designator_of_word(*found).is_some(),
            _ => false,
        },
    }
}

/// Whether a separator and then a target follow.
fn begins_more_targets(tokens: &[Token]) -> bool
    ensures { result ≡ begins_more begins_target tokens.now }
{
    (begins_symbol(tokens, Symbol::Comma) || begins_word(tokens, Word::And))
        && begins_target(skip_separator(tokens))
}

/// Targets with separators between.
pub fn targets(alloc: Global, tokens: &[Token], room: u8) -> Reading<'_, Vec<Named>>
    ensures { HasGivenReading (λ x. (map view_named x.0.items, x.1.now)) result (targets_in room tokens.now) }
{
    let (first, mut rest) = target(alloc, tokens, room)?;
    let mut all = alone(alloc, first)?;
    'more: while begins_more_targets(rest) {
        let (longer, after) = joined(all, target(alloc, skip_separator(rest), room))?;
        all = longer;
        rest = after;
    }
    Ok((all, rest))
}
