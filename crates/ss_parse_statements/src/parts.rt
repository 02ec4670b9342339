//! Parts of statements.

ghost use Rattle.std.specs.Prelude.{◌≡◌, map};
ghost use Rattle.ss_tree.specs.View.{view_expression_tree, view_named, view_position_tree, view_when_tree};
ghost use Rattle.std.specs.Option.{option_map};
ghost use Rattle.ss_parse_expressions.specs.Reading.{HasGivenReading, word, expect, after_dropped, taken};
ghost use Rattle.ss_parse_expressions.specs.ReadExpressions.{sum_in};
ghost use Rattle.ss_parse_expressions.specs.ReadPlaces.{target_in};
ghost use Rattle.ss_parse_statements.specs.SpelledParts.{end_of};
ghost use Rattle.ss_parse_statements.specs.ReadSimple.{equals, set_reader, called, positive_of, picture_token, items_in, trigger, pictures_at, given_in, yielding_in, position_in, when_in, due_in};

use ss_base::PictureLine;
use ss_lex::{Symbol, Token, TokenKind, Word};
use ss_parse_expressions::classes::{WordClass, begins_class, skip_class};
use ss_parse_expressions::expressions::{sum, sums};
use ss_parse_expressions::failure::ParseFailure;
use ss_parse_expressions::places::{reference, target, targets};
use ss_parse_expressions::reading::Reading;
use ss_parse_expressions::steps::{beside, joined};
use ss_parse_expressions::tables::WordTable;
use ss_parse_expressions::tokens::{begins_word, expect_symbol, expect_word, skip_word, syntax};
use ss_tree::expression::{Expression, Named};
use ss_tree::statement::{End, Position, When};
use std::alloc::Global;

/// FIRST and LAST.
pub struct EndWords;

impl WordTable for EndWords {
    type Means = End;

    ghost table = { end_of };

    fn meaning_of(word: Word) -> Option<End> {
        match word {
            Word::First => Some(End::First),
            Word::Last => Some(End::Last),
            _ => None,
        }
    }
}

/// A number of pictures, 1 at least.
pub fn positive(tokens: &[Token]) -> Reading<'_, u64>
    ensures { HasGivenReading (λ x. (x.0, x.1.now)) result (taken positive_of tokens.now) }
{
    match tokens {
        [] => Err(syntax(tokens)),
        [first, rest @ ..] => match &first.kind {
            TokenKind::Number(number) if *number > 0 => Ok((number.unsigned_abs(), rest)),
            _ => Err(syntax(tokens)),
        },
    }
}

/// The items of a PRINT.
pub fn items(alloc: Global, tokens: &[Token], room: u8) -> Reading<'_, Vec<Expression>>
    ensures { HasGivenReading (λ x. (map view_expression_tree x.0.items, x.1.now)) result (items_in room tokens.now) }
{
    if !begins_word(tokens, Word::With) {
        return Ok((Vec::new(alloc), tokens));
    }
    sums(alloc, skip_word(tokens, Word::With), room)
}

/// The words of a PRINT before its pictures.
#[tactic(auto, unfolding(crate::specs::ReadSimple::trigger))]
pub fn trigger(tokens: &[Token]) -> Result<&[Token], ParseFailure>
    ensures { HasGivenReading (λ rest. (tt, rest.now)) result (trigger tokens.now) }
{
    if begins_word(tokens, Word::Thus) {
        Ok(skip_word(tokens, Word::Thus))
    } else if begins_word(tokens, Word::As) {
        expect_word(skip_word(tokens, Word::As), Word::Follows)
    } else {
        let rest = expect_word(tokens, Word::Like)?;
        expect_word(rest, Word::This)
    }
}

/// The bytes of a picture.
fn picture(alloc: Global, tokens: &[Token]) -> Reading<'_, PictureLine>
    ensures { HasGivenReading (λ x. (x.0, x.1.now)) result (taken picture_token tokens.now) }
{
    match tokens {
        [] => Err(syntax(tokens)),
        [first, rest @ ..] => match &first.kind {
            TokenKind::Picture(line) => Ok((PictureLine::of(alloc, line.bytes())?, rest)),
            _ => Err(syntax(tokens)),
        },
    }
}

/// The pictures of a PRINT, `count` of them.
pub fn pictures(alloc: Global, tokens: &[Token], count: u64) -> Reading<'_, Vec<PictureLine>>
    ensures { HasGivenReading (λ x. (x.0.items, x.1.now)) result (pictures_at count tokens.now) }
{
    let mut all = Vec::new(alloc);
    let mut rest = tokens;
    'more: for _ in 0..count {
        let (longer, after) = joined(all, picture(alloc, rest))?;
        all = longer;
        rest = after;
    }
    Ok((all, rest))
}

/// The expressions that are given, if there are any.
pub fn given(alloc: Global, tokens: &[Token], room: u8) -> Reading<'_, Vec<Expression>>
    ensures { HasGivenReading (λ x. (map view_expression_tree x.0.items, x.1.now)) result (given_in room tokens.now) }
{
    if !begins_class(tokens, WordClass::Given) {
        return Ok((Vec::new(alloc), tokens));
    }
    sums(alloc, skip_class(tokens, WordClass::Given), room)
}

/// The targets of what is yielded, if there are any.
pub fn yielding(alloc: Global, tokens: &[Token], room: u8) -> Reading<'_, Vec<Named>>
    ensures { HasGivenReading (λ x. (map view_named x.0.items, x.1.now)) result (yielding_in room tokens.now) }
{
    if !begins_word(tokens, Word::Yielding) {
        return Ok((Vec::new(alloc), tokens));
    }
    targets(alloc, skip_word(tokens, Word::Yielding), room)
}

/// The value after CALLED, if CALLED is there.
pub fn called_value(alloc: Global, tokens: &[Token], room: u8) -> Reading<'_, Option<Expression>>
    ensures { HasGivenReading (λ x. (option_map view_expression_tree x.0, x.1.now)) result (called (sum_in room) tokens.now) }
{
    if !begins_word(tokens, Word::Called) {
        return Ok((None, tokens));
    }
    let (value, rest) = sum(alloc, skip_word(tokens, Word::Called), room)?;
    Ok((Some(value), rest))
}

/// The target after CALLED, if CALLED is there.
pub fn called_target(alloc: Global, tokens: &[Token], room: u8) -> Reading<'_, Option<Named>>
    ensures { HasGivenReading (λ x. (option_map view_named x.0, x.1.now)) result (called (target_in room) tokens.now) }
{
    if !begins_word(tokens, Word::Called) {
        return Ok((None, tokens));
    }
    let (target, rest) = target(alloc, skip_word(tokens, Word::Called), room)?;
    Ok((Some(target), rest))
}

/// Where a member is filed.
#[tactic(auto, unfolding(crate::specs::ReadSimple::position_in))]
pub fn place(alloc: Global, tokens: &[Token], room: u8) -> Reading<'_, Position>
    ensures { HasGivenReading (λ x. (view_position_tree x.0, x.1.now)) result (position_in room tokens.now) }
{
    if begins_word(tokens, Word::First) {
        Ok((Position::First, skip_word(tokens, Word::First)))
    } else if begins_word(tokens, Word::Last) {
        Ok((Position::Last, skip_word(tokens, Word::Last)))
    } else if begins_word(tokens, Word::Before) {
        let (other, rest) = sum(alloc, skip_word(tokens, Word::Before), room)?;
        Ok((Position::Before(other), rest))
    } else if begins_word(tokens, Word::After) {
        let (other, rest) = sum(alloc, skip_word(tokens, Word::After), room)?;
        Ok((Position::After(other), rest))
    } else {
        Ok((Position::Discipline, tokens))
    }
}

/// When a notice is due.
#[tactic(auto, unfolding(crate::specs::ReadSimple::when_in))]
pub fn due(alloc: Global, tokens: &[Token], room: u8) -> Reading<'_, When>
    ensures { HasGivenReading (λ x. (view_when_tree x.0, x.1.now)) result (when_in room tokens.now) }
{
    if begins_word(tokens, Word::At) {
        let (time, rest) = sum(alloc, skip_word(tokens, Word::At), room)?;
        Ok((When::At(time), rest))
    } else if begins_word(tokens, Word::In) {
        let (units, rest) = sum(alloc, skip_word(tokens, Word::In), room)?;
        let (units, rest) = beside(units, expect_word(rest, Word::Unit))?;
        Ok((When::In(units), rest))
    } else {
        let rest = expect_word(tokens, Word::Now)?;
        Ok((When::Now, rest))
    }
}

/// What is given, and when a notice is due.
pub fn given_and_due(
    alloc: Global,
    tokens: &[Token],
    room: u8,
) -> Result<(Vec<Expression>, When, &[Token]), ParseFailure>
    ensures { HasGivenReading (λ x. ((map view_expression_tree x.0.items, view_when_tree x.1), x.2.now)) result (due_in room tokens.now) }
{
    let (given, rest) = given(alloc, tokens, room)?;
    let (given, (when, rest)) = beside(given, due(alloc, rest, room))?;
    Ok((given, when, rest))
}

/// An equals sign, and the value after it.
pub fn value_set(alloc: Global, tokens: &[Token], room: u8) -> Reading<'_, Expression>
    ensures { HasGivenReading (λ x. (view_expression_tree x.0, x.1.now)) result (after_dropped (expect equals) (sum_in room) tokens.now) }
{
    let rest = expect_symbol(tokens, Symbol::Equals)?;
    sum(alloc, rest, room)
}

/// This word, and the target after it.
pub fn target_after(alloc: Global, wanted: Word, tokens: &[Token], room: u8) -> Reading<'_, Named>
    ensures { HasGivenReading (λ x. (view_named x.0, x.1.now)) result (after_dropped (expect (word wanted)) (target_in room) tokens.now) }
{
    let rest = expect_word(tokens, wanted)?;
    target(alloc, rest, room)
}

/// This word, and the set after it.
pub fn set_after(alloc: Global, wanted: Word, tokens: &[Token], room: u8) -> Reading<'_, Named>
    ensures { HasGivenReading (λ x. (view_named x.0, x.1.now)) result (after_dropped (expect (word wanted)) (set_reader room) tokens.now) }
{
    let rest = expect_word(tokens, wanted)?;
    reference(alloc, skip_word(rest, Word::The), room)
}
