//! Conditions.

ghost use Rattle.std.specs.Prelude.{◌≡◌, map};
ghost use Rattle.ss_tree.specs.Tree.{expression_row};
ghost use Rattle.ss_tree.specs.View.{view_expression_tree, view_named, view_test_tree, view_conjunction_tree, view_condition_tree};
ghost use Rattle.std.specs.Option.{option_map};
ghost use Rattle.ss_parse_expressions.specs.Reading.{HasGivenReading, word, expect, apply};
ghost use Rattle.ss_parse_expressions.specs.declared.conditions.Verb.TheVariants.{Compares};
ghost use Rattle.ss_parse_expressions.specs.ReadConditions.{relation_symbol, test_word_of, verb_end, worded_verb, verb, is_short, is_reference, reference_of, data_test, test_end, sum_test, test_in, conjunction_in, condition_in};

use crate::expressions::sum;
use crate::places::reference;
use crate::reading::Reading;
use crate::steps::{alone, beside, joined};
use crate::tables::{WordTable, take_word_of};
use crate::tokens::{begins_word, expect_word, skip_word, syntax, too_deep};
use crate::words::relation_of;
use ss_lex::{Symbol, Token, TokenKind, Word};
use ss_tree::condition::{Condition, Conjunction, Relation, Test};
use ss_tree::expression::{Designator, Expression, Named};
use std::alloc::Global;

/// The verb of a test, after its first expression: what is tested of it.
#[derive(Clone, Copy)]
pub enum Verb {
    Compares(Relation),
    /// IS EMPTY, or IS NOT EMPTY where it is negated.
    IsEmpty(bool),
    /// IS IN, or IS NOT IN where it is negated.
    IsIn(bool),
}

/// The word of a test in words that says what is tested.
#[derive(Clone, Copy)]
pub enum TestWord {
    Empty,
    In,
    Equal,
    Less,
    Greater,
}

/// The relation that is one token.
fn relation_symbol(kind: &TokenKind) -> Option<Relation>
    ensures { result ≡ relation_symbol kind.now }
{
    match kind {
        TokenKind::Symbol(Symbol::Equals) => Some(Relation::Equal),
        TokenKind::Word(found) => relation_of(*found),
        _ => None,
    }
}

/// The words of a test in words.
struct TestWords;

impl WordTable for TestWords {
    type Means = TestWord;

    ghost table = { test_word_of };

    fn meaning_of(word: Word) -> Option<TestWord> {
        match word {
            Word::Empty => Some(TestWord::Empty),
            Word::In => Some(TestWord::In),
            Word::Equal => Some(TestWord::Equal),
            Word::Less => Some(TestWord::Less),
            Word::Greater => Some(TestWord::Greater),
            _ => None,
        }
    }
}

/// A verb that compares, and ends with the word.
fn compares(relation: Relation, tokens: &[Token], last: Word) -> Reading<'_, Verb>
    ensures { HasGivenReading (λ x. (x.0, x.1.now)) result (apply (λ u. Compares relation) (expect (word last)) tokens.now) }
{
    let rest = expect_word(tokens, last)?;
    Ok((Verb::Compares(relation), rest))
}

/// The rest of a verb, given whether IS and NOT were there and which word says what is tested.
fn verb_end(is: bool, negated: bool, tested: TestWord, tokens: &[Token]) -> Reading<'_, Verb>
    ensures { HasGivenReading (λ x. (x.0, x.1.now)) result (verb_end tested is negated tokens.now) }
{
    match tested {
        TestWord::Empty if is => Ok((Verb::IsEmpty(negated), tokens)),
        TestWord::In if is => Ok((Verb::IsIn(negated), tokens)),
        TestWord::Empty | TestWord::In => Err(syntax(tokens)),
        TestWord::Equal if negated => compares(Relation::NotEqual, tokens, Word::To),
        TestWord::Equal => compares(Relation::Equal, tokens, Word::To),
        TestWord::Less if negated => compares(Relation::GreaterOrEqual, tokens, Word::Than),
        TestWord::Less => compares(Relation::Less, tokens, Word::Than),
        TestWord::Greater if negated => compares(Relation::LessOrEqual, tokens, Word::Than),
        TestWord::Greater => compares(Relation::Greater, tokens, Word::Than),
    }
}

/// A test's verb in words.
#[tactic(auto, unfolding(crate::specs::ReadConditions::worded_verb))]
fn worded_verb(tokens: &[Token]) -> Reading<'_, Verb>
    ensures { HasGivenReading (λ x. (x.0, x.1.now)) result (worded_verb tokens.now) }
{
    let is = begins_word(tokens, Word::Is);
    let rest = skip_word(tokens, Word::Is);
    let negated = begins_word(rest, Word::Not);
    let (tested, rest) = take_word_of::<TestWords>(skip_word(rest, Word::Not))?;
    verb_end(is, negated, tested, rest)
}

/// A test's verb.
#[tactic(auto, unfolding(crate::specs::ReadConditions::verb))]
fn any_verb(tokens: &[Token]) -> Reading<'_, Verb>
    ensures { HasGivenReading (λ x. (x.0, x.1.now)) result (verb tokens.now) }
{
    match tokens {
        [] => worded_verb(tokens),
        [first, rest @ ..] => match relation_symbol(&first.kind) {
            Some(relation) => Ok((Verb::Compares(relation), rest)),
            None => worded_verb(tokens),
        },
    }
}

/// Whether there is one at most.
fn is_short(subscripts: &[Expression]) -> bool
    ensures { result ≡ is_short (expression_row (map view_expression_tree subscripts.now)) }
{
    match subscripts {
        [] => true,
        [_, rest @ ..] => match rest {
            [] => true,
            [_, ..] => false,
        },
    }
}

/// Whether the place can be a set: a name with one subscript at most.
fn is_reference(named: &Named) -> bool
    ensures { result ≡ is_reference (view_named named.now) }
{
    match &named.designator {
        Designator::Name(_) => is_short(&named.subscripts),
        _ => false,
    }
}

/// The set that the expression names.
#[tactic(auto, unfolding(ss_tree::specs::View::view_expression_tree))]
fn reference_of(expression: Expression) -> Option<Named>
    ensures { option_map view_named result ≡ reference_of (view_expression_tree expression) }
{
    match expression {
        Expression::Named(named) => {
            if is_reference(&named) {
                Some(named)
            } else {
                None
            }
        }
        Expression::Number(_)
        | Expression::Text(_)
        | Expression::Call { .. }
        | Expression::Parenthesised(_)
        | Expression::Product { .. }
        | Expression::Signed { .. }
        | Expression::Sum { .. } => None,
    }
}

/// The rest of a test, after its first expression and its verb.
#[tactic(auto, unfolding(crate::specs::ReadConditions::test_end))]
fn test_end(
    alloc: Global,
    left: Expression,
    verb: Verb,
    tokens: &[Token],
    room: u8,
) -> Reading<'_, Test>
    ensures { HasGivenReading (λ x. (view_test_tree x.0, x.1.now)) result (test_end room (view_expression_tree left) verb tokens.now) }
{
    match verb {
        Verb::Compares(relation) => {
            let (left, (right, rest)) = beside(left, sum(alloc, tokens, room))?;
            let test = Test::Compare {
                left,
                relation,
                right,
            };
            Ok((test, rest))
        }
        Verb::IsIn(negated) => {
            let set = reference(alloc, skip_word(tokens, Word::The), room);
            let (member, (set, rest)) = beside(left, set)?;
            let test = Test::Member {
                member,
                set,
                negated,
            };
            Ok((test, rest))
        }
        Verb::IsEmpty(negated) => match reference_of(left) {
            Some(set) => Ok((Test::Empty { set, negated }, tokens)),
            None => Err(syntax(tokens)),
        },
    }
}

/// DATA IS ENDED.
#[tactic(auto, unfolding(crate::specs::ReadConditions::data_test))]
fn data_test(tokens: &[Token]) -> Reading<'_, Test>
    ensures { HasGivenReading (λ x. (view_test_tree x.0, x.1.now)) result (data_test tokens.now) }
{
    let rest = expect_word(tokens, Word::Data)?;
    let rest = expect_word(rest, Word::Is)?;
    let negated = begins_word(rest, Word::Not);
    let rest = expect_word(skip_word(rest, Word::Not), Word::Ended)?;
    Ok((Test::DataEnded { negated }, rest))
}

/// A test that begins with an expression.
#[tactic(auto, unfolding(crate::specs::ReadConditions::sum_test))]
fn sum_test(alloc: Global, tokens: &[Token], room: u8) -> Reading<'_, Test>
    ensures { HasGivenReading (λ x. (view_test_tree x.0, x.1.now)) result (sum_test room tokens.now) }
{
    let (left, rest) = sum(alloc, tokens, room)?;
    let (verb, rest) = any_verb(rest)?;
    test_end(alloc, left, verb, rest, room)
}

/// A test, where this many levels of nesting, one around it among them, may be opened.
#[tactic(auto, unfolding(crate::specs::ReadConditions::test_in))]
fn test(alloc: Global, tokens: &[Token], room: u8) -> Reading<'_, Test>
    ensures { HasGivenReading (λ x. (view_test_tree x.0, x.1.now)) result (test_in room tokens.now) }
{
    if room == 0 {
        return Err(too_deep(tokens));
    }
    if begins_word(tokens, Word::Data) {
        data_test(tokens)
    } else {
        sum_test(alloc, tokens, room)
    }
}

/// Tests joined by AND.
fn conjunction(alloc: Global, tokens: &[Token], room: u8) -> Reading<'_, Conjunction>
    ensures { HasGivenReading (λ x. (view_conjunction_tree x.0, x.1.now)) result (conjunction_in room tokens.now) }
{
    let (first, mut rest) = test(alloc, tokens, room)?;
    let mut all = alone(alloc, first)?;
    'more: while begins_word(rest, Word::And) {
        let (longer, after) = joined(all, test(alloc, skip_word(rest, Word::And), room))?;
        all = longer;
        rest = after;
    }
    Ok((Conjunction { tests: all }, rest))
}

/// A condition.
pub fn condition(alloc: Global, tokens: &[Token], room: u8) -> Reading<'_, Condition>
    ensures { HasGivenReading (λ x. (view_condition_tree x.0, x.1.now)) result (condition_in room tokens.now) }
{
    let (first, mut rest) = conjunction(alloc, tokens, room)?;
    let mut all = alone(alloc, first)?;
    'more: while begins_word(rest, Word::Or) {
        let (longer, after) = joined(all, conjunction(alloc, skip_word(rest, Word::Or), room))?;
        all = longer;
        rest = after;
    }
    Ok((Condition { alternatives: all }, rest))
}
