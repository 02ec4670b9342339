//! The heads of loops.

ghost use Rattle.std.specs.Prelude.{◌≡◌, map};
ghost use Rattle.ss_tree.specs.View.{view_expression_tree, view_phrase_tree, view_guard_tree, view_start_tree, view_head_tree, view_loop_head};
ghost use Rattle.std.specs.Option.{option_map};
ghost use Rattle.ss_parse_expressions.specs.Reading.{HasGivenReading, apply, skip_comma};
ghost use Rattle.ss_parse_expressions.specs.ReadHeads.{begins_phrase, begins_guard, phrase_in, guard_in, phrases_in, further_guards, step_in, range_in, start_in, reverse, members_in, class_in, class_tree, each_named, each_in, for_in, guarded_in};

use crate::classes::{WordClass, begins_class, expect_class};
use crate::conditions::condition;
use crate::expressions::sum;
use crate::names::name;
use crate::places::reference;
use crate::reading::Reading;
use crate::steps::{alone, beside, joined};
use crate::tables::{begins_word_of, take_word_of};
use crate::tokens::{after_first, begins_word, expect_symbol, expect_word, skip_symbol, skip_word};
use crate::words::{GuardWords, PhraseWords};
use ss_base::Name;
use ss_lex::{Symbol, Token, Word};
use ss_tree::expression::Expression;
use ss_tree::head::{Guard, GuardKind, Head, LoopHead, MemberStart, Phrase};
use std::alloc::Global;

/// Whether a phrase, with a comma before it or not, is first.
fn begins_phrase(tokens: &[Token]) -> bool
    ensures { result ≡ begins_phrase (skip_comma tokens.now) }
{
    begins_word_of::<PhraseWords>(skip_symbol(tokens, Symbol::Comma))
}

/// A phrase.
#[tactic(auto, unfolding(crate::specs::ReadHeads::phrase_in))]
fn phrase(alloc: Global, tokens: &[Token], room: u8) -> Reading<'_, Phrase>
    ensures { HasGivenReading (λ x. (view_phrase_tree x.0, x.1.now)) result (phrase_in room tokens.now) }
{
    let (kind, rest) = take_word_of::<PhraseWords>(tokens)?;
    let (condition, rest) = condition(alloc, rest, room)?;
    Ok((Phrase { kind, condition }, rest))
}

/// Phrases, each with a comma before it or not.
fn phrases(alloc: Global, tokens: &[Token], room: u8) -> Reading<'_, Vec<Phrase>>
    ensures { HasGivenReading (λ x. (map view_phrase_tree x.0.items, x.1.now)) result (phrases_in room tokens.now) }
{
    let mut all = Vec::new(alloc);
    let mut rest = tokens;
    'more: while begins_phrase(rest) {
        let (longer, after) = joined(all, phrase(alloc, skip_symbol(rest, Symbol::Comma), room))?;
        all = longer;
        rest = after;
    }
    Ok((all, rest))
}

/// Whether WHILE or UNTIL is first.
pub fn begins_guard(tokens: &[Token]) -> bool
    ensures { result ≡ begins_guard tokens.now }
{
    begins_word_of::<GuardWords>(tokens)
}

/// Whether WHILE or UNTIL, with a comma before it or not, is first.
fn begins_next_guard(tokens: &[Token]) -> bool
    ensures { result ≡ begins_guard (skip_comma tokens.now) }
{
    begins_guard(skip_symbol(tokens, Symbol::Comma))
}

/// WHILE or UNTIL and its condition.
#[tactic(auto, unfolding(crate::specs::ReadHeads::guard_in))]
fn guard(alloc: Global, tokens: &[Token], room: u8) -> Reading<'_, Guard>
    ensures { HasGivenReading (λ x. (view_guard_tree x.0, x.1.now)) result (guard_in room tokens.now) }
{
    let (kind, rest) = take_word_of::<GuardWords>(tokens)?;
    let (condition, rest) = condition(alloc, rest, room)?;
    Ok((Guard { kind, condition }, rest))
}

/// This condition and further ones, each with a comma before it or not.
fn guards(alloc: Global, first: Guard, tokens: &[Token], room: u8) -> Reading<'_, Vec<Guard>>
    ensures { HasGivenReading (λ x. (map view_guard_tree x.0.items, x.1.now)) result (further_guards room (view_guard_tree first) tokens.now) }
{
    let mut all = alone(alloc, first)?;
    let mut rest = tokens;
    'more: while begins_next_guard(rest) {
        let (longer, after) = joined(all, guard(alloc, skip_symbol(rest, Symbol::Comma), room))?;
        all = longer;
        rest = after;
    }
    Ok((all, rest))
}

/// The step of a FOR, if there is one.
fn step(alloc: Global, tokens: &[Token], room: u8) -> Reading<'_, Option<Expression>>
    ensures { HasGivenReading (λ x. (option_map view_expression_tree x.0, x.1.now)) result (step_in room tokens.now) }
{
    if !begins_word(tokens, Word::By) {
        return Ok((None, tokens));
    }
    let (step, rest) = sum(alloc, skip_word(tokens, Word::By), room)?;
    Ok((Some(step), rest))
}

/// The head of a FOR over numbers, after FOR.
#[tactic(auto, unfolding(crate::specs::ReadHeads::range_in))]
fn range(alloc: Global, tokens: &[Token], room: u8) -> Reading<'_, Head>
    ensures { HasGivenReading (λ x. (view_head_tree x.0, x.1.now)) result (range_in room tokens.now) }
{
    let variable = name(tokens)?;
    let rest = expect_symbol(after_first(tokens), Symbol::Equals)?;
    let (from, rest) = sum(alloc, rest, room)?;
    let (from, rest) = beside(from, expect_word(rest, Word::To))?;
    let (from, (to, rest)) = beside(from, sum(alloc, rest, room))?;
    let (bounds, (step, rest)) = beside((from, to), step(alloc, rest, room))?;
    let ((bounds, step), (phrases, rest)) = beside((bounds, step), phrases(alloc, rest, room))?;
    let (from, to) = bounds;
    let head = Head::Range {
        variable,
        from,
        to,
        step,
        phrases,
    };
    Ok((head, rest))
}

/// The member with which a loop over a set begins.
#[tactic(auto, unfolding(crate::specs::ReadHeads::start_in))]
fn start(alloc: Global, tokens: &[Token], room: u8) -> Reading<'_, MemberStart>
    ensures { HasGivenReading (λ x. (view_start_tree x.0, x.1.now)) result (start_in room tokens.now) }
{
    if begins_word(tokens, Word::From) {
        let (member, rest) = sum(alloc, skip_word(tokens, Word::From), room)?;
        Ok((MemberStart::From(member), rest))
    } else if begins_word(tokens, Word::After) {
        let (member, rest) = sum(alloc, skip_word(tokens, Word::After), room)?;
        Ok((MemberStart::After(member), rest))
    } else {
        Ok((MemberStart::End, tokens))
    }
}

/// Whether a loop over a set goes in reverse order.
#[tactic(auto, unfolding(crate::specs::ReadHeads::reverse))]
fn reverse(tokens: &[Token]) -> Reading<'_, bool>
    ensures { HasGivenReading (λ x. (x.0, x.1.now)) result (reverse tokens.now) }
{
    if !begins_word(tokens, Word::In) {
        return Ok((false, tokens));
    }
    let rest = expect_word(skip_word(tokens, Word::In), Word::Reverse)?;
    let rest = expect_word(rest, Word::Order)?;
    Ok((true, rest))
}

/// The head of a FOR over a set, after its variable.
#[tactic(auto, unfolding(crate::specs::ReadHeads::members_in))]
fn members(alloc: Global, variable: Name, tokens: &[Token], room: u8) -> Reading<'_, Head>
    ensures { HasGivenReading (λ x. (view_head_tree x.0, x.1.now)) result (members_in room variable tokens.now) }
{
    let rest = expect_word(tokens, Word::In)?;
    let (set, rest) = reference(alloc, skip_word(rest, Word::The), room)?;
    let (set, (start, rest)) = beside(set, start(alloc, rest, room))?;
    let (place, (reverse, rest)) = beside((set, start), reverse(rest))?;
    let ((set, start), (phrases, rest)) = beside(place, phrases(alloc, rest, room))?;
    let head = Head::Members {
        variable,
        set,
        start,
        reverse,
        phrases,
    };
    Ok((head, rest))
}

/// The head of a FOR over a class, after its variable.
fn class_phrases(
    alloc: Global,
    class: Name,
    called: Option<Name>,
    tokens: &[Token],
    room: u8,
) -> Reading<'_, Head>
    ensures { HasGivenReading (λ x. (view_head_tree x.0, x.1.now)) result (apply (λ ps. class_tree class (called, ps)) (phrases_in room) tokens.now) }
{
    let (phrases, rest) = phrases(alloc, tokens, room)?;
    let head = Head::Class {
        class,
        called,
        phrases,
    };
    Ok((head, rest))
}

/// The head of a FOR over a class, after the class.
#[tactic(auto, unfolding(crate::specs::ReadHeads::class_in))]
fn class(alloc: Global, class: Name, tokens: &[Token], room: u8) -> Reading<'_, Head>
    ensures { HasGivenReading (λ x. (view_head_tree x.0, x.1.now)) result (class_in room class tokens.now) }
{
    if !begins_word(tokens, Word::Called) {
        return class_phrases(alloc, class, None, tokens, room);
    }
    let rest = skip_word(tokens, Word::Called);
    let called = name(rest)?;
    class_phrases(alloc, class, Some(called), after_first(rest), room)
}

/// The head of a FOR over a set or a class, after the name of its variable or its class.
fn each_named(alloc: Global, name: Name, tokens: &[Token], room: u8) -> Reading<'_, Head>
    ensures { HasGivenReading (λ x. (view_head_tree x.0, x.1.now)) result (each_named room name tokens.now) }
{
    if begins_word(tokens, Word::In) {
        members(alloc, name, tokens, room)
    } else {
        class(alloc, name, tokens, room)
    }
}

/// The head of a FOR over a set or a class, after FOR.
#[tactic(auto, unfolding(crate::specs::ReadHeads::each_in))]
fn each(alloc: Global, tokens: &[Token], room: u8) -> Reading<'_, Head>
    ensures { HasGivenReading (λ x. (view_head_tree x.0, x.1.now)) result (each_in room tokens.now) }
{
    let rest = expect_class(tokens, WordClass::Each)?;
    let variable = name(rest)?;
    each_named(alloc, variable, after_first(rest), room)
}

/// The head of a FOR, after its first word.
#[tactic(auto, unfolding(crate::specs::ReadHeads::for_in))]
pub fn for_head(alloc: Global, tokens: &[Token], room: u8) -> Reading<'_, Head>
    ensures { HasGivenReading (λ x. (view_head_tree x.0, x.1.now)) result (for_in room tokens.now) }
{
    if begins_class(tokens, WordClass::Each) {
        each(alloc, tokens, room)
    } else {
        range(alloc, tokens, room)
    }
}

/// The head of a loop that begins with WHILE or UNTIL, after its first word.
#[tactic(auto, unfolding(crate::specs::ReadHeads::guarded_in))]
pub fn guarded_head(
    alloc: Global,
    kind: GuardKind,
    tokens: &[Token],
    room: u8,
) -> Reading<'_, LoopHead>
    ensures { HasGivenReading (λ x. (view_loop_head x.0, x.1.now)) result (guarded_in room kind tokens.now) }
{
    let (condition, rest) = condition(alloc, tokens, room)?;
    let (guards, rest) = guards(alloc, Guard { kind, condition }, rest, room)?;
    Ok((LoopHead::Guards(guards), rest))
}
