//! Statements.

ghost use Rattle.std.specs.Prelude.{◌≡◌, map};
ghost use Rattle.ss_tree.specs.Tree.{statement_row};
ghost use Rattle.ss_tree.specs.View.{view_statement_tree, view_head_tree, view_loop_head};
ghost use Rattle.ss_parse_expressions.specs.WordTables.{outcome_of};
ghost use Rattle.ss_lex.specs.declared.word.Word.TheVariants.{If};
ghost use Rattle.ss_parse_expressions.specs.Reading.{HasGivenReading, word, after_dropped, seq, taken, in_table};
ghost use Rattle.ss_parse_expressions.specs.ReadWords.{begins_noisy, expect_noisy};
ghost use Rattle.ss_parse_statements.specs.ReadStatements.{nested_word, begins_form, begins_statement, begins_find_if, statements_with, else_with, branches_with, do_with, governed_with, body_with, find_words, if_with, loop_with, find_if_with, found_with, find_with, for_with, guarded_with, nested_in, statement_in, statements_in};

use crate::simple::simple_form;
use ss_base::Line;
use ss_lex::{Symbol, Token, TokenKind, Word};
use ss_parse_expressions::conditions::condition;
use ss_parse_expressions::failure::ParseFailure;
use ss_parse_expressions::heads::{begins_guard, for_head, guarded_head};
use ss_parse_expressions::reading::Reading;
use ss_parse_expressions::steps::{alone, beside, joined};
use ss_parse_expressions::tables::{begins_word_of, take_word_of};
use ss_parse_expressions::tokens::{
    begins_word, expect_word, skip_symbol, skip_word, syntax, too_deep,
};
use ss_parse_expressions::words::OutcomeWords;
use ss_tree::head::{GuardKind, Head, LoopHead};
use ss_tree::statement::{FindOutcome, Statement};
use std::alloc::Global;

/// Whether the word, with a comma before it or not, is first.
pub fn begins_noisy(tokens: &[Token], wanted: Word) -> bool
    ensures { result ≡ begins_noisy (word wanted) tokens.now }
{
    begins_word(skip_symbol(tokens, Symbol::Comma), wanted)
}

/// What follows this word, which has to be first but for a comma.
pub fn expect_noisy(tokens: &[Token], wanted: Word) -> Result<&[Token], ParseFailure>
    ensures { HasGivenReading (λ rest. (tt, rest.now)) result (expect_noisy (word wanted) tokens.now) }
{
    expect_word(skip_symbol(tokens, Symbol::Comma), wanted)
}

/// Whether a statement that may have others in it begins with the word.
fn nested_word(word: Word) -> bool
    ensures { result ≡ nested_word word }
{
    matches!(word, Word::If | Word::For | Word::While | Word::Until)
}

/// Whether a statement begins here, with no comma before it.
fn begins_form(tokens: &[Token]) -> bool
    ensures { result ≡ begins_form tokens.now }
{
    match tokens {
        [] => false,
        [first, ..] => match &first.kind {
            TokenKind::Word(found) => matches!(
                found,
                Word::Let
                    | Word::Add
                    | Word::Subtract
                    | Word::Call
                    | Word::Return
                    | Word::Stop
                    | Word::Read
                    | Word::Start
                    | Word::If
                    | Word::For
                    | Word::While
                    | Word::Until
                    | Word::Create
                    | Word::Destroy
                    | Word::File
                    | Word::Remove
                    | Word::Schedule
                    | Word::Cancel
                    | Word::Reset
                    | Word::Print
                    | Word::Skip
            ),
            _ => false,
        },
    }
}

/// Whether a statement begins here, with a comma before it or not.
fn begins_statement(tokens: &[Token]) -> bool
    ensures { result ≡ begins_statement tokens.now }
{
    begins_form(skip_symbol(tokens, Symbol::Comma))
}

/// Whether the IF of a FIND begins here, with a comma before it or not.
fn begins_find_if(tokens: &[Token]) -> bool
    ensures { result ≡ begins_find_if tokens.now }
{
    let tokens = skip_symbol(tokens, Symbol::Comma);
    begins_word(tokens, Word::If) && begins_word_of::<OutcomeWords>(skip_word(tokens, Word::If))
}

/// FIND THE FIRST CASE.
#[tactic(auto, unfolding(crate::specs::ReadStatements::find_words))]
fn find_words(tokens: &[Token]) -> Result<&[Token], ParseFailure>
    ensures { HasGivenReading (λ rest. (tt, rest.now)) result (find_words tokens.now) }
{
    let rest = expect_noisy(tokens, Word::Find)?;
    let rest = expect_word(skip_word(rest, Word::The), Word::First)?;
    expect_word(rest, Word::Case)
}

/// Statements, each with a comma before it or not.
#[cycle(statements)]
pub fn statements(alloc: Global, tokens: &[Token], room: u8) -> Reading<'_, Vec<Statement>>
    ensures { HasGivenReading (λ x. (map view_statement_tree x.0.items, x.1.now)) result (statements_in room tokens.now) }
{
    let mut all = Vec::new(alloc);
    let mut rest = tokens;
    'more: while begins_statement(rest) {
        let next = statement(alloc, skip_symbol(rest, Symbol::Comma), room);
        let (longer, after) = joined(all, next)?;
        all = longer;
        rest = after;
    }
    Ok((all, rest))
}

/// The statements after ELSE, if ELSE is there.
#[cycle(statements)]
fn otherwise(alloc: Global, tokens: &[Token], room: u8) -> Reading<'_, Vec<Statement>>
    ensures { HasGivenReading (λ x. (map view_statement_tree x.0.items, x.1.now)) result (else_with (statement_in room) tokens.now) }
{
    if !begins_noisy(tokens, Word::Else) {
        return Ok((Vec::new(alloc), tokens));
    }
    let rest = expect_noisy(tokens, Word::Else)?;
    statements(alloc, rest, room)
}

/// The statements of an IF, those after its ELSE, and ALWAYS.
#[cycle(statements)]
#[tactic(auto, unfolding(crate::specs::ReadStatements::branches_with))]
fn branches(
    alloc: Global,
    tokens: &[Token],
    room: u8,
) -> Result<(Vec<Statement>, Vec<Statement>, &[Token]), ParseFailure>
    ensures { HasGivenReading (λ x. ((statement_row (map view_statement_tree x.0.items), statement_row (map view_statement_tree x.1.items)), x.2.now)) result (branches_with (statement_in room) tokens.now) }
{
    let (then, rest) = statements(alloc, tokens, room)?;
    let (then, (otherwise, rest)) = beside(then, otherwise(alloc, rest, room))?;
    let ((then, otherwise), rest) = beside((then, otherwise), expect_noisy(rest, Word::Always))?;
    Ok((then, otherwise, rest))
}

/// The statements between DO and LOOP.
#[cycle(statements)]
#[tactic(auto, unfolding(crate::specs::ReadStatements::do_with))]
fn do_body(alloc: Global, tokens: &[Token], room: u8) -> Reading<'_, Vec<Statement>>
    ensures { HasGivenReading (λ x. (map view_statement_tree x.0.items, x.1.now)) result (do_with (statement_in room) tokens.now) }
{
    let rest = expect_noisy(tokens, Word::Do)?;
    let (body, rest) = statements(alloc, rest, room)?;
    let (body, rest) = beside(body, expect_noisy(rest, Word::Loop))?;
    Ok((body, rest))
}

/// The one statement that a loop governs, which begins with neither WHILE nor UNTIL.
#[cycle(statements)]
#[tactic(auto, unfolding(crate::specs::ReadStatements::governed_with))]
fn governed(alloc: Global, tokens: &[Token], room: u8) -> Reading<'_, Vec<Statement>>
    ensures { HasGivenReading (λ x. (map view_statement_tree x.0.items, x.1.now)) result (governed_with (statement_in room) tokens.now) }
{
    let tokens = skip_symbol(tokens, Symbol::Comma);
    if begins_guard(tokens) {
        return Err(syntax(tokens));
    }
    let (statement, rest) = statement(alloc, tokens, room)?;
    Ok((alone(alloc, statement)?, rest))
}

/// What a loop repeats.
#[cycle(statements)]
#[tactic(auto, unfolding(crate::specs::ReadStatements::body_with))]
fn body(alloc: Global, tokens: &[Token], room: u8) -> Reading<'_, Vec<Statement>>
    ensures { HasGivenReading (λ x. (statement_row (map view_statement_tree x.0.items), x.1.now)) result (body_with (statement_in room) tokens.now) }
{
    if begins_noisy(tokens, Word::Do) {
        do_body(alloc, tokens, room)
    } else {
        governed(alloc, tokens, room)
    }
}

/// The rest of an IF, after its first word.
#[cycle(statements)]
#[tactic(auto, unfolding(crate::specs::ReadStatements::if_with), using(ss_tree::specs::Views::view_if_tree_made))]
fn if_form(alloc: Global, line: Line, tokens: &[Token], room: u8) -> Reading<'_, Statement>
    ensures { HasGivenReading (λ x. (view_statement_tree x.0, x.1.now)) result (if_with line room (statement_in room) tokens.now) }
{
    let (condition, rest) = condition(alloc, tokens, room)?;
    let branches = branches(alloc, rest, room);
    let (condition, (then, otherwise, rest)) = beside(condition, branches)?;
    let form = Statement::If {
        line,
        condition,
        then,
        otherwise,
    };
    Ok((form, rest))
}

/// The rest of a loop, after its head.
#[cycle(statements)]
#[tactic(auto, using(ss_tree::specs::Views::view_loop_tree_made))]
fn loop_form(
    alloc: Global,
    line: Line,
    head: LoopHead,
    tokens: &[Token],
    room: u8,
) -> Reading<'_, Statement>
    ensures { HasGivenReading (λ x. (view_statement_tree x.0, x.1.now)) result (loop_with line room (statement_in room) (view_loop_head head) tokens.now) }
{
    let (head, (body, rest)) = beside(head, body(alloc, tokens, room))?;
    Ok((Statement::Loop { line, head, body }, rest))
}

/// The IF of a FIND: FOUND or NONE, and the branches.
#[cycle(statements)]
fn outcome_and_branches(
    alloc: Global,
    tokens: &[Token],
    room: u8,
) -> Result<(FindOutcome, (Vec<Statement>, Vec<Statement>), &[Token]), ParseFailure>
    ensures { HasGivenReading (λ x. ((x.0, (statement_row (map view_statement_tree x.1.0.items), statement_row (map view_statement_tree x.1.1.items))), x.2.now)) result (after_dropped (expect_noisy (word If)) (seq (taken (in_table outcome_of)) (branches_with (statement_in room))) tokens.now) }
{
    let rest = expect_noisy(tokens, Word::If)?;
    let (outcome, rest) = take_word_of::<OutcomeWords>(rest)?;
    let (then, otherwise, rest) = branches(alloc, rest, room)?;
    Ok((outcome, (then, otherwise), rest))
}

/// The IF of a FIND.
#[cycle(statements)]
#[tactic(auto, unfolding(crate::specs::ReadStatements::find_if_with), using(ss_tree::specs::Views::view_find_if_made))]
fn find_if_form(
    alloc: Global,
    line: Line,
    head: Head,
    tokens: &[Token],
    room: u8,
) -> Reading<'_, Statement>
    ensures { HasGivenReading (λ x. (view_statement_tree x.0, x.1.now)) result (find_if_with line room (statement_in room) (view_head_tree head) tokens.now) }
{
    let (head, (outcome, (then, otherwise), rest)) = beside(
        head,
        outcome_and_branches(alloc, tokens, room),
    )?;
    let form = Statement::FindIf {
        line,
        head,
        outcome,
        then,
        otherwise,
    };
    Ok((form, rest))
}

/// The rest of a FIND, after the head of its loop.
#[cycle(statements)]
#[tactic(auto, unfolding(crate::specs::ReadStatements::find_with, ss_tree::specs::View::view_statement_tree))]
fn find_form(
    alloc: Global,
    line: Line,
    head: Head,
    tokens: &[Token],
    room: u8,
) -> Reading<'_, Statement>
    ensures { HasGivenReading (λ x. (view_statement_tree x.0, x.1.now)) result (find_with line room (statement_in room) (view_head_tree head) tokens.now) }
{
    let (head, rest) = beside(head, find_words(tokens))?;
    if begins_find_if(rest) {
        find_if_form(alloc, line, head, rest, room)
    } else {
        Ok((Statement::Find { line, head }, rest))
    }
}

/// The rest of a loop or a FIND, after FOR.
#[cycle(statements)]
#[tactic(auto, unfolding(crate::specs::ReadStatements::for_with))]
fn for_form(alloc: Global, line: Line, tokens: &[Token], room: u8) -> Reading<'_, Statement>
    ensures { HasGivenReading (λ x. (view_statement_tree x.0, x.1.now)) result (for_with line room (statement_in room) tokens.now) }
{
    let (head, rest) = for_head(alloc, tokens, room)?;
    if begins_noisy(rest, Word::Find) {
        find_form(alloc, line, head, rest, room)
    } else {
        loop_form(alloc, line, LoopHead::For(head), rest, room)
    }
}

/// The rest of a loop, after WHILE or UNTIL.
#[cycle(statements)]
#[tactic(auto, unfolding(crate::specs::ReadStatements::guarded_with))]
fn guarded_form(
    alloc: Global,
    line: Line,
    kind: GuardKind,
    tokens: &[Token],
    room: u8,
) -> Reading<'_, Statement>
    ensures { HasGivenReading (λ x. (view_statement_tree x.0, x.1.now)) result (guarded_with line room (statement_in room) kind tokens.now) }
{
    let (head, rest) = guarded_head(alloc, kind, tokens, room)?;
    loop_form(alloc, line, head, rest, room)
}

/// The rest of a statement that may have others in it, after its first word, where this many levels of nesting may be
/// opened.
#[cycle(statements)]
fn nested_form(
    alloc: Global,
    line: Line,
    word: Word,
    tokens: &[Token],
    room: u8,
) -> Reading<'_, Statement>
    ensures { HasGivenReading (λ x. (view_statement_tree x.0, x.1.now)) result (nested_in room (statement_in room) line word tokens.now) }
{
    if room == 0 {
        return Err(too_deep(tokens));
    }
    match word {
        Word::If => if_form(alloc, line, tokens, room),
        Word::For => for_form(alloc, line, tokens, room),
        Word::While => guarded_form(alloc, line, GuardKind::While, tokens, room),
        Word::Until => guarded_form(alloc, line, GuardKind::Until, tokens, room),
        _ => Err(syntax(tokens)),
    }
}

/// A statement, where this many levels of nesting, itself among them, may be opened.
#[cycle(statements)]
#[tactic(auto, unfolding(crate::specs::ReadStatements::statement_in))]
fn statement(alloc: Global, tokens: &[Token], room: u8) -> Reading<'_, Statement>
    ensures { HasGivenReading (λ x. (view_statement_tree x.0, x.1.now)) result (statement_in room tokens.now) }
{
    if room == 0 {
        return Err(too_deep(tokens));
    }
    match tokens {
        [] => Err(syntax(tokens)),
        [first, rest @ ..] => match &first.kind {
            TokenKind::Word(word) => {
                if nested_word(*word) {
                    nested_form(alloc, first.line, *word, rest, room - 1)
                } else {
                    simple_form(alloc, first.line, *word, rest, room)
                }
            }
            _ => Err(syntax(tokens)),
        },
    }
}
