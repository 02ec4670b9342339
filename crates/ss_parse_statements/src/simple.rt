//! Statements that have no others in them.

ghost use Rattle.std.specs.Prelude.{◌≡◌, map};
ghost use Rattle.ss_tree.specs.View.{view_expression_tree, view_statement_tree};
ghost use Rattle.ss_parse_expressions.specs.Reading.{HasGivenReading};
ghost use Rattle.ss_parse_statements.specs.ReadSimple.{let_at, add_at, subtract_at, call_at, read_at, start_at, new_at, create_at, destroy_at, cancel_at, file_at, remove_end_at, remove_this_at, remove_at, schedule_the_at, schedule_a_at, schedule_at, reset_at, print_head, print_at, skip_at, simple_at};

use crate::parts::{
    EndWords, called_target, called_value, given, given_and_due, items, pictures, place, positive,
    set_after, target_after, trigger, value_set, yielding,
};
use ss_base::Line;
use ss_lex::{Token, Word};
use ss_parse_expressions::classes::{WordClass, expect_class, skip_class};
use ss_parse_expressions::expressions::sum;
use ss_parse_expressions::names::{name, names};
use ss_parse_expressions::places::{target, targets};
use ss_parse_expressions::reading::Reading;
use ss_parse_expressions::steps::beside;
use ss_parse_expressions::tables::{begins_word_of, take_word_of};
use ss_parse_expressions::tokens::{after_first, begins_word, expect_word, skip_word, syntax};
use ss_tree::expression::Expression;
use ss_tree::statement::Statement;
use std::alloc::Global;

/// The rest of a LET, after its first word.
#[tactic(auto, unfolding(crate::specs::ReadSimple::let_at, ss_tree::specs::View::view_statement_tree))]
fn let_form(alloc: Global, line: Line, tokens: &[Token], room: u8) -> Reading<'_, Statement>
    ensures { HasGivenReading (λ x. (view_statement_tree x.0, x.1.now)) result (let_at line room tokens.now) }
{
    let (target, rest) = target(alloc, tokens, room)?;
    let (target, (value, rest)) = beside(target, value_set(alloc, rest, room))?;
    let form = Statement::Let {
        line,
        target,
        value,
    };
    Ok((form, rest))
}

/// The rest of an ADD, after its first word.
#[tactic(auto, unfolding(crate::specs::ReadSimple::add_at, ss_tree::specs::View::view_statement_tree))]
fn add_form(alloc: Global, line: Line, tokens: &[Token], room: u8) -> Reading<'_, Statement>
    ensures { HasGivenReading (λ x. (view_statement_tree x.0, x.1.now)) result (add_at line room tokens.now) }
{
    let (amount, rest) = sum(alloc, tokens, room)?;
    let (amount, (target, rest)) = beside(amount, target_after(alloc, Word::To, rest, room))?;
    let form = Statement::Add {
        line,
        amount,
        target,
    };
    Ok((form, rest))
}

/// The rest of a SUBTRACT, after its first word.
#[tactic(auto, unfolding(crate::specs::ReadSimple::subtract_at, ss_tree::specs::View::view_statement_tree))]
fn subtract_form(alloc: Global, line: Line, tokens: &[Token], room: u8) -> Reading<'_, Statement>
    ensures { HasGivenReading (λ x. (view_statement_tree x.0, x.1.now)) result (subtract_at line room tokens.now) }
{
    let (amount, rest) = sum(alloc, tokens, room)?;
    let (amount, (target, rest)) = beside(amount, target_after(alloc, Word::From, rest, room))?;
    let form = Statement::Subtract {
        line,
        amount,
        target,
    };
    Ok((form, rest))
}

/// The rest of a CALL, after its first word.
#[tactic(auto, unfolding(crate::specs::ReadSimple::call_at, ss_tree::specs::View::view_statement_tree))]
fn call_form(alloc: Global, line: Line, tokens: &[Token], room: u8) -> Reading<'_, Statement>
    ensures { HasGivenReading (λ x. (view_statement_tree x.0, x.1.now)) result (call_at line room tokens.now) }
{
    let routine = name(tokens)?;
    let (given, rest) = given(alloc, after_first(tokens), room)?;
    let (given, (yielding, rest)) = beside(given, yielding(alloc, rest, room))?;
    let form = Statement::Call {
        line,
        routine,
        given,
        yielding,
    };
    Ok((form, rest))
}

/// The rest of a READ, after its first word.
#[tactic(auto, unfolding(crate::specs::ReadSimple::read_at, ss_tree::specs::View::view_statement_tree))]
fn read_form(alloc: Global, line: Line, tokens: &[Token], room: u8) -> Reading<'_, Statement>
    ensures { HasGivenReading (λ x. (view_statement_tree x.0, x.1.now)) result (read_at line room tokens.now) }
{
    let (targets, rest) = targets(alloc, tokens, room)?;
    Ok((Statement::Read { line, targets }, rest))
}

/// The rest of a START SIMULATION, after its first word.
#[tactic(auto, unfolding(crate::specs::ReadSimple::start_at, ss_tree::specs::View::view_statement_tree))]
fn start_form(line: Line, tokens: &[Token]) -> Reading<'_, Statement>
    ensures { HasGivenReading (λ x. (view_statement_tree x.0, x.1.now)) result (start_at line tokens.now) }
{
    let rest = expect_word(tokens, Word::Simulation)?;
    Ok((Statement::StartSimulation { line }, rest))
}

/// The rest of a CREATE A, after its first word.
#[tactic(auto, unfolding(crate::specs::ReadSimple::new_at, ss_tree::specs::View::view_statement_tree))]
fn new_form(alloc: Global, line: Line, tokens: &[Token], room: u8) -> Reading<'_, Statement>
    ensures { HasGivenReading (λ x. (view_statement_tree x.0, x.1.now)) result (new_at line room tokens.now) }
{
    let rest = skip_class(tokens, WordClass::Indefinite);
    let class = name(rest)?;
    let (called, rest) = called_target(alloc, after_first(rest), room)?;
    let form = Statement::Create {
        line,
        class,
        called,
    };
    Ok((form, rest))
}

/// The rest of a CREATE, after its first word.
#[tactic(auto, unfolding(crate::specs::ReadSimple::create_at, ss_tree::specs::View::view_statement_tree))]
fn create_form(alloc: Global, line: Line, tokens: &[Token], room: u8) -> Reading<'_, Statement>
    ensures { HasGivenReading (λ x. (view_statement_tree x.0, x.1.now)) result (create_at line room tokens.now) }
{
    if !begins_word(tokens, Word::Every) {
        return new_form(alloc, line, tokens, room);
    }
    let (classes, rest) = names(alloc, skip_word(tokens, Word::Every))?;
    Ok((Statement::CreateEvery { line, classes }, rest))
}

/// The rest of a DESTROY, after its first word.
#[tactic(auto, unfolding(crate::specs::ReadSimple::destroy_at, ss_tree::specs::View::view_statement_tree))]
fn destroy_form(alloc: Global, line: Line, tokens: &[Token], room: u8) -> Reading<'_, Statement>
    ensures { HasGivenReading (λ x. (view_statement_tree x.0, x.1.now)) result (destroy_at line room tokens.now) }
{
    let rest = skip_word(tokens, Word::The);
    let class = name(rest)?;
    let (called, rest) = called_value(alloc, after_first(rest), room)?;
    let form = Statement::Destroy {
        line,
        class,
        called,
    };
    Ok((form, rest))
}

/// The rest of a CANCEL, after its first word.
#[tactic(auto, unfolding(crate::specs::ReadSimple::cancel_at, ss_tree::specs::View::view_statement_tree))]
fn cancel_form(alloc: Global, line: Line, tokens: &[Token], room: u8) -> Reading<'_, Statement>
    ensures { HasGivenReading (λ x. (view_statement_tree x.0, x.1.now)) result (cancel_at line room tokens.now) }
{
    let rest = skip_word(tokens, Word::The);
    let class = name(rest)?;
    let (called, rest) = called_value(alloc, after_first(rest), room)?;
    let form = Statement::Cancel {
        line,
        class,
        called,
    };
    Ok((form, rest))
}

/// The rest of a FILE, after its first word.
#[tactic(auto, unfolding(crate::specs::ReadSimple::file_at, ss_tree::specs::View::view_statement_tree))]
fn file_form(alloc: Global, line: Line, tokens: &[Token], room: u8) -> Reading<'_, Statement>
    ensures { HasGivenReading (λ x. (view_statement_tree x.0, x.1.now)) result (file_at line room tokens.now) }
{
    let (member, rest) = sum(alloc, skip_word(tokens, Word::The), room)?;
    let (member, (position, rest)) = beside(member, place(alloc, rest, room))?;
    let set = set_after(alloc, Word::In, rest, room);
    let ((member, position), (set, rest)) = beside((member, position), set)?;
    let form = Statement::File {
        line,
        member,
        position,
        set,
    };
    Ok((form, rest))
}

/// The rest of a REMOVE FIRST or LAST, after THE.
#[tactic(auto, unfolding(crate::specs::ReadSimple::remove_end_at, ss_tree::specs::View::view_statement_tree))]
fn remove_end_form(alloc: Global, line: Line, tokens: &[Token], room: u8) -> Reading<'_, Statement>
    ensures { HasGivenReading (λ x. (view_statement_tree x.0, x.1.now)) result (remove_end_at line room tokens.now) }
{
    let (end, rest) = take_word_of::<EndWords>(tokens)?;
    let (target, rest) = target(alloc, rest, room)?;
    let (target, (set, rest)) = beside(target, set_after(alloc, Word::From, rest, room))?;
    let form = Statement::RemoveEnd {
        line,
        end,
        target,
        set,
    };
    Ok((form, rest))
}

/// The rest of a REMOVE of a given member, after THE.
#[tactic(auto, unfolding(crate::specs::ReadSimple::remove_this_at, ss_tree::specs::View::view_statement_tree))]
fn remove_this_form(alloc: Global, line: Line, tokens: &[Token], room: u8) -> Reading<'_, Statement>
    ensures { HasGivenReading (λ x. (view_statement_tree x.0, x.1.now)) result (remove_this_at line room tokens.now) }
{
    let (member, rest) = sum(alloc, tokens, room)?;
    let (member, (set, rest)) = beside(member, set_after(alloc, Word::From, rest, room))?;
    Ok((Statement::Remove { line, member, set }, rest))
}

/// The rest of a REMOVE, after its first word.
#[tactic(auto, unfolding(crate::specs::ReadSimple::remove_at, ss_tree::specs::View::view_statement_tree))]
fn remove_form(alloc: Global, line: Line, tokens: &[Token], room: u8) -> Reading<'_, Statement>
    ensures { HasGivenReading (λ x. (view_statement_tree x.0, x.1.now)) result (remove_at line room tokens.now) }
{
    let rest = skip_word(tokens, Word::The);
    if begins_word_of::<EndWords>(rest) {
        remove_end_form(alloc, line, rest, room)
    } else {
        remove_this_form(alloc, line, rest, room)
    }
}

/// The rest of a SCHEDULE THE, after its first word.
#[tactic(auto, unfolding(crate::specs::ReadSimple::schedule_the_at, ss_tree::specs::View::view_statement_tree))]
fn schedule_the_form(
    alloc: Global,
    line: Line,
    tokens: &[Token],
    room: u8,
) -> Reading<'_, Statement>
    ensures { HasGivenReading (λ x. (view_statement_tree x.0, x.1.now)) result (schedule_the_at line room tokens.now) }
{
    let rest = expect_word(tokens, Word::The)?;
    let class = name(rest)?;
    let (called, rest) = called_value(alloc, after_first(rest), room)?;
    let (called, (given, when, rest)) = beside(called, given_and_due(alloc, rest, room))?;
    let form = Statement::Schedule {
        line,
        class,
        called,
        given,
        when,
    };
    Ok((form, rest))
}

/// The rest of a SCHEDULE A, after its first word.
#[tactic(auto, unfolding(crate::specs::ReadSimple::schedule_a_at, ss_tree::specs::View::view_statement_tree))]
fn schedule_a_form(alloc: Global, line: Line, tokens: &[Token], room: u8) -> Reading<'_, Statement>
    ensures { HasGivenReading (λ x. (view_statement_tree x.0, x.1.now)) result (schedule_a_at line room tokens.now) }
{
    let rest = expect_class(tokens, WordClass::Indefinite)?;
    let class = name(rest)?;
    let (called, rest) = called_target(alloc, after_first(rest), room)?;
    let (called, (given, when, rest)) = beside(called, given_and_due(alloc, rest, room))?;
    let form = Statement::ScheduleNew {
        line,
        class,
        called,
        given,
        when,
    };
    Ok((form, rest))
}

/// The rest of a SCHEDULE, after its first word.
#[tactic(auto, unfolding(crate::specs::ReadSimple::schedule_at, ss_tree::specs::View::view_statement_tree))]
fn schedule_form(alloc: Global, line: Line, tokens: &[Token], room: u8) -> Reading<'_, Statement>
    ensures { HasGivenReading (λ x. (view_statement_tree x.0, x.1.now)) result (schedule_at line room tokens.now) }
{
    if begins_word(tokens, Word::The) {
        schedule_the_form(alloc, line, tokens, room)
    } else {
        schedule_a_form(alloc, line, tokens, room)
    }
}

/// The rest of a RESET, after its first word.
#[tactic(auto, unfolding(crate::specs::ReadSimple::reset_at, ss_tree::specs::View::view_statement_tree))]
fn reset_form(alloc: Global, line: Line, tokens: &[Token], room: u8) -> Reading<'_, Statement>
    ensures { HasGivenReading (λ x. (view_statement_tree x.0, x.1.now)) result (reset_at line room tokens.now) }
{
    let rest = expect_word(skip_word(tokens, Word::The), Word::Totals)?;
    let rest = expect_word(rest, Word::Of)?;
    let (targets, rest) = targets(alloc, rest, room)?;
    Ok((Statement::Reset { line, targets }, rest))
}

/// The number of pictures of a PRINT, and its items.
#[tactic(auto, unfolding(crate::specs::ReadSimple::print_head))]
fn print_head(alloc: Global, tokens: &[Token], room: u8) -> Reading<'_, (u64, Vec<Expression>)>
    ensures { HasGivenReading (λ x. ((x.0.0, map view_expression_tree x.0.1.items), x.1.now)) result (print_head room tokens.now) }
{
    let (count, rest) = positive(tokens)?;
    let rest = expect_word(rest, Word::Line)?;
    let (items, rest) = items(alloc, rest, room)?;
    let (items, rest) = beside(items, trigger(rest))?;
    Ok(((count, items), rest))
}

/// The rest of a PRINT, after its first word.
#[tactic(auto, unfolding(crate::specs::ReadSimple::print_at, ss_tree::specs::View::view_statement_tree))]
fn print_form(alloc: Global, line: Line, tokens: &[Token], room: u8) -> Reading<'_, Statement>
    ensures { HasGivenReading (λ x. (view_statement_tree x.0, x.1.now)) result (print_at line room tokens.now) }
{
    let ((count, items), rest) = print_head(alloc, tokens, room)?;
    let (items, (pictures, rest)) = beside(items, pictures(alloc, rest, count))?;
    let form = Statement::Print {
        line,
        items,
        pictures,
    };
    Ok((form, rest))
}

/// The rest of a SKIP, after its first word.
#[tactic(auto, unfolding(crate::specs::ReadSimple::skip_at, ss_tree::specs::View::view_statement_tree))]
fn skip_form(alloc: Global, line: Line, tokens: &[Token], room: u8) -> Reading<'_, Statement>
    ensures { HasGivenReading (λ x. (view_statement_tree x.0, x.1.now)) result (skip_at line room tokens.now) }
{
    let (count, rest) = sum(alloc, tokens, room)?;
    let rest = expect_word(skip_word(rest, Word::Output), Word::Line);
    let (count, rest) = beside(count, rest)?;
    Ok((Statement::Skip { line, count }, rest))
}

/// The rest of a statement that has no others in it, after its first word.
#[tactic(auto, unfolding(crate::specs::ReadSimple::simple_at, ss_tree::specs::View::view_statement_tree))]
pub fn simple_form(
    alloc: Global,
    line: Line,
    word: Word,
    tokens: &[Token],
    room: u8,
) -> Reading<'_, Statement>
    ensures { HasGivenReading (λ x. (view_statement_tree x.0, x.1.now)) result (simple_at line room word tokens.now) }
{
    match word {
        Word::Let => let_form(alloc, line, tokens, room),
        Word::Add => add_form(alloc, line, tokens, room),
        Word::Subtract => subtract_form(alloc, line, tokens, room),
        Word::Call => call_form(alloc, line, tokens, room),
        Word::Read => read_form(alloc, line, tokens, room),
        Word::Create => create_form(alloc, line, tokens, room),
        Word::Destroy => destroy_form(alloc, line, tokens, room),
        Word::File => file_form(alloc, line, tokens, room),
        Word::Remove => remove_form(alloc, line, tokens, room),
        Word::Schedule => schedule_form(alloc, line, tokens, room),
        Word::Cancel => cancel_form(alloc, line, tokens, room),
        Word::Reset => reset_form(alloc, line, tokens, room),
        Word::Print => print_form(alloc, line, tokens, room),
        Word::Skip => skip_form(alloc, line, tokens, room),
        Word::Return => Ok((Statement::Return { line }, tokens)),
        Word::Stop => Ok((Statement::Stop { line }, tokens)),
        Word::Start => start_form(line, tokens),
        _ => Err(syntax(tokens)),
    }
}
