//! The explanation of a refusal.

ghost use Rattle.std.specs.Prelude.{◌≡◌, ◌≢◌, Some, None, IfOk, IfSome};
ghost use Rattle.ss_tree.specs.View.{view_program_tree};
ghost use Rattle.ss_names.specs.Table.{table};
ghost use Rattle.ss_tables_rules.specs.Broken.{refusal_of_declarations};
ghost use Rattle.ss_engine.specs.Accepting.{IsTreeRefusedWith};
ghost use Rattle.explain_texts.specs.Judged.{IsJudged, AreJudged, IsTreeJudged, IsWrong, refusal_for_uses};

use explain_cures::syntax::{explain_depth, explain_syntax};
use explain_names::{Read, add_notes, all_uses, explain_declared, explain_used};
use explain_pages::{Made, Page};
use ss_check_rules::{CheckError, judge};
use ss_engine::{Refusal, compile_tree};
use ss_lex::{Token, Tokens, tokens};
use ss_names::Names;
use ss_parse::{Reach, parse, reach_of};
use ss_tables::Tables;
use ss_tree::program::Program;
use ss_tree::release::release_tree;
use std::alloc::{AllocError, Global};

// A refusal, once it is explained.
fn refused(explained: Made<()>, refusal: Refusal) -> Made<Option<Refusal>>
    ensures { IfOk result (λ found. found ≡ Some refusal) }
{
    explained?;
    Ok(Some(refusal))
}

// Explains where the reading of tokens stops.
fn explain_reach(page: &mut Page<'_>, tokens: &[Token]) -> Made<()> {
    match reach_of(page.alloc(), tokens)? {
        Reach::Whole => Ok(()),
        Reach::Stopped(at) => explain_syntax(page, tokens, at),
        Reach::TooDeep(at) => explain_depth(page, tokens, at),
    }
}

// Explains the rule that a program breaks by what it does with its names. It adds notes where there is none.
fn explain_rules(
    page: &mut Page<'_>,
    read: &Read<'_>,
    broken: Option<CheckError>,
) -> Made<Option<Refusal>>
    ensures { IfOk result (λ found. found ≡ refusal_for_uses broken) }
{
    match broken {
        Some(error) => {
            let explained = explain_used(page, read, &error);
            refused(explained, Refusal::from(error))
        }
        None => {
            add_notes(page, read)?;
            Ok(None)
        }
    }
}

// The same for a program that breaks no rule on what it declares, by its table of names.
fn explain_names(
    page: &mut Page<'_>,
    tokens: &[Token],
    program: &Program,
    names: &Names,
) -> Made<Option<Refusal>>
    requires names { names.now ≡ table (view_program_tree program.now) }
    requires declared { refusal_of_declarations (view_program_tree program.now) ≡ None }
    ensures { IfOk result (λ found. IfSome found (IsTreeRefusedWith (view_program_tree program.now))) }
{
    let (broken, locals) = judge(page.alloc(), program, names)?;
    let uses = all_uses(page.alloc(), &program.sections)?;
    let read = Read {
        tokens,
        program,
        names,
        uses: uses.as_slice(),
        locals: locals.as_slice(),
    };
    explain_rules(page, &read, broken)
}

// Explains the first rule that the program of these tokens breaks. It adds notes where there is none.
fn explain_program(
    page: &mut Page<'_>,
    tokens: &[Token],
    program: &Program,
) -> Made<Option<Refusal>>
    ensures { IfOk result (λ found. IfSome found (IsTreeRefusedWith (view_program_tree program.now))) }
{
    match Tables::of(page.alloc(), program) {
        Ok(tables) => {
            let names = tables.into_names();
            let answer = explain_names(page, tokens, program, &names);
            names.release();
            answer
        }
        Err(error) => {
            let explained = explain_declared(page, program, &error);
            refused(explained, Refusal::from(error))
        }
    }
}

// Why the code of a program is refused, if it is. The program is given back.
fn refusal_of_code(alloc: Global, program: Program) -> Made<Option<Refusal>>
    ensures { IfOk result (IsTreeJudged (view_program_tree program)) }
{
    match compile_tree(alloc, program) {
        Ok(model) => {
            model.release();
            Ok(None)
        }
        Err(refusal) => Ok(Some(refusal)),
    }
}

// Explains why a program is refused. It adds notes where it breaks no rule. The program is given back.
fn explain_tree(page: &mut Page<'_>, tokens: &[Token], program: Program) -> Made<Option<Refusal>>
    ensures { IfOk result (IsTreeJudged (view_program_tree program)) }
{
    match explain_program(page, tokens, &program) {
        Ok(None) => refusal_of_code(page.alloc(), program),
        Ok(Some(refusal)) => {
            release_tree(program);
            Ok(Some(refusal))
        }
        Err(error) => {
            release_tree(program);
            Err(error)
        }
    }
}

// Explains why the text of these tokens is refused. It adds notes where it is not.
fn explain_tokens(page: &mut Page<'_>, all: &Tokens) -> Made<Option<Refusal>>
    ensures { IfOk result (AreJudged all.now.list) }
{
    match parse(page.alloc(), all) {
        Ok(program) => explain_tree(page, all.list(), program),
        Err(error) => {
            let explained = explain_reach(page, all.list());
            refused(explained, Refusal::from(error))
        }
    }
}

// Explains why a text is refused, which the page is about. It adds notes where it is not.
fn explain_whole(page: &mut Page<'_>, text: &[u8]) -> Made<Option<Refusal>>
    ensures { IfOk result (IsJudged text.now) }
{
    match tokens(page.alloc(), text) {
        Ok(all) => explain_tokens(page, &all),
        Err(error) => {
            let explained = page.explain_lexical(&error);
            refused(explained, Refusal::from(error))
        }
    }
}

// Adds the rule of a refusal, and answers the refusal. The error is the one for memory.
fn ruled(page: &mut Page<'_>, refusal: Refusal) -> Made<Refusal>
    ensures { IfOk result (λ known. (known ≡ refusal) × (refusal ≢ Refusal.Memory)) }
{
    if matches!(refusal, Refusal::Memory) {
        return Err(AllocError);
    }
    page.rule(refusal.number())?;
    Ok(refusal)
}

/// Explains why a text is refused: the place, what is wrong there, what helps, and the rule with the heading of the manual.
/// It answers the page and the refusal. Where a text is accepted that is None, and the page has notes on what is right and looks
/// odd. The error comes where memory was refused.
pub fn explain_text<'a>(alloc: Global, text: &'a [u8]) -> Made<(Page<'a>, Option<Refusal>)>
    ensures { IfOk result (λ answer. IsWrong text.now answer.1) }
{
    let mut page = Page::about(alloc, text);
    match explain_whole(&mut page, text)? {
        Some(refusal) => {
            let known = ruled(&mut page, refusal)?;
            Ok((page, Some(known)))
        }
        None => Ok((page, None)),
    }
}
