//! Programs.

ghost use Rattle.std.specs.Prelude.{◌≡◌, map};
ghost use Rattle.ss_parse_expressions.specs.Openers.{nesting_limit};
ghost use Rattle.ss_parse_expressions.specs.Shapes.{first_token_line};
ghost use Rattle.ss_tree.specs.View.{view_definition, view_kind, view_statement_tree, view_section, view_program_tree};
ghost use Rattle.ss_parse_expressions.specs.Reading.{HasGivenReading, rows};
ghost use Rattle.ss_parse.specs.ReadPrograms.{begins_section, saving, routine_kind, event_kind, kind_after, variables, definition, definitions, body_in, section_at, section_in, program_in, program_of};

use crate::reading::preambles::{names_after, preamble, variable_mode};
use ss_base::{Line, Name};
use ss_lex::{Token, TokenKind, Word};
use ss_parse_expressions::classes::{WordClass, skip_class};
use ss_parse_expressions::failure::ParseFailure;
use ss_parse_expressions::names::{name, names};
use ss_parse_expressions::nesting::levels;
use ss_parse_expressions::reading::Reading;
use ss_parse_expressions::steps::{beside, joined};
use ss_parse_expressions::tokens::{after_first, begins_word, expect_word, skip_word, syntax};
use ss_parse_statements::statements::statements;
use ss_tree::preamble::ModeWord;
use ss_tree::program::{LocalDefinition, Program, Section, SectionKind};
use ss_tree::statement::Statement;
use std::alloc::Global;

/// The line of the first token, or 0.
fn line_at(tokens: &[Token]) -> Line
    ensures { result ≡ first_token_line tokens.now }
{
    match tokens {
        [] => Line(0),
        [first, ..] => first.line,
    }
}

/// Whether SAVING THE EVENT NOTICE is first.
#[tactic(auto, unfolding(crate::specs::ReadPrograms::saving))]
fn saving(tokens: &[Token]) -> Reading<'_, bool>
    ensures { HasGivenReading (λ x. (x.0, x.1.now)) result (saving tokens.now) }
{
    if !begins_word(tokens, Word::Saving) {
        return Ok((false, tokens));
    }
    let rest = skip_word(tokens, Word::Saving);
    let rest = expect_word(skip_word(rest, Word::The), Word::Event)?;
    let rest = expect_word(rest, Word::Notice)?;
    Ok((true, rest))
}

/// The rest of the header of a routine, after its first word.
#[tactic(auto, unfolding(crate::specs::ReadPrograms::routine_kind))]
fn routine(alloc: Global, tokens: &[Token]) -> Reading<'_, SectionKind>
    ensures { HasGivenReading (λ x. (view_kind x.0, x.1.now)) result (routine_kind tokens.now) }
{
    let rest = skip_class(tokens, WordClass::Towards);
    let name = name(rest)?;
    let (given, rest) = names_after(alloc, after_first(rest), Word::Given)?;
    let yielding = names_after(alloc, rest, Word::Yielding);
    let (given, (yielding, rest)) = beside(given, yielding)?;
    let kind = SectionKind::Routine {
        name,
        given,
        yielding,
    };
    Ok((kind, rest))
}

/// The rest of the header of an event routine, after its first word.
#[tactic(auto, unfolding(crate::specs::ReadPrograms::event_kind))]
fn event(alloc: Global, tokens: &[Token]) -> Reading<'_, SectionKind>
    ensures { HasGivenReading (λ x. (view_kind x.0, x.1.now)) result (event_kind tokens.now) }
{
    let name = name(tokens)?;
    let (given, rest) = names_after(alloc, after_first(tokens), Word::Given)?;
    let (given, (saving, rest)) = beside(given, saving(rest))?;
    let kind = SectionKind::Event {
        name,
        given,
        saving,
    };
    Ok((kind, rest))
}

/// The rest of the header of a section, after its first word.
fn section_kind(alloc: Global, word: Word, tokens: &[Token]) -> Reading<'_, SectionKind>
    ensures { HasGivenReading (λ x. (view_kind x.0, x.1.now)) result (kind_after word tokens.now) }
{
    match word {
        Word::Main => Ok((SectionKind::Main, tokens)),
        Word::Routine => routine(alloc, tokens),
        Word::Event => event(alloc, tokens),
        _ => Err(syntax(tokens)),
    }
}

/// Names and their mode, after DEFINE.
#[tactic(auto, unfolding(crate::specs::ReadPrograms::variables))]
fn variables(alloc: Global, tokens: &[Token]) -> Reading<'_, (Vec<Name>, ModeWord)>
    ensures { HasGivenReading (λ x. ((x.0.0.items, x.0.1), x.1.now)) result (variables tokens.now) }
{
    let (names, rest) = names(alloc, tokens)?;
    let (names, rest) = beside(names, expect_word(rest, Word::As))?;
    let mode = variable_mode(skip_class(rest, WordClass::Article));
    let (names, (mode, rest)) = beside(names, mode)?;
    Ok(((names, mode), rest))
}

/// A DEFINE at the head of a section's body.
#[tactic(auto, unfolding(crate::specs::ReadPrograms::definition_at))]
fn definition(alloc: Global, tokens: &[Token]) -> Reading<'_, LocalDefinition>
    ensures { HasGivenReading (λ x. (view_definition x.0, x.1.now)) result (definition tokens.now) }
{
    let line = line_at(tokens);
    let rest = expect_word(tokens, Word::Define)?;
    let ((names, mode), rest) = variables(alloc, rest)?;
    Ok((LocalDefinition { line, names, mode }, rest))
}

/// The DEFINEs at the head of a section's body.
fn definitions(alloc: Global, tokens: &[Token]) -> Reading<'_, Vec<LocalDefinition>>
    ensures { HasGivenReading (λ x. (map view_definition x.0.items, x.1.now)) result (definitions tokens.now) }
{
    let mut all = Vec::new(alloc);
    let mut rest = tokens;
    'more: while begins_word(rest, Word::Define) {
        let (longer, after) = joined(all, definition(alloc, rest))?;
        all = longer;
        rest = after;
    }
    Ok((all, rest))
}

/// The body of a section, and its END.
fn body(
    alloc: Global,
    tokens: &[Token],
    room: u8,
) -> Result<(Vec<LocalDefinition>, Vec<Statement>, &[Token]), ParseFailure>
    ensures { HasGivenReading (λ x. ((map view_definition x.0.items, map view_statement_tree x.1.items), x.2.now)) result (body_in room tokens.now) }
{
    let (definitions, rest) = definitions(alloc, tokens)?;
    let (definitions, (body, rest)) = beside(definitions, statements(alloc, rest, room))?;
    let ((definitions, body), rest) = beside((definitions, body), expect_word(rest, Word::End))?;
    Ok((definitions, body, rest))
}

/// The rest of a section, after its first word.
#[tactic(auto, unfolding(crate::specs::ReadPrograms::section_at))]
fn section_rest(
    alloc: Global,
    line: Line,
    word: Word,
    tokens: &[Token],
    room: u8,
) -> Reading<'_, Section>
    ensures { HasGivenReading (λ x. (view_section x.0, x.1.now)) result (section_at room line word tokens.now) }
{
    let (kind, rest) = section_kind(alloc, word, tokens)?;
    let (kind, (definitions, body, rest)) = beside(kind, body(alloc, rest, room))?;
    let section = Section {
        line,
        kind,
        definitions,
        body,
    };
    Ok((section, rest))
}

/// A section.
fn section(alloc: Global, tokens: &[Token], room: u8) -> Reading<'_, Section>
    ensures { HasGivenReading (λ x. (view_section x.0, x.1.now)) result (section_in room tokens.now) }
{
    match tokens {
        [] => Err(syntax(tokens)),
        [first, rest @ ..] => match &first.kind {
            TokenKind::Word(word) => section_rest(alloc, first.line, *word, rest, room),
            _ => Err(syntax(tokens)),
        },
    }
}

/// Whether a section begins here.
fn begins_section(tokens: &[Token]) -> bool
    ensures { result ≡ begins_section tokens.now }
{
    match tokens {
        [] => false,
        [first, ..] => match &first.kind {
            TokenKind::Word(word) => matches!(word, Word::Main | Word::Routine | Word::Event),
            _ => false,
        },
    }
}

/// The sections of a program.
fn sections(alloc: Global, tokens: &[Token], room: u8) -> Reading<'_, Vec<Section>>
    ensures { HasGivenReading (λ x. (map view_section x.0.items, x.1.now)) result (rows begins_section (section_in room) tokens.now) }
{
    let mut all = Vec::new(alloc);
    let mut rest = tokens;
    'more: while begins_section(rest) {
        let (longer, after) = joined(all, section(alloc, rest, room))?;
        all = longer;
        rest = after;
    }
    Ok((all, rest))
}

/// A program, where this many levels of nesting, a statement's own among them, may be opened.
#[tactic(auto, unfolding(crate::specs::ReadPrograms::program_in))]
fn parts(alloc: Global, tokens: &[Token], room: u8) -> Reading<'_, Program>
    ensures { HasGivenReading (λ x. (view_program_tree x.0, x.1.now)) result (program_in room tokens.now) }
{
    let (preamble, rest) = preamble(alloc, tokens)?;
    let (preamble, (sections, rest)) = beside(preamble, sections(alloc, rest, room))?;
    Ok((Program { preamble, sections }, rest))
}

/// A program to the end of the tokens.
#[tactic(auto, unfolding(crate::specs::ReadPrograms::program_of))]
pub fn program(alloc: Global, tokens: &[Token]) -> Result<Program, ParseFailure>
    ensures { HasGivenReading view_program_tree result (program_of nesting_limit tokens.now) }
{
    let (program, rest) = parts(alloc, tokens, levels() + 1)?;
    match rest {
        [] => Ok(program),
        _ => Err(syntax(rest)),
    }
}
