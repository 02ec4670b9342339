//! Notes on a text that is accepted: names and statements that are right, and look like a mistake.

use crate::locals::{NOTED, add_locals};
use crate::sections::Read;
use crate::statements::{Listed, line_of, statements_of, stop_in};
use explain_pages::Part::{Bytes, Line};
use explain_pages::{Made, Page, bytes_of, has_field, indentation, line_from, line_starts};
use ss_base::{ClassKind, Name};
use ss_lex::{LexError, Token, TokenKind, Word, tokens};
use ss_names::Names;
use ss_names_declarations::{has_entry, key_at, value_at};
use ss_names_scopes::{Locals, is_main};
use ss_names_uses::{Role, Use, Used};
use ss_parse::{Reach, reach_of};
use ss_tree::expression::Designator;
use ss_tree::preamble::PreambleStatement;
use ss_tree::program::{Program, SectionKind};
use ss_tree::statement::Statement;
use std::alloc::{AllocError, Global};

/// The most sections in which a STOP is looked for.
const SECTIONS: usize = 2000;

// Whether a section has START SIMULATION.
fn has_start(uses: &[Use]) -> bool {
    uses.iter().any(|one| matches!(&one.what, Used::Start))
}

// A note on a program with events that are never started.
fn add_start(page: &mut Page<'_>, read: &Read<'_>) -> Made<()> {
    let names = read.names;
    if names.events.is_empty() || read.uses.iter().any(|uses| has_start(uses)) {
        return Ok(());
    }
    for section in &read.program.sections {
        if is_main(section) {
            page.note(
                section.line.0,
                ", MAIN: there are events, and no START SIMULATION, so none of them comes. Write START SIMULATION in MAIN, after what it schedules",
                &[],
            )?;
        }
    }
    Ok(())
}

// Whether a line of picture is a statement, or closes one.
fn is_statement(alloc: Global, bytes: &[u8]) -> Made<bool> {
    if has_field(bytes) {
        return Ok(false);
    }
    let page = Page::of(alloc, "MAIN {} END", &[Bytes(bytes)])?;
    match tokens(alloc, page.bytes()) {
        Ok(all) => {
            let reach = reach_of(alloc, all.list())?;
            Ok(all.list().len() > 2 && matches!(reach, Reach::Whole))
        }
        Err(LexError::Memory) => Err(AllocError),
        Err(_) => Ok(false),
    }
}

// Notes on lines that are printed and look like statements.
fn add_pictures(page: &mut Page<'_>, tokens: &[Token]) -> Made<()> {
    let mut print = 0;
    let mut count: usize = 0;
    for token in tokens {
        match &token.kind {
            TokenKind::Word(Word::Print) => print = token.line.0,
            TokenKind::Picture(line) if count < NOTED => {
                if is_statement(page.alloc(), line.bytes())? {
                    count = count.saturating_add(1);
                    page.note(
                        token.line.0,
                        ": it looks like a statement, and it is printed: the PRINT of line {} counts it as one of its pictures. Write a smaller number of LINES there, if it is to be carried out",
                        &[Line(print)],
                    )?;
                }
            }
            _ => {}
        }
    }
    Ok(())
}

// The line of the statement after a loop, where the loop has one statement in a further line, and both are indented alike.
fn line_after(text: &[u8], starts: &[usize], one: &Listed<'_>) -> Option<u32> {
    let Statement::Loop { line, body, .. } = one.statement else {
        return None;
    };
    let [only] = body.as_slice() else {
        return None;
    };
    let next = one.next?;
    let (inner, after) = (line_of(only), line_of(next));
    let depth = |line: u32| indentation(bytes_of(text, line_from(text, starts, line)));
    let is_deeper = inner > line.0 && depth(inner) > depth(line.0);
    let is_alike = after > inner && depth(after) == depth(inner);
    Some(after).filter(|_| is_deeper && is_alike)
}

// Notes on loops without DO that look as if they had more than one statement.
fn note_loops(page: &mut Page<'_>, starts: &[usize], all: &[Listed<'_>]) -> Made<()> {
    let mut count: usize = 0;
    for one in all {
        if count >= NOTED {
            break;
        }
        if let Some(after) = line_after(page.about, starts, one) {
            count = count.saturating_add(1);
            page.note(
                line_of(one.statement),
                ", FOR or WHILE without DO: only the statement of the next line belongs to the loop, and line {} is indented as if it did too. Write DO at the end of the head, and LOOP after the last statement",
                &[Line(after)],
            )?;
        }
    }
    Ok(())
}

// The same, of a program.
fn add_loops(page: &mut Page<'_>, program: &Program) -> Made<()> {
    let starts = line_starts(page.alloc(), page.about)?;
    let all = statements_of(page.alloc(), &program.sections)?;
    note_loops(page, starts.as_slice(), all.as_slice())
}

// The class whose entities have an attribute, and its kind.
fn class_of(names: &Names, attribute: &Name) -> Option<(Name, ClassKind)> {
    let class = names.attributes.get(attribute)?.class;
    let name = key_at(&names.classes, class)?;
    let kind = value_at(&names.classes, class)?;
    Some((name, kind))
}

// Whether a name is that of an attribute of entities that come and go, which a DEFINE as a variable names.
fn is_passing(names: &Names, name: &Name) -> bool {
    let Some((_, kind)) = class_of(names, name) else {
        return false;
    };
    !matches!(kind, ClassKind::Permanent) && has_entry(&names.modes, name)
}

// Notes on statistics of an attribute that a DEFINE as a variable names.
fn add_subjects(page: &mut Page<'_>, read: &Read<'_>) -> Made<()> {
    for statement in &read.program.preamble {
        match statement {
            PreambleStatement::Statistics { line, subject, .. } => {
                if is_passing(read.names, subject) {
                    page.note(
                        line.0,
                        ", {}: it is an attribute, so each entity has figures of its own, which go with it. A DEFINE of an attribute gives its mode and makes no variable. For figures of all take another name for the variable",
                        &[Bytes(subject.bytes())],
                    )?;
                }
            }
            _ => {}
        }
    }
    Ok(())
}

// Whether MAIN has statements after START SIMULATION.
fn reports_after_start(program: &Program) -> bool {
    for section in &program.sections {
        if is_main(section) {
            let mut before = section.body.iter().rev().skip(1);
            return before.any(|one| matches!(one, Statement::StartSimulation { .. }));
        }
    }
    false
}

// Notes on STOPs in events, where MAIN has something to do after them.
fn add_stops(page: &mut Page<'_>, program: &Program) -> Made<()> {
    if !reports_after_start(program) {
        return Ok(());
    }
    for section in program.sections.iter().take(SECTIONS) {
        let SectionKind::Event { name, .. } = &section.kind else {
            continue;
        };
        if let Some(line) = stop_in(page.alloc(), section)? {
            page.note(
                line,
                ", STOP: it ends the whole run in EVENT {}, so what MAIN does after START SIMULATION is left out. RETURN ends the event alone; without further notices MAIN goes on.",
                &[Bytes(name.bytes())],
            )?;
        }
    }
    Ok(())
}

// Whether a use sets the variable of this name.
fn sets(one: &Use, class: &Name) -> bool {
    match &one.what {
        Used::Class {
            class: other,
            called,
            ..
        } => !*called && other == class,
        Used::Place {
            role,
            place: Designator::Name(name),
            ..
        } => matches!(role, Role::Target | Role::LoopVariable) && name == class,
        Used::Parameter { name } => name == class,
        Used::Local { name, .. } => name == class,
        _ => false,
    }
}

// The name of a use that may be an attribute, where no entity is named.
fn implied_in<'a>(locals: &Locals, one: &'a Use) -> Option<&'a Name> {
    let Used::Place {
        place: Designator::Name(name),
        subscripts: 0,
        ..
    } = &one.what
    else {
        return None;
    };
    if locals.number(name).is_some() {
        return None;
    }
    Some(name)
}

// The permanent class in whose variable the entity of an attribute is, if none of these uses sets it.
fn unset_class(names: &Names, attribute: &Name, uses: &[Use]) -> Option<Name> {
    let Some((class, ClassKind::Permanent)) = class_of(names, attribute) else {
        return None;
    };
    let is_set = uses.iter().any(|one| sets(one, &class));
    if is_set { None } else { Some(class) }
}

fn first_parameter(uses: &[Use]) -> Option<Name> {
    uses.iter().find_map(|one| match &one.what {
        Used::Parameter { name } => Some(*name),
        _ => None,
    })
}

// Adds a note on an attribute without its subscript in an event that is given something else.
fn add_implied(page: &mut Page<'_>, names: &Names, locals: &Locals, uses: &[Use]) -> Made<()> {
    let Some(parameter) = first_parameter(uses) else {
        return Ok(());
    };
    for one in uses {
        if let Some(attribute) = implied_in(locals, one) {
            if let Some(class) = unset_class(names, attribute, uses) {
                let (name, class) = (attribute.bytes(), class.bytes());
                let parts = [
                    Bytes(name),
                    Bytes(class),
                    Bytes(class),
                    Bytes(name),
                    Bytes(parameter.bytes()),
                ];
                return page.note(
                    one.line.0,
                    ", {}: without a subscript it is that of the {} in the variable {}, which this event does not set. Is it {}({})?",
                    &parts,
                );
            }
        }
    }
    Ok(())
}

// Adds the notes on the section of this number.
fn add_of_section(page: &mut Page<'_>, read: &Read<'_>, number: usize, uses: &[Use]) -> Made<()> {
    let Some(locals) = read.locals.get(number) else {
        return Ok(());
    };
    add_locals(page, read.names, locals, uses)?;
    match read.program.sections.get(number) {
        Some(section) if matches!(&section.kind, SectionKind::Event { .. }) => {
            add_implied(page, read.names, locals, uses)
        }
        _ => Ok(()),
    }
}

/// Adds notes on a program that breaks no rule. There are none where nothing looks like a mistake.
pub fn add_notes(page: &mut Page<'_>, read: &Read<'_>) -> Made<()> {
    add_start(page, read)?;
    add_stops(page, read.program)?;
    for (number, uses) in read.uses.iter().enumerate() {
        if page.is_full() {
            return Ok(());
        }
        add_of_section(page, read, number, uses.as_slice())?;
    }
    add_pictures(page, read.tokens)?;
    add_loops(page, read.program)?;
    add_subjects(page, read)
}
