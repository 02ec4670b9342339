//! What a run is read by: the model, and the names of its program.

ghost use Rattle.std.specs.Prelude.{IfOk, IfErr};
ghost use Rattle.ss_engine.specs.Accepting.{IsCompiledTo, IsRefusedWith};

use explain_texts::Made;
use ss_base::{Line, Name};
use ss_code::code::Code;
use ss_code::model::Model;
use ss_engine::{Refusal, compile};
use ss_lex::{Tokens, tokens};
use ss_names::Names;
use ss_parse::parse;
use ss_tables::Tables;
use ss_tree::program::{Program, SectionKind};
use ss_tree::release::release_tree;
use ss_tree::statement::Statement;
use std::alloc::{AllocError, Global};

/// A text with the names of its program, the lines of its sections, and the events that schedule themselves each time, with the
/// lines where they do.
#[derive(Drop)]
pub struct Guide<'a> {
    pub alloc: Global,
    pub text: &'a [u8],
    pub names: Names,
    lines: Vec<Line>,
    pub returning: Vec<(Name, Line)>,
}

/// A section of a program: MAIN, a routine by its number, or the routine of an event by the rank of its class.
#[derive(Clone, Copy, Debug, PartialEq, Eq)]
pub enum Section {
    Main,
    Routine(usize),
    Event(usize),
}

fn lines_of(alloc: Global, program: &Program) -> Made<Vec<Line>> {
    let mut lines = Vec::new(alloc);
    for section in &program.sections {
        lines.push(section.line)?;
    }
    Ok(lines)
}

// The line in which an event schedules another one of its kind, in no IF and no loop.
fn line_of_return(name: &Name, body: &[Statement]) -> Option<Line> {
    for statement in body {
        if let Statement::ScheduleNew { line, class, .. }
        | Statement::Schedule { line, class, .. } = statement
        {
            if class == name {
                return Some(*line);
            }
        }
    }
    None
}

// The events that schedule themselves each time, with the lines where they do.
fn returning_events(alloc: Global, program: &Program) -> Made<Vec<(Name, Line)>> {
    let mut found = Vec::new(alloc);
    for section in &program.sections {
        if let SectionKind::Event { name, .. } = &section.kind {
            if let Some(line) = line_of_return(name, section.body.as_slice()) {
                found.push((*name, line))?;
            }
        }
    }
    Ok(found)
}

// What the run of a text is read by, from its program. The error comes where memory was refused, and where a rule is broken.
fn guide_of<'a>(alloc: Global, text: &'a [u8], program: &Program) -> Made<Guide<'a>> {
    let lines = lines_of(alloc, program)?;
    let returning = returning_events(alloc, program)?;
    match Tables::of(alloc, program) {
        Ok(tables) => Ok(Guide {
            alloc,
            text,
            names: tables.into_names(),
            lines,
            returning,
        }),
        Err(_) => Err(AllocError),
    }
}

// What the run of a text with these tokens is read by. The error comes as above, and where they spell no program.
fn parsed_guide<'a>(alloc: Global, text: &'a [u8], all: &Tokens) -> Made<Guide<'a>> {
    match parse(alloc, all) {
        Ok(program) => {
            let guide = guide_of(alloc, text, &program);
            release_tree(program);
            guide
        }
        Err(_) => Err(AllocError),
    }
}

// What the run of a text is read by. The error comes as above, and where it has no tokens.
fn read_guide<'a>(alloc: Global, text: &'a [u8]) -> Made<Guide<'a>> {
    match tokens(alloc, text) {
        Ok(all) => parsed_guide(alloc, text, &all),
        Err(_) => Err(AllocError),
    }
}

/// The model of a text, with what its run is read by.
///
/// # Errors
/// The refusal of `compile`.
pub fn compile_with_names<'a>(alloc: Global, text: &'a [u8]) -> Result<(Model, Guide<'a>), Refusal>
    ensures accepted { IfOk result (λ both. IsCompiledTo text.now both.0) }
    ensures refused { IfErr result (λ refusal. IsRefusedWith text.now refusal) }
{
    let model = match compile(alloc, text) {
        Ok(model) => model,
        Err(refusal) => return Err(refusal),
    };
    match read_guide(alloc, text) {
        Ok(guide) => Ok((model, guide)),
        Err(_) => {
            model.release();
            Err(Refusal::Memory)
        }
    }
}

impl Guide<'_> {
    /// The name of a section; None for MAIN.
    pub fn section_name(&self, section: Section) -> Option<Name> {
        match section {
            Section::Main => None,
            Section::Routine(number) => self.names.routines.keys().get(number).copied(),
            Section::Event(rank) => {
                let class = self.names.ranks.as_slice().get(rank)?;
                self.class_name(*class)
            }
        }
    }

    /// The name of a class.
    pub fn class_name(&self, class: usize) -> Option<Name> {
        self.names.classes.keys().get(class).copied()
    }

    /// The rank of a class of notices.
    pub fn rank_of(&self, class: usize) -> Option<usize> {
        self.names.ranks.place(&class)
    }

    /// The line of the section of an event.
    pub fn event_line(&self, rank: usize) -> Option<Line> {
        let name = self.section_name(Section::Event(rank))?;
        let section = self.names.events.get(&name)?;
        self.lines.get(section.section).copied()
    }
}

/// The section that a place of the code is in.
pub fn section_at(code: &Code, place: usize) -> Section {
    let mut found = Section::Main;
    let mut start = code.main().place;
    for (number, entry) in code.routines().iter().enumerate() {
        if entry.place <= place && entry.place >= start {
            start = entry.place;
            found = Section::Routine(number);
        }
    }
    for (rank, entry) in code.events().iter().enumerate() {
        if entry.place <= place && entry.place >= start {
            start = entry.place;
            found = Section::Event(rank);
        }
    }
    found
}

/// The line of the statement at a place of the code; 0 where there is none.
pub fn line_at(code: &Code, place: usize) -> u32 {
    code.lines().get(place).map_or(0, |line| line.0)
}
