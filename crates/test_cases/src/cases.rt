//! Cases: a whole text each, and what is wanted of it.

use crate::content::place_of_line;
use crate::directive::DirectiveTopic;
use crate::ending::CaseEnding;
use crate::words::{SessionCall, StreamPlan, number, numbers, reader, short_numbers, writer};
use crate::wrong::Wrong;
use std::alloc::Global;

/// The ticks that a case is handed out that names none.
const AMPLE: u64 = 1_000_000;

/// The bytes that the writer takes at a call, of a case that names none.
const WRITTEN_PER_CALL: usize = 4096;

/// What judges a text.
#[derive(Clone, Copy)]
pub enum Judge {
    /// The lexer and the parser.
    Tree,
    /// The lexer, the parser, the tables and the rules.
    Rules,
    /// The whole run.
    Run,
}

impl Judge {
    // Tree, or rules.
    fn of(word: &str) -> Result<Judge, Wrong> {
        match word {
            "tree" => Ok(Judge::Tree),
            "rules" => Ok(Judge::Rules),
            _ => Err(Wrong::Judge),
        }
    }
}

/// A part of a case that content belongs to.
#[derive(Clone, Copy)]
pub enum CasePart {
    /// The model, at its end.
    Model,
    Input,
    Report,
}

/// A case as its file has it.
#[derive(Drop)]
pub struct Case<'a> {
    alloc: Global,
    pub name: &'a str,
    /// The line of its file that it begins in.
    pub line: u64,
    pub model: Vec<u8>,
    /// What comes after the line of the model that content replaces, while it does.
    rest: Vec<u8>,
    pub input: Vec<u8>,
    pub report: Vec<u8>,
    pub calls: Vec<SessionCall<'a>>,
    pub ending: Option<CaseEnding<'a>>,
    pub used: Option<u64>,
    pub cut_short: Option<Vec<u64>>,
    /// What its one reader does.
    pub reader: Option<StreamPlan>,
    ticks: Option<Vec<u64>>,
    writer: Option<StreamPlan>,
    failures: Option<u64>,
    judge: Option<Judge>,
}

// Fills a slot that may be filled once.
fn set_once<T: Drop>(slot: &mut Option<T>, value: Result<T, Wrong>) -> Result<(), Wrong> {
    let value = value?;
    if slot.is_some() {
        return Err(Wrong::Twice);
    }
    *slot = Some(value);
    Ok(())
}

impl<'a> Case<'a> {
    /// A case that begins in this line, and has only its name so far.
    pub fn new(alloc: Global, name: &'a str, line: u64) -> Case<'a> {
        Case {
            alloc,
            name,
            line,
            model: Vec::new(alloc),
            rest: Vec::new(alloc),
            input: Vec::new(alloc),
            report: Vec::new(alloc),
            calls: Vec::new(alloc),
            ending: None,
            used: None,
            cut_short: None,
            reader: None,
            ticks: None,
            writer: None,
            failures: None,
            judge: None,
        }
    }

    /// Takes down what these words say of the case.
    pub fn take_down(&mut self, topic: DirectiveTopic, words: &'a str) -> Result<(), Wrong> {
        match topic {
            DirectiveTopic::Ticks => set_once(&mut self.ticks, numbers(self.alloc, words)),
            DirectiveTopic::Reader => set_once(&mut self.reader, reader(words)),
            DirectiveTopic::Writer => set_once(&mut self.writer, writer(words)),
            DirectiveTopic::Failures => set_once(&mut self.failures, number(words)),
            DirectiveTopic::Run => {
                self.calls.push(SessionCall::of(words)?)?;
                Ok(())
            }
            DirectiveTopic::Ending => set_once(&mut self.ending, CaseEnding::of(words)),
            DirectiveTopic::Judge => set_once(&mut self.judge, Judge::of(words)),
            DirectiveTopic::Used => set_once(&mut self.used, number(words)),
            DirectiveTopic::Cut => set_once(&mut self.cut_short, short_numbers(self.alloc, words)),
        }
    }

    /// Begins the model with this text.
    pub fn begin_model(&mut self, text: &[u8]) -> Result<(), Wrong> {
        if !self.model.is_empty() {
            return Err(Wrong::Begun);
        }
        self.model.extend_from_slice(text)?;
        Ok(())
    }

    /// Begins a part: the content that follows is added to the model, or makes the part anew.
    pub fn begin_part(&mut self, part: CasePart) {
        match part {
            CasePart::Model => {}
            CasePart::Input | CasePart::Report => self.content(part).clear(),
        }
    }

    /// Cuts the model before the line of this number, counted from 1. What comes after that line
    /// comes back with `end_line`.
    pub fn begin_line(&mut self, number: u64) -> Result<(), Wrong> {
        let Some(line) = place_of_line(&self.model, number) else {
            return Err(Wrong::NoLine);
        };
        if let Some(rest) = self.model.get(line.end..) {
            self.rest.extend_from_slice(rest)?;
        }
        self.model.truncate(line.start);
        Ok(())
    }

    /// Puts what came after a replaced line back at the end of the model. Does nothing where no line was begun.
    pub fn end_line(&mut self) -> Result<(), Wrong> {
        self.model.extend_from_slice(&self.rest)?;
        self.rest.clear();
        Ok(())
    }

    /// Where the content of a part is put.
    pub fn content(&mut self, part: CasePart) -> &mut Vec<u8> {
        match part {
            CasePart::Model => &mut self.model,
            CasePart::Input => &mut self.input,
            CasePart::Report => &mut self.report,
        }
    }

    /// What is wrong with the case as a whole: it has one ending or some calls, and not both.
    pub fn lack(&self) -> Option<Wrong> {
        match (self.ending.is_some(), self.calls.is_empty()) {
            (false, true) => Some(Wrong::NoEnding),
            (true, false) => Some(Wrong::TwoEndings),
            _ => None,
        }
    }

    /// The pieces in which the ticks are handed out.
    pub fn pieces(&self) -> &[u64] {
        match &self.ticks {
            Some(pieces) => pieces,
            None => &[AMPLE],
        }
    }

    /// What the writer does.
    pub fn writer(&self) -> StreamPlan {
        self.writer.unwrap_or(StreamPlan::smooth(WRITTEN_PER_CALL))
    }

    /// How often the reader and the writer fail in all.
    pub fn failures(&self) -> u64 {
        self.failures.unwrap_or(0)
    }

    /// What judges the text.
    pub fn judge(&self) -> Judge {
        match (self.judge, self.ending) {
            (Some(judge), _) => judge,
            (None, Some(CaseEnding::AnyTree | CaseEnding::Tree(_))) => Judge::Tree,
            (None, Some(CaseEnding::Kept)) => Judge::Rules,
            (None, _) => Judge::Run,
        }
    }
}
