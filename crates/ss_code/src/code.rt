//! The code of a program.

ghost use Rattle.std.specs.Prelude.{◌≡◌, ◌<◌, ◌^◌, length, map, slice_get, IfOk};
ghost use Rattle.ss_code_listing.specs.Listing.{AreLines};
ghost use Rattle.ss_code.specs.Running.{IsGenerated};

use ss_base::{Discipline, Layout, Line, Mode, Value};
use ss_code_instructions::NoticeClass;
use ss_code_instructions::entry::SectionEntry;
use ss_code_instructions::instruction::Instruction;
use ss_code_listing::listing::listing;
use ss_code_pieces::lines::Lines;
use ss_program::sections::Statistic;
use ss_world::TieShape;
use std::alloc::{AllocError, Global};
use std::marker::Model;

/// What a program says of its classes and sets, its notices and its statistics.
#[derive(Drop)]
pub(crate) struct ProgramFacts {
    pub(crate) layout: Layout,
    pub(crate) disciplines: Vec<Discipline>,
    pub(crate) notices: Vec<NoticeClass>,
    pub(crate) ties: Vec<Vec<TieShape>>,
    pub(crate) statistics: Vec<Statistic>,
}

impl Model for ProgramFacts {
    ghost use Rattle.std.specs.Prelude.{map};
    ghost use Rattle.ss_code.specs.Running.{Said};

    ghost Value = { Said };

    ghost view = { λ s. record { layout = s.layout; setting = record { disciplines = s.disciplines.items; notices = s.notices.items; statistics = s.statistics.items }; ties = map (λ shapes. shapes.items) s.ties.items } };
}

/// Instructions, and beside them the line of each.
#[derive(Drop)]
pub(crate) struct Text {
    pub(crate) instructions: Vec<Instruction>,
    pub(crate) lines: Vec<Line>,
}

/// Where sections begin: MAIN, the routines, and those of events; and the most cells of a frame.
#[derive(Drop)]
pub(crate) struct Sections {
    pub(crate) main: SectionEntry,
    pub(crate) routines: Vec<SectionEntry>,
    pub(crate) events: Vec<SectionEntry>,
    pub(crate) depth: usize,
}

/// The code of a program: its instructions and the line of each, the constants that they read, the lines that they print,
/// where its sections begin, and what it says of classes, sets, notices, statistics and global variables.
///
/// A contract sees it as a record of these. It is the code of a program.
#[derive(Drop)]
pub struct Code {
    text: Text,
    constants: Vec<Value>,
    prints: Vec<Lines>,
    sections: Sections,
    program_facts: ProgramFacts,
    globals: Vec<Mode>,
}

impl Model for Code {
    ghost use Rattle.ss_code.specs.Running.{Generated, IsGenerated};

    ghost Value = { Generated };

    ghost view = { λ c. record { run = record { instructions = c.text.instructions.items; lines = c.text.lines.items; constants = c.constants.items; prints = c.prints.items; main = c.sections.main; routines = c.sections.routines.items; events = c.sections.events.items; depth = c.sections.depth }; said = c.program_facts; globals = c.globals.items } };

    ghost invariant = { λ c. IsGenerated (record { run = record { instructions = c.text.instructions.items; lines = c.text.lines.items; constants = c.constants.items; prints = c.prints.items; main = c.sections.main; routines = c.sections.routines.items; events = c.sections.events.items; depth = c.sections.depth }; said = c.program_facts; globals = c.globals.items }) };
}

impl Code {
    /// The code of a program, of these parts.
    pub(crate) fn new(
        text: Text,
        constants: Vec<Value>,
        prints: Vec<Lines>,
        sections: Sections,
        program_facts: ProgramFacts,
        globals: Vec<Mode>,
    ) -> Code
        requires { IsGenerated (record { run = record { instructions = text.instructions.items; lines = text.lines.items; constants = constants.items; prints = prints.items; main = sections.main; routines = sections.routines.items; events = sections.events.items; depth = sections.depth }; said = program_facts; globals = globals.items }) }
        ensures { result ≡ record { run = record { instructions = text.instructions.items; lines = text.lines.items; constants = constants.items; prints = prints.items; main = sections.main; routines = sections.routines.items; events = sections.events.items; depth = sections.depth }; said = program_facts; globals = globals.items } }
    {
        Code {
            text,
            constants,
            prints,
            sections,
            program_facts,
            globals,
        }
    }

    /// Gives its memory back. To drop it in line does the same, and has the drops of its parts proved there once more.
    pub fn release(self) {
        let _released = self;
    }

    /// How many instructions there are. They are those of a program.
    pub fn len(&self) -> usize
        ensures value { result ≡ length self.now.run.instructions }
        ensures small { length self.now.run.instructions < 2 ^ 63 }
        ensures made { IsGenerated self.now }
    {
        self.text.instructions.len()
    }

    /// The instruction at a place, the first of which is 0; None after the last one.
    pub fn instruction(&self, place: usize) -> Option<Instruction>
        ensures { result ≡ slice_get self.now.run.instructions place }
    {
        self.text.instructions.get(place).copied()
    }

    /// The instructions, from the first on.
    #[inline(always)]
    pub fn instructions(&self) -> &[Instruction]
        ensures { result.now ≡ self.now.run.instructions }
    {
        &self.text.instructions
    }

    /// The line of the statement of each instruction.
    pub fn lines(&self) -> &[Line]
        ensures { result.now ≡ self.now.run.lines }
    {
        &self.text.lines
    }

    /// The constants. They lie after the global variables.
    pub fn constants(&self) -> &[Value]
        ensures { result.now ≡ self.now.run.constants }
    {
        &self.constants
    }

    /// The lines of each PRINT, by the number that its instruction has.
    pub fn prints(&self) -> &[Lines]
        ensures { result.now ≡ self.now.run.prints }
    {
        &self.prints
    }

    /// Where MAIN begins.
    pub fn main(&self) -> &SectionEntry
        ensures { result.now ≡ self.now.run.main }
    {
        &self.sections.main
    }

    /// Where the routines begin, by their numbers.
    #[inline(always)]
    pub fn routines(&self) -> &[SectionEntry]
        ensures { result.now ≡ self.now.run.routines }
    {
        &self.sections.routines
    }

    /// Where the routines of the events begin, by the ranks of their classes.
    #[inline(always)]
    pub fn events(&self) -> &[SectionEntry]
        ensures { result.now ≡ self.now.run.events }
    {
        &self.sections.events
    }

    /// The most cells that a frame has: each frame has room for so many above its variables.
    pub fn depth(&self) -> usize
        ensures { result ≡ self.now.run.depth }
    {
        self.sections.depth
    }

    /// The classes and sets.
    pub fn layout(&self) -> &Layout
        ensures { result.now ≡ self.now.said.layout }
    {
        &self.program_facts.layout
    }

    /// The disciplines of the sets, by their numbers.
    pub fn disciplines(&self) -> &[Discipline]
        ensures { result.now ≡ self.now.said.setting.disciplines }
    {
        &self.program_facts.disciplines
    }

    /// The classes of notices, in the order in which they come at one time.
    pub fn notices(&self) -> &[NoticeClass]
        ensures { result.now ≡ self.now.said.setting.notices }
    {
        &self.program_facts.notices
    }

    /// The shapes of the ties of each class of notices, in the same order.
    pub fn ties(&self) -> &[Vec<TieShape>]
        ensures { map (λ shapes. shapes.items) result.now ≡ self.now.said.ties }
    {
        &self.program_facts.ties
    }

    /// The statistics, by their numbers.
    pub fn statistics(&self) -> &[Statistic]
        ensures { result.now ≡ self.now.said.setting.statistics }
    {
        &self.program_facts.statistics
    }

    /// The modes of the global variables.
    pub fn globals(&self) -> &[Mode]
        ensures { result.now ≡ self.now.globals }
    {
        &self.globals
    }

    /// A line for each instruction: its number from 0, a blank, what it is called, and what it works on. The error comes
    /// where memory was refused.
    pub fn listing(&self, alloc: Global) -> Result<Vec<u8>, AllocError>
        ensures lines { IfOk result (λ text. AreLines (length self.now.run.instructions) text.items) }
    {
        listing(
            alloc,
            &self.text.instructions,
            &self.constants,
            self.globals.len(),
        )
    }
}
