//! Sections and programs.

use crate::preamble::{ModeWord, PreambleStatement};
use crate::statement::Statement;
use ss_base::{Line, Name};

/// A DEFINE at the head of a section's body.
#[derive(Drop)]
pub struct LocalDefinition {
    pub line: Line,
    pub names: Vec<Name>,
    pub mode: ModeWord,
}

/// What a section is.
#[derive(Drop)]
pub enum SectionKind {
    Main,
    Routine {
        name: Name,
        given: Vec<Name>,
        yielding: Vec<Name>,
    },
    Event {
        name: Name,
        given: Vec<Name>,
        /// SAVING THE EVENT NOTICE.
        saving: bool,
    },
}

/// A section: MAIN, a routine or an event routine.
#[derive(Drop)]
pub struct Section {
    pub line: Line,
    pub kind: SectionKind,
    pub definitions: Vec<LocalDefinition>,
    pub body: Vec<Statement>,
}

/// A program. Where it has no preamble, or an empty one, `preamble` is empty.
#[derive(Drop)]
pub struct Program {
    pub preamble: Vec<PreambleStatement>,
    pub sections: Vec<Section>,
}
