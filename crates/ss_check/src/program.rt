//! Whole programs.

ghost use Rattle.std.specs.Prelude.{◌≡◌, map, IfOk};
ghost use Rattle.std.specs.List.{list_all, position};
ghost use Rattle.ss_tree.specs.View.{view_program_tree, view_section};
ghost use Rattle.ss_names.specs.Table.{table};
ghost use Rattle.ss_names_scopes.specs.Locals.{locals_of};
ghost use Rattle.ss_program.specs.View.{view_program};
ghost use Rattle.std.specs.Option.{option_map};
ghost use Rattle.ss_names_meaning.specs.Answers.{HasGiven};
ghost use Rattle.ss_names_meaning.specs.Resolved.{is_known, main_from, resolved_with_locals};
ghost use Rattle.ss_names_scopes.specs.Scopes.{is_main_section};
ghost use Rattle.ss_check.specs.Checking.{resolved_program};
ghost use Rattle.ss_check.specs.View.{locals_in, parts_in, sections_in, table_of_sections, view_parts};

use crate::sections::{Parts, ProgramSections};
use ss_names::Names;
use ss_names_meaning::{ResolveError, lay_out};
use ss_names_scopes::{Locals, is_main};
use ss_program::sections::Program as Resolved;
use ss_tree::program::{Program, Section, SectionKind};
use std::alloc::{AllocError, Global};

// Whether a section, if it is an EVENT section, is one of a notice class.
fn is_known(names: &Names, section: &Section) -> bool
    ensures { result ≡ is_known names.now (view_section section.now) }
{
    match &section.kind {
        SectionKind::Event { name, .. } => names.is_notice(name),
        SectionKind::Main => true,
        SectionKind::Routine { .. } => true,
    }
}

// Whether that holds of all sections.
fn all_known(names: &Names, sections: &[Section]) -> bool
    ensures { result ≡ list_all (is_known names.now) (map view_section sections.now) }
{
    let mut all = true;
    for section in sections {
        all = all && is_known(names, section);
    }
    all
}

// The number of MAIN, the first if there are several.
fn main_number(sections: &[Section]) -> Option<usize>
    ensures { result ≡ position (λ s. is_main_section (view_section s)) sections.now }
{
    sections.iter().position(|section| is_main(section))
}

impl ProgramSections<'_> {
    // The resolved section of MAIN.
    #[tactic(auto, using(crate::proofs::Found::position_viewed))]
    fn main_parts(&self) -> Result<Parts, ResolveError>
        ensures { HasGiven view_parts result (main_from (parts_in self.now) (sections_in self.now)) }
    {
        match main_number(self.sections) {
            Some(number) => self.parts_at(number),
            None => Err(ResolveError::Unresolved),
        }
    }

    // The program.
    #[tactic(auto, unfolding(ss_names_meaning::specs::Resolved::resolved_with_locals))]
    fn resolve_program(&self) -> Result<Resolved, ResolveError>
        ensures { HasGiven view_program result (resolved_with_locals (table_of_sections self.now) (locals_in self.now) (sections_in self.now)) }
    {
        let laid = lay_out(self.alloc, self.names)?;
        if !all_known(self.names, self.sections) {
            return Err(ResolveError::Unresolved);
        }
        let routines = self.resolve_routines()?;
        let events = self.resolve_events()?;
        let parts = self.main_parts()?;
        Ok(Resolved {
            layout: laid.layout,
            disciplines: laid.disciplines,
            globals: laid.globals,
            counts: laid.counts,
            statistics: laid.statistics,
            routines,
            events,
            locals: parts.modes,
            main: parts.body,
        })
    }
}

/// The program with its names resolved, by the table of its names and the local variables of each of its sections, in their
/// order. None if a name isn't of the kind that its place needs. None if a subscript is missing or too many, or a count of
/// arguments doesn't fit.
///
/// # Errors
/// `AllocError` where memory is refused.
pub(crate) fn resolve(
    alloc: Global,
    program: &Program,
    names: &Names,
    locals: &[Locals],
) -> Result<Option<Resolved>, AllocError>
    requires names { names.now ≡ table (view_program_tree program.now) }
    requires locals { locals.now ≡ map (locals_of names.now) (map view_section program.now.sections.items) }
    ensures { IfOk result (λ p. option_map view_program p ≡ resolved_program (view_program_tree program.now)) }
{
    let all = ProgramSections {
        alloc,
        names,
        locals,
        sections: &program.sections,
    };
    match all.resolve_program() {
        Ok(resolved) => Ok(Some(resolved)),
        Err(ResolveError::Unresolved) => Ok(None),
        Err(ResolveError::Memory) => Err(AllocError),
    }
}
