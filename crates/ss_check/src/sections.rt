//! Sections with their names resolved.

ghost use Rattle.std.specs.Prelude.{◌≡◌, drop, take};
ghost use Rattle.ss_tree.specs.View.{view_section};
ghost use Rattle.ss_program.specs.View.{view_body};
ghost use Rattle.ss_names_meaning.specs.Answers.{HasGiven};
ghost use Rattle.ss_names_scopes.specs.Scopes.{local_mode};
ghost use Rattle.ss_names_meaning.specs.Resolved.{resolved_body, local_modes, parts_with};
ghost use Rattle.ss_check.specs.View.{locals_in, parts_in, table_of_sections, view_parts};

use ss_base::{Line, Mode};
use ss_check_bodies::Resolver;
use ss_names::Names;
use ss_names_meaning::ResolveError;
use ss_names_scopes::{Locals, Scope};
use ss_program::statement::Statement;
use ss_tree::program::Section;
use std::alloc::Global;

/// What is resolved: the sections of a program with the local variables of each, by its table. What is made is in memory of this
/// allocator.
#[derive(Clone, Copy)]
pub(crate) struct ProgramSections<'a> {
    pub(crate) alloc: Global,
    pub(crate) names: &'a Names,
    pub(crate) locals: &'a [Locals],
    pub(crate) sections: &'a [Section],
}

/// A resolved section: the line of its head, the modes of its local variables, and its statements.
#[derive(Drop)]
pub(crate) struct Parts {
    pub(crate) line: Line,
    pub(crate) modes: Vec<Mode>,
    pub(crate) body: Vec<Statement>,
}

// The mode of the local variable of this number.
fn local_mode(locals: &Locals, number: usize) -> Result<Mode, ResolveError>
    ensures { HasGiven (λ x. x) result (local_mode locals.now number) }
{
    let Some(known) = locals.mode_at(number) else {
        return Err(ResolveError::Unresolved);
    };
    match known {
        Some(mode) => Ok(mode),
        None => Err(ResolveError::Unresolved),
    }
}

// The modes of the local variables, in the order of their numbers.
fn local_modes(alloc: Global, locals: &Locals) -> Result<Vec<Mode>, ResolveError>
    ensures { HasGiven (λ v. v.items) result (local_modes locals.now) }
{
    let mut resolved = Vec::new(alloc);
    for number in 0..locals.len() {
        let one = local_mode(locals, number)?;
        resolved.push(one)?;
    }
    Ok(resolved)
}

impl ProgramSections<'_> {
    // The statements of a section with these local variables.
    fn resolve_statements(
        &self,
        locals: &Locals,
        section: &Section,
    ) -> Result<Vec<Statement>, ResolveError>
        ensures { HasGiven (λ v. view_body v.items) result (resolved_body (table_of_sections self.now) (locals_in self.now) locals.now (view_section section.now)) }
    {
        let scope = Scope {
            names: self.names,
            locals,
            sections: self.locals,
        };
        let resolver = Resolver {
            alloc: self.alloc,
            scope,
        };
        resolver.resolve_body(&section.body)
    }

    // A section with these local variables.
    fn parts_with(&self, locals: &Locals, section: &Section) -> Result<Parts, ResolveError>
        ensures { HasGiven view_parts result (parts_with (table_of_sections self.now) (locals_in self.now) locals.now (view_section section.now)) }
    {
        let modes = local_modes(self.alloc, locals)?;
        let body = self.resolve_statements(locals, section)?;
        Ok(Parts {
            line: section.line,
            modes,
            body,
        })
    }

    /// The section of this number.
    pub(crate) fn parts_at(&self, number: usize) -> Result<Parts, ResolveError>
        ensures { HasGiven view_parts result (parts_in self.now number) }
    {
        let Some(section) = self.sections.get(number) else {
            return Err(ResolveError::Unresolved);
        };
        let Some(locals) = self.locals.get(number) else {
            return Err(ResolveError::Unresolved);
        };
        self.parts_with(locals, section)
    }
}

/// The first of some modes, as many as these, and the others.
pub(crate) fn split(modes: &[Mode], count: usize) -> (&[Mode], &[Mode])
    ensures first { result.0.now ≡ take count modes.now }
    ensures others { result.1.now ≡ drop count modes.now }
{
    if count <= modes.len() {
        modes.split_at(count)
    } else {
        (modes, &[])
    }
}
