//! Routines.

ghost use Rattle.std.specs.Prelude.{◌≡◌, map, IfOk};
ghost use Rattle.std.specs.Map.{values_of};
ghost use Rattle.ss_program.specs.View.{view_routine};
ghost use Rattle.ss_names_meaning.specs.Answers.{HasGiven, each};
ghost use Rattle.ss_names_meaning.specs.Resolved.{routine_from, routine_of};
ghost use Rattle.ss_check.specs.View.{parts_in, table_of_sections, view_parts};

use crate::sections::{Parts, ProgramSections, split};
use ss_names::RoutineSection;
use ss_names_meaning::ResolveError;
use ss_program::sections::Routine;
use std::alloc::{AllocError, Global};

// A routine that is given and yields so many values.
fn routine_of(
    alloc: Global,
    given: usize,
    yielding: usize,
    parts: Parts,
) -> Result<Routine, AllocError>
    ensures { IfOk result (λ r. view_routine r ≡ routine_of given yielding (view_parts parts)) }
{
    let (given, rest) = split(&parts.modes, given);
    let (yielding, others) = split(rest, yielding);
    let given = Vec::from_slice(alloc, given)?;
    let yielding = Vec::from_slice(alloc, yielding)?;
    let others = Vec::from_slice(alloc, others)?;
    Ok(Routine {
        given,
        yielding,
        others,
        body: parts.body,
    })
}

impl ProgramSections<'_> {
    // A routine.
    fn resolve_routine(&self, known: &RoutineSection) -> Result<Routine, ResolveError>
        ensures { HasGiven view_routine result (routine_from (parts_in self.now) known.now) }
    {
        let parts = self.parts_at(known.section)?;
        let routine = routine_of(self.alloc, known.given, known.yielding, parts)?;
        Ok(routine)
    }

    // Routines.
    fn routines_of(&self, trees: &[RoutineSection]) -> Result<Vec<Routine>, ResolveError>
        ensures { HasGiven (λ v. map view_routine v.items) result (each (routine_from (parts_in self.now)) trees.now) }
    {
        let mut resolved = Vec::new(self.alloc);
        for tree in trees {
            let one = self.resolve_routine(tree)?;
            resolved.push(one)?;
        }
        Ok(resolved)
    }

    /// The routines, by their numbers.
    pub(crate) fn resolve_routines(&self) -> Result<Vec<Routine>, ResolveError>
        ensures { HasGiven (λ v. map view_routine v.items) result (each (routine_from (parts_in self.now)) (values_of (table_of_sections self.now).routines)) }
    {
        let names = self.names;
        self.routines_of(names.routines.values())
    }
}
