//! Event routines.

ghost use Rattle.std.specs.Prelude.{◌≡◌, map, IfOk};
ghost use Rattle.ss_names_declarations.specs.NameTable.{value_for};
ghost use Rattle.ss_program.specs.View.{view_event};
ghost use Rattle.ss_names_meaning.specs.Answers.{HasGiven, each};
ghost use Rattle.ss_names_meaning.specs.Resolved.{class_event_from, event_from, event_of_class, saved};
ghost use Rattle.ss_check.specs.View.{parts_in, table_of_sections, view_parts};

use crate::sections::{Parts, ProgramSections, split};
use ss_base::{Name, RankKey, RankKeys};
use ss_names::{EventSection, Meaning, Names};
use ss_names_declarations::key_at;
use ss_names_meaning::{ResolveError, resolve_ties};
use ss_program::sections::Event;
use std::alloc::{AllocError, Global};

// The global variable that gets the number of the notice, if it is saved.
fn saved(names: &Names, class: &Name, saving: bool) -> Result<Option<usize>, ResolveError>
    ensures { HasGiven (λ x. x) result (saved names.now class.now saving) }
{
    if !saving {
        return Ok(None);
    }
    match names.meaning(class) {
        Some(Meaning::Class { variable, .. }) => Ok(Some(variable)),
        _ => Err(ResolveError::Unresolved),
    }
}

// The event routine of a class that is given so many values.
fn event_of_class(
    alloc: Global,
    class: usize,
    ties: Vec<RankKey>,
    given: usize,
    saved: Option<usize>,
    parts: Parts,
) -> Result<Event, AllocError>
    ensures { IfOk result (λ e. view_event e ≡ event_of_class class ties.items given saved (view_parts parts)) }
{
    let (given, others) = split(&parts.modes, given);
    let given = Vec::from_slice(alloc, given)?;
    let others = Vec::from_slice(alloc, others)?;
    Ok(Event {
        class,
        ties: RankKeys::new(ties),
        line: parts.line,
        given,
        others,
        saved,
        body: parts.body,
    })
}

// The EVENT section of a class of notices.
fn event_section(names: &Names, name: &Name) -> Option<EventSection>
    ensures { result ≡ value_for names.now.events name.now }
{
    names.events.get(name).copied()
}

impl ProgramSections<'_> {
    // A notice class of this name with its EVENT section.
    fn class_event(
        &self,
        class: usize,
        name: &Name,
        known: EventSection,
    ) -> Result<Event, ResolveError>
        ensures { HasGiven view_event result (class_event_from (table_of_sections self.now) (parts_in self.now) class name.now known) }
    {
        if self.names.attributes_of(class).len() < known.given {
            return Err(ResolveError::Unresolved);
        }
        let ties = resolve_ties(self.alloc, self.names, class, *name)?;
        let saved = saved(self.names, name, known.saving)?;
        let parts = self.parts_at(known.section)?;
        let event = event_of_class(self.alloc, class, ties, known.given, saved, parts)?;
        Ok(event)
    }

    // The notice class of this number.
    fn resolve_event(&self, class: usize) -> Result<Event, ResolveError>
        ensures { HasGiven view_event result (event_from (table_of_sections self.now) (parts_in self.now) class) }
    {
        let names = self.names;
        let Some(name) = key_at(&names.classes, class) else {
            return Err(ResolveError::Unresolved);
        };
        let Some(known) = event_section(names, &name) else {
            return Err(ResolveError::Unresolved);
        };
        self.class_event(class, &name, known)
    }

    // Notice classes.
    fn events_of(&self, trees: &[usize]) -> Result<Vec<Event>, ResolveError>
        ensures { HasGiven (λ v. map view_event v.items) result (each (event_from (table_of_sections self.now) (parts_in self.now)) trees.now) }
    {
        let mut resolved = Vec::new(self.alloc);
        for tree in trees {
            let one = self.resolve_event(*tree)?;
            resolved.push(one)?;
        }
        Ok(resolved)
    }

    /// The notice classes with their event routines, in the order of rank.
    pub(crate) fn resolve_events(&self) -> Result<Vec<Event>, ResolveError>
        ensures { HasGiven (λ v. map view_event v.items) result (each (event_from (table_of_sections self.now) (parts_in self.now)) (table_of_sections self.now).ranks) }
    {
        let names = self.names;
        self.events_of(names.ranks.as_slice())
    }
}
