//! Which statistics are about a subject.

ghost use Rattle.std.specs.Prelude.{◌≡◌, ◌++◌, ◌∷◌, [], OnOk, IfOk, if◌then◌else◌};
ghost use Rattle.ss_meaning.specs.Histories.{same_subject};
ghost use Rattle.ss_program.specs.declared.sections.Subject.{Subject as TheSubject};
ghost use Rattle.ss_program.specs.declared.sections.Subject.TheVariants.{OfAttribute, OfCount};
ghost use Rattle.ss_stats_histories.specs.Places.{places_where, is_about, place_found};

use crate::table::{Grid, HistoryTable};
use ss_program::sections::{Statistic, Subject};
use std::alloc::{AllocError, Global};
use std::marker::Model;

/// Numbers under each subject.
#[derive(Drop)]
struct SubjectTables {
    variables: HistoryTable,
    attributes: Grid,
    sets: HistoryTable,
}

impl SubjectTables {
    fn new(alloc: Global) -> SubjectTables
        ensures { (s : TheSubject) → place_found s result.variables result.attributes result.sets ≡ [] }
    {
        SubjectTables {
            variables: HistoryTable::new(alloc),
            attributes: Grid::new(alloc),
            sets: HistoryTable::new(alloc),
        }
    }

    /// The numbers under a subject.
    #[inline(always)]
    fn at(&self, subject: Subject) -> &[usize]
        ensures { result.now ≡ place_found subject self.now.variables self.now.attributes self.now.sets }
    {
        match subject {
            Subject::OfVariable { number } => self.variables.at(number as usize),
            Subject::OfAttribute { class, field } => {
                self.attributes.at(class as usize, field as usize)
            }
            Subject::OfCount { set } => self.sets.at(set as usize),
        }
    }

    /// The numbers under N. of a set.
    #[inline(always)]
    fn at_count(&self, set: usize) -> &[usize]
        ensures { result.now ≡ place_found (OfCount set) self.now.variables self.now.attributes self.now.sets }
    {
        self.sets.at(set)
    }

    /// Puts one number more under a subject. The error comes where memory was refused.
    fn add(&mut self, alloc: Global, subject: Subject, place: usize) -> Result<(), AllocError>
        ensures { OnOk result ((s : TheSubject) → place_found s self.new.variables self.new.attributes self.new.sets ≡ (if same_subject subject s then place_found s self.old.variables self.old.attributes self.old.sets ++ place ∷ [] else place_found s self.old.variables self.old.attributes self.old.sets)) }
    {
        match subject {
            Subject::OfVariable { number } => self.variables.add(alloc, number as usize, place),
            Subject::OfAttribute { class, field } => {
                self.attributes
                    .add(alloc, class as usize, field as usize, place)
            }
            Subject::OfCount { set } => self.sets.add(alloc, set as usize, place),
        }
    }
}

/// The places of the statistics of each subject among all statistics. A contract sees it as all statistics.
#[derive(Drop)]
pub(crate) struct About {
    statistics: Vec<Statistic>,
    tables: SubjectTables,
}

impl Model for About {
    ghost use Rattle.std.specs.Prelude.{◌≡◌, List};
    ghost use Rattle.ss_program.specs.declared.sections.Statistic.{Statistic};
    ghost use Rattle.ss_program.specs.declared.sections.Subject.{Subject};
    ghost use Rattle.ss_stats_histories.specs.Places.{places_where, is_about, place_found};

    ghost Value = { List Statistic };

    ghost view = { λ a. a.statistics.items };

    ghost invariant = { λ a. (s : Subject) → place_found s a.tables.variables a.tables.attributes a.tables.sets ≡ places_where (is_about s) a.statistics.items };
}

impl About {
    /// These statistics. The error comes where memory was refused.
    pub(crate) fn new(alloc: Global, statistics: &[Statistic]) -> Result<About, AllocError>
        ensures { IfOk result (λ a. a ≡ statistics.now) }
    {
        let copied = Vec::from_slice(alloc, statistics)?;
        let tables = tables_of(alloc, statistics)?;
        Ok(About {
            statistics: copied,
            tables,
        })
    }

    /// The places of the statistics of a subject.
    #[inline(always)]
    pub(crate) fn places(&self, subject: Subject) -> &[usize]
        ensures { result.now ≡ places_where (is_about subject) self.now }
    {
        self.tables.at(subject)
    }

    /// The places of the statistics of N. of a set.
    #[inline(always)]
    pub(crate) fn count_places(&self, set: usize) -> &[usize]
        ensures { result.now ≡ places_where (is_about (OfCount set)) self.now }
    {
        self.tables.at_count(set)
    }
}

// The places of the statistics of each subject.
fn tables_of(alloc: Global, statistics: &[Statistic]) -> Result<SubjectTables, AllocError>
    ensures { IfOk result (λ t. (s : TheSubject) → place_found s t.variables t.attributes t.sets ≡ places_where (is_about s) statistics.now) }
{
    let mut tables = SubjectTables::new(alloc);
    for (place, statistic) in statistics.iter().enumerate() {
        tables.add(alloc, statistic.subject, place)?;
    }
    Ok(tables)
}
