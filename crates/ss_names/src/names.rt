//! The table of a program.

ghost use Rattle.std.specs.Prelude.{◌≡◌, ◌<◌, length, map, slice_get, get_or, option_map, unwrap_or, Some, [], IfOk};
ghost use Rattle.std.specs.Map.{keys_of};
ghost use Rattle.ss_base.specs.declared.layout.Owner.TheVariants as owners;
ghost use Rattle.ss_names_declarations.specs.NameTable.{place_in, value_for};
ghost use Rattle.ss_names.specs.Modes.{value_mode};
ghost use Rattle.ss_names.specs.Entries.{is_notice_class, row_of};
ghost use Rattle.ss_names.specs.Filling.{first_line};
ghost use Rattle.ss_names.specs.Table.{clashes, declared, owner_of_meaning, owner_kind_of_member, owner_kind_of_set, owner_of_statistic, owner_of_subject};

use crate::entry::{Attribute, EventSection, RankedBy, RoutineSection, Set, TiedBy};
use crate::filling::{empty, fill};
use crate::meaning::Meaning;
use crate::meanings::Meanings;
use ss_base::{ClassKind, Line, Mode, Name, Owner, Spelling};
use ss_names_declarations::{Declaration, Keys, Seed, Table};
use ss_program::sections::Subject;
use ss_tree::preamble::{ModeWord, Weighting};
use std::alloc::{AllocError, Global};
use std::marker::Model;

/// A global or a derived name, by its place in the table.
#[derive(Clone, Copy, Debug, PartialEq, Eq)]
pub struct NameId(pub usize);

/// The mode of a value: REAL, which is refused, counts as INTEGER.
pub fn value_mode(mode: ModeWord) -> Mode
    ensures { result ≡ value_mode mode }
{
    match mode {
        ModeWord::Integer => Mode::Integer,
        ModeWord::Alpha => Mode::Alpha,
        ModeWord::Real => Mode::Integer,
    }
}

/// What a program declares. Each thing is numbered by its place in the order of the text, from 0. Of two
/// declarations of a name the first counts.
///
/// A contract sees a record of lists (`Table`).
#[derive(Drop)]
pub struct Names {
    /// Each global and derived name, with what it means.
    pub meanings: Meanings,
    /// The mode that NORMALLY gives to every name that has none.
    pub usual: Option<Mode>,
    /// The modes that DEFINEs give.
    pub modes: Table<Name, Mode>,
    pub classes: Table<Name, ClassKind>,
    pub attributes: Table<Name, Attribute>,
    /// The attributes of each class.
    pub fields: Vec<Vec<Name>>,
    pub set_names: Keys<Name>,
    pub sets: Vec<Set>,
    /// The global variables, with their modes: those of DEFINE, the variable of each class, and N. of each permanent one.
    pub variables: Table<Spelling, Mode>,
    pub routines: Table<Name, RoutineSection>,
    pub events: Table<Name, EventSection>,
    /// The classes of notices in the order of rank: those of PRIORITY ORDER, then the others as declared.
    pub ranks: Keys<usize>,
    /// The subjects of TALLY and ACCUMULATE; each has a history.
    pub histories: Table<Name, Weighting>,
    /// What the subjects are; None for what has no history.
    pub subjects: Vec<Option<Subject>>,
    pub rank_keys: Vec<RankedBy>,
    pub tie_keys: Vec<TiedBy>,
}

impl Model for Names {
    ghost use Rattle.ss_names.specs.Table.{Table};

    ghost Value = { Table };

    ghost use Rattle.ss_names.specs.View.{view_table};

    ghost view = { view_table };
}

// THE SYSTEM, where no owner is known.
fn owner_or_system(owner: Option<Owner>) -> Owner
    ensures { result ≡ unwrap_or owner owners.System }
{
    match owner {
        None => Owner::System,
        Some(owner) => owner,
    }
}

// The row of this number, if there is one.
fn row_at(rows: &[Vec<Name>], class: usize) -> &[Name]
    ensures { result.now ≡ get_or (map row_of rows.now) class [] }
{
    match rows.get(class) {
        Some(row) => row,
        None => &[],
    }
}

impl Names {
    /// Gives its memory back. Dropped in line it would do that too, but its caller would prove the drops of its parts again.
    pub fn release(self) {
        drop(self);
    }

    /// The table of these declarations, and the first line where one of them declares a name as another thing than before. The seed
    /// is made from all names in them.
    ///
    /// # Errors
    /// `AllocError` where memory is refused.
    pub fn of(
        alloc: Global,
        seed: Seed,
        declarations: &[Declaration],
    ) -> Result<(Names, Option<Line>), AllocError>
        ensures names { IfOk result (λ made. made.0 ≡ declared declarations.now) }
        ensures clash { IfOk result (λ made. made.1 ≡ first_line (clashes declarations.now)) }
    {
        let mut names = empty(alloc, seed);
        match fill(alloc, seed, &mut names, declarations) {
            Ok(clash) => Ok((names, clash)),
            Err(error) => {
                names.release();
                Err(error)
            }
        }
    }

    /// The global or derived name of this spelling, in capitals. None where there is none.
    pub fn find(&self, spelling: &[u8]) -> Option<NameId>
        ensures { option_map (λ id. id.0) result ≡ place_in self.now.meanings spelling.now }
    {
        self.meanings.place(spelling).map(NameId)
    }

    /// How many global and derived names there are. Their places are the numbers below that.
    pub fn len(&self) -> usize
        ensures { result ≡ length self.now.meanings }
    {
        self.meanings.len()
    }

    /// The spelling of a name, which is one of this table.
    pub fn name(&self, id: NameId) -> &[u8]
        requires { id.0 < length self.now.meanings }
        ensures { slice_get (keys_of self.now.meanings) id.0 ≡ Some result.now }
    {
        self.meanings.spelling(id.0)
    }

    /// What a name means in the whole program. None if it is no global or derived name.
    pub fn meaning(&self, name: &Name) -> Option<Meaning>
        ensures { result ≡ value_for self.now.meanings name.now }
    {
        self.meanings.meaning(&Spelling::of_name(name))
    }

    /// Whether a name is that of a class of notices.
    pub fn is_notice(&self, class: &Name) -> bool
        ensures { result ≡ is_notice_class (value_for self.now.classes class.now) }
    {
        matches!(self.classes.get(class).copied(), Some(ClassKind::Notice))
    }

    /// The attributes of a class, in the order of the text.
    pub fn attributes_of(&self, class: usize) -> &[Name]
        ensures { result.now ≡ get_or self.now.fields class [] }
    {
        row_at(&self.fields, class)
    }

    /// The set of this number. None if there are not so many.
    pub fn set_at(&self, number: usize) -> Option<Set>
        ensures { result ≡ slice_get self.now.sets number }
    {
        self.sets.get(number).copied()
    }

    // What the subject of this number is.
    fn subject_at(&self, number: usize) -> Option<Option<Subject>>
        ensures { result ≡ slice_get self.now.subjects number }
    {
        self.subjects.get(number).copied()
    }

    // The owner of a set.
    fn owner_of_set(&self, set: usize) -> Owner
        ensures { result ≡ owner_kind_of_set (slice_get self.now.sets set) }
    {
        match self.set_at(set) {
            None => Owner::System,
            Some(set) => owner_or_system(set.owner),
        }
    }

    // The class of the members of a set.
    fn owner_of_member(&self, set: usize) -> Owner
        ensures { result ≡ owner_kind_of_member (slice_get self.now.sets set) }
    {
        match self.set_at(set) {
            None => Owner::System,
            Some(set) => owner_or_system(set.member.map(Owner::Class)),
        }
    }

    // Who has a subject.
    fn owner_of_subject(&self, subject: Option<Subject>) -> Owner
        ensures { result ≡ owner_of_subject self.now subject }
    {
        match subject {
            None => Owner::System,
            Some(Subject::OfVariable { .. }) => Owner::System,
            Some(Subject::OfAttribute { class, .. }) => Owner::Class(class),
            Some(Subject::OfCount { set }) => self.owner_of_set(set),
        }
    }

    // Who has a statistic.
    fn owner_of_statistic(&self, statistic: usize) -> Owner
        ensures { result ≡ owner_of_statistic self.now (slice_get self.now.subjects statistic) }
    {
        match self.subject_at(statistic) {
            None => Owner::System,
            Some(subject) => self.owner_of_subject(subject),
        }
    }

    /// Who has what a name means: each entity of a class, or else THE SYSTEM.
    pub fn owner_of(&self, meaning: Meaning) -> Owner
        ensures { result ≡ owner_of_meaning self.now meaning }
    {
        match meaning {
            Meaning::Attribute { class, .. } => Owner::Class(class),
            Meaning::Set { set } => self.owner_of_set(set),
            Meaning::OfSet { set, .. } => self.owner_of_set(set),
            Meaning::OfMember { set, .. } => self.owner_of_member(set),
            Meaning::Statistic { statistic, .. } => self.owner_of_statistic(statistic),
            _ => Owner::System,
        }
    }
}
