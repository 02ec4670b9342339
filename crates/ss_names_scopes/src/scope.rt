//! What a name means in a section.

ghost use Rattle.ss_names_scopes.specs.Seen.{view_scope};
ghost use Rattle.std.specs.Prelude.{◌≡◌, ◌+◌, slice_get};
ghost use Rattle.std.specs.Map.{values_of};
ghost use Rattle.ss_tree.specs.View.{view_section};
ghost use Rattle.ss_names_scopes.specs.Scopes.{history_of, implied, is_kind, is_main_section, known_mode, meaning_of, meaning_of_class, meaning_of_name, local_mode_at, mode_given, mode_of_meaning, parameter_mode, variable_of};

use crate::locals::Locals;
use ss_base::{ClassKind, Mode, Name, Owner};
use ss_names::{Meaning, Names};
use ss_names_declarations::key_at;
use ss_names_uses::ClassNeed;
use ss_program::expression::Variable;
use ss_tree::expression::Designator;
use ss_tree::program::{Section, SectionKind};

/// A section of a program: the table, the local variables of the section, and those of all sections.
#[derive(Clone, Copy)]
pub struct Scope<'a> {
    pub names: &'a Names,
    pub locals: &'a Locals,
    pub sections: &'a [Locals],
}

// The mode of a local variable. A name without any is refused, and counts as INTEGER.
fn known_mode(mode: Option<Option<Mode>>) -> Mode
    ensures { result ≡ known_mode mode }
{
    match mode {
        Some(Some(mode)) => mode,
        Some(None) => Mode::Integer,
        None => Mode::Integer,
    }
}

// The mode, where there are a variable and a mode of it.
fn mode_given(mode: Option<Option<Mode>>) -> Option<Mode>
    ensures { result ≡ mode_given mode }
{
    match mode {
        Some(mode) => mode,
        None => None,
    }
}

// The mode of the local variable of a number in a section.
fn mode_in_section(sections: &[Locals], section: usize, number: usize) -> Option<Mode>
    ensures { result ≡ local_mode_at (slice_get sections.now section) number }
{
    let Some(locals) = sections.get(section) else {
        return None;
    };
    mode_given(locals.mode_at(number))
}

// The mode of the parameter of a section that comes so many places after those that it is given.
fn mode_after(locals: &Locals, given: usize, place: usize) -> Option<Mode>
    ensures { result ≡ mode_given (slice_get (values_of locals.now) (given + place)) }
{
    let count = locals.len();
    if place >= count {
        return None;
    }
    if given >= count - place {
        return None;
    }
    mode_given(locals.mode_at(given + place))
}

// The mode of what the routine of a section yields in this place, after those that it is given.
fn yielded_in_section(
    sections: &[Locals],
    section: usize,
    given: usize,
    place: usize,
) -> Option<Mode>
    ensures { result ≡ local_mode_at (slice_get sections.now section) (given + place) }
{
    let Some(locals) = sections.get(section) else {
        return None;
    };
    mode_after(locals, given, place)
}

/// Whether a section is MAIN.
pub fn is_main(section: &Section) -> bool
    ensures { result ≡ is_main_section (view_section section.now) }
{
    matches!(&section.kind, SectionKind::Main)
}

/// Whether a class is of the kind that a place needs.
pub fn is_kind(need: ClassNeed, kind: ClassKind) -> bool
    ensures { result ≡ is_kind need kind }
{
    match need {
        ClassNeed::Permanent => matches!(kind, ClassKind::Permanent),
        ClassNeed::Notice => matches!(kind, ClassKind::Notice),
        ClassNeed::Single => !matches!(kind, ClassKind::Permanent),
    }
}

/// The mode of what a name means; a set and a routine have none.
pub fn mode_of(meaning: Meaning) -> Option<Mode>
    ensures { result ≡ mode_of_meaning meaning }
{
    match meaning {
        Meaning::Variable { mode, .. } => Some(mode),
        Meaning::Attribute { mode, .. } => Some(mode),
        Meaning::Set { .. } => None,
        Meaning::Routine { .. } => None,
        _ => Some(Mode::Integer),
    }
}

/// The variable that a name means: a local or a global one, or that of a class.
pub fn variable_of(meaning: Meaning) -> Option<Variable>
    ensures { result ≡ variable_of meaning }
{
    match meaning {
        Meaning::Variable { variable, .. } => Some(variable),
        Meaning::Class { variable, .. } => Some(Variable::Global { number: variable }),
        _ => None,
    }
}

impl<'a> Scope<'a> {
    /// What a name means in the section: a local variable hides what it means in the whole program.
    pub fn meaning_of_name(&self, name: &Name) -> Option<Meaning>
        ensures { result ≡ meaning_of_name (view_scope self.now) name.now }
    {
        match self.locals.number(name) {
            Some(number) => {
                let mode = known_mode(self.locals.mode(name));
                Some(Meaning::Variable {
                    variable: Variable::Local { number },
                    mode,
                })
            }
            None => self.names.meaning(name),
        }
    }

    /// What is named.
    pub fn meaning(&self, place: Designator) -> Option<Meaning>
        ensures { result ≡ meaning_of (view_scope self.now) place }
    {
        match place {
            Designator::Name(name) => self.meaning_of_name(&name),
            Designator::TimeV => Some(Meaning::Clock),
            Designator::TimeA => Some(Meaning::NoticeTime),
        }
    }

    /// What the name of a class means in the section: the variable that has an entity of the class where none is named.
    pub fn meaning_of_class(&self, class: usize) -> Option<Meaning>
        ensures { result ≡ meaning_of_class (view_scope self.now) class }
    {
        let names = self.names;
        match key_at(&names.classes, class) {
            Some(name) => self.meaning_of_name(&name),
            None => None,
        }
    }

    /// The variable that has the entity of what a name means, where no subscript is written. None where it is of no entity.
    pub fn implied(&self, meaning: Meaning) -> Option<Meaning>
        ensures { result ≡ implied (view_scope self.now) meaning }
    {
        match self.names.owner_of(meaning) {
            Owner::Class(class) => self.meaning_of_class(class),
            Owner::System => None,
        }
    }

    /// The number of the history of what is named. A name that a local variable hides has none.
    pub fn history_of(&self, place: &Designator) -> Option<usize>
        ensures { result ≡ history_of (view_scope self.now) place.now }
    {
        let names = self.names;
        match place {
            Designator::Name(name) => match self.locals.number(name) {
                Some(_) => None,
                None => names.histories.place(name),
            },
            Designator::TimeV => None,
            Designator::TimeA => None,
        }
    }

    /// The mode of the parameter of a routine of this number, the given ones before those that it yields.
    pub fn parameter_mode(&self, section: usize, number: usize) -> Option<Mode>
        ensures { result ≡ parameter_mode (view_scope self.now) section number }
    {
        mode_in_section(self.sections, section, number)
    }

    /// The mode of what a routine yields in this place, after so many that it is given.
    pub fn yielded_mode(&self, section: usize, given: usize, place: usize) -> Option<Mode>
        ensures { result ≡ parameter_mode (view_scope self.now) section (given + place) }
    {
        yielded_in_section(self.sections, section, given, place)
    }
}
