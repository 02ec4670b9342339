//! The rule on counts of arguments.

ghost use Rattle.std.specs.Prelude.{◌≡◌, ℕ, true, nat_le, length, get_or, []};
ghost use Rattle.std.specs.Option.{option_map_or};
ghost use Rattle.ss_names_declarations.specs.Earliest.{unless};
ghost use Rattle.ss_names_declarations.specs.NameTable.{place_in, value_for};
ghost use Rattle.ss_check_rules.specs.declared.error.CheckError.TheVariants as e;
ghost use Rattle.ss_check_rules.specs.Counts.{argument_count, suits_count};

use crate::error::{CheckError, unless};
use ss_base::{Line, Name};
use ss_names::{Names, RoutineSection};
use ss_names_uses::CountNeed;
use ss_tree::expression::Function;

// How many arguments a function takes.
fn argument_count(function: Function) -> usize
    ensures { result ≡ argument_count function }
{
    match function {
        Function::One(_) => 1,
        Function::Two(_) => 2,
    }
}

/// The section of a routine.
pub(crate) fn routine_named(names: &Names, routine: &Name) -> Option<RoutineSection>
    ensures { result ≡ value_for names.now.routines routine.now }
{
    names.routines.get(routine).copied()
}

// Whether a class has so many attributes at least, where the name is that of one.
fn has_attributes(names: &Names, found: usize, class: &Name) -> bool
    ensures { result ≡ option_map_or (λ (n : ℕ). nat_le found (length (get_or names.now.fields n []))) (place_in names.now.classes class.now) true }
{
    match names.classes.place(class) {
        Some(class) => found <= names.attributes_of(class).len(),
        None => true,
    }
}

// Whether so many arguments are taken.
fn suits_count(names: &Names, found: usize, wanted: &CountNeed) -> bool
    ensures { result ≡ suits_count names.now found wanted.now }
{
    match wanted {
        CountNeed::Arguments(function) => found == argument_count(*function),
        CountNeed::Given(routine) => match routine_named(names, routine) {
            Some(section) => found == section.given,
            None => true,
        },
        CountNeed::Yielded(routine) => match routine_named(names, routine) {
            Some(section) => found == section.yielding,
            None => true,
        },
        CountNeed::Attributes(class) => has_attributes(names, found, class),
    }
}

/// The breach of another count of arguments than is wanted.
pub fn count_breaks(
    names: &Names,
    line: Line,
    found: usize,
    wanted: &CountNeed,
) -> Option<CheckError>
    ensures { result ≡ unless (suits_count names.now found wanted.now) (e.Arguments line) }
{
    unless(
        suits_count(names, found, wanted),
        CheckError::Arguments(line),
    )
}
