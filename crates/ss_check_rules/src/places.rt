//! The rules on named places and on modes.

ghost use Rattle.std.specs.Prelude.{◌≡◌, ◌+◌, ◌&&◌, ◌||◌, not, option_and_then, slice_get};
ghost use Rattle.ss_names_scopes.specs.Seen.{view_scope};
ghost use Rattle.ss_check_rules.specs.declared.error.CheckError.TheVariants as e;
ghost use Rattle.ss_check_rules.specs.Kinds.{if_means, is_mean, is_target, takes_values};
ghost use Rattle.ss_check_rules.specs.Modes.{attribute_mode, differ, is_mean_as_value, is_text, mixes_modes, meaning_mode, mode_of_use};
ghost use Rattle.ss_names.specs.declared.entry.RoutineSection.{RoutineSection as SectionSeen};
ghost use Rattle.ss_names.specs.Table.{mode_of_attribute};
ghost use Rattle.ss_names_declarations.specs.Earliest.{unless};
ghost use Rattle.ss_names_declarations.specs.NameTable.{place_in};
ghost use Rattle.ss_check_rules.specs.Refusal.{class_breaks, meaning_breaks, place_breaks};
ghost use Rattle.ss_names_scopes.specs.Scopes.{meaning_of, parameter_mode};

use crate::counts::routine_named;
use crate::error::{CheckError, unless};
use crate::kinds::{
    if_mean, is_mean, meaning_in_role, suits, suits_class, suits_subscripts, takes_values,
};
use ss_base::{Line, Mode, Name};
use ss_names::{Meaning, Names, RoutineSection};
use ss_names_scopes::{Scope, mode_of};
use ss_names_uses::{ClassNeed, ModeOf, Role};
use ss_tree::expression::Designator;

// ---- modes

// The mode of what a name means, if it means anything.
fn meaning_mode(meaning: Option<Meaning>) -> Option<Mode>
    ensures { result ≡ meaning_mode meaning }
{
    match meaning {
        Some(meaning) => mode_of(meaning),
        None => None,
    }
}

// The mode of what a routine is given in this place.
fn given_mode(scope: &Scope<'_>, routine: Option<RoutineSection>, place: usize) -> Option<Mode>
    ensures { result ≡ option_and_then (λ (r : SectionSeen). parameter_mode (view_scope scope.now) r.section place) routine }
{
    match routine {
        Some(routine) => scope.parameter_mode(routine.section, place),
        None => None,
    }
}

// The mode of what a routine yields in this place.
fn yielded_mode(scope: &Scope<'_>, routine: Option<RoutineSection>, place: usize) -> Option<Mode>
    ensures { result ≡ option_and_then (λ (r : SectionSeen). parameter_mode (view_scope scope.now) r.section (r.given + place)) routine }
{
    match routine {
        Some(routine) => scope.yielded_mode(routine.section, routine.given, place),
        None => None,
    }
}

// The mode of an attribute.
fn mode_of_attribute(names: &Names, attribute: &Name) -> Option<Mode>
    ensures { result ≡ mode_of_attribute names.now attribute.now }
{
    match names.attributes.get(attribute).copied() {
        Some(attribute) => Some(attribute.mode),
        None => None,
    }
}

// The name in this place.
fn name_at(row: &[Name], place: usize) -> Option<Name>
    ensures { result ≡ slice_get row.now place }
{
    row.get(place).copied()
}

// The mode of the attribute of a class in a place.
fn attribute_mode(names: &Names, class: &Name, place: usize) -> Option<Mode>
    ensures { result ≡ attribute_mode names.now (place_in names.now.classes class.now) place }
{
    match names.classes.place(class) {
        Some(class) => match name_at(names.attributes_of(class), place) {
            Some(name) => mode_of_attribute(names, &name),
            None => None,
        },
        None => None,
    }
}

// The mode that a use says, if there is one.
fn mode_of_use(scope: &Scope<'_>, mode: &ModeOf) -> Option<Mode>
    ensures { result ≡ mode_of_use (view_scope scope.now) mode.now }
{
    let names = scope.names;
    match mode {
        ModeOf::Integer => Some(Mode::Integer),
        ModeOf::Alpha => Some(Mode::Alpha),
        ModeOf::Named(name) => meaning_mode(scope.meaning_of_name(name)),
        ModeOf::Given { routine, place } => {
            given_mode(scope, routine_named(names, routine), *place)
        }
        ModeOf::Yielded { routine, place } => {
            yielded_mode(scope, routine_named(names, routine), *place)
        }
        ModeOf::Attribute { class, place } => attribute_mode(names, class, *place),
    }
}

// Whether two modes are joined, where there are two.
fn differ(a: Option<Mode>, b: Option<Mode>) -> bool
    ensures { result ≡ differ a b }
{
    match a {
        Some(Mode::Integer) => matches!(b, Some(Mode::Alpha)),
        Some(Mode::Alpha) => matches!(b, Some(Mode::Integer)),
        None => false,
    }
}

/// The breach of two modes that have to be the same.
pub fn same_breaks(
    scope: &Scope<'_>,
    line: Line,
    found: &ModeOf,
    wanted: &ModeOf,
) -> Option<CheckError>
    ensures { result ≡ unless (not (differ (mode_of_use (view_scope scope.now) found.now) (mode_of_use (view_scope scope.now) wanted.now))) (e.Mode line) }
{
    let joined = differ(mode_of_use(scope, found), mode_of_use(scope, wanted));
    unless(!joined, CheckError::Mode(line))
}

/// Whether what a name means is a text.
pub fn is_text(meaning: Option<Meaning>) -> bool
    ensures { result ≡ is_text meaning }
{
    differ(meaning_mode(meaning), Some(Mode::Integer))
}

// Whether it is a MEAN as a value.
fn is_mean_as_value(role: Role, meaning: Meaning) -> bool
    ensures { result ≡ is_mean_as_value role meaning }
{
    match role {
        Role::Value => is_mean(meaning),
        _ => false,
    }
}

// Whether a place breaks the rule on modes: a text where a number has to be, a MEAN where a value has to be, or an entity that
// is in a variable of texts.
fn mixes_modes(
    scope: &Scope<'_>,
    role: Role,
    meaning: Meaning,
    subscripts: usize,
    number: bool,
) -> bool
    ensures { result ≡ mixes_modes (view_scope scope.now) role meaning subscripts number }
{
    let text = is_text(Some(meaning));
    let mean = is_mean_as_value(role, meaning);
    let implied = is_text(scope.implied(meaning));
    (number && text) || mean || (subscripts == 0 && implied)
}

// ---- places

// Whether a place is a target that takes no values.
fn is_fixed(role: Role, meaning: Meaning) -> bool
    ensures { result ≡ (is_target role && not (takes_values meaning)) }
{
    match role {
        Role::Target => !takes_values(meaning),
        _ => false,
    }
}

// The first of the rules after its kind that a place in a role breaks, which means this.
fn meaning_breaks(
    scope: &Scope<'_>,
    line: Line,
    role: Role,
    subscripts: usize,
    number: bool,
    meaning: Option<Meaning>,
) -> Option<CheckError>
    ensures { result ≡ meaning_breaks (view_scope scope.now) line role subscripts number meaning }
{
    let Some(meaning) = meaning else {
        return None;
    };
    if !suits_subscripts(scope.names, meaning, subscripts) {
        return Some(CheckError::Subscript(line));
    }
    if is_fixed(role, meaning) {
        return Some(CheckError::NotAssignable(line));
    }
    unless(
        !mixes_modes(scope, role, meaning, subscripts, number),
        CheckError::Mode(line),
    )
}

/// The first of the rules that a place in a role breaks.
pub fn place_breaks(
    scope: &Scope<'_>,
    line: Line,
    role: Role,
    place: &Designator,
    subscripts: usize,
    number: bool,
) -> Option<CheckError>
    ensures { result ≡ place_breaks (view_scope scope.now) line role place.now subscripts number }
{
    if suits(scope, role, place) {
        let meaning = meaning_in_role(scope, role, place);
        meaning_breaks(scope, line, role, subscripts, number, meaning)
    } else {
        Some(CheckError::Unknown(line))
    }
}

// Whether an entity is named, or that in the variable of its class is a number.
fn is_number(called: bool, meaning: Option<Meaning>) -> bool
    ensures { result ≡ (called || not (is_text meaning)) }
{
    called || !is_text(meaning)
}

/// The first of the rules that a class breaks: it is of another kind, or its entity is in a variable of texts.
pub fn class_breaks(
    scope: &Scope<'_>,
    line: Line,
    need: ClassNeed,
    class: &Name,
    called: bool,
) -> Option<CheckError>
    ensures { result ≡ class_breaks (view_scope scope.now) line need class.now called }
{
    if suits_class(scope.names.meaning(class), need) {
        let meaning = scope.meaning_of_name(class);
        unless(is_number(called, meaning), CheckError::Mode(line))
    } else {
        Some(CheckError::Unknown(line))
    }
}

/// The breach of an item that has to be a MEAN.
pub fn mean_breaks(scope: &Scope<'_>, line: Line, place: &Designator) -> Option<CheckError>
    ensures { result ≡ unless (if_means is_mean (meaning_of (view_scope scope.now) place.now)) (e.Fields line) }
{
    unless(if_mean(scope.meaning(*place)), CheckError::Fields(line))
}
