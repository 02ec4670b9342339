//! The kinds of names that places need, their subscripts, and what takes values.

ghost use Rattle.std.specs.Prelude.{◌≡◌};
ghost use Rattle.ss_names_scopes.specs.Seen.{view_scope};
ghost use Rattle.ss_names_uses.specs.declared.used.Role.TheVariants as roles;
ghost use Rattle.ss_check_rules.specs.Kinds.{has_value, if_means, is_mean, is_routine, is_set, is_variable, may_be_watched, meaning_in_role, suits, suits_class, suits_subscripts, takes_values};

use ss_base::Owner;
use ss_names::{Meaning, Names};
use ss_names_scopes::{Scope, is_kind, variable_of};
use ss_names_uses::{ClassNeed, Role};
use ss_program::expression::SetQuery;
use ss_tree::expression::Designator;

// ---- kinds

// Whether a name means what may be a value or a target: all but sets and routines.
fn if_value(meaning: Option<Meaning>) -> bool
    ensures { result ≡ if_means has_value meaning }
{
    match meaning {
        Some(Meaning::Set { .. }) => false,
        Some(Meaning::Routine { .. }) => false,
        Some(_) => true,
        None => false,
    }
}

// Whether a name means a variable.
fn if_variable(meaning: Option<Meaning>) -> bool
    ensures { result ≡ if_means is_variable meaning }
{
    match meaning {
        Some(meaning) => variable_of(meaning).is_some(),
        None => false,
    }
}

// Whether a name means a set.
fn if_set(meaning: Option<Meaning>) -> bool
    ensures { result ≡ if_means is_set meaning }
{
    match meaning {
        Some(Meaning::Set { .. }) => true,
        Some(_) => false,
        None => false,
    }
}

/// Whether a name means a routine.
pub fn if_routine(meaning: Option<Meaning>) -> bool
    ensures { result ≡ if_means is_routine meaning }
{
    match meaning {
        Some(Meaning::Routine { .. }) => true,
        Some(_) => false,
        None => false,
    }
}

/// Whether it is a MEAN.
pub fn is_mean(meaning: Meaning) -> bool
    ensures { result ≡ is_mean meaning }
{
    match meaning {
        Meaning::Statistic { fold: None, .. } => true,
        _ => false,
    }
}

/// Whether a name means a MEAN.
pub fn if_mean(meaning: Option<Meaning>) -> bool
    ensures { result ≡ if_means is_mean meaning }
{
    match meaning {
        Some(meaning) => is_mean(meaning),
        None => false,
    }
}

/// Whether a TALLY or an ACCUMULATE may be of what a name means: a global variable of a DEFINE, an attribute or N. of a set.
pub fn if_watched(meaning: Option<Meaning>) -> bool
    ensures { result ≡ if_means may_be_watched meaning }
{
    match meaning {
        Some(Meaning::Variable { .. }) => true,
        Some(Meaning::Attribute { .. }) => true,
        Some(
            Meaning::OfSet {
                query: SetQuery::MemberCount,
                ..
            },
        ) => true,
        Some(_) => false,
        None => false,
    }
}

// What a place means as a set.
fn meaning_as_set(scope: &Scope<'_>, place: &Designator) -> Option<Meaning>
    ensures { result ≡ meaning_in_role (view_scope scope.now) roles.Set place.now }
{
    match place {
        Designator::Name(name) => scope.names.meaning(name),
        Designator::TimeV => Some(Meaning::Clock),
        Designator::TimeA => Some(Meaning::NoticeTime),
    }
}

/// What a place means in its role. No local variable hides a set.
pub fn meaning_in_role(scope: &Scope<'_>, role: Role, place: &Designator) -> Option<Meaning>
    ensures { result ≡ meaning_in_role (view_scope scope.now) role place.now }
{
    match role {
        Role::Set => meaning_as_set(scope, place),
        _ => scope.meaning(*place),
    }
}

/// Whether what is named is of the kind that its role needs.
pub fn suits(scope: &Scope<'_>, role: Role, place: &Designator) -> bool
    ensures { result ≡ suits (view_scope scope.now) role place.now }
{
    match role {
        Role::Reset => scope.history_of(place).is_some(),
        Role::Set => if_set(meaning_as_set(scope, place)),
        Role::LoopVariable => if_variable(scope.meaning(*place)),
        Role::Value => if_value(scope.meaning(*place)),
        Role::Item => if_value(scope.meaning(*place)),
        Role::Target => if_value(scope.meaning(*place)),
    }
}

/// Whether a name means a class of the kind that its place needs. No local variable hides a class.
pub fn suits_class(meaning: Option<Meaning>, need: ClassNeed) -> bool
    ensures { result ≡ suits_class meaning need }
{
    match meaning {
        Some(Meaning::Class { kind, .. }) => is_kind(need, kind),
        Some(_) => false,
        None => false,
    }
}

// ---- subscripts and targets

/// Whether so many subscripts may be written: TIME.A takes one always, what each entity of a class has takes one or none, and
/// anything else none.
pub fn suits_subscripts(names: &Names, meaning: Meaning, subscripts: usize) -> bool
    ensures { result ≡ suits_subscripts names.now meaning subscripts }
{
    match meaning {
        Meaning::NoticeTime => subscripts == 1,
        _ => match names.owner_of(meaning) {
            Owner::System => subscripts == 0,
            Owner::Class(_) => subscripts <= 1,
        },
    }
}

/// Whether it takes values: a variable, an attribute or N. of a class.
pub fn takes_values(meaning: Meaning) -> bool
    ensures { result ≡ takes_values meaning }
{
    match meaning {
        Meaning::Variable { .. } => true,
        Meaning::Class { .. } => true,
        Meaning::Count { .. } => true,
        Meaning::Attribute { .. } => true,
        _ => false,
    }
}
