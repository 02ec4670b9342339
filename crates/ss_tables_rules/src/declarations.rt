//! The rules that one declaration and the table decide.

ghost use Rattle.std.specs.Prelude.{◌≡◌, ◌||◌, not, is_some};
ghost use Rattle.std.specs.List.{flat_map, fold};
ghost use Rattle.std.specs.Option.{option_or};
ghost use Rattle.ss_names_declarations.specs.Earliest.{earlier, unless};
ghost use Rattle.ss_names_declarations.specs.NameTable.{is_one_of, place_among, place_in, value_for};
ghost use Rattle.ss_names.specs.Entries.{is_notice_class};
ghost use Rattle.ss_tables_rules.specs.declared.error.TableError.TheVariants as e;
ghost use Rattle.ss_tables_rules.specs.Broken.{declaration_breaches};
ghost use Rattle.ss_tables_rules.specs.Order.{table_error_order};
ghost use Rattle.ss_tables_rules.specs.Rules.{broken_in, field_number, has_member, has_owner, is_attribute_of, is_real, is_too_many, may_be_hidden, set_by_name};

use crate::error::TableError;
use ss_base::{Line, Name};
use ss_names::{Attribute, Meaning, Names, Set};
use ss_names_declarations::{Declaration, Declared, earlier_of, has_entry};
use ss_tree::preamble::ModeWord;

// The most classes, the most sets, and the most attributes of a class.
const MOST: usize = 64;

// The breach of a rule, if it is broken.
pub(crate) fn unless(holds: bool, breach: TableError) -> Option<TableError>
    ensures { result ≡ unless holds breach }
{
    if holds { None } else { Some(breach) }
}

// The breach of one too many.
fn too_many(line: Line, number: Option<usize>) -> Option<TableError>
    ensures { result ≡ unless (not (is_too_many number)) (e.TooMany line) }
{
    match number {
        Some(number) => unless(!(MOST <= number), TableError::TooMany(line)),
        None => None,
    }
}

// The breach of REAL.
fn real_breaks(line: Line, mode: ModeWord) -> Option<TableError>
    ensures { result ≡ unless (not (is_real mode)) (e.RealMode line) }
{
    match mode {
        ModeWord::Real => Some(TableError::RealMode(line)),
        _ => None,
    }
}

// The breach of a class that is one too many.
fn number_breaks(names: &Names, line: Line, class: &Name) -> Option<TableError>
    ensures { result ≡ unless (not (is_too_many (place_in names.now.classes class.now))) (e.TooMany line) }
{
    too_many(line, names.classes.place(class))
}

// The breach of a DEFINE of what is no set.
fn order_breaks(names: &Names, line: Line, set: &Name) -> Option<TableError>
    ensures { result ≡ unless (is_one_of names.now.set_names set.now) (e.UnknownSet line) }
{
    unless(names.set_names.contains(set), TableError::UnknownSet(line))
}

// The breach of a class that is none of notices.
fn class_breaks(names: &Names, line: Line, class: &Name) -> Option<TableError>
    ensures { result ≡ unless (is_notice_class (value_for names.now.classes class.now)) (e.UnknownClass line) }
{
    unless(names.is_notice(class), TableError::UnknownClass(line))
}

// The breach of a local name that hides what may not be hidden: a variable, that of a class, or nothing may be.
fn hiding_breaks(names: &Names, line: Line, name: &Name) -> Option<TableError>
    ensures { result ≡ unless (may_be_hidden (value_for names.now.meanings name.now)) (e.Twice line) }
{
    match names.meaning(name) {
        None => None,
        Some(Meaning::Variable { .. }) => None,
        Some(Meaning::Class { .. }) => None,
        Some(_) => Some(TableError::Twice(line)),
    }
}

// Whether a name has a mode.
fn has_mode(names: &Names, name: &Name) -> bool
    ensures { result ≡ (is_some names.now.usual || is_some (value_for names.now.modes name.now)) }
{
    names.usual.is_some() || has_entry(&names.modes, name)
}

// The number of an attribute in its class.
fn field_of(attribute: Option<Attribute>) -> Option<usize>
    ensures { result ≡ field_number attribute }
{
    match attribute {
        Some(attribute) => Some(attribute.field),
        None => None,
    }
}

// An attribute that has no mode, or is one too many of its class.
fn attribute_breaks(names: &Names, line: Line, attribute: &Name) -> Option<TableError>
    ensures { result ≡ option_or (unless (is_some names.now.usual || is_some (value_for names.now.modes attribute.now)) (e.RealMode line)) (unless (not (is_too_many (field_number (value_for names.now.attributes attribute.now)))) (e.TooMany line)) }
{
    let mode = unless(has_mode(names, attribute), TableError::RealMode(line));
    let field = field_of(names.attributes.get(attribute).copied());
    mode.or(too_many(line, field))
}

// A set of this name.
pub(crate) fn set_by_name(names: &Names, set: &Name) -> Option<Set>
    ensures { result ≡ set_by_name names.now set.now }
{
    match names.set_names.place(set) {
        Some(number) => names.set_at(number),
        None => None,
    }
}

// Whether a set has an owner.
fn has_owner(set: Option<Set>) -> bool
    ensures { result ≡ has_owner set }
{
    match set {
        Some(set) => set.owner.is_some(),
        None => false,
    }
}

// Whether a set has members.
fn has_member(set: Option<Set>) -> bool
    ensures { result ≡ has_member set }
{
    match set {
        Some(set) => set.member.is_some(),
        None => false,
    }
}

// A set that has an owner and no members, or that is one too many.
fn owner_breaks(names: &Names, line: Line, set: &Name) -> Option<TableError>
    ensures { result ≡ option_or (unless (has_member (set_by_name names.now set.now)) (e.NoMember line)) (unless (not (is_too_many (place_among names.now.set_names set.now))) (e.TooMany line)) }
{
    let lacking = unless(
        has_member(set_by_name(names, set)),
        TableError::NoMember(line),
    );
    lacking.or(too_many(line, names.set_names.place(set)))
}

// A set that has members and no owner, or that is one too many.
fn member_breaks(names: &Names, line: Line, set: &Name) -> Option<TableError>
    ensures { result ≡ option_or (unless (has_owner (set_by_name names.now set.now)) (e.NoOwner line)) (unless (not (is_too_many (place_among names.now.set_names set.now))) (e.TooMany line)) }
{
    let lacking = unless(
        has_owner(set_by_name(names, set)),
        TableError::NoOwner(line),
    );
    lacking.or(too_many(line, names.set_names.place(set)))
}

// Whether a name is that of an attribute of a class.
fn is_attribute_of(names: &Names, class: &Name, attribute: &Name) -> bool
    ensures { result ≡ is_attribute_of names.now class.now attribute.now }
{
    match names.attributes.get(attribute).copied() {
        Some(attribute) => match names.classes.place(class) {
            Some(class) => attribute.class == class,
            None => false,
        },
        None => false,
    }
}

// The first of the rules that what is declared in this line breaks by the table.
fn broken_in(names: &Names, line: Line, what: &Declared) -> Option<TableError>
    ensures { result ≡ broken_in names.now line what.now }
{
    match what {
        Declared::Class { class, .. } => number_breaks(names, line, class),
        Declared::Attribute { attribute, .. } => attribute_breaks(names, line, attribute),
        Declared::Owner { set, .. } => owner_breaks(names, line, set),
        Declared::Member { set, .. } => member_breaks(names, line, set),
        Declared::Variable { mode, .. } => real_breaks(line, *mode),
        Declared::Order { set, .. } => order_breaks(names, line, set),
        Declared::Priority { class } => class_breaks(names, line, class),
        Declared::Ties { class } => class_breaks(names, line, class),
        Declared::TieKey {
            class,
            attribute,
            ..
        } => unless(
            is_attribute_of(names, class, attribute),
            TableError::TieKey(line),
        ),
        Declared::Parameter { parameter, .. } => hiding_breaks(names, line, parameter),
        Declared::Local { variable, mode, .. } => {
            hiding_breaks(names, line, variable).or(real_breaks(line, *mode))
        }
        _ => None,
    }
}

/// What was found so far, or the first of the rules that a declaration breaks by the table. Rules on what is said twice, on keys
/// of ranked sets and on uses are looked at elsewhere.
pub fn declared_breaks(
    names: &Names,
    declarations: &[Declaration],
    found: Option<TableError>,
) -> Option<TableError>
    ensures { result ≡ fold (earlier table_error_order) found (flat_map (declaration_breaches names.now) declarations.now) }
{
    let mut found = found;
    for declaration in declarations {
        found = earlier_of(found, broken_in(names, declaration.line, &declaration.what));
    }
    found
}
