//! The keys of ranked sets.

ghost use Rattle.std.specs.Prelude.{◌≡◌, ◌||◌, not, None, map};
ghost use Rattle.std.specs.List.{flat_map, fold};
ghost use Rattle.std.specs.Option.{option_or};
ghost use Rattle.ss_tree.specs.View.{view_order, view_preamble};
ghost use Rattle.ss_names_declarations.specs.Earliest.{earlier, unless};
ghost use Rattle.ss_names_declarations.specs.NameTable.{value_for};
ghost use Rattle.ss_tables_rules.specs.Keys.{class_of, is_foreign, is_foreign_to_any, keys_of_order, member_named, misranked, misranked_in, misranked_key};
ghost use Rattle.ss_tables_rules.specs.Order.{table_error_order};
ghost use Rattle.ss_tables_rules.specs.declared.error.TableError.TheVariants as e;

use crate::declarations::{set_by_name, unless};
use crate::error::TableError;
use ss_base::{Line, Name};
use ss_names::{Attribute, Names};
use ss_names_declarations::earlier_of;
use ss_tree::preamble::{NamedKey, PreambleStatement, SetOrder};

// The class of the members of the set of this name.
fn member_named(names: &Names, set: &Name) -> Option<usize>
    ensures { result ≡ member_named names.now set.now }
{
    match set_by_name(names, set) {
        Some(set) => set.member,
        None => None,
    }
}

// The class of an attribute.
fn class_of(attribute: Option<Attribute>) -> Option<usize>
    ensures { result ≡ class_of attribute }
{
    match attribute {
        Some(attribute) => Some(attribute.class),
        None => None,
    }
}

// Whether a key of this class is none of the members' class, where there is one.
fn is_foreign(key: Option<usize>, member: Option<usize>) -> bool
    ensures { result ≡ is_foreign key member }
{
    match member {
        None => false,
        Some(class) => match key {
            None => true,
            Some(key) => key != class,
        },
    }
}

// The class of the members of the first of these sets that has any.
fn first_member(names: &Names, sets: &[Name]) -> Option<usize>
    ensures { result ≡ fold option_or None (map (member_named names.now) sets.now) }
{
    let mut first = None;
    for set in sets {
        first = first.or(member_named(names, set));
    }
    first
}

// Whether a key of this class is foreign to the members of one of these sets.
fn is_foreign_to_any(names: &Names, sets: &[Name], key: Option<usize>) -> bool
    ensures { result ≡ is_foreign_to_any names.now sets.now key }
{
    let mut any = false;
    for set in sets {
        any = any || is_foreign(key, member_named(names, set));
    }
    any
}

// A key that is foreign to members of this class, or to those of another set.
fn key_breaks(
    names: &Names,
    line: Line,
    key: &NamedKey,
    first: Option<usize>,
    several: bool,
) -> Option<TableError>
    ensures { result ≡ unless (not (several || is_foreign (class_of (value_for names.now.attributes key.now.name)) first)) (e.RankKey line) }
{
    let class = class_of(names.attributes.get(&key.name).copied());
    let foreign = is_foreign(class, first);
    unless(!(several || foreign), TableError::RankKey(line))
}

// What was found so far, or the first key of a DEFINE that isn't an attribute of the class of its sets' members.
fn keys_break(
    names: &Names,
    line: Line,
    sets: &[Name],
    keys: &[NamedKey],
    found: Option<TableError>,
) -> Option<TableError>
    ensures { result ≡ fold (earlier table_error_order) found (flat_map (misranked_key names.now line sets.now) keys.now) }
{
    let first = first_member(names, sets);
    let several = is_foreign_to_any(names, sets, first);
    let mut found = found;
    for key in keys {
        found = earlier_of(found, key_breaks(names, line, key, first, several));
    }
    found
}

// The keys of a DEFINE.
fn keys_of_order(order: &SetOrder) -> &[NamedKey]
    ensures { result.now ≡ keys_of_order (view_order order.now) }
{
    match order {
        SetOrder::Ranked(keys) => keys,
        SetOrder::Fifo => &[],
        SetOrder::Lifo => &[],
    }
}

// What was found so far, or the first key of a statement that isn't an attribute of the class of its sets' members.
fn statement_breaks(
    names: &Names,
    statement: &PreambleStatement,
    found: Option<TableError>,
) -> Option<TableError>
    ensures { result ≡ fold (earlier table_error_order) found (misranked_in names.now (view_preamble statement.now)) }
{
    match statement {
        PreambleStatement::DefineSets {
            line,
            names: sets,
            order,
        } => keys_break(names, *line, sets, keys_of_order(order), found),
        _ => found,
    }
}

/// What was found so far, or the first DEFINE with a key that isn't an attribute of the class of its sets' members.
pub fn misranked(
    names: &Names,
    preamble: &[PreambleStatement],
    found: Option<TableError>,
) -> Option<TableError>
    ensures { result ≡ fold (earlier table_error_order) found (misranked names.now (map view_preamble preamble.now)) }
{
    let mut found = found;
    for statement in preamble {
        found = statement_breaks(names, statement, found);
    }
    found
}
