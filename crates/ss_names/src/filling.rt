//! The filling of the table, in passes over the declarations. The last pass is in `entering`.

ghost use Rattle.std.specs.Prelude.{IfOk, None, OnOk, [], if◌then◌else◌, is_some, length, map, option_to_list, option_map, slice_get, ◌<◌, ◌∷◌, ◌≡◌};
ghost use Rattle.std.specs.List.{fold};
ghost use Rattle.ss_base.specs.declared.layout.Owner.TheVariants as owners;
ghost use Rattle.ss_tree.specs.Names.{NameBytes};
ghost use Rattle.ss_names_declarations.specs.NameTable.{entry_if, place_among, place_in, value_for, with_first};
ghost use Rattle.ss_names.specs.Entries.{class_variables, fields_by_class, notice_number, owner_named, row_of, usual_of, number_added};
ghost use Rattle.ss_names.specs.Table.{clashes, declared};
ghost use Rattle.ss_names.specs.Filling.{HasRows, add_entities, add_names, add_variables, entities_pass, field_pushed, fields_added, table_fields, first_line, kept_mode, merged_at, merged_with, mode_named, names_pass, no_names, no_set, pushed, row_pushed, variables_pass, with_field, with_fields, with_ranks, with_rows, with_set, with_sets, with_variables};

use crate::entering::{fill_meanings, fill_subjects};
use crate::entry::{Attribute, DefinedOrder, EventSection, RankedBy, RoutineSection, Set, TiedBy};
use crate::meanings::Meanings;
use crate::names::{Names, value_mode};
use ss_base::{ClassKind, Line, Mode, Name, Owner, Spelling};
use ss_names_declarations::{
    Declaration, Declared, Keys, Seed, Table, has_entry, insert_first, insert_spelled,
};
use ss_tree::preamble::ModeWord;
use std::alloc::{AllocError, Global};

/// The table of no declarations.
pub fn empty(alloc: Global, seed: Seed) -> Names
    ensures { result ≡ no_names }
{
    Names {
        meanings: Meanings::new(alloc, seed),
        usual: None,
        modes: Table::new(alloc, seed),
        classes: Table::new(alloc, seed),
        attributes: Table::new(alloc, seed),
        fields: Vec::new(alloc),
        set_names: Keys::new(alloc, seed),
        sets: Vec::new(alloc),
        variables: Table::new(alloc, seed),
        routines: Table::new(alloc, seed),
        events: Table::new(alloc, seed),
        ranks: Keys::new(alloc, seed),
        histories: Table::new(alloc, seed),
        subjects: Vec::new(alloc),
        rank_keys: Vec::new(alloc),
        tie_keys: Vec::new(alloc),
    }
}

// ---- the first pass: what needs no other entry

// The mode that NORMALLY gives, after a NORMALLY of this mode; REAL gives none.
fn usual_after(usual: Option<Mode>, mode: ModeWord) -> Option<Mode>
    ensures { result ≡ fold kept_mode usual (usual_of mode) }
{
    match mode {
        ModeWord::Integer => usual.or(Some(Mode::Integer)),
        ModeWord::Alpha => usual.or(Some(Mode::Alpha)),
        ModeWord::Real => usual,
    }
}

// Adds a key.
fn push_key<K: Copy>(keys: &mut Vec<K>, key: K) -> Result<(), AllocError>
    ensures { OnOk result (keys.new.items ≡ pushed keys.old.items key) }
{
    keys.push(key)?;
    Ok(())
}

// Enters what needs no other entry: modes, classes, sections, names of sets, subjects and keys.
fn add_names(names: &mut Names, what: &Declared) -> Result<(), AllocError>
    ensures { OnOk result (names.new ≡ add_names names.old what.now) }
{
    match what {
        Declared::Normally { mode } => {
            names.usual = usual_after(names.usual, *mode);
            Ok(())
        }
        Declared::Variable { variable, mode } => insert_first(
            &mut names.modes,
            *variable,
            value_mode(*mode),
        ),
        Declared::Class { class, kind } => insert_first(&mut names.classes, *class, *kind),
        Declared::Owner { set, .. } => names.set_names.insert_new(*set),
        Declared::Member { set, .. } => names.set_names.insert_new(*set),
        Declared::Subject { subject, weighting } => {
            insert_first(&mut names.histories, *subject, *weighting)
        }
        Declared::Routine {
            routine,
            section,
            given,
            yielding,
        } => {
            let entry = RoutineSection {
                section: *section,
                given: *given,
                yielding: *yielding,
            };
            insert_first(&mut names.routines, *routine, entry)
        }
        Declared::Event {
            class,
            section,
            given,
            saving,
        } => {
            let entry = EventSection {
                section: *section,
                given: *given,
                saving: *saving,
            };
            insert_first(&mut names.events, *class, entry)
        }
        Declared::RankKey {
            attribute,
            high,
            statement,
        } => {
            let key = RankedBy {
                statement: *statement,
                attribute: *attribute,
                high: *high,
            };
            push_key(&mut names.rank_keys, key)
        }
        Declared::TieKey {
            class,
            attribute,
            high,
        } => {
            let key = TiedBy {
                class: *class,
                attribute: *attribute,
                high: *high,
            };
            push_key(&mut names.tie_keys, key)
        }
        _ => Ok(()),
    }
}

// The first pass.
fn fill_names(names: &mut Names, declarations: &[Declaration]) -> Result<(), AllocError>
    ensures { OnOk result (names.new ≡ fold names_pass names.old declarations.now) }
{
    for declaration in declarations {
        add_names(names, &declaration.what)?;
    }
    Ok(())
}

// ---- the second pass: attributes, sets, and the classes of PRIORITY ORDER

// No attributes of so many classes.
fn no_fields(alloc: Global, count: usize) -> Result<Vec<Vec<Name>>, AllocError>
    ensures { IfOk result (λ rows. map row_of rows.items ≡ fields_by_class [] count) }
{
    let mut rows = Vec::new(alloc);
    for number in 0..count {
        rows.push(Vec::new(alloc))?;
    }
    Ok(rows)
}

// Sets of these names, of which nothing is said.
fn no_sets(alloc: Global, names: &[Name]) -> Result<Vec<Set>, AllocError>
    ensures { IfOk result (λ sets. sets.items ≡ map (λ (name : NameBytes). no_set) names.now) }
{
    let owner: Option<Owner> = None;
    let order: Option<DefinedOrder> = None;
    let set = Set {
        owner,
        member: None,
        order,
    };
    Vec::from_elem(alloc, set, names.len())
}

// Makes room for the attributes of each class, and for each set.
fn add_rows(alloc: Global, names: &mut Names) -> Result<(), AllocError>
    ensures { OnOk result (names.new ≡ with_rows names.old) }
{
    let fields = no_fields(alloc, names.classes.len())?;
    names.fields = fields;
    let sets = no_sets(alloc, names.set_names.as_slice())?;
    names.sets = sets;
    Ok(())
}

// The mode of a name: that of its DEFINE, or else that of NORMALLY. A name without any is refused, and counts as INTEGER.
fn mode_of(names: &Names, name: &Name) -> Mode
    ensures { result ≡ mode_named names.now name.now }
{
    match names.modes.get(name).copied().or(names.usual) {
        Some(mode) => mode,
        None => Mode::Integer,
    }
}

// Adds a name at the end of a row.
fn push_field(rows: &mut Vec<Vec<Name>>, class: usize, name: Name) -> Result<(), AllocError>
    requires { class < length rows.old.items }
    ensures { OnOk result (map row_of rows.new.items ≡ row_pushed (map row_of rows.old.items) class name) }
{
    rows[class].push(name)?;
    Ok(())
}

// Enters an attribute of the class of this number, after the others.
fn push_attribute(names: &mut Names, attribute: Name, class: usize) -> Result<(), AllocError>
    requires class { class < length names.old.fields }
    requires new { value_for names.old.attributes attribute ≡ None }
    ensures { OnOk result (names.new ≡ with_fields names.old (field_pushed (mode_named names.old) (table_fields names.old) (attribute, class))) }
{
    let entry = Attribute {
        class,
        field: names.attributes_of(class).len(),
        mode: mode_of(names, &attribute),
    };
    push_field(&mut names.fields, class, attribute)?;
    names.attributes.insert_new(attribute, entry)
}

// Whether a name is that of an attribute.
pub(crate) fn has_attribute(names: &Names, name: &Name) -> bool
    ensures { result ≡ is_some (value_for names.now.attributes name.now) }
{
    has_entry(&names.attributes, name)
}

// The number of a class.
pub(crate) fn class_number(names: &Names, class: &Name) -> Option<usize>
    ensures { result ≡ place_in names.now.classes class.now }
{
    names.classes.place(class)
}

// The number of a set.
pub(crate) fn set_number(names: &Names, set: &Name) -> Option<usize>
    ensures { result ≡ place_among names.now.set_names set.now }
{
    names.set_names.place(set)
}

// Enters an attribute of the class of this number, unless its name has an entry.
fn add_field(names: &mut Names, attribute: Name, class: usize) -> Result<(), AllocError>
    requires { class < length names.old.fields }
    ensures { OnOk result (names.new ≡ with_fields names.old (with_field (mode_named names.old) (table_fields names.old) (attribute, class))) }
{
    if has_attribute(names, &attribute) {
        return Ok(());
    }
    push_attribute(names, attribute, class)
}

// Enters an attribute, if its class is declared.
fn add_attribute(names: &mut Names, attribute: Name, class: &Name) -> Result<(), AllocError>
    requires { HasRows names.old }
    ensures { OnOk result (names.new ≡ with_fields names.old (fields_added names.old (entry_if attribute (place_in names.old.classes class.now)))) }
{
    match class_number(names, class) {
        Some(class) => add_field(names, attribute, class),
        None => Ok(()),
    }
}

// A class as an owner.
fn class_owner(class: Option<usize>) -> Option<Owner>
    ensures { result ≡ option_map owners.Class class }
{
    match class {
        Some(class) => Some(Owner::Class(class)),
        None => None,
    }
}

// THE SYSTEM, or the number of the class that owns a set.
fn owner_named(names: &Names, class: &Option<Name>) -> Option<Owner>
    ensures { result ≡ owner_named names.now.classes class.now }
{
    match class {
        None => Some(Owner::System),
        Some(class) => class_owner(class_number(names, class)),
    }
}

// What is known of a set, with what a later declaration adds.
fn merged_with(known: Option<Set>, more: Set) -> Set
    ensures { result ≡ merged_with known more }
{
    match known {
        None => more,
        Some(known) => Set {
            owner: known.owner.or(more.owner),
            member: known.member.or(more.member),
            order: known.order.or(more.order),
        },
    }
}

// The set of this number.
fn set_at(sets: &[Set], number: usize) -> Option<Set>
    ensures { result ≡ slice_get sets.now number }
{
    sets.get(number).copied()
}

// Enters what a declaration adds to the set of this number.
fn merge_at(sets: &mut Vec<Set>, number: usize, more: Set)
    requires { number < length sets.old.items }
    ensures { sets.new.items ≡ merged_at sets.old.items number more }
{
    let merged = merged_with(set_at(sets, number), more);
    sets[number] = merged;
}

// Enters what a declaration adds to a set.
fn merge_set(names: &mut Names, set: &Name, more: Set)
    requires { HasRows names.old }
    ensures { names.new ≡ with_sets names.old (with_set names.old.set_names names.old.sets (set.now, more)) }
{
    match set_number(names, set) {
        Some(number) => merge_at(&mut names.sets, number, more),
        None => {}
    }
}

// The number of a class of notices.
fn notice_number(names: &Names, class: &Name) -> Option<usize>
    ensures { option_to_list result ≡ notice_number names.now.classes class.now }
{
    if names.is_notice(class) {
        class_number(names, class)
    } else {
        None
    }
}

// Enters a class in the order of rank, if it is one of notices.
fn add_notice(names: &mut Names, class: &Name) -> Result<(), AllocError>
    ensures { OnOk result (names.new ≡ with_ranks names.old (fold number_added names.old.ranks (notice_number names.old.classes class.now))) }
{
    match notice_number(names, class) {
        Some(number) => names.ranks.insert_new(number),
        None => Ok(()),
    }
}

// Enters an attribute, a property of a set, or a class in the order of rank.
fn add_entities(names: &mut Names, what: &Declared) -> Result<(), AllocError>
    requires { HasRows names.old }
    ensures { OnOk result (names.new ≡ add_entities names.old what.now) }
{
    match what {
        Declared::Attribute { attribute, class } => add_attribute(names, *attribute, class),
        Declared::Owner { set, class } => {
            let owner = owner_named(names, class);
            let said = Set {
                owner,
                member: None,
                order: None,
            };
            merge_set(names, set, said);
            Ok(())
        }
        Declared::Member { set, class } => {
            let member = class_number(names, class);
            let said = Set {
                owner: None,
                member,
                order: None,
            };
            merge_set(names, set, said);
            Ok(())
        }
        Declared::Order {
            set,
            rule,
            statement,
        } => {
            let order = DefinedOrder {
                rule: *rule,
                statement: *statement,
            };
            let said = Set {
                owner: None,
                member: None,
                order: Some(order),
            };
            merge_set(names, set, said);
            Ok(())
        }
        Declared::Priority { class } => add_notice(names, class),
        _ => Ok(()),
    }
}

// The second pass.
fn fill_entities(names: &mut Names, declarations: &[Declaration]) -> Result<(), AllocError>
    requires { HasRows names.old }
    ensures { OnOk result (names.new ≡ fold entities_pass names.old declarations.now) }
{
    for declaration in declarations {
        add_entities(names, &declaration.what)?;
    }
    Ok(())
}

// ---- the third pass: global variables, and the other classes of notices

// Enters a variable of a DEFINE, unless it gives an attribute its mode.
fn add_variable(names: &mut Names, variable: &Name, mode: Mode) -> Result<(), AllocError>
    ensures { OnOk result (names.new ≡ with_variables names.old (fold with_first names.old.variables (if is_some (value_for names.old.attributes variable.now) then [] else (variable.now, mode) ∷ []))) }
{
    if has_attribute(names, variable) {
        return Ok(());
    }
    insert_spelled(&mut names.variables, Spelling::of_name(variable), mode)
}

// Enters the variable of a class, and N. of it where it is permanent.
fn add_class_variables(
    variables: &mut Table<Spelling, Mode>,
    kind: ClassKind,
    class: &Name,
) -> Result<(), AllocError>
    ensures { OnOk result (variables.new ≡ fold with_first variables.old (class_variables kind class.now)) }
{
    insert_spelled(variables, Spelling::of_name(class), Mode::Integer)?;
    match kind {
        ClassKind::Permanent => insert_spelled(
            variables,
            Spelling::derived(b'N', class),
            Mode::Integer,
        ),
        ClassKind::Temporary => Ok(()),
        ClassKind::Notice => Ok(()),
    }
}

// Enters the variables of a class, and the class in the order of rank if PRIORITY ORDER doesn't name it.
fn add_class(names: &mut Names, kind: ClassKind, class: &Name) -> Result<(), AllocError>
    ensures { OnOk result (names.new ≡ with_ranks (with_variables names.old (fold with_first names.old.variables (class_variables kind class.now))) (fold number_added names.old.ranks (notice_number names.old.classes class.now))) }
{
    add_class_variables(&mut names.variables, kind, class)?;
    add_notice(names, class)
}

// Enters global variables, and the classes of notices that PRIORITY ORDER doesn't name.
fn add_variables(names: &mut Names, what: &Declared) -> Result<(), AllocError>
    ensures { OnOk result (names.new ≡ add_variables names.old what.now) }
{
    match what {
        Declared::Variable { variable, mode } => add_variable(names, variable, value_mode(*mode)),
        Declared::Class { class, kind } => add_class(names, *kind, class),
        _ => Ok(()),
    }
}

// The third pass.
fn fill_variables(names: &mut Names, declarations: &[Declaration]) -> Result<(), AllocError>
    ensures { OnOk result (names.new ≡ fold variables_pass names.old declarations.now) }
{
    for declaration in declarations {
        add_variables(names, &declaration.what)?;
    }
    Ok(())
}

/// Fills the table of no declarations by these. The answer is the first line where a name is declared as two things.
///
/// # Errors
/// `AllocError` where memory is refused.
pub fn fill(
    alloc: Global,
    seed: Seed,
    names: &mut Names,
    declarations: &[Declaration],
) -> Result<Option<Line>, AllocError>
    requires { names.old ≡ no_names }
    ensures names { OnOk result (names.new ≡ declared declarations.now) }
    ensures clash { IfOk result (λ clash. clash ≡ first_line (clashes declarations.now)) }
{
    fill_names(names, declarations)?;
    add_rows(alloc, names)?;
    fill_entities(names, declarations)?;
    fill_variables(names, declarations)?;
    let clash = fill_meanings(alloc, seed, names, declarations)?;
    fill_subjects(alloc, names)?;
    Ok(clash)
}
