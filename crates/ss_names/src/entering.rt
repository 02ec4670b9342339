//! The last pass over the declarations: what names mean, which names are declared as two things, and subjects of statistics.

ghost use Rattle.std.specs.Prelude.{◌≡◌, ◌++◌, Some, option_map, OnOk, IfOk};
ghost use Rattle.std.specs.List.{fold};
ghost use Rattle.ss_names_declarations.specs.NameTable.{entry_if, place_among, place_in, value_for};
ghost use Rattle.ss_names.specs.declared.meaning.Meaning.TheVariants as m;
ghost use Rattle.ss_names.specs.Entries.{count_name};
ghost use Rattle.ss_names.specs.Table.{attribute_meaning, class_meaning, class_entry, count_meaning, count_entry, declares, derived_name, fold_of, same_of_set, set_meanings, subject_of, subjects_by, variable_meaning};
ghost use Rattle.ss_names.specs.Filling.{all_entered, clash_after, enter_name, entered, letter_of_member, letter_of_set, meanings_pass, sooner, with_meanings, with_subjects};

use crate::filling::{class_number, has_attribute, set_number};
use crate::meaning::Meaning;
use crate::meanings::Meanings;
use crate::names::{Names, value_mode};
use ss_base::{ClassKind, Line, Mode, Name, Spelling};
use ss_names_declarations::{Declaration, Declared, Seed};
use ss_program::expression::{Fold, MemberQuery, SetQuery, Variable};
use ss_program::sections::Subject;
use ss_program::statement::CountedClass;
use ss_tree::preamble::StatisticKind;
use std::alloc::{AllocError, Global};
use std::mem;

// Whether both are what the owner of a set and the class of its members declare.
fn same_of_set(known: Meaning, new: Meaning) -> bool
    ensures { result ≡ same_of_set known new }
{
    match known {
        Meaning::Set { .. } => matches!(new, Meaning::Set { .. }),
        Meaning::OfSet { .. } => matches!(new, Meaning::OfSet { .. }),
        Meaning::OfMember { .. } => matches!(new, Meaning::OfMember { .. }),
        _ => false,
    }
}

// The first in the text of what was found so far and a line.
fn sooner(found: Option<Line>, line: Line) -> Option<Line>
    ensures { result ≡ sooner found line }
{
    match found {
        None => Some(line),
        Some(first) => {
            if line.0 < first.0 {
                Some(line)
            } else {
                Some(first)
            }
        }
    }
}

// The first line where a name is declared as two things, after a declaration of a name that is known as this or not yet.
fn clash_after(
    clash: Option<Line>,
    known: Option<Meaning>,
    new: Meaning,
    line: Line,
) -> Option<Line>
    ensures { result ≡ clash_after clash known new line }
{
    match known {
        None => clash,
        Some(known) => {
            if same_of_set(known, new) {
                clash
            } else {
                sooner(clash, line)
            }
        }
    }
}

// Enters what a name means, or notes that it is declared as another thing.
fn enter(
    meanings: &mut Meanings,
    clash: &mut Option<Line>,
    line: Line,
    spelling: Spelling,
    meaning: Meaning,
) -> Result<(), AllocError>
    ensures { OnOk result (entered meanings.new clash.new ≡ enter_name line (entered meanings.old clash.old) (spelling, meaning)) }
{
    let known = meanings.meaning(&spelling);
    let next = clash_after(*clash, known, meaning, line);
    *clash = next;
    meanings.insert(spelling, meaning)
}

// Enters what a name means, if it means anything.
fn enter_if(
    meanings: &mut Meanings,
    clash: &mut Option<Line>,
    line: Line,
    spelling: Spelling,
    meaning: Option<Meaning>,
) -> Result<(), AllocError>
    ensures { OnOk result (entered meanings.new clash.new ≡ fold (enter_name line) (entered meanings.old clash.old) (entry_if spelling meaning)) }
{
    match meaning {
        Some(meaning) => enter(meanings, clash, line, spelling, meaning),
        None => Ok(()),
    }
}

// What a class means, by its number, its kind and its variable.
fn class_meaning(
    class: Option<usize>,
    kind: Option<ClassKind>,
    variable: Option<usize>,
) -> Option<Meaning>
    ensures { result ≡ class_meaning class kind variable }
{
    match (class, kind, variable) {
        (Some(class), Some(kind), Some(variable)) => Some(Meaning::Class {
            class,
            kind,
            variable,
        }),
        _ => None,
    }
}

// What N. of a class means, by the number of the class, its kind and the variable of N.
fn count_meaning(
    class: Option<usize>,
    kind: Option<ClassKind>,
    variable: Option<usize>,
) -> Option<Meaning>
    ensures { result ≡ count_meaning class kind variable }
{
    match (class, kind, variable) {
        (Some(class), Some(ClassKind::Permanent), Some(variable)) => Some(Meaning::Count {
            count: CountedClass { class, variable },
        }),
        _ => None,
    }
}

// The kind of a class.
fn class_kind(names: &Names, class: &Name) -> Option<ClassKind>
    ensures { result ≡ value_for names.now.classes class.now }
{
    names.classes.get(class).copied()
}

// The number of a global variable.
fn variable_number(names: &Names, variable: &Spelling) -> Option<usize>
    ensures { result ≡ place_in names.now.variables variable.now }
{
    names.variables.place(variable)
}

// What the name of a class means.
fn class_entry(names: &Names, name: &Name) -> Option<Meaning>
    ensures { result ≡ class_entry names.now name.now }
{
    let class = class_number(names, name);
    let kind = class_kind(names, name);
    let variable = variable_number(names, &Spelling::of_name(name));
    class_meaning(class, kind, variable)
}

// What N. of the name of a class means.
fn count_entry(names: &Names, name: &Name) -> Option<Meaning>
    ensures { result ≡ count_entry names.now name.now }
{
    let class = class_number(names, name);
    let kind = class_kind(names, name);
    let variable = variable_number(names, &Spelling::derived(b'N', name));
    count_meaning(class, kind, variable)
}

// Enters a class, and N. of it if it is permanent.
fn enter_class(
    names: &Names,
    meanings: &mut Meanings,
    clash: &mut Option<Line>,
    line: Line,
    name: &Name,
) -> Result<(), AllocError>
    ensures { OnOk result (entered meanings.new clash.new ≡ fold (enter_name line) (entered meanings.old clash.old) (entry_if name.now (class_entry names.now name.now) ++ entry_if (count_name name.now) (count_entry names.now name.now))) }
{
    let meaning = class_entry(names, name);
    let count = count_entry(names, name);
    enter_if(meanings, clash, line, Spelling::of_name(name), meaning)?;
    enter_if(meanings, clash, line, Spelling::derived(b'N', name), count)
}

// Enters F., L. or N. of a set.
fn enter_of_set(
    meanings: &mut Meanings,
    clash: &mut Option<Line>,
    line: Line,
    name: &Name,
    query: SetQuery,
    set: usize,
) -> Result<(), AllocError>
    ensures { OnOk result (entered meanings.new clash.new ≡ enter_name line (entered meanings.old clash.old) (derived_name (letter_of_set query) name.now, m.OfSet query set)) }
{
    let spelling = Spelling::derived(letter_of_set(query), name);
    enter(
        meanings,
        clash,
        line,
        spelling,
        Meaning::OfSet { query, set },
    )
}

// The letter of F., L. or N.
fn letter_of_set(query: SetQuery) -> u8
    ensures { result ≡ letter_of_set query }
{
    match query {
        SetQuery::FirstMember => b'F',
        SetQuery::LastMember => b'L',
        SetQuery::MemberCount => b'N',
    }
}

// Enters P., S. or M. of a set.
fn enter_of_member(
    meanings: &mut Meanings,
    clash: &mut Option<Line>,
    line: Line,
    name: &Name,
    query: MemberQuery,
    set: usize,
) -> Result<(), AllocError>
    ensures { OnOk result (entered meanings.new clash.new ≡ enter_name line (entered meanings.old clash.old) (derived_name (letter_of_member query) name.now, m.OfMember query set)) }
{
    let spelling = Spelling::derived(letter_of_member(query), name);
    enter(
        meanings,
        clash,
        line,
        spelling,
        Meaning::OfMember { query, set },
    )
}

// The letter of P., S. or M.
fn letter_of_member(query: MemberQuery) -> u8
    ensures { result ≡ letter_of_member query }
{
    match query {
        MemberQuery::Predecessor => b'P',
        MemberQuery::Successor => b'S',
        MemberQuery::Membership => b'M',
    }
}

// Enters the set of this number and its derived names.
fn enter_numbered(
    meanings: &mut Meanings,
    clash: &mut Option<Line>,
    line: Line,
    name: &Name,
    set: usize,
) -> Result<(), AllocError>
    ensures { OnOk result (entered meanings.new clash.new ≡ fold (enter_name line) (entered meanings.old clash.old) (set_meanings name.now (Some set))) }
{
    let spelling = Spelling::of_name(name);
    enter(meanings, clash, line, spelling, Meaning::Set { set })?;
    enter_of_set(meanings, clash, line, name, SetQuery::FirstMember, set)?;
    enter_of_set(meanings, clash, line, name, SetQuery::LastMember, set)?;
    enter_of_set(meanings, clash, line, name, SetQuery::MemberCount, set)?;
    enter_of_member(meanings, clash, line, name, MemberQuery::Predecessor, set)?;
    enter_of_member(meanings, clash, line, name, MemberQuery::Successor, set)?;
    enter_of_member(meanings, clash, line, name, MemberQuery::Membership, set)
}

// Enters a set and its derived names.
fn enter_set(
    names: &Names,
    meanings: &mut Meanings,
    clash: &mut Option<Line>,
    line: Line,
    name: &Name,
) -> Result<(), AllocError>
    ensures { OnOk result (entered meanings.new clash.new ≡ fold (enter_name line) (entered meanings.old clash.old) (set_meanings name.now (place_among names.now.set_names name.now))) }
{
    match set_number(names, name) {
        Some(set) => enter_numbered(meanings, clash, line, name, set),
        None => Ok(()),
    }
}

// What an attribute means.
fn attribute_meaning(names: &Names, attribute: &Name) -> Option<Meaning>
    ensures { result ≡ option_map attribute_meaning (value_for names.now.attributes attribute.now) }
{
    match names.attributes.get(attribute).copied() {
        Some(entry) => Some(Meaning::Attribute {
            class: entry.class,
            field: entry.field,
            mode: entry.mode,
        }),
        None => None,
    }
}

// What a DEFINE of a variable means: none if it gives an attribute its mode.
fn variable_meaning(names: &Names, variable: &Name, mode: Mode) -> Option<Meaning>
    ensures { result ≡ variable_meaning names.now variable.now mode }
{
    if has_attribute(names, variable) {
        return None;
    }
    match names.variables.place(&Spelling::of_name(variable)) {
        Some(number) => Some(Meaning::Variable {
            variable: Variable::Global { number },
            mode,
        }),
        None => None,
    }
}

// The fold of a statistic; a MEAN has none.
fn fold_of(kind: StatisticKind) -> Option<Fold>
    ensures { result ≡ fold_of kind }
{
    match kind {
        StatisticKind::Number => Some(Fold::Number),
        StatisticKind::Sum => Some(Fold::Sum),
        StatisticKind::Maximum => Some(Fold::Maximum),
        StatisticKind::Minimum => Some(Fold::Minimum),
        StatisticKind::Mean => None,
    }
}

// What a statistic of a subject means.
fn statistic_meaning(names: &Names, kind: StatisticKind, subject: &Name) -> Option<Meaning>
    ensures { result ≡ option_map (m.Statistic (fold_of kind)) (place_in names.now.histories subject.now) }
{
    let fold = fold_of(kind);
    match names.histories.place(subject) {
        Some(statistic) => Some(Meaning::Statistic { fold, statistic }),
        None => None,
    }
}

// What a routine means.
fn routine_meaning(names: &Names, routine: &Name) -> Option<Meaning>
    ensures { result ≡ option_map m.Routine (place_in names.now.routines routine.now) }
{
    match names.routines.place(routine) {
        Some(routine) => Some(Meaning::Routine { routine }),
        None => None,
    }
}

// Enters what names mean, by a declaration in this line.
fn add_meanings(
    names: &Names,
    meanings: &mut Meanings,
    clash: &mut Option<Line>,
    line: Line,
    what: &Declared,
) -> Result<(), AllocError>
    ensures { OnOk result (entered meanings.new clash.new ≡ fold (enter_name line) (entered meanings.old clash.old) (declares names.now what.now)) }
{
    match what {
        Declared::Class { class, .. } => enter_class(names, meanings, clash, line, class),
        Declared::Attribute { attribute, .. } => {
            let meaning = attribute_meaning(names, attribute);
            enter_if(meanings, clash, line, Spelling::of_name(attribute), meaning)
        }
        Declared::Owner { set, .. } => enter_set(names, meanings, clash, line, set),
        Declared::Member { set, .. } => enter_set(names, meanings, clash, line, set),
        Declared::Variable { variable, mode } => {
            let meaning = variable_meaning(names, variable, value_mode(*mode));
            enter_if(meanings, clash, line, Spelling::of_name(variable), meaning)
        }
        Declared::Statistic {
            statistic,
            kind,
            subject,
        } => {
            let meaning = statistic_meaning(names, *kind, subject);
            enter_if(meanings, clash, line, Spelling::of_name(statistic), meaning)
        }
        Declared::Routine { routine, .. } => {
            let meaning = routine_meaning(names, routine);
            enter_if(meanings, clash, line, Spelling::of_name(routine), meaning)
        }
        _ => Ok(()),
    }
}

// Enters what names mean, by each of these declarations.
fn enter_all(
    names: &Names,
    meanings: &mut Meanings,
    clash: &mut Option<Line>,
    declarations: &[Declaration],
) -> Result<(), AllocError>
    ensures { OnOk result (entered meanings.new clash.new ≡ fold (meanings_pass names.now) (entered meanings.old clash.old) declarations.now) }
{
    for declaration in declarations {
        add_meanings(names, meanings, clash, declaration.line, &declaration.what)?;
    }
    Ok(())
}

/// The last pass. The answer is the first line where a name is declared as two things.
///
/// # Errors
/// `AllocError` where memory is refused.
pub fn fill_meanings(
    alloc: Global,
    seed: Seed,
    names: &mut Names,
    declarations: &[Declaration],
) -> Result<Option<Line>, AllocError>
    ensures names { OnOk result (names.new ≡ with_meanings names.old (all_entered names.old declarations.now).meanings) }
    ensures clash { IfOk result (λ clash. clash ≡ (all_entered names.old declarations.now).clash) }
{
    let mut meanings = Meanings::new(alloc, seed);
    let mut clash: Option<Line> = None;
    let entered = enter_all(names, &mut meanings, &mut clash, declarations);
    drop(mem::replace(&mut names.meanings, meanings));
    entered?;
    Ok(clash)
}

// ---- subjects of statistics

// The subject that a name means: a variable of a DEFINE, an attribute, or N. of a set.
fn subject_of(meaning: Option<Meaning>) -> Option<Subject>
    ensures { result ≡ subject_of meaning }
{
    match meaning {
        Some(
            Meaning::Variable {
                variable: Variable::Global { number },
                ..
            },
        ) => Some(Subject::OfVariable { number }),
        Some(Meaning::Attribute { class, field, .. }) => {
            Some(Subject::OfAttribute { class, field })
        }
        Some(
            Meaning::OfSet {
                query: SetQuery::MemberCount,
                set,
            },
        ) => Some(Subject::OfCount { set }),
        _ => None,
    }
}

// What these names are subjects of.
fn subjects_of(
    alloc: Global,
    meanings: &Meanings,
    names: &[Name],
) -> Result<Vec<Option<Subject>>, AllocError>
    ensures { IfOk result (λ subjects. subjects.items ≡ subjects_by meanings.now names.now) }
{
    let mut subjects = Vec::new(alloc);
    for name in names {
        let subject = subject_of(meanings.meaning(&Spelling::of_name(name)));
        subjects.push(subject)?;
    }
    Ok(subjects)
}

/// Enters the subjects of statistics.
///
/// # Errors
/// `AllocError` where memory is refused.
pub fn fill_subjects(alloc: Global, names: &mut Names) -> Result<(), AllocError>
    ensures { OnOk result (names.new ≡ with_subjects names.old) }
{
    let subjects = subjects_of(alloc, &names.meanings, names.histories.keys())?;
    names.subjects = subjects;
    Ok(())
}
