//! Texts that are refused for what they do with their names: refusals 71 to 79.

use crate::counts::{explain_arguments, explain_fields};
use crate::modes::{explain_same, mode_words};
use crate::needs::{Need, help_for, known_names, meaning_words, need_words, unmet_need, word_for};
use crate::sections::Read;
use explain_pages::Part::{Bytes, Words};
use explain_pages::{Made, Page, nearest};
use ss_base::{Name, Owner};
use ss_check_rules::CheckError;
use ss_names::{Meaning, Names};
use ss_names_declarations::{Breach, has_entry};
use ss_names_scopes::Scope;
use ss_names_uses::{ClassNeed, Role, Use, Used};
use ss_tree::expression::Designator;
use ss_tree::preamble::PreambleStatement;
use ss_tree::program::Program;

/// A name of a line, with what it means.
#[derive(Clone, Copy)]
struct Misused<'a> {
    line: u32,
    name: &'a [u8],
    meaning: Option<Meaning>,
}

// Says what a name is and what it has to be, and what helps: the name that is spelled alike, or what may be declared.
fn explain_kind(page: &mut Page<'_>, names: &Names, misused: &Misused<'_>, need: Need) -> Made<()> {
    let (line, name) = (misused.line, misused.name);
    let wanted = need_words(need);
    match misused.meaning {
        Some(meaning) => {
            let what = meaning_words(meaning);
            let parts = [Words(what), Words(wanted)];
            page.name(line, name, "it is {}, and {} is needed here", &parts)?;
        }
        None => {
            let words = "it is not declared, and {} is needed here";
            page.name(line, name, words, &[Words(wanted)])?;
        }
    }
    let known = known_names(page.alloc(), names, need)?;
    if page.nearest(name, known.as_slice())? {
        return Ok(());
    }
    page.cure(help_for(need, misused.meaning), &[Bytes(name)])
}

// A set whose members are of the class that a name means.
fn set_of(names: &Names, meaning: Option<Meaning>) -> Option<Name> {
    let Some(Meaning::Class { class, .. }) = meaning else {
        return None;
    };
    let mut sets = names.sets.iter();
    let place = sets.position(|set| set.member == Some(class))?;
    names.set_names.as_slice().get(place).copied()
}

// Says that a name is not what its place needs, and what helps: a walk through a set, another word, or what `explain_kind` says.
fn explain_need(page: &mut Page<'_>, names: &Names, misused: &Misused<'_>, need: Need) -> Made<()> {
    let (line, name) = (misused.line, misused.name);
    if matches!(need, Need::Class(ClassNeed::Permanent)) {
        if let Some(set) = set_of(names, misused.meaning) {
            let words = "it comes and goes, and FOR EACH goes over a permanent class or over a set";
            page.name(line, name, words, &[])?;
            let cure = "Write FOR EACH {} IN {}, which goes over those in this set.";
            return page.cure(cure, &[Bytes(name), Bytes(set.bytes())]);
        }
    }
    if misused.meaning.is_none() && matches!(need, Need::Set | Need::Value) {
        if let Some(word) = word_for(name) {
            page.name(line, name, "it is not declared", &[])?;
            return page.cure("Write {}, as the language calls it.", &[Words(word)]);
        }
    }
    explain_kind(page, names, misused, need)
}

// How a place is spelled, without its subscripts.
fn spelling_of(place: &Designator) -> &[u8] {
    match place {
        Designator::Name(name) => name.bytes(),
        Designator::TimeV => b"TIME.V".as_slice(),
        Designator::TimeA => b"TIME.A".as_slice(),
    }
}

// The name of a use, with what it means; None where it is of no name.
fn misused_in<'a>(scope: &Scope<'_>, one: &'a Use) -> Option<Misused<'a>> {
    let (name, meaning) = match &one.what {
        Used::Class { class, .. } => (class.bytes(), scope.names.meaning(class)),
        Used::Routine { routine } => (routine.bytes(), scope.names.meaning(routine)),
        Used::Place { place, .. } => (spelling_of(place), scope.meaning(*place)),
        _ => return None,
    };
    Some(Misused {
        line: one.line.0,
        name,
        meaning,
    })
}

// The subject of a statistic in this line.
fn subject_in(program: &Program, line: u32) -> Option<&Name> {
    for statement in &program.preamble {
        match statement {
            PreambleStatement::Statistics {
                line: here,
                subject,
                ..
            } if here.0 == line => return Some(subject),
            _ => {}
        }
    }
    None
}

// 72.
fn explain_event(page: &mut Page<'_>, names: &Names, line: u32) -> Made<()> {
    let mut classes = names.classes.keys().iter();
    let lone = classes.find(|&class| names.is_notice(class) && !has_entry(&names.events, class));
    let words = "this event notice has no section EVENT";
    let Some(class) = lone else {
        return page.in_line(line, words, &[]);
    };
    page.name(line, class.bytes(), words, &[])?;
    let near = nearest(page.alloc(), class.bytes(), names.events.keys())?;
    match &near {
        Some(found) if !names.is_notice(found) => page.cure(
            "The section EVENT {} is of no notice: give both the same name.",
            &[Bytes(found.bytes())],
        ),
        _ => page.cure(
            "Write a section EVENT {} with its statements and END, or leave the notice out.",
            &[Bytes(class.bytes())],
        ),
    }
}

/// What is wrong with what a name means, with that in place of `{}`, and what helps, with the name in place of `{}`.
type Fault = Option<(&'static str, &'static str)>;

// 75: what is wrong with so many subscripts.
fn subscript_words(names: &Names, meaning: Meaning, subscripts: usize) -> Fault {
    let most = match meaning {
        Meaning::NoticeTime | Meaning::Attribute { .. } | Meaning::OfMember { .. } => 1,
        Meaning::Set { .. } | Meaning::OfSet { .. } | Meaning::Statistic { .. } => {
            match names.owner_of(meaning) {
                Owner::System => 0,
                Owner::Class(_) => 1,
            }
        }
        _ => 0,
    };
    if subscripts == 0 && matches!(meaning, Meaning::NoticeTime) {
        Some((
            "it is {}, and takes a subscript",
            "Write the notice after it, as {}(ARRIVAL).",
        ))
    } else if subscripts <= most {
        None
    } else if most == 0 {
        Some((
            "it is {}, and takes no subscript",
            "Leave the parentheses after {} out. A value for each entity is an attribute: declare it by EVERY .. HAS.",
        ))
    } else {
        Some((
            "it is {}, and takes one subscript at most",
            "Keep one number in the parentheses after {}.",
        ))
    }
}

// 76: what is wrong where a value goes to what takes none.
fn target_words(meaning: Meaning) -> Fault {
    let cure = match meaning {
        Meaning::Variable { .. }
        | Meaning::Class { .. }
        | Meaning::Attribute { .. }
        | Meaning::Count { .. } => return None,
        Meaning::Clock => {
            "The time goes on by events alone: SCHEDULE an event IN so many UNITS, and RETURN."
        }
        Meaning::NoticeTime => "CANCEL the notice, and SCHEDULE THE it for the other time.",
        Meaning::Statistic { .. } => {
            "A statistic is kept by its TALLY or ACCUMULATE: assign its variable, or start it afresh by RESET."
        }
        Meaning::OfSet { .. } | Meaning::OfMember { .. } => {
            "Members of a set change by FILE and REMOVE alone."
        }
        _ => "Assign a variable, an attribute or N. of a permanent class.",
    };
    Some(("it is {}, and takes no value", cure))
}

// What is wrong with a named place, by the rule that its line breaks.
fn place_words(names: &Names, error: &CheckError, used: &Used, meaning: Meaning) -> Fault {
    let Used::Place {
        role,
        subscripts,
        number,
        ..
    } = used
    else {
        return None;
    };
    match error {
        CheckError::Subscript(_) => subscript_words(names, meaning, *subscripts),
        CheckError::NotAssignable(_) if matches!(role, Role::Target) => target_words(meaning),
        CheckError::Mode(_) => mode_words(meaning, *role, *number),
        _ => None,
    }
}

/// A rule that is broken in a line of a section.
#[derive(Clone, Copy)]
struct Broken<'a> {
    scope: Scope<'a>,
    error: &'a CheckError,
    line: u32,
}

// Whether a use is of a name that breaks the rule, which is then explained.
fn explain_name(page: &mut Page<'_>, broken: &Broken<'_>, one: &Use) -> Made<bool> {
    let names = broken.scope.names;
    let Some(misused) = misused_in(&broken.scope, one) else {
        return Ok(false);
    };
    if matches!(broken.error, CheckError::Unknown(_)) {
        let Some(need) = unmet_need(&one.what, misused.meaning) else {
            return Ok(false);
        };
        explain_need(page, names, &misused, need)?;
        return Ok(true);
    }
    let Some(meaning) = misused.meaning else {
        return Ok(false);
    };
    let Some((words, cure)) = place_words(names, broken.error, &one.what, meaning) else {
        return Ok(false);
    };
    let parts = [Words(meaning_words(meaning))];
    page.name(misused.line, misused.name, words, &parts)?;
    page.cure(cure, &[Bytes(misused.name)])?;
    Ok(true)
}

// Whether a use breaks the rule, which is then explained.
fn explain_use(page: &mut Page<'_>, broken: &Broken<'_>, one: &Use) -> Made<bool> {
    let (scope, line) = (&broken.scope, broken.line);
    match (broken.error, &one.what) {
        (CheckError::Mode(_), Used::Same { found, wanted }) => {
            explain_same(page, scope, line, found, wanted)
        }
        (CheckError::Arguments(_), Used::Count { found, wanted }) => {
            explain_arguments(page, scope.names, line, *found, wanted)
        }
        _ => explain_name(page, broken, one),
    }
}

// Explains the first of these uses that breaks the rule, if one is known to.
fn explain_uses(page: &mut Page<'_>, broken: &Broken<'_>, uses: &[Use]) -> Made<bool> {
    for one in uses {
        if one.line.0 == broken.line {
            if explain_use(page, broken, one)? {
                return Ok(true);
            }
        }
    }
    Ok(false)
}

// The words for a rule where no name is known to be wrong, and what helps.
fn general(error: &CheckError) -> (&'static str, &'static str) {
    match error {
        CheckError::StartPlace(_) => (
            "START SIMULATION is in an EVENT or a ROUTINE",
            "Write START SIMULATION in MAIN, and SCHEDULE what comes next here.",
        ),
        CheckError::Subscript(_) => (
            "a subscript is wrong here",
            "Give a subscript to attributes and to sets of entities alone, and one at most.",
        ),
        CheckError::NotAssignable(_) => (
            "nothing can be assigned to a name here",
            "Assign a variable, an attribute or N. of a permanent class.",
        ),
        CheckError::Mode(_) => (
            "a number and a text are mixed here",
            "Numbers are INTEGER and texts in quotes are ALPHA: DEFINE the variable or the attribute in the other mode. A MEAN can be printed alone.",
        ),
        CheckError::Arguments(_) => (
            "other counts of values are given here than are taken",
            "Give as many values as the ROUTINE, the function or the event takes.",
        ),
        _ => (
            "a name here is of the wrong kind",
            "Look whether each name is declared, and is what its place needs.",
        ),
    }
}

// Explains a rule on the uses of sections: 73 to 76, 78 and 79.
fn explain_breach(page: &mut Page<'_>, read: &Read<'_>, error: &CheckError, line: u32) -> Made<()> {
    for (number, uses) in read.uses.iter().enumerate() {
        if let Some(locals) = read.locals.get(number) {
            let scope = Scope {
                names: read.names,
                locals,
                sections: read.locals,
            };
            let broken = Broken { scope, error, line };
            if explain_uses(page, &broken, uses.as_slice())? {
                return Ok(());
            }
        }
    }
    let (words, cure) = general(error);
    page.in_line(line, words, &[])?;
    page.cure(cure, &[])
}

// 79, of the subject of a statistic.
fn explain_subject(page: &mut Page<'_>, names: &Names, line: u32, subject: &Name) -> Made<()> {
    let misused = Misused {
        line,
        name: subject.bytes(),
        meaning: names.meaning(subject),
    };
    explain_kind(page, names, &misused, Need::Subject)
}

/// Explains a text that is refused for what it does with its names.
pub fn explain_used(page: &mut Page<'_>, read: &Read<'_>, error: &CheckError) -> Made<()> {
    let line = error.order_of().1;
    match error {
        CheckError::NoMain(_) => {
            page.line("there is no section MAIN, with which a run begins", &[])?;
            page.cure(
                "Write MAIN, the statements with which the run begins, and END after the preamble.",
                &[],
            )
        }
        CheckError::NoEventRoutine(_) => explain_event(page, read.names, line),
        CheckError::Fields(_) => explain_fields(page, read.program, line),
        CheckError::Unknown(_) => match subject_in(read.program, line) {
            Some(subject) => explain_subject(page, read.names, line, subject),
            None => explain_breach(page, read, error, line),
        },
        CheckError::Memory => Ok(()),
        _ => explain_breach(page, read, error, line),
    }
}
