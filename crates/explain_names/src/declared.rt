//! Texts that are refused for what they declare: refusals 51 to 60.

use explain_pages::Part::{Bytes, Line, Words};
use explain_pages::{Made, Page, Part};
use ss_base::Name;
use ss_names::Names;
use ss_names_declarations::{Breach, Declaration, Declared, declarations_of, has_entry};
use ss_names_scopes::{Locals, local_of};
use ss_names_uses::{Use, uses_of};
use ss_tables_rules::{TableError, seed_of};
use ss_tree::preamble::{ClassKind, ModeWord};
use ss_tree::program::{Program, Section};
use std::alloc::Global;

/// The most declarations of a line that are looked at.
const LOOKED_AT: usize = 200;

/// A program with all that it declares, and the line of its refusal.
#[derive(Clone, Copy)]
struct Refused<'a> {
    program: &'a Program,
    all: &'a [Declaration],
    line: u32,
}

/// What a declaration makes of its name.
#[derive(Clone, Copy, PartialEq, Eq)]
enum Slot {
    Class,
    /// A class of event notices.
    Notice,
    Attribute,
    Owner,
    Member,
    Order,
    Variable,
    Statistic,
    Subject,
    Routine,
    Event,
    /// A parameter or a local variable of a section.
    Inside(usize),
    Priority,
    Ties,
    Key,
}

// What a declaration is of, and what it makes of that.
fn slot_of(what: &Declared) -> Option<(&Name, Slot)> {
    match what {
        Declared::Class { class, kind } => match kind {
            ClassKind::Notice => Some((class, Slot::Notice)),
            _ => Some((class, Slot::Class)),
        },
        Declared::Attribute { attribute, .. } => Some((attribute, Slot::Attribute)),
        Declared::Owner { set, .. } => Some((set, Slot::Owner)),
        Declared::Member { set, .. } => Some((set, Slot::Member)),
        Declared::Order { set, .. } => Some((set, Slot::Order)),
        Declared::Variable { variable, .. } => Some((variable, Slot::Variable)),
        Declared::Statistic { statistic, .. } => Some((statistic, Slot::Statistic)),
        Declared::Subject { subject, .. } => Some((subject, Slot::Subject)),
        Declared::Routine { routine, .. } => Some((routine, Slot::Routine)),
        Declared::Event { class, .. } => Some((class, Slot::Event)),
        Declared::Parameter { parameter, section } => Some((parameter, Slot::Inside(*section))),
        Declared::Local {
            variable,
            section,
            ..
        } => Some((variable, Slot::Inside(*section))),
        Declared::Priority { class } => Some((class, Slot::Priority)),
        Declared::Ties { class } => Some((class, Slot::Ties)),
        Declared::RankKey { attribute, .. } => Some((attribute, Slot::Key)),
        Declared::TieKey { attribute, .. } => Some((attribute, Slot::Key)),
        Declared::Normally { .. } | Declared::PriorityOrder | Declared::Main => None,
    }
}

// Whether a name may be both, in one program, by what the first of the two may be beside.
fn may_be_beside(left: Slot, right: Slot) -> bool {
    match (left, right) {
        (Slot::Key, _)
        | (Slot::Owner, Slot::Member | Slot::Order)
        | (Slot::Member, Slot::Order)
        | (Slot::Attribute, Slot::Variable)
        | (Slot::Class | Slot::Notice, Slot::Event)
        | (Slot::Inside(_), Slot::Variable | Slot::Class | Slot::Notice) => true,
        (Slot::Inside(_), Slot::Inside(_)) => left != right,
        (Slot::Subject | Slot::Priority | Slot::Ties, _) => left != right,
        _ => false,
    }
}

fn slot_words(slot: Slot) -> &'static str {
    match slot {
        Slot::Class | Slot::Notice => "a class",
        Slot::Attribute => "an attribute",
        Slot::Owner | Slot::Member | Slot::Order => "a set",
        Slot::Variable => "a variable",
        Slot::Statistic => "a statistic",
        Slot::Subject => "the subject of a statistic",
        Slot::Routine => "a routine",
        Slot::Event => "an event",
        Slot::Inside(_) => "a local variable",
        Slot::Priority | Slot::Ties | Slot::Key => "a name",
    }
}

/// A name that two declarations make different things of: what the later one makes of it, and the earlier one in its line.
#[derive(Clone, Copy)]
struct Clash<'a> {
    name: &'a Name,
    later: Slot,
    earlier: Slot,
    line: u32,
}

// The first of these earlier declarations that makes something else of the name of a declaration.
fn clash_of<'a>(earlier: &[Declaration], what: &'a Declared) -> Option<Clash<'a>> {
    let (name, later) = slot_of(what)?;
    for one in earlier {
        if let Some((other, before)) = slot_of(&one.what) {
            if other == name && !may_be_beside(before, later) && !may_be_beside(later, before) {
                return Some(Clash {
                    name,
                    later,
                    earlier: before,
                    line: one.line.0,
                });
            }
        }
    }
    None
}

// The first name in the line that an earlier declaration makes something else of.
fn clash_in(all: &[Declaration], line: u32) -> Option<Clash<'_>> {
    let numbered = all.iter().enumerate();
    let mut here = numbered
        .filter(|(_, one)| one.line.0 == line)
        .take(LOOKED_AT);
    here.find_map(|(place, one)| clash_of(all.get(..place).unwrap_or(&[]), &one.what))
}

fn numbered(line: u32) -> Part<'static> {
    Line(line)
}

// 51.
fn explain_twice(page: &mut Page<'_>, refused: &Refused<'_>) -> Made<()> {
    let Some(clash) = clash_in(refused.all, refused.line) else {
        page.in_line(refused.line, "it is said twice", &[])?;
        return page.cure("Leave the second of the two out, or use another name.", &[]);
    };
    let name = clash.name.bytes();
    let later = slot_words(clash.later);
    let earlier = slot_words(clash.earlier);
    let parts = [Words(later), Words(earlier), numbered(clash.line)];
    page.name(refused.line, name, "{} here, and {} in line {}", &parts)?;
    page.show(clash.line)?;
    page.cure(
        "Use another name for one of the two, or leave out what says the same of {} again.",
        &[Bytes(name)],
    )
}

// The name that a declaration gives the mode REAL.
fn real_of(what: &Declared) -> Option<Name> {
    match what {
        Declared::Variable {
            variable,
            mode: ModeWord::Real,
        } => Some(*variable),
        Declared::Local {
            variable,
            mode: ModeWord::Real,
            ..
        } => Some(*variable),
        _ => None,
    }
}

// The attribute that a declaration gives, if no DEFINE gives it a mode.
fn modeless_attribute(names: &Names, what: &Declared) -> Option<Name> {
    match what {
        Declared::Attribute { attribute, .. } => {
            Some(*attribute).filter(|name| !has_entry(&names.modes, name))
        }
        _ => None,
    }
}

// The local variable of a use, if nothing gives it a mode.
fn modeless_local(names: &Names, locals: &Locals, one: &Use) -> Option<Name> {
    let name = local_of(names, &one.what)?;
    Some(name).filter(|name| matches!(locals.mode(name), Some(None)))
}

// The first local variable of the line that nothing gives a mode.
fn modeless_use(names: &Names, locals: &Locals, uses: &[Use], line: u32) -> Option<Name> {
    let mut here = uses.iter().filter(|one| one.line.0 == line);
    here.find_map(|one| modeless_local(names, locals, one))
}

// The same, of a section.
fn modeless_in(alloc: Global, names: &Names, section: &Section, line: u32) -> Made<Option<Name>> {
    let uses = uses_of(alloc, section)?;
    let locals = Locals::of(alloc, names, &uses)?;
    Ok(modeless_use(names, &locals, &uses, line))
}

// The first name of the line that has no mode.
fn modeless_name(alloc: Global, names: &Names, refused: &Refused<'_>) -> Made<Option<Name>> {
    let line = refused.line;
    let mut here = refused.all.iter().filter(|one| one.line.0 == line);
    let mut found = here.find_map(|one| modeless_attribute(names, &one.what));
    for section in &refused.program.sections {
        if found.is_some() {
            break;
        }
        found = modeless_in(alloc, names, section, line)?;
    }
    Ok(found)
}

// The same, by the table that is made of all declarations.
fn modeless(alloc: Global, refused: &Refused<'_>) -> Made<Option<Name>> {
    let (names, _clash) = Names::of(alloc, seed_of(refused.all), refused.all)?;
    let found = modeless_name(alloc, &names, refused);
    names.release();
    found
}

// What helps where a name has no mode.
fn mode_cure(all: &[Declaration]) -> &'static str {
    let is_usual = all
        .iter()
        .any(|one| matches!(&one.what, Declared::Normally { .. }));
    if is_usual {
        "Write NORMALLY, MODE IS INTEGER: there is no REAL."
    } else {
        "Write NORMALLY, MODE IS INTEGER in the line after PREAMBLE, which gives a mode to all names, or a DEFINE for this one."
    }
}

// 52.
fn explain_mode(page: &mut Page<'_>, refused: &Refused<'_>) -> Made<()> {
    let line = refused.line;
    let mut here = refused.all.iter().filter(|one| one.line.0 == line);
    let real = here.find_map(|one| real_of(&one.what));
    if let Some(name) = &real {
        page.name(line, name.bytes(), "it is said to be REAL", &[])?;
        return page.cure(
            "Write INTEGER in place of REAL, and count in smaller units, as tenths; MEAN prints decimals.",
            &[],
        );
    }
    let name = modeless(page.alloc(), refused)?;
    match &name {
        Some(name) => page.name(line, name.bytes(), "this name has no mode", &[])?,
        None => page.in_line(line, "a name here has no mode", &[])?,
    }
    page.cure(mode_cure(refused.all), &[])
}

// The names that are declared so.
fn names_in(alloc: Global, all: &[Declaration], wanted: Slot) -> Made<Vec<Name>> {
    let mut found = Vec::new(alloc);
    for one in all {
        if let Some((name, slot)) = slot_of(&one.what) {
            if slot == wanted {
                found.push(*name)?;
            }
        }
    }
    Ok(found)
}

// As what a name that is declared so has to be declared too.
fn wanted_beside(slot: Slot) -> Option<Slot> {
    match slot {
        Slot::Priority | Slot::Ties => Some(Slot::Notice),
        Slot::Order | Slot::Member => Some(Slot::Owner),
        Slot::Owner => Some(Slot::Member),
        Slot::Key => Some(Slot::Attribute),
        _ => None,
    }
}

// The name of a declaration, if it has to be declared so too.
fn name_wanting(what: &Declared, wanted: Slot) -> Option<Name> {
    let (name, slot) = slot_of(what)?;
    Some(*name).filter(|_| wanted_beside(slot) == Some(wanted))
}

// The first name in the line that has to be declared so too, and that is not among the known ones; where all are, the first.
fn name_in_line(refused: &Refused<'_>, wanted: Slot, known: &[Name]) -> Option<Name> {
    let line = refused.line;
    let here = refused.all.iter().filter(|one| one.line.0 == line);
    let mut first = None;
    for one in here.take(LOOKED_AT) {
        if let Some(name) = name_wanting(&one.what, wanted) {
            if !known.contains(&name) {
                return Some(name);
            }
            first = first.or(Some(name));
        }
    }
    first
}

// Explains that a name in the line is not declared so too: what is wrong, and what helps, with the name in place of `{}`.
fn explain_lack(
    page: &mut Page<'_>,
    refused: &Refused<'_>,
    wanted: Slot,
    what: &str,
    cure: &str,
) -> Made<()> {
    let known = names_in(page.alloc(), refused.all, wanted)?;
    let Some(name) = name_in_line(refused, wanted, known.as_slice()) else {
        return page.in_line(refused.line, what, &[]);
    };
    page.name(refused.line, name.bytes(), what, &[])?;
    if page.nearest(name.bytes(), known.as_slice())? {
        return Ok(());
    }
    page.cure(cure, &[Bytes(name.bytes())])
}

// 57 and 60.
fn explain_key(page: &mut Page<'_>, refused: &Refused<'_>, what: &str) -> Made<()> {
    let cure = "Give {} to the EVERY by HAS, or name an attribute that it has.";
    explain_lack(page, refused, Slot::Attribute, what, cure)
}

// What is wrong in the line, and what helps.
fn explain_line(page: &mut Page<'_>, line: u32, what: &str, cure: &str) -> Made<()> {
    page.in_line(line, what, &[])?;
    page.cure(cure, &[])
}

// Explains the rule that a program breaks.
fn explain_rule(page: &mut Page<'_>, refused: &Refused<'_>, error: &TableError) -> Made<()> {
    match error {
        TableError::Twice(_) => explain_twice(page, refused),
        TableError::RealMode(_) => explain_mode(page, refused),
        TableError::UnknownClass(_) => explain_lack(
            page,
            refused,
            Slot::Notice,
            "no event notice has this name",
            "Write {} under EVENT NOTICES, or leave it out here.",
        ),
        TableError::UnknownSet(_) => explain_lack(
            page,
            refused,
            Slot::Owner,
            "no set has this name",
            "Write THE SYSTEM OWNS A {}, and MAY BELONG TO it in the EVERY of its members.",
        ),
        TableError::NoOwner(_) => explain_lack(
            page,
            refused,
            Slot::Owner,
            "entities may belong to it, and nobody owns it",
            "Write THE SYSTEM OWNS A {}, or OWNS it in an EVERY.",
        ),
        TableError::NoMember(_) => explain_lack(
            page,
            refused,
            Slot::Member,
            "it has an owner, and no class of members",
            "Write MAY BELONG TO A {} in the EVERY of its members.",
        ),
        TableError::RankKey(_) => {
            explain_key(page, refused, "it is no attribute of the set's members")
        }
        TableError::TieKey(_) => {
            explain_key(page, refused, "it is no attribute of the event notice")
        }
        TableError::TallyTwice(_) => explain_line(
            page,
            refused.line,
            "this name has a TALLY or an ACCUMULATE already",
            "Name all statistics of it in one TALLY or ACCUMULATE, or give it to a second variable by LET.",
        ),
        TableError::TooMany(_) => explain_line(
            page,
            refused.line,
            "more than 64 of them",
            "Use one class with an attribute in place of many classes.",
        ),
        TableError::Memory => Ok(()),
    }
}

/// Explains a text that is refused for what it declares.
pub fn explain_declared(page: &mut Page<'_>, program: &Program, error: &TableError) -> Made<()> {
    let all = declarations_of(page.alloc(), program)?;
    let refused = Refused {
        program,
        all: all.as_slice(),
        line: error.order_of().1,
    };
    explain_rule(page, &refused, error)
}
