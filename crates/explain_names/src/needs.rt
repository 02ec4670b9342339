//! What names have to mean in their places, and which names do.

use explain_pages::Made;
use ss_base::{ClassKind, Name};
use ss_names::{Meaning, NameId, Names};
use ss_names_scopes::{is_kind, mode_of, variable_of};
use ss_names_uses::{ClassNeed, Role, Used};
use std::alloc::Global;

/// What a name has to mean in its place.
#[derive(Clone, Copy)]
pub enum Need {
    Class(ClassNeed),
    Routine,
    Set,
    Value,
    /// What a statistic can be of.
    Subject,
}

/// What a name has to be in its place, in words.
pub fn need_words(need: Need) -> &'static str {
    match need {
        Need::Class(ClassNeed::Single) => "a class of temporary entities or an event notice",
        Need::Class(ClassNeed::Permanent) => "a class of permanent entities",
        Need::Class(ClassNeed::Notice) => "an event notice",
        Need::Routine => "a routine",
        Need::Set => "a set",
        Need::Value => "a value",
        Need::Subject => "a variable of a DEFINE, an attribute or N. of a set",
    }
}

/// What something is called that a name means.
pub fn meaning_words(meaning: Meaning) -> &'static str {
    match meaning {
        Meaning::Variable { .. } => "a variable",
        Meaning::Class { kind, .. } => match kind {
            ClassKind::Permanent => "a class of permanent entities",
            ClassKind::Temporary => "a class of temporary entities",
            ClassKind::Notice => "an event notice",
        },
        Meaning::Count { .. } => "the number of a class",
        Meaning::Attribute { .. } => "an attribute",
        Meaning::Set { .. } => "a set",
        Meaning::OfSet { .. } => "F., L. or N. of a set",
        Meaning::OfMember { .. } => "P., S. or M. of a set",
        Meaning::Statistic { .. } => "a statistic",
        Meaning::Routine { .. } => "a routine",
        Meaning::Clock => "the time",
        Meaning::NoticeTime => "the time of a notice",
    }
}

// Whether what a name means may be in its place.
fn serves(need: Need, meaning: Meaning) -> bool {
    match need {
        Need::Class(need) => match meaning {
            Meaning::Class { kind, .. } => is_kind(need, kind),
            _ => false,
        },
        Need::Routine => matches!(meaning, Meaning::Routine { .. }),
        Need::Set => matches!(meaning, Meaning::Set { .. }),
        Need::Value => mode_of(meaning).is_some(),
        Need::Subject => matches!(
            meaning,
            Meaning::Variable { .. } | Meaning::Attribute { .. } | Meaning::OfSet { .. }
        ),
    }
}

/// The names that may be in a place, among so many of the table.
pub fn names_serving(alloc: Global, names: &Names, need: Need, most: usize) -> Made<Vec<Name>> {
    let mut found = Vec::new(alloc);
    for (place, meaning) in names.meanings.values().iter().enumerate() {
        if place >= most {
            break;
        }
        if place < names.len() && serves(need, *meaning) {
            if let Some(name) = Name::of(names.name(NameId(place))) {
                found.push(name)?;
            }
        }
    }
    Ok(found)
}

/// The words of the language that are values or give them.
static VALUES: [&str; 7] = [
    "TIME.V", "TIME.A", "ABS.F", "DIV.F", "MOD.F", "MIN.F", "MAX.F",
];

/// The names that may be in a place, and the words of the language that may be.
pub fn known_names(alloc: Global, names: &Names, need: Need) -> Made<Vec<Name>> {
    let mut known = names_serving(alloc, names, need, usize::MAX)?;
    if !matches!(need, Need::Value) {
        return Ok(known);
    }
    for word in &VALUES {
        if let Some(name) = Name::of(word.as_bytes()) {
            known.push(name)?;
        }
    }
    Ok(known)
}

/// Names that other languages have for words of this one.
static LIKE: [(&str, &str); 12] = [
    ("ABS", "ABS.F"),
    ("DIV", "DIV.F"),
    ("MOD", "MOD.F"),
    ("MIN", "MIN.F"),
    ("MAX", "MAX.F"),
    ("TIME", "TIME.V"),
    ("NOW", "TIME.V"),
    ("CLOCK", "TIME.V"),
    ("TIME.NOW", "TIME.V"),
    ("DIV.I", "DIV.F"),
    ("MODULO", "MOD.F"),
    ("ABSOLUTE", "ABS.F"),
];

/// The word of the language for which other languages have this name.
pub fn word_for(name: &[u8]) -> Option<&'static str> {
    for (like, word) in &LIKE {
        if name == like.as_bytes() {
            return Some(*word);
        }
    }
    None
}

// What the name of a use has to mean.
fn need_of(used: &Used) -> Need {
    match used {
        Used::Class { need, .. } => Need::Class(*need),
        Used::Routine { .. } => Need::Routine,
        Used::Place {
            role: Role::Set,
            ..
        } => Need::Set,
        _ => Need::Value,
    }
}

// Whether what the name of a use means may be used so.
fn fits(used: &Used, meaning: Meaning) -> bool {
    match used {
        Used::Place {
            role: Role::LoopVariable,
            ..
        } => variable_of(meaning).is_some(),
        Used::Place {
            role: Role::Reset,
            ..
        } => true,
        _ => serves(need_of(used), meaning),
    }
}

/// What the name of a use has to mean, where it means something else.
pub fn unmet_need(used: &Used, meaning: Option<Meaning>) -> Option<Need> {
    let is_met = match meaning {
        Some(meaning) => fits(used, meaning),
        None => false,
    };
    if is_met { None } else { Some(need_of(used)) }
}

/// What helps where a name is not what it has to be, with the name in place of `{}`.
pub fn help_for(need: Need, meaning: Option<Meaning>) -> &'static str {
    match need {
        Need::Class(ClassNeed::Single) => {
            "{} has to be an EVERY under TEMPORARY ENTITIES, or under EVENT NOTICES."
        }
        Need::Class(ClassNeed::Permanent) => "{} has to be an EVERY under PERMANENT ENTITIES.",
        Need::Class(ClassNeed::Notice) => {
            "{} has to be declared under EVENT NOTICES, by INCLUDE or by an EVERY."
        }
        Need::Routine => match meaning {
            Some(
                Meaning::Class {
                    kind: ClassKind::Notice,
                    ..
                },
            ) => "{} is an event: SCHEDULE it, or write what it shares with others as a ROUTINE.",
            _ => "{} has to be a section: write ROUTINE and this name, statements, and END.",
        },
        Need::Set => {
            "{} has to be owned by THE SYSTEM or an EVERY, and entities have to belong to it."
        }
        Need::Value => match meaning {
            Some(Meaning::Set { .. }) => {
                "{} is a set: F. before its name is its first member, N. how many it has."
            }
            Some(Meaning::Routine { .. }) => {
                "{} is a routine: CALL it, and take what it yields by YIELDING."
            }
            _ => "{} has to be an attribute or a variable: declare it, or mend its spelling.",
        },
        Need::Subject => "{} has to be declared, as by DEFINE .. AS AN INTEGER VARIABLE.",
    }
}
