//! Modes that don't fit: a number and a text that meet, and a MEAN that is no value.

use explain_pages::Part::{Bytes, Words};
use explain_pages::{Made, Page};
use ss_base::{Mode, Name};
use ss_names::Meaning;
use ss_names_scopes::{Scope, mode_of};
use ss_names_uses::{ModeOf, Role};

// The mode of a value in a section, where it is known.
fn mode_in(scope: &Scope<'_>, what: &ModeOf) -> Option<Mode> {
    let names = scope.names;
    match what {
        ModeOf::Integer => Some(Mode::Integer),
        ModeOf::Alpha => Some(Mode::Alpha),
        ModeOf::Named(name) => mode_of(scope.meaning_of_name(name)?),
        ModeOf::Given { routine, place } => {
            let entry = names.routines.get(routine)?;
            scope.parameter_mode(entry.section, *place)
        }
        ModeOf::Yielded { routine, place } => {
            let entry = names.routines.get(routine)?;
            scope.yielded_mode(entry.section, entry.given, *place)
        }
        ModeOf::Attribute { class, place } => {
            let class = names.classes.place(class)?;
            let attribute = names.attributes_of(class).get(*place)?;
            Some(names.attributes.get(attribute)?.mode)
        }
    }
}

fn mode_word(mode: Mode) -> &'static str {
    match mode {
        Mode::Integer => "INTEGER",
        Mode::Alpha => "ALPHA",
    }
}

// The modes of two values, if they are different ones.
fn different_modes(
    scope: &Scope<'_>,
    found: &ModeOf,
    wanted: &ModeOf,
) -> Option<(&'static str, &'static str)> {
    let found = mode_in(scope, found)?;
    let wanted = mode_in(scope, wanted)?;
    if found == wanted {
        return None;
    }
    Some((mode_word(found), mode_word(wanted)))
}

// The name of a value, if it has one.
fn name_in(what: &ModeOf) -> Option<&Name> {
    match what {
        ModeOf::Named(name) => Some(name),
        ModeOf::Given { routine, .. } => Some(routine),
        ModeOf::Yielded { routine, .. } => Some(routine),
        ModeOf::Attribute { class, .. } => Some(class),
        ModeOf::Integer => None,
        ModeOf::Alpha => None,
    }
}

/// Whether two values of different modes meet in a line, which is then explained.
pub fn explain_same(
    page: &mut Page<'_>,
    scope: &Scope<'_>,
    line: u32,
    found: &ModeOf,
    wanted: &ModeOf,
) -> Made<bool> {
    let Some((left, right)) = different_modes(scope, found, wanted) else {
        return Ok(false);
    };
    let words = "it is {}, and {} is {}";
    let (left, it, right) = (Words(left), Words("what it meets"), Words(right));
    match (name_in(found), name_in(wanted)) {
        (Some(name), Some(other)) => {
            let parts = [left, Bytes(other.bytes()), right];
            page.name(line, name.bytes(), words, &parts)?;
        }
        (Some(name), None) => page.name(line, name.bytes(), words, &[left, it, right])?,
        (None, Some(name)) => page.name(line, name.bytes(), words, &[right, it, left])?,
        (None, None) => page.in_line(line, "a number and a text meet here", &[])?,
    }
    page.cure(
        "A text is in quotes, as \"1\", and its names are ALPHA; a number has no quotes, and its names are INTEGER. Change the quotes here, or the DEFINE of the name.",
        &[],
    )?;
    Ok(true)
}

/// What is wrong with the mode of what a name means, where a MEAN may be or a number has to be, and what helps, with the name in place of `{}`.
pub fn mode_words(
    meaning: Meaning,
    role: Role,
    is_number: bool,
) -> Option<(&'static str, &'static str)> {
    let is_mean = matches!(meaning, Meaning::Statistic { fold: None, .. });
    if is_mean && matches!(role, Role::Value) {
        return Some((
            "it is a MEAN, which can be printed and nothing else",
            "Give the same TALLY a SUM and a NUMBER. In place of {} write SUM GT 10 * NUMBER for a mean above 10, or DIV.F(SUM, NUMBER).",
        ));
    }
    if is_number && matches!(mode_of(meaning), Some(Mode::Alpha)) {
        return Some((
            "it is ALPHA, a text, and a number is needed here",
            "Texts can be read, assigned, compared and printed alone. Declare {} as INTEGER, or use another name here.",
        ));
    }
    None
}
