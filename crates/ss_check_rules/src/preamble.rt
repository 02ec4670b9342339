//! The rules on classes of notices and on subjects of statistics.

ghost use Rattle.std.specs.Prelude.{◌≡◌, is_some, map};
ghost use Rattle.std.specs.List.{flat_map, fold};
ghost use Rattle.ss_tree.specs.View.{view_preamble};
ghost use Rattle.ss_names_declarations.specs.Earliest.{earlier, unless};
ghost use Rattle.ss_names_declarations.specs.NameTable.{value_for};
ghost use Rattle.ss_check_rules.specs.declared.error.CheckError.TheVariants as e;
ghost use Rattle.ss_check_rules.specs.Order.{check_error_order};
ghost use Rattle.ss_check_rules.specs.Refusal.{eventless, eventless_of, in_preamble, subject_breaks};

use crate::error::{CheckError, unless};
use crate::kinds::if_watched;
use crate::places::is_text;
use ss_base::{Line, Name};
use ss_names::{Meaning, Names};
use ss_names_declarations::{earlier_of, has_entry};
use ss_tree::preamble::{ClassKind, PreambleStatement};

// The breach of a class of notices without an EVENT section.
fn eventless(names: &Names, line: Line, class: &Name) -> Option<CheckError>
    ensures { result ≡ unless (is_some (value_for names.now.events class.now)) (e.NoEventRoutine line) }
{
    unless(
        has_entry(&names.events, class),
        CheckError::NoEventRoutine(line),
    )
}

// What was found so far, or the first of these classes of notices that has no EVENT section.
fn notices_break(
    names: &Names,
    line: Line,
    classes: &[Name],
    found: Option<CheckError>,
) -> Option<CheckError>
    ensures { result ≡ fold (earlier check_error_order) found (flat_map (eventless names.now line) classes.now) }
{
    let mut found = found;
    for class in classes {
        found = earlier_of(found, eventless(names, line, class));
    }
    found
}

// What was found so far, or a class of notices without an EVENT section.
fn class_breaks(
    names: &Names,
    line: Line,
    kind: ClassKind,
    class: &Name,
    found: Option<CheckError>,
) -> Option<CheckError>
    ensures { result ≡ fold (earlier check_error_order) found (eventless_of names.now line kind class.now) }
{
    match kind {
        ClassKind::Notice => earlier_of(found, eventless(names, line, class)),
        ClassKind::Permanent => found,
        ClassKind::Temporary => found,
    }
}

// The first of the rules that a subject breaks, which means this.
fn subject_breaks(line: Line, meaning: Option<Meaning>) -> Option<CheckError>
    ensures { result ≡ subject_breaks line meaning }
{
    if if_watched(meaning) {
        unless(!is_text(meaning), CheckError::Mode(line))
    } else {
        Some(CheckError::Unknown(line))
    }
}

// What was found so far, or the first rule that a statement breaks.
fn statement_breaks(
    names: &Names,
    statement: &PreambleStatement,
    found: Option<CheckError>,
) -> Option<CheckError>
    ensures { result ≡ fold (earlier check_error_order) found (in_preamble names.now (view_preamble statement.now)) }
{
    match statement {
        PreambleStatement::EventNotices { line, included } => {
            notices_break(names, *line, included, found)
        }
        PreambleStatement::Every {
            line,
            kind,
            class,
            ..
        } => class_breaks(names, *line, *kind, class, found),
        PreambleStatement::Statistics { line, subject, .. } => {
            earlier_of(found, subject_breaks(*line, names.meaning(subject)))
        }
        _ => found,
    }
}

/// What was found so far, or the first rule that a preamble breaks.
pub fn preamble_breaks(
    names: &Names,
    preamble: &[PreambleStatement],
    found: Option<CheckError>,
) -> Option<CheckError>
    ensures { result ≡ fold (earlier check_error_order) found (flat_map (in_preamble names.now) (map view_preamble preamble.now)) }
{
    let mut found = found;
    for statement in preamble {
        found = statement_breaks(names, statement, found);
    }
    found
}
