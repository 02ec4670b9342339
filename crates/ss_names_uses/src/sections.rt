//! The uses of a section.

ghost use Rattle.std.specs.Prelude.{◌≡◌, ◌++◌, map, IfOk};
ghost use Rattle.std.specs.List.{flat_map};
ghost use Rattle.ss_tree.specs.View.{view_definition, view_kind, view_section};
ghost use Rattle.ss_names_uses.specs.Uses.{in_local_definition, in_event, in_kind, local_use, parameter_use, uses};

use crate::expressions::{add, add_class, add_count};
use crate::handed::add_as_attributes;
use crate::statements::add_body;
use crate::used::{ClassNeed, CountNeed, Use, Used};
use ss_base::{Line, Name};
use ss_tree::preamble::ModeWord;
use ss_tree::program::{LocalDefinition, Section, SectionKind};
use std::alloc::{AllocError, Global};

// Adds the uses of parameters.
fn add_parameters(into: &mut Vec<Use>, line: Line, names: &[Name]) -> Result<(), AllocError>
    ensures { IfOk result (λ _. into.new.items ≡ into.old.items ++ map (parameter_use line) names.now) }
{
    for name in names {
        add(into, line, Used::Parameter { name: *name })?;
    }
    Ok(())
}

// Adds the uses of the head of an EVENT section: it is given attributes of its class, each of the mode in its place.
fn add_event(
    into: &mut Vec<Use>,
    line: Line,
    class: &Name,
    given: &[Name],
) -> Result<(), AllocError>
    ensures { IfOk result (λ _. into.new.items ≡ into.old.items ++ in_event line class.now given.now) }
{
    add_class(into, line, ClassNeed::Notice, *class, true)?;
    add_count(into, line, given.len(), CountNeed::Attributes(*class))?;
    add_parameters(into, line, given)?;
    add_as_attributes(into, line, class, given)
}

// Adds the uses of the head of a section.
fn add_kind(into: &mut Vec<Use>, line: Line, kind: &SectionKind) -> Result<(), AllocError>
    ensures { IfOk result (λ _. into.new.items ≡ into.old.items ++ in_kind line (view_kind kind.now)) }
{
    match kind {
        SectionKind::Main => Ok(()),
        SectionKind::Routine {
            given,
            yielding,
            ..
        } => {
            add_parameters(into, line, given)?;
            add_parameters(into, line, yielding)
        }
        SectionKind::Event { name, given, .. } => add_event(into, line, name, given),
    }
}

// Adds the uses of names that a local DEFINE gives a mode.
fn add_locals(
    into: &mut Vec<Use>,
    line: Line,
    mode: ModeWord,
    names: &[Name],
) -> Result<(), AllocError>
    ensures { IfOk result (λ _. into.new.items ≡ into.old.items ++ map (local_use line mode) names.now) }
{
    for name in names {
        add(into, line, Used::Local { name: *name, mode })?;
    }
    Ok(())
}

// Adds the uses of the names that local DEFINEs give modes.
fn add_definitions(into: &mut Vec<Use>, definitions: &[LocalDefinition]) -> Result<(), AllocError>
    ensures { IfOk result (λ _. into.new.items ≡ into.old.items ++ flat_map in_local_definition (map view_definition definitions.now)) }
{
    for definition in definitions {
        add_locals(into, definition.line, definition.mode, &definition.names)?;
    }
    Ok(())
}

/// The uses of a section, in the order of the text: its parameters, the names that it defines, and all that its statements
/// use.
///
/// # Errors
/// `AllocError` where memory is refused.
pub fn uses_of(alloc: Global, section: &Section) -> Result<Vec<Use>, AllocError>
    ensures { IfOk result (λ found. found.items ≡ uses (view_section section.now)) }
{
    let mut found = Vec::new(alloc);
    add_kind(&mut found, section.line, &section.kind)?;
    add_definitions(&mut found, &section.definitions)?;
    add_body(alloc, &mut found, &section.body)?;
    Ok(found)
}
