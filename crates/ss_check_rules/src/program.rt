//! The first rule that is broken.

ghost use Rattle.std.specs.Prelude.{◌≡◌, None, length, map, IfOk};
ghost use Rattle.std.specs.List.{flat_map, fold, list_any};
ghost use Rattle.ss_tree.specs.View.{view_preamble, view_program_tree, view_section};
ghost use Rattle.ss_names.specs.Table.{table};
ghost use Rattle.ss_names_declarations.specs.Earliest.{earlier, earliest};
ghost use Rattle.ss_names_uses.specs.Uses.{uses};
ghost use Rattle.ss_names_scopes.specs.Locals.{locals_of, uses_seen};
ghost use Rattle.ss_names_scopes.specs.Scopes.{is_main_section};
ghost use Rattle.ss_check_rules.specs.Order.{check_error_order};
ghost use Rattle.ss_check_rules.specs.Refusal.{breaches, in_program, breaches_in_section, refusal_of_uses};

use crate::error::CheckError;
use crate::preamble::preamble_breaks;
use crate::sections::section_breaks;
use ss_base::Line;
use ss_names::Names;
use ss_names_declarations::earlier;
use ss_names_scopes::{Locals, Scope, all_locals, is_main};
use ss_names_uses::{Use, uses_of};
use ss_tree::preamble::PreambleStatement;
use ss_tree::program::{Program, Section};
use std::alloc::{AllocError, Global};

// Whether one of these sections is MAIN.
fn has_main(sections: &[Section]) -> bool
    ensures { result ≡ list_any (λ section. is_main_section (view_section section)) sections.now }
{
    let mut any = false;
    for section in sections {
        any = any || is_main(section);
    }
    any
}

// What was found so far, or that there is no MAIN.
fn program_breaks(sections: &[Section], found: Option<CheckError>) -> Option<CheckError>
    ensures { result ≡ fold (earlier check_error_order) found (in_program (map view_section sections.now)) }
{
    if has_main(sections) {
        found
    } else {
        earlier(found, CheckError::NoMain(Line(0)))
    }
}

// The uses of each section.
fn all_uses(alloc: Global, sections: &[Section]) -> Result<Vec<Vec<Use>>, AllocError>
    ensures { IfOk result (λ all. map uses_seen all.items ≡ map uses (map view_section sections.now)) }
{
    let mut all = Vec::new(alloc);
    for section in sections {
        let one = uses_of(alloc, section)?;
        all.push(one)?;
    }
    Ok(all)
}

// The first rule that sections with these uses and local variables break, or what was found so far.
fn sections_break(
    names: &Names,
    sections: &[Section],
    all: &[Vec<Use>],
    locals: &[Locals],
    found: Option<CheckError>,
) -> Option<CheckError>
    requires each { length all.now ≡ length sections.now }
    requires every { length locals.now ≡ length sections.now }
    requires uses { map uses_seen all.now ≡ map uses (map view_section sections.now) }
    requires locals { locals.now ≡ map (locals_of names.now) (map view_section sections.now) }
    ensures { result ≡ fold (earlier check_error_order) found (flat_map (breaches_in_section names.now (map view_section sections.now)) (map view_section sections.now)) }
{
    let mut found = found;
    for (number, section) in sections.iter().enumerate() {
        let own = &locals[number];
        let uses = &all[number];
        let scope = Scope {
            names,
            locals: own,
            sections: locals,
        };
        found = section_breaks(&scope, is_main(section), uses, found);
    }
    found
}

// The first rule that a program breaks, whose sections have these uses and local variables.
fn program_judged(
    names: &Names,
    preamble: &[PreambleStatement],
    sections: &[Section],
    all: &[Vec<Use>],
    locals: &[Locals],
) -> Option<CheckError>
    requires each { length all.now ≡ length sections.now }
    requires every { length locals.now ≡ length sections.now }
    requires uses { map uses_seen all.now ≡ map uses (map view_section sections.now) }
    requires locals { locals.now ≡ map (locals_of names.now) (map view_section sections.now) }
    ensures { result ≡ earliest check_error_order (breaches names.now (record { preamble = map view_preamble preamble.now; sections = map view_section sections.now })) }
{
    let by_preamble = preamble_breaks(names, preamble, None);
    let by_program = program_breaks(sections, by_preamble);
    sections_break(names, sections, all, locals, by_program)
}

/// The first rule that a program breaks, in the order 71, 72, 78, 79, 75, 76, 74, 73, 77, each over the whole program, with the
/// first line where it does, 0 for 71. None where it breaks none. And the local variables of each of its sections.
///
/// # Errors
/// `AllocError` where memory is refused.
pub fn judge(
    alloc: Global,
    program: &Program,
    names: &Names,
) -> Result<(Option<CheckError>, Vec<Locals>), AllocError>
    requires { names.now ≡ table (view_program_tree program.now) }
    ensures refusal { IfOk result (λ found. found.0 ≡ refusal_of_uses (view_program_tree program.now)) }
    ensures locals { IfOk result (λ found. found.1.items ≡ map (locals_of names.now) (map view_section program.now.sections.items)) }
{
    let all = all_uses(alloc, &program.sections)?;
    let locals = all_locals(alloc, names, &all)?;
    let found = program_judged(names, &program.preamble, &program.sections, &all, &locals);
    Ok((found, locals))
}
