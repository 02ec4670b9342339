//! Local variables without a mode.

ghost use Rattle.std.specs.Prelude.{◌≡◌, not, map, IfOk};
ghost use Rattle.std.specs.List.{flat_map, fold};
ghost use Rattle.ss_tree.specs.View.{view_section};
ghost use Rattle.ss_names_declarations.specs.Earliest.{earlier, unless};
ghost use Rattle.ss_names_scopes.specs.Locals.{local_of};
ghost use Rattle.ss_tables_rules.specs.Broken.{unmoded};
ghost use Rattle.ss_tables_rules.specs.Order.{table_error_order};
ghost use Rattle.ss_tables_rules.specs.Rules.{lacks_mode, unmoded_in, unmoded_use};
ghost use Rattle.ss_tables_rules.specs.declared.error.TableError.TheVariants as e;

use crate::declarations::unless;
use crate::error::TableError;
use ss_base::Name;
use ss_names::Names;
use ss_names_declarations::earlier_of;
use ss_names_scopes::{Locals, local_of};
use ss_names_uses::{Use, uses_of};
use ss_tree::program::Section;
use std::alloc::{AllocError, Global};

// Whether a local variable that is named has no mode.
fn lacks_mode(locals: &Locals, name: &Option<Name>) -> bool
    ensures { result ≡ lacks_mode locals.now name.now }
{
    match name {
        Some(name) => match locals.mode(name) {
            Some(None) => true,
            Some(Some(_)) => false,
            None => false,
        },
        None => false,
    }
}

// The breach of a use of a local variable that has no mode.
fn use_breaks(names: &Names, locals: &Locals, one: &Use) -> Option<TableError>
    ensures { result ≡ unless (not (lacks_mode locals.now (local_of names.now one.now.what))) (e.RealMode one.now.line) }
{
    let name = local_of(names, &one.what);
    unless(!lacks_mode(locals, &name), TableError::RealMode(one.line))
}

// What was found so far, or the first use of a local variable that has no mode.
fn uses_break(
    names: &Names,
    locals: &Locals,
    uses: &[Use],
    found: Option<TableError>,
) -> Option<TableError>
    ensures { result ≡ fold (earlier table_error_order) found (flat_map (unmoded_use names.now locals.now) uses.now) }
{
    let mut found = found;
    for one in uses {
        found = earlier_of(found, use_breaks(names, locals, one));
    }
    found
}

// What was found so far, or the first use in a section of a local variable that has no mode.
fn unmoded_in(
    alloc: Global,
    names: &Names,
    section: &Section,
    found: Option<TableError>,
) -> Result<Option<TableError>, AllocError>
    ensures { IfOk result (λ b. b ≡ fold (earlier table_error_order) found (unmoded_in names.now (view_section section.now))) }
{
    let uses = uses_of(alloc, section)?;
    let locals = Locals::of(alloc, names, &uses)?;
    Ok(uses_break(names, &locals, &uses, found))
}

// What was found so far, or the first use in sections of a local variable that has no mode.
fn sections_break(
    alloc: Global,
    names: &Names,
    sections: &[Section],
    found: Option<TableError>,
) -> Result<Option<TableError>, AllocError>
    ensures { IfOk result (λ b. b ≡ fold (earlier table_error_order) found (flat_map (unmoded_in names.now) (map view_section sections.now))) }
{
    let mut found = found;
    for section in sections {
        found = unmoded_in(alloc, names, section, found)?;
    }
    Ok(found)
}

/// What was found so far, or the first use of a local variable that has no mode.
///
/// # Errors
/// `AllocError` where memory is refused.
pub fn unmoded(
    alloc: Global,
    names: &Names,
    sections: &[Section],
    found: Option<TableError>,
) -> Result<Option<TableError>, AllocError>
    ensures { IfOk result (λ b. b ≡ fold (earlier table_error_order) found (unmoded names.now (map view_section sections.now))) }
{
    match names.usual {
        Some(_) => Ok(found),
        None => sections_break(alloc, names, sections, found),
    }
}
