//! The rules on the uses of a section.

ghost use Rattle.std.specs.Prelude.{◌≡◌};
ghost use Rattle.std.specs.List.{flat_map, fold};
ghost use Rattle.ss_names_declarations.specs.Earliest.{earlier, unless};
ghost use Rattle.ss_names_declarations.specs.NameTable.{value_for};
ghost use Rattle.ss_names_scopes.specs.Seen.{view_scope};
ghost use Rattle.ss_check_rules.specs.declared.error.CheckError.TheVariants as e;
ghost use Rattle.ss_check_rules.specs.Kinds.{if_means, is_routine};
ghost use Rattle.ss_check_rules.specs.Order.{check_error_order};
ghost use Rattle.ss_check_rules.specs.Refusal.{breaks, used_breaks};

use crate::counts::count_breaks;
use crate::error::{CheckError, unless};
use crate::kinds::if_routine;
use crate::places::{class_breaks, mean_breaks, place_breaks, same_breaks};
use ss_base::{Line, Name};
use ss_names::Names;
use ss_names_declarations::earlier_of;
use ss_names_scopes::Scope;
use ss_names_uses::{Use, Used};

// The breach of a CALL of what is no routine.
fn routine_breaks(names: &Names, line: Line, routine: &Name) -> Option<CheckError>
    ensures { result ≡ unless (if_means is_routine (value_for names.now.meanings routine.now)) (e.Unknown line) }
{
    unless(
        if_routine(names.meaning(routine)),
        CheckError::Unknown(line),
    )
}

// The first of the rules that what is used in this line breaks, in MAIN or in another section.
fn used_breaks(scope: &Scope<'_>, in_main: bool, line: Line, used: &Used) -> Option<CheckError>
    ensures { result ≡ used_breaks (view_scope scope.now) in_main line used.now }
{
    match used {
        Used::Parameter { .. } => None,
        Used::Local { .. } => None,
        Used::Place {
            role,
            place,
            subscripts,
            number,
        } => place_breaks(scope, line, *role, place, *subscripts, *number),
        Used::Class {
            need,
            class,
            called,
        } => class_breaks(scope, line, *need, class, *called),
        Used::Routine { routine } => routine_breaks(scope.names, line, routine),
        Used::Start => unless(in_main, CheckError::StartPlace(line)),
        Used::Same { found, wanted } => same_breaks(scope, line, found, wanted),
        Used::Count { found, wanted } => count_breaks(scope.names, line, *found, wanted),
        Used::Mean { place } => mean_breaks(scope, line, place),
        Used::Unfit => Some(CheckError::Fields(line)),
    }
}

/// What was found so far, or the first rule that the uses of a section break.
pub fn section_breaks(
    scope: &Scope<'_>,
    in_main: bool,
    uses: &[Use],
    found: Option<CheckError>,
) -> Option<CheckError>
    ensures { result ≡ fold (earlier check_error_order) found (flat_map (breaks (view_scope scope.now) in_main) uses.now) }
{
    let mut found = found;
    for one in uses {
        found = earlier_of(found, used_breaks(scope, in_main, one.line, &one.what));
    }
    found
}
