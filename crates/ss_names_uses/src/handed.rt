//! The uses of values that are passed, each with the mode that is wanted in its place.

ghost use Rattle.std.specs.Prelude.{◌≡◌, ℕ, ◌++◌, map, IfOk};
ghost use Rattle.ss_tree.specs.View.{view_expression_tree, view_named};
ghost use Rattle.ss_names_uses.specs.Uses.{as_attribute, in_places, in_target, in_value};
ghost use Rattle.ss_names_uses.specs.declared.used.ModeOf.TheVariants as modes;

use crate::expressions::{add_expression, add_named, add_same, expression_mode, mode_of_target};
use crate::used::{ModeOf, Role, Use};
use ss_base::{Line, Name};
use ss_tree::expression::{Expression, Named};
use std::alloc::AllocError;

// Adds the uses of a value that has this mode.
fn add_value(
    into: &mut Vec<Use>,
    line: Line,
    wanted: ModeOf,
    value: &Expression,
) -> Result<(), AllocError>
    ensures { IfOk result (λ _. into.new.items ≡ into.old.items ++ in_value line wanted (view_expression_tree value.now)) }
{
    add_same(into, line, expression_mode(value), wanted)?;
    add_expression(into, line, false, value)
}

// Adds the uses of a target that takes a value of this mode.
pub(crate) fn add_target(
    into: &mut Vec<Use>,
    line: Line,
    wanted: ModeOf,
    target: &Named,
) -> Result<(), AllocError>
    ensures { IfOk result (λ _. into.new.items ≡ into.old.items ++ in_target line wanted (view_named target.now)) }
{
    add_same(into, line, mode_of_target(target), wanted)?;
    add_named(into, line, Role::Target, false, target)
}

// Adds the uses of values for the attributes of a class.
#[tactic(auto, using(crate::proofs::Rows::places_more, std::proofs::lemmas::Grind::common_steps))]
pub(crate) fn add_for_attributes(
    into: &mut Vec<Use>,
    line: Line,
    class: &Name,
    values: &[Expression],
) -> Result<(), AllocError>
    ensures { IfOk result (λ _. into.new.items ≡ into.old.items ++ in_places (λ (i : ℕ). in_value line (modes.Attribute class.now i)) 0 (map view_expression_tree values.now)) }
{
    for (place, value) in values.iter().enumerate() {
        let wanted = ModeOf::Attribute {
            class: *class,
            place,
        };
        add_value(into, line, wanted, value)?;
    }
    Ok(())
}

// Adds the uses of values that a routine is given.
#[tactic(auto, using(crate::proofs::Rows::places_more, std::proofs::lemmas::Grind::common_steps))]
pub(crate) fn add_for_given(
    into: &mut Vec<Use>,
    line: Line,
    routine: &Name,
    values: &[Expression],
) -> Result<(), AllocError>
    ensures { IfOk result (λ _. into.new.items ≡ into.old.items ++ in_places (λ (i : ℕ). in_value line (modes.Given routine.now i)) 0 (map view_expression_tree values.now)) }
{
    for (place, value) in values.iter().enumerate() {
        let wanted = ModeOf::Given {
            routine: *routine,
            place,
        };
        add_value(into, line, wanted, value)?;
    }
    Ok(())
}

// Adds the uses of targets of what a routine yields.
#[tactic(auto, using(crate::proofs::Rows::places_more, std::proofs::lemmas::Grind::common_steps))]
pub(crate) fn add_for_yielded(
    into: &mut Vec<Use>,
    line: Line,
    routine: &Name,
    targets: &[Named],
) -> Result<(), AllocError>
    ensures { IfOk result (λ _. into.new.items ≡ into.old.items ++ in_places (λ (i : ℕ). in_target line (modes.Yielded routine.now i)) 0 (map view_named targets.now)) }
{
    for (place, target) in targets.iter().enumerate() {
        let wanted = ModeOf::Yielded {
            routine: *routine,
            place,
        };
        add_target(into, line, wanted, target)?;
    }
    Ok(())
}

// Adds the uses of the parameters of an EVENT section as attributes of its class.
#[tactic(auto, using(crate::proofs::Rows::places_more, std::proofs::lemmas::Grind::common_steps))]
pub(crate) fn add_as_attributes(
    into: &mut Vec<Use>,
    line: Line,
    class: &Name,
    names: &[Name],
) -> Result<(), AllocError>
    ensures { IfOk result (λ _. into.new.items ≡ into.old.items ++ in_places (as_attribute line class.now) 0 names.now) }
{
    for (place, name) in names.iter().enumerate() {
        let wanted = ModeOf::Attribute {
            class: *class,
            place,
        };
        add_same(into, line, ModeOf::Named(*name), wanted)?;
    }
    Ok(())
}
