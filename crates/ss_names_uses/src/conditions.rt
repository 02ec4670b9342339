//! The uses in conditions.

ghost use Rattle.std.specs.Prelude.{◌≡◌, ◌++◌, map, IfOk};
ghost use Rattle.std.specs.List.{flat_map};
ghost use Rattle.ss_tree.specs.View.{view_condition_tree, view_test_tree};
ghost use Rattle.ss_names_uses.specs.Uses.{in_condition, in_test};

use crate::expressions::{add_expression, add_named, add_same, expression_mode};
use crate::used::{Role, Use};
use ss_base::Line;
use ss_tree::condition::{Condition, Test};
use std::alloc::AllocError;

// Adds the uses of a test.
fn add_test(into: &mut Vec<Use>, line: Line, test: &Test) -> Result<(), AllocError>
    ensures { IfOk result (λ _. into.new.items ≡ into.old.items ++ in_test line (view_test_tree test.now)) }
{
    match test {
        Test::Compare { left, right, .. } => {
            add_same(into, line, expression_mode(left), expression_mode(right))?;
            add_expression(into, line, false, left)?;
            add_expression(into, line, false, right)
        }
        Test::Empty { set, .. } => add_named(into, line, Role::Set, false, set),
        Test::Member { member, set, .. } => {
            add_expression(into, line, true, member)?;
            add_named(into, line, Role::Set, false, set)
        }
        Test::DataEnded { .. } => Ok(()),
    }
}

// Adds the uses of tests joined by AND.
fn add_tests(into: &mut Vec<Use>, line: Line, tests: &[Test]) -> Result<(), AllocError>
    ensures { IfOk result (λ _. into.new.items ≡ into.old.items ++ flat_map (in_test line) (map view_test_tree tests.now)) }
{
    for test in tests {
        add_test(into, line, test)?;
    }
    Ok(())
}

// Adds the uses of a condition.
pub(crate) fn add_condition(
    into: &mut Vec<Use>,
    line: Line,
    condition: &Condition,
) -> Result<(), AllocError>
    ensures { IfOk result (λ _. into.new.items ≡ into.old.items ++ in_condition line (view_condition_tree condition.now)) }
{
    for conjunction in &condition.alternatives {
        add_tests(into, line, &conjunction.tests)?;
    }
    Ok(())
}
