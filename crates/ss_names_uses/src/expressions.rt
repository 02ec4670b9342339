//! The uses in expressions.

ghost use Rattle.std.specs.Prelude.{◌≡◌, ◌++◌, ◌∷◌, [], map, true, IfOk};
ghost use Rattle.std.specs.List.{flat_map};
ghost use Rattle.ss_base.specs.declared.words.Sign.{Sign};
ghost use Rattle.ss_tree.specs.Tree.{ExpressionTree};
ghost use Rattle.ss_tree.specs.View.{view_expression_tree, view_named, view_term};
ghost use Rattle.std.specs.Option.{option_map};
ghost use Rattle.ss_names_uses.specs.Uses.{use_at_line, class_used, count, designated, in_all_named, in_expression, in_named, in_option, expression_tree_mode, of_text, place_use, same};

use crate::used::{ClassNeed, CountNeed, ModeOf, Role, Use, Used};
use ss_base::{Line, Name};
use ss_tree::expression::{Designator, Expression, Function, Named, Term, UnaryOperator};
use std::alloc::AllocError;

// The mode of a named place.
fn designated(designator: Designator) -> ModeOf
    ensures { result ≡ designated designator }
{
    match designator {
        Designator::Name(name) => ModeOf::Named(name),
        Designator::TimeV | Designator::TimeA => ModeOf::Integer,
    }
}

// The mode of a target.
pub(crate) fn mode_of_target(target: &Named) -> ModeOf
    ensures { result ≡ designated target.now.designator }
{
    designated(target.designator)
}

// The mode of an expression; a text in parentheses is still a text.
#[tactic(auto, unfolding(ss_tree::specs::View::view_expression_tree))]
pub(crate) fn expression_mode(expression: &Expression) -> ModeOf
    ensures { result ≡ expression_tree_mode (view_expression_tree expression.now) }
{
    match expression {
        Expression::Text(_) => ModeOf::Alpha,
        Expression::Named(named) => designated(named.designator),
        Expression::Parenthesised(inner) => expression_mode(inner),
        Expression::Number(_)
        | Expression::Call { .. }
        | Expression::Product { .. }
        | Expression::Signed { .. }
        | Expression::Sum { .. } => ModeOf::Integer,
    }
}

// Adds one use.
pub(crate) fn add(into: &mut Vec<Use>, line: Line, what: Used) -> Result<(), AllocError>
    ensures { IfOk result (λ _. into.new.items ≡ into.old.items ++ use_at_line line what ∷ []) }
{
    // The checker needs to see the types of what a use holds.
    let _place = Designator::TimeV;
    let _mode = ModeOf::Integer;
    let _count = CountNeed::Arguments(Function::One(UnaryOperator::Absolute));
    into.push(Use { line, what })?;
    Ok(())
}

// Adds the use of two modes that have to be the same.
pub(crate) fn add_same(
    into: &mut Vec<Use>,
    line: Line,
    found: ModeOf,
    wanted: ModeOf,
) -> Result<(), AllocError>
    ensures { IfOk result (λ _. into.new.items ≡ into.old.items ++ same line found wanted ∷ []) }
{
    add(into, line, Used::Same { found, wanted })
}

// Adds the use of a class, and whether its entity is named.
pub(crate) fn add_class(
    into: &mut Vec<Use>,
    line: Line,
    need: ClassNeed,
    class: Name,
    called: bool,
) -> Result<(), AllocError>
    ensures { IfOk result (λ _. into.new.items ≡ into.old.items ++ class_used line need class called ∷ []) }
{
    let what = Used::Class {
        need,
        class,
        called,
    };
    add(into, line, what)
}

// Adds the use of a count, and how many are wanted.
pub(crate) fn add_count(
    into: &mut Vec<Use>,
    line: Line,
    found: usize,
    wanted: CountNeed,
) -> Result<(), AllocError>
    ensures { IfOk result (λ _. into.new.items ≡ into.old.items ++ count line found wanted ∷ []) }
{
    add(into, line, Used::Count { found, wanted })
}

// Adds the use of a named place with so many subscripts in a role. It may have to be a number.
pub(crate) fn add_place(
    into: &mut Vec<Use>,
    line: Line,
    role: Role,
    number: bool,
    designator: Designator,
    subscripts: usize,
) -> Result<(), AllocError>
    ensures { IfOk result (λ _. into.new.items ≡ into.old.items ++ place_use line role number designator subscripts ∷ []) }
{
    let what = Used::Place {
        role,
        place: designator,
        subscripts,
        number,
    };
    add(into, line, what)
}

// Adds the use of a text, if it has to be a number.
fn add_text(into: &mut Vec<Use>, line: Line, number: bool) -> Result<(), AllocError>
    ensures { IfOk result (λ _. into.new.items ≡ into.old.items ++ of_text line number) }
{
    if number {
        add_same(into, line, ModeOf::Alpha, ModeOf::Integer)
    } else {
        Ok(())
    }
}

// Adds the uses of an expression, from left to right. It may have to be a number; what is added, subtracted, multiplied or
// has a sign, each subscript, and each argument of a function has to be one.
#[cycle(adding)]
#[tactic(auto, unfolding(ss_tree::specs::View::view_expression_tree))]
pub(crate) fn add_expression(
    into: &mut Vec<Use>,
    line: Line,
    number: bool,
    expression: &Expression,
) -> Result<(), AllocError>
    ensures { IfOk result (λ _. into.new.items ≡ into.old.items ++ in_expression line number (view_expression_tree expression.now)) }
{
    match expression {
        Expression::Number(_) => Ok(()),
        Expression::Text(_) => add_text(into, line, number),
        Expression::Named(named) => {
            let subscripts = named.subscripts.len();
            add_place(
                into,
                line,
                Role::Value,
                number,
                named.designator,
                subscripts,
            )?;
            add_numbers(into, line, &named.subscripts)
        }
        Expression::Call {
            function,
            arguments,
        } => {
            let found = arguments.len();
            add_count(into, line, found, CountNeed::Arguments(*function))?;
            add_numbers(into, line, arguments)
        }
        Expression::Parenthesised(inner) => add_expression(into, line, number, inner),
        Expression::Product { first, further } => {
            add_expression(into, line, true, first)?;
            add_numbers(into, line, further)
        }
        Expression::Signed { term, .. } => add_expression(into, line, true, term),
        Expression::Sum { first, further } => {
            add_expression(into, line, true, first)?;
            add_terms(into, line, further)
        }
    }
}

// Adds the uses of expressions that have to be numbers.
#[cycle(adding)]
fn add_numbers(
    into: &mut Vec<Use>,
    line: Line,
    expressions: &[Expression],
) -> Result<(), AllocError>
    ensures { IfOk result (λ _. into.new.items ≡ into.old.items ++ flat_map (in_expression line true) (map view_expression_tree expressions.now)) }
{
    for expression in expressions {
        add_expression(into, line, true, expression)?;
    }
    Ok(())
}

// Adds the uses of the further terms of a sum.
#[cycle(adding)]
fn add_terms(into: &mut Vec<Use>, line: Line, terms: &[Term]) -> Result<(), AllocError>
    ensures { IfOk result (λ _. into.new.items ≡ into.old.items ++ flat_map (λ (t : Sign × ExpressionTree). in_expression line true t.1) (map view_term terms.now)) }
{
    for term in terms {
        add_expression(into, line, true, &term.value)?;
    }
    Ok(())
}

// Adds the uses of an expression that has to be a number, if there is one.
pub(crate) fn add_maybe(
    into: &mut Vec<Use>,
    line: Line,
    expression: &Option<Expression>,
) -> Result<(), AllocError>
    ensures { IfOk result (λ _. into.new.items ≡ into.old.items ++ in_option (in_expression line true) (option_map view_expression_tree expression.now)) }
{
    match expression {
        Some(expression) => add_expression(into, line, true, expression),
        None => Ok(()),
    }
}

// Adds the use of a named place in a role, and then those of its subscripts. It may have to be a number.
pub(crate) fn add_named(
    into: &mut Vec<Use>,
    line: Line,
    role: Role,
    number: bool,
    named: &Named,
) -> Result<(), AllocError>
    ensures { IfOk result (λ _. into.new.items ≡ into.old.items ++ in_named line role number (view_named named.now)) }
{
    let subscripts = named.subscripts.len();
    add_place(into, line, role, number, named.designator, subscripts)?;
    add_numbers(into, line, &named.subscripts)
}

// Adds the uses of several named places in a role, which may be of any mode.
pub(crate) fn add_all_named(
    into: &mut Vec<Use>,
    line: Line,
    role: Role,
    all: &[Named],
) -> Result<(), AllocError>
    ensures { IfOk result (λ _. into.new.items ≡ into.old.items ++ in_all_named line role (map view_named all.now)) }
{
    for named in all {
        add_named(into, line, role, false, named)?;
    }
    Ok(())
}

// Adds the uses of a target that takes a number, if there is one.
pub(crate) fn add_maybe_target(
    into: &mut Vec<Use>,
    line: Line,
    target: &Option<Named>,
) -> Result<(), AllocError>
    ensures { IfOk result (λ _. into.new.items ≡ into.old.items ++ in_option (in_named line Role.Target true) (option_map view_named target.now)) }
{
    match target {
        Some(target) => add_named(into, line, Role::Target, true, target),
        None => Ok(()),
    }
}
