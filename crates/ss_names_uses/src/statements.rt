//! The uses in statements.

ghost use Rattle.std.specs.Prelude.{◌≡◌, true, false, ◌++◌, map, IfOk};
ghost use Rattle.ss_tree.specs.Names.{NameBytes};
ghost use Rattle.ss_tree.specs.View.{view_expression_tree, view_named, view_position_tree, view_statement_tree, view_when_tree};
ghost use Rattle.std.specs.Option.{option_map};
ghost use Rattle.ss_names_uses.specs.Uses.{class_used, in_body, in_call, in_entity_statement, in_expression, in_given, in_inner, in_itself, in_new, in_old, in_position, in_target, in_when, expression_tree_mode};
ghost use Rattle.ss_names_uses.specs.declared.used.ClassNeed.TheVariants as needs;

use crate::conditions::add_condition;
use crate::expressions::{
    add, add_all_named, add_class, add_count, add_expression, add_maybe, add_maybe_target,
    add_named, expression_mode,
};
use crate::handed::{add_for_attributes, add_for_given, add_for_yielded, add_target};
use crate::heads::{add_head, add_loop_head};
use crate::pictures::add_print;
use crate::used::{ClassNeed, CountNeed, Role, Use, Used};
use ss_base::{Line, Name};
use ss_tree::expression::{Expression, Named};
use ss_tree::statement::{Position, Statement, When};
use std::alloc::{AllocError, Global};

// Adds the uses of the position at which a member is filed.
fn add_position(into: &mut Vec<Use>, line: Line, position: &Position) -> Result<(), AllocError>
    ensures { IfOk result (λ _. into.new.items ≡ into.old.items ++ in_position line (view_position_tree position.now)) }
{
    match position {
        Position::Discipline | Position::First | Position::Last => Ok(()),
        Position::Before(member) | Position::After(member) => {
            add_expression(into, line, true, member)
        }
    }
}

// Adds the uses of the time at which a notice is due.
fn add_when(into: &mut Vec<Use>, line: Line, when: &When) -> Result<(), AllocError>
    ensures { IfOk result (λ _. into.new.items ≡ into.old.items ++ in_when line (view_when_tree when.now)) }
{
    match when {
        When::At(time) | When::In(time) => add_expression(into, line, true, time),
        When::Now => Ok(()),
    }
}

// Adds the uses of a class and of the target of its new entity.
fn add_new(
    into: &mut Vec<Use>,
    line: Line,
    need: ClassNeed,
    class: Name,
    called: &Option<Named>,
) -> Result<(), AllocError>
    ensures { IfOk result (λ _. into.new.items ≡ into.old.items ++ in_new line need class (option_map view_named called.now)) }
{
    add_class(into, line, need, class, called.is_some())?;
    add_maybe_target(into, line, called)
}

// Adds the uses of a class and of the reference to an entity of it.
fn add_old(
    into: &mut Vec<Use>,
    line: Line,
    need: ClassNeed,
    class: Name,
    called: &Option<Expression>,
) -> Result<(), AllocError>
    ensures { IfOk result (λ _. into.new.items ≡ into.old.items ++ in_old line need class (option_map view_expression_tree called.now)) }
{
    add_class(into, line, need, class, called.is_some())?;
    add_maybe(into, line, called)
}

// Adds the uses of the classes of CREATE EVERY.
fn add_created_classes(into: &mut Vec<Use>, line: Line, classes: &[Name]) -> Result<(), AllocError>
    ensures { IfOk result (λ _. into.new.items ≡ into.old.items ++ map (λ (class : NameBytes). class_used line needs.Permanent class true) classes.now) }
{
    for class in classes {
        add_class(into, line, ClassNeed::Permanent, *class, true)?;
    }
    Ok(())
}

// Adds the uses of the values that SCHEDULE gives to the attributes of a class.
fn add_given(
    into: &mut Vec<Use>,
    line: Line,
    class: &Name,
    given: &[Expression],
) -> Result<(), AllocError>
    ensures { IfOk result (λ _. into.new.items ≡ into.old.items ++ in_given line class.now (map view_expression_tree given.now)) }
{
    add_count(into, line, given.len(), CountNeed::Attributes(*class))?;
    add_for_attributes(into, line, class, given)
}

// Adds the uses of a CALL: as many values as the routine is given, and as many targets as it yields, each of the mode in its
// place.
fn add_call(
    into: &mut Vec<Use>,
    line: Line,
    routine: &Name,
    given: &[Expression],
    yielding: &[Named],
) -> Result<(), AllocError>
    ensures { IfOk result (λ _. into.new.items ≡ into.old.items ++ in_call line routine.now (map view_expression_tree given.now) (map view_named yielding.now)) }
{
    add(into, line, Used::Routine { routine: *routine })?;
    add_count(into, line, given.len(), CountNeed::Given(*routine))?;
    add_count(into, line, yielding.len(), CountNeed::Yielded(*routine))?;
    add_for_given(into, line, routine, given)?;
    add_for_yielded(into, line, routine, yielding)
}

// Adds the uses of a LET.
fn add_let(
    into: &mut Vec<Use>,
    line: Line,
    target: &Named,
    value: &Expression,
) -> Result<(), AllocError>
    ensures { IfOk result (λ _. into.new.items ≡ into.old.items ++ (in_target line (expression_tree_mode (view_expression_tree value.now)) (view_named target.now) ++ in_expression line false (view_expression_tree value.now))) }
{
    add_target(into, line, expression_mode(value), target)?;
    add_expression(into, line, false, value)
}

// Adds the uses of a statement on entities, sets or notices, and none of others.
#[tactic(auto, unfolding(ss_tree::specs::View::view_statement_tree))]
fn add_of_entities(into: &mut Vec<Use>, statement: &Statement) -> Result<(), AllocError>
    ensures { IfOk result (λ _. into.new.items ≡ into.old.items ++ in_entity_statement (view_statement_tree statement.now)) }
{
    match statement {
        Statement::Create {
            line,
            class,
            called,
        } => add_new(into, *line, ClassNeed::Single, *class, called),
        Statement::CreateEvery { line, classes } => add_created_classes(into, *line, classes),
        Statement::Destroy {
            line,
            class,
            called,
        } => add_old(into, *line, ClassNeed::Single, *class, called),
        Statement::File {
            line,
            member,
            position,
            set,
        } => {
            add_expression(into, *line, true, member)?;
            add_position(into, *line, position)?;
            add_named(into, *line, Role::Set, false, set)
        }
        Statement::RemoveEnd {
            line,
            target,
            set,
            ..
        } => {
            add_named(into, *line, Role::Target, true, target)?;
            add_named(into, *line, Role::Set, false, set)
        }
        Statement::Remove { line, member, set } => {
            add_expression(into, *line, true, member)?;
            add_named(into, *line, Role::Set, false, set)
        }
        Statement::ScheduleNew {
            line,
            class,
            called,
            given,
            when,
        } => {
            add_new(into, *line, ClassNeed::Notice, *class, called)?;
            add_given(into, *line, class, given)?;
            add_when(into, *line, when)
        }
        Statement::Schedule {
            line,
            class,
            called,
            given,
            when,
        } => {
            add_old(into, *line, ClassNeed::Notice, *class, called)?;
            add_given(into, *line, class, given)?;
            add_when(into, *line, when)
        }
        Statement::Cancel {
            line,
            class,
            called,
        } => add_old(into, *line, ClassNeed::Notice, *class, called),
        _ => Ok(()),
    }
}

// Adds the uses of a statement, without those of the statements in it.
#[tactic(auto, unfolding(ss_tree::specs::View::view_statement_tree))]
fn add_itself(alloc: Global, into: &mut Vec<Use>, statement: &Statement) -> Result<(), AllocError>
    ensures { IfOk result (λ _. into.new.items ≡ into.old.items ++ in_itself (view_statement_tree statement.now)) }
{
    match statement {
        Statement::Let {
            line,
            target,
            value,
        } => add_let(into, *line, target, value),
        Statement::Add {
            line,
            amount,
            target,
        }
        | Statement::Subtract {
            line,
            amount,
            target,
        } => {
            add_expression(into, *line, true, amount)?;
            add_named(into, *line, Role::Target, true, target)
        }
        Statement::Call {
            line,
            routine,
            given,
            yielding,
        } => add_call(into, *line, routine, given, yielding),
        Statement::Return { .. } | Statement::Stop { .. } => Ok(()),
        Statement::Read { line, targets } => add_all_named(into, *line, Role::Target, targets),
        Statement::StartSimulation { line } => add(into, *line, Used::Start),
        Statement::If {
            line,
            condition,
            ..
        } => add_condition(into, *line, condition),
        Statement::Loop { line, head, .. } => add_loop_head(into, *line, head),
        Statement::Find { line, head } | Statement::FindIf { line, head, .. } => {
            add_head(into, *line, head)
        }
        Statement::Print {
            line,
            items,
            pictures,
        } => add_print(alloc, into, *line, items, pictures),
        Statement::Skip { line, count } => add_expression(into, *line, true, count),
        Statement::Reset { line, targets } => add_all_named(into, *line, Role::Reset, targets),
        _ => add_of_entities(into, statement),
    }
}

// Adds the uses of the statements in a statement, in the order of the text.
#[cycle(walking)]
#[tactic(auto, unfolding(ss_tree::specs::View::view_statement_tree))]
fn add_inner(alloc: Global, into: &mut Vec<Use>, statement: &Statement) -> Result<(), AllocError>
    ensures { IfOk result (λ _. into.new.items ≡ into.old.items ++ in_inner (view_statement_tree statement.now)) }
{
    match statement {
        Statement::If {
            then,
            otherwise,
            ..
        } => {
            add_body(alloc, into, then)?;
            add_body(alloc, into, otherwise)
        }
        Statement::FindIf {
            then,
            otherwise,
            ..
        } => {
            add_body(alloc, into, then)?;
            add_body(alloc, into, otherwise)
        }
        Statement::Loop { body, .. } => add_body(alloc, into, body),
        _ => Ok(()),
    }
}

// Adds the uses of the statements of a body, in the order of the text.
#[cycle(walking)]
pub(crate) fn add_body(
    alloc: Global,
    into: &mut Vec<Use>,
    body: &[Statement],
) -> Result<(), AllocError>
    ensures { IfOk result (λ _. into.new.items ≡ into.old.items ++ in_body (map view_statement_tree body.now)) }
{
    for statement in body {
        add_itself(alloc, into, statement)?;
        add_inner(alloc, into, statement)?;
    }
    Ok(())
}
