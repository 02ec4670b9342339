//! The uses in heads of loops.

ghost use Rattle.std.specs.Prelude.{◌≡◌, ◌++◌, map, IfOk};
ghost use Rattle.std.specs.List.{flat_map};
ghost use Rattle.ss_tree.specs.View.{view_guard_tree, view_head_tree, view_loop_head, view_phrase_tree, view_start_tree};
ghost use Rattle.ss_names_uses.specs.Uses.{in_guard, in_head, in_loop_head, in_option, in_phrase, in_start, loop_variable};

use crate::conditions::add_condition;
use crate::expressions::{add_class, add_expression, add_maybe, add_named, add_place};
use crate::used::{ClassNeed, Role, Use};
use ss_base::{Line, Name};
use ss_tree::expression::Designator;
use ss_tree::head::{Guard, Head, LoopHead, MemberStart, Phrase};
use std::alloc::AllocError;

// Adds the use of the variable of a loop, which takes numbers.
fn add_variable(into: &mut Vec<Use>, line: Line, variable: Name) -> Result<(), AllocError>
    ensures { IfOk result (λ _. into.new.items ≡ into.old.items ++ loop_variable line variable) }
{
    let place = Designator::Name(variable);
    add_place(into, line, Role::LoopVariable, true, place, 0)
}

// Adds the use of the variable after CALLED, if there is one.
fn add_called(into: &mut Vec<Use>, line: Line, called: &Option<Name>) -> Result<(), AllocError>
    ensures { IfOk result (λ _. into.new.items ≡ into.old.items ++ in_option (loop_variable line) called.now) }
{
    match called {
        Some(variable) => add_variable(into, line, *variable),
        None => Ok(()),
    }
}

// Adds the uses of the member with which a loop begins.
fn add_start(into: &mut Vec<Use>, line: Line, start: &MemberStart) -> Result<(), AllocError>
    ensures { IfOk result (λ _. into.new.items ≡ into.old.items ++ in_start line (view_start_tree start.now)) }
{
    match start {
        MemberStart::End => Ok(()),
        MemberStart::From(member) | MemberStart::After(member) => {
            add_expression(into, line, true, member)
        }
    }
}

// Adds the uses of the phrases of a FOR.
fn add_phrases(into: &mut Vec<Use>, line: Line, phrases: &[Phrase]) -> Result<(), AllocError>
    ensures { IfOk result (λ _. into.new.items ≡ into.old.items ++ flat_map (in_phrase line) (map view_phrase_tree phrases.now)) }
{
    for phrase in phrases {
        add_condition(into, line, &phrase.condition)?;
    }
    Ok(())
}

// Adds the uses of the conditions of a loop that begins with WHILE or UNTIL.
fn add_guards(into: &mut Vec<Use>, line: Line, guards: &[Guard]) -> Result<(), AllocError>
    ensures { IfOk result (λ _. into.new.items ≡ into.old.items ++ flat_map (in_guard line) (map view_guard_tree guards.now)) }
{
    for guard in guards {
        add_condition(into, line, &guard.condition)?;
    }
    Ok(())
}

// Adds the uses of the head of a FOR.
pub(crate) fn add_head(into: &mut Vec<Use>, line: Line, head: &Head) -> Result<(), AllocError>
    ensures { IfOk result (λ _. into.new.items ≡ into.old.items ++ in_head line (view_head_tree head.now)) }
{
    match head {
        Head::Range {
            variable,
            from,
            to,
            step,
            phrases,
        } => {
            add_variable(into, line, *variable)?;
            add_expression(into, line, true, from)?;
            add_expression(into, line, true, to)?;
            add_maybe(into, line, step)?;
            add_phrases(into, line, phrases)
        }
        Head::Members {
            variable,
            set,
            start,
            phrases,
            ..
        } => {
            add_variable(into, line, *variable)?;
            add_named(into, line, Role::Set, false, set)?;
            add_start(into, line, start)?;
            add_phrases(into, line, phrases)
        }
        Head::Class {
            class,
            called,
            phrases,
        } => {
            add_class(into, line, ClassNeed::Permanent, *class, called.is_some())?;
            add_called(into, line, called)?;
            add_phrases(into, line, phrases)
        }
    }
}

// Adds the uses of the head of a loop.
pub(crate) fn add_loop_head(
    into: &mut Vec<Use>,
    line: Line,
    head: &LoopHead,
) -> Result<(), AllocError>
    ensures { IfOk result (λ _. into.new.items ≡ into.old.items ++ in_loop_head line (view_loop_head head.now)) }
{
    match head {
        LoopHead::For(head) => add_head(into, line, head),
        LoopHead::Guards(guards) => add_guards(into, line, guards),
    }
}
