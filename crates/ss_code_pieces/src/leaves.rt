//! Expressions that take no code, and looks that need none.

ghost use Rattle.std.specs.Prelude.{◌≡◌};
ghost use Rattle.ss_program.specs.View.{view_expression, view_owner};
ghost use Rattle.ss_code_instructions.specs.Facts.{is_leaf, is_constant as is_number, is_fetch_of as fetches, looks_first, must_look as has_to_look, may_fault as can_fault, expression_of};
ghost use Rattle.ss_code_instructions.specs.Translation.{leaf};
ghost use Rattle.ss_code_pieces.specs.Plain.{operand_if_any};

use ss_base::Value;
use ss_program::expression::{Expression, SetOwner, Variable};

/// An expression that takes no code: a constant or a variable.
#[derive(Clone, Copy)]
pub enum Leaf {
    Constant { value: Value },
    Held { variable: Variable },
}

/// The constant or variable that an expression is, if it is one.
#[tactic(auto, unfolding(ss_program::specs::View::view_expression))]
pub fn leaf_of(e: &Expression) -> Option<Leaf>
    ensures { operand_if_any result ≡ leaf (view_expression e.now) }
{
    match e {
        Expression::Constant { value } => Some(Leaf::Constant { value: *value }),
        Expression::Fetch { variable } => Some(Leaf::Held {
            variable: *variable,
        }),
        Expression::Calculate { first, further } => {
            if further.is_empty() {
                leaf_of(first)
            } else {
                None
            }
        }
        Expression::Attribute { .. }
        | Expression::OfSystemSet { .. }
        | Expression::OfSet { .. }
        | Expression::OfMember { .. }
        | Expression::Clock
        | Expression::TimeOf { .. }
        | Expression::Figure { .. }
        | Expression::FigureOf { .. }
        | Expression::Signed { .. }
        | Expression::Unary { .. } => None,
    }
}

/// Whether an expression takes no code: a variable or a constant.
pub fn is_plain(e: &Expression) -> bool
    ensures { result ≡ is_leaf (view_expression e.now) }
{
    leaf_of(e).is_some()
}

// Whether an expression is a constant.
fn is_constant(e: &Expression) -> bool
    ensures { result ≡ is_number (view_expression e.now) }
{
    match leaf_of(e) {
        Some(Leaf::Constant { .. }) => true,
        Some(Leaf::Held { .. }) => false,
        None => false,
    }
}

// Whether an expression is this variable.
fn is_fetch_of(variable: Variable, e: &Expression) -> bool
    ensures { result ≡ fetches variable (view_expression e.now) }
{
    match leaf_of(e) {
        Some(Leaf::Constant { .. }) => false,
        Some(Leaf::Held { variable: held }) => held == variable,
        None => false,
    }
}

/// Whether the evaluation of the owner of a set may fault.
pub fn owner_may_fault(owner: &SetOwner) -> bool
    ensures { result ≡ can_fault (expression_of (view_owner owner.now)) }
{
    match owner {
        SetOwner::TheSystem => false,
        SetOwner::Entity { entity } => !is_plain(entity),
    }
}

// Whether the evaluation of an expression begins with an attribute of the entity in a variable, as one of this class: so it begins with
// the look at it. Nothing but constants may come before.
#[tactic(auto, unfolding(ss_program::specs::View::view_expression))]
fn begins_with_look(class: usize, variable: Variable, e: &Expression) -> bool
    ensures { result ≡ looks_first class variable (view_expression e.now) }
{
    match e {
        Expression::Attribute { class: k, of, .. } => {
            if is_plain(of) {
                *k == class && is_fetch_of(variable, of)
            } else {
                begins_with_look(class, variable, of)
            }
        }
        Expression::OfSet { owner: inner, .. } => begins_with_look(class, variable, inner),
        Expression::OfMember { member: inner, .. } => begins_with_look(class, variable, inner),
        Expression::TimeOf { notice: inner } => begins_with_look(class, variable, inner),
        Expression::FigureOf { entity: inner, .. } => begins_with_look(class, variable, inner),
        Expression::Signed { term: inner, .. } => begins_with_look(class, variable, inner),
        Expression::Unary {
            argument: inner,
            ..
        } => begins_with_look(class, variable, inner),
        Expression::Calculate { first, further } => {
            if further.is_empty() {
                begins_with_look(class, variable, first)
            } else if is_constant(first) {
                begins_with_look(class, variable, &further[0].operand)
            } else {
                begins_with_look(class, variable, first)
            }
        }
        Expression::Constant { .. }
        | Expression::Fetch { .. }
        | Expression::OfSystemSet { .. }
        | Expression::Clock
        | Expression::Figure { .. } => false,
    }
}

/// Whether the entity whose attribute is assigned a value is looked at before the code of the value: there is some, and it does
/// not begin with the same look.
pub fn must_look(class: usize, reference: &Expression, value: &Expression) -> bool
    ensures { result ≡ has_to_look class (view_expression reference.now) (view_expression value.now) }
{
    match leaf_of(reference) {
        Some(Leaf::Held { variable }) => {
            !is_plain(value) && !begins_with_look(class, variable, value)
        }
        Some(Leaf::Constant { .. }) => !is_plain(value),
        None => !is_plain(value),
    }
}
