//! What instructions are called that give a value.

use crate::detail::{Detail, Part, four, one, three, two};
use crate::looks::look_detail;
use ss_code_instructions::address::Address;
use ss_code_instructions::instruction::Instruction as I;
use ss_program::expression::{Fold, UnaryOperator};

// What is asked of a statistic.
fn fold_word(fold: Fold) -> &'static str {
    match fold {
        Fold::Number => "number",
        Fold::Sum => "sum",
        Fold::Maximum => "maximum",
        Fold::Minimum => "minimum",
    }
}

/// What an instruction is called, and what it works on.
pub(crate) fn detail_of(instruction: &I) -> Detail {
    match instruction {
        I::Move { from, to } => two("move", Part::From(*from), Part::To(*to)),
        I::MoveText { from, to } => two("move text", Part::From(*from), Part::To(*to)),
        I::Keep { from, variable } => two(
            "keep",
            Part::From(*from),
            Part::To(Address::fixed(*variable)),
        ),
        I::Add { left, right, to } => three(
            "add",
            Part::From(*left),
            Part::From(*right),
            Part::To(*to),
        ),
        I::Subtract { left, right, to } => three(
            "subtract",
            Part::From(*left),
            Part::From(*right),
            Part::To(*to),
        ),
        I::Multiply { left, right, to } => three(
            "multiply",
            Part::From(*left),
            Part::From(*right),
            Part::To(*to),
        ),
        I::Quotient { left, right, to } => three(
            "quotient",
            Part::From(*left),
            Part::From(*right),
            Part::To(*to),
        ),
        I::Remainder { left, right, to } => three(
            "remainder",
            Part::From(*left),
            Part::From(*right),
            Part::To(*to),
        ),
        I::Least { left, right, to } => three(
            "least",
            Part::From(*left),
            Part::From(*right),
            Part::To(*to),
        ),
        I::Greatest { left, right, to } => three(
            "greatest",
            Part::From(*left),
            Part::From(*right),
            Part::To(*to),
        ),
        I::Unary {
            operator: UnaryOperator::Absolute,
            of,
            to,
        } => two("absolute", Part::From(*of), Part::To(*to)),
        I::Clock { to } => one("clock", Part::To(*to)),
        I::TimeOf { notice, to } => two("time of", Part::From(*notice), Part::To(*to)),
        I::Attribute {
            class,
            field,
            entity,
            to,
        } => four(
            "attribute",
            Part::Of("class", *class),
            Part::Of("field", *field),
            Part::From(*entity),
            Part::To(*to),
        ),
        I::TextAttribute {
            class,
            field,
            entity,
            to,
        } => four(
            "text attribute",
            Part::Of("class", *class),
            Part::Of("field", *field),
            Part::From(*entity),
            Part::To(*to),
        ),
        I::FirstMember { set, owner, to } => three(
            "first member",
            Part::Of("set", *set),
            Part::From(*owner),
            Part::To(*to),
        ),
        I::LastMember { set, owner, to } => three(
            "last member",
            Part::Of("set", *set),
            Part::From(*owner),
            Part::To(*to),
        ),
        I::MemberCount { set, owner, to } => three(
            "member count",
            Part::Of("set", *set),
            Part::From(*owner),
            Part::To(*to),
        ),
        I::Predecessor { set, member, to } => three(
            "predecessor",
            Part::Of("set", *set),
            Part::From(*member),
            Part::To(*to),
        ),
        I::Successor { set, member, to } => three(
            "successor",
            Part::Of("set", *set),
            Part::From(*member),
            Part::To(*to),
        ),
        I::Membership { set, member, to } => three(
            "membership",
            Part::Of("set", *set),
            Part::From(*member),
            Part::To(*to),
        ),
        I::Figure {
            statistic,
            entity,
            to,
            fold,
        } => four(
            "figure",
            Part::Of("statistic", *statistic),
            Part::From(*entity),
            Part::To(*to),
            Part::Word(fold_word(*fold)),
        ),
        _ => look_detail(instruction),
    }
}
