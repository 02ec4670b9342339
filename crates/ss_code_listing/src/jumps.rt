//! What jumps are called.

use crate::detail::{Detail, Part, five, four, one, three, two, word_if};
use crate::loops::loop_detail;
use ss_code_instructions::instruction::Instruction as I;
use ss_program::condition::Relation;

// How two texts compare.
fn relation_word(relation: Relation) -> &'static str {
    match relation {
        Relation::Equal => "equal",
        Relation::NotEqual => "not equal",
        Relation::Less => "less",
        Relation::Greater => "greater",
        Relation::LessOrEqual => "less or equal",
        Relation::GreaterOrEqual => "greater or equal",
    }
}

/// What an instruction is called, and what it works on, where it is a jump, or `loops` names it.
pub(crate) fn jump_detail(instruction: &I) -> Detail {
    match instruction {
        I::Jump { skip } => one("jump", Part::Else(*skip)),
        I::UnlessEqual { left, right, skip } => three(
            "unless equal",
            Part::From(*left),
            Part::From(*right),
            Part::Else(*skip),
        ),
        I::UnlessNotEqual { left, right, skip } => three(
            "unless not equal",
            Part::From(*left),
            Part::From(*right),
            Part::Else(*skip),
        ),
        I::UnlessLess { left, right, skip } => three(
            "unless less",
            Part::From(*left),
            Part::From(*right),
            Part::Else(*skip),
        ),
        I::UnlessGreater { left, right, skip } => three(
            "unless greater",
            Part::From(*left),
            Part::From(*right),
            Part::Else(*skip),
        ),
        I::UnlessLessOrEqual { left, right, skip } => three(
            "unless less or equal",
            Part::From(*left),
            Part::From(*right),
            Part::Else(*skip),
        ),
        I::UnlessGreaterOrEqual { left, right, skip } => three(
            "unless greater or equal",
            Part::From(*left),
            Part::From(*right),
            Part::Else(*skip),
        ),
        I::UnlessTexts {
            left,
            right,
            skip,
            relation,
        } => four(
            "unless texts",
            Part::From(*left),
            Part::From(*right),
            Part::Else(*skip),
            Part::Word(relation_word(*relation)),
        ),
        I::UnlessEnded { skip, negated } => two(
            "unless ended",
            Part::Else(*skip),
            word_if(*negated, "negated"),
        ),
        I::UnlessEmpty {
            set,
            owner,
            skip,
            negated,
        } => four(
            "unless empty",
            Part::Of("set", *set),
            Part::From(*owner),
            Part::Else(*skip),
            word_if(*negated, "negated"),
        ),
        I::UnlessMember {
            set,
            member,
            owner,
            skip,
            negated,
        } => five(
            "unless member",
            Part::Of("set", *set),
            Part::From(*member),
            Part::From(*owner),
            Part::Else(*skip),
            word_if(*negated, "negated"),
        ),
        _ => loop_detail(instruction),
    }
}
