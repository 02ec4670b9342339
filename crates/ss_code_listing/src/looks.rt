//! What looks are called, and assignments to attributes.

use crate::detail::{Detail, Part, four, one, two};
use crate::jumps::jump_detail;
use ss_code_instructions::instruction::Instruction as I;
use ss_program::expression::Sign;

/// What an instruction is called, and what it works on, where it looks or assigns to an attribute, or `jumps` names it.
pub(crate) fn look_detail(instruction: &I) -> Detail {
    match instruction {
        I::LookEntity { class, entity } => two(
            "look entity",
            Part::Of("class", *class),
            Part::From(*entity),
        ),
        I::LookMember { set, member } => two(
            "look member",
            Part::Of("set", *set),
            Part::From(*member),
        ),
        I::LookOwner { set, owner } => two("look owner", Part::Of("set", *set), Part::From(*owner)),
        I::LookMean { statistic, entity } => two(
            "look mean",
            Part::Of("statistic", *statistic),
            Part::From(*entity),
        ),
        I::LookCount { class } => one("look count", Part::Of("class", *class)),
        I::SetAttribute {
            class,
            field,
            entity,
            from,
            ..
        } => four(
            "set attribute",
            Part::Of("class", *class),
            Part::Of("field", *field),
            Part::From(*entity),
            Part::From(*from),
        ),
        I::SetTextAttribute {
            class,
            field,
            entity,
            from,
        } => four(
            "set text attribute",
            Part::Of("class", *class),
            Part::Of("field", *field),
            Part::From(*entity),
            Part::From(*from),
        ),
        I::ChangeAttribute {
            class,
            field,
            entity,
            by,
            sign,
            ..
        } => four(
            match sign {
                Sign::Plus => "add to attribute",
                Sign::Minus => "subtract from attribute",
            },
            Part::Of("class", *class),
            Part::Of("field", *field),
            Part::From(*entity),
            Part::From(*by),
        ),
        _ => jump_detail(instruction),
    }
}
