//! What loops and calls are called.

use crate::detail::{Detail, Part, five, none, one, three, two, word_if};
use crate::world::world_detail;
use ss_code_instructions::address::Address;
use ss_code_instructions::instruction::Instruction as I;

/// What an instruction is called, and what it works on, where it is of a loop or a call, or `world` names it.
pub(crate) fn loop_detail(instruction: &I) -> Detail {
    match instruction {
        I::Turn => none("turn"),
        I::Repeat { back } => one("repeat", Part::Back(*back)),
        I::Begin { cell, skip } => two(
            "begin",
            Part::From(Address::in_frame(*cell)),
            Part::Else(*skip),
        ),
        I::BeginClass { class, cell, skip } => three(
            "begin class",
            Part::Of("class", *class),
            Part::From(Address::in_frame(*cell)),
            Part::Else(*skip),
        ),
        I::Take { cell, to } => two("take", Part::From(Address::in_frame(*cell)), Part::To(*to)),
        I::Next { cell, back } => two(
            "next",
            Part::From(Address::in_frame(*cell)),
            Part::Back(*back),
        ),
        I::BeginSet {
            set,
            owner,
            cell,
            skip,
            reverse,
        } => five(
            "begin set",
            Part::Of("set", *set),
            Part::From(*owner),
            Part::From(Address::in_frame(*cell)),
            Part::Else(*skip),
            word_if(*reverse, "reverse"),
        ),
        I::BeginAt {
            set,
            owner,
            cell,
            skip,
            reverse,
            after,
        } => Detail {
            name: "begin at",
            parts: [
                Part::Of("set", *set),
                Part::From(*owner),
                Part::From(Address::in_frame(*cell)),
                Part::Else(*skip),
                word_if(*reverse, "reverse"),
                word_if(*after, "after"),
            ],
        },
        I::NextMember {
            set,
            owner,
            cell,
            back,
            reverse,
            ..
        } => five(
            "next member",
            Part::Of("set", *set),
            Part::From(*owner),
            Part::From(Address::in_frame(*cell)),
            Part::Back(*back),
            word_if(*reverse, "reverse"),
        ),
        I::Forget { count } => one("forget", Part::Of("count", *count)),
        I::Call { routine, cell } => two(
            "call",
            Part::Of("routine", *routine),
            Part::From(Address::in_frame(*cell)),
        ),
        I::Leave => none("leave"),
        I::Halt => none("halt"),
        _ => world_detail(instruction),
    }
}
