//! What instructions are called that work on the world and on streams.

use crate::detail::{Detail, Part, four, none, one, three, two};
use ss_code_instructions::address::Address;
use ss_code_instructions::instruction::Instruction as I;

/// What an instruction is called, and what it works on, where that is the world or a stream.
pub(crate) fn world_detail(instruction: &I) -> Detail {
    match instruction {
        I::Create { class, to } => two("create", Part::Of("class", *class), Part::To(*to)),
        I::CreateAll { class, variable } => two(
            "create all",
            Part::Of("class", *class),
            Part::Of("variable", *variable),
        ),
        I::Destroy { class, entity } => two(
            "destroy",
            Part::Of("class", *class),
            Part::From(*entity),
        ),
        I::FileFirst {
            set,
            member,
            owner,
            ..
        } => three(
            "file first",
            Part::Of("set", *set),
            Part::From(*member),
            Part::From(*owner),
        ),
        I::FileLast {
            set,
            member,
            owner,
            ..
        } => three(
            "file last",
            Part::Of("set", *set),
            Part::From(*member),
            Part::From(*owner),
        ),
        I::FileRanked {
            set,
            member,
            owner,
            ..
        } => three(
            "file ranked",
            Part::Of("set", *set),
            Part::From(*member),
            Part::From(*owner),
        ),
        I::FileBeside {
            after,
            set,
            member,
            beside,
            owner,
            ..
        } => four(
            if *after { "file after" } else { "file before" },
            Part::Of("set", *set),
            Part::From(*member),
            Part::From(*beside),
            Part::From(*owner),
        ),
        I::Remove {
            set,
            member,
            owner,
            ..
        } => three(
            "remove",
            Part::Of("set", *set),
            Part::From(*member),
            Part::From(*owner),
        ),
        I::RemoveFirst { set, owner, to, .. } => three(
            "remove first",
            Part::Of("set", *set),
            Part::From(*owner),
            Part::To(*to),
        ),
        I::RemoveLast { set, owner, to, .. } => three(
            "remove last",
            Part::Of("set", *set),
            Part::From(*owner),
            Part::To(*to),
        ),
        I::At { time, to } => two("at", Part::From(*time), Part::To(*to)),
        I::In { units, to } => two("in", Part::From(*units), Part::To(*to)),
        I::MakeNotice {
            class,
            cell,
            given,
            to,
            ..
        } => four(
            "make notice",
            Part::Of("class", *class),
            Part::From(Address::in_frame(*cell)),
            Part::Of("given", *given),
            Part::To(*to),
        ),
        I::FileNotice {
            class,
            notice,
            time,
        } => three(
            "file notice",
            Part::Of("class", *class),
            Part::From(*notice),
            Part::From(*time),
        ),
        I::Reschedule {
            class,
            notice,
            cell,
            given,
            ..
        } => four(
            "reschedule",
            Part::Of("class", *class),
            Part::From(*notice),
            Part::From(Address::in_frame(*cell)),
            Part::Of("given", *given),
        ),
        I::Cancel { class, notice } => two(
            "cancel",
            Part::Of("class", *class),
            Part::From(*notice),
        ),
        I::Await { skip } => one("await", Part::Else(*skip)),
        I::TakeEvent { cell } => one("take event", Part::From(Address::in_frame(*cell))),
        I::NextEvent { back } => one("next event", Part::Back(*back)),
        I::Reset { statistic, entity } => two(
            "reset",
            Part::Of("statistic", *statistic),
            Part::From(*entity),
        ),
        I::Read { to } => one("read", Part::To(*to)),
        I::ReadText { to } => one("read text", Part::To(*to)),
        I::Print { lines, cell } => two(
            "print",
            Part::Of("lines", *lines),
            Part::From(Address::in_frame(*cell)),
        ),
        I::Skip { count } => one("skip", Part::From(*count)),
        _ => none(""),
    }
}
