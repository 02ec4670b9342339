//! The entities that an instruction refers to.

use crate::looks::instruction;
use ss_base::{Layout, Owner};
use ss_code::code::Code;
use ss_code_instructions::address::Address;
use ss_code_instructions::instruction::Instruction;
use ss_machine::Machine;
use ss_program::sections::Subject;

/// A reference of an instruction: where its number lies, and the class that it has to be of. None is THE SYSTEM.
#[derive(Clone, Copy, Debug, PartialEq, Eq)]
pub struct Reference {
    pub address: Address,
    pub class: Option<usize>,
}

fn of_class(address: &Address, class: usize) -> Option<Reference> {
    Some(Reference {
        address: *address,
        class: Some(class),
    })
}

fn of_owner(layout: &Layout, address: &Address, set: usize) -> Option<Reference> {
    match layout.sets.get(set)?.owner {
        Owner::System => None,
        Owner::Class(class) => of_class(address, class),
    }
}

fn of_member(layout: &Layout, address: &Address, set: usize) -> Option<Reference> {
    of_class(address, layout.sets.get(set)?.member)
}

fn of_statistic(code: &Code, address: &Address, statistic: usize) -> Option<Reference> {
    match code.statistics().get(statistic)?.subject {
        Subject::OfVariable { .. } => None,
        Subject::OfAttribute { class, .. } => of_class(address, class),
        Subject::OfCount { set } => of_owner(code.layout(), address, set),
    }
}

// The reference of an instruction to an entity or a notice by its class, or to a notice of any class.
fn entity_of(instruction: &Instruction) -> Option<Reference> {
    match instruction {
        Instruction::Attribute { class, entity, .. }
        | Instruction::TextAttribute { class, entity, .. }
        | Instruction::LookEntity { class, entity }
        | Instruction::SetAttribute { class, entity, .. }
        | Instruction::SetTextAttribute { class, entity, .. }
        | Instruction::ChangeAttribute { class, entity, .. }
        | Instruction::Destroy { class, entity } => of_class(entity, *class as usize),
        Instruction::FileNotice { class, notice, .. }
        | Instruction::Reschedule { class, notice, .. }
        | Instruction::Cancel { class, notice } => of_class(notice, *class as usize),
        Instruction::TimeOf { notice, .. } => Some(Reference {
            address: *notice,
            class: None,
        }),
        _ => None,
    }
}

// The reference of an instruction to a member of a set.
fn member_of(code: &Code, instruction: &Instruction) -> Option<Reference> {
    match instruction {
        Instruction::Predecessor { set, member, .. }
        | Instruction::Successor { set, member, .. }
        | Instruction::Membership { set, member, .. }
        | Instruction::LookMember { set, member }
        | Instruction::UnlessMember { set, member, .. }
        | Instruction::FileFirst { set, member, .. }
        | Instruction::FileLast { set, member, .. }
        | Instruction::FileRanked { set, member, .. }
        | Instruction::FileBeside { set, member, .. }
        | Instruction::Remove { set, member, .. } => {
            of_member(code.layout(), member, *set as usize)
        }
        _ => None,
    }
}

// The reference of an instruction to whose a statistic is.
fn bearer_of(code: &Code, instruction: &Instruction) -> Option<Reference> {
    match instruction {
        Instruction::Figure {
            statistic,
            entity,
            ..
        }
        | Instruction::LookMean { statistic, entity }
        | Instruction::Reset { statistic, entity } => {
            of_statistic(code, entity, *statistic as usize)
        }
        _ => None,
    }
}

/// The reference of the instruction at which a machine is to an entity, a notice or a member, if it has one.
pub fn subject_of(machine: &Machine) -> Option<Reference> {
    let code = machine.code();
    let found = instruction(machine)?;
    entity_of(&found)
        .or(member_of(code, &found))
        .or(bearer_of(code, &found))
}

/// The reference of the instruction at which a machine is to the owner of a set, if it has one.
pub fn owner_of(machine: &Machine) -> Option<Reference> {
    let layout = machine.code().layout();
    let found = instruction(machine)?;
    match &found {
        Instruction::FirstMember { set, owner, .. }
        | Instruction::LastMember { set, owner, .. }
        | Instruction::MemberCount { set, owner, .. }
        | Instruction::LookOwner { set, owner }
        | Instruction::UnlessEmpty { set, owner, .. }
        | Instruction::UnlessMember { set, owner, .. }
        | Instruction::BeginSet { set, owner, .. }
        | Instruction::BeginAt { set, owner, .. }
        | Instruction::NextMember { set, owner, .. }
        | Instruction::FileFirst { set, owner, .. }
        | Instruction::FileLast { set, owner, .. }
        | Instruction::FileRanked { set, owner, .. }
        | Instruction::FileBeside { set, owner, .. }
        | Instruction::Remove { set, owner, .. }
        | Instruction::RemoveFirst { set, owner, .. }
        | Instruction::RemoveLast { set, owner, .. } => of_owner(layout, owner, *set as usize),
        _ => None,
    }
}
