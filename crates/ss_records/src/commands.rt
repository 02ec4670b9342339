// Lists of calls of a heap, and what calls do to the lists of the sets.
ghost use Rattle.std.specs.Prelude.{◌≡◌, ◌≤◌, ℕ, ℤ, List, [], ◌∷◌, ◌++◌, Ok, IfOk, OnOk, OnErr, All, IsTrue, ◌↔◌};
ghost use Rattle.ss_base.specs.declared.value.Value.{Value};
ghost use Rattle.ss_records.specs.declared.commands.Command.{Command};
ghost use Rattle.ss_world.specs.State.{State, members_of, created, created_all, destroyed, assigned, timed};
ghost use Rattle.ss_world.specs.Sets.{filed_first, filed_last, filed_before, filed_after, removed, put_before, put_after, less};
ghost use Rattle.ss_records.specs.Commands.{IsChangingMembers, IsChangingBeside, IsLeavingOthers, IsKeepingRecords, IsKeepingLists, IsMadeSingly, IsMadeTogether, HasField, IsOnOthers, after_commands, answer_without_value, IsFittingCommand, command_answer, after_command, command_answers, IsAfterSome};

use crate::heap::Heap;
use ss_base::{ClassKind, FaultKind, Layout, Mode, Refused, Value};
use ss_records_words::shape::kind;
use std::alloc::{AllocError, Global};

/// A call on the set of an owner leaves the members of every other set: those of other names, and those of this name
/// of other owners.
pub fn filing_leaves_other_sets()
    ensures first { IsLeavingOthers filed_first }
    ensures last { IsLeavingOthers filed_last }
    ensures before { (y : ℤ) → IsLeavingOthers (λ st s o x. filed_before st s o x y) }
    ensures after { (y : ℤ) → IsLeavingOthers (λ st s o x. filed_after st s o x y) }
    ensures remove { IsLeavingOthers removed }
{}

/// A call on the set of an owner that goes well changes the members of this set as it says: by the member first, last,
/// directly before or after another, or without it.
pub fn filing_changes_its_set()
    ensures first { IsChangingMembers (λ x l. x ∷ l) filed_first }
    ensures last { IsChangingMembers (λ x l. l ++ x ∷ []) filed_last }
    ensures before { IsChangingBeside put_before filed_before }
    ensures after { IsChangingBeside put_after filed_after }
    ensures remove { IsChangingMembers less removed }
{}

/// A call on the set of an owner leaves every record as it is: its class, its values, its time, and whether it is living.
pub fn filing_leaves_the_records()
    ensures first { IsKeepingRecords filed_first }
    ensures last { IsKeepingRecords filed_last }
    ensures before { (y : ℤ) → IsKeepingRecords (λ st s o x. filed_before st s o x y) }
    ensures after { (y : ℤ) → IsKeepingRecords (λ st s o x. filed_after st s o x y) }
    ensures remove { IsKeepingRecords removed }
{}

/// What creates, destroys or assigns leaves the members of every set.
pub fn other_calls_leave_the_sets()
    ensures create { (c : ℕ) (n : ℤ) (st t : State) → created st c ≡ Ok (n, t) → t.lists ≡ st.lists }
    ensures create_all { (c : ℕ) (n : ℤ) → IsKeepingLists (λ st. created_all st c n) }
    ensures destroy { (c : ℕ) (x : ℤ) → IsKeepingLists (λ st. destroyed st c x) }
    ensures set_value { (c f : ℕ) (x : ℤ) (v : Value) → IsKeepingLists (λ st. assigned st c f x v) }
    ensures set_time { (x i : ℤ) → IsKeepingLists (λ st. timed st x i) }
{}

/// Commands none of which is on a set of a name, refused or not, leave the members of the sets of that name, whoever
/// owns them.
pub fn commands_leave_other_sets()
    ensures { (commands : List Command) (n : ℕ) → All (IsOnOthers n) commands → (s : State) (o : ℕ) → members_of (after_commands commands s).lists n o ≡ members_of s.lists n o }
{}

/// A call of a heap that may change it. Classes, fields and sets are named by their numbers, entities by creation
/// number or index.
#[derive(Clone, Copy)]
pub enum Command {
    /// Creates an entity of a class, which isn't permanent.
    Create {
        class: usize,
    },
    /// Makes all entities of a permanent class.
    CreateAll {
        class: usize,
        n: i64,
    },
    Destroy {
        class: usize,
        r: i64,
    },
    SetValue {
        class: usize,
        field: usize,
        r: i64,
        value: Value,
    },
    /// Sets the time of a notice, in units.
    SetTime {
        r: i64,
        time: i64,
    },
    FileFirst {
        set: usize,
        owner: i64,
        member: i64,
    },
    FileLast {
        set: usize,
        owner: i64,
        member: i64,
    },
    FileBefore {
        set: usize,
        owner: i64,
        member: i64,
        beside: i64,
    },
    FileAfter {
        set: usize,
        owner: i64,
        member: i64,
        beside: i64,
    },
    Remove {
        set: usize,
        owner: i64,
        member: i64,
    },
}

/// What a call of a heap answered.
#[derive(Clone, Copy, PartialEq)]
pub enum CommandAnswer {
    Done,
    /// The creation number of a new entity.
    Number(i64),
    Faulted(FaultKind),
}

/// Makes calls in turn, and answers what each answered. A call that is refused with a fault leaves all as it was.
/// Where memory is refused, the first of the calls were made, and no other. No call sets the total of touches back.
pub fn run(
    heap: &mut Heap,
    alloc: Global,
    commands: &[Command],
) -> Result<Vec<CommandAnswer>, AllocError>
    requires { All (IsFittingCommand heap.old.state.layout) commands.now }
    ensures answers { IfOk result (λ answers. answers.items ≡ command_answers commands.now heap.old.state) }
    ensures state { OnOk result (heap.new.state ≡ after_commands commands.now heap.old.state) }
    ensures refused { OnErr result (IsAfterSome commands.now heap.old.state heap.new.state) }
    ensures touches { heap.old.total ≤ heap.new.total }
{
    let mut answers = Vec::with_capacity(alloc, commands.len())?;
    for command in commands {
        answers.push(make(heap, command)?)?;
    }
    Ok(answers)
}

/// Whether the class, the field and the set that each of these calls names are there, and the class is of its kind.
pub fn fit(heap: &Heap, commands: &[Command]) -> bool
    ensures { IsTrue result ↔ All (IsFittingCommand heap.now.state.layout) commands.now }
{
    commands.iter().all(|command| fits(heap, command))
}

fn fits(heap: &Heap, command: &Command) -> bool
    ensures { IsTrue result ↔ IsFittingCommand heap.now.state.layout command.now }
{
    match command {
        Command::Create { class } | Command::Destroy { class, .. } => {
            is_made_singly(heap.layout(), *class)
        }
        Command::CreateAll { class, .. } => is_made_together(heap.layout(), *class),
        Command::SetValue {
            class,
            field,
            value,
            ..
        } => has_field(heap.layout(), *class, *field, value.mode()),
        Command::SetTime { .. } => true,
        Command::FileFirst { set, .. }
        | Command::FileLast { set, .. }
        | Command::FileBefore { set, .. }
        | Command::FileAfter { set, .. }
        | Command::Remove { set, .. } => *set < heap.layout().sets.len(),
    }
}

// Makes one call.
fn make(heap: &mut Heap, command: &Command) -> Result<CommandAnswer, AllocError>
    requires { IsFittingCommand heap.old.state.layout command.now }
    ensures answer { IfOk result (λ answer. answer ≡ command_answer command.now heap.old.state) }
    ensures ok { OnOk result (heap.new.state ≡ after_command command.now heap.old.state) }
    ensures err { OnErr result (heap.new.state ≡ heap.old.state) }
    ensures touches { heap.old.total ≤ heap.new.total }
{
    match command {
        Command::Create { class } => make_one(heap, *class),
        Command::CreateAll { class, n } => make_all(heap, *class, *n),
        Command::Destroy { class, r } => Ok(answer_without_value(heap.destroy(*class, *r))),
        Command::SetValue {
            class,
            field,
            r,
            value,
        } => Ok(answer_without_value(heap.set_value(*class, *field, *r, *value))),
        Command::SetTime { r, time } => Ok(answer_without_value(heap.set_time_a(*r, *time))),
        Command::FileFirst { set, owner, member } => {
            Ok(answer_without_value(heap.file_first(*set, *owner, *member)))
        }
        Command::FileLast { set, owner, member } => {
            Ok(answer_without_value(heap.file_last(*set, *owner, *member)))
        }
        Command::FileBefore {
            set,
            owner,
            member,
            beside,
        } => Ok(answer_without_value(heap.file_before(*set, *owner, *member, *beside))),
        Command::FileAfter {
            set,
            owner,
            member,
            beside,
        } => Ok(answer_without_value(heap.file_after(*set, *owner, *member, *beside))),
        Command::Remove { set, owner, member } => Ok(answer_without_value(heap.remove(
            *set, *owner, *member,
        ))),
    }
}

fn make_one(heap: &mut Heap, class: usize) -> Result<CommandAnswer, AllocError>
    requires { IsMadeSingly heap.old.state.layout class }
    ensures answer { IfOk result (λ answer. answer ≡ command_answer (Command.Create class) heap.old.state) }
    ensures ok { OnOk result (heap.new.state ≡ after_command (Command.Create class) heap.old.state) }
    ensures err { OnErr result (heap.new.state ≡ heap.old.state) }
    ensures touches { heap.old.total ≤ heap.new.total }
{
    match heap.create(class) {
        Ok(number) => Ok(CommandAnswer::Number(number)),
        Err(Refused::Fault(kind)) => Ok(CommandAnswer::Faulted(kind)),
        Err(Refused::Memory) => Err(AllocError),
    }
}

fn make_all(heap: &mut Heap, class: usize, n: i64) -> Result<CommandAnswer, AllocError>
    requires { IsMadeTogether heap.old.state.layout class }
    ensures answer { IfOk result (λ answer. answer ≡ command_answer (Command.CreateAll class n) heap.old.state) }
    ensures ok { OnOk result (heap.new.state ≡ after_command (Command.CreateAll class n) heap.old.state) }
    ensures err { OnErr result (heap.new.state ≡ heap.old.state) }
    ensures touches { heap.old.total ≤ heap.new.total }
{
    match heap.create_all(class, n) {
        Ok(()) => Ok(CommandAnswer::Done),
        Err(Refused::Fault(kind)) => Ok(CommandAnswer::Faulted(kind)),
        Err(Refused::Memory) => Err(AllocError),
    }
}

fn answer_without_value(outcome: Result<(), FaultKind>) -> CommandAnswer
    ensures { result ≡ answer_without_value outcome }
{
    match outcome {
        Ok(()) => CommandAnswer::Done,
        Err(kind) => CommandAnswer::Faulted(kind),
    }
}

// Whether a class is there and its entities are created one by one.
fn is_made_singly(layout: &Layout, class: usize) -> bool
    ensures { IsTrue result ↔ IsMadeSingly layout.now class }
{
    if class >= layout.classes.len() {
        return false;
    }
    match kind(layout, class) {
        ClassKind::Permanent => false,
        ClassKind::Temporary | ClassKind::Notice => true,
    }
}

// Whether a class is there and its entities are made all together.
fn is_made_together(layout: &Layout, class: usize) -> bool
    ensures { IsTrue result ↔ IsMadeTogether layout.now class }
{
    if class >= layout.classes.len() {
        return false;
    }
    match kind(layout, class) {
        ClassKind::Permanent => true,
        ClassKind::Temporary | ClassKind::Notice => false,
    }
}

// Whether a class is there and has a field of this number and mode.
fn has_field(layout: &Layout, class: usize, field: usize, wanted: Mode) -> bool
    ensures { IsTrue result ↔ HasField layout.now class field wanted }
{
    match layout.classes.get(class) {
        Some(found) => found.fields.get(field) == Some(&wanted),
        None => false,
    }
}
