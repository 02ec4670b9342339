//! How a run ended, in words: for a fault its line, the time, the section, the data, the entities, and what helps.

ghost use Rattle.std.specs.Prelude.{◌≡◌};

use crate::guide::{Guide, section_at};
use crate::kept::Kept;
use crate::looks::{class_of, instruction, number, time};
use crate::references::{Reference, owner_of, subject_of};
use crate::shows::{add_section, next_tick};
use explain_texts::Part::{Bytes, Count, Line, Whole, Words};
use explain_texts::{Made, Page};
use ss_base::{ClassKind, FaultKind, FaultyRead, FaultyWrite, Name};
use ss_code_instructions::instruction::Instruction;
use ss_engine::{Session, Stop};
use ss_machine::Machine;

fn add_place(page: &mut Page<'_>, machine: &Machine, guide: &Guide<'_>) -> Made<()> {
    page.say("At the time {}, in ", &[Whole(time(machine))])?;
    add_section(
        page,
        guide,
        section_at(machine.code(), machine.here().place),
    )?;
    page.line(", after {} ticks.", &[Count(machine.used())])
}

// Adds the word of the data that was read last.
fn add_word<R: FaultyRead, W: FaultyWrite>(
    page: &mut Page<'_>,
    session: &Session<Kept<R>, W>,
) -> Made<()> {
    match session.reader().word_before(session.unread()) {
        Some(word) => page.line(
            "The word of the data read last: {}, line {}, column {}.",
            &[Bytes(word.bytes), Count(word.line), Count(word.column)],
        ),
        None => Ok(()),
    }
}

// The class of the entity that a reference is to, where it is another than it has to be.
fn other_class(machine: &Machine, guide: &Guide<'_>, reference: &Reference) -> Option<Name> {
    let found = class_of(machine, number(machine, &reference.address)?)?;
    if Some(found) == reference.class {
        None
    } else {
        guide.class_name(found)
    }
}

// Adds a name after these words, if there is one.
fn add_name(page: &mut Page<'_>, words: &str, name: Option<Name>) -> Made<()> {
    match name {
        Some(name) => page.say(words, &[Bytes(name.bytes())]),
        None => Ok(()),
    }
}

// Adds the entity that an instruction refers to, and its class.
fn add_reference(
    page: &mut Page<'_>,
    machine: &Machine,
    guide: &Guide<'_>,
    words: &str,
    reference: Option<Reference>,
) -> Made<()> {
    let Some(reference) = reference else {
        return Ok(());
    };
    let Some(found) = number(machine, &reference.address) else {
        return Ok(());
    };
    page.say(words, &[])?;
    let Some(class) = reference.class else {
        return page.line(" has the number {}.", &[Whole(found)]);
    };
    add_name(page, " {}", guide.class_name(class))?;
    page.say(" has the number {}", &[Whole(found)])?;
    let other = other_class(machine, guide, &reference);
    add_name(page, ", which is of the class {}", other)?;
    page.line(".", &[])
}

// Whether a fault is of an entity or a set.
fn has_entity(kind: FaultKind) -> bool {
    !matches!(
        kind,
        FaultKind::PastTime
            | FaultKind::Overflow
            | FaultKind::ZeroDivisor
            | FaultKind::LoopStep
            | FaultKind::CreatedTwice
            | FaultKind::EndOfData
            | FaultKind::BadData
            | FaultKind::BadCount
    )
}

// Whether a reference has to be to a notice of one class.
fn is_to_notice(guide: &Guide<'_>, reference: &Reference) -> bool {
    let kinds = guide.names.classes.values();
    let kind = reference.class.and_then(|class| kinds.get(class));
    matches!(kind, Some(ClassKind::Notice))
}

// Whether the instruction at which a machine is asks for a statistic.
fn asks_statistic(machine: &Machine) -> bool {
    matches!(
        instruction(machine),
        Some(Instruction::Figure { .. } | Instruction::LookMean { .. })
    )
}

// Adds what helps against a fault, by what the instruction does at which the run rests.
fn add_cure(
    page: &mut Page<'_>,
    machine: &Machine,
    guide: &Guide<'_>,
    kind: FaultKind,
) -> Made<()> {
    if let Some(subject) = subject_of(machine) {
        if kind == FaultKind::DestroyedEntity && is_to_notice(guide, &subject) {
            return page.cure(NOTICE_CURE, &[]);
        }
        if kind == FaultKind::Index || kind == FaultKind::WrongClass {
            if let Some(name) = other_class(machine, guide, &subject) {
                return page.cure(OTHER_CURE, &[Bytes(name.bytes())]);
            }
        }
    }
    let is_of_entity = kind == FaultKind::DestroyedEntity || kind == FaultKind::NoEntity;
    if is_of_entity && asks_statistic(machine) {
        return page.cure(STATISTIC_CURE, &[]);
    }
    page.cure(words_of(&CURES, kind.number()), &[])
}

// Adds what is known of a run whose ticks are used up, before a tick in this line.
fn add_due(page: &mut Page<'_>, machine: &Machine, guide: &Guide<'_>, line: u32) -> Made<()> {
    let words = "The ticks are used up, and the next would be due in line {}:";
    page.line(words, &[Line(line)])?;
    page.show(line)?;
    add_place(page, machine, guide)?;
    if let Some(Instruction::Turn | Instruction::Take { .. }) = instruction(machine) {
        return page.cure(LOOP_CURE, &[]);
    }
    for (name, line) in &guide.returning {
        let words = "EVENT {} schedules itself each time:";
        page.line(words, &[Bytes(name.bytes())])?;
        page.show(line.0)?;
    }
    page.cure(EVENTS_CURE, &[])
}

// Adds what is known of a run whose ticks are used up.
fn add_pause<R: FaultyRead, W: FaultyWrite>(
    page: &mut Page<'_>,
    session: &mut Session<R, W>,
    guide: &Guide<'_>,
) -> Made<()>
    ensures { session.new ≡ session.old }
{
    let line = next_tick(session, guide).line;
    add_due(page, session.machine(), guide, line)
}

// Adds what is known of a fault to which a run came in a line.
fn add_fault<R: FaultyRead, W: FaultyWrite>(
    page: &mut Page<'_>,
    session: &Session<Kept<R>, W>,
    guide: &Guide<'_>,
    kind: FaultKind,
    line: u32,
) -> Made<()> {
    let (name, number) = (Words(kind.text()), kind.number());
    let meaning = Words(words_of(&MEANINGS, number));
    page.line("line {}, {}: {}", &[Line(line), name, meaning])?;
    page.show(line)?;
    let machine = session.machine();
    add_place(page, machine, guide)?;
    if has_entity(kind) {
        add_reference(page, machine, guide, "The entity", subject_of(machine))?;
        add_reference(page, machine, guide, "The owner", owner_of(machine))?;
    }
    add_word(page, session)?;
    add_cure(page, machine, guide, kind)?;
    let parts = [Count(u64::from(number)), name];
    page.line("Read: docs/LANGUAGE.md, {} {}", &parts)
}

// Adds what is known of how a run ended.
fn add_ending<R: FaultyRead, W: FaultyWrite>(
    page: &mut Page<'_>,
    session: &mut Session<Kept<R>, W>,
    guide: &Guide<'_>,
    stop: Stop,
) -> Made<()>
    ensures { session.new ≡ session.old }
{
    match stop {
        Stop::Fault(kind, line) => add_fault(page, session, guide, kind, line.0),
        Stop::Paused => add_pause(page, session, guide),
        _ => Ok(()),
    }
}

/// A page with what is known of how a run ended: of a fault, or of ticks that are used up. The session stays as it is.
pub fn ending_of<'a, R: FaultyRead, W: FaultyWrite>(
    guide: &Guide<'a>,
    session: &mut Session<Kept<R>, W>,
    stop: Stop,
) -> Made<Page<'a>>
    ensures { session.new ≡ session.old }
{
    let mut page = Page::about(guide.alloc, guide.text);
    add_ending(&mut page, session, guide, stop)?;
    Ok(page)
}

/// What helps where an event uses its own notice.
const NOTICE_CURE: &str =
    "An event destroys its notice as it begins. Write SCHEDULE A or AN for a new notice, or SAVING THE EVENT NOTICE in the head of its EVENT.";

/// What helps where a statistic of an attribute is asked of no entity.
const STATISTIC_CURE: &str =
    "This statistic is of an attribute, so each entity has its own, which goes with it. For figures of all, TALLY a variable that is no attribute.";

/// What helps where an entity is of another class, which is the part of it.
const OTHER_CURE: &str =
    "The number is that of a {}. Look whether values are GIVEN in the order in which they are taken, and which variable holds the reference here.";

/// What helps where the ticks were used up in a loop, or by events.
const LOOP_CURE: &str =
    "Give more --ticks. If the run should have ended, look whether something in the loop changes what it ends by. A loop takes no time.";

const EVENTS_CURE: &str =
    "Give more --ticks. If the run should have ended, look for an event that schedules itself each time: put its SCHEDULE into an IF, as IF TIME.V LT 480 .. ALWAYS.";

/// What each fault means, in the order of their numbers from 1.
static MEANINGS: [&str; 22] = [
    "the reference is 0: no entity is named",
    "no entity of this number was ever created",
    "the entity was destroyed before",
    "the entity is of another class",
    "the number is no entity of this permanent class: they count from 1 to N. of the class",
    "the entity is in a set of this name already",
    "the entity is not in this set",
    "the set has no member",
    "the entity is still in a set",
    "the entity owns a set that has members",
    "the notice is scheduled already",
    "the notice is not scheduled",
    "the time is before the present time",
    "a result has more than 64 bits, or the last number was given",
    "the divisor is 0",
    "the member that the loop takes next left the set during a turn",
    "the step of the loop is not above 0",
    "the entities of this class were created before",
    "there is no further word of data",
    "the word of the data is no value of what is read",
    "the notice is still scheduled",
    "the count is below 0 or too large",
];

/// What helps against each.
static CURES: [&str; 22] = [
    "CREATE or FIND the entity first. F. of an empty set is 0, and so is a variable before its first value: test it, as IF X NE 0.",
    "A reference comes from CREATE, FILE, FIND or an attribute: look where this number was calculated or read.",
    "Use what is needed of an entity before its DESTROY. An event destroys its notice as it begins, unless it is SAVING it.",
    "A reference to one class was used for another: look which variable holds it here.",
    "Let N. of the class have its value before CREATE EVERY, and keep the number between 1 and N.",
    "REMOVE it first, or test M. of the set, which is 1 for a member.",
    "FILE it first, or test it by IS IN.",
    "Test it first, as IF QUEUE IS NOT EMPTY, before REMOVE FIRST or LAST.",
    "REMOVE it from its set before DESTROY.",
    "REMOVE the members before DESTROY.",
    "CANCEL it first, or SCHEDULE A new notice.",
    "CANCEL what is pending alone: an event that has begun is not scheduled any more.",
    "AT names a time of the run, IN a time from now: write IN .. UNITS, or AT TIME.V + ..",
    "Look for a value that grows in a loop, and keep sums smaller.",
    "Test the divisor first, as IF N NE 0.",
    "In the turn remove the loop's own member alone, or take members by WHILE .. IS NOT EMPTY and REMOVE FIRST.",
    "Write a step of 1 or more after BY. To count down, take the item from a sum, as LET J = 11 - I.",
    "Let N. of the class have its value, and CREATE EVERY once.",
    "Test first, as IF DATA IS NOT ENDED, or add what is missing to the data.",
    "Look whether READ names its variables in the order of the data, and whether a word is missing or too many there. A variable for texts needs a DEFINE as ALPHA.",
    "CANCEL it before DESTROY.",
    "Let N. of the class have a value from 0 to 16777216 before CREATE EVERY, and SKIP 0 to 1000 lines.",
];

fn words_of(all: &[&'static str], number: u32) -> &'static str {
    let place = (number as usize).saturating_sub(1);
    all.get(place).copied().unwrap_or("")
}
