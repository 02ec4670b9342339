//! Scheduling: what notices are given, and when they come.

ghost use Rattle.std.specs.Prelude.{◌≡◌, ◌+◌, ◌<◌, length, slice_get, Some, Ok, Err};
ghost use Rattle.ss_base.specs.declared.value.Value.TheVariants.{Whole, Text};
ghost use Rattle.ss_base.specs.declared.layout.Mode.TheVariants.{Integer, Alpha as AlphaMode};
ghost use Rattle.ss_world.specs.State.{modes_of, timed};
ghost use Rattle.ss_meaning.specs.Places.{assigned_attribute};
ghost use Rattle.ss_meaning.specs.Events.{endowed, prepared, rescheduled};
ghost use Rattle.ss_machine_world.specs.Numbers.{attribute_noted};
ghost use Rattle.ss_machine_world.specs.Seen.{HasRearranged};
ghost use Rattle.ss_machine_instructions.specs.Doing.{Can, HasDone};
ghost use Rattle.ss_machine_instructions.specs.Ways.{on_after};
ghost use Rattle.ss_machine_instructions.specs.Worldly.{HasChangedIf, unless_refused, refused_where};
ghost use Rattle.ss_machine_notices.specs.Giving.{IsSettledIn, IsSettledWithMemory, IsNoticeMade, HasSetField, IsReadBack, IsSuitable, HasGivenOne, HasGivenValues, number_or, unpended, refiled};

use ss_base::{Alpha, FaultKind, Mode, Refused};
use ss_code_instructions::address::Address;
use ss_code_instructions::instruction::Instruction;
use ss_machine_events::scheduling;
use ss_machine_frames::rows::Rows;
use ss_machine_instructions::flow::Here;
use ss_machine_instructions::state::State;
use ss_machine_world::world::World;
use std::alloc::Global;

/// What a notice of a class is given: so many values, the first of them in this cell, and its time after them; and whether attributes
/// of the class are noted.
#[derive(Clone, Copy)]
pub struct Values {
    pub class: u32,
    pub cell: u32,
    pub count: u32,
    pub noted: bool,
}

/// A notice, its class, and where its first attributes lie. What it is given is noted, where that is so.
#[derive(Clone, Copy)]
pub(crate) struct Giving {
    pub(crate) class: usize,
    pub(crate) notice: i64,
    pub(crate) from: usize,
    pub(crate) noted: bool,
}

// The mode of an attribute.
#[inline(always)]
fn mode_at(world: &World, class: usize, field: usize) -> Mode
    requires class { class < length world.now.heap.layout.classes }
    requires field { field < length (modes_of world.now.heap.layout class) }
    ensures { slice_get (modes_of world.now.heap.layout class) field ≡ Some result }
{
    world.population.mode(class, field)
}

// An attribute is assigned a number.
#[inline(always)]
fn set_number(
    world: &mut World,
    class: usize,
    field: usize,
    notice: i64,
    number: i64,
) -> Result<(), FaultKind>
    requires class { class < length world.old.heap.layout.classes }
    requires mode { slice_get (modes_of world.old.heap.layout class) field ≡ Some Integer }
    ensures set { HasSetField class field notice (Whole number) world.old world.new result }
    ensures read { IsReadBack class field notice (Whole number) world.new result }
{
    world.population.set_whole(class, field, notice, number)
}

// An attribute is assigned a text.
#[inline(always)]
fn set_text(
    world: &mut World,
    class: usize,
    field: usize,
    notice: i64,
    text: Alpha,
) -> Result<(), FaultKind>
    requires class { class < length world.old.heap.layout.classes }
    requires mode { slice_get (modes_of world.old.heap.layout class) field ≡ Some AlphaMode }
    ensures { HasSetField class field notice (Text text) world.old world.new result }
{
    world.population.set_text(class, field, notice, text)
}

// An attribute is noted, where that is so.
#[inline(always)]
fn note_if(
    world: &mut World,
    class: usize,
    field: usize,
    notice: i64,
    noted: bool,
) -> Result<(), FaultKind>
    requires class { class < length world.old.heap.layout.classes }
    requires mode { slice_get (modes_of world.old.heap.layout class) field ≡ Some Integer }
    ensures { HasChangedIf noted (attribute_noted class field notice) world.old world.new result }
{
    if noted {
        world.note_attribute(class, field, notice)
    } else {
        Ok(())
    }
}

// An attribute of a notice is assigned a number, and noted, where that is so.
#[inline(always)]
fn give_number(world: &mut World, what: Giving, field: usize, number: i64) -> Result<(), FaultKind>
    requires { IsSuitable what.class field what.noted (Whole number) world.old }
    ensures { (g : IsSuitable what.class field what.noted (Whole number) world.old) → IsSettledIn g.store (assigned_attribute what.class field (Whole what.notice) (Whole number)) world.old world.new result }
{
    match set_number(world, what.class, field, what.notice, number) {
        Err(kind) => Err(kind),
        Ok(()) => note_if(world, what.class, field, what.notice, what.noted),
    }
}

// .. or a text, which nothing notes.
#[inline(always)]
fn give_text(world: &mut World, what: Giving, field: usize, text: Alpha) -> Result<(), FaultKind>
    requires { IsSuitable what.class field what.noted (Text text) world.old }
    ensures { (g : IsSuitable what.class field what.noted (Text text) world.old) → IsSettledIn g.store (assigned_attribute what.class field (Whole what.notice) (Text text)) world.old world.new result }
{
    set_text(world, what.class, field, what.notice, text)
}

// An attribute of a notice is assigned what lies at its place.
#[inline(always)]
fn give_one(world: &mut World, rows: &Rows, what: Giving, field: usize) -> Result<(), FaultKind>
    requires { HasGivenOne what.class field what.noted (what.from + field) rows.now world.old }
    ensures { (g : HasGivenOne what.class field what.noted (what.from + field) rows.now world.old) → IsSettledIn g.suits.store (assigned_attribute what.class field (Whole what.notice) g.value) world.old world.new result }
{
    let at = what.from + field;
    match mode_at(world, what.class, field) {
        Mode::Integer => give_number(world, what, field, rows.number_at(at)),
        Mode::Alpha => give_text(world, what, field, rows.text_at(at)),
    }
}

// So many first attributes of a notice are assigned what lies at their places.
#[inline(always)]
fn give(world: &mut World, rows: &Rows, what: Giving, given: usize) -> Result<(), FaultKind>
    requires { HasGivenValues what.class what.noted what.from given rows.now world.old }
    ensures { (g : HasGivenValues what.class what.noted what.from given rows.now world.old) → IsSettledIn g.store (endowed what.class 0 (Whole what.notice) g.values) world.old world.new result }
{
    for field in 0..given {
        match give_one(world, rows, what, field) {
            Err(kind) => return Err(kind),
            Ok(()) => {}
        }
    }
    Ok(())
}

// A notice has its time.
#[inline(always)]
fn set_time(world: &mut World, notice: i64, time: i64) -> Result<(), FaultKind>
    ensures { HasRearranged (λ h. timed h notice time) world.old world.new result }
{
    world.population.set_time_a(notice, time)
}

// A notice gets its first attributes and its time.
#[inline(always)]
fn prepare(
    world: &mut World,
    rows: &Rows,
    what: Giving,
    given: usize,
    time: i64,
) -> Result<(), FaultKind>
    requires { HasGivenValues what.class what.noted what.from given rows.now world.old }
    ensures { (g : HasGivenValues what.class what.noted what.from given rows.now world.old) → IsSettledIn g.store (prepared what.class (Whole what.notice) g.values time) world.old world.new result }
{
    match give(world, rows, what, given) {
        Err(kind) => Err(kind),
        Ok(()) => set_time(world, what.notice, time),
    }
}

// A number, unless there was a fault.
#[inline(always)]
fn number_or(number: i64, answer: Result<(), FaultKind>) -> Result<i64, Refused>
    ensures { result ≡ number_or number answer }
{
    match answer {
        Ok(()) => Ok(number),
        Err(kind) => Err(Refused::Fault(kind)),
    }
}

// A new notice with its first attributes and its time: its number. Memory is wanted as it is created. No fault is due after that, as its
// histories have just started and none is full; so none comes too late.
#[inline(always)]
fn new_notice(
    world: &mut World,
    rows: &Rows,
    what: Giving,
    given: usize,
    time: i64,
) -> Result<i64, Refused>
    requires { HasGivenValues what.class what.noted what.from given rows.now world.old }
    ensures { (g : HasGivenValues what.class what.noted what.from given rows.now world.old) → IsNoticeMade g.store what.class g.values time world.old world.new result }
{
    match world.create(what.class) {
        Err(refused) => Err(refused),
        Ok(notice) => {
            let made = Giving {
                class: what.class,
                notice,
                from: what.from,
                noted: what.noted,
            };
            number_or(notice, prepare(world, rows, made, given, time))
        }
    }
}

// Whether a notice that there is may be scheduled: it must not be pending.
#[inline(always)]
fn look_unpended(world: &World, class: usize, notice: i64) -> Result<(), FaultKind>
    requires class { class < length world.now.heap.layout.classes }
    ensures { result ≡ unpended class notice world.now }
{
    match world.population.known(class, notice) {
        Err(kind) => Err(kind),
        Ok(()) => {
            if world.timeline.is_scheduled(notice) {
                Err(FaultKind::AlreadyScheduled)
            } else {
                Ok(())
            }
        }
    }
}

// A notice gets its first attributes and its time, and is filed.
#[inline(always)]
fn prepare_and_file(
    world: &mut World,
    rows: &Rows,
    alloc: Global,
    what: Giving,
    given: usize,
    time: i64,
) -> Result<(), Refused>
    requires { HasGivenValues what.class what.noted what.from given rows.now world.old }
    ensures { (g : HasGivenValues what.class what.noted what.from given rows.now world.old) → IsSettledWithMemory g.store (refiled what.class (Whole what.notice) g.values time) world.old world.new result }
{
    match prepare(world, rows, what, given, time) {
        Err(kind) => Err(Refused::Fault(kind)),
        Ok(()) => scheduling::schedule(world, alloc, what.class, what.notice, time),
    }
}

// A notice that there is gets its first attributes and its time, and is filed.
#[inline(never)]
fn schedule_again(
    world: &mut World,
    rows: &Rows,
    alloc: Global,
    what: Giving,
    given: usize,
    time: i64,
) -> Result<(), Refused>
    requires { HasGivenValues what.class what.noted what.from given rows.now world.old }
    ensures { (g : HasGivenValues what.class what.noted what.from given rows.now world.old) → IsSettledWithMemory g.store (rescheduled what.class (Whole what.notice) g.values time) world.old world.new result }
{
    match look_unpended(world, what.class, what.notice) {
        Err(kind) => Err(Refused::Fault(kind)),
        Ok(()) => prepare_and_file(world, rows, alloc, what, given, time),
    }
}

// On to the next instruction, unless there was a fault or memory was refused.
#[inline(always)]
fn settled(state: &mut State, answer: Result<(), Refused>) -> Option<()>
    ensures way { result ≡ unless_refused answer }
    ensures state { state.new ≡ refused_where answer state.old }
{
    match answer {
        Ok(()) => Some(()),
        Err(refused) => state.refused(refused),
    }
}

/// At.
#[inline]
pub fn time_at(state: &mut State, here: Here, time: &Address, to: &Address) -> Option<()>
    requires { Can here state.old (Instruction.At time.now to.now) }
    ensures { HasDone here state.old state.new (on_after here result) (Instruction.At time.now to.now) }
{
    let time = state.number(here, time);
    let answer = scheduling::time_at(&state.world, time);
    state.put(here, to, answer)
}

/// In.
#[inline]
pub fn time_in(state: &mut State, here: Here, units: &Address, to: &Address) -> Option<()>
    requires { Can here state.old (Instruction.In units.now to.now) }
    ensures { HasDone here state.old state.new (on_after here result) (Instruction.In units.now to.now) }
{
    let units = state.number(here, units);
    let answer = scheduling::time_in(&state.world, units);
    state.put(here, to, answer)
}

/// MakeNotice.
#[inline]
pub fn make_notice(state: &mut State, here: Here, values: Values, to: &Address) -> Option<()>
    requires { Can here state.old (Instruction.MakeNotice values.class values.cell values.count to.now values.noted) }
    ensures { HasDone here state.old state.new (on_after here result) (Instruction.MakeNotice values.class values.cell values.count to.now values.noted) }
{
    let from = state.cell(here, values.cell);
    let time = state.rows.number_at(from + values.count as usize);
    let what = Giving {
        class: values.class as usize,
        notice: 0,
        from,
        noted: values.noted,
    };
    match new_notice(
        &mut state.world,
        &state.rows,
        what,
        values.count as usize,
        time,
    ) {
        Err(refused) => state.refused(refused),
        Ok(notice) => {
            state.rows.set_number_at(from, time);
            state.put(here, to, Ok(notice))
        }
    }
}

/// FileNotice.
#[inline]
pub fn file_notice(
    state: &mut State,
    here: Here,
    class: u32,
    notice: &Address,
    time: &Address,
) -> Option<()>
    requires { Can here state.old (Instruction.FileNotice class notice.now time.now) }
    ensures { HasDone here state.old state.new (on_after here result) (Instruction.FileNotice class notice.now time.now) }
{
    let notice = state.number(here, notice);
    let time = state.number(here, time);
    let answer = scheduling::schedule(&mut state.world, state.alloc, class as usize, notice, time);
    settled(state, answer)
}

/// Reschedule.
#[inline]
pub fn reschedule(state: &mut State, here: Here, values: Values, notice: &Address) -> Option<()>
    requires { Can here state.old (Instruction.Reschedule values.class notice.now values.cell values.count values.noted) }
    ensures { HasDone here state.old state.new (on_after here result) (Instruction.Reschedule values.class notice.now values.cell values.count values.noted) }
{
    let notice = state.number(here, notice);
    let from = state.cell(here, values.cell);
    let time = state.rows.number_at(from + values.count as usize);
    let what = Giving {
        class: values.class as usize,
        notice,
        from,
        noted: values.noted,
    };
    let answer = schedule_again(
        &mut state.world,
        &state.rows,
        state.alloc,
        what,
        values.count as usize,
        time,
    );
    settled(state, answer)
}

/// Cancel.
#[inline]
pub fn cancel(state: &mut State, here: Here, class: u32, notice: &Address) -> Option<()>
    requires { Can here state.old (Instruction.Cancel class notice.now) }
    ensures { HasDone here state.old state.new (on_after here result) (Instruction.Cancel class notice.now) }
{
    let notice = state.number(here, notice);
    let answer = state.world.cancel(class as usize, notice);
    state.done(answer)
}
