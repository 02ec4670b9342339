//! Events: how they begin.

ghost use Rattle.std.specs.Prelude.{◌≡◌, ℕ, ◌+◌, ◌<◌, ◌≤◌, ◌^◌, length, slice_get, Some, None};
ghost use Rattle.ss_base.specs.declared.layout.Mode.{Mode as ModeSeen};
ghost use Rattle.ss_base.specs.declared.layout.Mode.TheVariants.{Integer, Alpha as AlphaMode};
ghost use Rattle.ss_world.specs.State.{modes_of};
ghost use Rattle.ss_meaning.specs.Fitting.{living};
ghost use Rattle.ss_meaning.specs.Store.{Notices};
ghost use Rattle.ss_code_instructions.specs.States.{Core};
ghost use Rattle.ss_code_instructions.specs.Machine.{act};
ghost use Rattle.ss_machine_instructions.specs.Doing.{Compiled, HasOneTick, CanWhere, HasDoneWhere};
ghost use Rattle.ss_machine_instructions.specs.Ways.{faulted, begun_event_at, led};
ghost use Rattle.ss_machine_notices.specs.Beginning.{IsReadTo, AreReceivedIf, CanLetGo, HasLetGo, IsUnbegun, HasReceived, IsNextEvent};

use crate::scheduling::Giving;
use ss_base::{FaultKind, Line, Mode};
use ss_code_instructions::entry::SectionEntry;
use ss_code_instructions::instruction::Instruction;
use ss_machine_events::coming::next_event;
use ss_machine_frames::rows::Rows;
use ss_machine_instructions::flow::{Ending, Here, Next};
use ss_machine_instructions::state::State;
use ss_machine_world::world::World;

// The variable that a notice of a rank is saved in, if it is saved.
#[inline(always)]
fn saved_of(world: &World, rank: usize) -> Option<usize>
    requires { rank < length world.now.notices }
    ensures { (said : Notices) → slice_get world.now.notices rank ≡ Some said → result ≡ said.saved }
{
    let notices = world.notices.as_slice();
    let said = &notices[rank];
    said.saved()
}

// The line of the routine of its event.
#[inline(always)]
fn line_of(world: &World, rank: usize) -> Line
    requires { rank < length world.now.notices }
    ensures { (said : Notices) → slice_get world.now.notices rank ≡ Some said → result ≡ said.line }
{
    let notices = world.notices.as_slice();
    let said = &notices[rank];
    said.line()
}

// The class of a notice, if it lives.
#[inline(always)]
fn class_of(world: &World, notice: i64) -> Option<usize>
    ensures { result ≡ living world.now.heap notice }
{
    world.population.class_of(notice)
}

// An attribute of a notice that is a number goes to its place.
#[inline]
fn read_number(world: &World, rows: &mut Rows, what: Giving, field: usize) -> Result<(), FaultKind>
    requires class { what.class < length world.now.heap.layout.classes }
    requires mode { slice_get (modes_of world.now.heap.layout what.class) field ≡ Some Integer }
    requires place { what.from + field < length rows.old.numbers }
    requires small { what.from + field < 2 ^ 64 }
    ensures { IsReadTo world.now.heap what.class field what.notice Integer (what.from + field) rows.old rows.new result }
{
    match world.population.whole(what.class, field, what.notice) {
        Err(kind) => Err(kind),
        Ok(number) => {
            rows.set_number_at(what.from + field, number);
            Ok(())
        }
    }
}

// One that is a text.
#[inline]
fn read_text(world: &World, rows: &mut Rows, what: Giving, field: usize) -> Result<(), FaultKind>
    requires class { what.class < length world.now.heap.layout.classes }
    requires mode { slice_get (modes_of world.now.heap.layout what.class) field ≡ Some AlphaMode }
    requires place { what.from + field < length rows.old.numbers }
    requires small { what.from + field < 2 ^ 64 }
    ensures { IsReadTo world.now.heap what.class field what.notice AlphaMode (what.from + field) rows.old rows.new result }
{
    match world.population.text(what.class, field, what.notice) {
        Err(kind) => Err(kind),
        Ok(text) => {
            rows.set_text_at(what.from + field, text);
            Ok(())
        }
    }
}

// One of this mode.
#[inline(always)]
fn read_one(
    world: &World,
    rows: &mut Rows,
    what: Giving,
    field: usize,
    mode: Mode,
) -> Result<(), FaultKind>
    requires class { what.class < length world.now.heap.layout.classes }
    requires mode { slice_get (modes_of world.now.heap.layout what.class) field ≡ Some mode }
    requires place { what.from + field < length rows.old.numbers }
    requires small { what.from + field < 2 ^ 64 }
    ensures { IsReadTo world.now.heap what.class field what.notice mode (what.from + field) rows.old rows.new result }
{
    match mode {
        Mode::Integer => read_number(world, rows, what, field),
        Mode::Alpha => read_text(world, rows, what, field),
    }
}

// The mode of one that is given.
#[inline(always)]
fn given_mode(modes: &[Mode], field: usize) -> Mode
    requires { field < length modes.now }
    ensures { slice_get modes.now field ≡ Some result }
{
    modes[field]
}

// The first attributes of a notice, of these modes, go to their places.
#[inline(always)]
fn read_given(world: &World, rows: &mut Rows, what: Giving, modes: &[Mode]) -> Result<(), FaultKind>
    requires class { what.class < length world.now.heap.layout.classes }
    requires modes { (i : ℕ) (m : ModeSeen) → slice_get modes.now i ≡ Some m → slice_get (modes_of world.now.heap.layout what.class) i ≡ Some m }
    requires places { what.from + length modes.now ≤ length rows.old.numbers }
    requires small { what.from + length modes.now ≤ 2 ^ 64 }
    ensures received { length rows.old.texts ≡ length rows.old.numbers → AreReceivedIf world.now.heap what.class what.notice modes.now what.from rows.old rows.new result }
    ensures long { length rows.new.numbers ≡ length rows.old.numbers }
{
    for field in 0..modes.len() {
        match read_one(world, rows, what, field, given_mode(modes, field)) {
            Err(kind) => return Err(kind),
            Ok(()) => {}
        }
    }
    Ok(())
}

// A fault as an event of this rank begins has the line of its routine.
#[inline(always)]
fn fault_of_event<T>(state: &mut State, kind: FaultKind, rank: usize) -> Option<T>
    requires { rank < length state.old.world.notices }
    ensures none { result ≡ None }
    ensures state { (said : Notices) → slice_get state.old.world.notices rank ≡ Some said → state.new ≡ faulted kind (record state.old { fault_line = Some said.line }) }
{
    state.fault_line = Some(line_of(&state.world, rank));
    state.fault(kind)
}

// The notice of an event of this rank is saved in a variable, which is noted where it is watched, or it goes.
#[inline(always)]
fn let_go(state: &mut State, rank: usize, class: usize, notice: i64) -> Result<(), FaultKind>
    requires { CanLetGo state.old.world rank class (length state.old.rows.numbers) }
    ensures { (said : Notices) → slice_get state.old.world.notices rank ≡ Some said → HasLetGo said.saved class notice state.old state.new result }
{
    match saved_of(&state.world, rank) {
        None => state.world.remove_entity(class, notice),
        Some(variable) => {
            state.rows.set_number_at(variable, notice);
            state.world.note_variable(variable, notice)
        }
    }
}

// There is no memory for the frame of an event: the fault that is due as it begins, or out of memory where none is.
#[cold]
#[inline(never)]
fn unbegun(state: &mut State, rank: usize, class: usize, notice: i64) -> Option<usize>
    requires goes { CanLetGo state.old.world rank class (length state.old.rows.numbers) }
    requires ticks { state.old.ticks + 1 < 2 ^ 64 }
    ensures none { result ≡ None }
    ensures state { (said : Notices) → slice_get state.old.world.notices rank ≡ Some said → IsUnbegun said class notice state.old state.new }
{
    match let_go(state, rank, class, notice) {
        Ok(()) => state.give_tick_back(),
        Err(kind) => fault_of_event(state, kind, rank),
    }
}

// The attributes of a notice are read, and the notice is let go.
#[inline(always)]
fn receive(state: &mut State, what: Giving, rank: usize, modes: &[Mode]) -> Result<(), FaultKind>
    requires goes { CanLetGo state.old.world rank what.class what.from }
    requires modes { (i : ℕ) (m : ModeSeen) → slice_get modes.now i ≡ Some m → slice_get (modes_of state.old.world.heap.layout what.class) i ≡ Some m }
    requires places { what.from + length modes.now ≤ length state.old.rows.numbers }
    requires small { what.from + length modes.now ≤ 2 ^ 64 }
    ensures { (said : Notices) → slice_get state.old.world.notices rank ≡ Some said → HasReceived said what.class what.notice modes.now what.from state.old state.new result }
{
    match read_given(&state.world, &mut state.rows, what, modes) {
        Err(kind) => Err(kind),
        Ok(()) => let_go(state, rank, what.class, what.notice),
    }
}

// The event of a notice begins.
#[inline]
fn begin_event(
    state: &mut State,
    here: Here,
    notice: i64,
    class: usize,
    events: &[SectionEntry],
    cell: u32,
) -> Option<usize>
    requires { (w : Compiled) × (c : Core) × (events.now ≡ w.run.events) × IsNextEvent w c here state.old cell notice class }
    ensures { (w : Compiled) (c : Core) → events.now ≡ w.run.events → (n : IsNextEvent w c here state.old cell notice class) → HasOneTick state.old.ticks w n.ready.placed.line (act w.code n.ready.placed.line n.ready.placed.instruction c) n.before state.new (begun_event_at here cell result) }
{
    let rank = state.world.rank(class);
    let entry = &events[rank];
    let Ok(frame) = state.enter(here, entry, cell) else {
        return unbegun(state, rank, class, notice);
    };
    let what = Giving {
        class,
        notice,
        from: frame,
        noted: false,
    };
    match receive(state, what, rank, &entry.given) {
        Ok(()) => Some(entry.place),
        Err(kind) => fault_of_event(state, kind, rank),
    }
}

/// TakeEvent.
#[inline(always)]
pub fn take_event(state: &mut State, here: Here, events: &[SectionEntry], cell: u32) -> Next
    requires { CanWhere (λ w. events.now ≡ w.run.events) here state.old (Instruction.TakeEvent cell) }
    ensures { HasDoneWhere (λ w. events.now ≡ w.run.events) here state.old state.new (led result) (Instruction.TakeEvent cell) }
{
    let on = here.on();
    if !state.has_taken_tick() {
        return on.after(state.stop(Ending::Paused));
    }
    let Some(notice) = next_event(&mut state.world) else {
        return on;
    };
    match class_of(&state.world, notice) {
        None => on,
        Some(class) => {
            let place = begin_event(state, here, notice, class, events, cell);
            on.begun(place, state.cell(here, cell))
        }
    }
}
