//! The first state of a machine.

ghost use Rattle.std.specs.Prelude.{◌≡◌, ◌+◌, ◌<◌, ◌^◌, length, IfOk, OnOk};
ghost use Rattle.ss_machine.specs.Beginning.{IsLaidOut, values_laid, firsts_laid, IsFirstWorld, IsFirstState, first_here};
ghost use Rattle.ss_machine.specs.Start.{IsAtStart};
ghost use Rattle.ss_machine.specs.Situations.{situated};

use ss_base::{Discipline, FaultKind, Layout, Mode, Value};
use ss_code::code::Code;
use ss_code_instructions::NoticeClass;
use ss_machine_frames::frames::Frames;
use ss_machine_frames::rows::Rows;
use ss_machine_instructions::flow::Ending;
use ss_machine_instructions::state::State;
use ss_machine_world::world::World;
use std::alloc::{AllocError, Global};

// First values of modes come after others.
fn put_firsts(rows: &mut Rows, modes: &[Mode]) -> Result<(), AllocError>
    ensures { OnOk result (rows.new ≡ firsts_laid rows.old modes.now) }
{
    for mode in modes {
        rows.push(mode.first_value())?;
    }
    Ok(())
}

// Constants come after others.
fn put_constants(rows: &mut Rows, constants: &[Value]) -> Result<(), AllocError>
    ensures { OnOk result (rows.new ≡ values_laid rows.old constants.now) }
{
    for constant in constants {
        rows.push(*constant)?;
    }
    Ok(())
}

// The rows before the first instruction: the global variables, the constants, and the frame of MAIN.
fn first_rows(alloc: Global, code: &Code) -> Result<Rows, AllocError>
    ensures { IfOk result (λ rows. IsLaidOut code.now rows) }
{
    let _made = code.len();
    let mut rows = Rows::new(alloc);
    put_firsts(&mut rows, code.globals())?;
    put_constants(&mut rows, code.constants())?;
    let frame = rows.len();
    let main = code.main();
    rows.lengthen(frame.saturating_add(main.room))?;
    rows.clear(frame, &main.others);
    Ok(rows)
}

// The layout of the code, in memory of its own.
fn layout_of(code: &Code) -> Result<Layout, AllocError>
    ensures { IfOk result (λ layout. layout ≡ code.now.said.layout) }
{
    code.layout().clone()
}

// Its disciplines.
fn disciplines_of(alloc: Global, code: &Code) -> Result<Vec<Discipline>, AllocError>
    ensures { IfOk result (λ copies. copies.items ≡ code.now.said.setting.disciplines) }
{
    code.disciplines().to_vec(alloc)
}

// What it says of the classes of notices.
fn notices_of(alloc: Global, code: &Code) -> Result<Vec<NoticeClass>, AllocError>
    ensures { IfOk result (λ copies. copies.items ≡ code.now.said.setting.notices) }
{
    code.notices().to_vec(alloc)
}

// The world before the first instruction.
fn first_world(alloc: Global, code: &Code) -> Result<World, AllocError>
    ensures { IfOk result (λ world. IsFirstWorld code.now world) }
{
    let layout = layout_of(code)?;
    let disciplines = disciplines_of(alloc, code)?;
    let notices = notices_of(alloc, code)?;
    World::new(
        alloc,
        layout,
        disciplines,
        notices,
        code.ties(),
        code.statistics(),
    )
}

/// What the machine works on before the first instruction of this code. The error comes where memory was refused.
pub fn first_state(alloc: Global, code: &Code) -> Result<State, AllocError>
    ensures { IfOk result (λ state. IsFirstState code.now state) }
{
    let rows = first_rows(alloc, code)?;
    let world = first_world(alloc, code)?;
    Ok(State {
        rows,
        frames: Frames::new(alloc),
        world,
        alloc,
        ticks: 0,
        steps: 0,
        ending: Ending::Ended,
        fault: FaultKind::NoEntity,
        fault_line: None,
    })
}

/// Where the machine is before the first instruction of this code, but for its ticks: the place, and where the frame of MAIN
/// begins.
pub fn first_place(code: &Code) -> (usize, usize)
    requires { length code.now.globals + length code.now.run.constants < 2 ^ 63 }
    ensures { record { place = result.0; frame = result.1 } ≡ first_here code.now }
{
    let frame = code.globals().len() + code.constants().len();
    (code.main().place, frame)
}

/// A machine holds its first state there.
#[inline(always)]
pub fn stands_first(code: &Code, state: &State)
    requires { IsFirstState code.now state.now }
    ensures { IsAtStart code.now (situated (first_here code.now) state.now) }
{}

/// Gives the memory of what a machine works on back.
pub fn release_state(state: State) {
    let _released = state;
}
