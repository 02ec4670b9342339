//! From a resolved program to its code.

ghost use Rattle.std.specs.Prelude.{◌≡◌, ◌+◌, ◌<◌, ◌≤◌, ◌^◌, ◌++◌, ◌∷◌, [], length, map, Err, IfOk, OnOk};
ghost use Rattle.ss_program.specs.Checking.{checked_program};
ghost use Rattle.ss_program.specs.Nodes.{nodes};
ghost use Rattle.ss_program.specs.View.{view_routine, view_event, view_program, view_body};
ghost use Rattle.ss_program.specs.WellTyped.{IsWellTyped};
ghost use Rattle.ss_code_instructions.specs.Running.{IsFaithful, HasLandings};
ghost use Rattle.ss_code_instructions.specs.Translation.{code_of, routine_entry, event_entry};
ghost use Rattle.ss_code_pieces.specs.Lined.{instructions_in, lines_in};
ghost use Rattle.ss_code.specs.Limits.{instruction_limit as most_instructions, small_program};
ghost use Rattle.ss_code.specs.Running.{IsFor};
ghost use Rattle.ss_code.specs.Sections.{IsDeepened, AreAllDeepened, HasPutSection, HasPutRoutines, HasPutEvents};

use crate::code::{Code, Sections, Text};
use crate::error::CodeError;
use crate::program_facts::program_facts;
use crate::sifting::sift_walks;
use ss_base::{Line, Mode};
use ss_code_generator::generator::Generator;
use ss_code_instructions::entry::SectionEntry;
use ss_code_instructions::instruction::Instruction;
use ss_code_instructions::laws::{laws_of_code, laws_of_meaning};
use ss_code_instructions::limit::instruction_limit;
use ss_code_pieces::lines::Lines;
use ss_code_pieces::piece::{Piece, as_index};
use ss_program::checked::Checked;
use ss_program::sections::{Event, Program, Routine};
use ss_program::statement::Statement;
use std::alloc::{AllocError, Global};

// Modes and further ones after them.
fn joined(alloc: Global, first: &[Mode], second: &[Mode]) -> Result<Vec<Mode>, AllocError>
    ensures { IfOk result (λ modes. modes.items ≡ first.now ++ second.now) }
{
    let mut modes = Vec::from_slice(alloc, first)?;
    modes.extend_from_slice(second)?;
    Ok(modes)
}

/// The local variables of a section: the modes of those that it is given, how many of the others it yields, and the modes of the
/// others.
struct SectionLocals {
    given: Vec<Mode>,
    yielding: usize,
    others: Vec<Mode>,
}

// A section's code comes after what was made so far. Its frame has no room for cells yet.
fn put_section(
    generator: &mut Generator,
    code: &mut Piece,
    prints: &mut Vec<Lines>,
    locals: SectionLocals,
    body: &[Statement],
) -> Result<SectionEntry, AllocError>
    ensures { IfOk result (λ entry. HasPutSection generator.old generator.new code.old code.new prints.old.items prints.new.items (record { place = length code.old; given = locals.given.items; yielding = locals.yielding; others = locals.others.items }) (view_body body.now) entry) }
{
    let SectionLocals {
        given,
        yielding,
        others,
    } = locals;
    let place = code.len();
    generator.locals = joined(generator.alloc, &given, &others)?;
    let own = generator.section(prints, body)?;
    code.append(own)?;
    let room = generator.locals.len();
    Ok(SectionEntry {
        place,
        given,
        yielding,
        others,
        room,
    })
}

// MAIN.
fn put_main(
    generator: &mut Generator,
    code: &mut Piece,
    prints: &mut Vec<Lines>,
) -> Result<SectionEntry, AllocError>
    ensures { IfOk result (λ entry. HasPutSection generator.old generator.new code.old code.new prints.old.items prints.new.items (record { place = length code.old; given = []; yielding = 0; others = generator.old.program.now.locals.items }) (view_body generator.old.program.now.main.items) entry) }
{
    let program = generator.program;
    let others = Vec::from_slice(generator.alloc, &program.locals)?;
    let given = Vec::new(generator.alloc);
    let locals = SectionLocals {
        given,
        yielding: 0,
        others,
    };
    put_section(generator, code, prints, locals, &program.main)
}

// A routine.
fn put_routine(
    generator: &mut Generator,
    code: &mut Piece,
    prints: &mut Vec<Lines>,
    routine: &Routine,
) -> Result<SectionEntry, AllocError>
    ensures { IfOk result (λ entry. HasPutSection generator.old generator.new code.old code.new prints.old.items prints.new.items (routine_entry (length code.old) (view_routine routine.now)) (view_routine routine.now).body entry) }
{
    let given = Vec::from_slice(generator.alloc, &routine.given)?;
    let others = joined(generator.alloc, &routine.yielding, &routine.others)?;
    let yielding = routine.yielding.len();
    let locals = SectionLocals {
        given,
        yielding,
        others,
    };
    put_section(generator, code, prints, locals, &routine.body)
}

// The routine of an event.
fn put_event(
    generator: &mut Generator,
    code: &mut Piece,
    prints: &mut Vec<Lines>,
    event: &Event,
) -> Result<SectionEntry, AllocError>
    ensures { IfOk result (λ entry. HasPutSection generator.old generator.new code.old code.new prints.old.items prints.new.items (event_entry (length code.old) (view_event event.now)) (view_event event.now).body entry) }
{
    let given = Vec::from_slice(generator.alloc, &event.given)?;
    let others = Vec::from_slice(generator.alloc, &event.others)?;
    let locals = SectionLocals {
        given,
        yielding: 0,
        others,
    };
    put_section(generator, code, prints, locals, &event.body)
}

// An entry comes after others.
fn put_entry(entries: &mut Vec<SectionEntry>, entry: SectionEntry) -> Result<(), AllocError>
    ensures { OnOk result (entries.new.items ≡ entries.old.items ++ entry ∷ []) }
{
    entries.push(entry)?;
    Ok(())
}

// The routines.
fn put_routines(
    generator: &mut Generator,
    code: &mut Piece,
    prints: &mut Vec<Lines>,
) -> Result<Vec<SectionEntry>, AllocError>
    ensures { IfOk result (λ entries. HasPutRoutines generator.old generator.new code.old code.new prints.old.items prints.new.items (map view_routine generator.old.program.now.routines.items) entries.items) }
{
    let program = generator.program;
    let mut entries = Vec::new(generator.alloc);
    for routine in &program.routines {
        let entry = put_routine(generator, code, prints, routine)?;
        put_entry(&mut entries, entry)?;
    }
    Ok(entries)
}

// The routines of events.
fn put_events(
    generator: &mut Generator,
    code: &mut Piece,
    prints: &mut Vec<Lines>,
) -> Result<Vec<SectionEntry>, AllocError>
    ensures { IfOk result (λ entries. HasPutEvents generator.old generator.new code.old code.new prints.old.items prints.new.items (map view_event generator.old.program.now.events.items) entries.items) }
{
    let program = generator.program;
    let mut entries = Vec::new(generator.alloc);
    for event in &program.events {
        let entry = put_event(generator, code, prints, event)?;
        put_entry(&mut entries, entry)?;
    }
    Ok(entries)
}

// The room of a frame that has so many variables, with as many cells as any frame has.
fn with_cells(variables: usize, depth: usize) -> Result<usize, AllocError>
    ensures value { IfOk result (λ room. room ≡ variables + depth) }
    ensures small { IfOk result (λ room. room < 2 ^ 32) }
{
    let room = as_index(variables.saturating_add(depth))?;
    Ok(room as usize)
}

// The frame of a section gets room for as many cells as any frame has.
fn deepen(entry: &mut SectionEntry, depth: usize) -> Result<(), AllocError>
    ensures { OnOk result (IsDeepened depth entry.old entry.new) }
{
    entry.room = with_cells(entry.room, depth)?;
    Ok(())
}

// And so the frames of all.
fn deepen_all(entries: &mut Vec<SectionEntry>, depth: usize) -> Result<(), AllocError>
    ensures { OnOk result (AreAllDeepened depth entries.old.items entries.new.items) }
{
    for i in 0..entries.len() {
        deepen(&mut entries[i], depth)?;
    }
    Ok(())
}

// The sections, each with room for as many cells as any frame has.
fn sections_of(
    depth: usize,
    mut main: SectionEntry,
    mut routines: Vec<SectionEntry>,
    mut events: Vec<SectionEntry>,
) -> Result<Sections, AllocError>
    ensures depth { IfOk result (λ made. made.depth ≡ depth) }
    ensures main { IfOk result (λ made. IsDeepened depth main made.main) }
    ensures routines { IfOk result (λ made. AreAllDeepened depth routines.items made.routines.items) }
    ensures events { IfOk result (λ made. AreAllDeepened depth events.items made.events.items) }
{
    deepen(&mut main, depth)?;
    deepen_all(&mut routines, depth)?;
    deepen_all(&mut events, depth)?;
    Ok(Sections {
        main,
        routines,
        events,
        depth,
    })
}

// The instructions of a piece.
fn instructions_of(alloc: Global, code: &Piece) -> Result<Vec<Instruction>, AllocError>
    ensures { IfOk result (λ made. made.items ≡ instructions_in code.now) }
{
    let items = code.items();
    let mut made = Vec::with_capacity(alloc, items.len())?;
    for item in items {
        made.push(item.instruction)?;
    }
    Ok(made)
}

// Their lines.
fn lines_of(alloc: Global, code: &Piece) -> Result<Vec<Line>, AllocError>
    ensures { IfOk result (λ made. made.items ≡ lines_in code.now) }
{
    let items = code.items();
    let mut made = Vec::with_capacity(alloc, items.len())?;
    for item in items {
        made.push(item.line)?;
    }
    Ok(made)
}

// Both of a piece.
fn text_of(alloc: Global, code: Piece) -> Result<Text, AllocError>
    ensures instructions { IfOk result (λ text. text.instructions.items ≡ instructions_in code) }
    ensures lines { IfOk result (λ text. text.lines.items ≡ lines_in code) }
{
    let instructions = instructions_of(alloc, &code)?;
    let lines = lines_of(alloc, &code)?;
    Ok(Text {
        instructions,
        lines,
    })
}

// The code of a program that is well typed.
fn made(alloc: Global, program: &Program) -> Result<Code, CodeError>
    requires typed { IsWellTyped (view_program program.now) }
    ensures code { IfOk result (λ code. IsFor (view_program program.now) code) }
    ensures behaves { IfOk result (λ code. IsFaithful (view_program program.now) (code_of (view_program program.now))) }
    ensures lands { IfOk result (λ code. HasLandings (code_of (view_program program.now))) }
    ensures limit { IfOk result (λ code. length code.run.instructions ≤ most_instructions) }
    ensures too_long { result ≡ Err CodeError.CodeTooLong → most_instructions < length (code_of (view_program program.now)).places }
    ensures small { nodes (view_program program.now) ≤ small_program → result ≡ Err CodeError.CodeTooLong → ⊥ }
{
    laws_of_meaning();
    laws_of_code();
    let mut generator = Generator::new(alloc, program)?;
    let mut code = Piece::new(alloc);
    let mut prints = Vec::new(alloc);
    let main = put_main(&mut generator, &mut code, &mut prints)?;
    let routines = put_routines(&mut generator, &mut code, &mut prints)?;
    let events = put_events(&mut generator, &mut code, &mut prints)?;
    let sections = sections_of(generator.deepest, main, routines, events)?;
    if code.len() > instruction_limit() {
        return Err(CodeError::CodeTooLong);
    }
    let mut text = text_of(alloc, code)?;
    let said = program_facts(alloc, program)?;
    let globals = Vec::from_slice(alloc, &program.globals)?;
    let Generator { constants, .. } = generator;
    sift_walks(&mut text.instructions, globals.len() + constants.len());
    Ok(Code::new(text, constants, prints, sections, said, globals))
}

/// The code of a program. It does with each input and each number of ticks what the program means, and nothing else, and
/// each jump back in it leads to an instruction that takes a tick.
///
/// `CodeTooLong` comes only where the code has more than 1,048,576 instructions, and never
/// for a program of at most 16,384 nodes; `Memory` where memory was refused. An instruction holds numbers of 32 bits: a program
/// with 2^32 variables, constants or cells is answered `Memory` too. No text has so many.
pub fn generate(alloc: Global, checked: &Checked) -> Result<Code, CodeError>
    ensures code { IfOk result (λ code. IsFor (view_program (checked_program checked.now)) code) }
    ensures behaves { IfOk result (λ code. IsFaithful (view_program (checked_program checked.now)) (code_of (view_program (checked_program checked.now)))) }
    ensures lands { IfOk result (λ code. HasLandings (code_of (view_program (checked_program checked.now)))) }
    ensures limit { IfOk result (λ code. length code.run.instructions ≤ most_instructions) }
    ensures too_long { result ≡ Err CodeError.CodeTooLong → most_instructions < length (code_of (view_program (checked_program checked.now))).places }
    ensures small { nodes (view_program (checked_program checked.now)) ≤ small_program → result ≡ Err CodeError.CodeTooLong → ⊥ }
{
    made(alloc, checked.program())
}
