//! What the machine writes.

ghost use Rattle.std.specs.Prelude.{◌≡◌, ◌+◌, ◌<◌, ◌≤◌, ◌^◌, ◌||◌, ◌++◌, [], ◌∷◌, ℕ, pos, int_lt, false, length, replicate, slice_get, Some, None, Err, OnOk, OnErr, IsErrOf};
ghost use Rattle.std.specs.List.{flat_map};
ghost use Rattle.std.specs.Io.KnownBytes.{Appends};
ghost use Rattle.ss_base.specs.Failures.{HasRisen, HasRisenBy};
ghost use Rattle.ss_meaning.specs.Values.{lines_with, line_end};
ghost use Rattle.ss_picture.specs.Pictures.{filled, field_count, picture_fields};
ghost use Rattle.ss_picture.specs.Suited.{AreSuitedItems};
ghost use Rattle.ss_machine_instructions.specs.declared.flow.Ending.{Ending as EndingSeen};
ghost use Rattle.ss_machine_instructions.specs.Doing.{Can, CanWhere};
ghost use Rattle.ss_machine.specs.Reading.{IsQuiet};
ghost use Rattle.ss_machine.specs.Sent.{HasTakenLess, HasTakenPart};
ghost use Rattle.ss_machine.specs.Shown.{CanShow, CanTakeAll, HasSentAll, HasSentLess, HasSentPart};
ghost use Rattle.ss_machine.specs.Writing.{IsUnsent, HasWritten};
ghost use Rattle.ss_machine_instructions.specs.Ways.{on_after};

use crate::showing::{Buffers, show};
use ss_base::{FaultKind, FaultyWrite};
use ss_code_instructions::address::Address;
use ss_code_instructions::instruction::Instruction;
use ss_code_pieces::lines::Lines;
use ss_machine_instructions::flow::{Ending, Here};
use ss_machine_instructions::state::State;
use ss_picture::{Item, Picture, Sink};

/// The most empty lines of a SKIP.
const MOST_LINES: i64 = 1000;

// Fills one line in the buffer, and sends it. The error is why that failed.
fn print_line<W: FaultyWrite>(
    line: &mut Vec<u8>,
    picture: &Picture,
    items: &[Item],
    sink: &mut Sink<W>,
) -> Result<(), Ending>
    requires fields { length items.now ≤ field_count picture.now }
    requires suited { AreSuitedItems (picture_fields picture.now) items.now }
    ensures ok { OnOk result (Appends (W.contents sink.old.writer) (W.contents sink.new.writer) (filled picture.now items.now ++ line_end ∷ [])) }
    ensures err { OnErr result (HasTakenPart (W.contents sink.old.writer) (W.contents sink.new.writer) (filled picture.now items.now ++ line_end ∷ [])) }
    ensures less { IsErrOf result Ending.NoOutput → HasTakenLess (W.contents sink.old.writer) (W.contents sink.new.writer) (filled picture.now items.now ++ line_end ∷ []) }
    ensures unsent { (e : EndingSeen) → result ≡ Err e → IsUnsent e }
    ensures output { IsErrOf result Ending.NoOutput → HasRisen (W.faults sink.old.writer) (W.faults sink.new.writer) }
    ensures never_falls { HasRisenBy 0 (W.faults sink.old.writer) (W.faults sink.new.writer) }
{
    line.clear();
    if picture.fill_into(line, items).is_err() || line.push(b'\n').is_err() {
        return Err(Ending::NoMemory);
    }
    match sink.write(line) {
        Ok(()) => Ok(()),
        Err(_) => Err(Ending::NoOutput),
    }
}

// Fills the lines of pictures with items in turn, and sends them one by one. The error is why that failed.
fn print_lines<W: FaultyWrite>(
    line: &mut Vec<u8>,
    pictures: &[Picture],
    items: &[Item],
    sink: &mut Sink<W>,
) -> Result<(), Ending>
    requires suited { AreSuitedItems (flat_map picture_fields pictures.now) items.now }
    ensures ok { OnOk result (Appends (W.contents sink.old.writer) (W.contents sink.new.writer) (lines_with pictures.now items.now)) }
    ensures err { OnErr result (HasTakenPart (W.contents sink.old.writer) (W.contents sink.new.writer) (lines_with pictures.now items.now)) }
    ensures less { IsErrOf result Ending.NoOutput → HasTakenLess (W.contents sink.old.writer) (W.contents sink.new.writer) (lines_with pictures.now items.now) }
    ensures unsent { (e : EndingSeen) → result ≡ Err e → IsUnsent e }
    ensures output { IsErrOf result Ending.NoOutput → HasRisen (W.faults sink.old.writer) (W.faults sink.new.writer) }
    ensures never_falls { HasRisenBy 0 (W.faults sink.old.writer) (W.faults sink.new.writer) }
{
    let mut rest = items;
    for picture in pictures {
        let count = picture.fields().len().min(rest.len());
        let (now, later) = rest.split_at(count);
        print_line(line, picture, now, sink)?;
        rest = later;
    }
    Ok(())
}

// Lines are filled with the values from a place on, and sent. The error is why that failed.
#[inline(never)]
fn print_from<W: FaultyWrite>(
    state: &State,
    buffers: &mut Buffers,
    lines: &Lines,
    from: usize,
    sink: &mut Sink<W>,
) -> Result<(), Ending>
    requires can { CanShow state.now.world state.now.rows from lines.now.items }
    requires small { length state.now.rows.numbers < 2 ^ 63 }
    requires fields { CanTakeAll state.now.world state.now.rows from lines.now }
    ensures ok { OnOk result (HasSentAll state.now.world state.now.rows from lines.now (W.contents sink.old.writer) (W.contents sink.new.writer)) }
    ensures err { OnErr result (HasSentPart state.now.world state.now.rows from lines.now (W.contents sink.old.writer) (W.contents sink.new.writer)) }
    ensures less { IsErrOf result Ending.NoOutput → HasSentLess state.now.world state.now.rows from lines.now (W.contents sink.old.writer) (W.contents sink.new.writer) }
    ensures unsent { (e : EndingSeen) → result ≡ Err e → IsUnsent e }
    ensures output { IsErrOf result Ending.NoOutput → HasRisen (W.faults sink.old.writer) (W.faults sink.new.writer) }
    ensures never_falls { HasRisenBy 0 (W.faults sink.old.writer) (W.faults sink.new.writer) }
{
    if show(&mut buffers.items, state, lines.items(), from).is_err() {
        return Err(Ending::NoMemory);
    }
    print_lines(&mut buffers.line, lines.pictures(), &buffers.items, sink)
}

/// Print.
#[inline(always)]
pub(crate) fn print<W: FaultyWrite>(
    state: &mut State,
    buffers: &mut Buffers,
    here: Here,
    lines: &Lines,
    cell: u32,
    sink: &mut Sink<W>,
) -> Option<()>
    requires { (number : ℕ) × CanWhere (λ w. slice_get w.run.prints number ≡ Some lines.now) here state.old (Instruction.Print number cell) }
    ensures written { (number : ℕ) → HasWritten (λ w. slice_get w.run.prints number ≡ Some lines.now) here state.old (Instruction.Print number cell) (W.contents sink.old.writer) (W.contents sink.new.writer) state.new (on_after here result) }
    ensures quiet { IsQuiet state.old state.new }
    ensures output { result ≡ None → state.new.ending ≡ Ending.NoOutput → HasRisen (W.faults sink.old.writer) (W.faults sink.new.writer) }
    ensures never_falls { HasRisenBy 0 (W.faults sink.old.writer) (W.faults sink.new.writer) }
{
    let from = state.cell(here, cell);
    match print_from(state, buffers, lines, from, sink) {
        Ok(()) => Some(()),
        Err(ending) => state.stop(ending),
    }
}

// Sends so many empty lines one by one. The error is why that failed.
#[inline(never)]
fn send_empty<W: FaultyWrite>(lines: usize, sink: &mut Sink<W>) -> Result<(), Ending>
    ensures ok { OnOk result (Appends (W.contents sink.old.writer) (W.contents sink.new.writer) (replicate lines line_end)) }
    ensures err { OnErr result (HasTakenLess (W.contents sink.old.writer) (W.contents sink.new.writer) (replicate lines line_end)) }
    ensures reason { (e : EndingSeen) → result ≡ Err e → e ≡ Ending.NoOutput }
    ensures risen { OnErr result (HasRisen (W.faults sink.old.writer) (W.faults sink.new.writer)) }
    ensures never_falls { HasRisenBy 0 (W.faults sink.old.writer) (W.faults sink.new.writer) }
{
    for _line in 0..lines {
        if sink.write(b"\n").is_err() {
            return Err(Ending::NoOutput);
        }
    }
    Ok(())
}

// Whether a SKIP may not write so many empty lines.
#[inline(always)]
fn is_bad(count: i64) -> bool
    ensures { result ≡ (int_lt count (pos 0) || int_lt (pos 1000) count) }
{
    count < 0 || count > MOST_LINES
}

// How many lines a number is that is not bad.
#[inline(always)]
fn lines_in(count: i64) -> usize
    requires { (int_lt count (pos 0) || int_lt (pos 1000) count) ≡ false }
    ensures number { count ≡ pos result }
    ensures few { result ≤ 1000 }
{
    count as usize
}

/// Skip.
#[inline]
pub(crate) fn skip<W: FaultyWrite>(
    state: &mut State,
    here: Here,
    count: &Address,
    sink: &mut Sink<W>,
) -> Option<()>
    requires { Can here state.old (Instruction.Skip count.now) }
    ensures written { HasWritten (λ w. Unit {0}) here state.old (Instruction.Skip count.now) (W.contents sink.old.writer) (W.contents sink.new.writer) state.new (on_after here result) }
    ensures quiet { IsQuiet state.old state.new }
    ensures output { result ≡ None → state.new.ending ≡ Ending.NoOutput → HasRisen (W.faults sink.old.writer) (W.faults sink.new.writer) }
    ensures never_falls { HasRisenBy 0 (W.faults sink.old.writer) (W.faults sink.new.writer) }
{
    let count = state.number(here, count);
    if is_bad(count) {
        return state.fault(FaultKind::BadCount);
    }
    match send_empty(lines_in(count), sink) {
        Ok(()) => Some(()),
        Err(ending) => state.stop(ending),
    }
}
