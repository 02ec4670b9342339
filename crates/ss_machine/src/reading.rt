//! What the machine reads of its input.

ghost use Rattle.std.specs.Prelude.{◌≡◌, ℕ, ℤ, Bool, true, List, is_some, Ok, Err, None};
ghost use Rattle.ss_base.specs.declared.fault.FaultKind.{FaultKind as FaultSeen};
ghost use Rattle.ss_base.specs.declared.layout.Mode.TheVariants.{Integer, Alpha as AlphaMode};
ghost use Rattle.ss_base.specs.declared.value.Value.TheVariants.{Whole, Text};
ghost use Rattle.ss_base.specs.Failures.{HasRisen, HasRisenBy};
ghost use Rattle.ss_input.specs.Blocks.{IsEndKnown};
ghost use Rattle.ss_input.specs.Inputs.{source_block, source_missed, source_reader, HasReadInput, HasFound, missed_of};
ghost use Rattle.ss_input.specs.Sources.{IsLackingWord, MustAskMore};
ghost use Rattle.ss_input.specs.Words.{value_given, is_ended, is_separator};
ghost use Rattle.ss_machine_instructions.specs.Doing.{Can};
ghost use Rattle.ss_machine.specs.Reading.{missed_by, HasRead, IsQuiet};
ghost use Rattle.ss_machine_instructions.specs.Ways.{on_after, tested_at};

use ss_base::{Alpha, FaultyRead};
use ss_code_instructions::address::Address;
use ss_code_instructions::instruction::Instruction;
use ss_input::{Missed, Source};
use ss_machine_instructions::flow::{Ending, Here};
use ss_machine_instructions::state::State;

// Where no word was read.
#[inline(always)]
fn unread<T>(state: &mut State, missed: Missed) -> Option<T>
    ensures none { result ≡ None }
    ensures state { state.new ≡ missed_by missed state.old }
{
    match missed {
        Missed::Fault(kind) => state.fault(kind),
        Missed::Input => state.stop(Ending::NoInput),
    }
}

// The next number. Out of line, as the next two are: so the source takes no register of the loop.
#[inline(never)]
fn next_number<R: FaultyRead>(source: &mut Source<R>) -> Result<i64, Missed>
    requires { source_missed source.old ≡ None }
    ensures read { (number : ℤ) → result ≡ Ok number → HasReadInput R.remaining source.old source.new (λ input rest. value_given Integer input ≡ Ok (record { value = Whole number; rest = rest })) }
    ensures fault { (kind : FaultSeen) → result ≡ Err (Missed.Fault kind) → HasFound R.remaining source.old source.new (λ input. value_given Integer input ≡ Err kind) }
    ensures lacks { result ≡ Err Missed.Input → IsLackingWord R.remaining (source_block source.old) (source_block source.new) }
    ensures input { result ≡ Err Missed.Input → HasRisen (R.faults (source_reader source.old)) (R.faults (source_reader source.new)) }
    ensures missed { source_missed source.new ≡ missed_of result }
    ensures never_falls { HasRisenBy 0 (R.faults (source_reader source.old)) (R.faults (source_reader source.new)) }
    ensures end { IsEndKnown R.remaining (source_block source.old) → IsEndKnown R.remaining (source_block source.new) }
{
    source.integer()
}

// The next text.
#[inline(never)]
fn next_text<R: FaultyRead>(source: &mut Source<R>) -> Result<Alpha, Missed>
    requires { source_missed source.old ≡ None }
    ensures read { (text : List ℕ) → result ≡ Ok text → HasReadInput R.remaining source.old source.new (λ input rest. value_given AlphaMode input ≡ Ok (record { value = Text text; rest = rest })) }
    ensures fault { (kind : FaultSeen) → result ≡ Err (Missed.Fault kind) → HasFound R.remaining source.old source.new (λ input. value_given AlphaMode input ≡ Err kind) }
    ensures lacks { result ≡ Err Missed.Input → IsLackingWord R.remaining (source_block source.old) (source_block source.new) }
    ensures input { result ≡ Err Missed.Input → HasRisen (R.faults (source_reader source.old)) (R.faults (source_reader source.new)) }
    ensures missed { source_missed source.new ≡ missed_of result }
    ensures never_falls { HasRisenBy 0 (R.faults (source_reader source.old)) (R.faults (source_reader source.new)) }
    ensures end { IsEndKnown R.remaining (source_block source.old) → IsEndKnown R.remaining (source_block source.new) }
{
    source.alpha()
}

// Whether no word is left.
#[inline(never)]
fn is_ended<R: FaultyRead>(source: &mut Source<R>) -> Result<bool, Missed>
    requires { source_missed source.old ≡ None }
    ensures read { (ended : Bool) → result ≡ Ok ended → HasReadInput R.remaining source.old source.new (λ input rest. (rest ≡ input) × (is_ended input ≡ Ok ended)) }
    ensures fault { (kind : FaultSeen) → result ≡ Err (Missed.Fault kind) → HasFound R.remaining source.old source.new (λ input. is_ended input ≡ Err kind) }
    ensures wants { result ≡ Err Missed.Input → MustAskMore R.remaining is_separator (source_block source.old) (source_block source.new) }
    ensures input { result ≡ Err Missed.Input → HasRisen (R.faults (source_reader source.old)) (R.faults (source_reader source.new)) }
    ensures missed { source_missed source.new ≡ missed_of result }
    ensures never_falls { HasRisenBy 0 (R.faults (source_reader source.old)) (R.faults (source_reader source.new)) }
    ensures end { IsEndKnown R.remaining (source_block source.old) → IsEndKnown R.remaining (source_block source.new) }
{
    source.ended()
}

/// Read.
#[inline]
pub(crate) fn read_number<R: FaultyRead>(
    state: &mut State,
    here: Here,
    to: &Address,
    source: &mut Source<R>,
) -> Option<()>
    requires can { Can here state.old (Instruction.Read to.now) }
    requires unmissed { source_missed source.old ≡ None }
    ensures read { HasRead R.remaining here state.old (Instruction.Read to.now) source.old source.new state.new (on_after here result) }
    ensures quiet { IsQuiet state.old state.new }
    ensures unmissed { is_some result ≡ true → source_missed source.new ≡ None }
    ensures input { result ≡ None → state.new.ending ≡ Ending.NoInput → HasRisen (R.faults (source_reader source.old)) (R.faults (source_reader source.new)) }
    ensures never_falls { HasRisenBy 0 (R.faults (source_reader source.old)) (R.faults (source_reader source.new)) }
    ensures end { IsEndKnown R.remaining (source_block source.old) → IsEndKnown R.remaining (source_block source.new) }
{
    match next_number(source) {
        Err(missed) => unread(state, missed),
        Ok(number) => {
            state.set_number(here, to, number);
            Some(())
        }
    }
}

/// ReadText.
#[inline]
pub(crate) fn read_text<R: FaultyRead>(
    state: &mut State,
    here: Here,
    to: &Address,
    source: &mut Source<R>,
) -> Option<()>
    requires can { Can here state.old (Instruction.ReadText to.now) }
    requires unmissed { source_missed source.old ≡ None }
    ensures read { HasRead R.remaining here state.old (Instruction.ReadText to.now) source.old source.new state.new (on_after here result) }
    ensures quiet { IsQuiet state.old state.new }
    ensures unmissed { is_some result ≡ true → source_missed source.new ≡ None }
    ensures input { result ≡ None → state.new.ending ≡ Ending.NoInput → HasRisen (R.faults (source_reader source.old)) (R.faults (source_reader source.new)) }
    ensures never_falls { HasRisenBy 0 (R.faults (source_reader source.old)) (R.faults (source_reader source.new)) }
    ensures end { IsEndKnown R.remaining (source_block source.old) → IsEndKnown R.remaining (source_block source.new) }
{
    match next_text(source) {
        Err(missed) => unread(state, missed),
        Ok(text) => {
            state.set_text(here, to, text);
            Some(())
        }
    }
}

/// UnlessEnded.
#[inline]
pub(crate) fn unless_ended<R: FaultyRead>(
    state: &mut State,
    here: Here,
    negated: bool,
    source: &mut Source<R>,
) -> Option<bool>
    requires can { (skip : ℕ) × Can here state.old (Instruction.UnlessEnded skip negated) }
    requires unmissed { source_missed source.old ≡ None }
    ensures read { (skip : ℕ) → HasRead R.remaining here state.old (Instruction.UnlessEnded skip negated) source.old source.new state.new (tested_at here result skip) }
    ensures quiet { IsQuiet state.old state.new }
    ensures unmissed { is_some result ≡ true → source_missed source.new ≡ None }
    ensures input { result ≡ None → state.new.ending ≡ Ending.NoInput → HasRisen (R.faults (source_reader source.old)) (R.faults (source_reader source.new)) }
    ensures never_falls { HasRisenBy 0 (R.faults (source_reader source.old)) (R.faults (source_reader source.new)) }
    ensures end { IsEndKnown R.remaining (source_block source.old) → IsEndKnown R.remaining (source_block source.new) }
{
    match is_ended(source) {
        Err(missed) => unread(state, missed),
        Ok(ended) => Some(ended != negated),
    }
}
