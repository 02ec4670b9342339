//! The input data of a run.

ghost use Rattle.std.specs.Prelude.{◌≡◌, ◌+◌, ◌≤◌, ℕ, ℤ, pos, Bool, List, [], false, true, length, take, Ok, Err, Some, None, IfOk, IfSome, OnOk};
ghost use Rattle.ss_base.specs.declared.fault.FaultKind.{FaultKind as FaultSeen};
ghost use Rattle.ss_base.specs.declared.value.Value.TheVariants.{Whole, Text};
ghost use Rattle.ss_base.specs.declared.layout.Mode.TheVariants.{Integer, Alpha as AlphaMode};
ghost use Rattle.ss_base.specs.Failures.{HasRisen, HasRisenBy};
ghost use Rattle.ss_input.specs.declared.source.Missed.{Missed as MissedSeen};
ghost use Rattle.ss_input.specs.Blocks.{IsEndKnown};
ghost use Rattle.ss_input.specs.Sources.{HasGivenBytes, IsGapPassed, IsNextWanted, IsEnough, IsUnasked, HasWord, MustAskMore, IsLackingWord};
ghost use Rattle.ss_input.specs.Inputs.{source_block, source_gap, source_missed, source_reader, IsFresh, IsBuffered, IsBeforeWord, HasReadInput, HasFound, HasReached, missed_of, failures_after};
ghost use Rattle.ss_input.specs.Words.{is_separator, is_word_byte, if_read, is_ended, next_word, value_given};

use crate::block::{Block, ReadFailed};
use crate::number::{leading_number, separators};
use crate::passing::{SEPARATOR_LIMIT, WORD_LIMIT, pass_gap, pass_word};
use crate::value::WordValue;
use ss_base::{Alpha, FaultKind, FaultyRead};
use std::marker::Model;

/// Why no word was read.
#[derive(Clone, Copy, Debug, PartialEq, Eq)]
pub enum Missed {
    /// END OF DATA where no word is left; BAD DATA where the word is no value of the mode, or too
    /// long, or comes after too many separators.
    Fault(FaultKind),
    /// The reader answered an error.
    Input,
}

/// The words that a reader gives.
///
/// The reader is asked for 4,096 bytes at a time, and only where none is buffered and one is needed. Its
/// first end is remembered. After a `Missed` every call answers the same and reads nothing.
#[derive(Debug, Drop)]
pub struct Source<R> {
    block: Block<R>,
    gap: Gap,
    missed: Option<Missed>,
}

/// A number whose bytes are buffered: how many separators come before it, and how many bytes it has.
#[derive(Clone, Copy)]
struct BufferedNumber {
    gap: usize,
    value: u64,
    count: usize,
}

/// How many separators were passed since the last word.
#[derive(Debug, Drop)]
struct Gap {
    count: usize,
}

impl Model for Gap {
    ghost use Rattle.std.specs.Prelude.{ℕ, ◌≤◌};

    ghost Value = { ℕ };

    ghost view = { λ g. g.count };

    ghost invariant = { λ g. g.count ≤ 1048576 };
}

impl<R> Source<R> {
    /// The words of this reader, of which nothing was read.
    pub fn new(reader: R) -> Source<R>
        ensures { IsFresh reader result }
    {
        Source {
            block: Block::new(reader),
            gap: Gap { count: 0 },
            missed: None,
        }
    }

    /// Why it gives no more; None where it may still give something.
    pub fn missed(&self) -> Option<Missed>
        ensures { result ≡ source_missed self.now }
    {
        self.missed
    }

    /// The reader, as it is now.
    pub fn reader(&self) -> &R
        ensures { result.now ≡ source_reader self.now }
    {
        self.block.reader()
    }

    /// How many bytes of what the reader gave were not passed yet.
    pub fn unread(&self) -> usize
        ensures { result ≡ length (source_block self.now).left }
    {
        self.block.buffered().len()
    }

    /// The reader, after all that was read from it.
    pub fn into_inner(self) -> R
        ensures { result ≡ source_reader self }
    {
        self.block.into_inner()
    }
}

impl<R: FaultyRead> Source<R> {
    // Passes the separators before the next word, if there is one.
    fn reach_word(&mut self) -> Result<(), Missed>
        ensures ok { OnOk result (HasReached R.remaining self.old self.new) }
        ensures fault { (kind : FaultSeen) → result ≡ Err (Missed.Fault kind) → (kind ≡ FaultKind.BadData) × IsGapPassed R.remaining (source_block self.old) (source_block self.new) (source_gap self.old) 1048577 }
        ensures gives { result ≡ Err Missed.Input → HasGivenBytes R.remaining (source_block self.old) (source_block self.new) }
        ensures wants { result ≡ Err Missed.Input → MustAskMore R.remaining is_separator (source_block self.old) (source_block self.new) }
        ensures missed { source_missed self.new ≡ source_missed self.old }
        ensures counted { R.faults (source_reader self.new) ≡ failures_after result (R.faults (source_reader self.old)) }
        ensures unasked { IsEnough is_separator (source_block self.old) → IsUnasked is_separator (source_block self.old) (source_block self.new) }
        ensures end { IsEndKnown R.remaining (source_block self.old) → IsEndKnown R.remaining (source_block self.new) }
    {
        match pass_gap(&mut self.block, self.gap.count) {
            Ok(Some(count)) => {
                self.gap = Gap { count };
                Ok(())
            }
            Ok(None) => Err(Missed::Fault(FaultKind::BadData)),
            Err(ReadFailed) => Err(Missed::Input),
        }
    }

    // Reads the next word, and answers how many bytes it has.
    fn read_word(&mut self, word: &mut [u8; WORD_LIMIT]) -> Result<usize, Missed>
        ensures ok { IfOk result (λ count. count ≤ WORD_LIMIT) }
        ensures read { (count : ℕ) → result ≡ Ok count → HasReadInput R.remaining self.old self.new (λ input rest. next_word input ≡ Ok (record { value = take count word.new; rest = rest })) }
        ensures fault { (kind : FaultSeen) → result ≡ Err (Missed.Fault kind) → HasFound R.remaining self.old self.new (λ input. next_word input ≡ Err kind) }
        ensures gives { result ≡ Err Missed.Input → HasGivenBytes R.remaining (source_block self.old) (source_block self.new) }
        ensures lacks { result ≡ Err Missed.Input → IsLackingWord R.remaining (source_block self.old) (source_block self.new) }
        ensures missed { source_missed self.new ≡ source_missed self.old }
        ensures counted { R.faults (source_reader self.new) ≡ failures_after result (R.faults (source_reader self.old)) }
        ensures unasked { HasWord (source_block self.old) → source_reader self.new ≡ source_reader self.old }
        ensures end { IsEndKnown R.remaining (source_block self.old) → IsEndKnown R.remaining (source_block self.new) }
    {
        self.reach_word()?;
        if self.block.first().is_none() {
            return Err(Missed::Fault(FaultKind::EndOfData));
        }
        match pass_word(&mut self.block, word) {
            Ok(Some(count)) => {
                self.gap = Gap { count: 0 };
                Ok(count)
            }
            Ok(None) => Err(Missed::Fault(FaultKind::BadData)),
            Err(ReadFailed) => Err(Missed::Input),
        }
    }

    // Reads the next word as a value of a mode.
    fn read_value<V: WordValue>(&mut self) -> Result<V, Missed>
        ensures read { (value : V) → result ≡ Ok value → HasReadInput R.remaining self.old self.new (λ input rest. value_given V.mode input ≡ if_read (V.values (Some value)) rest) }
        ensures fault { (kind : FaultSeen) → result ≡ Err (Missed.Fault kind) → HasFound R.remaining self.old self.new (λ input. value_given V.mode input ≡ Err kind) }
        ensures gives { result ≡ Err Missed.Input → HasGivenBytes R.remaining (source_block self.old) (source_block self.new) }
        ensures lacks { result ≡ Err Missed.Input → IsLackingWord R.remaining (source_block self.old) (source_block self.new) }
        ensures missed { source_missed self.new ≡ source_missed self.old }
        ensures counted { R.faults (source_reader self.new) ≡ failures_after result (R.faults (source_reader self.old)) }
        ensures unasked { HasWord (source_block self.old) → source_reader self.new ≡ source_reader self.old }
        ensures end { IsEndKnown R.remaining (source_block self.old) → IsEndKnown R.remaining (source_block self.new) }
    {
        let mut word = [0; WORD_LIMIT];
        let count = self.read_word(&mut word)?;
        match V::of_word(&word[..count]) {
            Some(value) => Ok(value),
            None => Err(Missed::Fault(FaultKind::BadData)),
        }
    }

    // The next word, where it is a number of a few digits, and all of it is buffered with a separator after it.
    #[inline(always)]
    fn buffered_number(&self) -> Option<BufferedNumber>
        ensures { IfSome result (λ n. IsBuffered self.now n.gap n.value n.count) }
    {
        let bytes = self.block.buffered();
        let gap = separators(bytes);
        if gap > SEPARATOR_LIMIT - self.gap.count {
            return None;
        }
        let (_, after) = bytes.split_at(gap);
        let Some(leading) = leading_number(after) else {
            return None;
        };
        Some(BufferedNumber {
            gap,
            value: leading.value,
            count: leading.count,
        })
    }

    // Passes a number that is buffered.
    #[inline(always)]
    fn pass_number(&mut self, number: BufferedNumber)
        requires { IsBuffered self.old number.gap number.value number.count }
        ensures read { HasReadInput R.remaining self.old self.new (λ input rest. value_given Integer input ≡ Ok (record { value = Whole (pos number.value); rest = rest })) }
        ensures reader { source_reader self.new ≡ source_reader self.old }
        ensures ended { (source_block self.new).ended ≡ (source_block self.old).ended }
        ensures missed { source_missed self.new ≡ source_missed self.old }
    {
        self.block.pass(number.gap + number.count);
        self.gap = Gap { count: 0 };
    }

    // How many separators come before the next word, where its first byte is buffered.
    #[inline(always)]
    fn buffered_gap(&self) -> Option<usize>
        ensures { IfSome result (λ gap. IsBeforeWord self.now gap) }
    {
        let bytes = self.block.buffered();
        let gap = separators(bytes);
        if gap >= bytes.len() {
            return None;
        }
        if gap > SEPARATOR_LIMIT - self.gap.count {
            return None;
        }
        Some(gap)
    }

    // Passes the separators before a word.
    #[inline(always)]
    fn pass_buffered_gap(&mut self, gap: usize)
        requires { IsBeforeWord self.old gap }
        ensures read { HasReadInput R.remaining self.old self.new (λ input rest. (rest ≡ input) × (is_ended input ≡ Ok false)) }
        ensures reader { source_reader self.new ≡ source_reader self.old }
        ensures ended { (source_block self.new).ended ≡ (source_block self.old).ended }
        ensures missed { source_missed self.new ≡ source_missed self.old }
    {
        self.block.pass(gap);
        self.gap = Gap {
            count: self.gap.count + gap,
        };
    }

    // What a call answers, which is remembered where it gave no value.
    fn remember<T: Drop>(&mut self, answer: Result<T, Missed>) -> Result<T, Missed>
        ensures same { result ≡ answer }
        ensures block { source_block self.new ≡ source_block self.old }
        ensures gap { source_gap self.new ≡ source_gap self.old }
        ensures missed { source_missed self.old ≡ None → source_missed self.new ≡ missed_of answer }
    {
        if let Err(missed) = &answer {
            self.missed = Some(*missed);
        }
        answer
    }

    // The next word as a value of a mode; what was missed is remembered.
    fn next_value<V: WordValue>(&mut self) -> Result<V, Missed>
        requires { source_missed self.old ≡ None }
        ensures read { (value : V) → result ≡ Ok value → HasReadInput R.remaining self.old self.new (λ input rest. value_given V.mode input ≡ if_read (V.values (Some value)) rest) }
        ensures fault { (kind : FaultSeen) → result ≡ Err (Missed.Fault kind) → HasFound R.remaining self.old self.new (λ input. value_given V.mode input ≡ Err kind) }
        ensures input { result ≡ Err Missed.Input → HasRisen (R.faults (source_reader self.old)) (R.faults (source_reader self.new)) }
        ensures lost { result ≡ Err Missed.Input → HasFound R.remaining self.old self.new (λ input. Unit {0}) }
        ensures lacks { result ≡ Err Missed.Input → IsLackingWord R.remaining (source_block self.old) (source_block self.new) }
        ensures missed { source_missed self.new ≡ missed_of result }
        ensures counted { R.faults (source_reader self.new) ≡ failures_after result (R.faults (source_reader self.old)) }
        ensures never_falls { HasRisenBy 0 (R.faults (source_reader self.old)) (R.faults (source_reader self.new)) }
        ensures unasked { HasWord (source_block self.old) → source_reader self.new ≡ source_reader self.old }
        ensures end { IsEndKnown R.remaining (source_block self.old) → IsEndKnown R.remaining (source_block self.new) }
    {
        let answer = self.read_value::<V>();
        self.remember(answer)
    }

    /// The whole number that the next word is: an optional sign and digits, within 64 bits.
    ///
    /// `Missed::Fault` with END OF DATA where no word is left, and with BAD DATA for any other word, one
    /// of more than 64 bytes, or more than 1,048,576 separators before it; `Missed::Input` just where the
    /// reader answered an error, which is not asked again. The reader is not asked at all where the word ends
    /// within the buffered bytes. After a `Missed` every call answers the same and reads nothing.
    pub fn integer(&mut self) -> Result<i64, Missed>
        ensures again { (missed : MissedSeen) → source_missed self.old ≡ Some missed → (result ≡ Err missed) × (self.new ≡ self.old) }
        ensures read { (number : ℤ) → result ≡ Ok number → HasReadInput R.remaining self.old self.new (λ input rest. value_given Integer input ≡ Ok (record { value = Whole number; rest = rest })) }
        ensures fault { source_missed self.old ≡ None → (kind : FaultSeen) → result ≡ Err (Missed.Fault kind) → HasFound R.remaining self.old self.new (λ input. value_given Integer input ≡ Err kind) }
        ensures input { source_missed self.old ≡ None → result ≡ Err Missed.Input → HasRisen (R.faults (source_reader self.old)) (R.faults (source_reader self.new)) }
        ensures lost { source_missed self.old ≡ None → result ≡ Err Missed.Input → HasFound R.remaining self.old self.new (λ input. Unit {0}) }
        ensures lacks { source_missed self.old ≡ None → result ≡ Err Missed.Input → IsLackingWord R.remaining (source_block self.old) (source_block self.new) }
        ensures missed { source_missed self.old ≡ None → source_missed self.new ≡ missed_of result }
        ensures counted { source_missed self.old ≡ None → R.faults (source_reader self.new) ≡ failures_after result (R.faults (source_reader self.old)) }
        ensures never_falls { HasRisenBy 0 (R.faults (source_reader self.old)) (R.faults (source_reader self.new)) }
        ensures unasked { HasWord (source_block self.old) → source_reader self.new ≡ source_reader self.old }
        ensures end { IsEndKnown R.remaining (source_block self.old) → IsEndKnown R.remaining (source_block self.new) }
    {
        if let Some(missed) = self.missed {
            return Err(missed);
        }
        if let Some(number) = self.buffered_number() {
            self.pass_number(number);
            return Ok(number.value as i64);
        }
        self.next_value()
    }

    /// The text that the next word is: 1 to 16 bytes from 33 to 126. Its errors are those of `integer`, and it reads as that does.
    pub fn alpha(&mut self) -> Result<Alpha, Missed>
        ensures again { (missed : MissedSeen) → source_missed self.old ≡ Some missed → (result ≡ Err missed) × (self.new ≡ self.old) }
        ensures read { (text : List ℕ) → result ≡ Ok text → HasReadInput R.remaining self.old self.new (λ input rest. value_given AlphaMode input ≡ Ok (record { value = Text text; rest = rest })) }
        ensures fault { source_missed self.old ≡ None → (kind : FaultSeen) → result ≡ Err (Missed.Fault kind) → HasFound R.remaining self.old self.new (λ input. value_given AlphaMode input ≡ Err kind) }
        ensures input { source_missed self.old ≡ None → result ≡ Err Missed.Input → HasRisen (R.faults (source_reader self.old)) (R.faults (source_reader self.new)) }
        ensures lost { source_missed self.old ≡ None → result ≡ Err Missed.Input → HasFound R.remaining self.old self.new (λ input. Unit {0}) }
        ensures lacks { source_missed self.old ≡ None → result ≡ Err Missed.Input → IsLackingWord R.remaining (source_block self.old) (source_block self.new) }
        ensures missed { source_missed self.old ≡ None → source_missed self.new ≡ missed_of result }
        ensures counted { source_missed self.old ≡ None → R.faults (source_reader self.new) ≡ failures_after result (R.faults (source_reader self.old)) }
        ensures never_falls { HasRisenBy 0 (R.faults (source_reader self.old)) (R.faults (source_reader self.new)) }
        ensures unasked { HasWord (source_block self.old) → source_reader self.new ≡ source_reader self.old }
        ensures end { IsEndKnown R.remaining (source_block self.old) → IsEndKnown R.remaining (source_block self.new) }
    {
        if let Some(missed) = self.missed {
            return Err(missed);
        }
        self.next_value()
    }

    // Whether no word is left.
    fn find_end(&mut self) -> Result<bool, Missed>
        ensures read { (ended : Bool) → result ≡ Ok ended → HasReadInput R.remaining self.old self.new (λ input rest. (rest ≡ input) × (is_ended input ≡ Ok ended)) }
        ensures fault { (kind : FaultSeen) → result ≡ Err (Missed.Fault kind) → HasFound R.remaining self.old self.new (λ input. is_ended input ≡ Err kind) }
        ensures gives { result ≡ Err Missed.Input → HasGivenBytes R.remaining (source_block self.old) (source_block self.new) }
        ensures wants { result ≡ Err Missed.Input → MustAskMore R.remaining is_separator (source_block self.old) (source_block self.new) }
        ensures missed { source_missed self.new ≡ source_missed self.old }
        ensures counted { R.faults (source_reader self.new) ≡ failures_after result (R.faults (source_reader self.old)) }
        ensures unasked { IsEnough is_separator (source_block self.old) → IsUnasked is_separator (source_block self.old) (source_block self.new) }
        ensures end { IsEndKnown R.remaining (source_block self.old) → IsEndKnown R.remaining (source_block self.new) }
    {
        self.reach_word()?;
        Ok(self.block.first().is_none())
    }

    /// Whether no word is left; a word of any length is one.
    ///
    /// Nothing is taken: the next call finds the same word, after the same separators.
    /// `Missed::Fault` with BAD DATA where more than 1,048,576 separators come before it; `Missed::Input`
    /// just where the reader answered an error, which is not asked again. The reader is not asked at all
    /// where a byte of the word is buffered. After a `Missed` every call answers the same and reads
    /// nothing.
    pub fn ended(&mut self) -> Result<bool, Missed>
        ensures again { (missed : MissedSeen) → source_missed self.old ≡ Some missed → (result ≡ Err missed) × (self.new ≡ self.old) }
        ensures read { (ended : Bool) → result ≡ Ok ended → HasReadInput R.remaining self.old self.new (λ input rest. (rest ≡ input) × (is_ended input ≡ Ok ended)) }
        ensures fault { source_missed self.old ≡ None → (kind : FaultSeen) → result ≡ Err (Missed.Fault kind) → HasFound R.remaining self.old self.new (λ input. is_ended input ≡ Err kind) }
        ensures input { source_missed self.old ≡ None → result ≡ Err Missed.Input → HasRisen (R.faults (source_reader self.old)) (R.faults (source_reader self.new)) }
        ensures lost { source_missed self.old ≡ None → result ≡ Err Missed.Input → HasFound R.remaining self.old self.new (λ input. Unit {0}) }
        ensures wants { source_missed self.old ≡ None → result ≡ Err Missed.Input → MustAskMore R.remaining is_separator (source_block self.old) (source_block self.new) }
        ensures missed { source_missed self.old ≡ None → source_missed self.new ≡ missed_of result }
        ensures counted { source_missed self.old ≡ None → R.faults (source_reader self.new) ≡ failures_after result (R.faults (source_reader self.old)) }
        ensures never_falls { HasRisenBy 0 (R.faults (source_reader self.old)) (R.faults (source_reader self.new)) }
        ensures unasked { IsEnough is_separator (source_block self.old) → source_reader self.new ≡ source_reader self.old }
        ensures end { IsEndKnown R.remaining (source_block self.old) → IsEndKnown R.remaining (source_block self.new) }
    {
        if let Some(missed) = self.missed {
            return Err(missed);
        }
        if let Some(gap) = self.buffered_gap() {
            self.pass_buffered_gap(gap);
            return Ok(false);
        }
        let answer = self.find_end();
        self.remember(answer)
    }
}
