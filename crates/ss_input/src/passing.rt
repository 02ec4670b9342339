//! Passing separators and the bytes of a word.

ghost use Rattle.std.specs.List.{list_all};
ghost use Rattle.std.specs.Prelude.{length, take, ◌≡◌, ◌≤◌, ◌+◌, ◌∷◌, [], true, false, ℕ, Ok, Some, None, OnErr};
ghost use Rattle.ss_base.specs.Failures.{errors_after};
ghost use Rattle.ss_input.specs.Blocks.{IsEndKnown, IsUnread};
ghost use Rattle.ss_input.specs.Sources.{HasGivenBytes, HasPassed, HasPassedSome, IsGapPassed, IsWordPassed, IsNextWanted, IsEnough, IsUnasked, MustAskMore};
ghost use Rattle.ss_input.specs.Words.{is_separator, is_word_byte};

use crate::block::{Block, ReadFailed};
use ss_base::FaultyRead;

/// The most bytes of a word.
pub const WORD_LIMIT: usize = 64;

/// The most separators in a row.
pub const SEPARATOR_LIMIT: usize = 1_048_576;

/// Whether a byte separates words: a blank, a tab, or an end of a line.
#[inline(always)]
pub(crate) fn is_separator(byte: u8) -> bool
    ensures { result ≡ is_separator byte }
{
    byte == b' ' || byte == b'\t' || byte == b'\r' || byte == b'\n'
}

/// Passes the next byte if it is a separator, and says whether it was.
pub(crate) fn pass_separator<R: FaultyRead>(block: &mut Block<R>) -> Result<bool, ReadFailed>
    ensures passed { result ≡ Ok true → HasPassedSome R.remaining block.old block.new (λ bytes. (b : ℕ) × (bytes ≡ b ∷ []) × (is_separator b ≡ true)) }
    ensures none { result ≡ Ok false → HasPassed R.remaining block.old block.new [] × IsNextWanted is_word_byte block.new }
    ensures unread { OnErr result (IsUnread R.remaining block.old block.new) }
    ensures wanted { OnErr result ((block.old.left ≡ []) × (block.old.ended ≡ false)) }
    ensures counted { R.faults block.new.reader ≡ errors_after result (R.faults block.old.reader) }
    ensures unasked { IsEnough is_separator block.old → IsUnasked is_separator block.old block.new }
    ensures end { IsEndKnown R.remaining block.old → IsEndKnown R.remaining block.new }
{
    match block.peek()? {
        Some(byte) if is_separator(byte) => {
            block.advance();
            Ok(true)
        }
        _ => Ok(false),
    }
}

/// Passes the next byte if it is one of a word, and answers it.
pub(crate) fn pass_word_byte<R: FaultyRead>(block: &mut Block<R>) -> Result<Option<u8>, ReadFailed>
    ensures passed { (b : ℕ) → result ≡ Ok (Some b) → HasPassed R.remaining block.old block.new (b ∷ []) × (is_word_byte b ≡ true) }
    ensures none { result ≡ Ok None → HasPassed R.remaining block.old block.new [] × IsNextWanted is_separator block.new }
    ensures unread { OnErr result (IsUnread R.remaining block.old block.new) }
    ensures wanted { OnErr result ((block.old.left ≡ []) × (block.old.ended ≡ false)) }
    ensures counted { R.faults block.new.reader ≡ errors_after result (R.faults block.old.reader) }
    ensures unasked { IsEnough is_word_byte block.old → IsUnasked is_word_byte block.old block.new }
    ensures end { IsEndKnown R.remaining block.old → IsEndKnown R.remaining block.new }
{
    match block.peek()? {
        Some(byte) if !is_separator(byte) => {
            block.advance();
            Ok(Some(byte))
        }
        _ => Ok(None),
    }
}

/// Passes all separators that come next, where so many were passed before them, and answers how many there
/// are then; None where they are too many.
pub(crate) fn pass_gap<R: FaultyRead>(
    block: &mut Block<R>,
    before: usize,
) -> Result<Option<usize>, ReadFailed>
    requires { before ≤ SEPARATOR_LIMIT }
    ensures passed { (count : ℕ) → result ≡ Ok (Some count) → IsGapPassed R.remaining block.old block.new before count × (count ≤ SEPARATOR_LIMIT) × IsNextWanted is_word_byte block.new }
    ensures too_many { result ≡ Ok None → IsGapPassed R.remaining block.old block.new before (SEPARATOR_LIMIT + 1) }
    ensures gives { OnErr result (HasGivenBytes R.remaining block.old block.new) }
    ensures wants { OnErr result (MustAskMore R.remaining is_separator block.old block.new) }
    ensures counted { R.faults block.new.reader ≡ errors_after result (R.faults block.old.reader) }
    ensures unasked { IsEnough is_separator block.old → IsUnasked is_separator block.old block.new }
    ensures end { IsEndKnown R.remaining block.old → IsEndKnown R.remaining block.new }
{
    for count in before..SEPARATOR_LIMIT {
        if !pass_separator(block)? {
            return Ok(Some(count));
        }
    }
    if pass_separator(block)? {
        Ok(None)
    } else {
        Ok(Some(SEPARATOR_LIMIT))
    }
}

/// Passes the bytes of a word and keeps them, and answers how many there are; None where they are
/// too many.
pub(crate) fn pass_word<R: FaultyRead>(
    block: &mut Block<R>,
    word: &mut [u8; WORD_LIMIT],
) -> Result<Option<usize>, ReadFailed>
    ensures passed { (count : ℕ) → result ≡ Ok (Some count) → IsWordPassed R.remaining block.old block.new (take count word.new) × (count ≤ WORD_LIMIT) × IsNextWanted is_separator block.new }
    ensures too_long { result ≡ Ok None → HasPassedSome R.remaining block.old block.new (λ bytes. (list_all is_word_byte bytes ≡ true) × (length bytes ≡ WORD_LIMIT + 1)) }
    ensures gives { OnErr result (HasGivenBytes R.remaining block.old block.new) }
    ensures wants { OnErr result (MustAskMore R.remaining is_word_byte block.old block.new) }
    ensures counted { R.faults block.new.reader ≡ errors_after result (R.faults block.old.reader) }
    ensures unasked { IsEnough is_word_byte block.old → IsUnasked is_word_byte block.old block.new }
    ensures end { IsEndKnown R.remaining block.old → IsEndKnown R.remaining block.new }
{
    for count in 0..WORD_LIMIT {
        match pass_word_byte(block)? {
            Some(byte) => word[count] = byte,
            None => return Ok(Some(count)),
        }
    }
    match pass_word_byte(block)? {
        Some(_) => Ok(None),
        None => Ok(Some(WORD_LIMIT)),
    }
}
