ghost use Rattle.std.specs.Prelude.{◌≡◌, ◌||◌, List, Option, Some, None, pos, ◌<◌, length, nat_lt, if◌then◌else◌};
ghost use Rattle.std.specs.Char.{is_ascii_alphabetic};
ghost use Rattle.std.specs.List.{list_any};
ghost use Rattle.ss_lex.specs.Words.{is_period, without_end_periods, name_meaning, number_meaning, word_meaning, number_from, largest_number};

use crate::meaning::{Fault, PieceMeaning};
use crate::reserved::reserved_word;
use crate::token::TokenKind;
use ss_base::Name;

/// The largest number of a text.
const LARGEST: u64 = 9_223_372_036_854_775_807;

fn has_letter(word: &[u8]) -> bool
    ensures { result ≡ list_any is_ascii_alphabetic word.now }
{
    word.iter().any(|b| b.is_ascii_alphabetic())
}

fn has_period(word: &[u8]) -> bool
    ensures { result ≡ list_any is_period word.now }
{
    word.iter().any(|b| *b == b'.')
}

/// What a word with a letter means.
fn name_meaning(word: &[u8]) -> PieceMeaning
    requires { 0 < length word.now }
    ensures { result ≡ name_meaning word.now }
{
    match Name::of(word) {
        None => PieceMeaning::Fault(Fault::NameTooLong),
        Some(name) => match reserved_word(name.bytes()) {
            Some(reserved) => PieceMeaning::Token(TokenKind::Word(reserved), word.len()),
            None => PieceMeaning::Token(TokenKind::Name(name), word.len()),
        },
    }
}

/// What the digits spell, where that is no more than the largest number.
fn number(digits: &[u8]) -> Option<u64>
    ensures { result ≡ (if nat_lt largest_number (number_from 0 digits.now) then None else Some (number_from 0 digits.now)) }
{
    let mut n: u64 = 0;
    'digits: for b in digits {
        if n > LARGEST / 10 {
            return None;
        }
        n = n * 10 + u64::from(b.saturating_sub(b'0'));
    }
    if n > LARGEST { None } else { Some(n) }
}

/// What a word without a letter means.
fn number_meaning(word: &[u8]) -> PieceMeaning
    ensures { result ≡ number_meaning word.now }
{
    if has_period(word) {
        return PieceMeaning::Fault(Fault::BadNumber);
    }
    match number(word) {
        None => PieceMeaning::Fault(Fault::BadNumber),
        Some(n) => PieceMeaning::Token(TokenKind::Number(n as i64), word.len()),
    }
}

/// The word without the periods at its end.
fn without_end_periods(word: &[u8]) -> &[u8]
    ensures { result.now ≡ without_end_periods word.now }
{
    let mut end = word.len();
    'periods: while end > 0 && word[end - 1] == b'.' {
        end -= 1;
    }
    &word[..end]
}

/// What a word means.
pub fn word_meaning(word: &[u8]) -> PieceMeaning
    ensures { result ≡ word_meaning (without_end_periods word.now) }
{
    let trimmed = without_end_periods(word);
    if trimmed.is_empty() {
        PieceMeaning::Nothing
    } else if has_letter(trimmed) {
        name_meaning(trimmed)
    } else {
        number_meaning(trimmed)
    }
}
