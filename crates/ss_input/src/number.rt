//! The number that a word is.

ghost use Rattle.std.specs.List.{list_all};
ghost use Rattle.std.specs.Prelude.{◌≡◌, ◌≤◌, ◌∷◌, ℕ, List, true, length, take, drop, pos, neg_ℤ, IfSome};
ghost use Rattle.ss_input.specs.Words.{digits_of, is_digit, is_separator, is_word_byte, number_read, within_64_bits};
ghost use Rattle.ss_input.specs.Numbers.{capped, HasLeadingNumber};

use crate::passing::is_separator;

/// A number above this one is counted as this one: it lies outside 64 bits with either sign.
const CAP: u128 = 9_223_372_036_854_775_809;

// The number that digits make, up to `CAP`; None where there is another byte among them, or there are none.
fn digits(bytes: &[u8]) -> Option<u128>
    ensures { result ≡ capped (digits_of bytes.now) }
{
    if bytes.is_empty() {
        return None;
    }
    let mut value: u128 = 0;
    for byte in bytes {
        if !byte.is_ascii_digit() {
            return None;
        }
        value = (value * 10 + u128::from(*byte - b'0')).min(CAP);
    }
    Some(value)
}

// The number that digits make, where it is below 2^63.
fn positive(bytes: &[u8]) -> Option<i64>
    ensures { result ≡ within_64_bits pos (digits_of bytes.now) }
{
    match digits(bytes) {
        Some(value) => i64::try_from(value).ok(),
        None => None,
    }
}

// The number that digits after a minus make, where it is at least -2^63.
fn negative(bytes: &[u8]) -> Option<i64>
    ensures { result ≡ within_64_bits (λ n. neg_ℤ (pos n)) (digits_of bytes.now) }
{
    match digits(bytes) {
        Some(value) => i64::try_from(-(value as i128)).ok(),
        None => None,
    }
}

/// The number that a word is: digits after a sign or none, within 64 bits.
pub(crate) fn number_read(word: &[u8]) -> Option<i64>
    ensures { result ≡ number_read word.now }
{
    match word {
        [] => None,
        [b'+', rest @ ..] => positive(rest),
        [b'-', rest @ ..] => negative(rest),
        _ => positive(word),
    }
}

/// A number of fewer digits than this is read straight from the buffered bytes.
const SHORT: usize = 18;

/// The greatest number after which another digit is read.
const MOST: u64 = 99_999_999_999_999_999;

/// A number at the beginning of some bytes, and how many bytes it has.
#[derive(Clone, Copy)]
pub(crate) struct LeadingNumber {
    pub(crate) value: u64,
    pub(crate) count: usize,
}

// Whether a byte is a digit.
#[inline(always)]
fn is_digit(byte: u8) -> bool
    ensures { result ≡ is_digit byte }
{
    byte.is_ascii_digit()
}

/// The number that bytes begin with, where it has few digits and no sign, and a separator follows it.
#[inline(always)]
pub(crate) fn leading_number(bytes: &[u8]) -> Option<LeadingNumber>
    ensures { IfSome result (λ n. HasLeadingNumber n.value n.count bytes.now) }
{
    let mut value: u64 = 0;
    for count in 0..SHORT {
        if count >= bytes.len() {
            return None;
        }
        let byte = bytes[count];
        if !is_digit(byte) {
            if count > 0 && is_separator(byte) {
                return Some(LeadingNumber { value, count });
            }
            return None;
        }
        if value > MOST {
            return None;
        }
        value = value * 10 + u64::from(byte - b'0');
    }
    None
}

/// How many separators bytes begin with.
#[inline(always)]
pub(crate) fn separators(bytes: &[u8]) -> usize
    ensures count { result ≤ length bytes.now }
    ensures all { list_all is_separator (take result bytes.now) ≡ true }
    ensures stops { (b : ℕ) (rest : List ℕ) → drop result bytes.now ≡ b ∷ rest → is_word_byte b ≡ true }
{
    for count in 0..bytes.len() {
        if !is_separator(bytes[count]) {
            return count;
        }
    }
    bytes.len()
}
