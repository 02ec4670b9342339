//! The pieces of a line of code.

ghost use Rattle.std.specs.Prelude.{◌≡◌, ◌≤◌, ◌+◌, ◌==◌, [], ◌∷◌, drop, length, MatchOption};
ghost use Rattle.ss_base.specs.Values.{text_of};
ghost use Rattle.ss_lex.specs.Pieces.{is_blank_byte, is_word_part, is_quotable, passes_first, opens_comment, symbol_of, text_meaning};
ghost use Rattle.ss_lex.specs.Reading.{run_length, quotable_length, comment_at, quote_step_of, step_of};

use crate::meaning::{Fault, PieceMeaning};
use crate::token::{Symbol, TokenKind};
use crate::words::word_meaning;
use ss_base::Alpha;

fn is_blank_byte(b: u8) -> bool
    ensures { result ≡ is_blank_byte b }
{
    b == b' ' || b == b'\t' || b == b'\r'
}

fn is_word_part(b: u8) -> bool
    ensures { result ≡ is_word_part b }
{
    b.is_ascii_alphanumeric() || b == b'.'
}

fn is_quotable(b: u8) -> bool
    ensures { result ≡ is_quotable b }
{
    32 <= b && b <= 126 && b != b'"'
}

/// How many bytes of words are at the front.
fn run_length(bytes: &[u8]) -> usize
    ensures value { result ≡ run_length bytes.now }
    ensures bound { result ≤ length bytes.now }
{
    bytes.iter().take_while(|b| is_word_part(**b)).count()
}

/// How many bytes that are allowed between quotes are at the front.
fn quotable_length(bytes: &[u8]) -> usize
    ensures value { result ≡ quotable_length bytes.now }
    ensures bound { result ≤ length bytes.now }
{
    bytes.iter().take_while(|b| is_quotable(**b)).count()
}

/// The first byte, and what follows it.
fn split_first(bytes: &[u8]) -> Option<(u8, &[u8])>
    ensures { MatchOption result (bytes.now ≡ []) (λ x. bytes.now ≡ x.0 ∷ x.1.now) }
{
    match bytes {
        [] => None,
        [b, rest @ ..] => Some((*b, rest)),
    }
}

/// The bytes after the first.
pub fn tail(bytes: &[u8]) -> &[u8]
    ensures { result.now ≡ drop 1 bytes.now }
{
    match bytes {
        [] => bytes,
        [_, rest @ ..] => rest,
    }
}

fn begins_with(wanted: u8, bytes: &[u8]) -> bool
    ensures { result ≡ passes_first (λ b. b == wanted) bytes.now }
{
    match bytes {
        [] => false,
        [b, ..] => *b == wanted,
    }
}

/// Whether two apostrophes are here.
fn opens_comment(b: u8, rest: &[u8]) -> bool
    ensures { result ≡ opens_comment b rest.now }
{
    b == b'\'' && begins_with(b'\'', rest)
}

/// What follows a comment whose two apostrophes are read.
fn after_comment(bytes: &[u8]) -> &[u8]
    ensures { result.now ≡ (comment_at bytes.now).1 }
{
    let mut rest = bytes;
    'body: while let Some((b, after)) = split_first(rest) {
        if opens_comment(b, after) {
            return tail(after);
        }
        rest = after;
    }
    rest
}

/// What the bytes between two quotes mean.
fn text_meaning(body: &[u8]) -> PieceMeaning
    ensures { result ≡ text_meaning (text_of body.now) (length body.now + 2) }
{
    match Alpha::of(body) {
        None => PieceMeaning::Fault(Fault::AlphaTooLong),
        Some(text) => PieceMeaning::Token(TokenKind::Text(text), body.len() + 2),
    }
}

/// What a text means whose quote is read, and what follows it.
fn after_quote(bytes: &[u8]) -> (PieceMeaning, &[u8])
    ensures { (result.0, result.1.now) ≡ quote_step_of bytes.now }
{
    let (body, after) = bytes.split_at(quotable_length(bytes));
    if begins_with(b'"', after) {
        (text_meaning(body), tail(after))
    } else {
        (PieceMeaning::Fault(Fault::OpenText), &[])
    }
}

fn symbol_of(b: u8) -> Symbol
    ensures { result ≡ symbol_of b }
{
    match b {
        b'(' => Symbol::OpenParenthesis,
        b')' => Symbol::CloseParenthesis,
        b',' => Symbol::Comma,
        b'+' => Symbol::Plus,
        b'-' => Symbol::Minus,
        b'*' => Symbol::Star,
        b'=' => Symbol::Equals,
        _ => Symbol::Other(b),
    }
}

/// What the piece at the front means, and what follows it.
#[tactic(auto, unfolding(crate::specs::Reading::step_of, crate::specs::Reading::piece_at))]
pub fn step(bytes: &[u8]) -> (PieceMeaning, &[u8])
    ensures { (result.0, result.1.now) ≡ step_of bytes.now }
{
    match split_first(bytes) {
        None => (PieceMeaning::Nothing, bytes),
        Some((b, rest)) => {
            if is_blank_byte(b) {
                (PieceMeaning::Nothing, rest)
            } else if is_word_part(b) {
                let (word, after) = bytes.split_at(run_length(rest) + 1);
                (word_meaning(word), after)
            } else if opens_comment(b, rest) {
                (PieceMeaning::Nothing, after_comment(tail(rest)))
            } else if b == b'"' {
                after_quote(rest)
            } else {
                let symbol = symbol_of(b);
                (PieceMeaning::Token(TokenKind::Symbol(symbol), 1), rest)
            }
        }
    }
}
