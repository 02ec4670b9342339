//! The lines of a text.

ghost use Rattle.std.specs.Prelude.{◌≡◌, ◌≤◌, ◌<◌, ◌+◌, ◌∷◌, length, None, Some, MatchResult};
ghost use Rattle.std.specs.List.{prefix_len};
ghost use Rattle.ss_lex.specs.Lines.{source_limit, is_character, first_foreign, lines_of};
ghost use Rattle.ss_lex.specs.Reading.{is_in_line, foreign_refusal};

use crate::error::LexError;
use crate::pieces::tail;
use ss_base::Line;

fn is_character(b: u8) -> bool
    ensures { result ≡ is_character b }
{
    (32 <= b && b <= 126) || b == b'\t' || b == b'\n' || b == b'\r'
}

/// That each byte is one that a text may hold. `NotAscii` in the line of the first that is not.
pub fn check_characters(text: &[u8]) -> Result<(), LexError>
    requires { length text.now ≤ source_limit }
    ensures { MatchResult result (λ _. first_foreign 1 text.now ≡ None)
        (λ e. foreign_refusal (first_foreign 1 text.now) ≡ Some e) }
{
    let mut line = 1;
    'bytes: for b in text {
        if !is_character(*b) {
            return Err(LexError::NotAscii(Line(line)));
        }
        if *b == b'\n' {
            line += 1;
        }
    }
    Ok(())
}

/// How many lines the text has.
pub fn line_count(text: &[u8]) -> u32
    requires { length text.now ≤ source_limit }
    ensures { result ≡ length (lines_of text.now) }
{
    let mut ended = 0;
    let mut is_open = false;
    'bytes: for b in text {
        if *b == b'\n' {
            ended += 1;
            is_open = false;
        } else {
            is_open = true;
        }
    }
    if is_open { ended + 1 } else { ended }
}

/// How many bytes are before the first line feed.
fn line_length(text: &[u8]) -> usize
    ensures value { result ≡ prefix_len is_in_line text.now }
    ensures bound { result ≤ length text.now }
{
    text.iter().take_while(|b| **b != b'\n').count()
}

/// The first line of a text that is not empty, without its line feed, and what follows it.
pub fn first_line(text: &[u8]) -> (&[u8], &[u8])
    requires { 0 < length text.now }
    ensures lines { lines_of text.now ≡ result.0.now ∷ lines_of result.1.now }
    ensures less { length result.1.now < length text.now }
    ensures place { length result.0.now + length result.1.now ≤ length text.now }
{
    let (line, after) = text.split_at(line_length(text));
    (line, tail(after))
}
