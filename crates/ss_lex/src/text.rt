//! The tokens of a text.

ghost use Rattle.std.specs.Prelude.{◌≡◌, ◌≢◌, ◌≤◌, ◌<◌, ◌+◌, ◌^◌, List, [], length, IfOk, IfErr};
ghost use Rattle.ss_lex.specs.declared.token.Token.{Token};
ghost use Rattle.ss_lex.specs.Lines.{source_limit, lines_of};
ghost use Rattle.ss_lex.specs.Tokens.{AreTokens, AreTokensOf};
ghost use Rattle.ss_lex.specs.Refusals.{IsRefused, IsRefusedIn};
ghost use Rattle.ss_lex.specs.Reading.{IsLineRead, IsLineRefused};

use crate::code::code_line;
use crate::collected::Collected;
use crate::error::LexError;
use crate::lines::{check_characters, first_line, line_count};
use crate::token_list::Tokens;
use ss_base::Line;
use std::alloc::Global;

/// The most bytes of a text.
pub const SOURCE_LIMIT: usize = 1_048_576;

/// Where a line lies in a text: the place of its first byte, and its number.
#[derive(Clone, Copy)]
struct LinePlace {
    start: usize,
    line: Line,
}

/// Adds the tokens of a line, where `due` lines from this one on are pictures, and returns how many of those
/// after it are. `left` lines are after it.
fn read_line(
    alloc: Global,
    tokens: &mut Collected,
    bytes: &[u8],
    position: LinePlace,
    left: u64,
    due: u64,
) -> Result<u64, LexError>
    requires place { position.start + length bytes.now < 2 ^ 64 }
    requires within { due ≤ left + 1 }
    ensures ok { IfOk result (IsLineRead bytes.now position.start position.line.0 left due tokens.old tokens.new) }
    ensures err { IfErr result (λ e. e ≢ LexError.Memory → IsLineRefused bytes.now position.start position.line.0 left due tokens.old e) }
{
    if due == 0 {
        return code_line(tokens, bytes, position.start, position.line, left);
    }
    tokens.add_picture(alloc, bytes, position.start, position.line)?;
    Ok(due - 1)
}

/// The tokens of the lines of a text, which has so many.
fn read_lines(alloc: Global, text: &[u8], count: u32) -> Result<Collected, LexError>
    requires short { length text.now ≤ source_limit }
    requires counted { count ≡ length (lines_of text.now) }
    ensures ok { IfOk result (AreTokensOf (lines_of text.now) 0 [] 0 1) }
    ensures err { IfErr result (λ e. e ≢ LexError.Memory → IsRefusedIn (lines_of text.now) 0 [] 0 1 e) }
{
    let mut tokens = Collected::new(alloc);
    let mut rest = text;
    let mut start = 0;
    let mut line = 1;
    let mut due = 0;
    'lines: while !rest.is_empty() {
        let (bytes, after) = first_line(rest);
        let left = u64::from(count - line);
        let position = LinePlace {
            start,
            line: Line(line),
        };
        due = read_line(alloc, &mut tokens, bytes, position, left, due)?;
        start += bytes.len() + 1;
        line += 1;
        rest = after;
    }
    Ok(tokens)
}

/// The tokens of a text.
fn read_text(alloc: Global, text: &[u8]) -> Result<Tokens, LexError>
    ensures found { IfOk result (λ t. AreTokens text.now t.list) }
    ensures lines { IfOk result (λ t. t.lines ≡ length (lines_of text.now)) }
    ensures refused { IfErr result (λ e. e ≢ LexError.Memory → IsRefused text.now e) }
{
    if text.len() > SOURCE_LIMIT {
        return Err(LexError::TooLong(Line(0)));
    }
    check_characters(text)?;
    let count = line_count(text);
    let collected = read_lines(alloc, text, count)?;
    Ok(Tokens::new(collected.into_tokens(), count))
}

/// The tokens of a text.
///
/// # Errors
/// `TooLong` for more than `SOURCE_LIMIT` bytes, with line 0; else `NotAscii` for the first byte that a text
/// may not hold; else what comes first in the text of `BadNumber`, `OpenText`, `AlphaTooLong`, `PictureCut`
/// (which is placed at the last trigger word of its line) and `NameTooLong`. `Memory` where memory runs out.
pub fn tokens(alloc: Global, text: &[u8]) -> Result<Tokens, LexError>
    ensures found { IfOk result (λ t. AreTokens text.now t.list) }
    ensures only { IfOk result (λ t. (others : List Token) → AreTokens text.now others → others ≡ t.list) }
    ensures lines { IfOk result (λ t. t.lines ≡ length (lines_of text.now)) }
    ensures refused { IfErr result (λ e. e ≢ LexError.Memory → IsRefused text.now e) }
    ensures none { IfErr result (λ e. e ≢ LexError.Memory → (others : List Token) → AreTokens text.now others → ⊥) }
{
    read_text(alloc, text)
}
