//! Lines of code.

ghost use Rattle.std.specs.Prelude.{◌≡◌, ◌≢◌, ◌<◌, ◌+◌, ◌^◌, length, Some, IfOk, IfErr};
ghost use Rattle.ss_lex.specs.Refusals.{error_of_fault, has_trigger, means_trigger, line_refusal};
ghost use Rattle.ss_lex.specs.Pieces.{fault_in};
ghost use Rattle.ss_lex.specs.Reading.{pieces, trigger_step_of, fault_refusal, IsCodeLineRead};

use crate::collected::{Collected, is_trigger};
use crate::error::LexError;
use crate::meaning::{Fault, PieceMeaning};
use crate::pieces::step;
use ss_base::Line;

/// The refusal for a fault in this line.
fn error_of_fault(fault: Fault, line: Line) -> LexError
    ensures { result ≡ error_of_fault fault line.0 }
{
    match fault {
        Fault::BadNumber => LexError::BadNumber(line),
        Fault::OpenText => LexError::OpenText(line),
        Fault::AlphaTooLong => LexError::AlphaTooLong(line),
        Fault::NameTooLong => LexError::NameTooLong(line),
    }
}

fn means_trigger(meaning: &PieceMeaning) -> bool
    ensures { result ≡ means_trigger meaning.now }
{
    match meaning {
        PieceMeaning::Nothing => false,
        PieceMeaning::Token(kind, _) => is_trigger(kind),
        PieceMeaning::Fault(_) => false,
    }
}

fn fault_in(meaning: &PieceMeaning) -> Option<Fault>
    ensures { result ≡ fault_in meaning.now }
{
    match meaning {
        PieceMeaning::Nothing => None,
        PieceMeaning::Token(_, _) => None,
        PieceMeaning::Fault(fault) => Some(*fault),
    }
}

/// Whether the piece at the front is a trigger word, and what follows it.
fn trigger_step(bytes: &[u8]) -> (bool, &[u8])
    ensures { (result.0, result.1.now) ≡ trigger_step_of bytes.now }
{
    let (meaning, after) = step(bytes);
    (means_trigger(&meaning), after)
}

/// Whether a trigger word is among the pieces.
fn has_trigger(bytes: &[u8]) -> bool
    ensures { result ≡ has_trigger (pieces bytes.now) }
{
    let mut rest = bytes;
    'pieces: while !rest.is_empty() {
        let (is_trigger, after) = trigger_step(rest);
        if is_trigger {
            return true;
        }
        rest = after;
    }
    false
}

/// What is wrong first with a line, where a piece means this fault and these bytes follow it. The line called
/// for `due` pictures before the fault, and `left` lines are after it.
fn fault_refusal(fault: Fault, after: &[u8], due: u64, left: u64, line: Line) -> LexError
    ensures { result ≡ fault_refusal fault after.now due left line.0 }
{
    if has_trigger(after) {
        error_of_fault(fault, line)
    } else if due > left {
        LexError::PictureCut(line)
    } else {
        error_of_fault(fault, line)
    }
}

/// Adds the tokens of a line of code, and returns how many pictures it calls for. `left` lines are after it.
pub fn code_line(
    tokens: &mut Collected,
    bytes: &[u8],
    start: usize,
    line: Line,
    left: u64,
) -> Result<u64, LexError>
    requires { start + length bytes.now < 2 ^ 64 }
    ensures ok { IfOk result (λ due. IsCodeLineRead bytes.now start line.0 left tokens.old tokens.new due) }
    ensures err { IfErr result (λ e. e ≢ LexError.Memory → line_refusal (pieces bytes.now) tokens.old start line.0 left ≡ Some e) }
{
    let mut at = start;
    let mut rest = bytes;
    let mut due = 0;
    'pieces: while !rest.is_empty() {
        let (meaning, after) = step(rest);
        if let Some(fault) = fault_in(&meaning) {
            return Err(fault_refusal(fault, after, due, left, line));
        }
        due = tokens.add(meaning, at, line, due)?;
        at += rest.len() - after.len();
        rest = after;
    }
    if due > left {
        return Err(LexError::PictureCut(line));
    }
    Ok(due)
}
