//! The outcome of a text.

ghost use Rattle.std.specs.Prelude.{◌≡◌, IfOk};
ghost use Rattle.ss_engine.specs.Outcomes.{stop_status, status_of, line_with, stop_line, outcome_line};

use crate::refusal::Refusal;
use itoa::Buffer;
use ss_machine::Stop;
use std::alloc::{AllocError, Global};

/// The outcome of a text: why it is refused, or why its run stopped, and the ticks that the run used.
#[derive(Clone, Copy, Debug, PartialEq, Eq)]
pub enum Outcome {
    Refused(Refusal),
    Stopped(Stop, u64),
}

// The exit status of a run that stopped so.
fn status(stop: &Stop) -> u8
    ensures { result ≡ stop_status stop.now }
{
    match stop {
        Stop::Ended => 0,
        Stop::Fault(_, _) => 3,
        Stop::Paused => 4,
        Stop::Memory => 5,
        Stop::Output | Stop::Input | Stop::Failed => 6,
    }
}

/// The exit status for an outcome: 0 where the run ended, 1 for a text that is
/// refused, 3 for a fault, 4 for a pause, 5 where memory was refused, 6 for input and output.
pub fn outcome_status(outcome: &Outcome) -> u8
    ensures { result ≡ status_of outcome.now }
{
    match outcome {
        Outcome::Refused(refusal) => { if refusal.number() == 0 { 5 } else { 1 } }
        Outcome::Stopped(stop, _) => status(stop),
    }
}

// A word, a number, a name and a line, with a line feed.
fn line_with(
    alloc: Global,
    word: &[u8],
    number: u32,
    name: &str,
    line: u32,
) -> Result<Vec<u8>, AllocError>
    ensures { IfOk result (λ text. text.items ≡ line_with word.now number name.now line) }
{
    let mut buffer = Buffer::new();
    let mut text = Vec::from_slice(alloc, word)?;
    text.extend_from_slice(b" ")?;
    text.extend_from_slice(buffer.format(number).as_bytes())?;
    text.extend_from_slice(b" ")?;
    text.extend_from_slice(name.as_bytes())?;
    text.extend_from_slice(b" at line ")?;
    text.extend_from_slice(buffer.format(line).as_bytes())?;
    text.extend_from_slice(b"\n")?;
    Ok(text)
}

// The line that reports a pause after so many ticks.
fn pause_line(alloc: Global, used: u64) -> Result<Vec<u8>, AllocError>
    ensures { IfOk result (λ text. text.items ≡ stop_line Stop.Paused used) }
{
    let mut buffer = Buffer::new();
    let mut text = Vec::from_slice(alloc, b"paused after ")?;
    text.extend_from_slice(buffer.format(used).as_bytes())?;
    text.extend_from_slice(b" ticks\n")?;
    Ok(text)
}

// The line that reports why a run stopped, after so many ticks.
fn stop_line(alloc: Global, stop: &Stop, used: u64) -> Result<Vec<u8>, AllocError>
    ensures { IfOk result (λ text. text.items ≡ stop_line stop.now used) }
{
    match stop {
        Stop::Ended => Ok(Vec::new(alloc)),
        Stop::Fault(kind, line) => line_with(alloc, b"fault", kind.number(), kind.text(), line.0),
        Stop::Paused => pause_line(alloc, used),
        Stop::Memory => Vec::from_slice(alloc, b"out of memory\n"),
        Stop::Output => Vec::from_slice(alloc, b"cannot write report\n"),
        Stop::Input => Vec::from_slice(alloc, b"cannot read input\n"),
        Stop::Failed => Vec::from_slice(alloc, b"failed before\n"),
    }
}

/// The line that reports the outcome, with a line feed; nothing where the run ended. The error comes where
/// memory was refused.
pub fn outcome_line(alloc: Global, outcome: &Outcome) -> Result<Vec<u8>, AllocError>
    ensures { IfOk result (λ text. text.items ≡ outcome_line outcome.now) }
{
    match outcome {
        Outcome::Refused(refusal) => {
            if refusal.number() == 0 {
                return Vec::from_slice(alloc, b"out of memory\n");
            }
            line_with(
                alloc,
                b"refused",
                refusal.number(),
                refusal.name(),
                refusal.line(),
            )
        }
        Outcome::Stopped(stop, used) => stop_line(alloc, stop, *used),
    }
}
