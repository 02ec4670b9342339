//! A text, compiled and run.

ghost use Rattle.std.specs.Prelude.{◌≡◌, ◌≤◌, ℕ};
ghost use Rattle.ss_base.specs.Failures.{HasRisen};
ghost use Rattle.ss_engine.specs.declared.refusal.Refusal.{Refusal as RefusalSeen};
ghost use Rattle.ss_engine.specs.Headline.{IsOutcome, handed_out};
ghost use Rattle.ss_engine.specs.LastRun.{HasLastRun};
ghost use Rattle.ss_engine.specs.Cuts.{IsReportCut};
ghost use Rattle.ss_machine.specs.declared.stop.Stop.{Stop as StopSeen};

use crate::compiling::compile;
use crate::outcome::Outcome;
use crate::run::run_model;
use ss_base::{FaultyRead, FaultyWrite};
use ss_machine::Stop;
use std::alloc::Global;

/// A text compiled, and run with the input of this reader and this writer for its report, once for
/// each piece of ticks up to the first answer other than a pause, or once without a tick where
/// there is no piece.
///
/// It answers the refusal of the text, or why the last run stopped and the ticks that it used, and
/// the reader and the writer after it. What the writer took is exactly the report that the
/// text means for the input and the ticks handed out, and the run ended exactly as its meaning does:
/// ended, a fault at its line, or paused with all ticks used. Where memory, the reader or the writer
/// failed, the writer took the first bytes of that report, at least those that it means for a tick
/// fewer than were used, and with these ticks used the text's code reaches a place where its report is
/// cut so, after `Output` within what one instruction writes, and after `Input` before one that what
/// was read does not settle. `Output` comes only where the writer's count of failures rose in the last
/// run, `Input` only where the reader's did. A text that is refused leaves both untouched.
pub fn simulate<R: FaultyRead, W: FaultyWrite>(
    alloc: Global,
    text: &[u8],
    reader: R,
    writer: W,
    pieces: &[u64],
) -> (Outcome, R, W)
    ensures headline { IsOutcome R.remaining W.contents text.now result.0 reader result.1 writer result.2 }
    ensures where_cut { IsReportCut R.remaining W.contents text.now result.0 reader result.1 writer result.2 }
    ensures ticks { (stop : StopSeen) (used : ℕ) → result.0 ≡ Outcome.Stopped stop used → used ≤ handed_out pieces.now }
    ensures paused { (used : ℕ) → result.0 ≡ Outcome.Stopped Stop.Paused used → used ≡ handed_out pieces.now }
    ensures untouched { (refusal : RefusalSeen) → result.0 ≡ Outcome.Refused refusal → (result.1 ≡ reader) × (result.2 ≡ writer) }
    ensures output { (used : ℕ) → result.0 ≡ Outcome.Stopped Stop.Output used → HasLastRun R.remaining W.contents text.now pieces.now used reader writer (λ reader_then writer_then. HasRisen (W.faults writer_then) (W.faults result.2)) }
    ensures input { (used : ℕ) → result.0 ≡ Outcome.Stopped Stop.Input used → HasLastRun R.remaining W.contents text.now pieces.now used reader writer (λ reader_then writer_then. HasRisen (R.faults reader_then) (R.faults result.1)) }
{
    let model = match compile(alloc, text) {
        Ok(model) => model,
        Err(refusal) => return (Outcome::Refused(refusal), reader, writer),
    };
    let (stop, used, reader, writer) = run_model(alloc, model, reader, writer, pieces);
    (Outcome::Stopped(stop, used), reader, writer)
}
