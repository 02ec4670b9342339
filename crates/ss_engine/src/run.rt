//! Runs of a model in pieces.

ghost use Rattle.std.specs.Prelude.{◌≡◌, ◌≤◌, ℕ, List, [], ◌++◌};
ghost use Rattle.std.specs.List.{sum};
ghost use Rattle.ss_base.specs.Failures.{HasRisen};
ghost use Rattle.ss_code.specs.Running.{Generated};
ghost use Rattle.ss_engine.specs.Accepting.{IsCompiledTo};
ghost use Rattle.ss_engine.specs.Headline.{IsSimulated, handed_out};
ghost use Rattle.ss_engine.specs.LastRun.{HasLastRun, runs_of};
ghost use Rattle.ss_engine.specs.Sessions.{IsNewSession, CanGoOn, HasRun, HasBeenRun, session_machine, last_stop};
ghost use Rattle.ss_engine.specs.Cuts.{HasBeenCut};

use crate::session::Session;
use crate::session_laws::{sessions_are_cut, sessions_are_meant};
use ss_base::{FaultyRead, FaultyWrite};
use ss_code::model::Model;
use ss_machine::Stop;
use std::alloc::Global;

// One run for each piece of ticks, up to the first answer other than a pause; one run without a tick
// where there is no piece.
fn run_pieces<R: FaultyRead, W: FaultyWrite>(session: &mut Session<R, W>, pieces: &[u64]) -> Stop
    requires goes_on { CanGoOn session.old }
    requires first { (session_machine session.old).used ≡ 0 }
    ensures was_run { (code : Generated) (reader : R) (writer : W) → IsNewSession code reader writer session.old → HasRun R.remaining R.faults W.contents W.faults code reader writer [] session.old → (done : List ℕ) × (after : List ℕ) × (runs_of pieces.now ≡ done ++ after) × HasBeenRun R.remaining R.faults W.contents W.faults code reader writer done session.new }
    ensures stopped { result ≡ last_stop (session_machine session.new).stopped }
    ensures never_failed { result ≡ Stop.Failed → ⊥ }
    ensures used { (session_machine session.new).used ≤ sum pieces.now }
    ensures paused { result ≡ Stop.Paused → (session_machine session.new).used ≡ handed_out pieces.now }
{
    let Some((first, rest)) = pieces.split_first() else {
        return session.run(0);
    };
    let mut stop = session.run(*first);
    for ticks in rest {
        if stop != Stop::Paused {
            break;
        }
        stop = session.run(*ticks);
    }
    stop
}

/// Runs a model with the input of this reader and this writer for its report, once for each piece of
/// ticks up to the first answer other than a pause, or once without a tick where there is no piece.
///
/// It answers why the last run stopped, the ticks used, and the reader and the writer after the last run.
/// Where memory was refused before the first instruction, it answers `Memory` and 0.
pub fn run_model<R: FaultyRead, W: FaultyWrite>(
    alloc: Global,
    model: Model,
    reader: R,
    writer: W,
    pieces: &[u64],
) -> (Stop, u64, R, W)
    ensures simulated { (text : List ℕ) → IsCompiledTo text model → IsSimulated R.remaining W.contents text result.0 result.1 reader result.2 writer result.3 }
    ensures where_cut { (text : List ℕ) → IsCompiledTo text model → HasBeenCut R.remaining W.contents text result.0 result.1 reader result.2 writer result.3 }
    ensures used { result.1 ≤ handed_out pieces.now }
    ensures never_failed { result.0 ≡ Stop.Failed → ⊥ }
    ensures paused { result.0 ≡ Stop.Paused → result.1 ≡ handed_out pieces.now }
    ensures output { result.0 ≡ Stop.Output → (text : List ℕ) → IsCompiledTo text model → HasLastRun R.remaining W.contents text pieces.now result.1 reader writer (λ reader_then writer_then. HasRisen (W.faults writer_then) (W.faults result.3)) }
    ensures input { result.0 ≡ Stop.Input → (text : List ℕ) → IsCompiledTo text model → HasLastRun R.remaining W.contents text pieces.now result.1 reader writer (λ reader_then writer_then. HasRisen (R.faults reader_then) (R.faults result.2)) }
{
    sessions_are_meant::<R, W>();
    sessions_are_cut::<R, W>();
    let mut session = match Session::start(alloc, model, reader, writer) {
        Ok(session) => session,
        Err((reader, writer)) => return (Stop::Memory, 0, reader, writer),
    };
    let stop = run_pieces(&mut session, pieces);
    let used = session.used();
    let (reader, writer) = session.close();
    (stop, used, reader, writer)
}
