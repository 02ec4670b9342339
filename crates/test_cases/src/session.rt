//! Cases run as sessions.

use crate::cases::Case;
use crate::compared::{add_no_session, compare_call, compare_streams, compare_used};
use crate::ending::line_in;
use crate::simulator::Simulator;
use crate::streams::CaseStreams;
use crate::words::SessionCall;
use std::alloc::{AllocError, Global};

/// Runs a case as a session, if that can be started.
pub fn run_session<S: Simulator>(
    alloc: Global,
    simulator: &S,
    case: &Case<'_>,
    streams: CaseStreams,
    found: &mut String,
) -> Result<(), AllocError> {
    match simulator.start(alloc, &case.model, streams) {
        Ok(session) => run_started(alloc, simulator, case, session, found),
        Err(refusal) => report_no_session(alloc, simulator, refusal, found),
    }
}

// Notes that there is no session, since the text is refused.
fn report_no_session<S: Simulator>(
    alloc: Global,
    simulator: &S,
    refusal: S::Outcome,
    found: &mut String,
) -> Result<(), AllocError> {
    let printed = simulator.printed(alloc, refusal)?;
    add_no_session(found, line_in(&printed))
}

// Runs a session to its last call.
fn run_started<S: Simulator>(
    alloc: Global,
    simulator: &S,
    case: &Case<'_>,
    mut session: S::Session,
    found: &mut String,
) -> Result<(), AllocError> {
    let called = run_calls(alloc, simulator, case, &mut session, found);
    let streams = simulator.close(session);
    match called {
        Ok(()) => compare_streams(case, &streams, found),
        Err(error) => Err(error),
    }
}

// Runs a session call by call, and notes what comes that is not wanted.
fn run_calls<S: Simulator>(
    alloc: Global,
    simulator: &S,
    case: &Case<'_>,
    session: &mut S::Session,
    found: &mut String,
) -> Result<(), AllocError> {
    let mut number: u64 = 0;
    let mut used: u64 = 0;
    for call in &case.calls {
        number = number.saturating_add(1);
        let outcome = simulator.call(session, call.ticks);
        used = simulator.ticks_used(outcome);
        compare_stop(alloc, simulator, number, *call, outcome, found)?;
        compare_used(call.used, used, found)?;
    }
    compare_used(case.used, used, found)
}

// Notes where a call's answer is not the one that is wanted.
fn compare_stop<S: Simulator>(
    alloc: Global,
    simulator: &S,
    number: u64,
    call: SessionCall<'_>,
    outcome: S::Outcome,
    found: &mut String,
) -> Result<(), AllocError> {
    let printed = simulator.printed(alloc, outcome)?;
    compare_call(number, call, line_in(&printed), found)
}
