//! Cases tried.

use crate::cases::{Case, Judge};
use crate::compared::{compare_streams, compare_used};
use crate::judged::{compare_outcome, cut_short, judge_rules, judge_tree};
use crate::session::run_session;
use crate::simulator::Simulator;
use crate::streams::CaseStreams;
use ss_base::Plan;
use std::alloc::{AllocError, Global};
use std::fmt;

/// How a case fared.
#[derive(Drop)]
pub struct Verdict {
    /// What came that is not wanted, in words; empty where all is as wanted.
    pub found: String,
    /// The bytes a call of the reader with which the first of it came, where the case was run.
    reader: Option<usize>,
}

impl fmt::Display for Verdict {
    fn fmt<W: fmt::Write>(&self, f: &mut fmt::Formatter<W>) -> fmt::Result {
        let found = &self.found;
        match self.reader {
            Some(per_call) => write!(f, "reader {per_call}: {found}"),
            None => f.write_str(found),
        }
    }
}

/// Tries a case. With readers in turn, up to the first with which something came that is not wanted.
pub fn tried<S: Simulator>(
    alloc: Global,
    simulator: &S,
    case: &Case<'_>,
) -> Result<Verdict, AllocError> {
    let mut verdict = Verdict {
        found: String::new(alloc),
        reader: None,
    };
    judge(alloc, simulator, case, &mut verdict)?;
    if let Some(refusals) = &case.cut_short {
        cut_short(alloc, simulator, &case.model, refusals, &mut verdict.found)?;
    }
    Ok(verdict)
}

// Judges a case by what is to judge it.
fn judge<S: Simulator>(
    alloc: Global,
    simulator: &S,
    case: &Case<'_>,
    verdict: &mut Verdict,
) -> Result<(), AllocError> {
    match case.judge() {
        Judge::Tree => judge_tree(alloc, simulator, case, &mut verdict.found),
        Judge::Rules => judge_rules(alloc, simulator, case, &mut verdict.found),
        Judge::Run => run_with_readers(alloc, simulator, case, verdict),
    }
}

// Runs a case with its reader, or with the usual ones.
fn run_with_readers<S: Simulator>(
    alloc: Global,
    simulator: &S,
    case: &Case<'_>,
    verdict: &mut Verdict,
) -> Result<(), AllocError> {
    let usual = [Plan::smooth(1), Plan::smooth(7), Plan::smooth(4096)];
    match case.reader {
        Some(reader) => run_with_plans(alloc, simulator, case, &[reader.plan], verdict),
        None => run_with_plans(alloc, simulator, case, &usual, verdict),
    }
}

// Runs a case with readers of each of these plans up to the first with which something differs, and notes that
// reader's bytes a call.
fn run_with_plans<S: Simulator>(
    alloc: Global,
    simulator: &S,
    case: &Case<'_>,
    plans: &[Plan],
    verdict: &mut Verdict,
) -> Result<(), AllocError> {
    for plan in plans {
        run_with(alloc, simulator, case, *plan, &mut verdict.found)?;
        if !verdict.found.is_empty() {
            verdict.reader = Some(plan.per_call);
            break;
        }
    }
    Ok(())
}

// Runs a case with a reader of this plan.
fn run_with<S: Simulator>(
    alloc: Global,
    simulator: &S,
    case: &Case<'_>,
    plan: Plan,
    found: &mut String,
) -> Result<(), AllocError> {
    let streams = CaseStreams::new(alloc, case, plan)?;
    if case.calls.is_empty() {
        run_whole(alloc, simulator, case, streams, found)
    } else {
        run_session(alloc, simulator, case, streams, found)
    }
}

// Runs a case with all its ticks.
fn run_whole<S: Simulator>(
    alloc: Global,
    simulator: &S,
    case: &Case<'_>,
    streams: CaseStreams,
    found: &mut String,
) -> Result<(), AllocError> {
    let (outcome, streams) = simulator.run(alloc, &case.model, streams, case.pieces());
    compare_run(alloc, simulator, case, outcome, &streams, found)
}

// Adds a result of a run that is not the wanted one.
fn compare_run<S: Simulator>(
    alloc: Global,
    simulator: &S,
    case: &Case<'_>,
    outcome: S::Outcome,
    streams: &CaseStreams,
    found: &mut String,
) -> Result<(), AllocError> {
    compare_outcome(alloc, simulator, case, outcome, found)?;
    compare_used(case.used, simulator.ticks_used(outcome), found)?;
    compare_streams(case, streams, found)
}
